// What bench/field.c times: the prime test, and a run of inverses.
// No function here is for hosts.
#![tactic(auto)]

ghost use Rattle.std.specs.Prelude.{◌≡◌};
ghost use Rattle.algebra.specs.Prime.{is_prime};

use field::Field;

#[unsafe(no_mangle)]
pub extern "C" fn bench_is_prime(q: u32) -> bool
    ensures { result ≡ is_prime q }
{
    prime::is_prime(q)
}

// The sum modulo 2³² of the inverses of 1 to n, or 0 where q is no modulus of a system. Inverses from q on are left out.
#[unsafe(no_mangle)]
pub extern "C" fn bench_inverses(q: u32, n: u32) -> u32 {
    let Ok(field) = Field::of_system(q) else {
        return 0;
    };
    let mut sum: u32 = 0;
    for a in 1..=n.min(field.q - 1) {
        sum = sum.wrapping_add(field::inverse_mod(field.q, a));
    }
    sum
}
