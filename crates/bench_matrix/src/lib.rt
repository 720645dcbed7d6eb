// What bench/matrix.c times: the inner product, the product, and a product with two matrices taken away. Each answers 0 or does nothing
// where its arguments don't fit.
// No function here is for hosts.
#![tactic(auto)]

ghost use Rattle.std.specs.Prelude.{◌≡◌, true};
ghost use Rattle.rows.specs.Shape.{Shape};

use field::Field;
use matrix::Sides;

#[unsafe(no_mangle)]
pub extern "C" fn bench_inner(q: u32, x: &[u32], y: &[u32]) -> u32 {
    let k = x.len();
    if (1..=Field::LARGEST).contains(&q) && k <= 2048 && k <= y.len() {
        matrix::inner_product(q, k, x, y)
    } else {
        0
    }
}

// Whether a product of an m by k and a k by p matrix can be written.
fn fits(s: Sides, x: usize, y: usize, out: usize) -> bool
    ensures { result ≡ true → Shape s.q s.m s.k s.p x y out }
{
    let Sides { q, m, k, p } = s;
    (1..=Field::LARGEST).contains(&q)
        && m <= 2048
        && k <= 2048
        && p <= 2048
        && k * p <= 2048
        && m * k <= x
        && k * p <= y
        && m * p <= out
}

#[unsafe(no_mangle)]
pub extern "C" fn bench_product(
    q: u32,
    m: usize,
    k: usize,
    p: usize,
    x: &[u32],
    y: &[u32],
    out: &mut [u32],
) {
    let s = Sides { q, m, k, p };
    if fits(s, x.len(), y.len(), out.len()) {
        matrix::write_product(s, x, y, out);
    }
}

#[unsafe(no_mangle)]
pub extern "C" fn bench_reply(
    q: u32,
    m: usize,
    k: usize,
    p: usize,
    x: &[u32],
    y: &[u32],
    u: &[u32],
    out: &mut [u32],
) {
    let s = Sides { q, m, k, p };
    if fits(s, x.len(), y.len(), out.len()) && m * p <= u.len() {
        matrix::write_reply(s, x, y, u, u, out);
    }
}
