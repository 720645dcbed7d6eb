// What bench/elimination.c times: whether a matrix has an inverse, its determinant, and the solution of a system. C hands over what is asked here.
// No function here is for hosts.
#![tactic(auto)]

ghost use Rattle.std.specs.Prelude.{◌≡◌, true, ◌*◌, ◌≤◌, ◌<◌, length};
ghost use Rattle.algebra.specs.Matrix.{Residues};
ghost use Rattle.algebra.specs.Prime.{is_prime};
ghost use Rattle.algebra.specs.Elimination.{regular};
ghost use Rattle.determinant.specs.Determinant.{det};

#[unsafe(no_mangle)]
pub extern "C" fn bench_has_inverse(q: u32, n: usize, a: &[u32]) -> bool
    requires { (is_prime q ≡ true) × (q < 2147483648) × (n ≤ 16) × Residues q (n * n) a.now }
    ensures { result ≡ regular q n a.now }
{
    elimination::has_inverse(q, n, a)
}

#[unsafe(no_mangle)]
pub extern "C" fn bench_determinant(q: u32, n: usize, a: &[u32]) -> u32
    requires { (is_prime q ≡ true) × (q < 2147483648) × (n ≤ 16) × Residues q (n * n) a.now }
    ensures { result ≡ det q n a.now }
{
    elimination::determinant(q, n, a)
}

#[unsafe(no_mangle)]
pub extern "C" fn bench_solve(q: u32, n: usize, a: &[u32], b: &[u32], out: &mut [u32]) -> bool
    requires { (is_prime q ≡ true) × (q < 2147483648) × (n ≤ 16) × Residues q (n * n) a.now × Residues q (n * 1) b.now × (n ≤ length out.old) }
    ensures { result ≡ regular q n a.now }
{
    elimination::solve(q, n, a, b, out)
}
