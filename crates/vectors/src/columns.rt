// Matrices row by row: how many words one has, its columns, and two side by side. The words past the count keep their value.
ghost use Rattle.std.specs.Prelude.{◌≡◌, ◌++◌, ◌+◌, ◌*◌, ◌≤◌, length};
ghost use Rattle.algebra.specs.Columns.{cols, beside};
ghost use Rattle.algebra.specs.Words.{over};
ghost use Rattle.vectors.specs.Fill.{first_words};

use crate::entries::write_copy;

// The words of a matrix.
pub fn times(a: u32, b: u32) -> usize
    ensures { result ≡ a * b }
{
    a as usize * b as usize
}

// p columns, from column s on, of a matrix with m rows and w columns.
#[tactic(auto, using(crate::proofs::Rows::row_fits))]
pub fn write_cols(m: usize, w: usize, s: usize, p: usize, a: &[u32], out: &mut [u32])
    requires { (s + p ≤ w) × (m * w ≤ length a.now) × (m * p ≤ length out.old) }
    ensures { out.new ≡ over (cols m w s p a.now) out.old }
{
    for i in 0..m {
        let from = i * w + s;
        let to = i * p;
        write_copy(p, &a[from..], &mut out[to..]);
    }
}

// p words of a, and then r of b.
fn write_row(p: usize, r: usize, a: &[u32], b: &[u32], out: &mut [u32])
    requires { (p ≤ length a.now) × (r ≤ length b.now) × (p + r ≤ length out.old) }
    ensures { out.new ≡ over (first_words p a.now ++ first_words r b.now) out.old }
{
    write_copy(p, a, out);
    write_copy(r, b, &mut out[p..]);
}

// [A, B]: p columns of a and r columns of b, with m rows.
#[tactic(auto, using(crate::proofs::Rows::row_fits))]
pub fn write_beside(m: usize, p: usize, r: usize, a: &[u32], b: &[u32], out: &mut [u32])
    requires { (m * p ≤ length a.now) × (m * r ≤ length b.now) × (m * (p + r) ≤ length out.old) }
    ensures { out.new ≡ over (beside m p r a.now b.now) out.old }
{
    for i in 0..m {
        let first = i * p;
        let second = i * r;
        let to = i * (p + r);
        write_row(p, r, &a[first..], &b[second..], &mut out[to..]);
    }
}
