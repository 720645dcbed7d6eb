// The formulas of step 4, over slices of exactly their matrices' sizes.
//   Unknowns           what they are over: a modulus, unknowns and right-hand sides
//   write_w, write_c   what step 4 sends
ghost use Rattle.std.specs.Prelude.{◌≡◌, ◌+◌, ◌*◌, ◌≤◌, length};
ghost use Rattle.algebra.specs.System.{send_w, send_c};
ghost use Rattle.algebra.specs.Words.{over};
ghost use Rattle.blinder.specs.Second.{Small, inner_w};

use matrix::{Sides, write_deal, write_product, write_share};
use vectors::{write_cols, write_sum};

// A system modulo q of n unknowns, with rhs columns of right-hand sides.
#[derive(Clone, Copy)]
pub struct Unknowns {
    pub q: u32,
    pub n: usize,
    pub rhs: usize,
}

// The sides of a product of an n by n matrix with one of p columns.
fn square_by(s: Unknowns, p: usize) -> Sides
    ensures { result ≡ record { q = s.q; m = s.n; k = s.n; p = p } }
{
    Sides {
        q: s.q,
        m: s.n,
        k: s.n,
        p,
    }
}

// P × M + U' − F, which times Q gives W + G.
fn write_inner(s: Unknowns, u0: &[u32], f: &[u32], pm: &[u32], mm: &[u32], out: &mut [u32])
    requires { Small s.q s.n s.rhs × (length u0.now ≡ s.n * (s.n + s.rhs)) × (length f.now ≡ s.n * s.n)
        × (length pm.now ≡ s.n * s.n) × (length mm.now ≡ s.n * s.n) × (s.n * s.n ≤ length out.old) }
    ensures { out.new ≡ over (inner_w s.q s.n s.rhs u0.now f.now pm.now mm.now)
        out.old }
{
    let n = s.n;
    let square = n * n;
    let mut first = [0u32; 256];
    write_cols(n, n + s.rhs, 0, n, u0, &mut first);
    write_share(square_by(s, n), pm, mm, &first[..square], f, out);
}

// W = (U' − F) × Q + P × M × Q − G, as (P × M + U' − F) × Q − G: two products instead of three.
pub fn write_w(
    s: Unknowns,
    u0: &[u32],
    f: &[u32],
    qm: &[u32],
    pm: &[u32],
    mm: &[u32],
    g: &[u32],
    out: &mut [u32],
)
    requires { Small s.q s.n s.rhs × (length u0.now ≡ s.n * (s.n + s.rhs)) × (length f.now ≡ s.n * s.n)
        × (length qm.now ≡ s.n * s.n) × (length pm.now ≡ s.n * s.n) × (length mm.now ≡ s.n * s.n) × (length g.now ≡ s.n * s.n)
        × (s.n * s.n ≤ length out.old) }
    ensures { out.new ≡ over (send_w s.q s.n s.rhs u0.now f.now qm.now pm.now
        mm.now g.now) out.old }
{
    let n = s.n;
    let square = n * n;
    let mut inner = [0u32; 256];
    write_inner(s, u0, f, pm, mm, &mut inner);
    write_deal(square_by(s, n), &inner[..square], qm, g, out);
}

// c = u + P × y.
pub fn write_c(s: Unknowns, u0: &[u32], pm: &[u32], y: &[u32], out: &mut [u32])
    requires { Small s.q s.n s.rhs × (length u0.now ≡ s.n * (s.n + s.rhs)) × (length pm.now ≡ s.n * s.n)
        × (length y.now ≡ s.n * s.rhs) × (s.n * s.rhs ≤ length out.old) }
    ensures { out.new ≡ over (send_c s.q s.n s.rhs u0.now pm.now y.now) out.old }
{
    let n = s.n;
    let rhs = s.rhs;
    let side = n * rhs;
    let mut last = [0u32; 16];
    let mut product = [0u32; 16];
    write_cols(n, n + rhs, n, rhs, u0, &mut last);
    write_product(square_by(s, rhs), pm, y, &mut product);
    write_sum(s.q, side, &last[..side], &product[..side], out);
}
