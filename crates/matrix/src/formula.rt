// A product x × y of an m by k and a k by p matrix, with other matrices added and taken away: the formulas of the sessions. What is added
// is written first, and the product's inner products are added to it, each reduced once. Each writes over the first m × p words of `out`.
ghost use Rattle.std.specs.Prelude.{◌≡◌, ◌+◌, ◌*◌, ◌≤◌, length, take, drop};
ghost use Rattle.algebra.specs.Matrix.{mat_add, mat_sub, mat_mul};
ghost use Rattle.algebra.specs.Product.{right_share};
ghost use Rattle.algebra.specs.Words.{over};
ghost use Rattle.rows.specs.Shape.{Shape};

use crate::product::add_product;
use crate::sides::Sides;
use vectors::{subtract_from, write_copy, write_difference, write_negative};

// x × y + g: the dealer's V = R × Q + G.
pub fn write_masked(s: Sides, x: &[u32], y: &[u32], g: &[u32], out: &mut [u32])
    requires { Shape s.q s.m s.k s.p (length x.now) (length y.now) (length out.old) × (s.m * s.p ≤ length g.now) }
    ensures { out.new ≡ over
        (mat_add s.q (s.m * s.p) (mat_mul s.q s.m s.k s.p x.now y.now) g.now) out.old }
{
    let n = s.m * s.p;
    write_copy(n, g, out);
    add_product(s, x, y, out);
}

// x × y − a: the dealer's B0 = X0 × Y0 − A0.
pub fn write_deal(s: Sides, x: &[u32], y: &[u32], a: &[u32], out: &mut [u32])
    requires { Shape s.q s.m s.k s.p (length x.now) (length y.now) (length out.old) × (s.m * s.p ≤ length a.now) }
    ensures { out.new ≡ over
        (mat_sub s.q (s.m * s.p) (mat_mul s.q s.m s.k s.p x.now y.now) a.now) out.old }
{
    let n = s.m * s.p;
    write_negative(s.q, n, a, out);
    add_product(s, x, y, out);
}

// x × y − u − a: left's and the blinder's R1 = X × Y1 − U − A0.
pub fn write_reply(s: Sides, x: &[u32], y: &[u32], u: &[u32], a: &[u32], out: &mut [u32])
    requires { Shape s.q s.m s.k s.p (length x.now) (length y.now) (length out.old)
        × (s.m * s.p ≤ length u.now) × (s.m * s.p ≤ length a.now) }
    ensures { out.new ≡ over
        (mat_sub s.q (s.m * s.p) (mat_sub s.q (s.m * s.p) (mat_mul s.q s.m s.k s.p x.now y.now)
        u.now) a.now) out.old }
{
    let n = s.m * s.p;
    write_negative(s.q, n, u, out);
    subtract_from(s.q, n, out, a);
    add_product(s, x, y, out);
}

// x × y + r − b: right's and the solver's share X1 × Y0 + R1 − B0.
pub fn write_share(s: Sides, x: &[u32], y: &[u32], r: &[u32], b: &[u32], out: &mut [u32])
    requires { Shape s.q s.m s.k s.p (length x.now) (length y.now) (length out.old)
        × (s.m * s.p ≤ length r.now) × (s.m * s.p ≤ length b.now) }
    ensures { out.new ≡ over
        (mat_sub s.q (s.m * s.p) (mat_add s.q (s.m * s.p) (mat_mul s.q s.m s.k s.p x.now y.now)
        r.now) b.now) out.old }
{
    let n = s.m * s.p;
    write_difference(s.q, n, r, b, out);
    add_product(s, x, y, out);
}

// The same, x and r being the two parts of one message.
pub fn write_share_of(s: Sides, message: &[u32], y: &[u32], b: &[u32], out: &mut [u32])
    requires { Shape s.q s.m s.k s.p (length message.now) (length y.now) (length out.old)
        × (s.m * s.k + s.m * s.p ≤ length message.now) × (s.m * s.p ≤ length b.now) }
    ensures { out.new ≡ over (right_share s.q s.m s.k s.p (take (s.m * s.k) message.now) y.now
        (drop (s.m * s.k) message.now) b.now) out.old }
{
    let n = s.m * s.k;
    write_share(s, &message[..n], y, &message[n..], b, out);
}
