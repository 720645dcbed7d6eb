// W + V: a system's last step solves by it, and a determinant's answers its determinant.
ghost use Rattle.std.specs.Prelude.{◌≡◌, ◌*◌, ◌≤◌, ◌<◌, length};
ghost use Rattle.algebra.specs.Words.{over};
ghost use Rattle.protocol.specs.Tape.{solver};
ghost use Rattle.tape.specs.Placed.{Placed, slot_in};
ghost use Rattle.solver.specs.Formulas.{sum_of};

use protocol::Terms;
use tape::half::matrix;
use tape::{End, Place};
use vectors::{times, write_sum};

// By the message's residues and the half's V.
pub fn write_joint(pool: &[u32], at: Place, t: Terms, residues: &[u32], out: &mut [u32])
    requires { (0 < t.q) × Placed solver t (slot_in pool.now at) × (t.m * t.k ≤ length residues.now) × (t.m * t.k ≤ length out.old) }
    ensures { out.new ≡ over (sum_of t (slot_in pool.now at) residues.now) out.old }
{
    let n = times(t.m, t.k);
    let v = matrix(End::Solver, t, 3, pool, at);
    write_sum(t.q, n, &residues[..n], v, out);
}
