// Step 5 of a determinant: the solver sends the determinant of W + V, which is 0 where that has no inverse. Its half is spent and its session closes.
//   compute              the message and the session
//   solver_determinant   the step
ghost use Rattle.std.specs.Prelude.{◌≡◌, [], length};
ghost use Rattle.protocol.specs.Judge.{done};
ghost use Rattle.protocol.specs.Message.{message_in};
ghost use Rattle.protocol.specs.System.{solver_determinant_effect, solver_determinant_tests, solver_determinant};
ghost use Rattle.tape.specs.Placed.{slot_in};
ghost use Rattle.judging.specs.InOrder.{judged};
ghost use Rattle.judging.specs.Leaves.{leaves, leaving, computed, computing, taken};

use crate::joint::write_joint;
use crate::later::check;
use crate::{SolverAnswer, session_of};
use elimination::determinant;
use judging::Stepped;
use protocol::{Head, Incoming, SolverSession};
use tape::change::spend_at;
use tape::{End, Place};
use vectors::times;

// The determinant goes into `out`; the session is closed.
fn compute(
    pool: &[u32],
    at: Place,
    s: SolverSession,
    residues: &[u32],
    out: &mut [u32],
) -> SolverAnswer
    requires { judged (solver_determinant_tests s (slot_in pool.now at) (taken 4 s.terms residues.now) (length out.old)) ≡ done tt }
    ensures { computing result.answer result.session result.head [] out.new []
        ≡ computed [] out.old [] (solver_determinant_effect s (slot_in pool.now at) (taken 4 s.terms residues.now)) }
{
    let t = s.terms;
    let n = times(t.m, t.m);
    let mut sum = [0u32; 256];
    write_joint(pool, at, t, residues, &mut sum);
    out[0] = determinant(t.q, t.m as usize, &sum[..n]);
    Stepped::accepted(session_of(t, 0), Head { kind: 6, terms: t })
}

// Step 5 of a determinant (RULES 5.10): the determinant of W + V.
pub fn solver_determinant(
    pool: &mut [u32],
    at: Place,
    s: SolverSession,
    a: Incoming,
    out: &mut [u32],
) -> SolverAnswer
    ensures { leaving result.answer result.session result.head pool.new [] out.new []
        ≡ leaves s (slot_in pool.old at) [] out.old []
        (solver_determinant s (slot_in pool.old at) (message_in a.entry) (length out.old)) }
{
    if let Err(r) = check(pool, at, 4, 6, s, a, out.len()) {
        return Stepped::refused(r, s);
    }
    let done = compute(pool, at, s, a.residues, out);
    spend_at(End::Solver, s.terms, pool, at);
    done
}
