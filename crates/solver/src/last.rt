// Step 5: the solver solves (W + V) t = c + s and sends t. Its half is spent and its session closes, also where W + V has no inverse.
//   compute       the message and the session, by write_joint and find_t
//   solver_last   the step
ghost use Rattle.std.specs.Prelude.{◌≡◌, true, cond, [], ◌+◌, ◌*◌, ◌≤◌, ◌<◌, length};
ghost use Rattle.algebra.specs.Matrix.{Residues};
ghost use Rattle.algebra.specs.Elimination.{regular, solution};
ghost use Rattle.algebra.specs.Prime.{is_prime};
ghost use Rattle.algebra.specs.Words.{over};
ghost use Rattle.protocol.specs.Judge.{done};
ghost use Rattle.protocol.specs.Bounds.{sides_fit, system};
ghost use Rattle.protocol.specs.Message.{message_in, last_kind};
ghost use Rattle.protocol.specs.System.{side_size, solver_last_effect, solver_last_tests, solver_last};
ghost use Rattle.tape.specs.Placed.{slot_in};
ghost use Rattle.judging.specs.InOrder.{judged};
ghost use Rattle.judging.specs.Leaves.{leaves, leaving, computed, computing, taken};
ghost use Rattle.solver.specs.Formulas.{side_of, last_answer, last_head, closed_terms};

use crate::joint::write_joint;
use crate::later::check;
use crate::{SolverAnswer, session_of};
use elimination::solve;
use judging::Stepped;
use judging::message::side_size;
use protocol::{Head, Incoming, Refusal, SolverSession, Terms};
use tape::change::spend_at;
use tape::{End, Place};
use vectors::{times, write_sum};

// c + s, by the message's residues and what the session keeps.
fn write_side(t: Terms, residues: &[u32], kept: &[u32], out: &mut [u32])
    requires { (0 < t.q) × (length residues.now ≡ t.m * t.k + side_size t) × (side_size t ≤ length kept.now) × (side_size t ≤ length out.old) }
    ensures { out.new ≡ over (side_of t residues.now kept.now) out.old }
{
    let from = times(t.m, t.k);
    let side = side_size(t);
    write_sum(t.q, side, &residues[from..], &kept[..side], out);
}

// Whether W + V has an inverse, and t, written where it has.
fn find_t(t: Terms, sum: &[u32], residues: &[u32], kept: &[u32], out: &mut [u32]) -> bool
    requires { (is_prime t.q ≡ true) × (1 < t.q) × (t.q < 2147483648) × (sides_fit system t.m t.k t.p ≡ true)
        × (last_kind t.m t.p ≡ 5) × Residues t.q (t.m * t.m) sum.now × (length residues.now ≡ t.m * t.k + side_size t)
        × (length kept.now ≡ 16) × (t.m ≤ length out.old) }
    ensures { (result ≡ regular t.q t.m sum.now)
        × (out.new ≡ cond (regular t.q t.m sum.now)
        (over (solution t.q t.m sum.now (side_of t residues.now kept.now)) out.old) out.old) }
{
    let side = side_size(t);
    let mut right = [0u32; 16];
    write_side(t, residues, kept, &mut right);
    solve(t.q, t.m as usize, sum, &right[..side], out)
}

// What the last step answers: t is sent, or W + V has no inverse. The session is closed.
fn answer(t: Terms, found: bool) -> SolverAnswer
    ensures { result ≡ record { answer = last_answer found; session = closed_terms t; head = last_head t found } }
{
    let session = session_of(t, 0);
    if found {
        Stepped::accepted(session, Head { kind: 5, terms: t })
    } else {
        Stepped::refused(Refusal::Singular, session)
    }
}

fn compute(
    pool: &[u32],
    at: Place,
    s: SolverSession,
    residues: &[u32],
    out: &mut [u32],
) -> SolverAnswer
    requires { judged (solver_last_tests s (slot_in pool.now at) (taken 4 s.terms residues.now) (length out.old)) ≡ done tt }
    ensures { computing result.answer result.session result.head [] out.new []
        ≡ computed [] out.old [] (solver_last_effect s (slot_in pool.now at) (taken 4 s.terms residues.now)) }
{
    let t = s.terms;
    let n = times(t.m, t.m);
    let mut sum = [0u32; 256];
    write_joint(pool, at, t, residues, &mut sum);
    let kept = s.s;
    let found = find_t(t, &sum[..n], residues, &kept, out);
    answer(t, found)
}

// Step 5 (RULES 5.7): the t with (W + V) t = c + s.
pub fn solver_last(
    pool: &mut [u32],
    at: Place,
    s: SolverSession,
    a: Incoming,
    out: &mut [u32],
) -> SolverAnswer
    ensures { leaving result.answer result.session result.head pool.new [] out.new []
        ≡ leaves s (slot_in pool.old at) [] out.old []
        (solver_last s (slot_in pool.old at) (message_in a.entry) (length out.old)) }
{
    if let Err(r) = check(pool, at, 4, 5, s, a, out.len()) {
        return Stepped::refused(r, s);
    }
    let done = compute(pool, at, s, a.residues, out);
    spend_at(End::Solver, s.terms, pool, at);
    done
}
