// Step 1: the solver sends Y1 = [L, x] − Y0, and its half is in use.
//   check          the tests
//   compute        the message and the session
//   solver_first   the step
ghost use Rattle.std.specs.Prelude.{◌≡◌, true, [], ◌++◌, ◌*◌, ◌≤◌, ◌<◌, length};
ghost use Rattle.algebra.specs.Columns.{beside};
ghost use Rattle.algebra.specs.Words.{over};
ghost use Rattle.algebra.specs.Product.{send_y};
ghost use Rattle.protocol.specs.Judge.{done};
ghost use Rattle.protocol.specs.Bounds.{sides_fit, system, columns, input_tests, room_tests};
ghost use Rattle.protocol.specs.Tape.{solver};
ghost use Rattle.protocol.specs.Message.{message_size};
ghost use Rattle.protocol.specs.Step.{first_tests};
ghost use Rattle.protocol.specs.System.{no_solver, side_size, solver_first_effect, solver_first_tests, solver_first};
ghost use Rattle.tape.specs.Placed.{slot_in};
ghost use Rattle.judging.specs.InOrder.{checked, judged};
ghost use Rattle.judging.specs.Leaves.{leaves, leaving, computed, computing};

use crate::{SolverAnswer, no_session, session_of};
use elimination::has_inverse;
use judging::message::{has_room, side_size};
use judging::step::check_first;
use judging::{Check, Stepped, check_input, need, worst};
use protocol::{Head, Refusal, SolverSession, Terms};
use tape::change::take_up_at;
use tape::half::matrix;
use tape::{End, Place};
use vectors::{times, write_beside, write_difference};

// All tests but that L has an inverse.
fn check_inputs(pool: &[u32], at: Place, t: Terms, l: &[u32], x: &[u32], room: usize) -> Check
    ensures { checked result ≡ judged (first_tests solver t (slot_in pool.now at) ++ input_tests t.q (t.m * t.m) l.now
        ++ input_tests t.q (side_size t) x.now ++ room_tests (message_size 1 t) room) }
{
    let shared = check_first(End::Solver, t, pool, at);
    let matrix = check_input(t.q, times(t.m, t.m), l);
    let vector = check_input(t.q, side_size(t), x);
    let sent = need(Refusal::Size, has_room(1, t, room));
    worst(worst(worst(shared, matrix), vector), sent)
}

pub fn check(pool: &[u32], at: Place, t: Terms, l: &[u32], x: &[u32], room: usize) -> Check
    ensures { checked result ≡ judged (solver_first_tests t (slot_in pool.now at) l.now x.now room) }
{
    check_inputs(pool, at, t, l, x, room)?;
    need(Refusal::Singular, has_inverse(t.q, t.m as usize, l))
}

// Y1, by Y0.
fn write_y1(t: Terms, l: &[u32], x: &[u32], y0: &[u32], out: &mut [u32])
    requires { (0 < t.q) × (sides_fit system t.m t.k t.p ≡ true) × (length l.now ≡ t.m * t.m) × (length x.now ≡ side_size t)
        × (length y0.now ≡ t.k * t.p) × (t.k * t.p ≤ length out.old) }
    ensures { out.new ≡ over (send_y t.q t.m t.m t.p
        (beside t.m t.m (columns t.m t.p) l.now x.now) y0.now) out.old }
{
    let n = t.m as usize;
    let size = times(t.m, t.p);
    let mut y = [0u32; 272];
    write_beside(n, n, (t.p - t.m) as usize, l, x, &mut y);
    write_difference(t.q, size, &y[..size], y0, out);
}

// Y1 goes into `out`; the session waits for kind 2.
fn compute(pool: &[u32], at: Place, t: Terms, l: &[u32], x: &[u32], out: &mut [u32]) -> SolverAnswer
    requires { judged (solver_first_tests t (slot_in pool.now at) l.now x.now (length out.old)) ≡ done tt }
    ensures { computing result.answer result.session result.head [] out.new []
        ≡ computed [] out.old [] (solver_first_effect t (slot_in pool.now at) l.now x.now) }
{
    let y0 = matrix(End::Solver, t, 0, pool, at);
    write_y1(t, l, x, y0, out);
    Stepped::accepted(session_of(t, 2), Head { kind: 1, terms: t })
}

// Step 1 (RULES 5.3): Y1 = [L, x] − Y0.
pub fn solver_first(
    pool: &mut [u32],
    at: Place,
    t: Terms,
    l: &[u32],
    x: &[u32],
    out: &mut [u32],
) -> SolverAnswer
    ensures { leaving result.answer result.session result.head pool.new [] out.new []
        ≡ leaves no_solver (slot_in pool.old at) [] out.old []
        (solver_first t (slot_in pool.old at) l.now x.now (length out.old)) }
{
    if let Err(r) = check(pool, at, t, l, x, out.len()) {
        return Stepped::refused(r, no_session());
    }
    let done = compute(pool, at, t, l, x, out);
    take_up_at(End::Solver, t, pool, at);
    done
}
