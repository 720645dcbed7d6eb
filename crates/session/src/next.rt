// The step that is due, by the record's end.
//   solver_ending, blinder_ending           the last step, a system's or a determinant's, by the session
//   right, solver, blinder                  the steps of each end
//   next_step                               all of them
ghost use Rattle.std.specs.Prelude.{◌≡◌, [], cond, eqb, length};
ghost use Rattle.protocol.specs.Message.{message_in};
ghost use Rattle.protocol.specs.Product.{right_last};
ghost use Rattle.protocol.specs.System.{solver_second, solver_ending, blinder_second};
ghost use Rattle.tape.specs.Placed.{slot_in};
ghost use Rattle.judging.specs.Leaves.{leaves, leaving};
ghost use Rattle.entry.specs.Record.{right_of, solver_of, blinder_of, of_right, of_solver, of_blinder};
ghost use Rattle.entry.specs.Steps.{recorded, blinder_ending, next_step};
ghost use Rattle.local.specs.Settled.{is_accepted, is_settled};

use crate::record::Kept;
use crate::{Done, is_settled, kept, over};
use blinder::{BlinderAnswer, blinder_determinant, blinder_last, blinder_second};
use entry::{BLINDER, SOLVER, Session};
use product::right_last;
use protocol::{BlinderSession, Incoming, RightSession, SolverSession};
use solver::{SolverAnswer, solver_determinant, solver_last, solver_second};
use tape::Place;

// ---- the last steps of a system and of a determinant

fn solver_ending(
    pool: &mut [u32],
    at: Place,
    s: SolverSession,
    a: Incoming,
    out: &mut [u32],
) -> SolverAnswer
    ensures { leaving result.answer result.session result.head pool.new [] out.new []
        ≡ leaves s (slot_in pool.old at) [] out.old []
        (solver_ending s (slot_in pool.old at) (message_in a.entry) (length out.old)) }
{
    let t = s.terms;
    if t.p == t.m {
        return solver_determinant(pool, at, s, a, out);
    }
    solver_last(pool, at, s, a, out)
}

fn blinder_ending(
    pool: &mut [u32],
    at: Place,
    scratch: &mut [u32],
    s: BlinderSession,
    a: Incoming,
    res: &mut [u32],
) -> BlinderAnswer
    ensures { leaving result.answer result.session result.head pool.new scratch.new [] res.new
        ≡ leaves s (slot_in pool.old at) scratch.old [] res.old
        (blinder_ending s (slot_in pool.old at) scratch.old (message_in a.entry) (length res.old)) }
{
    let t = s.terms;
    if t.p == t.m {
        return blinder_determinant(pool, at, scratch, s, a, res);
    }
    blinder_last(pool, at, scratch, s, a, res)
}

// ---- the steps

fn right(pool: &mut [u32], at: Place, x: Session, a: Incoming, res: &mut [u32]) -> Done
    ensures { leaving result.answer result.session result.head pool.new [] [] res.new
        ≡ leaves x (slot_in pool.old at) [] [] res.old
        (recorded of_right (right_last (right_of x) (slot_in pool.old at) (message_in a.entry) (length res.old))) }
{
    let d = right_last(pool, at, RightSession::held(x), a, res);
    over(d.answer.is_ok(), kept(d), x)
}

fn solver(pool: &mut [u32], at: Place, x: Session, a: Incoming, out: &mut [u32]) -> Done
    ensures { leaving result.answer result.session result.head pool.new [] out.new []
        ≡ leaves x (slot_in pool.old at) [] out.old []
        (recorded of_solver (cond (eqb x.due 2)
        (solver_second (solver_of x) (slot_in pool.old at) (message_in a.entry) (length out.old))
        (solver_ending (solver_of x) (slot_in pool.old at) (message_in a.entry) (length out.old)))) }
{
    let s = SolverSession::held(x);
    if x.due == 2 {
        let second = solver_second(pool, at, s, a, out);
        return over(is_settled(second.answer), kept(second), x);
    }
    let last = solver_ending(pool, at, s, a, out);
    over(is_settled(last.answer), kept(last), x)
}

fn blinder(
    pool: &mut [u32],
    at: Place,
    scratch: &mut [u32],
    x: Session,
    a: Incoming,
    out: &mut [u32],
    res: &mut [u32],
) -> Done
    ensures { leaving result.answer result.session result.head pool.new scratch.new out.new res.new
        ≡ leaves x (slot_in pool.old at) scratch.old out.old res.old
        (recorded of_blinder (cond (eqb x.due 3)
        (blinder_second (blinder_of x) (slot_in pool.old at) scratch.old (message_in a.entry)
        (length out.old))
        (blinder_ending (blinder_of x) (slot_in pool.old at) scratch.old (message_in a.entry)
        (length res.old)))) }
{
    let s = BlinderSession::held(x);
    if x.due == 3 {
        let second = blinder_second(pool, at, scratch, s, a, out);
        return over(second.answer.is_ok(), kept(second), x);
    }
    let last = blinder_ending(pool, at, scratch, s, a, res);
    over(last.answer.is_ok(), kept(last), x)
}

pub fn next_step(
    pool: &mut [u32],
    at: Place,
    scratch: &mut [u32],
    x: Session,
    a: Incoming,
    out: &mut [u32],
    res: &mut [u32],
) -> Done
    ensures { leaving result.answer result.session result.head pool.new scratch.new out.new res.new
        ≡ leaves x (slot_in pool.old at) scratch.old out.old res.old
        (next_step x (slot_in pool.old at) scratch.old (message_in a.entry)
        (length out.old) (length res.old)) }
{
    match x.end {
        SOLVER => solver(pool, at, x, a, out),
        BLINDER => blinder(pool, at, scratch, x, a, out, res),
        _ => right(pool, at, x, a, res),
    }
}
