// The drop of a session, by the record's end.
ghost use Rattle.std.specs.Prelude.{◌≡◌, [], cond};
ghost use Rattle.protocol.specs.Message.{no_message};
ghost use Rattle.protocol.specs.Drop.{drop_right, drop_solver, drop_blinder};
ghost use Rattle.tape.specs.Placed.{slot_in};
ghost use Rattle.judging.specs.Leaves.{leaves, leaving};
ghost use Rattle.entry.specs.Record.{right_of, solver_of, blinder_of, of_right, of_solver, of_blinder};
ghost use Rattle.entry.specs.Steps.{recorded, drop_step};

use crate::record::Kept;
use crate::{Done, is_settled, kept, over};
use blinder::blinder_drop;
use entry::{BLINDER, SOLVER, Session};
use judging::message::no_head;
use judging::{Dropped, Stepped};
use product::right_drop;
use protocol::{BlinderSession, RightSession, SolverSession};
use solver::solver_drop;
use tape::Place;

// A drop sends nothing.
fn silent<S>(d: Dropped<S>) -> Stepped<S>
    ensures { result ≡ record { answer = d.answer; session = d.session; head = no_message.head } }
{
    let answer = d.answer;
    let session = d.session;
    Stepped {
        answer,
        session,
        head: no_head(),
    }
}

fn right(pool: &mut [u32], at: Place, x: Session) -> Done
    ensures { leaving result.answer result.session result.head pool.new [] [] []
        ≡ leaves x (slot_in pool.old at) [] [] [] (recorded of_right (drop_right (right_of x) (slot_in pool.old at))) }
{
    let d = right_drop(pool, at, RightSession::held(x));
    over(d.answer.is_ok(), kept(silent(d)), x)
}

fn solver(pool: &mut [u32], at: Place, x: Session) -> Done
    ensures { leaving result.answer result.session result.head pool.new [] [] []
        ≡ leaves x (slot_in pool.old at) [] [] [] (recorded of_solver (drop_solver (solver_of x) (slot_in pool.old at))) }
{
    let d = solver_drop(pool, at, SolverSession::held(x));
    over(is_settled(d.answer), kept(silent(d)), x)
}

fn blinder(pool: &mut [u32], at: Place, scratch: &mut [u32], x: Session) -> Done
    ensures { leaving result.answer result.session result.head pool.new scratch.new [] []
        ≡ leaves x (slot_in pool.old at) scratch.old [] []
        (recorded of_blinder (drop_blinder (blinder_of x) (slot_in pool.old at) scratch.old)) }
{
    let d = blinder_drop(pool, at, scratch, BlinderSession::held(x));
    over(d.answer.is_ok(), kept(silent(d)), x)
}

pub fn drop_step(pool: &mut [u32], at: Place, scratch: &mut [u32], x: Session) -> Done
    ensures { leaving result.answer result.session result.head pool.new scratch.new [] []
        ≡ leaves x (slot_in pool.old at) scratch.old [] [] (drop_step x (slot_in pool.old at) scratch.old) }
{
    match x.end {
        SOLVER => solver(pool, at, x),
        BLINDER => blinder(pool, at, scratch, x),
        _ => right(pool, at, x),
    }
}
