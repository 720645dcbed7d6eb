// An end's first step, by the end's number.
//   square_of                      how many words of a system's input are its matrix
//   left, right, blinder, solver   the step of each end
//   first_step                     all of them
// A refused step answers with a record that is not open (`unopened`).
ghost use Rattle.std.specs.Prelude.{◌≡◌, [], ◌*◌, ◌≤◌, length, take, drop};
ghost use Rattle.protocol.specs.Message.{message_in};
ghost use Rattle.protocol.specs.Product.{no_right, left_step, right_first};
ghost use Rattle.protocol.specs.System.{no_blinder, no_solver, blinder_first, solver_first};
ghost use Rattle.tape.specs.Placed.{slot_in};
ghost use Rattle.judging.specs.Leaves.{leaves, leaving};
ghost use Rattle.entry.specs.Record.{of_left, of_right, of_solver, of_blinder};
ghost use Rattle.entry.specs.Steps.{recorded, first_step};
ghost use Rattle.local.specs.Settled.{unopened};

use crate::record::of_left;
use crate::{Done, kept};
use blinder::blinder_first;
use entry::{BLINDER, LEFT, RIGHT, SOLVER};
use judging::Stepped;
use product::{left_step, right_first};
use protocol::{Incoming, Refusal, Terms};
use solver::solver_first;
use tape::Place;
use vectors::times;

// All of an input that is shorter.
pub fn square_of(t: Terms, input: &[u32]) -> usize
    ensures { (result ≤ length input.now) × (take result input.now ≡ take (t.m * t.m) input.now)
        × (drop result input.now ≡ drop (t.m * t.m) input.now) }
{
    times(t.m, t.m).min(input.len())
}

#[inline(never)]
fn left(
    pool: &mut [u32],
    at: Place,
    t: Terms,
    input: &[u32],
    words: &[u32],
    a: Incoming,
    out: &mut [u32],
    res: &mut [u32],
) -> Done
    ensures { leaving result.answer result.session result.head pool.new [] out.new res.new
        ≡ leaves (of_left t) (slot_in pool.old at) [] out.old res.old
        (recorded (λ _. of_left t) (left_step t (slot_in pool.old at) input.now words.now
        (message_in a.entry) (length out.old) (length res.old))) }
{
    let d = left_step(pool, at, t, input, words, a, out, res);
    Stepped {
        answer: d.answer,
        session: of_left(t),
        head: d.head,
    }
}

#[inline(never)]
fn right(pool: &mut [u32], at: Place, t: Terms, input: &[u32], out: &mut [u32]) -> Done
    ensures { leaving result.answer result.session result.head pool.new [] out.new []
        ≡ leaves (of_right no_right) (slot_in pool.old at) [] out.old []
        (recorded of_right (right_first t (slot_in pool.old at) input.now (length out.old))) }
{
    kept(right_first(pool, at, t, input, out))
}

#[inline(never)]
fn blinder(
    pool: &mut [u32],
    at: Place,
    scratch: &mut [u32],
    t: Terms,
    input: &[u32],
    words: &[u32],
    a: Incoming,
    out: &mut [u32],
) -> Done
    ensures { leaving result.answer result.session result.head pool.new scratch.new out.new []
        ≡ leaves (of_blinder no_blinder) (slot_in pool.old at) scratch.old out.old []
        (recorded of_blinder (blinder_first t (slot_in pool.old at) (length scratch.old)
        (take (t.m * t.m) input.now) (drop (t.m * t.m) input.now) words.now
        (message_in a.entry) (length out.old))) }
{
    let n = square_of(t, input);
    let d = blinder_first(
        pool,
        at,
        scratch,
        t,
        &input[..n],
        &input[n..],
        words,
        a,
        out,
    );
    kept(d)
}

#[inline(never)]
fn solver(pool: &mut [u32], at: Place, t: Terms, input: &[u32], out: &mut [u32]) -> Done
    ensures { leaving result.answer result.session result.head pool.new [] out.new []
        ≡ leaves (of_solver no_solver) (slot_in pool.old at) [] out.old []
        (recorded of_solver (solver_first t (slot_in pool.old at)
        (take (t.m * t.m) input.now) (drop (t.m * t.m) input.now) (length out.old))) }
{
    let n = square_of(t, input);
    kept(solver_first(pool, at, t, &input[..n], &input[n..], out))
}

// Of another end than the four nothing is judged but that.
pub fn first_step(
    pool: &mut [u32],
    at: Place,
    scratch: &mut [u32],
    end: u32,
    t: Terms,
    input: &[u32],
    words: &[u32],
    a: Incoming,
    out: &mut [u32],
    res: &mut [u32],
) -> Done
    ensures { leaving result.answer result.session result.head pool.new scratch.new out.new res.new
        ≡ leaves (unopened end t) (slot_in pool.old at) scratch.old out.old res.old
        (first_step end t (slot_in pool.old at) scratch.old input.now words.now
        (message_in a.entry) (length out.old) (length res.old)) }
{
    match end {
        LEFT => left(pool, at, t, input, words, a, out, res),
        RIGHT => right(pool, at, t, input, out),
        BLINDER => blinder(pool, at, scratch, t, input, words, a, out),
        SOLVER => solver(pool, at, t, input, out),
        _ => Stepped::refused(Refusal::Size, of_left(t)),
    }
}
