// An end's first step over a record that must hold no open session. Over an open one the step's tests are made all the same, since a lower
// refusal than 5 goes before it.
//   check_first   the tests of an end's first step
//   first_over    the step
ghost use Rattle.std.specs.Prelude.{◌≡◌, false, [], ◌∷◌, length};
ghost use Rattle.protocol.specs.Message.{message_in};
ghost use Rattle.tape.specs.Placed.{slot_in};
ghost use Rattle.judging.specs.InOrder.{checked};
ghost use Rattle.judging.specs.Leaves.{leaves, leaving};
ghost use Rattle.entry.specs.Steps.{first_step, first_over};
ghost use Rattle.local.specs.Settled.{judgement};

use crate::first::{first_step, square_of};
use crate::{Done, over};
use entry::{BLINDER, LEFT, RIGHT, SOLVER, Session};
use judging::message::no_head;
use judging::{Check, Stepped, answer_of, need, worst};
use protocol::{Incoming, Refusal, Terms};
use tape::Place;

// `room` and `share`: how many words the message's and the result's slices have.
fn check_first(
    pool: &[u32],
    at: Place,
    scratch: &[u32],
    end: u32,
    t: Terms,
    input: &[u32],
    words: &[u32],
    a: Incoming,
    room: usize,
    share: usize,
) -> Check
    ensures { checked result ≡ judgement (first_step end t (slot_in pool.now at) scratch.now input.now words.now
        (message_in a.entry) room share) }
{
    let n = square_of(t, input);
    match end {
        LEFT => product::left::check(pool, at, t, input, words, a, room, share),
        RIGHT => product::first::check(pool, at, t, input, room),
        BLINDER => blinder::first::check(
            pool,
            at,
            scratch.len(),
            t,
            &input[..n],
            &input[n..],
            words,
            a,
            room,
        ),
        SOLVER => solver::first::check(pool, at, t, &input[..n], &input[n..], room),
        _ => Err(Refusal::Size),
    }
}

pub fn first_over(
    pool: &mut [u32],
    at: Place,
    scratch: &mut [u32],
    x: Session,
    end: u32,
    t: Terms,
    input: &[u32],
    words: &[u32],
    a: Incoming,
    out: &mut [u32],
    res: &mut [u32],
) -> Done
    ensures { leaving result.answer result.session result.head pool.new scratch.new out.new res.new
        ≡ leaves x (slot_in pool.old at) scratch.old out.old res.old
        (first_over x end t (slot_in pool.old at) scratch.old input.now words.now
        (message_in a.entry) (length out.old) (length res.old)) }
{
    if x.due == 0 {
        let d = first_step(pool, at, scratch, end, t, input, words, a, out, res);
        return over(d.answer.is_ok(), d, x);
    }
    let room = out.len();
    let share = res.len();
    let checked = check_first(pool, at, scratch, end, t, input, words, a, room, share);
    let open = need(Refusal::Turn, false);
    Stepped {
        answer: answer_of(worst(open, checked)),
        session: x,
        head: no_head(),
    }
}
