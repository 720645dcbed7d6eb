// The calls of a session over a record that the host keeps and lends (RULES 11.1), for hosts written in Rattle. They ask nothing of what they
// are handed.
//   first, next, drop            an end's first step, over a record that holds no open session; the step that is due; the drop
//   Sent                         what they answer: the answer, and the head of the message that is sent
//   first_of, next_of, drop_of   the same by value, the record first
//   session_in, sent_in          the record, and what is sent, of what a call answers by value
// A call is lent its record, its pool with the slot's place, and the scratch; last come the slices for the message that is sent and for the share
// or z. What its end has no use of is not looked at. A refused call leaves the record as it was; a singular sum closes it.
// The check proves them without a file of proofs: they look at no field of the record.
#![tactic(auto)]

ghost use Rattle.std.specs.Prelude.{◌≡◌, [], length};
ghost use Rattle.protocol.specs.Message.{message_in};
ghost use Rattle.tape.specs.Placed.{slot_in};
ghost use Rattle.judging.specs.Leaves.{leaves, leaving};
ghost use Rattle.entry.specs.Steps.{first_over, next_step, drop_step};

use entry::Session;
use protocol::{Answer, Head, Incoming, Terms};
use session::{Done, drop_step, first_over, next_step};
use tape::Place;

#[derive(Clone, Copy)]
pub struct Sent {
    pub answer: Answer,
    pub head: Head,
}

// ---- by value

fn session_in(d: Done) -> Session
    ensures { result ≡ d.session }
{
    d.session
}

fn sent_in(d: Done) -> Sent
    ensures { result ≡ record { answer = d.answer; head = d.head } }
{
    Sent {
        answer: d.answer,
        head: d.head,
    }
}

fn first_of(
    x: Session,
    pool: &mut [u32],
    at: Place,
    scratch: &mut [u32],
    end: u32,
    t: Terms,
    input: &[u32],
    words: &[u32],
    a: Incoming,
    out: &mut [u32],
    res: &mut [u32],
) -> Done
    ensures { leaving result.answer result.session result.head pool.new scratch.new out.new res.new
        ≡ leaves x (slot_in pool.old at) scratch.old out.old res.old
        (first_over x end t (slot_in pool.old at) scratch.old input.now words.now
        (message_in a.entry) (length out.old) (length res.old)) }
{
    first_over(pool, at, scratch, x, end, t, input, words, a, out, res)
}

fn next_of(
    x: Session,
    pool: &mut [u32],
    at: Place,
    scratch: &mut [u32],
    a: Incoming,
    out: &mut [u32],
    res: &mut [u32],
) -> Done
    ensures { leaving result.answer result.session result.head pool.new scratch.new out.new res.new
        ≡ leaves x (slot_in pool.old at) scratch.old out.old res.old
        (next_step x (slot_in pool.old at) scratch.old (message_in a.entry)
        (length out.old) (length res.old)) }
{
    next_step(pool, at, scratch, x, a, out, res)
}

fn drop_of(x: Session, pool: &mut [u32], at: Place, scratch: &mut [u32]) -> Done
    ensures { leaving result.answer result.session result.head pool.new scratch.new [] []
        ≡ leaves x (slot_in pool.old at) scratch.old [] [] (drop_step x (slot_in pool.old at) scratch.old) }
{
    drop_step(pool, at, scratch, x)
}

// ---- over a record that is lent

pub fn first(
    s: &mut Session,
    pool: &mut [u32],
    at: Place,
    scratch: &mut [u32],
    end: u32,
    t: Terms,
    input: &[u32],
    words: &[u32],
    a: Incoming,
    out: &mut [u32],
    res: &mut [u32],
) -> Sent
    ensures { leaving result.answer s.new result.head pool.new scratch.new out.new res.new
        ≡ leaves s.old (slot_in pool.old at) scratch.old out.old res.old
        (first_over s.old end t (slot_in pool.old at) scratch.old input.now words.now
        (message_in a.entry) (length out.old) (length res.old)) }
{
    let done = first_of(*s, pool, at, scratch, end, t, input, words, a, out, res);
    *s = session_in(done);
    sent_in(done)
}

pub fn next(
    s: &mut Session,
    pool: &mut [u32],
    at: Place,
    scratch: &mut [u32],
    a: Incoming,
    out: &mut [u32],
    res: &mut [u32],
) -> Sent
    ensures { leaving result.answer s.new result.head pool.new scratch.new out.new res.new
        ≡ leaves s.old (slot_in pool.old at) scratch.old out.old res.old
        (next_step s.old (slot_in pool.old at) scratch.old (message_in a.entry)
        (length out.old) (length res.old)) }
{
    let done = next_of(*s, pool, at, scratch, a, out, res);
    *s = session_in(done);
    sent_in(done)
}

pub fn drop(s: &mut Session, pool: &mut [u32], at: Place, scratch: &mut [u32]) -> Sent
    ensures { leaving result.answer s.new result.head pool.new scratch.new [] []
        ≡ leaves s.old (slot_in pool.old at) scratch.old [] []
        (drop_step s.old (slot_in pool.old at) scratch.old) }
{
    let done = drop_of(*s, pool, at, scratch);
    *s = session_in(done);
    sent_in(done)
}
