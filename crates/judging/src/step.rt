// What steps and drops check, whatever their end: the tests of a session, its slot and its message. A step joins its own tests by `worst`.
//   check_first            a first step: `first_tests`
//   check_first_received   a first step that takes a message
//   check_later            a later step, which takes one too
//   check_open             a drop: `open_tests`
//   check_room             room that an open session asks for
//   check_input            a slice of exactly n residues
ghost use Rattle.std.specs.Prelude.{◌≡◌, true, ◌≤◌, [], ◌∷◌, ◌++◌, length};
ghost use Rattle.protocol.specs.declared.Refusal.TheVariants.{Size};
ghost use Rattle.protocol.specs.Judge.{needs, given};
ghost use Rattle.protocol.specs.Bounds.{input_tests, sides_fit};
ghost use Rattle.protocol.specs.Message.{message_in, message_tests, due_tests};
ghost use Rattle.protocol.specs.Step.{first_tests, is_open, open_tests, later_tests};
ghost use Rattle.protocol.specs.Tape.{READY, tape_size, tape_tests, body_tests};
ghost use Rattle.tape.specs.Ends.{role, sort};
ghost use Rattle.tape.specs.Placed.{slot_in};
ghost use Rattle.judging.specs.InOrder.{checked, judged};
ghost use Rattle.judging.specs.Groups.{open_numbers, none_due};
ghost use Rattle.judging.specs.Received.{first_received, later_received};

use crate::held::{check_arrived, check_body, check_tape};
use crate::numbers::{check_modulus, check_sizes};
use crate::order::{need, worst};
use crate::{Check, received};
use protocol::{Head, Incoming, Refusal, Terms};
use tape::header::{IN_USE, READY};
use tape::{End, Place, is_slot, slot};
use vectors::all_below;

// ---- without a message

// The numbers of a session, and its slot's.
fn check_numbers(end: End, t: Terms, pool: usize, at: Place) -> Check
    ensures { checked result ≡ judged (open_numbers (role end) t pool at.size at.index) }
{
    let modulus = check_modulus(end, t.q);
    let sizes = check_sizes(end, t, pool, at);
    worst(modulus, sizes)
}

// The words of a half that is ready.
fn check_ready(end: End, t: Terms, slot: &[u32]) -> Check
    requires { (sides_fit (sort end) t.m t.k t.p ≡ true) × (tape_size (role end) t.m t.k t.p ≤ length slot.now) }
    ensures { checked result ≡ judged (tape_tests (role end) READY t slot.now ++ body_tests (role end) t slot.now) }
{
    let tape = check_tape(end, READY, t, slot);
    let body = check_body(end, t, slot);
    worst(tape, body)
}

pub fn check_first(end: End, t: Terms, pool: &[u32], at: Place) -> Check
    ensures { checked result ≡ judged (first_tests (role end) t (slot_in pool.now at)) }
{
    check_numbers(end, t, pool.len(), at)?;
    check_ready(end, t, slot(pool, at))
}

// Nothing is due: of the session's own numbers none is judged.
fn check_none_due(pool: usize, at: Place) -> Check
    ensures { checked result ≡ judged (none_due pool at.size at.index) }
{
    let slot = need(Refusal::Size, is_slot(pool, at));
    let due = need(Refusal::Turn, false);
    worst(slot, due)
}

pub fn check_open(end: End, due: u32, t: Terms, pool: &[u32], at: Place) -> Check
    ensures { checked result ≡ judged (open_tests (role end) due t (slot_in pool.now at)) }
{
    if due == 0 {
        return check_none_due(pool.len(), at);
    }
    check_numbers(end, t, pool.len(), at)?;
    check_tape(end, IN_USE, t, slot(pool, at))
}

// ---- with a message

// The numbers of session, slot and message, and that it is the message due.
fn check_first_numbers(
    end: End,
    kind: u32,
    t: Terms,
    a: Head,
    count: usize,
    pool: usize,
    at: Place,
) -> Check
    ensures { checked result ≡ judged (first_received (role end) kind t a count pool at.size at.index) }
{
    let numbers = received::check_numbers(end, t, a, count, pool, at);
    let due = need(Refusal::Turn, a.kind == kind);
    worst(numbers, due)
}

pub fn check_first_received(
    end: End,
    kind: u32,
    t: Terms,
    a: Incoming,
    pool: &[u32],
    at: Place,
) -> Check
    ensures { checked result ≡ judged (message_tests (message_in a.entry) ++ (first_tests (role end) t (slot_in pool.now at) ++ due_tests kind t (message_in a.entry))) }
{
    check_first_numbers(end, kind, t, a.head, a.residues.len(), pool.len(), at)?;
    check_arrived(end, READY, t, a, slot(pool, at))
}

// The same of a later step, which has to be due itself.
fn check_later_numbers(
    end: End,
    kind: u32,
    due: u32,
    t: Terms,
    a: Head,
    count: usize,
    pool: usize,
    at: Place,
) -> Check
    ensures { checked result ≡ judged (later_received (role end) kind due t a count pool at.size at.index) }
{
    let numbers = received::check_numbers(end, t, a, count, pool, at);
    let step = need(Refusal::Turn, due == kind);
    let message = need(Refusal::Turn, a.kind == kind);
    worst(numbers, worst(step, message))
}

pub fn check_later(
    end: End,
    kind: u32,
    due: u32,
    t: Terms,
    a: Incoming,
    pool: &[u32],
    at: Place,
) -> Check
    ensures { checked result ≡ judged (message_tests (message_in a.entry) ++ (later_tests (role end) kind due t (slot_in pool.now at) ++ due_tests kind t (message_in a.entry))) }
{
    let count = a.residues.len();
    if due == 0 {
        return received::check_closed(a.head, count, pool.len(), at);
    }
    check_later_numbers(end, kind, due, t, a.head, count, pool.len(), at)?;
    check_arrived(end, IN_USE, t, a, slot(pool, at))
}

// Room that an open session asks for.
pub fn check_room(due: u32, fits: bool) -> Check
    ensures { checked result ≡ judged (given (is_open due) (needs Size fits ∷ [])) }
{
    if due == 0 {
        return Ok(());
    }
    need(Refusal::Size, fits)
}

// A slice that is read: exactly n residues.
pub fn check_input(q: u32, n: usize, words: &[u32]) -> Check
    ensures { checked result ≡ judged (input_tests q n words.now) }
{
    let count = need(Refusal::Size, words.len() == n);
    let below = need(Refusal::Residue, all_below(q, words));
    worst(count, below)
}
