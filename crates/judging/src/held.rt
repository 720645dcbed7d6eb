// The words of a half, and what a step with a message tests beside them. Each is lent the words of the half's slot.
//   check_tape, check_body   the tape's status and numbers, and its matrices
//   check_arrived            both, and the words of the message
ghost use Rattle.std.specs.Prelude.{◌≡◌, true, ◌≤◌, length};
ghost use Rattle.protocol.specs.Bounds.{sides_fit};
ghost use Rattle.protocol.specs.Tape.{header_size, tape_size, tape_tests, body_tests};
ghost use Rattle.tape.specs.Ends.{role, sort};
ghost use Rattle.judging.specs.InOrder.{checked, judged};
ghost use Rattle.judging.specs.Received.{sent_tests, received_words};

use crate::Check;
use crate::numbers::check_same;
use crate::order::{need, worst};
use protocol::{Incoming, Refusal, Terms};
use tape::End;
use tape::half::holds_residues;
use tape::header::{bears, status_is};
use vectors::all_below;

// The status, and the numbers of the tape.
pub fn check_tape(end: End, status: u32, t: Terms, slot: &[u32]) -> Check
    requires { header_size ≤ length slot.now }
    ensures { checked result ≡ judged (tape_tests (role end) status t slot.now) }
{
    let mark = need(Refusal::Mark, status_is(status, slot));
    let numbers = need(Refusal::Stranger, bears(end, t, slot));
    worst(mark, numbers)
}

// The matrices hold residues.
pub fn check_body(end: End, t: Terms, slot: &[u32]) -> Check
    requires { (sides_fit (sort end) t.m t.k t.p ≡ true) × (tape_size (role end) t.m t.k t.p ≤ length slot.now) }
    ensures { checked result ≡ judged (body_tests (role end) t slot.now) }
{
    need(Refusal::Residue, holds_residues(end, t, slot))
}

// The message's numbers are the session's, and it holds residues.
fn check_sent(t: Terms, a: Incoming) -> Check
    ensures { checked result ≡ judged (sent_tests t a.entry.head a.entry.residues.now) }
{
    let b = a.head.terms;
    let same = check_same(a.head, t);
    let sent = need(Refusal::Residue, all_below(b.q, a.residues));
    worst(same, sent)
}

// The tape's status and numbers, the message's numbers, and the residues of both.
pub fn check_arrived(end: End, status: u32, t: Terms, a: Incoming, slot: &[u32]) -> Check
    requires { (sides_fit (sort end) t.m t.k t.p ≡ true) × (tape_size (role end) t.m t.k t.p ≤ length slot.now) }
    ensures { checked result ≡ judged (received_words (role end) status t a.entry.head slot.now a.entry.residues.now) }
{
    let tape = check_tape(end, status, t, slot);
    let sent = check_sent(t, a);
    let body = check_body(end, t, slot);
    worst(tape, worst(sent, body))
}
