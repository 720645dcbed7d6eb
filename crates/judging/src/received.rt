// What every step that takes a message checks before and beside its own inputs.
//   check_numbers  the numbers of the session, its slot and its message: refusals 1 to 4
//   check_closed   where the session is closed
//   check_coins    enough raw words are kept: refusal 9
ghost use Rattle.std.specs.Prelude.{◌≡◌, ◌<◌};
ghost use Rattle.protocol.specs.Drawing.{draw_tests};
ghost use Rattle.tape.specs.Ends.{role};
ghost use Rattle.judging.specs.InOrder.{checked, judged};
ghost use Rattle.judging.specs.Received.{received_numbers, closed_tests};

use crate::Check;
use crate::numbers::{check_head, check_kind, check_moduli, check_sizes};
use crate::order::{need, worst};
use drawing::read;
use protocol::{Head, Refusal, Terms};
use tape::{End, Place, is_slot};

// Of the message's residues and of the pool's words it is told how many there are.
pub fn check_numbers(end: End, t: Terms, a: Head, count: usize, pool: usize, at: Place) -> Check
    ensures { checked result ≡ judged (received_numbers (role end) t a count pool at.size at.index) }
{
    let moduli = check_moduli(a, end, t.q);
    let head = check_head(a, count);
    let sizes = check_sizes(end, t, pool, at);
    worst(moduli, worst(head, sizes))
}

// A closed session: its own numbers aren't judged, and no step is due.
pub fn check_closed(a: Head, count: usize, pool: usize, at: Place) -> Check
    ensures { checked result ≡ judged (closed_tests a count pool at.size at.index) }
{
    let kind = check_kind(a);
    let head = check_head(a, count);
    let slot = need(Refusal::Size, is_slot(pool, at));
    let turn = need(Refusal::Turn, false);
    worst(kind, worst(head, worst(slot, turn)))
}

// Enough raw words are kept for n coins.
pub fn check_coins(q: u32, n: usize, words: &[u32]) -> Check
    requires { 0 < q }
    ensures { checked result ≡ judged (draw_tests q n words.now) }
{
    match read(q, n, words) {
        Some(_) => Ok(()),
        None => Err(Refusal::Dry),
    }
}
