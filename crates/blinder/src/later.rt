// What every later step checks. `step` is the kind of the message that a step takes, and `fits` that what it writes has room.
//   check  all tests of the step
ghost use Rattle.std.specs.Prelude.{◌≡◌, true, ◌≤◌, length, take};
ghost use Rattle.protocol.specs.Bounds.{sides_fit, system};
ghost use Rattle.protocol.specs.Message.{message_in};
ghost use Rattle.protocol.specs.System.{scratch_size, kept_tests};
ghost use Rattle.tape.specs.Placed.{slot_in};
ghost use Rattle.judging.specs.InOrder.{checked, judged};
ghost use Rattle.blinder.specs.Later.{later_step, kept_words};

use crate::{scratch_fits, scratch_size};
use judging::message::side_size;
use judging::step::{check_later, check_room};
use judging::{Check, need, worst};
use protocol::{BlinderSession, Incoming, Refusal};
use tape::{End, Place};
use vectors::{all_below, times};

// The first n words are residues.
fn check_start(q: u32, n: usize, words: &[u32]) -> Check
    requires { n ≤ length words.now }
    ensures { checked result ≡ judged (kept_tests q (take n words.now)) }
{
    need(Refusal::Residue, all_below(q, &words[..n]))
}

// What the session keeps, and the scratch.
fn check_kept(s: BlinderSession, scratch: &[u32]) -> Check
    requires { (sides_fit system s.terms.m s.terms.k s.terms.p ≡ true) × (scratch_size s.terms ≤ length scratch.now) }
    ensures { checked result ≡ judged (kept_words s scratch.now) }
{
    let t = s.terms;
    let matrix = check_start(t.q, times(t.m, t.m), &s.mm);
    let vector = check_start(t.q, side_size(t), &s.y);
    let coins = check_start(t.q, scratch_size(t), scratch);
    worst(matrix, worst(vector, coins))
}

pub fn check(
    step: u32,
    fits: bool,
    pool: &[u32],
    at: Place,
    scratch: &[u32],
    s: BlinderSession,
    a: Incoming,
) -> Check
    ensures { checked result ≡ judged (later_step step fits s (slot_in pool.now at) scratch.now
        (message_in a.entry)) }
{
    let t = s.terms;
    let session = check_later(End::Blinder, step, s.due, t, a, pool, at);
    let lent = check_room(s.due, scratch_fits(t, scratch.len()));
    let written = check_room(s.due, fits);
    worst(session, worst(lent, written))?;
    check_kept(s, scratch)
}
