// Step 3: right's share is X1 × Y0 + R1 − B0. Its half is spent, and its session closes.
ghost use Rattle.std.specs.Prelude.{◌≡◌, [], length};
ghost use Rattle.protocol.specs.Judge.{done};
ghost use Rattle.protocol.specs.Message.{message_in};
ghost use Rattle.protocol.specs.Product.{right_last_effect, right_last_tests, right_last};
ghost use Rattle.tape.specs.Placed.{slot_in};
ghost use Rattle.judging.specs.InOrder.{checked, judged};
ghost use Rattle.judging.specs.Leaves.{leaves, leaving, computed, computing, taken};

use crate::{RightAnswer, closed};
use judging::message::no_head;
use judging::step::{check_later, check_room};
use judging::{Check, Stepped, worst};
use matrix::{Sides, write_share_of};
use protocol::{Incoming, RightSession};
use tape::change::spend_at;
use tape::half::matrix;
use tape::{End, Place};
use vectors::times;

fn check(pool: &[u32], at: Place, s: RightSession, a: Incoming, share: usize) -> Check
    ensures { checked result ≡ judged (right_last_tests s (slot_in pool.now at) (message_in a.entry) share) }
{
    let t = s.terms;
    let later = check_later(End::Right, 2, s.due, t, a, pool, at);
    let own = check_room(s.due, times(t.m, t.p) <= share);
    worst(later, own)
}

// The share goes into its slice, and the session closes.
fn compute(
    pool: &[u32],
    at: Place,
    s: RightSession,
    residues: &[u32],
    share: &mut [u32],
) -> RightAnswer
    requires { judged (right_last_tests s (slot_in pool.now at) (taken 2 s.terms residues.now) (length share.old)) ≡ done tt }
    ensures { computing result.answer result.session result.head [] [] share.new
        ≡ computed [] [] share.old (right_last_effect s (slot_in pool.now at) (taken 2 s.terms residues.now)) }
{
    let t = s.terms;
    let y0 = matrix(End::Right, t, 0, pool, at);
    let b0 = matrix(End::Right, t, 1, pool, at);
    write_share_of(Sides::from(t), residues, y0, b0, share);
    Stepped::accepted(closed(t), no_head())
}

// Step 3 (RULES 4.4): the share is X1 × Y0 + R1 − B0.
pub fn right_last(
    pool: &mut [u32],
    at: Place,
    s: RightSession,
    a: Incoming,
    share: &mut [u32],
) -> RightAnswer
    ensures { leaving result.answer result.session result.head pool.new [] [] share.new
        ≡ leaves s (slot_in pool.old at) [] [] share.old
        (right_last s (slot_in pool.old at) (message_in a.entry) (length share.old)) }
{
    if let Err(r) = check(pool, at, s, a, share.len()) {
        return Stepped::refused(r, s);
    }
    let done = compute(pool, at, s, a.residues, share);
    spend_at(End::Right, s.terms, pool, at);
    done
}
