// Step 1: right sends Y1 = Y − Y0, and its half is in use.
ghost use Rattle.std.specs.Prelude.{◌≡◌, [], ◌++◌, ◌*◌, length};
ghost use Rattle.protocol.specs.Judge.{done};
ghost use Rattle.protocol.specs.Bounds.{input_tests, room_tests};
ghost use Rattle.protocol.specs.Message.{message_size};
ghost use Rattle.protocol.specs.Product.{no_right, right_first_effect, right_first_tests, right_first};
ghost use Rattle.tape.specs.Placed.{slot_in};
ghost use Rattle.judging.specs.InOrder.{checked, judged};
ghost use Rattle.judging.specs.Leaves.{leaves, leaving, computed, computing};

use crate::{RightAnswer, no_session};
use judging::message::has_room;
use judging::step::check_first;
use judging::{Check, Stepped, need, worst};
use protocol::{Head, Refusal, RightSession, Terms};
use tape::change::take_up_at;
use tape::half::matrix;
use tape::{End, Place};
use vectors::{all_below, subtract_residues, times};

// Y, whose words are looked at where their number fits, and room for the message.
fn check_own(t: Terms, y: &[u32], room: usize) -> Check
    ensures { checked result ≡ judged (input_tests t.q (t.k * t.p) y.now ++ room_tests (message_size 1 t) room) }
{
    need(Refusal::Size, y.len() == times(t.k, t.p))?;
    let below = need(Refusal::Residue, all_below(t.q, y));
    let sent = need(Refusal::Size, has_room(1, t, room));
    worst(below, sent)
}

// Not inlined, so that the step branches once on whether all tests passed, and not once on the half's and once on Y's.
#[inline(never)]
pub fn check(pool: &[u32], at: Place, t: Terms, y: &[u32], room: usize) -> Check
    ensures { checked result ≡ judged (right_first_tests t (slot_in pool.now at) y.now room) }
{
    let first = check_first(End::Right, t, pool, at);
    let own = check_own(t, y, room);
    worst(first, own)
}

// Y1 goes into `out`; the session waits for kind 2.
fn compute(pool: &[u32], at: Place, t: Terms, y: &[u32], out: &mut [u32]) -> RightAnswer
    requires { judged (right_first_tests t (slot_in pool.now at) y.now (length out.old)) ≡ done tt }
    ensures { computing result.answer result.session result.head [] out.new []
        ≡ computed [] out.old [] (right_first_effect t (slot_in pool.now at) y.now) }
{
    let y0 = matrix(End::Right, t, 0, pool, at);
    subtract_residues(t.q, times(t.k, t.p), y, y0, out);
    Stepped::accepted(
        RightSession { terms: t, due: 2 },
        Head { kind: 1, terms: t },
    )
}

// Step 1 (RULES 4.2): Y1 = Y − Y0.
pub fn right_first(pool: &mut [u32], at: Place, t: Terms, y: &[u32], out: &mut [u32]) -> RightAnswer
    ensures { leaving result.answer result.session result.head pool.new [] out.new []
        ≡ leaves no_right (slot_in pool.old at) [] out.old []
        (right_first t (slot_in pool.old at) y.now (length out.old)) }
{
    if let Err(r) = check(pool, at, t, y, out.len()) {
        return Stepped::refused(r, no_session());
    }
    let done = compute(pool, at, t, y, out);
    take_up_at(End::Right, t, pool, at);
    done
}
