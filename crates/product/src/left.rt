// Step 2: left draws U, sends X1 = X + X0 and R1 = X × Y1 − U − A0, and has the share U. Its half is spent.
ghost use Rattle.std.specs.Prelude.{◌≡◌, [], ◌++◌, ◌*◌, length};
ghost use Rattle.algebra.specs.Words.{over};
ghost use Rattle.algebra.specs.Product.{send_x, send_r};
ghost use Rattle.protocol.specs.Judge.{done};
ghost use Rattle.protocol.specs.Bounds.{input_tests, room_tests};
ghost use Rattle.protocol.specs.Message.{due_tests, message_in, message_size, message_tests};
ghost use Rattle.protocol.specs.Product.{left_effect, left_tests, left_step};
ghost use Rattle.protocol.specs.Step.{first_tests};
ghost use Rattle.protocol.specs.Tape.{left};
ghost use Rattle.tape.specs.Placed.{slot_in};
ghost use Rattle.judging.specs.InOrder.{checked, judged};
ghost use Rattle.judging.specs.Leaves.{leaves, leaving, computed, computing, taken};
ghost use Rattle.product.specs.Shape.{Answering};

use crate::LeftAnswer;
use drawing::draw;
use judging::message::has_room;
use judging::received::check_coins;
use judging::step::check_first_received;
use judging::{Check, Stepped, check_input, need, worst};
use matrix::{Sides, write_reply};
use protocol::{Head, Incoming, Refusal, Terms};
use tape::change::spend_at;
use tape::half::matrix;
use tape::{End, Place};
use vectors::{add_residues, times};

// X, and room for the message and the share.
fn check_own(t: Terms, x: &[u32], room: usize, share: usize) -> Check
    ensures { checked result ≡ judged (input_tests t.q (t.m * t.k) x.now ++ (room_tests (message_size 2 t) room ++ room_tests (t.m * t.p) share)) }
{
    let input = check_input(t.q, times(t.m, t.k), x);
    let sent = need(Refusal::Size, has_room(2, t, room));
    let result = need(Refusal::Size, times(t.m, t.p) <= share);
    worst(input, worst(sent, result))
}

// All tests but that of the coins. Not inlined, so that the step branches once on whether they passed: inlined, it made two branches, one of them
// on X alone.
#[inline(never)]
fn check_before_coins(
    pool: &[u32],
    at: Place,
    t: Terms,
    x: &[u32],
    a: Incoming,
    room: usize,
    share: usize,
) -> Check
    ensures { checked result ≡ judged ((message_tests (message_in a.entry) ++ (first_tests left t (slot_in pool.now at) ++ due_tests 1 t (message_in a.entry)))
        ++ (input_tests t.q (t.m * t.k) x.now ++ (room_tests (message_size 2 t) room ++ room_tests (t.m * t.p) share))) }
{
    let first = check_first_received(End::Left, 1, t, a, pool, at);
    let own = check_own(t, x, room, share);
    worst(first, own)
}

pub fn check(
    pool: &[u32],
    at: Place,
    t: Terms,
    x: &[u32],
    words: &[u32],
    a: Incoming,
    room: usize,
    share: usize,
) -> Check
    ensures { checked result ≡ judged (left_tests t (slot_in pool.now at) x.now words.now (message_in a.entry) room share) }
{
    check_before_coins(pool, at, t, x, a, room, share)?;
    check_coins(t.q, times(t.m, t.p), words)
}

// X1 = X + X0, and then R1 = X × Y1 − U − A0.
fn write_message(
    t: Terms,
    x: &[u32],
    y1: &[u32],
    u: &[u32],
    x0: &[u32],
    a0: &[u32],
    out: &mut [u32],
)
    requires { Answering t x.now x0.now (length y1.now) (length u.now) (length a0.now) (length out.old) }
    ensures { out.new ≡ over (send_x t.q t.m t.k t.p x.now x0.now
        ++ send_r t.q t.m t.k t.p x.now y1.now u.now a0.now) out.old }
{
    let mk = times(t.m, t.k);
    add_residues(t.q, mk, x, x0, out);
    write_reply(Sides::from(t), x, y1, u, a0, &mut out[mk..]);
}

// U is drawn into the share; X1 and R1 go into `out`.
fn compute(
    pool: &[u32],
    at: Place,
    t: Terms,
    x: &[u32],
    words: &[u32],
    residues: &[u32],
    out: &mut [u32],
    share: &mut [u32],
) -> LeftAnswer
    requires { judged (left_tests t (slot_in pool.now at) x.now words.now (taken 1 t residues.now) (length out.old) (length share.old)) ≡ done tt }
    ensures { computing result.answer tt result.head [] out.new share.new
        ≡ computed [] out.old share.old
        (left_effect t (slot_in pool.now at) x.now words.now (taken 1 t residues.now)) }
{
    let x0 = matrix(End::Left, t, 0, pool, at);
    let a0 = matrix(End::Left, t, 1, pool, at);
    let mp = times(t.m, t.p);
    let count = draw(t.q, mp, words, share);
    write_message(t, x, residues, &share[..mp], x0, a0, out);
    Stepped {
        answer: Ok(count),
        session: (),
        head: Head { kind: 2, terms: t },
    }
}

// Step 2 (RULES 4.3): U is drawn, X1 = X + X0 and R1 = X × Y1 − U − A0; the share is U.
pub fn left_step(
    pool: &mut [u32],
    at: Place,
    t: Terms,
    x: &[u32],
    words: &[u32],
    a: Incoming,
    out: &mut [u32],
    share: &mut [u32],
) -> LeftAnswer
    ensures { leaving result.answer tt result.head pool.new [] out.new share.new
        ≡ leaves tt (slot_in pool.old at) [] out.old share.old
        (left_step t (slot_in pool.old at) x.now words.now (message_in a.entry)
        (length out.old) (length share.old)) }
{
    let room = out.len();
    let given = share.len();
    if let Err(r) = check(pool, at, t, x, words, a, room, given) {
        return Stepped::refused(r, ());
    }
    let done = compute(pool, at, t, x, words, a.residues, out, share);
    spend_at(End::Left, t, pool, at);
    done
}
