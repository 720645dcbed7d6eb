// Step 2: the blinder takes M and y, draws P and U0, and sends X1 = P + X0 and R1 = P × Y1 − U0 − A0.
//   check          all tests: what the session, the message and the inputs show, then the raw words, then M and P
//   compute        the message and the scratch
//   blinder_first  the step
ghost use Rattle.std.specs.Prelude.{◌≡◌, [], ◌≤◌, length};
ghost use Rattle.algebra.specs.Words.{over};
ghost use Rattle.protocol.specs.declared.BlinderSession.{BlinderSession};
ghost use Rattle.protocol.specs.Judge.{done};
ghost use Rattle.protocol.specs.Drawing.{residues_of, draw_tests};
ghost use Rattle.protocol.specs.Message.{message_in};
ghost use Rattle.protocol.specs.System.{no_blinder, scratch_size, blinder_first_effect, blinder_first_tests, blinder_first};
ghost use Rattle.tape.specs.Placed.{slot_in};
ghost use Rattle.judging.specs.InOrder.{checked, judged, after};
ghost use Rattle.judging.specs.Leaves.{leaves, leaving, computed, computing, taken};
ghost use Rattle.blinder.specs.First.{Eliminable, Masking, first_inputs, first_regular, first_sent};

use crate::{BlinderAnswer, drawn_p, drawn_u0, no_session, opened, scratch_fits, scratch_size};
use drawing::draw;
use elimination::has_inverse;
use judging::message::{has_room, side_size};
use judging::received::check_coins;
use judging::step::{check_first_received, check_input};
use judging::{Check, Stepped, need, worst};
use matrix::{Sides, write_reply};
use protocol::{Head, Incoming, Refusal, Terms};
use tape::change::take_up_at;
use tape::half::matrix;
use tape::{End, Place};
use vectors::{times, write_sum};

// M and y, and room for the scratch and for the message.
fn check_inputs(t: Terms, mm: &[u32], y: &[u32], scratch: usize, room: usize) -> Check
    ensures { checked result ≡ judged (first_inputs t mm.now y.now scratch room) }
{
    let matrix = check_input(t.q, times(t.m, t.m), mm);
    let vector = check_input(t.q, side_size(t), y);
    let coins = need(Refusal::Size, scratch_fits(t, scratch));
    let sent = need(Refusal::Size, has_room(2, t, room));
    worst(matrix, worst(vector, worst(coins, sent)))
}

// M has an inverse, and so has P, which is drawn first.
fn check_regular(t: Terms, mm: &[u32], words: &[u32]) -> Check
    requires { Eliminable t mm.now × (scratch_size t ≤ length (residues_of t.q words.now)) }
    ensures { checked result ≡ judged (first_regular t mm.now words.now) }
{
    let n = t.m as usize;
    let size = times(t.m, t.m);
    let mut pm = [0u32; 256];
    draw(t.q, size, words, &mut pm);
    let own = need(Refusal::Singular, has_inverse(t.q, n, mm));
    let drawn = need(Refusal::Singular, has_inverse(t.q, n, &pm[..size]));
    worst(own, drawn)
}

// Enough raw words are kept for P and U0.
fn check_drawn(t: Terms, mm: &[u32], words: &[u32]) -> Check
    requires { Eliminable t mm.now }
    ensures { checked result ≡ after (judged (draw_tests t.q (scratch_size t) words.now))
        (judged (first_regular t mm.now words.now)) }
{
    check_coins(t.q, scratch_size(t), words)?;
    check_regular(t, mm, words)
}

pub fn check(
    pool: &[u32],
    at: Place,
    scratch: usize,
    t: Terms,
    mm: &[u32],
    y: &[u32],
    words: &[u32],
    a: Incoming,
    room: usize,
) -> Check
    ensures { checked result ≡ judged (blinder_first_tests t (slot_in pool.now at) scratch mm.now y.now
        words.now (message_in a.entry) room) }
{
    let session = check_first_received(End::Blinder, 1, t, a, pool, at);
    let inputs = check_inputs(t, mm, y, scratch, room);
    worst(session, inputs)?;
    check_drawn(t, mm, words)
}

// X1 = P + X0 and then R1 = P × Y1 − U0 − A0; the scratch has P and U0.
fn send(t: Terms, y1: &[u32], scratch: &[u32], x0: &[u32], a0: &[u32], out: &mut [u32])
    requires { Masking t (length y1.now) (length scratch.now) (length x0.now) (length a0.now) (length out.old) }
    ensures { out.new ≡ over (first_sent t y1.now scratch.now x0.now a0.now)
        out.old }
{
    let square = times(t.m, t.m);
    let pm = drawn_p(t, scratch);
    let u0 = drawn_u0(t, scratch);
    write_sum(t.q, square, pm, x0, out);
    write_reply(Sides::from(t), pm, y1, u0, a0, &mut out[square..]);
}

// P and U0 are drawn into the scratch, and the message goes into `out`. The session waits for kind 3.
fn compute(
    pool: &[u32],
    at: Place,
    scratch: &mut [u32],
    t: Terms,
    mm: &[u32],
    y: &[u32],
    words: &[u32],
    residues: &[u32],
    out: &mut [u32],
) -> BlinderAnswer
    requires { judged (blinder_first_tests t (slot_in pool.now at) (length scratch.old) mm.now y.now words.now
        (taken 1 t residues.now) (length out.old)) ≡ done tt }
    ensures { computing result.answer result.session result.head scratch.new out.new []
        ≡ computed scratch.old out.old []
        (blinder_first_effect t (slot_in pool.now at) mm.now y.now words.now (taken 1 t residues.now)) }
{
    let count = draw(t.q, scratch_size(t), words, scratch);
    let x0 = matrix(End::Blinder, t, 0, pool, at);
    let a0 = matrix(End::Blinder, t, 1, pool, at);
    send(t, residues, scratch, x0, a0, out);
    Stepped {
        answer: Ok(count),
        session: opened(t, mm, y),
        head: Head { kind: 2, terms: t },
    }
}

// Step 2 (RULES 5.4): X1 = P + X0 and R1 = P × Y1 − U0 − A0.
pub fn blinder_first(
    pool: &mut [u32],
    at: Place,
    scratch: &mut [u32],
    t: Terms,
    mm: &[u32],
    y: &[u32],
    words: &[u32],
    a: Incoming,
    out: &mut [u32],
) -> BlinderAnswer
    ensures { leaving result.answer result.session result.head pool.new scratch.new out.new []
        ≡ leaves no_blinder (slot_in pool.old at) scratch.old out.old []
        (blinder_first t (slot_in pool.old at) (length scratch.old) mm.now y.now words.now
        (message_in a.entry) (length out.old)) }
{
    let room = out.len();
    let lent = scratch.len();
    if let Err(r) = check(pool, at, lent, t, mm, y, words, a, room) {
        return Stepped::refused(r, no_session());
    }
    let done = compute(pool, at, scratch, t, mm, y, words, a.residues, out);
    take_up_at(End::Blinder, t, pool, at);
    done
}
