// Step 4: the blinder sends W and c. Neither its half nor its scratch changes; its session waits for the solver's last message.
//   compute         the message, by send
//   blinder_second  the step
ghost use Rattle.std.specs.Prelude.{◌≡◌, [], length};
ghost use Rattle.algebra.specs.Words.{over};
ghost use Rattle.protocol.specs.Judge.{done};
ghost use Rattle.protocol.specs.Message.{message_in};
ghost use Rattle.protocol.specs.System.{blinder_second_effect, blinder_second_tests, blinder_second};
ghost use Rattle.tape.specs.Placed.{slot_in};
ghost use Rattle.judging.specs.InOrder.{checked, judged};
ghost use Rattle.judging.specs.Leaves.{leaves, leaving, computed, computing, taken};
ghost use Rattle.blinder.specs.Second.{Sending, second_sent};

use crate::formula::{Unknowns, write_c, write_w};
use crate::{BlinderAnswer, drawn_p, drawn_u0, later};
use judging::Stepped;
use judging::message::{has_room, last_kind, side_size};
use protocol::{BlinderSession, Head, Incoming, Terms};
use tape::half::matrix;
use tape::{End, Place};
use vectors::times;

// W and then c; Q and G are the half's, F is the message, and the scratch has P and U0.
fn send(
    t: Terms,
    mm: &[u32],
    y: &[u32],
    f: &[u32],
    scratch: &[u32],
    qm: &[u32],
    g: &[u32],
    out: &mut [u32],
)
    requires { Sending t (length mm.now) (length y.now) (length f.now) (length scratch.now) (length qm.now) (length g.now) (length out.old) }
    ensures { out.new ≡ over (second_sent t mm.now y.now f.now scratch.now qm.now
        g.now) out.old }
{
    let sizes = Unknowns {
        q: t.q,
        n: t.m as usize,
        rhs: (t.p - t.m) as usize,
    };
    let square = times(t.m, t.m);
    let pm = drawn_p(t, scratch);
    let u0 = drawn_u0(t, scratch);
    write_w(sizes, u0, f, qm, pm, mm, g, out);
    write_c(sizes, u0, pm, y, &mut out[square..]);
}

// The message goes into `out`; the session waits for kind 5, or 6 where the determinant is asked for.
fn compute(
    pool: &[u32],
    at: Place,
    scratch: &[u32],
    s: BlinderSession,
    residues: &[u32],
    out: &mut [u32],
) -> BlinderAnswer
    requires { judged (blinder_second_tests s (slot_in pool.now at) scratch.now (taken 3 s.terms residues.now) (length out.old)) ≡ done tt }
    ensures { computing result.answer result.session result.head scratch.now out.new []
        ≡ computed scratch.now out.old []
        (blinder_second_effect s (slot_in pool.now at) scratch.now (taken 3 s.terms residues.now)) }
{
    let t = s.terms;
    let square = times(t.m, t.m);
    let side = side_size(t);
    let qm = matrix(End::Blinder, t, 2, pool, at);
    let g = matrix(End::Blinder, t, 3, pool, at);
    send(
        t,
        &s.mm[..square],
        &s.y[..side],
        residues,
        scratch,
        qm,
        g,
        out,
    );
    let waiting = BlinderSession {
        due: last_kind(t),
        ..s
    };
    Stepped::accepted(waiting, Head { kind: 4, terms: t })
}

// Step 4 (RULES 5.6): W = (U' − F) × Q + P × M × Q − G and c = u + P × y. The pool and the scratch stay as they are.
pub fn blinder_second(
    pool: &[u32],
    at: Place,
    scratch: &[u32],
    s: BlinderSession,
    a: Incoming,
    out: &mut [u32],
) -> BlinderAnswer
    ensures { leaving result.answer result.session result.head pool.now scratch.now out.new []
        ≡ leaves s (slot_in pool.now at) scratch.now out.old []
        (blinder_second s (slot_in pool.now at) scratch.now (message_in a.entry) (length out.old)) }
{
    let fits = has_room(4, s.terms, out.len());
    if let Err(r) = later::check(3, fits, pool, at, scratch, s, a) {
        return Stepped::refused(r, s);
    }
    compute(pool, at, scratch, s, a.residues, out)
}
