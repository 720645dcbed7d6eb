// A later call on the bytes of its slot: the session's step on local words, and what it left put back.
//   Asked      what the call is asked
//   on_slot    the call on the bytes of its slot, with words of the lengths that it looks at
//   on_call    the same on its pool, with words for any call
//   with_room  the same with words of its own
ghost use Rattle.std.specs.Prelude.{◌≡◌, [], ◌*◌, ◌/◌, ◌≤◌, length, take};
ghost use Rattle.protocol.specs.Judge.{done};
ghost use Rattle.protocol.specs.Tape.{slot_at};
ghost use Rattle.protocol.specs.Message.{message_in};
ghost use Rattle.judging.specs.InOrder.{checked};
ghost use Rattle.entry.specs.Bytes.{words_of};
ghost use Rattle.entry.specs.Entry.{lent_of, left_of, session_in};
ghost use Rattle.local.specs.Seen.{on_done, entering, most_reply};
ghost use Rattle.local.specs.Entered.{Below, entered_by, later_step, seen_later};

use crate::step::run;
use entry::{Report, SOLVER};
use host_parts::record::session_in;
use host_parts::seen::{half_in, seen_in};
use host_parts::settle::{Settled, settle};
use judging::Check;
use protocol::Incoming;
use tape::Place;
use words::bytes_known;

// Whether it is the drop, and the verdict on the entry's own tests.
#[derive(Clone, Copy)]
pub struct Asked {
    pub drops: bool,
    pub own: Check,
}

fn on_slot(
    q: Asked,
    a: Incoming,
    session: &mut [u8],
    slot: &mut [u8],
    scratch: &mut [u8],
    line: &mut [u8],
    res: &mut [u8],
    words: &mut [u32],
    lent: &mut [u32],
    out: &mut [u32],
    share: &mut [u32],
) -> Report
    requires { (checked q.own ≡ done tt → length session.old ≡ 1120) × (length words.old * 4 ≤ length slot.old)
        × (length lent.old * 4 ≤ length scratch.old) × (length share.old * 4 ≤ length res.old)
        × Below 256 scratch.old × Below 256 res.old }
    ensures { left_of result session.new slot.new scratch.new line.new res.new
        ≡ entered_by (lent_of session.old slot.old scratch.old line.old res.old) 0 (checked q.own)
        (on_done (entering 0 []) (later_step q.drops (session_in session.old)
        (slot_at (take (length words.old) (words_of slot.old)) (length words.old) 0)
        (take (length lent.old) (words_of scratch.old)) (message_in a.entry) (length out.old) (length share.old))) }
{
    let x = session_in(session);
    let sums = x.end == SOLVER;
    let d = run(q.drops, x, a, slot, scratch, res, words, lent, out, share);
    let answer = d.answer;
    let y = d.session;
    let h = d.head;
    let own = q.own;
    let rest = Settled { own, sums, read: 0 };
    settle(
        rest, answer, y, h, words, lent, out, share, session, slot, scratch, line, res,
    )
}

fn on_call(
    q: Asked,
    at: Place,
    a: Incoming,
    session: &mut [u8],
    pool: &mut [u8],
    scratch: &mut [u8],
    line: &mut [u8],
    res: &mut [u8],
    words: &mut [u32],
    lent: &mut [u32],
    out: &mut [u32],
    share: &mut [u32],
) -> Report
    requires { (checked q.own ≡ done tt → length session.old ≡ 1120) × (length words.old ≡ 3079) × (length lent.old ≡ 528)
        × (length share.old ≡ 1024) × Below 256 pool.old × Below 256 scratch.old × Below 256 res.old }
    ensures { left_of result session.new pool.new scratch.new line.new res.new
        ≡ entered_by (lent_of session.old pool.old scratch.old line.old res.old) (at.index * at.size) (checked q.own)
        (seen_later q.drops (session_in session.old) (length out.old)
        (slot_at (words_of pool.old) at.size at.index) (words_of scratch.old)
        (message_in a.entry) (length res.old / 4)) }
{
    let half = half_in(session);
    let seen = seen_in(half, pool.len(), at);
    let from = seen.from;
    let n = seen.words;
    let k = (scratch.len() / 4).min(lent.len());
    let j = (res.len() / 4).min(share.len());
    on_slot(
        q,
        a,
        session,
        &mut pool[from..],
        scratch,
        line,
        res,
        &mut words[..n],
        &mut lent[..k],
        out,
        &mut share[..j],
    )
}

pub fn with_room(
    q: Asked,
    at: Place,
    a: Incoming,
    session: &mut [u8],
    pool: &mut [u8],
    scratch: &mut [u8],
    line: &mut [u8],
    res: &mut [u8],
) -> Report
    requires { checked q.own ≡ done tt → length session.old ≡ 1120 }
    ensures { left_of result session.new pool.new scratch.new line.new res.new
        ≡ entered_by (lent_of session.old pool.old scratch.old line.old res.old) (at.index * at.size) (checked q.own)
        (seen_later q.drops (session_in session.old) most_reply
        (slot_at (words_of pool.old) at.size at.index) (words_of scratch.old)
        (message_in a.entry) (length res.old / 4)) }
{
    bytes_known(pool);
    bytes_known(scratch);
    bytes_known(res);
    let mut words = [0u32; 3079];
    let mut lent = [0u32; 528];
    let mut out = [0u32; 272];
    let mut share = [0u32; 1024];
    on_call(
        q, at, a, session, pool, scratch, line, res, &mut words, &mut lent, &mut out, &mut share,
    )
}
