// A first step on the bytes of its slot: the session's step on local words, and what it left put back.
//   Asked      what the call is asked
//   run        the step on words that are brought from bytes
//   on_slot    the call on the bytes of its slot, with words of the lengths that it looks at
//   on_call    the same on its pool, with words of any length
//   with_room  the same with words of its own
ghost use Rattle.std.specs.Prelude.{◌≡◌, [], ◌*◌, ◌/◌, ◌≤◌, length, take};
ghost use Rattle.protocol.specs.Judge.{done};
ghost use Rattle.protocol.specs.Tape.{slot_at};
ghost use Rattle.protocol.specs.Message.{message_in};
ghost use Rattle.protocol.specs.Line.{most_sent};
ghost use Rattle.judging.specs.InOrder.{checked};
ghost use Rattle.judging.specs.Leaves.{leaves, leaving};
ghost use Rattle.entry.specs.Bytes.{words_of};
ghost use Rattle.entry.specs.Steps.{first_step};
ghost use Rattle.entry.specs.Entry.{lent_of, left_of};
ghost use Rattle.local.specs.Seen.{on_done, entering, lent_room, share_room};
ghost use Rattle.local.specs.Settled.{unopened};
ghost use Rattle.local.specs.Entered.{Below, entered_by, seen_first};

use entry::Report;
use host_parts::seen::{Half, end_of, is_system, seen_in};
use host_parts::settle::{Settled, settle};
use judging::Check;
use protocol::{Incoming, Terms};
use session::{Done, first_step};
use tape::Place;
use words::{bytes_known, get_words};

// The end and its terms, the verdict on the entry's own tests, and the raw words read.
#[derive(Clone, Copy)]
pub struct Asked {
    pub end: u32,
    pub terms: Terms,
    pub own: Check,
    pub read: usize,
}

// `slot` begins where the slot does; of each slice of bytes as many words are brought as its words have room for.
fn run(
    q: Asked,
    a: Incoming,
    input: &[u32],
    raw: &[u32],
    slot: &[u8],
    scratch: &[u8],
    res: &[u8],
    words: &mut [u32],
    lent: &mut [u32],
    out: &mut [u32],
    share: &mut [u32],
) -> Done
    requires { (length words.old * 4 ≤ length slot.now) × (length lent.old * 4 ≤ length scratch.now) × (length share.old * 4 ≤ length res.now) }
    ensures { leaving result.answer result.session result.head words.new lent.new out.new share.new
        ≡ leaves (unopened q.end q.terms) (slot_at (take (length words.old) (words_of slot.now)) (length words.old) 0)
        (take (length lent.old) (words_of scratch.now)) out.old (take (length share.old) (words_of res.now))
        (first_step q.end q.terms (slot_at (take (length words.old) (words_of slot.now)) (length words.old) 0)
        (take (length lent.old) (words_of scratch.now)) input.now raw.now
        (message_in a.entry) (length out.old) (length share.old)) }
{
    let n = words.len();
    get_words(n, slot, words);
    get_words(lent.len(), scratch, lent);
    get_words(share.len(), res, share);
    let at = Place { size: n, index: 0 };
    let terms = q.terms;
    first_step(words, at, lent, q.end, terms, input, raw, a, out, share)
}

fn on_slot(
    q: Asked,
    a: Incoming,
    input: &[u32],
    raw: &[u32],
    session: &mut [u8],
    slot: &mut [u8],
    scratch: &mut [u8],
    line: &mut [u8],
    res: &mut [u8],
    words: &mut [u32],
    lent: &mut [u32],
    out: &mut [u32],
    share: &mut [u32],
) -> Report
    requires { (checked q.own ≡ done tt → length session.old ≡ 1120) × (length words.old * 4 ≤ length slot.old)
        × (length lent.old * 4 ≤ length scratch.old) × (length share.old * 4 ≤ length res.old)
        × Below 256 scratch.old × Below 256 res.old }
    ensures { left_of result session.new slot.new scratch.new line.new res.new
        ≡ entered_by (lent_of session.old slot.old scratch.old line.old res.old) 0 (checked q.own)
        (on_done (entering q.read []) (first_step q.end q.terms
        (slot_at (take (length words.old) (words_of slot.old)) (length words.old) 0)
        (take (length lent.old) (words_of scratch.old)) input.now raw.now
        (message_in a.entry) (length out.old) (length share.old))) }
{
    let d = run(
        q, a, input, raw, slot, scratch, res, words, lent, out, share,
    );
    let answer = d.answer;
    let x = d.session;
    let h = d.head;
    let own = q.own;
    let rest = Settled {
        own,
        sums: false,
        read: q.read,
    };
    settle(
        rest, answer, x, h, words, lent, out, share, session, slot, scratch, line, res,
    )
}

fn on_call(
    q: Asked,
    at: Place,
    a: Incoming,
    input: &[u32],
    raw: &[u32],
    session: &mut [u8],
    pool: &mut [u8],
    scratch: &mut [u8],
    line: &mut [u8],
    res: &mut [u8],
    words: &mut [u32],
    lent: &mut [u32],
    out: &mut [u32],
    share: &mut [u32],
) -> Report
    requires { (checked q.own ≡ done tt → length session.old ≡ 1120) × (length words.old ≡ 3079) × Below 256 pool.old
        × Below 256 scratch.old × Below 256 res.old }
    ensures { left_of result session.new pool.new scratch.new line.new res.new
        ≡ entered_by (lent_of session.old pool.old scratch.old line.old res.old) (at.index * at.size) (checked q.own)
        (seen_first q.end q.terms (length lent.old) (length out.old) (length share.old) q.read
        (slot_at (words_of pool.old) at.size at.index) (words_of scratch.old)
        input.now raw.now (message_in a.entry) (length res.old / 4)) }
{
    let terms = q.terms;
    let half = Half {
        end: end_of(q.end),
        terms,
    };
    let seen = seen_in(half, pool.len(), at);
    let from = seen.from;
    let n = seen.words;
    let k = (scratch.len() / 4).min(lent.len());
    let j = (res.len() / 4).min(share.len());
    on_slot(
        q,
        a,
        input,
        raw,
        session,
        &mut pool[from..],
        scratch,
        line,
        res,
        &mut words[..n],
        &mut lent[..k],
        out,
        &mut share[..j],
    )
}

// Words of a result serve a system's end, which has none, as those of its scratch: all that a first step needs has to stand in 64 KiB.
pub fn with_room(
    q: Asked,
    at: Place,
    a: Incoming,
    input: &[u32],
    raw: &[u32],
    session: &mut [u8],
    pool: &mut [u8],
    scratch: &mut [u8],
    line: &mut [u8],
    res: &mut [u8],
) -> Report
    requires { checked q.own ≡ done tt → length session.old ≡ 1120 }
    ensures { left_of result session.new pool.new scratch.new line.new res.new
        ≡ entered_by (lent_of session.old pool.old scratch.old line.old res.old) (at.index * at.size) (checked q.own)
        (seen_first q.end q.terms (lent_room q.end) most_sent (share_room q.end) q.read
        (slot_at (words_of pool.old) at.size at.index) (words_of scratch.old)
        input.now raw.now (message_in a.entry) (length res.old / 4)) }
{
    bytes_known(pool);
    bytes_known(scratch);
    bytes_known(res);
    let mut words = [0u32; 3079];
    let mut out = [0u32; 3072];
    let mut share = [0u32; 1024];
    let mut none = [0u32; 0];
    if is_system(q.end) {
        return on_call(
            q,
            at,
            a,
            input,
            raw,
            session,
            pool,
            scratch,
            line,
            res,
            &mut words,
            &mut share[..528],
            &mut out,
            &mut none,
        );
    }
    on_call(
        q, at, a, input, raw, session, pool, scratch, line, res, &mut words, &mut none, &mut out,
        &mut share,
    )
}
