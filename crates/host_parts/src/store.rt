// What a step left in local words, put back into bytes.
//   sent_count, line_size, put_line   the line of what is sent
//   put_all                           the record, the slot, the scratch and the result
//   store                             all of it, by the step's answer
ghost use Rattle.std.specs.Prelude.{◌≡◌, Bool, ℕ, ◌*◌, ◌≤◌, length};
ghost use Rattle.algebra.specs.Words.{over};
ghost use Rattle.algebra.specs.Count.{both};
ghost use Rattle.entry.specs.Bytes.{bytes_of};
ghost use Rattle.entry.specs.Record.{record_words};
ghost use Rattle.entry.specs.Entry.{lent_of, left_of};
ghost use Rattle.local.specs.Settled.{is_singular};
ghost use Rattle.local.specs.Seen.{sent_size};
ghost use Rattle.local.specs.Stored.{sent_line, stored, stored_sent};

use crate::record::put_session;
use entry::{Report, Session};
use judging::message::message_size;
use line::{message_length, put_message};
use protocol::{Answer, Head, Refusal};
use sides::Matrix;
use words::put_words;

// ---- the line

pub fn sent_count(h: Head) -> usize
    ensures { (result ≡ sent_size h) × (result ≤ 3072) }
{
    if h.kind == 0 {
        return 0;
    }
    let t = h.terms;
    if !Matrix::sides_fit(t.m, t.k, t.p) {
        return 0;
    }
    message_size(h.kind, t)
}

fn line_size(h: Head, sent: &[u32]) -> usize
    ensures { result ≡ length (sent_line h sent.now) }
{
    if h.kind == 0 {
        return 0;
    }
    let n = sent_count(h).min(sent.len());
    message_length(h, &sent[..n])
}

fn put_line(h: Head, sent: &[u32], line: &mut [u8])
    requires { length (sent_line h sent.now) ≤ length line.old }
    ensures { line.new ≡ over (sent_line h sent.now) line.old }
{
    if h.kind == 0 {
        return;
    }
    let n = sent_count(h).min(sent.len());
    put_message(h, &sent[..n], line);
}

// ---- the rest

fn put_all(
    x: Session,
    words: &[u32],
    lent: &[u32],
    share: &[u32],
    session: &mut [u8],
    slot: &mut [u8],
    scratch: &mut [u8],
    res: &mut [u8],
)
    requires { (length session.old ≡ 1120) × (length words.now * 4 ≤ length slot.old) × (length lent.now * 4 ≤ length scratch.old)
        × (length share.now * 4 ≤ length res.old) }
    ensures session_after { session.new ≡ over (bytes_of (record_words x)) session.old }
    ensures slot_after { slot.new ≡ over (bytes_of words.now) slot.old }
    ensures scratch_after { scratch.new ≡ over (bytes_of lent.now) scratch.old }
    ensures res_after { res.new ≡ over (bytes_of share.now) res.old }
{
    put_session(x, session);
    put_words(words.len(), words, slot);
    put_words(lent.len(), lent, scratch);
    put_words(share.len(), share, res);
}

// An accepted step: where its line has no room, nothing is put back.
fn store_sent(
    h: Head,
    x: Session,
    read: usize,
    words: &[u32],
    lent: &[u32],
    sent: &[u32],
    share: &[u32],
    session: &mut [u8],
    slot: &mut [u8],
    scratch: &mut [u8],
    line: &mut [u8],
    res: &mut [u8],
) -> Report
    requires { (length session.old ≡ 1120) × (length words.now * 4 ≤ length slot.old)
        × (length lent.now * 4 ≤ length scratch.old) × (length share.now * 4 ≤ length res.old) }
    ensures { left_of result session.new slot.new scratch.new line.new res.new
        ≡ stored_sent read x h words.now lent.now sent.now share.now
        (lent_of session.old slot.old scratch.old line.old res.old) }
{
    let bytes = line_size(h, sent);
    if line.len() < bytes {
        return Report::from(Refusal::Size);
    }
    put_line(h, sent, line);
    put_all(x, words, lent, share, session, slot, scratch, res);
    Report {
        number: 0,
        read,
        bytes,
    }
}

// Whether the answer is that of a step which was done all the same: a singular sum.
fn is_sum(sums: bool, r: Refusal) -> bool
    ensures { result ≡ both sums (is_singular r) }
{
    sums && r == Refusal::Singular
}

pub fn store(
    answer: Answer,
    x: Session,
    h: Head,
    sums: bool,
    read: usize,
    words: &[u32],
    lent: &[u32],
    sent: &[u32],
    share: &[u32],
    session: &mut [u8],
    slot: &mut [u8],
    scratch: &mut [u8],
    line: &mut [u8],
    res: &mut [u8],
) -> Report
    requires { (length session.old ≡ 1120) × (length words.now * 4 ≤ length slot.old)
        × (length lent.now * 4 ≤ length scratch.old) × (length share.now * 4 ≤ length res.old) }
    ensures { left_of result session.new slot.new scratch.new line.new res.new
        ≡ stored sums read answer x h words.now lent.now sent.now share.now
        (lent_of session.old slot.old scratch.old line.old res.old) }
{
    let Err(r) = answer else {
        return store_sent(
            h, x, read, words, lent, sent, share, session, slot, scratch, line, res,
        );
    };
    if is_sum(sums, r) {
        put_all(x, words, lent, share, session, slot, scratch, res);
        return Report::from(r);
    }
    Report::from(r)
}
