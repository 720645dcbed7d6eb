// Message lines: kind, session, tape, q, m, k, p, then the residues.
// Entries for hosts, which take any bytes and numbers; a refusal changes nothing that was lent:
//   parse  a line's form alone: 1; where the residues have no room, the lowest of 1 to 4 that applies to the message by itself
//   read   all that a message shows by itself: 1, 2, 3, 4 and 8, the lowest that applies
//   write  a message's line, judged as it is when read
#![tactic(auto)]

ghost use Rattle.std.specs.Prelude.{◌≡◌, List, ℕ, ◌+◌, ◌≤◌, length, take, drop};
ghost use Rattle.algebra.specs.Words.{over};
ghost use Rattle.protocol.specs.Judge.{reply_of};
ghost use Rattle.protocol.specs.Line.{message_from, message_line, parse_into, read_into, write_into, parse_tests, read_tests, write_tests, most_sent};
ghost use Rattle.judging.specs.InOrder.{checked, judged};
ghost use Rattle.protocol.specs.Message.{message_with};
ghost use Rattle.decimal.specs.Writing.{head_numbers};
ghost use Rattle.line.specs.Entries.{received_reply, no_arrival, arrived_of, residues_after, written_reply, bytes_of, bytes_after};
ghost use Rattle.line.specs.Reading.{Holds, Loads, rest_tests};

use judging::message::kind_known;
use judging::numbers::check_message;
use judging::{Check, need, worst};
use protocol::{Head, Refusal, SessionId, TapeId, Terms};
use vectors::all_below;

// A message that came as a line: its head, and how many residues follow it.
#[derive(Clone, Copy)]
pub struct Arrived {
    pub head: Head,
    pub count: usize,
}

// ---- reading

// The head that a line's first seven numbers are.
fn head_of(words: &[u32]) -> Head
    requires { 7 ≤ length words.now }
    ensures { result ≡ (message_from words.now).head }
{
    let terms = Terms {
        session: SessionId(words[1]),
        tape: TapeId(words[2]),
        q: words[3],
        m: words[4],
        k: words[5],
        p: words[6],
    };
    Head {
        kind: words[0],
        terms,
    }
}

// The numbers of a line, stored as far as there is room. No message has a line with a fault or with fewer than seven numbers.
pub fn load(s: &[u8], words: &mut [u32]) -> Option<Arrived>
    requires { 7 ≤ length words.old }
    ensures { Loads s.now words.new result }
{
    let count = decimal::load(s, words)?.checked_sub(7)?;
    let head = head_of(words);
    Some(Arrived { head, count })
}

// The residues behind the head, stored.
fn put_residues(words: &[u32], count: usize, out: &mut [u32])
    requires { (count + 7 ≤ length words.now) × (count ≤ length out.old) }
    ensures { out.new ≡ over (take count (drop 7 words.now)) out.old }
{
    out[..count].copy_from_slice(&words[7..count + 7]);
}

// The residues of a line, stored. The words behind the head have them where there is room for so many; else it is read again.
fn store(s: &[u8], words: &[u32], count: usize, out: &mut [u32])
    requires { (length words.now ≡ 3079) × (count ≤ length out.old) }
    ensures { (h : Head) (l : Holds s.now h count words.now) → out.new ≡ over (drop 7 l.values) out.old }
{
    if count <= 3072 {
        put_residues(words, count, out);
        return;
    }
    decimal::load_behind(s, 7, out);
}

// The form of a message, and the room of its residues. Without room it is judged by itself: by 4, or by what is lower.
fn check_form(h: Head, count: usize, room: usize) -> Check
    ensures { (s words : List ℕ) (l : Holds s h count words) → checked result ≡ judged (parse_tests room l.values) }
{
    if room < count {
        let own = check_message(h, count);
        let short = need(Refusal::Size, false);
        return worst(own, short);
    }
    need(Refusal::Form, kind_known(h.kind))
}

// The room for `size` words or bytes, and the residues.
fn check_rest(q: u32, residues: &[u32], size: usize, room: usize) -> Check
    ensures { checked result ≡ judged (rest_tests q residues.now size room) }
{
    let fits = need(Refusal::Size, size <= room);
    let below = need(Refusal::Residue, all_below(q, residues));
    worst(fits, below)
}

// All that a message shows by itself. Where head and count passed, its residues stand in the words behind the head.
fn check_read(h: Head, count: usize, words: &[u32], room: usize) -> Check
    requires { length words.now ≡ 3079 }
    ensures { (s : List ℕ) (l : Holds s h count words.now) → checked result ≡ judged (read_tests room l.values) }
{
    check_message(h, count)?;
    let t = h.terms;
    let end = count + 7;
    check_rest(t.q, &words[7..end], count, room)
}

// Reads a message's form. The residues go into `out`.
pub fn parse(s: &[u8], out: &mut [u32]) -> Result<Arrived, Refusal>
    ensures answered { received_reply result ≡ reply_of no_arrival (arrived_of (parse_into (length out.old) s.now)) }
    ensures contents { out.new ≡ residues_after (parse_into (length out.old) s.now) out.old }
{
    let mut words = [0u32; 3079];
    let message = load(s, &mut words).ok_or(Refusal::Form)?;
    check_form(message.head, message.count, out.len())?;
    store(s, &words, message.count, out);
    Ok(message)
}

// Reads a message. The residues go into `out`.
pub fn read(s: &[u8], out: &mut [u32]) -> Result<Arrived, Refusal>
    ensures answered { received_reply result ≡ reply_of no_arrival (arrived_of (read_into (length out.old) s.now)) }
    ensures contents { out.new ≡ residues_after (read_into (length out.old) s.now) out.old }
{
    let mut words = [0u32; 3079];
    let message = load(s, &mut words).ok_or(Refusal::Form)?;
    check_read(message.head, message.count, &words, out.len())?;
    put_residues(&words, message.count, out);
    Ok(message)
}

// ---- writing

// The numbers of a head, as they stand on a line.
pub fn head_words(h: Head) -> [u32; 7]
    ensures { result ≡ head_numbers h }
{
    let t = h.terms;
    let session = t.session;
    let tape = t.tape;
    [h.kind, session.0, tape.0, t.q, t.m, t.k, t.p]
}

// How many bytes the line has.
pub fn message_length(h: Head, residues: &[u32]) -> usize
    requires { length residues.now ≤ most_sent }
    ensures { result ≡ length (message_line (message_with h residues.now)) }
{
    let words = head_words(h);
    decimal::line_length(&words) + decimal::line_length(residues)
}

fn check_write(h: Head, residues: &[u32], room: usize) -> Check
    ensures { checked result ≡ judged (write_tests room (message_with h residues.now)) }
{
    check_message(h, residues.len())?;
    let t = h.terms;
    check_rest(t.q, residues, message_length(h, residues), room)
}

// The line of a message, stored.
pub fn put_message(h: Head, residues: &[u32], out: &mut [u8]) -> usize
    requires { (length residues.now ≤ most_sent) × (length (message_line (message_with h residues.now)) ≤ length out.old) }
    ensures place { result ≡ length (message_line (message_with h residues.now)) }
    ensures contents { out.new ≡ over (message_line (message_with h residues.now)) out.old }
{
    let words = head_words(h);
    let at = decimal::put_numbers(&words, residues.len(), out, 0);
    decimal::put_numbers(residues, 0, out, at)
}

// Writes a message's line into `out`.
pub fn write(h: Head, residues: &[u32], out: &mut [u8]) -> Result<usize, Refusal>
    ensures answered { written_reply result ≡ reply_of 0 (bytes_of (write_into (length out.old) (message_with h residues.now))) }
    ensures contents { out.new ≡ bytes_after (write_into (length out.old) (message_with h residues.now)) out.old }
{
    check_write(h, residues, out.len())?;
    Ok(put_message(h, residues, out))
}
