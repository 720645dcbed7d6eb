// The lines that a rehearsal prints: both messages and both shares, or a refusal.
//   refusal, result  what is printed, over the start of the bytes that are lent
ghost use Rattle.std.specs.Prelude.{◌≡◌, [], ◌∷◌, ◌++◌, ◌+◌, ◌*◌, ◌≤◌, length};
ghost use Rattle.std.proofs.lemmas.List.Edits.{sets};
ghost use Rattle.algebra.specs.Words.{over};
ghost use Rattle.protocol.specs.Judge.{refused, done};
ghost use Rattle.protocol.specs.Line.{line, message_line, most_sent};
ghost use Rattle.protocol.specs.Rehearsal.{printed};
ghost use Rattle.decimal.specs.Writing.{line_before};
ghost use Rattle.protocol.specs.Message.{message_with};
ghost use Rattle.rehearse_lines.specs.Prints.{MOST, shares_lines, run_of};

use line::head_words;
use protocol::{Head, Refusal};

// The bytes of a text, and the position behind them.
fn put_text(text: &[u8], out: &mut [u8], at: usize) -> usize
    requires { at + length text.now ≤ length out.old }
    ensures place { result ≡ at + length text.now }
    ensures contents { out.new ≡ sets out.old at text.now }
{
    let behind = at + text.len();
    out[at..behind].copy_from_slice(text);
    behind
}

// Numbers of a line behind which `more` numbers are to stand: each takes at most 11 bytes.
fn put_run(xs: &[u32], more: usize, out: &mut [u8], at: usize) -> usize
    requires { (at + 11 * length xs.now ≤ length out.old) × (more ≤ most_sent) }
    ensures place { result ≡ at + length (line_before more xs.now) }
    ensures few { result ≤ at + 11 * length xs.now }
    ensures contents { out.new ≡ sets out.old at (line_before more xs.now) }
{
    decimal::put_numbers(xs, more, out, at)
}

// The line of a message, and the position behind it.
fn put_message(h: Head, residues: &[u32], out: &mut [u8], at: usize) -> usize
    requires { (at + 11 * (7 + length residues.now) ≤ length out.old) × (length residues.now ≤ most_sent) }
    ensures place { result ≡ at + length (message_line (message_with h residues.now)) }
    ensures few { result ≤ at + 11 * (7 + length residues.now) }
    ensures contents { out.new ≡ sets out.old at (message_line (message_with h residues.now)) }
{
    let words = head_words(h);
    let behind = put_run(&words, residues.len(), out, at);
    put_run(residues, 0, out, behind)
}

// A text, and a line of numbers behind it.
fn put_named(name: &[u8], xs: &[u32], out: &mut [u8], at: usize) -> usize
    requires { at + length name.now + 11 * length xs.now ≤ length out.old }
    ensures place { result ≡ at + length (name.now ++ line xs.now) }
    ensures few { result ≤ at + length name.now + 11 * length xs.now }
    ensures contents { out.new ≡ sets out.old at (name.now ++ line xs.now) }
{
    let behind = put_text(name, out, at);
    put_run(xs, 0, out, behind)
}

// What is printed of a refusal (RULES 9.1).
pub fn refusal(r: Refusal, out: &mut [u8]) -> usize
    requires { MOST ≤ length out.old }
    ensures place { result ≡ length (printed (refused r)) }
    ensures few { result ≤ MOST }
    ensures contents { out.new ≡ over (printed (refused r)) out.old }
{
    let words = [u32::from(r)];
    put_named(b"refused,", &words, out, 0)
}

// Both messages, and the position behind them.
fn put_messages(one: Head, y1: &[u32], two: Head, x1r1: &[u32], out: &mut [u8]) -> usize
    requires { (MOST ≤ length out.old) × (length y1.now ≤ 2048) × (length x1r1.now ≤ 3072) }
    ensures place { result ≡ length (message_line (message_with one y1.now) ++ message_line (message_with two x1r1.now)) }
    ensures few { result ≤ 11 * (14 + length y1.now + length x1r1.now) }
    ensures contents { out.new ≡ sets out.old 0 (message_line (message_with one y1.now) ++ message_line (message_with two x1r1.now)) }
{
    let behind = put_message(one, y1, out, 0);
    put_message(two, x1r1, out, behind)
}

// Each share behind its end's name, and the position behind them.
fn put_shares(left: &[u32], right: &[u32], out: &mut [u8], at: usize) -> usize
    requires { at + 11 + 11 * (length left.now + length right.now) ≤ length out.old }
    ensures place { result ≡ at + length (shares_lines left.now right.now) }
    ensures few { result ≤ at + 11 + 11 * (length left.now + length right.now) }
    ensures contents { out.new ≡ sets out.old at (shares_lines left.now right.now) }
{
    let behind = put_named(b"left,", left, out, at);
    put_named(b"right,", right, out, behind)
}

// What is printed of a run (RULES 9.1): both messages, then each share behind its end's name.
pub fn result(
    one: Head,
    y1: &[u32],
    two: Head,
    x1r1: &[u32],
    left: &[u32],
    right: &[u32],
    out: &mut [u8],
) -> usize
    requires { (MOST ≤ length out.old) × (length y1.now ≤ 2048) × (length x1r1.now ≤ 3072) × (length left.now ≤ 1024) × (length right.now ≤ 1024) }
    ensures place { result ≡ length (printed (done (run_of one y1.now two x1r1.now left.now right.now))) }
    ensures few { result ≤ MOST }
    ensures contents { out.new ≡ over (printed (done (run_of one y1.now two x1r1.now left.now right.now))) out.old }
{
    let behind = put_messages(one, y1, two, x1r1, out);
    put_shares(left, right, out, behind)
}
