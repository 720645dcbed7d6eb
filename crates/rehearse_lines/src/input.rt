// The five lines that a rehearsal reads: q,m,k,p,session,tape; X; Y; the dealer's words; left's words.
ghost use Rattle.std.specs.Prelude.{◌≡◌, ◌+◌, ◌≤◌, length, drop};
ghost use Rattle.protocol.specs.Line.{numbers_of};
ghost use Rattle.protocol.specs.Rehearsal.{first_line, line_at, terms_from};
ghost use Rattle.decimal.specs.Reading.{Tallied};
ghost use Rattle.rehearse_lines.specs.Says.{counts_of, Loaded, Says};

use crate::Counts;
use protocol::{SessionId, TapeId, Terms};

// The position behind the line that begins at a position.
fn line_end(s: &[u8], at: usize) -> usize
    requires { at ≤ length s.now }
    ensures { result ≡ at + length (first_line (drop at s.now)) }
{
    for i in at..s.len() {
        // Taken before the test, so that the compiled loop has one counter.
        let end = i + 1;
        if s[i] == 10 {
            return end;
        }
    }
    s.len()
}

// Where line number n begins, from 0.
fn line_start(s: &[u8], n: usize) -> usize
    ensures inside { result ≤ length s.now }
    ensures begins { line_at n s.now ≡ first_line (drop result s.now) }
{
    let mut at = 0;
    for _ in 0..n {
        at = line_end(s, at);
    }
    at
}

// The numbers of line number n, as many of them stored as there is room for.
fn load_line(s: &[u8], n: usize, out: &mut [u32]) -> Option<usize>
    ensures answered { Tallied (numbers_of (line_at n s.now)) out.old out.new result }
    ensures contents { Loaded s.now n out.old out.new }
{
    let at = line_start(s, n);
    let end = line_end(s, at);
    decimal::load(&s[at..end], out)
}

// What the first line says.
pub fn terms_of(first: &[u32]) -> Terms
    requires { 6 ≤ length first.now }
    ensures { result ≡ terms_from first.now }
{
    Terms {
        session: SessionId(first[4]),
        tape: TapeId(first[5]),
        q: first[0],
        m: first[1],
        k: first[2],
        p: first[3],
    }
}

// The counts of the five lines, where all can be read and the first has six numbers.
fn counts(
    first: Option<usize>,
    x: Option<usize>,
    y: Option<usize>,
    dealer: Option<usize>,
    left: Option<usize>,
) -> Option<Counts>
    ensures { result ≡ counts_of first x y dealer left }
{
    if first? != 6 {
        return None;
    }
    Some(Counts {
        x: x?,
        y: y?,
        dealer: dealer?,
        left: left?,
    })
}

// The five lines, each read into its words.
pub fn read(
    s: &[u8],
    first: &mut [u32],
    x: &mut [u32],
    y: &mut [u32],
    dealer: &mut [u32],
    left: &mut [u32],
) -> Option<Counts>
    requires { length first.old ≡ 6 }
    ensures answered { Says s.now first.new x.new y.new dealer.new left.new result }
    ensures contents { Loaded s.now 0 first.old first.new
        × Loaded s.now 1 x.old x.new × Loaded s.now 2 y.old y.new
        × Loaded s.now 3 dealer.old dealer.new × Loaded s.now 4 left.old left.new }
{
    let terms = load_line(s, 0, first);
    let in_x = load_line(s, 1, x);
    let in_y = load_line(s, 2, y);
    let dealt = load_line(s, 3, dealer);
    let drawn = load_line(s, 4, left);
    counts(terms, in_x, in_y, dealt, drawn)
}
