// The archive that makers link: every entry for C, Rust and other languages (RULES 11), on numbers and byte slices alone. Each is a proved call
// under the name that it is linked by. A slice is a pointer and then its length; slices must not overlap, and a report comes back by value.
//   yuthsaok_deal                                 the dealer
//   yuthsaok_first, yuthsaok_next, yuthsaok_drop  a session: the first step of an end, the step that is due, the drop
//   yuthsaok_version .. yuthsaok_refusal_word     sizes, and small tests and conversions
//   yuthsaok_window_share .. yuthsaok_flags_fit   windows of days
#![tactic(auto)]

ghost use Rattle.std.specs.Prelude.{◌≡◌, [], ℕ, ℤ, pos};
ghost use Rattle.algebra.specs.Count.{bit};
ghost use Rattle.algebra.specs.Prime.{is_prime};
ghost use Rattle.protocol.specs.Judge.{Reply, reply_of};
ghost use Rattle.protocol.specs.Score.{to_residue, to_score};
ghost use Rattle.entry.specs.Record.{record_size, terms_of};
ghost use Rattle.entry.specs.Entry.{lent_of, left_of, Dealing, first_on, next_on, drop_on, deal_on};
ghost use Rattle.sizes.specs.Sizes.{version_number, tape_words, scratch_words, coin_count, deal_count, longest_line};
ghost use Rattle.sizes.specs.Inverse.{inverse_number};
ghost use Rattle.sizes.specs.Words.{Told, told, refusal_word};
ghost use Rattle.window.specs.Entries.{window_share_on, next_window_on, flags_number};

use entry::Report;
use host_first::Opening;
use protocol::{SessionId, TapeId, Terms};
use sizes::{Residue, Score};
use tape::Place;
use window::Share;

// ---- the dealer

#[unsafe(no_mangle)]
pub extern "C" fn yuthsaok_deal(
    sort: u32,
    first: &mut [u8],
    second: &mut [u8],
    size: usize,
    index: usize,
    tape: u32,
    q: u32,
    m: u32,
    k: u32,
    p: u32,
    words: &[u8],
) -> Report
    ensures { ◌≡◌ {A = Dealing} (record { report = result; first = first.new; second = second.new })
        (deal_on sort first.old second.old size index tape q m k p words.now) }
{
    host_deal::deal_on(sort, first, second, size, index, tape, q, m, k, p, words)
}

// ---- a session

#[unsafe(no_mangle)]
pub extern "C" fn yuthsaok_first(
    session: &mut [u8],
    end: u32,
    pool: &mut [u8],
    size: usize,
    index: usize,
    number: u32,
    tape: u32,
    q: u32,
    m: u32,
    k: u32,
    p: u32,
    input: &[u8],
    words: &[u8],
    scratch: &mut [u8],
    message: &[u8],
    line: &mut [u8],
    res: &mut [u8],
) -> Report
    ensures { left_of result session.new pool.new scratch.new line.new res.new
        ≡ first_on (lent_of session.old pool.old scratch.old line.old res.old) size index end (terms_of number tape q m k p) input.now words.now message.now }
{
    let terms = Terms {
        session: SessionId(number),
        tape: TapeId(tape),
        q,
        m,
        k,
        p,
    };
    let at = Place { size, index };
    let f = Opening { end, terms, at };
    host_first::first(f, session, pool, input, words, scratch, message, line, res)
}

#[unsafe(no_mangle)]
pub extern "C" fn yuthsaok_next(
    session: &mut [u8],
    pool: &mut [u8],
    size: usize,
    index: usize,
    scratch: &mut [u8],
    message: &[u8],
    line: &mut [u8],
    res: &mut [u8],
) -> Report
    ensures { left_of result session.new pool.new scratch.new line.new res.new
        ≡ next_on (lent_of session.old pool.old scratch.old line.old res.old) size index message.now }
{
    let at = Place { size, index };
    host_later::next(session, pool, at, scratch, message, line, res)
}

#[unsafe(no_mangle)]
pub extern "C" fn yuthsaok_drop(
    session: &mut [u8],
    pool: &mut [u8],
    size: usize,
    index: usize,
    scratch: &mut [u8],
) -> Report
    ensures { left_of result session.new pool.new scratch.new [] []
        ≡ drop_on (lent_of session.old pool.old scratch.old [] []) size index }
{
    let at = Place { size, index };
    host_later::drop(session, pool, at, scratch)
}

// ---- sizes, tests and conversions

#[unsafe(no_mangle)]
pub extern "C" fn yuthsaok_version() -> u32
    ensures { result ≡ version_number }
{
    sizes::host_version()
}

#[unsafe(no_mangle)]
pub extern "C" fn yuthsaok_record_words() -> usize
    ensures { result ≡ record_size }
{
    sizes::host_record_words()
}

#[unsafe(no_mangle)]
pub extern "C" fn yuthsaok_tape_words(end: u32, m: u32, k: u32, p: u32) -> usize
    ensures { result ≡ tape_words end m k p }
{
    sizes::host_tape_words(end, m, k, p)
}

#[unsafe(no_mangle)]
pub extern "C" fn yuthsaok_scratch_words(end: u32, m: u32, k: u32, p: u32) -> usize
    ensures { result ≡ scratch_words end m k p }
{
    sizes::host_scratch_words(end, m, k, p)
}

#[unsafe(no_mangle)]
pub extern "C" fn yuthsaok_line_bytes(kind: u32, q: u32, m: u32, k: u32, p: u32) -> usize
    ensures { result ≡ longest_line kind q m k p }
{
    sizes::host_line_bytes(kind, q, m, k, p)
}

#[unsafe(no_mangle)]
pub extern "C" fn yuthsaok_coin_count(end: u32, m: u32, k: u32, p: u32) -> usize
    ensures { result ≡ coin_count end m k p }
{
    sizes::host_coin_count(end, m, k, p)
}

#[unsafe(no_mangle)]
pub extern "C" fn yuthsaok_deal_count(sort: u32, m: u32, k: u32, p: u32) -> usize
    ensures { result ≡ deal_count sort m k p }
{
    sizes::host_deal_count(sort, m, k, p)
}

#[unsafe(no_mangle)]
pub extern "C" fn yuthsaok_is_prime(n: u32) -> u32
    ensures { result ≡ bit (is_prime n) }
{
    sizes::host_is_prime(n)
}

#[unsafe(no_mangle)]
pub extern "C" fn yuthsaok_has_inverse(q: u32, n: u32, matrix: &[u8]) -> u32
    ensures { result ≡ inverse_number q n matrix.now }
{
    sizes::host_has_inverse(q, n, matrix)
}

#[unsafe(no_mangle)]
pub extern "C" fn yuthsaok_to_residue(q: u32, score: i32) -> Residue
    ensures { ◌≡◌ {A = Reply ℕ} (record { number = result.number; values = result.residue }) (reply_of 0 (to_residue q score)) }
{
    sizes::host_to_residue(q, score)
}

#[unsafe(no_mangle)]
pub extern "C" fn yuthsaok_to_score(q: u32, residue: u32) -> Score
    ensures { ◌≡◌ {A = Reply ℤ} (record { number = result.number; values = result.score }) (reply_of (pos 0) (to_score q residue)) }
{
    sizes::host_to_score(q, residue)
}

#[unsafe(no_mangle)]
pub extern "C" fn yuthsaok_refusal_word(number: u32, word: &mut [u8]) -> usize
    ensures { ◌≡◌ {A = Told} (record { bytes = result; slice = word.new }) (told (refusal_word number) word.old) }
{
    sizes::host_refusal_word(number, word)
}

// ---- windows of days

#[unsafe(no_mangle)]
pub extern "C" fn yuthsaok_window_share(q: u32, shares: &[u8], first: usize, w: usize) -> Share
    ensures { ◌≡◌ {A = Reply ℕ} (record { number = result.number; values = result.share }) (reply_of 0 (window_share_on q shares.now first w)) }
{
    window::share_on(q, shares, first, w)
}

#[unsafe(no_mangle)]
pub extern "C" fn yuthsaok_next_window(
    q: u32,
    shares: &[u8],
    first: usize,
    w: usize,
    share: u32,
) -> Share
    ensures { ◌≡◌ {A = Reply ℕ} (record { number = result.number; values = result.share }) (reply_of 0 (next_window_on q shares.now first w share)) }
{
    window::next_on(q, shares, first, w, share)
}

#[unsafe(no_mangle)]
pub extern "C" fn yuthsaok_flags_fit(flags: &[u8]) -> u32
    ensures { result ≡ flags_number flags.now }
{
    window::flags_on(flags)
}
