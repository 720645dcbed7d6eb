// The small entries for apps in C, Rust or another language (RULES 11.5): sizes, tests of one number or matrix, scores, and refusals as text.
// They take numbers and byte slices, any at all, and give 0 for what is none.
//   counts   words and residues by an end's or a sort's number
//   line     the longest line of a kind
//   inverse  a square matrix, judged
//   text     the word of a refusal's number, and a text over a slice
#![tactic(auto)]

mod counts;
mod inverse;
mod line;
mod text;

ghost use Rattle.std.specs.Prelude.{◌≡◌, ℕ, ℤ, pos};
ghost use Rattle.algebra.specs.Count.{bit};
ghost use Rattle.algebra.specs.Prime.{is_prime};
ghost use Rattle.protocol.specs.Judge.{Reply, reply_of};
ghost use Rattle.protocol.specs.Score.{to_residue, to_score};
ghost use Rattle.entry.specs.Record.{record_size};
ghost use Rattle.sizes.specs.Sizes.{version_number, tape_words, scratch_words, coin_count, deal_count, longest_line};
ghost use Rattle.sizes.specs.Inverse.{inverse_number};
ghost use Rattle.sizes.specs.Words.{Told, told, refusal_word};

use counts::{coins, half_words, product_draws, scratch, system_draws};
use entry::{BLINDER, LEFT};
use inverse::check_matrix;
use line::{kind_fits, line_length};
use tape::End;
use text::{put_text, refusal_word};

// ---- sizes

// 10,000 × major + 100 × minor + patch.
pub fn host_version() -> u32
    ensures { result ≡ version_number }
{
    300
}

// The words of a session's record.
pub fn host_record_words() -> usize
    ensures { result ≡ record_size }
{
    280
}

// The words of an end's half.
#[tactic(auto, unfolding(crate::specs::Sizes::tape_words, crate::specs::Sizes::by_end))]
pub fn host_tape_words(end: u32, m: u32, k: u32, p: u32) -> usize
    ensures { result ≡ tape_words end m k p }
{
    match End::try_from(end) {
        Ok(end) => half_words(end, m, k, p),
        Err(_) => 0,
    }
}

// The words of an end's scratch.
#[tactic(auto, unfolding(crate::specs::Sizes::scratch_words))]
pub fn host_scratch_words(end: u32, m: u32, k: u32, p: u32) -> usize
    ensures { result ≡ scratch_words end m k p }
{
    match end {
        BLINDER => scratch(m, k, p),
        _ => 0,
    }
}

// The bytes of the longest line of a kind.
#[tactic(auto, unfolding(crate::specs::Sizes::longest_line))]
pub fn host_line_bytes(kind: u32, q: u32, m: u32, k: u32, p: u32) -> usize
    ensures { result ≡ longest_line kind q m k p }
{
    if !kind_fits(kind, q, m, k, p) {
        return 0;
    }
    line_length(kind, q, m, k, p)
}

// The residues that an end's first step draws.
#[tactic(auto, unfolding(crate::specs::Sizes::coin_count, crate::specs::Sizes::by_end, crate::specs::Sizes::in_bounds, protocol::specs::System::scratch_size))]
pub fn host_coin_count(end: u32, m: u32, k: u32, p: u32) -> usize
    ensures { result ≡ coin_count end m k p }
{
    match end {
        LEFT => coins(m, k, p),
        BLINDER => scratch(m, k, p),
        _ => 0,
    }
}

// The residues that a dealing draws.
#[tactic(auto, unfolding(crate::specs::Sizes::deal_count, crate::specs::Sizes::by_sort))]
pub fn host_deal_count(sort: u32, m: u32, k: u32, p: u32) -> usize
    ensures { result ≡ deal_count sort m k p }
{
    match sort {
        0 => product_draws(m, k, p),
        1 => system_draws(m, k, p),
        _ => 0,
    }
}

// ---- a number, and a matrix

// 1 for a prime number.
pub fn host_is_prime(n: u32) -> u32
    ensures { result ≡ bit (is_prime n) }
{
    u32::from(prime::is_prime(n))
}

// 0 for an n by n matrix of residues that has an inverse; else the lowest number that applies.
#[tactic(auto, unfolding(crate::specs::Inverse::inverse_number))]
pub fn host_has_inverse(q: u32, n: u32, matrix: &[u8]) -> u32
    ensures { result ≡ inverse_number q n matrix.now }
{
    match check_matrix(q, n, matrix) {
        Ok(()) => 0,
        Err(r) => u32::from(r),
    }
}

// ---- scores

#[repr(C)]
#[derive(Clone, Copy)]
pub struct Residue {
    pub number: u32,
    pub residue: u32,
}

#[repr(C)]
#[derive(Clone, Copy)]
pub struct Score {
    pub number: u32,
    pub score: i32,
}

pub fn host_to_residue(q: u32, score: i32) -> Residue
    ensures { ◌≡◌ {A = Reply ℕ} (record { number = result.number; values = result.residue }) (reply_of 0 (to_residue q score)) }
{
    match field::to_residue(q, score) {
        Ok(residue) => Residue { number: 0, residue },
        Err(r) => Residue {
            number: u32::from(r),
            residue: 0,
        },
    }
}

pub fn host_to_score(q: u32, residue: u32) -> Score
    ensures { ◌≡◌ {A = Reply ℤ} (record { number = result.number; values = result.score }) (reply_of (pos 0) (to_score q residue)) }
{
    match field::to_score(q, residue) {
        Ok(score) => Score { number: 0, score },
        Err(r) => Score {
            number: u32::from(r),
            score: 0,
        },
    }
}

// ---- refusals as text

// The word of a refusal's number over the slice's start, and its length.
pub fn host_refusal_word(number: u32, word: &mut [u8]) -> usize
    ensures { ◌≡◌ {A = Told} (record { bytes = result; slice = word.new }) (told (refusal_word number) word.old) }
{
    // An arm for each word, so that its length is known where it is copied.
    match number {
        1 => put_text(refusal_word(1), word),
        2 => put_text(refusal_word(2), word),
        3 => put_text(refusal_word(3), word),
        4 => put_text(refusal_word(4), word),
        5 => put_text(refusal_word(5), word),
        6 => put_text(refusal_word(6), word),
        7 => put_text(refusal_word(7), word),
        8 => put_text(refusal_word(8), word),
        9 => put_text(refusal_word(9), word),
        10 => put_text(refusal_word(10), word),
        _ => put_text(refusal_word(number), word),
    }
}
