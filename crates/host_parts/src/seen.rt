// What a call looks at: how many words of its slot, and which words of its input and its raw words.
//   is_system         whether an end is one of a system
//   end_of, half_in   whose half a call looks at
//   seen_in           the words of the slot, and where they begin
//   sift_coins        the raw words that are kept, as many as a first step draws
//   get_input         the input
ghost use Rattle.std.specs.Prelude.{◌≡◌, true, cond, ◌+◌, ◌*◌, ◌/◌, ◌≤◌, ltb, eqb, length, take};
ghost use Rattle.protocol.specs.Bounds.{sides_fit};
ghost use Rattle.protocol.specs.Drawing.{words_read};
ghost use Rattle.protocol.specs.Tape.{right, blinder, solver};
ghost use Rattle.protocol.specs.Message.{no_terms};
ghost use Rattle.tape.specs.Ends.{role, sort};
ghost use Rattle.drawing.specs.Sift.{kept_words};
ghost use Rattle.entry.specs.Bytes.{words_of};
ghost use Rattle.entry.specs.Entry.{session_in};
ghost use Rattle.local.specs.Seen.{least, half_size, seen_words, is_system, end_role, session_role, session_terms, coin_count};
ghost use Rattle.local.specs.Stored.{seen_in};

use crate::record;
use crate::record::terms_in;
use blinder::scratch_size;
use drawing::{Sifted, sift};
use entry::{BLINDER, LEFT, RIGHT, SOLVER};
use judging::message::no_head;
use judging::numbers::sides_fit;
use protocol::Terms;
use tape::half::half_size;
use tape::{End, Place, header, is_slot};
use vectors::times;
use words::{get_words, word_at};

// ---- the half

pub fn is_system(end: u32) -> bool
    ensures { result ≡ is_system end }
{
    end == BLINDER || end == SOLVER
}

#[derive(Clone, Copy)]
pub struct Half {
    pub end: End,
    pub terms: Terms,
}

pub fn end_of(end: u32) -> End
    ensures { role result ≡ end_role end }
{
    End::try_from(end).unwrap_or(End::Left)
}

// Of another end than these three a record holds no session, which is right's.
fn half_by(end: u32, terms: Terms) -> Half
    ensures { (role result.end ≡ cond (eqb end 4) solver (cond (eqb end 3) blinder right))
        × (result.terms ≡ cond (eqb end 4) terms (cond (eqb end 3) terms (cond (eqb end 2) terms no_terms))) }
{
    match end {
        SOLVER => Half {
            end: End::Solver,
            terms,
        },
        BLINDER => Half {
            end: End::Blinder,
            terms,
        },
        RIGHT => Half {
            end: End::Right,
            terms,
        },
        _ => no_half(),
    }
}

// Of a record that holds no session.
fn no_half() -> Half
    ensures { (role result.end ≡ right) × (result.terms ≡ no_terms) }
{
    let none = no_head();
    Half {
        end: End::Right,
        terms: none.terms,
    }
}

// From the record's bytes: a session by value is 1.1 KB of stack.
pub fn half_in(session: &[u8]) -> Half
    ensures { (role result.end ≡ session_role (session_in session.now)) × (result.terms ≡ session_terms (session_in session.now)) }
{
    if session.len() != record::SIZE {
        return no_half();
    }
    half_by(word_at(session, 0), terms_in(session))
}

// A header's words where the sides don't fit.
fn half_words(end: End, t: Terms) -> usize
    ensures { (result ≡ half_size (role end) t) × (result ≤ 3079) }
{
    if sides_fit(end, t.m, t.k, t.p) {
        half_size(end, t)
    } else {
        header::SIZE
    }
}

// Where the words that are looked at begin, in bytes, and how many they are.
#[derive(Clone, Copy)]
pub struct Seen {
    pub from: usize,
    pub words: usize,
}

// Of the pool is told how many bytes it has.
pub fn seen_in(h: Half, pool: usize, at: Place) -> Seen
    ensures { (result.words ≡ seen_in (role h.end) h.terms (pool / 4) at.size at.index)
        × (result.from ≡ cond (ltb at.index (pool / 4 / at.size)) (at.index * at.size * 4) 0)
        × (result.from + result.words * 4 ≤ pool) × (result.words ≤ 3079) }
{
    if !is_slot(pool / 4, at) {
        return Seen { from: 0, words: 0 };
    }
    let end = h.end;
    let words = at.size.min(half_words(end, h.terms));
    Seen {
        from: at.index * at.size * 4,
        words,
    }
}

// ---- what a first step is handed

fn coin_count(end: u32, t: Terms) -> usize
    ensures { (result ≡ coin_count end t) × (result ≤ 1024) }
{
    if !sides_fit(end_of(end), t.m, t.k, t.p) {
        return 0;
    }
    match end {
        LEFT => times(t.m, t.p),
        BLINDER => scratch_size(t),
        _ => 0,
    }
}

// All words are thrown away modulo 0, which is no modulus.
fn sift_none(n: usize, many: usize) -> Sifted
    ensures { (result.kept ≡ 0) × (result.read ≡ cond (ltb 0 n) many 0) }
{
    if n == 0 {
        return Sifted { kept: 0, read: 0 };
    }
    Sifted {
        kept: 0,
        read: many,
    }
}

pub fn sift_coins(end: u32, t: Terms, raw: &[u8], out: &mut [u32]) -> Sifted
    requires { length out.old ≡ 1024 }
    ensures { (result.read ≡ words_read t.q (coin_count end t) (words_of raw.now)) × (result.kept ≤ 1024)
        × (take result.kept out.new ≡ take (coin_count end t) (kept_words t.q (words_of raw.now))) }
{
    let n = coin_count(end, t);
    if t.q == 0 {
        return sift_none(n, raw.len() / 4);
    }
    sift(t.q, n, raw, out)
}

// The answer is how many words the input has; none where they are more than any input has.
pub fn get_input(input: &[u8], out: &mut [u32]) -> usize
    requires { length out.old ≡ 2048 }
    ensures { (result ≤ 2048) × (take result out.new ≡ seen_words (words_of input.now)) }
{
    let n = input.len() / 4;
    if 2048 < n {
        return 0;
    }
    get_words(n, input, out);
    n
}
