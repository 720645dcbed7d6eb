// The dealer's writers: both halves of a tape, from raw words. Each is lent the slots, and leaves the words past the halves as they are.
//   write_halves  everything, for both sorts
//   write_masks   the headers, and X0, A0 and Y0, B0: the same for both sorts
//   write_more    Q, G and R, V: a system's
ghost use Rattle.std.specs.Prelude.{◌≡◌, [], ◌∷◌, ◌+◌, ◌*◌, ◌≤◌, ◌<◌, length, drop};
ghost use Rattle.algebra.specs.Count.{part, parts};
ghost use Rattle.algebra.specs.Words.{over, written_at};
ghost use Rattle.protocol.specs.Bounds.{system};
ghost use Rattle.protocol.specs.Drawing.{residues_of, drawn, words_read};
ghost use Rattle.protocol.specs.Tape.{header_size, matrix_at, blinder, solver};
ghost use Rattle.dealer.specs.Sorts.{sort, masks_count, draw_count, request_of};
ghost use Rattle.dealer.specs.Shape.{Masks, Unknowns, Room};
ghost use Rattle.dealer.specs.Written.{first_and_third, header_of, xa, yb, b_from, first_masks, second_masks, qg, rv, v_from, more_first, more_second};
ghost use Rattle.dealer.specs.Dealt.{first_half_words, second_half_words};

use crate::request::Request;
use crate::sort::{Sort, first_end};
use drawing::draw;
use matrix::{Sides, write_deal, write_masked};
use protocol::Terms;
use tape::half::matrix_at;
use tape::header::write_header;
use tape::{End, header};
use vectors::{times, write_copy};

// n residues, drawn from the word at `from` on, over the words from `at` on. The answer is where the next drawing begins.
fn draw_next(q: u32, n: usize, words: &[u32], from: usize, out: &mut [u32], at: usize) -> usize
    requires { ((0 < q) × (q < 2147483648)) × (from ≤ length words.now) × (n ≤ length (residues_of q (drop from words.now))) × (at + n ≤ length out.old) }
    ensures value { result ≡ from + words_read q n (drop from words.now) }
    ensures out_after { out.new ≡ written_at at (drawn q n (drop from words.now)) out.old }
{
    let read = draw(q, n, &words[from..], &mut out[at..]);
    from + read
}

// Three matrices, drawn one after the other: a residues over the first words from `first_at` on, b over the second from `second_at`
// on, and c right after the a.
fn draw_three(
    q: u32,
    a: usize,
    b: usize,
    c: usize,
    words: &[u32],
    first: &mut [u32],
    first_at: usize,
    second: &mut [u32],
    second_at: usize,
) -> usize
    requires { ((0 < q) × (q < 2147483648)) × (a + (b + c) ≤ length (residues_of q words.now))
        × (first_at + a + c ≤ length first.old) × (second_at + b ≤ length second.old) }
    ensures value { result ≡ words_read q (a + (b + c)) words.now }
    ensures first_after { first.new ≡ written_at first_at (first_and_third a b c (residues_of q words.now)) first.old }
    ensures second_after { second.new ≡ written_at second_at (part 1 (parts (a ∷ b ∷ c ∷ []) (residues_of q words.now))) second.old }
{
    let one = draw_next(q, a, words, 0, first, first_at);
    let two = draw_next(q, b, words, one, second, second_at);
    draw_next(q, c, words, two, first, first_at + a)
}

// ---- X0, A0 and Y0, B0

fn write_headers(s: Sort, t: Terms, first: &mut [u32], second: &mut [u32])
    requires { (header_size ≤ length first.old) × (header_size ≤ length second.old) }
    ensures first_after { first.new ≡ over (header_of (sort s) t) first.old }
    ensures second_after { second.new ≡ over (header_of (sort s) t) second.old }
{
    let end = first_end(s);
    let tape = t.tape;
    write_header(end, tape.0, t.q, t.m, t.k, t.p, first);
    write_header(end, tape.0, t.q, t.m, t.k, t.p, second);
}

// B0 after Y0, from X0 and A0 after the first header and Y0 after the second.
fn write_b(s: Sides, first: &[u32], second: &mut [u32])
    requires { Masks s.q s.m s.k s.p × (header_size + s.m * s.k + s.m * s.p ≤ length first.now)
        × (header_size + s.k * s.p + s.m * s.p ≤ length second.old) }
    ensures { second.new ≡ written_at (header_size + s.k * s.p) (b_from s.q s.m s.k s.p first.now second.old) second.old }
{
    let n = s.m * s.p;
    let start = header::SIZE;
    let a = start + s.m * s.k;
    let b = start + s.k * s.p;
    let end = a + n;
    let mut b0 = [0u32; 1024];
    write_deal(
        s,
        &first[start..a],
        &second[start..b],
        &first[a..end],
        &mut b0,
    );
    write_copy(n, &b0, &mut second[b..]);
}

// X0, A0 and Y0, B0, behind headers that stand. The answer is how many words were read.
fn fill_masks(t: Terms, words: &[u32], first: &mut [u32], second: &mut [u32]) -> usize
    requires { Masks t.q t.m t.k t.p × (masks_count t.m t.k t.p ≤ length (residues_of t.q words.now))
        × (header_size + t.m * t.k + t.m * t.p ≤ length first.old) × (header_size + t.k * t.p + t.m * t.p ≤ length second.old) }
    ensures value { result ≡ words_read t.q (masks_count t.m t.k t.p) words.now }
    ensures first_after { first.new ≡ written_at header_size (xa t.q t.m t.k t.p words.now) first.old }
    ensures second_after { second.new ≡ written_at header_size (yb t.q t.m t.k t.p words.now) second.old }
{
    let mk = times(t.m, t.k);
    let kp = times(t.k, t.p);
    let mp = times(t.m, t.p);
    let start = header::SIZE;
    let read = draw_three(t.q, mk, kp, mp, words, first, start, second, start);
    write_b(Sides::from(t), first, second);
    read
}

// ---- Q, G and R, V

// V after R, from Q and G in the first words and R in the second.
fn write_v(q: u32, n: usize, first: &[u32], first_at: usize, second: &mut [u32], second_at: usize)
    requires { Unknowns q n × (first_at + n * n + n * n ≤ length first.now) × (second_at + n * n + n * n ≤ length second.old) }
    ensures { second.new ≡ written_at (second_at + n * n)
        (v_from q n first_at second_at first.now second.old) second.old }
{
    let nn = n * n;
    let g = first_at + nn;
    let v = second_at + nn;
    let end = g + nn;
    let mut sum = [0u32; 256];
    write_masked(
        Sides {
            q,
            m: n,
            k: n,
            p: n,
        },
        &second[second_at..v],
        &first[first_at..g],
        &first[g..end],
        &mut sum,
    );
    write_copy(nn, &sum, &mut second[v..]);
}

// Q and G over the first words from `first_at` on, R and V over the second from `second_at` on.
fn fill_more(
    q: u32,
    n: u32,
    words: &[u32],
    first: &mut [u32],
    first_at: usize,
    second: &mut [u32],
    second_at: usize,
) -> usize
    requires { Unknowns q n × (n * n + (n * n + n * n) ≤ length (residues_of q words.now))
        × (first_at + n * n + n * n ≤ length first.old) × (second_at + n * n + n * n ≤ length second.old) }
    ensures value { result ≡ words_read q (n * n + (n * n + n * n)) words.now }
    ensures first_after { first.new ≡ written_at first_at (qg n (residues_of q words.now)) first.old }
    ensures second_after { second.new ≡ written_at second_at (rv q n (residues_of q words.now)) second.old }
{
    let nn = times(n, n);
    let read = draw_three(q, nn, nn, nn, words, first, first_at, second, second_at);
    write_v(q, n as usize, first, first_at, second, second_at);
    read
}

// ---- both halves

// The beginning of each half, for both sorts: the header, and then X0 and A0, or Y0 and B0.
fn write_masks(r: &Request<'_>, first: &mut [u32], second: &mut [u32]) -> usize
    requires { Room (sort r.now.sort) r.now.terms r.now.words.now (length first.old) (length second.old) }
    ensures value { result ≡ words_read r.now.terms.q (masks_count r.now.terms.m r.now.terms.k r.now.terms.p) r.now.words.now }
    ensures first_after { first.new ≡ over (first_masks (sort r.now.sort) r.now.terms r.now.words.now) first.old }
    ensures second_after { second.new ≡ over (second_masks (sort r.now.sort) r.now.terms r.now.words.now) second.old }
{
    write_headers(r.sort, r.terms, first, second);
    fill_masks(r.terms, r.words, first, second)
}

// A system's matrices behind these, from the words behind those that were read.
fn write_more(t: Terms, words: &[u32], read: usize, first: &mut [u32], second: &mut [u32]) -> usize
    requires { Room system t words.now (length first.old) (length second.old)
        × (read ≡ words_read t.q (masks_count t.m t.k t.p) words.now) }
    ensures value { result ≡ words_read t.q (draw_count system t.m t.k t.p) words.now }
    ensures first_after { first.new ≡ written_at (matrix_at blinder t.m t.k t.p 2) (more_first t words.now) first.old }
    ensures second_after { second.new ≡ written_at (matrix_at solver t.m t.k t.p 2) (more_second t words.now) second.old }
{
    let f = matrix_at(End::Blinder, t, 2);
    let s = matrix_at(End::Solver, t, 2);
    let more = fill_more(t.q, t.m, &words[read..], first, f, second, s);
    read + more
}

// The answer is how many words were read.
pub fn write_halves(r: &Request<'_>, first: &mut [u32], second: &mut [u32]) -> usize
    requires { Room (sort r.now.sort) r.now.terms r.now.words.now (length first.old) (length second.old) }
    ensures value { result ≡ words_read r.now.terms.q (draw_count (sort r.now.sort) r.now.terms.m r.now.terms.k r.now.terms.p) r.now.words.now }
    ensures first_after { first.new ≡ over (first_half_words (request_of r.now)) first.old }
    ensures second_after { second.new ≡ over (second_half_words (request_of r.now)) second.old }
{
    let read = write_masks(r, first, second);
    match r.sort {
        Sort::Product => read,
        Sort::System => write_more(r.terms, r.words, read, first, second),
    }
}
