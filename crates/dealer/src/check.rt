// The dealer's tests: all are made before a word is written.
//   check          everything, for both sorts
//   check_numbers  the request's numbers and the two slots: refusals 2 to 4
//   check_words    the slots' statuses and the raw words: refusals 6, 9 and 10
ghost use Rattle.std.specs.Prelude.{◌≡◌, true, ◌*◌, ◌/◌, ◌≤◌, ltb, length, drop};
ghost use Rattle.algebra.specs.Count.{part};
ghost use Rattle.algebra.specs.Elimination.{regular};
ghost use Rattle.algebra.specs.Prime.{is_prime};
ghost use Rattle.protocol.specs.Bounds.{system};
ghost use Rattle.protocol.specs.Drawing.{residues_of, drawn};
ghost use Rattle.protocol.specs.Tape.{header_size};
ghost use Rattle.tape.specs.Placed.{slot_in};
ghost use Rattle.protocol.specs.Deal.{drawn_parts, deal_tests};
ghost use Rattle.judging.specs.InOrder.{checked, judged};
ghost use Rattle.dealer.specs.Sorts.{sort, draw_count, request, request_of};
ghost use Rattle.dealer.specs.Groups.{deal_numbers, mark_tests, mask_tests, raw_tests, deal_words};
ghost use Rattle.dealer.specs.Shape.{Fits, Numbers, Unknowns};

use crate::request::Request;
use crate::sort::{Sort, draw_count, first_end, masks_count, second_end};
use drawing::{draw, read};
use elimination::has_inverse;
use judging::numbers::{check_modulus, check_sizes};
use judging::received::check_coins;
use judging::{Check, need, worst};
use protocol::{Refusal, Terms};
use tape::header::is_free;
use tape::{Place, slot};
use vectors::times;

// Of the pools' words it is told how many there are. The sides are tested with each half.
fn check_numbers(s: Sort, t: Terms, first: usize, second: usize, at: Place) -> Check
    ensures { checked result ≡ judged (deal_numbers (sort s) t first second at.size at.index) }
{
    let a = first_end(s);
    let b = second_end(s);
    let modulus = check_modulus(a, t.q);
    let one = check_sizes(a, t, first, at);
    let two = check_sizes(b, t, second, at);
    worst(modulus, worst(one, two))
}

// A tape is dealt over an empty or a spent one.
fn check_mark(pool: &[u32], at: Place) -> Check
    requires { (header_size ≤ at.size) × (ltb at.index (length pool.now / at.size) ≡ true) }
    ensures { checked result ≡ judged (mark_tests (slot_in pool.now at)) }
{
    need(Refusal::Mark, is_free(slot(pool, at)))
}

// Whether the n by n mask that is drawn from the word at `at` on has an inverse.
fn has_inverse_at(q: u32, n: u32, words: &[u32], at: usize) -> bool
    requires { (is_prime q ≡ true) × Unknowns q n × (at ≤ length words.now) × (n * n ≤ length (residues_of q (drop at words.now))) }
    ensures { result ≡ regular q n (drawn q (n * n) (drop at words.now)) }
{
    let nn = times(n, n);
    let mut mask = [0u32; 256];
    draw(q, nn, &words[at..], &mut mask);
    has_inverse(q, n as usize, &mask[..nn])
}

// Whether Q, behind X0, Y0 and A0, has an inverse.
fn mask_fits(t: Terms, words: &[u32]) -> bool
    requires { Fits system t × (draw_count system t.m t.k t.p ≤ length (residues_of t.q words.now)) }
    ensures { result ≡ regular t.q t.m (part 3 (drawn_parts (request system t words.now))) }
{
    let Some(at) = read(t.q, masks_count(t), words) else {
        return false;
    };
    has_inverse_at(t.q, t.m, words, at)
}

// A product has no mask Q.
fn check_mask(r: &Request<'_>) -> Check
    requires { Fits (sort r.now.sort) r.now.terms
        × (draw_count (sort r.now.sort) r.now.terms.m r.now.terms.k r.now.terms.p ≤ length (residues_of r.now.terms.q r.now.words.now)) }
    ensures { checked result ≡ judged (mask_tests (sort r.now.sort) r.now.terms r.now.words.now) }
{
    match r.sort {
        Sort::Product => Ok(()),
        Sort::System => need(Refusal::Singular, mask_fits(r.terms, r.words)),
    }
}

fn check_raw(r: &Request<'_>) -> Check
    requires { Fits (sort r.now.sort) r.now.terms }
    ensures { checked result ≡ judged (raw_tests (sort r.now.sort) r.now.terms r.now.words.now) }
{
    check_coins(r.terms.q, draw_count(r.sort, r.terms), r.words)?;
    check_mask(r)
}

// The slots' statuses and the raw words.
fn check_words(first: &[u32], second: &[u32], at: Place, r: &Request<'_>) -> Check
    requires { Numbers (sort r.now.sort) r.now.terms (length first.now) (length second.now) at.size at.index }
    ensures { checked result ≡ judged (deal_words (sort r.now.sort) r.now.terms (slot_in first.now at)
        (slot_in second.now at) r.now.words.now) }
{
    let one = check_mark(first, at);
    let two = check_mark(second, at);
    let raw = check_raw(r);
    worst(one, worst(two, raw))
}

pub fn check(first: &[u32], second: &[u32], at: Place, r: &Request<'_>) -> Check
    requires { 1 ≤ r.now.terms.session.0 }
    ensures { checked result ≡ judged (deal_tests (slot_in first.now at) (slot_in second.now at) (request_of r.now)) }
{
    check_numbers(r.sort, r.terms, first.len(), second.len(), at)?;
    check_words(first, second, at, r)
}
