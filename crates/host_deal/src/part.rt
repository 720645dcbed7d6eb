// Which words of the slots a dealing on bytes looks at: those of the larger half, at the slots' start.
//   Part      where they begin in their pools, and how many they are
//   is_fit    nothing is refused by 4, and the modulus is not 0
//   part_of   the words that are looked at; none where something is refused by 4
ghost use Rattle.std.specs.Prelude.{◌≡◌, true};
ghost use Rattle.protocol.specs.Bounds.{sides_fit};
ghost use Rattle.judging.specs.InOrder.{checked, judged};
ghost use Rattle.dealer.specs.Sorts.{sort};
ghost use Rattle.host_deal.specs.Part.{own_tests, larger_half, is_fit, part_for};

use dealer::sort::{Sort, first_end, second_end};
use judging::numbers::check_sizes;
use judging::{Check, need, worst};
use protocol::{Refusal, Terms};
use tape::Place;
use tape::half::half_size;

// The same in both pools.
#[derive(Clone, Copy)]
pub struct Part {
    pub from: usize,
    pub size: usize,
}

// Whole words, by how many bytes there are.
fn check_whole(first: usize, second: usize, words: usize) -> Check
    ensures { checked result ≡ judged (own_tests first second words) }
{
    let one = need(Refusal::Size, first % 4 == 0);
    let two = need(Refusal::Size, second % 4 == 0);
    let raw = need(Refusal::Size, words % 4 == 0);
    worst(one, worst(two, raw))
}

// Of all bytes it is told how many there are.
fn is_fit(s: Sort, t: Terms, first: usize, second: usize, words: usize, at: Place) -> bool
    ensures { result ≡ is_fit (sort s) t first second words at.size at.index }
{
    let whole = check_whole(first, second, words);
    let one = check_sizes(first_end(s), t, first / 4, at);
    let two = check_sizes(second_end(s), t, second / 4, at);
    t.q != 0 && worst(whole, worst(one, two)).is_ok()
}

#[tactic(auto, unfolding(crate::specs::Part::larger_half))]
fn larger_half(s: Sort, t: Terms) -> usize
    requires { sides_fit (sort s) t.m t.k t.p ≡ true }
    ensures { result ≡ larger_half (sort s) t.m t.k t.p }
{
    let one = half_size(first_end(s), t);
    let two = half_size(second_end(s), t);
    one.max(two)
}

pub fn part_of(s: Sort, t: Terms, first: usize, second: usize, words: usize, at: Place) -> Part
    ensures { result ≡ part_for (sort s) t first second words at.size at.index }
{
    if !is_fit(s, t, first, second, words, at) {
        return Part { from: 0, size: 0 };
    }
    Part {
        from: at.index * at.size,
        size: larger_half(s, t),
    }
}
