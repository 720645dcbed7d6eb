// What the run's calls need of what the lines say, before any of them is made: first the numbers, then the words.
ghost use Rattle.std.specs.Prelude.{◌≡◌, ◌*◌, ◌≤◌, ◌<◌};
ghost use Rattle.judging.specs.InOrder.{checked, judged};
ghost use Rattle.rehearse.specs.Order.{input_of, size_tests, number_tests, residue_tests, word_tests};

use crate::Input;
use dealer::sort::masks_count;
use judging::numbers::check_modulus;
use judging::received::check_coins;
use judging::{Check, need, worst};
use protocol::{Refusal, Terms};
use sides::Matrix;
use tape::End;
use vectors::{all_below, times};

// The ids, the sides, and the counts of X and Y.
fn check_sizes(t: Terms, x: usize, y: usize) -> Check
    ensures { checked result ≡ judged (size_tests t x y) }
{
    let session = t.session;
    let tape = t.tape;
    let first = need(Refusal::Size, 1 <= session.0);
    let sides = need(Refusal::Size, Matrix::sides_fit(t.m, t.k, t.p));
    let second = need(Refusal::Size, 1 <= tape.0);
    let full_x = need(Refusal::Size, x == times(t.m, t.k));
    let full_y = need(Refusal::Size, y == times(t.k, t.p));
    worst(first, worst(sides, worst(second, worst(full_x, full_y))))
}

pub fn numbers(t: Terms, x: usize, y: usize) -> Check
    ensures { checked result ≡ judged (number_tests t x y) }
{
    let modulus = check_modulus(End::Right, t.q);
    let sizes = check_sizes(t, x, y);
    worst(modulus, sizes)
}

fn residues(q: u32, x: &[u32], y: &[u32]) -> Check
    ensures { checked result ≡ judged (residue_tests q x.now y.now) }
{
    let in_x = need(Refusal::Residue, all_below(q, x));
    let in_y = need(Refusal::Residue, all_below(q, y));
    worst(in_x, in_y)
}

pub fn words(i: Input) -> Check
    requires { (0 < i.terms.q) × (i.terms.m * i.terms.k ≤ 2048) × (i.terms.k * i.terms.p ≤ 2048) × (i.terms.m * i.terms.p ≤ 1024) }
    ensures { checked result ≡ judged (word_tests (input_of i.entry)) }
{
    let t = i.terms;
    let inputs = residues(t.q, i.x, i.y);
    let dealt = check_coins(t.q, masks_count(t), i.dealer);
    let coins = check_coins(t.q, times(t.m, t.p), i.left);
    worst(inputs, worst(dealt, coins))
}
