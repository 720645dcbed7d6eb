// The rehearsal as a function on bytes: five lines in, and what is printed out.
//   rehearse  the entry
//   Input     what the five lines say
//   check     what the run's calls need of what the lines say
//   perform   the run: dealing, and the three steps
// For hosts: rehearse.
#![tactic(auto)]

mod check;
mod perform;

ghost use Rattle.std.specs.Prelude.{◌≡◌, List, ℕ, ◌≤◌, length};
ghost use Rattle.algebra.specs.Words.{over};
ghost use Rattle.protocol.specs.Judge.{judge, done};
ghost use Rattle.protocol.specs.Rehearsal.{rehearsal_tests, run, rehearse};
ghost use Rattle.judging.specs.InOrder.{judged};
ghost use Rattle.rehearse_lines.specs.Prints.{MOST};
ghost use Rattle.rehearse.specs.Order.{input_of, number_tests, PrintsAll, Prints};

use protocol::{Refusal, Terms};
use rehearse_lines::{input, print};

// What the five lines say, in words that are lent.
#[derive(Clone, Copy)]
pub struct Input<'a> {
    pub terms: Terms,
    pub x: &'a [u32],
    pub y: &'a [u32],
    pub dealer: &'a [u32],
    pub left: &'a [u32],
}

// What is printed where the numbers fit.
fn judge_words(i: Input, out: &mut [u8]) -> usize
    requires { (judged (number_tests i.terms (length i.x.now) (length i.y.now)) ≡ done tt) × (MOST ≤ length out.old) }
    ensures { Prints (judge (rehearsal_tests (input_of i.entry)) (run (input_of i.entry))) result out.old out.new }
{
    if let Err(r) = check::words(i) {
        return print::refusal(r, out);
    }
    perform::perform(i, out)
}

// The bytes that a rehearsal of these bytes prints stand at the start of `out`; the answer is how many.
pub fn rehearse(bytes: &[u8], out: &mut [u8; 81920]) -> usize
    ensures place { result ≡ length (rehearse bytes.now) }
    ensures few { result ≤ MOST }
    ensures contents { out.new ≡ over (rehearse bytes.now) out.old }
{
    let mut first = [0u32; 6];
    let mut x = [0u32; 2048];
    let mut y = [0u32; 2048];
    let mut dealer = [0u32; 32768];
    let mut left = [0u32; 32768];
    let lines = input::read(bytes, &mut first, &mut x, &mut y, &mut dealer, &mut left);
    let Some(c) = lines else {
        return print::refusal(Refusal::Form, out);
    };
    let terms = input::terms_of(&first);
    if let Err(r) = check::numbers(terms, c.x, c.y) {
        return print::refusal(r, out);
    }
    // X and Y have room in their words where the numbers fit
    let i = Input {
        terms,
        x: &x[..c.x],
        y: &y[..c.y],
        dealer: &dealer[..c.dealer],
        left: &left[..c.left],
    };
    judge_words(i, out)
}
