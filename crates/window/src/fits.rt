// Which moduli, runs and windows fit.
//   run_fits                 1 to 2,048 days
//   window_fits, next_fits   a window, and the one that begins a day later
//   check_window             a window's numbers, judged
#![tactic(auto, unfolding(algebra::specs::Count::both, protocol::specs::Bounds::within))]

ghost use Rattle.std.specs.Prelude.{◌≡◌, [], ◌∷◌, suc, ltb};
ghost use Rattle.algebra.specs.Count.{both};
ghost use Rattle.protocol.specs.declared.Refusal.TheVariants.{Modulus, Size};
ghost use Rattle.protocol.specs.Judge.{needs};
ghost use Rattle.protocol.specs.Bounds.{largest_modulus, within};
ghost use Rattle.protocol.specs.Window.{longest_run, window_fits};
ghost use Rattle.judging.specs.InOrder.{checked, judged};

use field::Field;
use judging::{Check, need, worst};
use protocol::Refusal;

fn modulus_fits(q: u32) -> bool
    ensures { result ≡ within 2 largest_modulus q }
{
    (2..=Field::LARGEST).contains(&q)
}

pub fn run_fits(run: usize) -> bool
    ensures { result ≡ within 1 longest_run run }
{
    (1..=2048).contains(&run)
}

// A window of so many days, wherever it begins.
fn length_fits(q: u32, run: usize, w: usize) -> bool
    ensures { result ≡ both (within 1 longest_run run) (both (within 1 run w) (ltb w q)) }
{
    run_fits(run) && (1..=run).contains(&w) && w < q as usize
}

pub fn window_fits(q: u32, run: usize, first: usize, w: usize) -> bool
    ensures { result ≡ window_fits q run first w }
{
    length_fits(q, run, w) && first <= run - w
}

pub fn next_fits(q: u32, run: usize, first: usize, w: usize) -> bool
    ensures { result ≡ window_fits q run (suc first) w }
{
    length_fits(q, run, w) && first < run - w
}

// `fits` says whether the window does.
pub fn check_window(q: u32, fits: bool) -> Check
    ensures { checked result ≡ judged (needs Modulus (within 2 largest_modulus q) ∷ needs Size fits ∷ []) }
{
    let modulus = need(Refusal::Modulus, modulus_fits(q));
    let size = need(Refusal::Size, fits);
    worst(modulus, size)
}
