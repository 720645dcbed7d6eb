// The dealer, who writes both halves of a tape into one slot of two pools: everything is judged, and then everything is written.
//   deal_product  the halves of left and right
//   deal_system   the halves of blinder and solver
//   deal          both, over a request
//   request       what a dealer is asked for
//   sort          the two sorts
//   check         the dealer's tests
//   halves        its writers
// For hosts: deal_product, deal_system.
#![tactic(auto)]

mod check;
mod halves;
pub mod request;
pub mod sort;

ghost use Rattle.std.specs.Prelude.{◌≡◌, ◌≤◌};
ghost use Rattle.protocol.specs.Deal.{product_request, system_request, deal};
ghost use Rattle.protocol.specs.Step.{answer_reply};
ghost use Rattle.dealer.specs.Sorts.{request_of};
ghost use Rattle.dealer.specs.Dealt.{Pools, pools};

use check::check;
use halves::write_halves;
use protocol::{Answer, SessionId, TapeId, Terms};
use request::Request;
use sort::Sort;
use tape::Place;

// One slot size and one index serve both pools.
pub fn deal(first: &mut [u32], second: &mut [u32], at: Place, r: &Request<'_>) -> Answer
    requires { 1 ≤ r.now.terms.session.0 }
    ensures { ◌≡◌ {A = Pools} (record { answer = answer_reply result; first = first.new; second = second.new })
        (pools first.old second.old (deal first.old second.old at.size at.index (request_of r.now))) }
{
    check(first, second, at, r)?;
    let from = at.index * at.size;
    let stop = from + at.size;
    let read = write_halves(r, &mut first[from..stop], &mut second[from..stop]);
    Ok(read)
}

// Left's half goes into the first pool, right's into the second.
pub fn deal_product(
    first: &mut [u32],
    second: &mut [u32],
    at: Place,
    tape: TapeId,
    q: u32,
    m: u32,
    k: u32,
    p: u32,
    words: &[u32],
) -> Answer
    ensures { ◌≡◌ {A = Pools} (record { answer = answer_reply result; first = first.new; second = second.new })
        (pools first.old second.old (deal first.old second.old at.size at.index (product_request tape q m k p words.now))) }
{
    let terms = Terms {
        session: SessionId(1),
        tape,
        q,
        m,
        k,
        p,
    };
    let r = Request {
        sort: Sort::Product,
        terms,
        words,
    };
    deal(first, second, at, &r)
}

// A system of n unknowns, whose p is n + 1, or n for a determinant: blinder's half goes into the first pool, solver's into the second.
pub fn deal_system(
    first: &mut [u32],
    second: &mut [u32],
    at: Place,
    tape: TapeId,
    q: u32,
    n: u32,
    p: u32,
    words: &[u32],
) -> Answer
    ensures { ◌≡◌ {A = Pools} (record { answer = answer_reply result; first = first.new; second = second.new })
        (pools first.old second.old (deal first.old second.old at.size at.index (system_request tape q n p words.now))) }
{
    let terms = Terms {
        session: SessionId(1),
        tape,
        q,
        m: n,
        k: n,
        p,
    };
    let r = Request {
        sort: Sort::System,
        terms,
        words,
    };
    deal(first, second, at, &r)
}
