// The order of refusals (RULES 8.1), for code that makes its tests in any order.
//   need, worst    one test, and the worse of two checks
ghost use Rattle.std.specs.Prelude.{◌≡◌, [], ◌∷◌};
ghost use Rattle.protocol.specs.Judge.{place_of, refusal_number, Test, needs};
ghost use Rattle.judging.specs.InOrder.{checked, judged};
ghost use Rattle.judging.specs.Lowest.{lower};

use crate::Check;
use protocol::Refusal;

// One test.
pub fn need(r: Refusal, holds: bool) -> Check
    ensures { checked result ≡ judged (needs r holds ∷ []) }
{
    if holds { Ok(()) } else { Err(r) }
}

// Both checks.
pub fn worst(a: Check, b: Check) -> Check
    ensures { checked result ≡ lower (checked a) (checked b) }
{
    let Err(r) = a else {
        return b;
    };
    let Err(s) = b else {
        return a;
    };
    if s < r { b } else { a }
}
