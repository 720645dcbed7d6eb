// Judging: the tests that calls share. A check function answers a `Check`, which its caller hands on by `?`; its contract says that it judges the
// tests of a group (specs/Groups, specs/Received).
//   Check, answer_of   what a group of tests answers, and the same as a call's answer
//   order              one test, and the worse of two checks: the order in which refusals are given
//   message            a message's kind and size
//   numbers            the numbers of a session, of its slot and of a message
//   held               the words of a half, in its slot
//   received           what every step checks that takes a message
//   step               what steps and drops check, whatever their end
//   Stepped, Dropped   what they answer (stepped)
// No function here is for hosts.
#![tactic(auto)]

pub mod held;
pub mod message;
pub mod numbers;
pub mod order;
pub mod received;
pub mod step;
mod stepped;

ghost use Rattle.std.specs.Prelude.{◌≡◌};
ghost use Rattle.judging.specs.InOrder.{answer_of};

pub use order::{need, worst};
use protocol::{Answer, Refusal};
pub use step::check_input;
pub use stepped::{Dropped, Stepped};

// What a group of tests answers.
pub type Check = Result<(), Refusal>;

// A check, as the answer of a call that draws nothing.
pub fn answer_of(c: Check) -> Answer
    ensures { result ≡ answer_of c }
{
    c?;
    Ok(0)
}
