// The steps of a product, by value: right's first, left's one, and right's last; and right's drop.
//   RightAnswer, LeftAnswer   what a step answers
//   first, left, last         the three steps: right_first, left_step, right_last
//   drop                      right_drop
// A step is given its pool and the place of its slot; its terms or its session; its inputs; the message that it takes
// (`Incoming`); and last the slices that it writes.
// A step judges everything (`check`), computes what it sends and gives from what it was lent (`compute`), and changes its tape.
// For hosts: right_first, left_step, right_last, right_drop.
#![tactic(auto)]

mod drop;
pub mod first;
mod last;
pub mod left;

ghost use Rattle.std.specs.Prelude.{◌≡◌};
ghost use Rattle.protocol.specs.Product.{no_right};

pub use drop::{RightDropped, right_drop};
pub use first::right_first;
use judging::Stepped;
use judging::message::no_head;
pub use last::right_last;
pub use left::left_step;
use protocol::{RightSession, Terms};

// What a step of the right end answers.
pub type RightAnswer = Stepped<RightSession>;

// What left's step answers. Left keeps no session.
pub type LeftAnswer = Stepped<()>;

// A session that is closed.
fn closed(terms: Terms) -> RightSession
    ensures { result ≡ record { terms = terms; due = 0 } }
{
    RightSession { terms, due: 0 }
}

// There is no session: what a refused first step hands back.
fn no_session() -> RightSession
    ensures { result ≡ no_right }
{
    closed(no_head().terms)
}
