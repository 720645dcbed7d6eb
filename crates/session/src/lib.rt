// The calls of a session over its record, by value, for all four ends: each calls the step or the drop of the record's end.
//   Done        what a call answers: besides the answer the record, and the head of the message that is sent
//   record      a record from an end's session and back: the trait `Kept`
//   kept, over  an end's answer over its record; the record that was handed over, where it is not done
//   first_step  an end's first step; `first_over` is the same over a record that must hold no open session
//   next_step   the step that is due
//   drop_step   the drop
// A call is given its pool and the place of its slot; the scratch; its terms or its record; the inputs; the message that it takes; and
// last the slices that it writes. What its end has no use of is not looked at.
// No function here is for hosts: `lent` has the calls over a record that is lent, and the crate `host` those on bytes.
#![tactic(auto)]

mod drop;
mod first;
mod next;
mod open;
pub mod record;

ghost use Rattle.std.specs.Prelude.{◌≡◌, cond};
ghost use Rattle.local.specs.Settled.{is_settled};

pub use drop::drop_step;
use entry::Session;
pub use first::first_step;
use judging::Stepped;
pub use next::next_step;
pub use open::first_over;
use protocol::{Answer, Refusal};
use record::Kept;

pub type Done = Stepped<Session>;

// A later step of the solver is done, too, where it answers that the sum is singular.
fn is_settled(a: Answer) -> bool
    ensures { result ≡ is_settled a }
{
    match a {
        Ok(_) => true,
        Err(r) => r == Refusal::Singular,
    }
}

// What an end's step answers, over the record of its session. Not inlined: its copies of a record would stand in the frame below which
// the step itself runs.
#[inline(never)]
fn kept<S: Kept>(d: Stepped<S>) -> Done
    ensures { result ≡ record { answer = d.answer; session = S.record_of d.session; head = d.head } }
{
    let answer = d.answer;
    let head = d.head;
    let session = d.session;
    Stepped {
        answer,
        session: session.record(),
        head,
    }
}

// What a call answers that leaves the record as it was where it is not done.
fn over(done: bool, d: Done, before: Session) -> Done
    ensures { result ≡ record { answer = d.answer; session = cond done d.session before; head = d.head } }
{
    if done {
        return d;
    }
    Stepped {
        answer: d.answer,
        session: before,
        head: d.head,
    }
}
