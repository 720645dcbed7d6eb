// What a step and a drop answer, whatever their end: besides the answer the session, which is handed back by value since it changes at one
// refusal too, that of a singular sum.
//   Stepped            of a step: the session, and the head of the message that it sends
//   refused, accepted  a step that changes nothing and sends nothing; one that draws no raw word
//   Dropped            of a drop, which sends nothing
ghost use Rattle.std.specs.Prelude.{◌≡◌, Ok, Err};
ghost use Rattle.protocol.specs.Message.{no_message};

use crate::message::no_head;
use protocol::{Answer, Head, Refusal};

#[derive(Clone, Copy)]
pub struct Stepped<S> {
    pub answer: Answer,
    pub session: S,
    pub head: Head,
}

impl<S> Stepped<S> {
    // A refused step leaves this session.
    pub fn refused(r: Refusal, session: S) -> Stepped<S>
        ensures { result ≡ record { answer = Err r; session = session; head = no_message.head } }
    {
        Stepped {
            answer: Err(r),
            session,
            head: no_head(),
        }
    }

    // A step that is taken leaves this session, and sends a message with this head.
    pub fn accepted(session: S, head: Head) -> Stepped<S>
        ensures { result ≡ record { answer = Ok 0; session = session; head = head } }
    {
        Stepped {
            answer: Ok(0),
            session,
            head,
        }
    }
}

#[derive(Clone, Copy)]
pub struct Dropped<S> {
    pub answer: Answer,
    pub session: S,
}
