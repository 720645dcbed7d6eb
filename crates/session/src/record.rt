// Records: the session of an end in a record, and the record of a session (RULES 11.1).
//   Kept      what an end keeps of a session: its record, and what a record holds
//   of_left   left keeps nothing
ghost use Rattle.std.specs.Prelude.{◌≡◌};
ghost use Rattle.entry.specs.declared.Session.{Session};
ghost use Rattle.entry.specs.Record.{right_of, solver_of, blinder_of, of_left, of_right, of_solver, of_blinder};

use entry::{BLINDER, LEFT, RIGHT, SOLVER, Session};
use judging::message::no_head;
use protocol::{BlinderSession, RightSession, SolverSession, Terms};
use vectors::write_copy;

pub trait Kept {
    ghost record_of: { Self → Session };

    ghost held_in: { Session → Self };

    fn record(self) -> Session
        ensures { result ≡ record_of self };

    fn held(x: Session) -> Self
        ensures { result ≡ held_in x };
}

impl Kept for RightSession {
    ghost record_of = { of_right };

    ghost held_in = { right_of };

    fn record(self) -> Session {
        let kept = [0u32; 272];
        Session {
            end: RIGHT,
            terms: self.terms,
            due: self.due,
            kept,
        }
    }

    // A record of another end holds no session.
    fn held(x: Session) -> RightSession {
        if x.end == RIGHT {
            return RightSession {
                terms: x.terms,
                due: x.due,
            };
        }
        let none = no_head();
        RightSession {
            terms: none.terms,
            due: 0,
        }
    }
}

impl Kept for SolverSession {
    ghost record_of = { of_solver };

    ghost held_in = { solver_of };

    fn record(self) -> Session {
        let s = self.s;
        let mut kept = [0u32; 272];
        write_copy(16, &s, &mut kept);
        Session {
            end: SOLVER,
            terms: self.terms,
            due: self.due,
            kept,
        }
    }

    fn held(x: Session) -> SolverSession {
        let kept = x.kept;
        let mut s = [0u32; 16];
        write_copy(16, &kept, &mut s);
        SolverSession {
            terms: x.terms,
            due: x.due,
            s,
        }
    }
}

impl Kept for BlinderSession {
    ghost record_of = { of_blinder };

    ghost held_in = { blinder_of };

    fn record(self) -> Session {
        let mm = self.mm;
        let y = self.y;
        let mut kept = [0u32; 272];
        write_copy(256, &mm, &mut kept);
        write_copy(16, &y, &mut kept[256..]);
        Session {
            end: BLINDER,
            terms: self.terms,
            due: self.due,
            kept,
        }
    }

    fn held(x: Session) -> BlinderSession {
        let kept = x.kept;
        let mut mm = [0u32; 256];
        let mut y = [0u32; 16];
        write_copy(256, &kept, &mut mm);
        write_copy(16, &kept[256..], &mut y);
        BlinderSession {
            terms: x.terms,
            due: x.due,
            mm,
            y,
        }
    }
}

// Left's step leaves a closed record.
pub fn of_left(t: Terms) -> Session
    ensures { result ≡ of_left t }
{
    let kept = [0u32; 272];
    Session {
        end: LEFT,
        terms: t,
        due: 0,
        kept,
    }
}
