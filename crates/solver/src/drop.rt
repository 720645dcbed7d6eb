// The solver's drop: an open session closes, and its tape is spent.
ghost use Rattle.std.specs.Prelude.{◌≡◌, []};
ghost use Rattle.protocol.specs.Message.{no_message};
ghost use Rattle.protocol.specs.Drop.{drop_solver};
ghost use Rattle.tape.specs.Placed.{slot_in};
ghost use Rattle.judging.specs.Leaves.{leaves, leaving};

use crate::{SolverDropped, session_of};
use judging::Dropped;
use judging::step::check_open;
use protocol::SolverSession;
use tape::change::spend_at;
use tape::{End, Place};

pub fn solver_drop(pool: &mut [u32], at: Place, s: SolverSession) -> SolverDropped
    ensures { leaving result.answer result.session no_message.head pool.new [] [] []
        ≡ leaves s (slot_in pool.old at) [] [] [] (drop_solver s (slot_in pool.old at)) }
{
    let t = s.terms;
    if let Err(r) = check_open(End::Solver, s.due, t, pool, at) {
        return Dropped {
            answer: Err(r),
            session: s,
        };
    }
    spend_at(End::Solver, t, pool, at);
    Dropped {
        answer: Ok(0),
        session: session_of(t, 0),
    }
}
