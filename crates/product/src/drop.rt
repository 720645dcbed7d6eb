// Dropping: right's open session closes, and its half is spent (RULES 3.6).
ghost use Rattle.std.specs.Prelude.{◌≡◌, []};
ghost use Rattle.protocol.specs.Message.{no_message};
ghost use Rattle.protocol.specs.Drop.{drop_right};
ghost use Rattle.tape.specs.Placed.{slot_in};
ghost use Rattle.judging.specs.Leaves.{leaves, leaving};

use crate::closed;
use judging::Dropped;
use judging::step::check_open;
use protocol::RightSession;
use tape::change::spend_at;
use tape::{End, Place};

pub type RightDropped = Dropped<RightSession>;

pub fn right_drop(pool: &mut [u32], at: Place, s: RightSession) -> RightDropped
    ensures { leaving result.answer result.session no_message.head pool.new [] [] []
        ≡ leaves s (slot_in pool.old at) [] [] [] (drop_right s (slot_in pool.old at)) }
{
    let t = s.terms;
    if let Err(r) = check_open(End::Right, s.due, t, pool, at) {
        return Dropped {
            answer: Err(r),
            session: s,
        };
    }
    spend_at(End::Right, t, pool, at);
    Dropped {
        answer: Ok(0),
        session: closed(t),
    }
}
