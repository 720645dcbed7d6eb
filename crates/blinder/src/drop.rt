// The blinder's drop: an open session closes, its tape is spent, and its scratch is zeroed.
ghost use Rattle.std.specs.Prelude.{◌≡◌, [], ◌++◌, length};
ghost use Rattle.protocol.specs.Judge.{given};
ghost use Rattle.protocol.specs.Bounds.{room_tests};
ghost use Rattle.protocol.specs.Tape.{blinder};
ghost use Rattle.protocol.specs.Message.{no_message};
ghost use Rattle.protocol.specs.Drop.{drop_blinder};
ghost use Rattle.protocol.specs.Step.{is_open, open_tests, answer_reply};
ghost use Rattle.protocol.specs.System.{scratch_size};
ghost use Rattle.tape.specs.Placed.{slot_in};
ghost use Rattle.judging.specs.InOrder.{checked, judged};
ghost use Rattle.judging.specs.Leaves.{leaves, leaving};

use crate::{forget, scratch_fits};
use judging::step::{check_open, check_room};
use judging::{Check, Dropped, worst};
use protocol::BlinderSession;
use tape::change::spend_at;
use tape::{End, Place};

pub type BlinderDropped = Dropped<BlinderSession>;

// Of the scratch is told how many words it has.
fn check(pool: &[u32], at: Place, room: usize, s: BlinderSession) -> Check
    ensures { checked result ≡ judged (open_tests blinder s.due s.terms (slot_in pool.now at) ++ given (is_open s.due)
        (room_tests (scratch_size s.terms) room)) }
{
    let session = check_open(End::Blinder, s.due, s.terms, pool, at);
    let scratch = check_room(s.due, scratch_fits(s.terms, room));
    worst(session, scratch)
}

pub fn blinder_drop(
    pool: &mut [u32],
    at: Place,
    scratch: &mut [u32],
    s: BlinderSession,
) -> BlinderDropped
    ensures { leaving result.answer result.session no_message.head pool.new scratch.new [] []
        ≡ leaves s (slot_in pool.old at) scratch.old [] [] (drop_blinder s (slot_in pool.old at) scratch.old) }
{
    let t = s.terms;
    if let Err(r) = check(pool, at, scratch.len(), s) {
        return Dropped {
            answer: Err(r),
            session: s,
        };
    }
    let session = forget(t, scratch);
    spend_at(End::Blinder, t, pool, at);
    Dropped {
        answer: Ok(0),
        session,
    }
}
