// What the solver checks at its second step and at both last ones: `judging`'s tests of a later step, the room for its message, its sort, and
// what it keeps.
//   check   the tests of the step that takes a message of one kind and sends one of another
ghost use Rattle.std.specs.Prelude.{◌≡◌, true};
ghost use Rattle.protocol.specs.Bounds.{sides_fit, system};
ghost use Rattle.protocol.specs.Message.{message_in};
ghost use Rattle.protocol.specs.System.{kept_s, kept_tests};
ghost use Rattle.tape.specs.Placed.{slot_in};
ghost use Rattle.judging.specs.InOrder.{checked, judged};
ghost use Rattle.solver.specs.Groups.{receiving};

use judging::message::{has_room, last_fits, side_size};
use judging::step::{check_later, check_room};
use judging::{Check, need, worst};
use protocol::{Incoming, Refusal, SolverSession};
use tape::{End, Place};
use vectors::all_below;

fn check_kept(s: SolverSession) -> Check
    requires { sides_fit system s.terms.m s.terms.k s.terms.p ≡ true }
    ensures { checked result ≡ judged (kept_tests s.terms.q (kept_s s)) }
{
    let t = s.terms;
    let side = side_size(t);
    let kept = s.s;
    need(Refusal::Residue, all_below(t.q, &kept[..side]))
}

pub fn check(
    pool: &[u32],
    at: Place,
    kind: u32,
    sends: u32,
    s: SolverSession,
    a: Incoming,
    room: usize,
) -> Check
    ensures { checked result ≡ judged (receiving kind sends s (slot_in pool.now at) (message_in a.entry) room) }
{
    let t = s.terms;
    let shared = check_later(End::Solver, kind, s.due, t, a, pool, at);
    let sent = check_room(s.due, has_room(sends, t, room));
    let sort = need(Refusal::Turn, last_fits(sends, t));
    worst(shared, worst(sent, sort))?;
    check_kept(s)
}
