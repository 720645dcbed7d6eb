// What an entry leaves, by the verdict on its own tests.
//   settle   an entry's own refusal, or what its step left put back
ghost use Rattle.std.specs.Prelude.{◌≡◌, ◌*◌, ◌≤◌, length};
ghost use Rattle.protocol.specs.Judge.{done};
ghost use Rattle.judging.specs.InOrder.{checked};
ghost use Rattle.entry.specs.Entry.{lent_of, left_of};
ghost use Rattle.local.specs.Entered.{settled};

use crate::own::refused;
use crate::store::store;
use entry::{Report, Session};
use judging::Check;
use protocol::{Answer, Head};

// What decides, beside a step's answer, what it leaves.
#[derive(Clone, Copy)]
pub struct Settled {
    pub own: Check,
    pub sums: bool,
    pub read: usize,
}

// An entry's own refusal goes before its step's; else what the step left is put back.
pub fn settle(
    q: Settled,
    answer: Answer,
    x: Session,
    h: Head,
    words: &[u32],
    lent: &[u32],
    out: &[u32],
    share: &[u32],
    session: &mut [u8],
    slot: &mut [u8],
    scratch: &mut [u8],
    line: &mut [u8],
    res: &mut [u8],
) -> Report
    requires { (checked q.own ≡ done tt → length session.old ≡ 1120) × (length words.now * 4 ≤ length slot.old)
        × (length lent.now * 4 ≤ length scratch.old) × (length share.now * 4 ≤ length res.old) }
    ensures { left_of result session.new slot.new scratch.new line.new res.new
        ≡ settled q.own q.sums q.read answer x h words.now lent.now out.now share.now
        (lent_of session.old slot.old scratch.old line.old res.old) }
{
    if q.own.is_err() {
        return refused(q.own, answer);
    }
    store(
        answer, x, h, q.sums, q.read, words, lent, out, share, session, slot, scratch, line, res,
    )
}
