// The step on words.
//   perform   the step that is due, or the drop
//   run       the same on words that are brought from bytes
ghost use Rattle.std.specs.Prelude.{◌≡◌, ◌*◌, ◌≤◌, length, take};
ghost use Rattle.protocol.specs.Tape.{slot_at};
ghost use Rattle.protocol.specs.Message.{message_in};
ghost use Rattle.tape.specs.Placed.{slot_in};
ghost use Rattle.judging.specs.Leaves.{leaves, leaving};
ghost use Rattle.entry.specs.Bytes.{words_of};
ghost use Rattle.local.specs.Entered.{later_step};

use entry::Session;
use protocol::Incoming;
use session::{Done, drop_step, next_step};
use tape::Place;
use words::get_words;

fn perform(
    drops: bool,
    x: Session,
    a: Incoming,
    pool: &mut [u32],
    at: Place,
    scratch: &mut [u32],
    out: &mut [u32],
    res: &mut [u32],
) -> Done
    ensures { leaving result.answer result.session result.head pool.new scratch.new out.new res.new
        ≡ leaves x (slot_in pool.old at) scratch.old out.old res.old
        (later_step drops x (slot_in pool.old at) scratch.old (message_in a.entry) (length out.old)
        (length res.old)) }
{
    if drops {
        return drop_step(pool, at, scratch, x);
    }
    next_step(pool, at, scratch, x, a, out, res)
}

// `slot` begins where the slot does; of each slice of bytes as many words are brought as its words have room for.
pub fn run(
    drops: bool,
    x: Session,
    a: Incoming,
    slot: &[u8],
    scratch: &[u8],
    res: &[u8],
    words: &mut [u32],
    lent: &mut [u32],
    out: &mut [u32],
    share: &mut [u32],
) -> Done
    requires { (length words.old * 4 ≤ length slot.now) × (length lent.old * 4 ≤ length scratch.now) × (length share.old * 4 ≤ length res.now) }
    ensures { leaving result.answer result.session result.head words.new lent.new out.new share.new
        ≡ leaves x (slot_at (take (length words.old) (words_of slot.now)) (length words.old) 0)
        (take (length lent.old) (words_of scratch.now)) out.old (take (length share.old) (words_of res.now))
        (later_step drops x (slot_at (take (length words.old) (words_of slot.now)) (length words.old) 0)
        (take (length lent.old) (words_of scratch.now)) (message_in a.entry) (length out.old)
        (length share.old)) }
{
    let n = words.len();
    get_words(n, slot, words);
    get_words(lent.len(), scratch, lent);
    get_words(share.len(), res, share);
    let at = Place { size: n, index: 0 };
    perform(drops, x, a, words, at, lent, out, share)
}
