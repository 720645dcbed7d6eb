// The later calls of a session on bytes (RULES 11.2): each is the definition of its entry.
//   next, drop
ghost use Rattle.std.specs.Prelude.{◌≡◌, [], length};
ghost use Rattle.entry.specs.Entry.{lent_of, left_of, next_on, drop_on};

use crate::slot::{Asked, with_room};
use entry::Report;
use host_parts::own::check_session;
use host_parts::taken::{residues_in, seen_count, take_line};
use judging::message::no_head;
use protocol::{Incoming, Refusal};
use tape::Place;

// ---- the step that is due

// `numbers`: words for those of a line.
fn next_with(
    session: &mut [u8],
    pool: &mut [u8],
    at: Place,
    scratch: &mut [u8],
    message: &[u8],
    line: &mut [u8],
    res: &mut [u8],
    numbers: &mut [u32],
) -> Report
    requires { length numbers.old ≡ 3079 }
    ensures { left_of result session.new pool.new scratch.new line.new res.new
        ≡ next_on (lent_of session.old pool.old scratch.old line.old res.old) at.size at.index message.now }
{
    let own = check_session(session.len(), pool.len(), scratch.len(), res.len());
    let Some(taken) = take_line(message, numbers) else {
        return Report::from(Refusal::Form);
    };
    let q = Asked { drops: false, own };
    let seen = seen_count(taken.count);
    let residues = residues_in(numbers, seen);
    let a = Incoming {
        head: taken.head,
        residues,
    };
    with_room(q, at, a, session, pool, scratch, line, res)
}

pub fn next(
    session: &mut [u8],
    pool: &mut [u8],
    at: Place,
    scratch: &mut [u8],
    message: &[u8],
    line: &mut [u8],
    res: &mut [u8],
) -> Report
    ensures { left_of result session.new pool.new scratch.new line.new res.new
        ≡ next_on (lent_of session.old pool.old scratch.old line.old res.old) at.size at.index message.now }
{
    let mut numbers = [0u32; 3079];
    next_with(session, pool, at, scratch, message, line, res, &mut numbers)
}

// ---- the drop

// Nothing is sent, and nothing results.
fn drop_with(
    session: &mut [u8],
    pool: &mut [u8],
    at: Place,
    scratch: &mut [u8],
    none: &[u32],
    line: &mut [u8],
    res: &mut [u8],
) -> Report
    ensures { left_of result session.new pool.new scratch.new line.new res.new
        ≡ drop_on (lent_of session.old pool.old scratch.old line.old res.old) at.size at.index }
{
    let own = check_session(session.len(), pool.len(), scratch.len(), res.len());
    let q = Asked { drops: true, own };
    let a = Incoming {
        head: no_head(),
        residues: none,
    };
    with_room(q, at, a, session, pool, scratch, line, res)
}

pub fn drop(session: &mut [u8], pool: &mut [u8], at: Place, scratch: &mut [u8]) -> Report
    ensures { left_of result session.new pool.new scratch.new [] []
        ≡ drop_on (lent_of session.old pool.old scratch.old [] []) at.size at.index }
{
    let words = [0u32; 0];
    let mut line = [0u8; 0];
    let mut result = [0u8; 0];
    drop_with(session, pool, at, scratch, &words, &mut line, &mut result)
}
