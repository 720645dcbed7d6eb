// The first step of an end on bytes (RULES 11.2): it is the definition of its entry.
//   Opening   an end's number, its terms and its slot
//   first     the call
ghost use Rattle.std.specs.Prelude.{◌≡◌, ◌*◌, ◌/◌, length, take};
ghost use Rattle.protocol.specs.Judge.{judge};
ghost use Rattle.protocol.specs.Tape.{slot_at};
ghost use Rattle.protocol.specs.Drawing.{words_read};
ghost use Rattle.protocol.specs.Message.{message_in};
ghost use Rattle.protocol.specs.Line.{most_sent};
ghost use Rattle.drawing.specs.Sift.{kept_words};
ghost use Rattle.entry.specs.Bytes.{words_of};
ghost use Rattle.entry.specs.Entry.{lent_of, left_of, first_tests, takes_message, first_on};
ghost use Rattle.local.specs.Seen.{seen_words, coin_count, lent_room, share_room};
ghost use Rattle.local.specs.Entered.{entered_by, seen_first};

use crate::slot::{Asked, with_room};
use entry::{BLINDER, LEFT, Report};
use host_parts::own::{check_first, check_session};
use host_parts::record::due_in;
use host_parts::seen::{get_input, sift_coins};
use host_parts::taken::{opening_of, residues_in, take_line};
use judging::message::no_head;
use judging::worst;
use protocol::{Incoming, Refusal, Terms};
use tape::Place;

// An end's number, its terms and its slot.
#[derive(Clone, Copy)]
pub struct Opening {
    pub end: u32,
    pub terms: Terms,
    pub at: Place,
}

fn takes_message(end: u32) -> bool
    ensures { result ≡ takes_message end }
{
    end == LEFT || end == BLINDER
}

// `words` and `coins`: words for the input and for raw words.
fn first_on(
    f: Opening,
    a: Incoming,
    session: &mut [u8],
    pool: &mut [u8],
    input: &[u8],
    raw: &[u8],
    scratch: &mut [u8],
    line: &mut [u8],
    res: &mut [u8],
    words: &mut [u32],
    coins: &mut [u32],
) -> Report
    requires { (length words.old ≡ 2048) × (length coins.old ≡ 1024) }
    ensures { left_of result session.new pool.new scratch.new line.new res.new
        ≡ entered_by (lent_of session.old pool.old scratch.old line.old res.old) (f.at.index * f.at.size)
        (judge (first_tests (lent_of session.old pool.old scratch.old line.old res.old) (length input.now) (length raw.now)) tt)
        (seen_first f.end f.terms (lent_room f.end) most_sent (share_room f.end)
        (words_read f.terms.q (coin_count f.end f.terms) (words_of raw.now))
        (slot_at (words_of pool.old) f.at.size f.at.index) (words_of scratch.old) (seen_words (words_of input.now))
        (take (coin_count f.end f.terms) (kept_words f.terms.q (words_of raw.now)))
        (message_in a.entry) (length res.old / 4)) }
{
    let lengths = check_session(session.len(), pool.len(), scratch.len(), res.len());
    let free = check_first(due_in(session), input.len(), raw.len());
    let own = worst(lengths, free);
    let n = get_input(input, words);
    let terms = f.terms;
    let sifted = sift_coins(f.end, terms, raw, coins);
    let kept = sifted.kept;
    let q = Asked {
        end: f.end,
        terms,
        own,
        read: sifted.read,
    };
    with_room(
        q,
        f.at,
        a,
        &words[..n],
        &coins[..kept],
        session,
        pool,
        scratch,
        line,
        res,
    )
}

// `numbers`: words for those of a line; of a message no more residues are looked at than one that is due can have.
fn first_with(
    f: Opening,
    session: &mut [u8],
    pool: &mut [u8],
    input: &[u8],
    raw: &[u8],
    scratch: &mut [u8],
    message: &[u8],
    line: &mut [u8],
    res: &mut [u8],
    numbers: &mut [u32],
    words: &mut [u32],
    coins: &mut [u32],
) -> Report
    requires { (length numbers.old ≡ 2055) × (length words.old ≡ 2048) × (length coins.old ≡ 1024) }
    ensures { left_of result session.new pool.new scratch.new line.new res.new
        ≡ first_on (lent_of session.old pool.old scratch.old line.old res.old) f.at.size f.at.index f.end f.terms input.now raw.now message.now }
{
    if !takes_message(f.end) {
        let none = Incoming {
            head: no_head(),
            residues: &numbers[..0],
        };
        return first_on(
            f, none, session, pool, input, raw, scratch, line, res, words, coins,
        );
    }
    let Some(taken) = take_line(message, numbers) else {
        return Report::from(Refusal::Form);
    };
    let opened = opening_of(taken);
    let residues = residues_in(numbers, opened.count);
    let a = Incoming {
        head: opened.head,
        residues,
    };
    first_on(
        f, a, session, pool, input, raw, scratch, line, res, words, coins,
    )
}

pub fn first(
    f: Opening,
    session: &mut [u8],
    pool: &mut [u8],
    input: &[u8],
    raw: &[u8],
    scratch: &mut [u8],
    message: &[u8],
    line: &mut [u8],
    res: &mut [u8],
) -> Report
    ensures { left_of result session.new pool.new scratch.new line.new res.new
        ≡ first_on (lent_of session.old pool.old scratch.old line.old res.old) f.at.size f.at.index f.end f.terms input.now raw.now message.now }
{
    let mut numbers = [0u32; 2055];
    let mut words = [0u32; 2048];
    let mut coins = [0u32; 1024];
    first_with(
        f,
        session,
        pool,
        input,
        raw,
        scratch,
        message,
        line,
        res,
        &mut numbers,
        &mut words,
        &mut coins,
    )
}
