// The session in its record's bytes (RULES 11.1).
//   session_in, no_session   the session that a record holds, and none
//   due_in, terms_in         of it the kind of message that is due, and the terms
//   put_session              a session, put into its record
ghost use Rattle.std.specs.Prelude.{◌≡◌, length, get_or};
ghost use Rattle.algebra.specs.Words.{over};
ghost use Rattle.entry.specs.Bytes.{words_of, bytes_of};
ghost use Rattle.entry.specs.Record.{no_session, terms_of, record_words, session_from};
ghost use Rattle.entry.specs.Entry.{session_in};
ghost use Rattle.local.specs.Stored.{start_words};

use entry::Session;
use judging::message::no_head;
use protocol::{SessionId, TapeId, Terms};
use words::{get_words, put_words, word_at};

// How many bytes a record has.
pub const SIZE: usize = 1120;

pub fn no_session() -> Session
    ensures { result ≡ no_session }
{
    let none = no_head();
    let terms = none.terms;
    let kept = [0u32; 272];
    Session {
        end: 0,
        terms,
        due: 0,
        kept,
    }
}

pub fn terms_in(session: &[u8]) -> Terms
    requires { length session.now ≡ 1120 }
    ensures { result ≡ terms_of (get_or (words_of session.now) 1 0) (get_or (words_of session.now) 2 0) (get_or (words_of session.now) 3 0)
        (get_or (words_of session.now) 4 0) (get_or (words_of session.now) 5 0) (get_or (words_of session.now) 6 0) }
{
    let number = word_at(session, 4);
    let tape = word_at(session, 8);
    let q = word_at(session, 12);
    let m = word_at(session, 16);
    let k = word_at(session, 20);
    let p = word_at(session, 24);
    Terms {
        session: SessionId(number),
        tape: TapeId(tape),
        q,
        m,
        k,
        p,
    }
}

fn session_from(session: &[u8]) -> Session
    requires { length session.now ≡ 1120 }
    ensures { result ≡ session_from (words_of session.now) }
{
    let end = word_at(session, 0);
    let terms = terms_in(session);
    let due = word_at(session, 28);
    let mut kept = [0u32; 272];
    get_words(272, &session[32..], &mut kept);
    Session {
        end,
        terms,
        due,
        kept,
    }
}

// A record of another length holds no session.
pub fn session_in(session: &[u8]) -> Session
    ensures { result ≡ session_in session.now }
{
    if session.len() != SIZE {
        return no_session();
    }
    session_from(session)
}

pub fn due_in(session: &[u8]) -> u32
    ensures { result ≡ (session_in session.now).due }
{
    if session.len() != SIZE {
        return 0;
    }
    word_at(session, 28)
}

// The eight words before what is kept.
fn start_of(x: Session) -> [u32; 8]
    ensures { result ≡ start_words x }
{
    let t = x.terms;
    let number = t.session;
    let tape = t.tape;
    [x.end, number.0, tape.0, t.q, t.m, t.k, t.p, x.due]
}

pub fn put_session(x: Session, session: &mut [u8])
    requires { length session.old ≡ 1120 }
    ensures { session.new ≡ over (bytes_of (record_words x)) session.old }
{
    let start = start_of(x);
    let kept = x.kept;
    put_words(8, &start, session);
    put_words(272, &kept, &mut session[32..]);
}
