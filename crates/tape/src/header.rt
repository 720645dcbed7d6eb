// A tape's first words (RULES 3.1): status, tape number, sort, q, m, k, p.
//   READY, IN_USE          the statuses that steps look for
//   status_is, is_free     the status of a slot's words
//   bears                  the numbers of the terms stand in the header
//   write_header           a tape that is ready
ghost use Rattle.std.specs.Prelude.{◌≡◌, ◌≤◌, ◌<◌, eqb, length};
ghost use Rattle.algebra.specs.Words.{over};
ghost use Rattle.protocol.specs.Tape.{header_size, header_words, READY, sort_number, status_of};
ghost use Rattle.protocol.specs.Deal.{is_free};
ghost use Rattle.tape.specs.Ends.{role, sort};
ghost use Rattle.tape.specs.Bears.{numbers_are, bears};

use crate::End;
use protocol::Terms;

const EMPTY: u32 = 0;

pub const READY: u32 = 1;

pub const IN_USE: u32 = 2;

pub const SPENT: u32 = 3;

pub const STATUS_AT: usize = 0;

const TAPE_AT: usize = 1;

const SORT_AT: usize = 2;

const Q_AT: usize = 3;

const M_AT: usize = 4;

const K_AT: usize = 5;

const P_AT: usize = 6;

// How many words the header has.
pub const SIZE: usize = 7;

pub fn status_is(status: u32, slot: &[u32]) -> bool
    requires { header_size ≤ length slot.now }
    ensures { result ≡ eqb (status_of slot.now) status }
{
    slot[STATUS_AT] == status
}

// A tape is dealt over an empty or a spent one (RULES 3.5).
pub fn is_free(slot: &[u32]) -> bool
    requires { header_size ≤ length slot.now }
    ensures { result ≡ is_free (status_of slot.now) }
{
    status_is(EMPTY, slot) || status_is(SPENT, slot)
}

fn sort_number(end: End) -> u32
    ensures { result ≡ sort_number (sort end) }
{
    match end {
        End::Left | End::Right => 0,
        End::Blinder | End::Solver => 1,
    }
}

fn numbers_are(tape: u32, sort: u32, q: u32, m: u32, k: u32, p: u32, slot: &[u32]) -> bool
    requires { header_size ≤ length slot.now }
    ensures { result ≡ numbers_are tape sort q m k p slot.now }
{
    slot[TAPE_AT] == tape
        && slot[SORT_AT] == sort
        && slot[Q_AT] == q
        && slot[M_AT] == m
        && slot[K_AT] == k
        && slot[P_AT] == p
}

// The tape number, the end's sort, and the terms' q, m, k and p.
pub fn bears(end: End, t: Terms, slot: &[u32]) -> bool
    requires { header_size ≤ length slot.now }
    ensures { result ≡ bears (role end) t slot.now }
{
    let tape = t.tape;
    numbers_are(tape.0, sort_number(end), t.q, t.m, t.k, t.p, slot)
}

// A tape that is ready, of an end's sort.
pub fn write_header(end: End, tape: u32, q: u32, m: u32, k: u32, p: u32, slot: &mut [u32])
    requires { header_size ≤ length slot.old }
    ensures { slot.new ≡ over (header_words READY tape (sort end) q m k p) slot.old }
{
    slot[STATUS_AT] = READY;
    slot[TAPE_AT] = tape;
    slot[SORT_AT] = sort_number(end);
    slot[Q_AT] = q;
    slot[M_AT] = m;
    slot[K_AT] = k;
    slot[P_AT] = p;
}
