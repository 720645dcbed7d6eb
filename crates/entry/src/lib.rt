// The types and numbers of the entries on bytes. Their meaning stands in specs/; the one function here makes a refusal's report.
#![tactic(auto)]

ghost use Rattle.std.specs.Prelude.{◌≡◌};
ghost use Rattle.entry.specs.Entry.{refusal_report};

use protocol::{Refusal, Terms};

// The ends' numbers.
pub const LEFT: u32 = 1;

pub const RIGHT: u32 = 2;

pub const BLINDER: u32 = 3;

pub const SOLVER: u32 = 4;

// One session of any end (RULES 11.1): the end's number, its terms, the kind of message that is due, and what it keeps.
#[derive(Clone, Copy)]
pub struct Session {
    pub end: u32,
    pub terms: Terms,
    pub due: u32,
    pub kept: [u32; 272],
}

// What an entry answers: 0 or the number of its refusal, the raw words read, and the bytes of the line written.
#[repr(C)]
#[derive(Clone, Copy)]
pub struct Report {
    pub number: u32,
    pub read: usize,
    pub bytes: usize,
}

// Of a refusal no raw word counts as read, and no line is written.
impl From<Refusal> for Report {
    ghost from_gives = { λ r report. report ≡ refusal_report r };

    fn from(r: Refusal) -> Report {
        Report {
            number: u32::from(r),
            read: 0,
            bytes: 0,
        }
    }
}
