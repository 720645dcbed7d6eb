// Tapes: everything that the engine knows of a slot's words. Where a rule on headers, statuses, the layout of a half or slots changes, it
// changes here and in protocol's specs/Tape.
//   End                      the four ends, by their numbers
//   Place, is_slot, slot     a slot in its pool, and its words
//   header                   a tape's first words: its status and numbers
//   half                     the sizes and places of a half's matrices, and its tests
//   change                   the changes of a status
// No function here is for hosts.
#![tactic(auto)]

pub mod change;
pub mod half;
pub mod header;

ghost use Rattle.std.specs.Prelude.{◌≡◌, true, ◌/◌, ltb};
ghost use Rattle.protocol.specs.Tape.{is_slot, slot_words};
ghost use Rattle.tape.specs.Ends.{Numbered};
ghost use Rattle.tape.specs.Placed.{slot_in};

use entry::{BLINDER, LEFT, RIGHT, SOLVER};

// The four ends.
#[derive(Clone, Copy)]
pub enum End {
    Left,
    Right,
    Blinder,
    Solver,
}

// A number that no end has.
#[derive(Clone, Copy)]
pub struct NoEnd(pub u32);

impl TryFrom<u32> for End {
    type Error = NoEnd;

    ghost try_from_gives = { Numbered };

    fn try_from(n: u32) -> Result<End, NoEnd> {
        match n {
            LEFT => Ok(End::Left),
            RIGHT => Ok(End::Right),
            BLINDER => Ok(End::Blinder),
            SOLVER => Ok(End::Solver),
            _ => Err(NoEnd(n)),
        }
    }
}

// Where a slot lies in its pool, which is cut into slots of one size.
#[derive(Clone, Copy)]
pub struct Place {
    pub size: usize,
    pub index: usize,
}

// The slot lies in a pool of so many words. No slot has the size 0.
pub fn is_slot(pool: usize, at: Place) -> bool
    ensures { result ≡ ltb at.index (pool / at.size) }
{
    at.size != 0 && at.index < pool / at.size
}

// The words of a slot.
pub fn slot(pool: &[u32], at: Place) -> &[u32]
    requires { is_slot (slot_in pool.now at) ≡ true }
    ensures { result.now ≡ slot_words (slot_in pool.now at) }
{
    let start = at.index * at.size;
    let stop = start + at.size;
    &pool[start..stop]
}
