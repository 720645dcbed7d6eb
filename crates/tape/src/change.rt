// The changes of a tape's status (RULES 3.5), in its slot of a pool.
//   take_up_at   a session's first step takes the half up
//   spend_at     its end
ghost use Rattle.std.specs.Prelude.{◌≡◌, true, ◌+◌, ◌≤◌, length};
ghost use Rattle.protocol.specs.Bounds.{sides_fit};
ghost use Rattle.protocol.specs.Tape.{header_size, slot_words, pool_with, tape_size, with_status, spent, words_in_use, words_spent};
ghost use Rattle.tape.specs.Ends.{role, sort};
ghost use Rattle.tape.specs.Placed.{slot_in, Placed};

use crate::half::half_size;
use crate::{End, Place, header};
use protocol::Terms;
use vectors::write_zeros;

fn set_status(status: u32, slot: &mut [u32])
    requires { header_size ≤ length slot.old }
    ensures { slot.new ≡ with_status status slot.old }
{
    slot[header::STATUS_AT] = status;
}

// Status 2.
fn take_up(slot: &mut [u32])
    requires { header_size ≤ length slot.old }
    ensures { slot.new ≡ words_in_use slot.old }
{
    set_status(header::IN_USE, slot);
}

// The same in a pool.
pub fn take_up_at(end: End, t: Terms, pool: &mut [u32], at: Place)
    requires { Placed (role end) t (slot_in pool.old at) }
    ensures { pool.new ≡ pool_with (slot_in pool.old at) (words_in_use (slot_words (slot_in pool.old at))) }
{
    let start = at.index * at.size;
    let stop = start + at.size;
    take_up(&mut pool[start..stop]);
}

// Status 3, and zeros in n words of matrices.
fn write_spent(n: usize, slot: &mut [u32])
    requires { header_size + n ≤ length slot.old }
    ensures { slot.new ≡ spent n slot.old }
{
    write_zeros(n, &mut slot[header::SIZE..]);
    set_status(header::SPENT, slot);
}

// Status 3, and zeros in the matrices.
fn spend(end: End, t: Terms, slot: &mut [u32])
    requires { (sides_fit (sort end) t.m t.k t.p ≡ true) × (tape_size (role end) t.m t.k t.p ≤ length slot.old) }
    ensures { slot.new ≡ words_spent (role end) t slot.old }
{
    let half = half_size(end, t);
    write_spent(half - header::SIZE, slot);
}

// The same in a pool.
pub fn spend_at(end: End, t: Terms, pool: &mut [u32], at: Place)
    requires { Placed (role end) t (slot_in pool.old at) }
    ensures { pool.new ≡ pool_with (slot_in pool.old at) (words_spent (role end) t (slot_words (slot_in pool.old at))) }
{
    let start = at.index * at.size;
    let stop = start + at.size;
    spend(end, t, &mut pool[start..stop]);
}
