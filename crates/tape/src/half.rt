// A half in its slot: where each of its matrices stands, and its tests. Left: X0, A0. Right: Y0, B0. Blinder: X0, A0, Q, G. Solver: Y0, B0, R, V.
//   matrix_at          where a matrix begins: matrix j stands in slot[matrix_at(j)..matrix_at(j + 1)]
//   matrix             the words of a matrix of a half that stands in a pool
//   half_size          the words of a half
//   holds_residues     its matrices hold residues
ghost use Rattle.std.specs.Prelude.{◌≡◌, true, ◌+◌, ◌*◌, ◌≤◌, length, get_or};
ghost use Rattle.protocol.specs.Bounds.{sides_fit, all_below};
ghost use Rattle.algebra.specs.Count.{part};
ghost use Rattle.protocol.specs.Tape.{slot_words, layout, matrix_at, tape_size, body, matrices};
ghost use Rattle.tape.specs.Ends.{role, sort};
ghost use Rattle.tape.specs.Placed.{slot_in, Placed};

use crate::{End, Place, header, slot};
use protocol::Terms;
use vectors::{all_below, times};

// The entries of the first matrix: X0 or Y0.
fn first_size(end: End, t: Terms) -> usize
    ensures { result ≡ get_or (layout (role end) t.m t.k t.p) 0 0 }
{
    match end {
        End::Left | End::Blinder => times(t.m, t.k),
        End::Right | End::Solver => times(t.k, t.p),
    }
}

// The entries of each matrix past the second: there are two, in a system's halves.
fn later_size(end: End, t: Terms) -> usize
    ensures { result ≡ get_or (layout (role end) t.m t.k t.p) 2 0 }
{
    match end {
        End::Left | End::Right => 0,
        End::Blinder | End::Solver => times(t.m, t.k),
    }
}

// The entries of matrix j.
fn matrix_size(end: End, t: Terms, j: usize) -> usize
    requires { j ≤ 3 }
    ensures { result ≡ get_or (layout (role end) t.m t.k t.p) j 0 }
{
    match j {
        0 => first_size(end, t),
        1 => times(t.m, t.p),
        _ => later_size(end, t),
    }
}

pub fn matrix_at(end: End, t: Terms, j: usize) -> usize
    requires { (sides_fit (sort end) t.m t.k t.p ≡ true) × (j ≤ 4) }
    ensures { result ≡ matrix_at (role end) t.m t.k t.p j }
{
    let mut at = header::SIZE;
    for i in 0..j {
        at += matrix_size(end, t, i);
    }
    at
}

// Matrix j of a half.
pub fn matrix(end: End, t: Terms, j: usize, pool: &[u32], at: Place) -> &[u32]
    requires { Placed (role end) t (slot_in pool.now at) × (j ≤ 3) }
    ensures { result.now ≡ part j (matrices (role end) t (slot_words (slot_in pool.now at))) }
{
    let from = matrix_at(end, t, j);
    let stop = matrix_at(end, t, j + 1);
    let half = slot(pool, at);
    &half[from..stop]
}

pub fn half_size(end: End, t: Terms) -> usize
    requires { sides_fit (sort end) t.m t.k t.p ≡ true }
    ensures { result ≡ tape_size (role end) t.m t.k t.p }
{
    matrix_at(end, t, 4)
}

pub fn holds_residues(end: End, t: Terms, slot: &[u32]) -> bool
    requires { (sides_fit (sort end) t.m t.k t.p ≡ true) × (tape_size (role end) t.m t.k t.p ≤ length slot.now) }
    ensures { result ≡ all_below t.q (body (role end) t slot.now) }
{
    let stop = half_size(end, t);
    all_below(t.q, &slot[header::SIZE..stop])
}
