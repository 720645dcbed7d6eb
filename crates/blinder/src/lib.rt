// The blinder's steps, and its drop.
//   BlinderAnswer         what each step answers
//   first, second, last   the steps: blinder_first, blinder_second, blinder_last
//   det                   the last step of a determinant: blinder_determinant
//   later                 what the second and either last step check
//   formula               W = (U' − F) × Q + P × M × Q − G and c = u + P × y, where U0 = [U', u]
//   drop                  blinder_drop
//   no_session            what a refused first step leaves
//   opened, closed        the sessions, which keep M and y; forget zeroes the scratch too
//   scratch_size, scratch_fits   how many residues P and U0 have, and room for them
//   drawn_p, drawn_u0     P and U0, which stand in the scratch
// For hosts: blinder_first, blinder_second, blinder_last, blinder_determinant, blinder_drop.
#![tactic(auto)]

mod det;
mod drop;
pub mod first;
mod formula;
mod last;
mod later;
mod second;

ghost use Rattle.std.specs.Prelude.{◌≡◌, true, ◌≤◌, leb, length};
ghost use Rattle.algebra.specs.Count.{part};
ghost use Rattle.algebra.specs.Matrix.{zeros};
ghost use Rattle.algebra.specs.Words.{over};
ghost use Rattle.protocol.specs.Bounds.{sides_fit, system};
ghost use Rattle.protocol.specs.System.{padded, no_blinder, scratch_size, scratch_parts};

pub use det::blinder_determinant;
pub use drop::{BlinderDropped, blinder_drop};
pub use first::blinder_first;
use judging::Stepped;
use judging::message::no_head;
pub use last::blinder_last;
use protocol::{BlinderSession, Terms};
pub use second::blinder_second;
use vectors::{times, write_copy, write_zeros};

// What a step of the blinder answers.
pub type BlinderAnswer = Stepped<BlinderSession>;

// The session after the first step: it keeps M and y, each at the start of its array.
pub fn opened(t: Terms, mm: &[u32], y: &[u32]) -> BlinderSession
    requires { (length mm.now ≤ 256) × (length y.now ≤ 16) }
    ensures { result ≡ record { terms = t; due = 3; mm = padded 256 mm.now; y = padded 16 y.now } }
{
    let mut matrix = [0u32; 256];
    let mut vector = [0u32; 16];
    write_copy(mm.len(), mm, &mut matrix);
    write_copy(y.len(), y, &mut vector);
    BlinderSession {
        terms: t,
        due: 3,
        mm: matrix,
        y: vector,
    }
}

// A session that is not open, with these terms; it keeps zeros.
pub fn closed(t: Terms) -> BlinderSession
    ensures { result ≡ record { terms = t; due = 0; mm = zeros 256; y = zeros 16 } }
{
    BlinderSession {
        terms: t,
        due: 0,
        mm: [0; 256],
        y: [0; 16],
    }
}

// What a refused first step leaves.
fn no_session() -> BlinderSession
    ensures { result ≡ no_blinder }
{
    closed(no_head().terms)
}

// How many residues P and U0 have.
pub fn scratch_size(t: Terms) -> usize
    requires { sides_fit system t.m t.k t.p ≡ true }
    ensures { result ≡ scratch_size t }
{
    times(t.m, t.m) + times(t.m, t.p)
}

// P and U0 fit in so many words; any sides may be handed over.
fn scratch_fits(t: Terms, room: usize) -> bool
    ensures { result ≡ leb (scratch_size t) room }
{
    let square = times(t.m, t.m);
    square <= room && times(t.m, t.p) <= room - square
}

// P of the scratch.
fn drawn_p(t: Terms, scratch: &[u32]) -> &[u32]
    requires { (sides_fit system t.m t.k t.p ≡ true) × (scratch_size t ≤ length scratch.now) }
    ensures { result.now ≡ part 0 (scratch_parts t scratch.now) }
{
    let square = times(t.m, t.m);
    &scratch[..square]
}

// U0 of the scratch, which stands behind P.
fn drawn_u0(t: Terms, scratch: &[u32]) -> &[u32]
    requires { (sides_fit system t.m t.k t.p ≡ true) × (scratch_size t ≤ length scratch.now) }
    ensures { result.now ≡ part 1 (scratch_parts t scratch.now) }
{
    let square = times(t.m, t.m);
    let both = scratch_size(t);
    &scratch[square..both]
}

// P and U0 are zeroed, and M and y are kept no longer: the session that is left.
fn forget(t: Terms, scratch: &mut [u32]) -> BlinderSession
    requires { (sides_fit system t.m t.k t.p ≡ true) × (scratch_size t ≤ length scratch.old) }
    ensures value { result ≡ record { terms = t; due = 0; mm = zeros 256; y = zeros 16 } }
    ensures scratch_after { scratch.new ≡ over (zeros (scratch_size t)) scratch.old }
{
    write_zeros(scratch_size(t), scratch);
    closed(t)
}
