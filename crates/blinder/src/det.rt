// Step 6 of a determinant: the blinder's answer is the determinant received, divided by those of P and Q. Its half is spent, P and U0 are zeroed,
// and its session is closed.
//   divisor              what it divides by, which is 0 where P or Q has no inverse
//   compute              the answer, and what is kept no longer
//   blinder_determinant  the step
ghost use Rattle.std.specs.Prelude.{◌≡◌, [], ◌∷◌, length, get_or, Ok};
ghost use Rattle.algebra.specs.Matrix.{zeros};
ghost use Rattle.algebra.specs.Residue.{mul_mod, inverse};
ghost use Rattle.algebra.specs.Words.{over};
ghost use Rattle.protocol.specs.Message.{message_in, no_message};
ghost use Rattle.protocol.specs.System.{scratch_size, blinder_determinant};
ghost use Rattle.tape.specs.Placed.{slot_in};
ghost use Rattle.judging.specs.Leaves.{leaves, leaving, computing};
ghost use Rattle.blinder.specs.Division.{divisor_of, Dividing, Divided};

use crate::{BlinderAnswer, drawn_p, forget, later};
use elimination::determinant;
use field::{inverse_mod, mul_mod};
use judging::Stepped;
use judging::message::{has_room, no_head};
use protocol::{BlinderSession, Incoming, Refusal, Terms};
use tape::change::spend_at;
use tape::half::matrix;
use tape::{End, Place};

// The product of the determinants of P and Q.
fn divisor(pool: &[u32], at: Place, scratch: &[u32], t: Terms) -> u32
    requires { Dividing t (slot_in pool.now at) scratch.now }
    ensures { result ≡ divisor_of t (slot_in pool.now at) scratch.now }
{
    let n = t.m as usize;
    let pm = drawn_p(t, scratch);
    let qm = matrix(End::Blinder, t, 2, pool, at);
    mul_mod(t.q, determinant(t.q, n, pm), determinant(t.q, n, qm))
}

// The determinant received, divided by `by`, goes into `out`.
fn compute(
    by: u32,
    t: Terms,
    scratch: &mut [u32],
    residues: &[u32],
    out: &mut [u32],
) -> BlinderAnswer
    requires { Divided t by (length scratch.old) (length residues.now) (length out.old) }
    ensures { computing result.answer result.session result.head scratch.new [] out.new
        ≡ computing (Ok 0) (record { terms = t; due = 0; mm = zeros 256; y = zeros 16 }) no_message.head
        (over (zeros (scratch_size t)) scratch.old) []
        (over (mul_mod t.q (get_or residues.now 0 0) (inverse t.q by) ∷ []) out.old) }
{
    out[0] = mul_mod(t.q, residues[0], inverse_mod(t.q, by));
    Stepped::accepted(forget(t, scratch), no_head())
}

// Step 6 of a determinant (RULES 5.11): d divided by the determinants of P and Q. Where P or Q, as the host lent them, has no inverse, it is refused.
pub fn blinder_determinant(
    pool: &mut [u32],
    at: Place,
    scratch: &mut [u32],
    s: BlinderSession,
    a: Incoming,
    out: &mut [u32],
) -> BlinderAnswer
    ensures { leaving result.answer result.session result.head pool.new scratch.new [] out.new
        ≡ leaves s (slot_in pool.old at) scratch.old [] out.old
        (blinder_determinant s (slot_in pool.old at) scratch.old (message_in a.entry)
        (length out.old)) }
{
    let t = s.terms;
    let fits = has_room(6, t, out.len());
    if let Err(r) = later::check(6, fits, pool, at, scratch, s, a) {
        return Stepped::refused(r, s);
    }
    let by = divisor(pool, at, scratch, t);
    if by == 0 {
        return Stepped::refused(Refusal::Singular, s);
    }
    let done = compute(by, t, scratch, a.residues, out);
    spend_at(End::Blinder, t, pool, at);
    done
}
