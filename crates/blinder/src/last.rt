// Step 6: the blinder's answer is z = Q × t. Its half is spent, P and U0 are zeroed, and its session is closed.
//   compute       z, and what is kept no longer
//   blinder_last  the step
ghost use Rattle.std.specs.Prelude.{◌≡◌, [], length};
ghost use Rattle.protocol.specs.Judge.{done};
ghost use Rattle.protocol.specs.Message.{message_in};
ghost use Rattle.protocol.specs.System.{blinder_last_effect, blinder_last_tests, blinder_last};
ghost use Rattle.tape.specs.Placed.{slot_in};
ghost use Rattle.judging.specs.InOrder.{checked, judged};
ghost use Rattle.judging.specs.Leaves.{leaves, leaving, computed, computing, taken};

use crate::{BlinderAnswer, forget, later};
use judging::Stepped;
use judging::message::{no_head, side_size};
use matrix::{Sides, write_product};
use protocol::{BlinderSession, Incoming};
use tape::change::spend_at;
use tape::half::matrix;
use tape::{End, Place};

// z goes into `out`.
fn compute(
    pool: &[u32],
    at: Place,
    scratch: &mut [u32],
    s: BlinderSession,
    residues: &[u32],
    out: &mut [u32],
) -> BlinderAnswer
    requires { judged (blinder_last_tests s (slot_in pool.now at) scratch.old (taken 5 s.terms residues.now) (length out.old)) ≡ done tt }
    ensures { computing result.answer result.session result.head scratch.new [] out.new
        ≡ computed scratch.old [] out.old
        (blinder_last_effect s (slot_in pool.now at) scratch.old (taken 5 s.terms residues.now)) }
{
    let t = s.terms;
    let n = t.m as usize;
    let rhs = (t.p - t.m) as usize;
    let qm = matrix(End::Blinder, t, 2, pool, at);
    let sides = Sides {
        q: t.q,
        m: n,
        k: n,
        p: rhs,
    };
    write_product(sides, qm, residues, out);
    Stepped::accepted(forget(t, scratch), no_head())
}

// Step 6 (RULES 5.8): z = Q × t.
pub fn blinder_last(
    pool: &mut [u32],
    at: Place,
    scratch: &mut [u32],
    s: BlinderSession,
    a: Incoming,
    out: &mut [u32],
) -> BlinderAnswer
    ensures { leaving result.answer result.session result.head pool.new scratch.new [] out.new
        ≡ leaves s (slot_in pool.old at) scratch.old [] out.old
        (blinder_last s (slot_in pool.old at) scratch.old (message_in a.entry) (length out.old)) }
{
    let fits = side_size(s.terms) <= out.len();
    if let Err(r) = later::check(5, fits, pool, at, scratch, s, a) {
        return Stepped::refused(r, s);
    }
    let done = compute(pool, at, scratch, s, a.residues, out);
    spend_at(End::Blinder, s.terms, pool, at);
    done
}
