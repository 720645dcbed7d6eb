// Step 3: the solver finds S = X1 × Y0 + R1 − B0, keeps its last column s, and sends F = R − S', S' being its other columns.
//   compute         the message and the session, by write_share_of and finish
//   solver_second   the step
ghost use Rattle.std.specs.Prelude.{◌≡◌, true, [], ◌*◌, ◌≤◌, ◌<◌, length, Ok};
ghost use Rattle.algebra.specs.System.{last_cols, send_f};
ghost use Rattle.algebra.specs.Words.{over};
ghost use Rattle.protocol.specs.Judge.{done};
ghost use Rattle.protocol.specs.Bounds.{columns, sides_fit, system};
ghost use Rattle.protocol.specs.Message.{message_in};
ghost use Rattle.protocol.specs.System.{padded, solver_second_effect, solver_second_tests, solver_second};
ghost use Rattle.tape.specs.Placed.{slot_in};
ghost use Rattle.judging.specs.InOrder.{judged};
ghost use Rattle.judging.specs.Leaves.{leaves, leaving, computed, computing, taken};

use crate::SolverAnswer;
use crate::later::check;
use judging::Stepped;
use matrix::{Sides, write_share_of};
use protocol::{Head, Incoming, SolverSession, Terms};
use tape::half::matrix;
use tape::{End, Place};
use vectors::{times, write_cols, write_difference};

// F, by R and S.
fn write_f(t: Terms, r: &[u32], share: &[u32], out: &mut [u32])
    requires { (0 < t.q) × (sides_fit system t.m t.k t.p ≡ true) × (length r.now ≡ t.m * t.k)
        × (length share.now ≡ t.m * t.p) × (t.m * t.k ≤ length out.old) }
    ensures { out.new ≡ over (send_f t.q t.m (columns t.m t.p) r.now share.now) out.old }
{
    let n = t.m as usize;
    let size = times(t.m, t.m);
    let mut first = [0u32; 256];
    write_cols(n, t.p as usize, 0, n, share, &mut first);
    write_difference(t.q, size, r, &first[..size], out);
}

// s, by S.
fn last_column(t: Terms, share: &[u32]) -> [u32; 16]
    requires { (sides_fit system t.m t.k t.p ≡ true) × (length share.now ≡ t.m * t.p) }
    ensures { result ≡ padded 16 (last_cols t.m (columns t.m t.p) share.now) }
{
    let n = t.m as usize;
    let mut s = [0u32; 16];
    write_cols(n, t.p as usize, n, (t.p - t.m) as usize, share, &mut s);
    s
}

// F goes into `out`; the session keeps s and waits for kind 4.
fn finish(t: Terms, r: &[u32], share: &[u32], out: &mut [u32]) -> SolverAnswer
    requires { (0 < t.q) × (sides_fit system t.m t.k t.p ≡ true) × (length r.now ≡ t.m * t.k)
        × (length share.now ≡ t.m * t.p) × (t.m * t.k ≤ length out.old) }
    ensures value { result ≡ record {
      answer = Ok 0;
      session = record { terms = t; due = 4; s = padded 16 (last_cols t.m (columns t.m t.p) share.now) };
      head = record { kind = 3; terms = t };
    } }
    ensures out_after { out.new ≡ over (send_f t.q t.m (columns t.m t.p) r.now share.now) out.old }
{
    write_f(t, r, share, out);
    let s = last_column(t, share);
    let session = SolverSession {
        terms: t,
        due: 4,
        s,
    };
    Stepped::accepted(session, Head { kind: 3, terms: t })
}

fn compute(
    pool: &[u32],
    at: Place,
    s: SolverSession,
    residues: &[u32],
    out: &mut [u32],
) -> SolverAnswer
    requires { judged (solver_second_tests s (slot_in pool.now at) (taken 2 s.terms residues.now) (length out.old)) ≡ done tt }
    ensures { computing result.answer result.session result.head [] out.new []
        ≡ computed [] out.old [] (solver_second_effect s (slot_in pool.now at) (taken 2 s.terms residues.now)) }
{
    let t = s.terms;
    let n = times(t.m, t.p);
    let y0 = matrix(End::Solver, t, 0, pool, at);
    let b0 = matrix(End::Solver, t, 1, pool, at);
    let r = matrix(End::Solver, t, 2, pool, at);
    let mut share = [0u32; 272];
    write_share_of(Sides::from(t), residues, y0, b0, &mut share);
    finish(t, r, &share[..n], out)
}

// Step 3 (RULES 5.5): S = X1 × Y0 + R1 − B0, its last column s is kept, and F = R − S' is sent. The pool stays as it is.
pub fn solver_second(
    pool: &[u32],
    at: Place,
    s: SolverSession,
    a: Incoming,
    out: &mut [u32],
) -> SolverAnswer
    ensures { leaving result.answer result.session result.head pool.now [] out.new []
        ≡ leaves s (slot_in pool.now at) [] out.old []
        (solver_second s (slot_in pool.now at) (message_in a.entry) (length out.old)) }
{
    if let Err(r) = check(pool, at, 2, 3, s, a, out.len()) {
        return Stepped::refused(r, s);
    }
    compute(pool, at, s, a.residues, out)
}
