// What bench/system.c times: the six steps of a system of n unknowns, or of a determinant where p is n, on the first slot of each pool. Each answers
// whether it is accepted. C keeps what a session keeps: s of the solver, M and y of the blinder.
// No function here is for hosts.
#![tactic(auto)]

ghost use Rattle.std.specs.Prelude.{◌≤◌, length};

use blinder::{blinder_determinant, blinder_first, blinder_last, blinder_second, opened};
use protocol::{BlinderSession, Head, Incoming, SessionId, SolverSession, TapeId, Terms};
use solver::{solver_determinant, solver_first, solver_last, solver_second};
use tape::Place;

// The first slot of a pool.
fn first_slot(size: usize) -> Place {
    Place { size, index: 0 }
}

fn terms(q: u32, n: u32, p: u32) -> Terms {
    Terms {
        session: SessionId(9),
        tape: TapeId(4),
        q,
        m: n,
        k: n,
        p,
    }
}

// The blinder's session before the step that takes a message of kind `due`.
fn session(t: Terms, due: u32, mm: &[u32], y: &[u32]) -> BlinderSession
    requires { (length mm.now ≤ 256) × (length y.now ≤ 16) }
{
    BlinderSession {
        due,
        ..opened(t, mm, y)
    }
}

#[unsafe(no_mangle)]
pub extern "C" fn bench_solver_first(
    pool: &mut [u32],
    size: usize,
    q: u32,
    n: u32,
    p: u32,
    l: &[u32],
    x: &[u32],
    out: &mut [u32],
) -> bool {
    let done = solver_first(pool, first_slot(size), terms(q, n, p), l, x, out);
    done.answer.is_ok()
}

#[unsafe(no_mangle)]
pub extern "C" fn bench_blinder_first(
    pool: &mut [u32],
    size: usize,
    scratch: &mut [u32],
    q: u32,
    n: u32,
    p: u32,
    mm: &[u32],
    y: &[u32],
    words: &[u32],
    residues: &[u32],
    out: &mut [u32],
) -> bool {
    let t = terms(q, n, p);
    let a = Incoming {
        head: Head { kind: 1, terms: t },
        residues,
    };
    let done = blinder_first(pool, first_slot(size), scratch, t, mm, y, words, a, out);
    done.answer.is_ok()
}

#[unsafe(no_mangle)]
pub extern "C" fn bench_solver_second(
    pool: &[u32],
    size: usize,
    q: u32,
    n: u32,
    p: u32,
    residues: &[u32],
    kept: &mut [u32],
    out: &mut [u32],
) -> bool
    requires { 16 ≤ length kept.old }
{
    let t = terms(q, n, p);
    let before = SolverSession {
        terms: t,
        due: 2,
        s: [0; 16],
    };
    let a = Incoming {
        head: Head { kind: 2, terms: t },
        residues,
    };
    let done = solver_second(pool, first_slot(size), before, a, out);
    kept[..16].copy_from_slice(&done.session.s);
    done.answer.is_ok()
}

#[unsafe(no_mangle)]
pub extern "C" fn bench_blinder_second(
    pool: &[u32],
    size: usize,
    scratch: &[u32],
    q: u32,
    n: u32,
    p: u32,
    mm: &[u32],
    y: &[u32],
    residues: &[u32],
    out: &mut [u32],
) -> bool
    requires { (length mm.now ≤ 256) × (length y.now ≤ 16) }
{
    let t = terms(q, n, p);
    let a = Incoming {
        head: Head { kind: 3, terms: t },
        residues,
    };
    let done = blinder_second(
        pool,
        first_slot(size),
        scratch,
        session(t, 3, mm, y),
        a,
        out,
    );
    done.answer.is_ok()
}

#[unsafe(no_mangle)]
pub extern "C" fn bench_solver_last(
    pool: &mut [u32],
    size: usize,
    q: u32,
    n: u32,
    p: u32,
    kept: &[u32],
    residues: &[u32],
    out: &mut [u32],
) -> bool
    requires { 16 ≤ length kept.now }
{
    let t = terms(q, n, p);
    let mut s = [0u32; 16];
    s.copy_from_slice(&kept[..16]);
    let before = SolverSession {
        terms: t,
        due: 4,
        s,
    };
    let a = Incoming {
        head: Head { kind: 4, terms: t },
        residues,
    };
    if p == n {
        let done = solver_determinant(pool, first_slot(size), before, a, out);
        return done.answer.is_ok();
    }
    let done = solver_last(pool, first_slot(size), before, a, out);
    done.answer.is_ok()
}

#[unsafe(no_mangle)]
pub extern "C" fn bench_blinder_last(
    pool: &mut [u32],
    size: usize,
    scratch: &mut [u32],
    q: u32,
    n: u32,
    p: u32,
    mm: &[u32],
    y: &[u32],
    residues: &[u32],
    out: &mut [u32],
) -> bool
    requires { (length mm.now ≤ 256) × (length y.now ≤ 16) }
{
    let t = terms(q, n, p);
    if p == n {
        let d = Incoming {
            head: Head { kind: 6, terms: t },
            residues,
        };
        let done = blinder_determinant(
            pool,
            first_slot(size),
            scratch,
            session(t, 6, mm, y),
            d,
            out,
        );
        return done.answer.is_ok();
    }
    let a = Incoming {
        head: Head { kind: 5, terms: t },
        residues,
    };
    let done = blinder_last(
        pool,
        first_slot(size),
        scratch,
        session(t, 5, mm, y),
        a,
        out,
    );
    done.answer.is_ok()
}
