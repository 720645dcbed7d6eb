// The solver's steps and its drop, by value: it hands over L and x at its first, and sends Y1, F and t, or the determinant of W + V. A step checks
// everything, then computes, and then the tape's status changes.
//   SolverAnswer, SolverDropped   what a step answers, and what the drop does
//   first                         step 1: solver_first
//   later                         what steps 3 and 5 check
//   second, last                  steps 3 and 5: solver_second, solver_last
//   det                           step 5 of a determinant: solver_determinant
//   joint                         W + V, of either step 5
//   drop                          solver_drop
// A step is given its pool and the place of its slot; its terms or its session; its inputs; the message that it takes, a head and
// residues; and last the slice that it writes.
// For hosts: solver_first, solver_second, solver_last, solver_determinant, solver_drop.
#![tactic(auto)]

mod det;
mod drop;
pub mod first;
mod joint;
mod last;
mod later;
mod second;

ghost use Rattle.std.specs.Prelude.{◌≡◌};
ghost use Rattle.algebra.specs.Matrix.{zeros};
ghost use Rattle.protocol.specs.System.{no_solver};

pub use det::solver_determinant;
pub use drop::solver_drop;
pub use first::solver_first;
use judging::message::no_head;
use judging::{Dropped, Stepped};
pub use last::solver_last;
use protocol::{SolverSession, Terms};
pub use second::solver_second;

// What a step of the solver answers.
pub type SolverAnswer = Stepped<SolverSession>;

// What its drop answers.
pub type SolverDropped = Dropped<SolverSession>;

// A session that keeps no s.
fn session_of(terms: Terms, due: u32) -> SolverSession
    ensures { result ≡ record { terms = terms; due = due; s = zeros 16 } }
{
    SolverSession {
        terms,
        due,
        s: [0; 16],
    }
}

// The session where a first step is refused.
fn no_session() -> SolverSession
    ensures { result ≡ no_solver }
{
    session_of(no_head().terms, 0)
}
