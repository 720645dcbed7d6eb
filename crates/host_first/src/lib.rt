// The first step of an end on bytes (RULES 11): it brings the words of its half to local arrays, lets the session's step work on these, and
// puts back what the step left. So a refused call changes no byte.
//   slot    a first step on the bytes of its slot
//   call    the call
// No function here is for hosts: the crate `host` has the entries. Later calls have a crate of their own, host_later, and a walk of their
// own there: on one stack frame the sessions that they carry would take first steps above 64 KiB.
#![tactic(auto)]

mod call;
mod slot;

pub use call::{Opening, first};
