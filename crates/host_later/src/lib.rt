// The later calls of a session on bytes (RULES 11): the step that is due, and the drop. Both are one call: it brings its session and the words
// of its half to local arrays, lets the session's step work on these, and puts back what the step left. So a refused call changes no byte.
//   step    the step on words
//   slot    a call on the bytes of its slot
//   calls   next, drop
// No function here is for hosts: the crate `host` has the entries.
#![tactic(auto)]

mod calls;
mod slot;
mod step;

pub use calls::{drop, next};
