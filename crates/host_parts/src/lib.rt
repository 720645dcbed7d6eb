// What the entries on bytes are made of.
//   taken      a message, from its line
//   record     the session in its record's bytes
//   own        the tests that an entry makes by itself, and refusals as reports
//   seen       what a call looks at
//   store      what a step left, put back
//   settle     the same, or the entry's own refusal
// No function here is for hosts.
#![tactic(auto)]

pub mod own;
pub mod record;
pub mod seen;
pub mod settle;
pub mod store;
pub mod taken;
