// The bytes of a rehearsal.
//   input  the five lines that it reads
//   print  the lines that it prints
// No function here is for hosts.
#![tactic(auto)]

pub mod input;
pub mod print;

// How many numbers the last four lines have.
#[derive(Clone, Copy)]
pub struct Counts {
    pub x: usize,
    pub y: usize,
    pub dealer: usize,
    pub left: usize,
}
