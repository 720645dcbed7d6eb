// Words of slices, one after the other, modulo q: results are written over the first words of a lent slice; the words past the count keep
// their value.
//   rest     the rest of a division, mostly without one
//   residues words below a bound, the bits of words, and sum, difference and negative of residues: several words at a time
//   each     the loop that sets each of the first words by a function, of any type of entry
//   entries  sum, difference, negative, copy and zeros, entry by entry, of any words
//   columns  the words of a matrix, its columns, and two matrices side by side
// No function here is for hosts.
#![tactic(auto)]

mod columns;
mod each;
mod entries;
mod residues;
pub mod rest;

pub use columns::{times, write_beside, write_cols};
pub use each::set_each;
pub use entries::{
    add_to, subtract_from, write_copy, write_difference, write_negative, write_sum, write_zeros,
};
pub use residues::{add_residues, all_below, is_residues, subtract_residues};
