// Matrices modulo q, stored row by row in slices of words. Results are written over the first words of a lent slice;
// the words past the count keep their value.
//   sides    the modulus and the sides of a product
//   sum      a sum of products that may pass 64 bits
//   inner    the inner product
//   product  the product of an m by k and a k by p matrix, row by row (the crate `rows`) or from its columns
//   formula  a product with other matrices added and taken away: what the sessions write
// No function here is for hosts.
#![tactic(auto)]

mod formula;
mod inner;
mod product;
mod sides;
mod sum;

pub use formula::{write_deal, write_masked, write_reply, write_share, write_share_of};
pub use inner::inner_product;
pub use product::write_product;
pub use sides::Sides;
