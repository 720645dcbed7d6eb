// The crate's work is in specs/ and proofs/: the determinant and the rank of a matrix, and what a determinant session's promises rest on. There is no code.
#![tactic(auto)]
