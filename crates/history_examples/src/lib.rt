// The crate's work is in proofs/: lists of calls that meet the premises of demands 2 and 3, and what the claims say of them. There is no code.
#![tactic(auto)]
