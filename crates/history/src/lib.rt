// The crate's work is in specs/ and proofs/: lists of calls, and demands 2 and 3. There is no code.
#![tactic(auto)]
