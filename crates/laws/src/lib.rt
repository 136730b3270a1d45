// No code: general laws of tests, of lists and of lent parts, which the proofs of the other crates cite.
#![tactic(auto)]
