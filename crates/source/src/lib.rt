// No code: what a question is asked of, the promise of a call that takes a question, and demand 3.
#![tactic(auto)]
