// No code: what the promises of the public calls leave no doubt about.
#![tactic(auto)]
