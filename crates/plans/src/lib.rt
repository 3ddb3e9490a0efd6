// Plans and their execution as 001 defines them. There are definitions (specs/) and their laws (proofs/), and no code.
#![tactic(auto)]
