// The integrity theorem: what an accepted book's run keeps. Definitions and proofs, no function.
#![tactic(auto)]
