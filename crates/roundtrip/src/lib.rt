// The round trip of the writer: reading what was written, and writing what was read. Definitions and proofs, no function.
#![tactic(auto)]
