// The theorems of docs/AUDIT.md once more, each under the type that its table gives: docs/check-theorems. Proofs alone, no function.
#![tactic(auto)]
