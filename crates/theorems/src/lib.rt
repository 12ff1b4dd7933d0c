// The theorems about the whole. No code: see proofs/.
#![tactic(auto)]
