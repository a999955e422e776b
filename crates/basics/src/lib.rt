// No code: definitions on bytes (specs/), and the laws on bytes, lists and tests that the crates above use (proofs/).
#![tactic(auto)]
