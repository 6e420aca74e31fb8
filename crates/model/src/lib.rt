#![tactic(auto)]

// No code: document 01 as definitions (specs/) and the theorems over them (proofs/).
