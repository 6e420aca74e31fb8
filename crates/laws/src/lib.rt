#![tactic(auto)]

// No code: laws on lists and bags, each stated once, for any length.
