#![tactic(auto)]

// No code: what the calls' contracts together promise, as corollaries of the theorems over the definitions.
