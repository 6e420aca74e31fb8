// Conditions of a table compared: which contains which, and the minimal ones. Document 01, "Listing".
#![tactic(auto)]

pub mod bags;
pub mod minimal;
