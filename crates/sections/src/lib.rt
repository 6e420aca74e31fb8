// The lines of a property space, from the table of its conditions: all `T`, all `M`, all `D`, all `X` and all `E` lines.
// Document 01, "Listing", and document 02, No. 2.
#![tactic(auto)]

pub mod comparisons;
pub mod limits;
mod minimal;
mod nestings;
pub mod states;
