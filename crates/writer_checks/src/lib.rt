// What a table is checked for before it is written as a card, in card order. Document 01, "Refusals in checking order", 2 to 13.
#![tactic(auto)]

pub mod atoms;
pub mod checking;
