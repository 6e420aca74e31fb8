// The text of a listing's lines. A writer puts its bytes at the start of the buffer that it is lent and answers their number;
// what was behind them stays. Document 01, "Listing".
#![tactic(auto)]

pub mod kinds;
pub mod lines;
pub mod lists;
mod numbers;
mod rows;
