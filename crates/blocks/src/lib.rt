// Blocks: which equation needs which, the classes of equations that need each other, and the order in which they are solved.
#![tactic(auto)]

pub mod need;
mod number;
pub mod place;
pub mod reach;
pub mod relation;
