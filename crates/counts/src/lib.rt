// The least counts, the tops, and the table of leading occurrences.
#![tactic(auto)]

pub mod figures;
pub mod lead;
pub mod raise;
pub mod tops;
