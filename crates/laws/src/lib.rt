// Laws of sums, counts, tables, lists and texts, and arrays made by a function of the place; nothing of models.
#![tactic(auto)]

pub mod array;
