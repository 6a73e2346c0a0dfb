// What the programs of the gate share: how they print, what they run on, and the judging of it.
#![tactic(auto)]

pub mod judged;
pub mod models;
pub mod printing;
pub mod sample;
