// What is printed for an input of records, and the run over an input that comes in pieces.
#![tactic(auto)]

pub mod lines;
pub mod run;
