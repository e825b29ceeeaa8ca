// The voting rules that need no bytes of a body: settings, table, header votes, tally, fork check, and the boundary on values.
#![tactic(auto)]

pub mod boundary;
pub mod fork;
pub mod header;
pub mod ordinary;
pub mod settings;
pub mod table;
pub mod tally;
