// Two forms with lent memory: the boundary over a lent list of entries, and a reader that holds a body.
#![tactic(auto)]

pub mod boundary;
pub mod reader;
