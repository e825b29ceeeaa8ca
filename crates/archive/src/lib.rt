// The archive's records of epochs: how one is read and replayed.
#![tactic(auto)]

mod fork_votes;
pub mod record;
pub mod replay;
