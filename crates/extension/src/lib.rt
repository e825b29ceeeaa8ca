// The extension body and the settings update: read and matched; and the boundary with the update's bytes.
#![tactic(auto)]

pub mod body;
pub mod boundary;
pub mod mandatory;
pub mod parameters;
pub mod section;
pub mod update;
