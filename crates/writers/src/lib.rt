// Bodies, fields, parameters and settings updates written.
#![tactic(auto)]

pub mod encode;
pub mod fields;
pub mod pack;
mod sizes;
pub mod tables;
