// Support at every height: how many of the last headers vote for each id. docs/RULES.md, "Support".
#![tactic(auto)]

pub mod window;
