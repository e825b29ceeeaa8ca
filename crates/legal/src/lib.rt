// Every header that the header check accepts, in rising order as numbers of 24 bits. docs/RULES.md, "Every legal header".
#![tactic(auto)]

pub mod listing;
pub mod next;
