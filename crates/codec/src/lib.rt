// Number codecs, numbers in print, and what every layer above shares: the refusal numbers and the writing into a lent buffer.
#![tactic(auto)]

pub mod big_endian;
pub mod decimal;
pub mod output;
pub mod refusal;
pub mod rule;
pub mod signed;
pub mod vlq;
