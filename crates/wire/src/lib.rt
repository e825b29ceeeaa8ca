// Tables, settings, tallies, states, places and parameters in bytes: read from a slice, and written to the start of a lent buffer.
// docs/VECTORS.md, "Bytes", has how each is written. A byte past the end of a slice is read as 0.
#![tactic(auto)]

pub mod boundary;
pub mod map;
pub mod numbers;
pub mod places;
pub mod state;
pub mod values;
