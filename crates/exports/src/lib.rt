// What C, Rust and Python call: bindings/c/ergo_voting.h has each function's C form. A slice crosses as a pointer and a length. No function
// asks anything of its caller but that. Bytes are written as docs/VECTORS.md, "Bytes", has it; one past the end of an input counts as 0.
#![tactic(auto)]

mod answer;
pub mod body;
pub mod boundary;
pub mod records;
pub mod replay;
pub mod tables;
pub mod update;
pub mod votes;
pub mod windows;
pub mod writing;
