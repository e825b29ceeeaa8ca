// The functions of library `exports` as C calls them: each calls the function of its name there and states its clauses again.
// bindings/c/ergo_voting.h has each one's C form.
#![tactic(auto)]

mod body;
mod boundary;
mod records;
mod replay;
mod tables;
mod update;
mod votes;
mod windows;
mod writing;
