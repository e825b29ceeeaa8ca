// The rounds of soft-fork voting over every list of records: definitions and a theorem, no code.

#![tactic(auto)]
