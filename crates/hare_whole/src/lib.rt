//! What whole programs are, and which fault of a program is the first.
#![tactic(auto)]
