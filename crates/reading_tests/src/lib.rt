//! Tests of the crates that read Hare, of what no line of a table shows: words and lists put together by hand, lists of tokens that no text
//! has, and the words of a command.
#![tactic(auto)]

#[cfg(test)]
mod commands;
#[cfg(test)]
mod files;
#[cfg(test)]
mod runs;
#[cfg(test)]
mod stacks;
#[cfg(test)]
mod trees;
