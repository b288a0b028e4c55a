//! Tests of the crates of types and of typed trees, of what no line of a table shows: rows and unions that no program spells, and cells and
//! typed trees put together by hand.
#![tactic(auto)]

#[cfg(test)]
mod cells;
#[cfg(test)]
mod nothing;
#[cfg(test)]
mod typed;
#[cfg(test)]
mod types;
