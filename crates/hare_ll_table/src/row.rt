//! Rows of the table: what a rule does at a class of token, and what is waited for.

ghost use Rattle.std.specs.Prelude.{◌≡◌, ◌++◌, OnOk};
ghost use Rattle.hare_automaton.specs.Rows as rows;
ghost use Rattle.hare_ll_table.specs.Seen.{seen, row_in, waited};

use hare_automaton::{Change, Class, Rule, Symbol};
use hare_tree::{Kind, Sign, Sort};
use std::alloc::{AllocError, Global};

/// What a parser waits for.
#[derive(Clone, Copy, Debug)]
pub enum Wait {
    /// One symbol.
    One(Symbol),
    /// What is left of the form of a kind behind so many of its first pieces, and the end of the tree.
    Rest(usize, Kind),
}

/// What a rule does at a class of token.
#[derive(Clone, Copy)]
pub enum Row<'a> {
    /// The token cannot stand here.
    Fault,
    /// The rule is over after these changes, and the token is looked at again.
    Skips(&'a [Change]),
    /// The token is used: these changes, and then this is waited for.
    Uses(&'a [Change], &'a [Wait]),
}

/// What a rule does with the token.
#[derive(Clone, Copy, Debug, PartialEq, Eq)]
pub(crate) enum Action {
    /// The token cannot stand here.
    Faults,
    /// The rule is over, and the token is looked at again.
    Skips,
    /// The token is used.
    Uses,
}

/// Where rows are made, one after the other, so that a row takes memory only where it is longer than all before it.
#[derive(Drop)]
pub struct RowBuffer {
    /// What is done with the token.
    pub(crate) action: Action,
    /// The changes, where there is no fault.
    pub(crate) changes: Vec<Change>,
    /// What is waited for where the token is used.
    pub(crate) waits: Vec<Wait>,
}

impl RowBuffer {
    /// A buffer with no memory yet.
    pub fn new(alloc: Global) -> RowBuffer
        ensures { row_in result ≡ rows.Fault }
    {
        RowBuffer {
            action: Action::Faults,
            changes: Vec::new(alloc),
            waits: Vec::new(alloc),
        }
    }

    /// The row that was made last.
    pub fn row(&self) -> Row<'_>
        ensures { seen result ≡ row_in self.now }
    {
        match self.action {
            Action::Faults => Row::Fault,
            Action::Skips => Row::Skips(&self.changes),
            Action::Uses => Row::Uses(&self.changes, &self.waits),
        }
    }
}

/// A tree of the sort is waited for.
pub fn of(sort: Sort) -> Wait
    ensures { result ≡ Wait.One (rows.of sort) }
{
    part(Rule::Of(sort))
}

/// What the rule reads is waited for.
pub fn part(rule: Rule) -> Wait
    ensures { result ≡ Wait.One (rows.part rule) }
{
    Wait::One(Symbol::Part(rule))
}

// ---- rows in the buffer

/// The token cannot stand here.
pub fn faults(row: &mut RowBuffer) -> Result<(), AllocError>
    ensures { OnOk result (row_in row.new ≡ rows.Fault) }
{
    row.action = Action::Faults;
    Ok(())
}

/// The rule is over after these changes.
pub fn skips(row: &mut RowBuffer, changes: &[Change]) -> Result<(), AllocError>
    ensures { OnOk result (row_in row.new ≡ rows.Skips changes.now) }
{
    row.action = Action::Skips;
    row.changes.clear();
    row.changes.extend_from_slice(changes)
}

/// The token is used: these changes, and then this is waited for.
pub fn uses(row: &mut RowBuffer, changes: &[Change], waits: &[Wait]) -> Result<(), AllocError>
    ensures { OnOk result (row_in row.new ≡ rows.Uses changes.now (waited waits.now)) }
{
    row.action = Action::Uses;
    row.changes.clear();
    row.changes.extend_from_slice(changes)?;
    row.waits.clear();
    row.waits.extend_from_slice(waits)
}

/// The row, and then this is waited for.
pub fn before(row: &mut RowBuffer, behind: &[Wait]) -> Result<(), AllocError>
    ensures { OnOk result (row_in row.new ≡ rows.before (row_in row.old) (waited behind.now)) }
{
    match row.action {
        Action::Uses => row.waits.extend_from_slice(behind),
        Action::Faults | Action::Skips => Ok(()),
    }
}

/// The row, with these changes first.
pub fn led_by(row: &mut RowBuffer, first: &[Change]) -> Result<(), AllocError>
    ensures { OnOk result (row_in row.new ≡ rows.led_by first.now (row_in row.old)) }
{
    match row.action {
        Action::Faults => Ok(()),
        Action::Skips | Action::Uses => put_first(&mut row.changes, first),
    }
}

/// Puts these changes in front of the others.
fn put_first(changes: &mut Vec<Change>, first: &[Change]) -> Result<(), AllocError>
    ensures { OnOk result (changes.new.items ≡ first.now ++ changes.old.items) }
{
    let mut left = first.len();
    while left > 0 {
        left -= 1;
        changes.insert(0, first[left])?;
    }
    Ok(())
}

/// The row where it uses the token, or else an end after these changes.
pub fn or_skips(row: &mut RowBuffer, changes: &[Change]) -> Result<(), AllocError>
    ensures { OnOk result (row_in row.new ≡ rows.or_skips (row_in row.old) changes.now) }
{
    match row.action {
        Action::Uses => Ok(()),
        Action::Faults | Action::Skips => skips(row, changes),
    }
}

/// Whether the class is this sign.
pub fn has_sign(sign: Sign, class: Class) -> bool
    ensures { result ≡ rows.has_sign sign class }
{
    match class {
        Class::Sign(other) => sign == other,
        _ => false,
    }
}

// ---- rows of one tree

/// A tree of this kind begins at the token, which is the first piece of its form.
pub fn opens(row: &mut RowBuffer, kind: Kind) -> Result<(), AllocError>
    ensures { OnOk result (row_in row.new ≡ rows.opens kind) }
{
    uses(row, &[Change::Open], &[Wait::Rest(1, kind)])
}

/// The token is the tree.
pub fn leaf(row: &mut RowBuffer, kind: Kind) -> Result<(), AllocError>
    ensures { OnOk result (row_in row.new ≡ rows.leaf kind) }
{
    uses(row, &[Change::Leaf(kind)], &[])
}

/// A path begins.
pub fn path(row: &mut RowBuffer, kind: Kind) -> Result<(), AllocError>
    ensures { OnOk result (row_in row.new ≡ rows.path kind) }
{
    uses(
        row,
        &[Change::Open, Change::Take],
        &[part(Rule::PathRest(kind))],
    )
}

/// The token is the tree, which says nothing but its kind.
pub fn mark(row: &mut RowBuffer, kind: Kind) -> Result<(), AllocError>
    ensures { OnOk result (row_in row.new ≡ rows.mark kind) }
{
    uses(row, &[Change::Mark(kind)], &[])
}

/// The token is the text of a tree that begins there.
pub fn names(row: &mut RowBuffer, kind: Kind) -> Result<(), AllocError>
    ensures { OnOk result (row_in row.new ≡ rows.names kind) }
{
    uses(row, &[Change::Open, Change::Take], &[Wait::Rest(1, kind)])
}
