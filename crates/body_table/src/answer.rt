//! What a line comes to.

ghost use Rattle.std.specs.Prelude.{◌≡◌, [], true, IsTrue};
ghost use Rattle.hare_tree.specs.Shape.{is_shaped};
ghost use Rattle.hare_rules.specs.Finished.{expression};
ghost use Rattle.hare_above.specs.Ready.{IsKnown};
ghost use Rattle.hare_check.specs.Walking.{AreKnownDecls};
ghost use Rattle.body_table.specs.Shaped.{IsShaped};

use crate::found::{Spot, accepted};
use crate::known::known;
use crate::program::{body, function, program};
use anyhow::{Context, Result, bail};
use hare_check::{Env, check_body};
use hare_sources::Named;
use hare_tree::{Fault, Stop, Tree};
use hare_types::TypeStore;
use std::alloc::Global;

/// The line with what is found of its program before the `=>`.
pub(crate) fn answer(alloc: Global, line: &str) -> Result<String> {
    let (said, source) = line.split_once(" => ").context("a line without =>")?;
    let asked = asked(said)?;
    let source_lines = source.replace(alloc, '$', "\n")?;
    let found = found(alloc, source_lines.as_str(), asked)?;
    Ok(format!(in alloc; "{found} => {source}")?)
}

/// The place of the node that is asked about, as in `ok int at 1:25`; none where the body as a whole is.
fn asked(said: &str) -> Result<Option<Spot>> {
    match said.split_once(" at ") {
        Some((_, place)) => {
            let (line, column) = place.split_once(':').context("a place without a column")?;
            let line = line.parse::<u32>().context("a line that is no number")?;
            let column = column.parse::<u32>().context("a column that is no number")?;
            Ok(Some(Spot { line, column }))
        }
        None => Ok(None),
    }
}

/// What is found of a program.
fn found(alloc: Global, source: &str, asked: Option<Spot>) -> Result<String> {
    match program(alloc, source) {
        Ok(named) => checked(alloc, &named, asked),
        Err(Stop::Fault(fault)) => refused(alloc, fault),
        Err(Stop::Memory) => bail!("out of memory"),
    }
}

/// What is found of the body of the function `f`.
fn checked(alloc: Global, named: &Named, asked: Option<Spot>) -> Result<String>
    requires { IsShaped named.now }
{
    let Some(number) = function(&named.files, b"f") else {
        bail!("no function f");
    };
    let Some(body) = body(named, number) else {
        bail!("no body");
    };
    let Ok(own) = u32::try_from(number) else {
        bail!("too many declarations");
    };
    let mut s = TypeStore::new(alloc);
    known_and_judged(alloc, &mut s, named, own, body, asked)
}

/// The same of the body of the declaration with this number, in a store without types. The types stand in the caller alone, since each function that may drop them
/// is proved to drop them.
fn known_and_judged(
    alloc: Global,
    s: &mut TypeStore,
    named: &Named,
    own: u32,
    body: &Tree,
    asked: Option<Spot>,
) -> Result<String>
    requires fresh { s.old.declared ≡ [] }
    requires shaped { is_shaped expression body.now ≡ true }
{
    let decls = known(alloc, s, &named.names, &named.files)?;
    let env = Env {
        names: &named.names,
        decls: &decls,
        own,
    };
    judged(alloc, s, &env, body, asked)
}

/// What is found of a body.
fn judged(
    alloc: Global,
    s: &mut TypeStore,
    env: &Env<'_>,
    body: &Tree,
    asked: Option<Spot>,
) -> Result<String>
    requires shaped { IsTrue (is_shaped expression body.now) }
    requires known { IsKnown s.old env.now.decls.now }
    requires decls { AreKnownDecls s.old env.now.decls.now }
{
    match check_body(alloc, s, env, body) {
        Ok(tree) => accepted(alloc, s, &tree, asked),
        Err(Stop::Fault(fault)) => refused(alloc, fault),
        Err(Stop::Memory) => bail!("out of memory"),
    }
}

/// A fault with its place.
fn refused(alloc: Global, fault: Fault) -> Result<String> {
    let (number, line, column) = (fault.number, fault.place.line, fault.place.column);
    Ok(format!(in alloc; "E{number} {line}:{column}")?)
}
