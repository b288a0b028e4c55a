//! What the paths of programs mean.

use crate::reading::{ReadProgram, told};
use anyhow::Result;
use hare_names::{Names, resolve};
use hare_tree::{Meaning, Place};
use std::alloc::Global;

/// How many paths of some programs mean something. Their names are resolved and asked for so many times.
pub(crate) fn in_rounds(alloc: Global, programs: &[ReadProgram], rounds: u32) -> Result<u64> {
    let mut found = 0;
    for _ in 0..rounds {
        found = round(alloc, programs)?;
    }
    Ok(found)
}

/// The same, once.
fn round(alloc: Global, programs: &[ReadProgram]) -> Result<u64> {
    let mut found: u64 = 0;
    for program in programs {
        let more = resolved(alloc, program)?;
        found = found.saturating_add(more);
    }
    Ok(found)
}

/// How many paths of one program mean something.
fn resolved(alloc: Global, program: &ReadProgram) -> Result<u64> {
    match resolve(alloc, program.paths.as_slice(), &program.files) {
        Ok(names) => Ok(meaning_something(&names, program.places.as_slice())),
        Err(stop) => Err(told(stop)),
    }
}

/// How many of these places are those of paths that mean something.
fn meaning_something(names: &Names, places: &[Place]) -> u64 {
    let mut found: u64 = 0;
    for place in places {
        found = found.saturating_add(told_at(names, *place));
    }
    found
}

/// 1 where the path at a place means something, and else 0.
fn told_at(names: &Names, place: Place) -> u64 {
    match names.meaning(place) {
        Meaning::None => 0,
        _ => 1,
    }
}
