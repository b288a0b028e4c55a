//! Programs whose files were read.

use crate::program::Program;
use anyhow::{Error, Result, anyhow, ensure};
use hare_names::Files2;
use hare_sources::read_files;
use hare_tree::{Fault, Kids, Kind, Place, Stop, Tree};
use hx_base::Text;
use std::alloc::Global;
use std::marker::Model;

/// A program whose files were read. Contracts see how many they are.
#[derive(Drop)]
pub(crate) struct ReadProgram {
    pub paths: Vec<Text>,
    pub files: Files2,
    /// Where its paths stand.
    pub places: Vec<Place>,
}

impl Model for ReadProgram {
    ghost use Rattle.std.specs.Prelude.{ℕ, length};
    ghost use Rattle.hare_names.specs.Answers.{AreFiles};

    ghost Value = { ℕ };

    ghost view = { λ a. length a.paths.items };

    ghost invariant = { λ a. AreFiles a.paths.items a.files };
}

/// Reads the files of a program.
pub(crate) fn read_program(alloc: Global, program: Program) -> Result<ReadProgram> {
    let Program { paths, sources, .. } = program;
    ensure!(paths.len() <= 65_536, "more than 65,536 files");
    ensure!(sources.len() == paths.len(), "a file without a path");
    match read_files(alloc, &sources) {
        Ok(files) => {
            let places = places_of(alloc, &files)?;
            Ok(ReadProgram {
                paths,
                files,
                places,
            })
        }
        Err(stop) => Err(told(stop)),
    }
}

/// Why there is no answer.
pub(crate) fn told(stop: Stop<Fault>) -> Error {
    match stop {
        Stop::Fault(fault) => {
            let number = fault.number;
            anyhow!("E{number}")
        }
        Stop::Memory => anyhow!("out of memory"),
    }
}

/// The places of the paths of files.
fn places_of(alloc: Global, files: &Files2) -> Result<Vec<Place>> {
    let mut places = Vec::new(alloc);
    for file in files.as_slice() {
        put_kids(&mut places, &file.decls)?;
    }
    Ok(places)
}

/// Puts the places of the paths in these trees at the end.
#[cycle(trees)]
fn put_kids(places: &mut Vec<Place>, kids: &Kids) -> Result<()> {
    for i in 0..kids.len() {
        if let Some(kid) = kids.get(i) {
            put_tree(places, kid)?;
        }
    }
    Ok(())
}

/// The same of one tree.
#[cycle(trees)]
fn put_tree(places: &mut Vec<Place>, tree: &Tree) -> Result<()> {
    if matches!(tree.kind, Kind::Path | Kind::TypePath) {
        places.push(tree.place)?;
    }
    put_kids(places, &tree.kids)
}
