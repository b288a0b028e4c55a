//! A program of no files, and one without types.

use hare_names::{Files2, resolve};
use hare_steps::plan;
use hare_tree::{Meaning, Place};
use hare_types::TypeStore;
use hare_waits::{Waits, law_waits_stay};
use hx_base::Text;
use std::test::Fail;

const START: Place = Place {
    file: 0,
    line: 1,
    column: 1,
};

// No path has a meaning, and there is nothing to be judged.
#[test]
fn a_program_of_no_files(rt: HostRuntime) -> Result<(), Fail> {
    let files = Files2::new(rt.alloc());
    let paths: [Text; 0] = [];
    let Ok(names) = resolve(rt.alloc(), &paths, &files) else {
        return Err("no names".into());
    };
    assert_eq!(rt; names.meaning(START), Meaning::None);
    let Ok(plan) = plan(rt.alloc(), &names, &files) else {
        return Err("no plan".into());
    };
    assert_eq!(rt; plan.steps.len(), 0);
    Ok(())
}

#[test]
fn nothing_waits_for_a_name(rt: HostRuntime) -> Result<(), Fail> {
    law_waits_stay();
    let s = TypeStore::new(rt.alloc());
    let mut waits = Waits::new(rt.alloc());
    assert!(rt; waits.done(&s, 1)? == None);
    Ok(())
}
