//! Files that are read and lowered.

use flat_code::{FlatProgram, well_formed};
use hare_blocks::read;
use low_blocks::lower;
use std::alloc::{AllocError, Global};
use std::test::Fail;

/// The flat program of a file, where it is one of the class.
fn lowered(alloc: Global, src: &[u8]) -> Result<Option<FlatProgram>, AllocError> {
    match read(alloc, src)? {
        None => Ok(None),
        Some(p) => Ok(Some(lower(alloc, &p)?)),
    }
}

/// Each statement, condition and operation is lowered once: a call that only wanted memory would be proved as well.
#[test]
fn files_are_lowered(rt: HostRuntime) -> Result<(), Fail> {
    let files: [(&[u8], usize); 4] = [
        (
            b"use rt; export fn main() void = rt::exit((rt::nargs() * 3z + 1z): u8);",
            0,
        ),
        (
            b"use rt; export fn main() void = { let i = 0z; for (i < rt::nargs()) { rt::puts(\"ab\"); i = i + 1z; }; \
              rt::exit((i * 2z): u8); };",
            1,
        ),
        (
            b"use rt; export fn main() void = { for (true) { rt::puts(\"\"); if (1z != (2z - 1z)) { rt::puts(\"y\"); }; }; };",
            2,
        ),
        (
            b"use rt; export fn main() void = { let n = 9z; if (n >= 8z) { let n = n; n = n - 1z; } else { rt::puts(\"z\"); }; \
              if (n > 1z) { }; if (n <= 1z) { }; if (n == 1z) { }; };",
            1,
        ),
    ];
    for (src, strings) in files {
        let f = lowered(rt.alloc(), src)?;
        assert!(rt; matches!(&f, Some(f) if well_formed(f) && f.globals.len() == strings));
    }
    Ok(())
}
