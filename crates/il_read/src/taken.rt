//! What a reading answers.

use il_code::Stop;

/// A printed text has something else here.
#[derive(Clone, Copy, Debug, PartialEq, Eq)]
pub struct NotPrinted;

/// What was read, and what stands behind it.
pub type Taken<'a, T> = Result<(T, &'a [u8]), Stop<NotPrinted>>;
