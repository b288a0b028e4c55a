//! The calls of an object in memory: which of them are to fail, how many were made, and how many failed.

ghost use Rattle.std.specs.Prelude.{◌≡◌, ◌≤◌};
ghost use Rattle.hx_io.specs.Calls as spec;

use hx_base::Items;

/// The numbers of the calls that are to fail, in any order. The first call of an object has the number 1, and each call counts. A number
/// that stands in the list twice fails one call.
pub type Calls = Items<u64>;

/// The calls of one object. Both counts stop at 2^64 - 1.
#[derive(Drop)]
pub(crate) struct Tally {
    fails: Calls,
    calls: u64,
    failed: u64,
}

impl Tally {
    /// No call was made yet.
    pub(crate) fn new(fails: Calls) -> Tally
        ensures { result ≡ record { fails = fails; calls = 0; failed = 0 } }
    {
        Tally {
            fails,
            calls: 0,
            failed: 0,
        }
    }

    /// Whether the next call is to fail.
    pub(crate) fn next_fails(&self) -> bool
        ensures { result ≡ spec.next_fails self.now }
    {
        self.fails
            .as_slice()
            .contains(&self.calls.saturating_add(1))
    }

    /// Counts a call, which failed or did not.
    pub(crate) fn count(&mut self, failed: bool)
        ensures value { self.new ≡ spec.counted failed self.old }
        ensures later { self.old.failed ≤ self.new.failed }
    {
        self.calls = self.calls.saturating_add(1);
        if failed {
            self.failed = self.failed.saturating_add(1);
        }
    }
}
