//! The ranges of a stack: a list in the order of their addresses, of which the last comes and goes.

ghost use Rattle.std.specs.Prelude.{◌≡◌, ℕ, ◌≤◌, ◌<◌, ◌++◌, ◌∷◌, true, false, not, [], filter, length, IfSome, IfNone, IsTrue};
ghost use Rattle.hx_base.specs.Memory.{in_range};
ghost use Rattle.il_mem.specs.Kept.{covers};
ghost use Rattle.il_mem.specs.Laid.{are_laid, IsCovered, EndsBy, SplitsAt};

/// Whether an address lies behind all of the ranges.
#[inline(always)]
pub fn follows(stack: &[(u64, u64)], at: u64) -> bool
    requires { are_laid 0 stack.now ≡ true }
    ensures { result ≡ true → EndsBy at stack.now }
{
    let n = stack.len();
    n == 0 || stack[n - 1].1 <= at
}

/// The range in which an address lies: its first address and the one behind its last.
pub fn found(stack: &[(u64, u64)], at: u64) -> Option<(u64, u64)>
    requires { are_laid 0 stack.now ≡ true }
    ensures found { IfSome result (λ r. (r.0 ≤ at) × (at < r.1) × IsCovered stack.now r.0 r.1) }
    ensures none { IfNone result (covers stack.now at ≡ false) }
{
    let k = begin_by(stack, at);
    if k > 0 && stack[k - 1].1 > at {
        Some(stack[k - 1])
    } else {
        None
    }
}

// How many of the ranges begin at an address or below it. Mostly all do.
fn begin_by(stack: &[(u64, u64)], at: u64) -> usize
    requires { are_laid 0 stack.now ≡ true }
    ensures { SplitsAt at stack.now result }
{
    let mut low = 0;
    let mut high = stack.len();
    if high > 0 && stack[high - 1].0 <= at {
        return high;
    }
    while low < high {
        let middle = low + (high - low) / 2;
        if stack[middle].0 <= at {
            low = middle + 1;
        } else {
            high = middle;
        }
    }
    low
}

/// Gives up the ranges that begin at one of the `n` addresses from `at` on. It looks at those alone that begin there or above.
pub fn cut(stack: &mut Vec<(u64, u64)>, at: u64, n: u64)
    requires { are_laid 0 stack.old.items ≡ true }
    ensures { stack.new.items ≡ filter (λ r. not (in_range at n r.0)) stack.old.items }
{
    let end = at.saturating_add(n);
    let mut k = stack.len();
    while k > 0 && stack[k - 1].0 >= at {
        k -= 1;
        if stack[k].0 < end {
            stack.remove(k);
        }
    }
}
