//! Where control goes behind a statement.

ghost use Rattle.std.specs.Prelude.{◌≡◌};
ghost use Rattle.il_emit.specs.Lines.{is_next, fresh, goal_label, inner, first_goal};

/// Where control goes behind a statement: on to the next lines, which stand in the same block, or to the label of a number. A near label
/// stands right behind the statement, so that control falls to it; a far one does not, so that a jump is needed.
#[derive(Copy, Clone, Drop)]
pub enum Goal {
    Next,
    Near(u64),
    Far(u64),
}

/// One label, where there has to be one.
pub fn fresh(is_needed: bool) -> u64
    ensures { result ≡ fresh is_needed }
{
    if is_needed { 1 } else { 0 }
}

impl Goal {
    /// How many labels of its own a statement takes for what stands behind it.
    pub fn fresh(self) -> u64
        ensures { result ≡ fresh (is_next self) }
    {
        match self {
            Goal::Next => 1,
            Goal::Near(_) | Goal::Far(_) => 0,
        }
    }

    /// The label of the goal, where the statement's own has the number `n`.
    pub fn label(self, n: u64) -> u64
        ensures { result ≡ goal_label self n }
    {
        match self {
            Goal::Next => n,
            Goal::Near(x) | Goal::Far(x) => x,
        }
    }

    /// The goal of what stands last within the statement.
    pub fn inner(self, n: u64) -> Goal
        ensures { result ≡ inner self n }
    {
        match self {
            Goal::Next => Goal::Near(n),
            Goal::Near(_) | Goal::Far(_) => self,
        }
    }

    /// The goal of the first side of an If, where the other has lines of its own or not.
    pub fn of_first(self, other_has_lines: bool, n: u64) -> Goal
        ensures { result ≡ first_goal other_has_lines self n }
    {
        if other_has_lines {
            Goal::Far(self.label(n))
        } else {
            self.inner(n)
        }
    }
}
