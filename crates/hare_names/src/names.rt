//! What the paths of a program mean.

ghost use Rattle.std.specs.Prelude.{◌≡◌};
ghost use Rattle.hare_names.specs.Answers.{meaning_in};

use crate::rising::Rising;
use hare_tree::{Meaning, Place};
use std::marker::Model;

/// What the paths of a program mean, by their places.
#[derive(Drop)]
pub struct Names {
    places: Rising,
}

impl Model for Names {
    ghost use Rattle.std.specs.Prelude.{List};
    ghost use Rattle.hare_tree.specs.declared.place.Place.{Place};
    ghost use Rattle.hare_tree.specs.declared.token.Meaning.{Meaning};

    ghost Value = { List (Place × Meaning) };

    ghost view = { λ a. a.places };
}

impl Names {
    /// The names with these meanings.
    pub(crate) fn new(places: Rising) -> Names
        ensures { result ≡ places }
    {
        Names { places }
    }

    /// What the path at a place means; `Meaning::None` where no path of an expression or a type stands there. Takes no memory, and as
    /// many steps as halving the paths of the program does.
    pub fn meaning(&self, place: Place) -> Meaning
        ensures { result ≡ meaning_in self.now place }
    {
        match self.places.get(place) {
            Some(meaning) => meaning,
            None => Meaning::None,
        }
    }
}
