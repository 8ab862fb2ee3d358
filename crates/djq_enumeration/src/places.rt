ghost use Rattle.std.specs.Prelude.{◌≡◌, ◌<◌, [], ◌∷◌, ◌++◌, length, option_to_list, IfNone};

use djq_index::Place;
use djq_reduct::CELLS;
use std::marker::Model;

/// A choice of a listing: its level, and the place of its tuple in the level's table.
#[derive(Clone, Copy, Debug, Default)]
pub struct Choice {
    /// The number of the level's trim.
    pub level: usize,
    pub place: Place,
}

/// The choices of a listing, from the highest level on. They are inline, so that they need no
/// allocation.
#[derive(Debug, Drop)]
pub struct Places {
    choices: [Choice; CELLS],
    len: usize,
}

impl Model for Places {
    ghost use Rattle.std.specs.Prelude.{List};
    ghost use Rattle.djq_enumeration.specs.declared.places.Choice.{Choice};

    ghost Value = { List Choice };

    ghost use Rattle.std.specs.Prelude.{◌≡◌, ◌≤◌, take, length};
    ghost use Rattle.djq_index.specs.declared.cells.TheConstants.{CELLS};

    ghost view = { λ p. take p.len p.choices };

    ghost invariant = { λ p. (p.len ≤ CELLS) × (length p.choices ≡ CELLS) };
}

impl Places {
    /// No choice.
    pub fn new() -> Places
        ensures { result ≡ [] }
    {
        Places {
            choices: [Choice::default(); CELLS],
            len: 0,
        }
    }

    /// How many choices there are.
    pub fn len(&self) -> usize
        ensures { result ≡ length self.now }
    {
        self.len
    }

    /// The choices.
    pub fn as_slice(&self) -> &[Choice]
        ensures { result.now ≡ self.now }
    {
        &self.choices[..self.len]
    }

    /// Appends a choice.
    pub fn push(&mut self, choice: Choice)
        requires { length self.old < CELLS }
        ensures { self.new ≡ self.old ++ choice ∷ [] }
    {
        self.choices[self.len] = choice;
        self.len += 1;
    }

    /// Removes the last choice; none if there is none.
    pub fn pop(&mut self) -> Option<Choice>
        ensures taken { self.old ≡ self.new ++ option_to_list result }
        ensures none { IfNone result (self.old ≡ []) }
    {
        if self.len == 0 {
            return None;
        }
        self.len -= 1;
        Some(self.choices[self.len])
    }
}
