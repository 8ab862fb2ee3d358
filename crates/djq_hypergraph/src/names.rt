ghost use Rattle.std.specs.Prelude.{◌≡◌, ◌<◌, ◌==◌, ◌++◌, ◌∷◌, [], length, map, slice_get, Some, OnOk, OnErr};

use std::alloc::{AllocError, Global};
use std::marker::Model;

/// A list of names.
///
/// Contracts see a list of texts, each the list of its bytes.
#[derive(Debug, Drop)]
pub struct Names {
    texts: Vec<Vec<u8>>,
}

impl Model for Names {
    ghost use Rattle.std.specs.Prelude.{List, ℕ, map};

    ghost Value = { List (List ℕ) };

    ghost view = { λ n. map (λ t. t.items) n.texts.items };
}

impl Names {
    /// The list of no name, which allocates nothing.
    pub fn new(alloc: Global) -> Names
        ensures { result ≡ [] }
    {
        Names {
            texts: Vec::new(alloc),
        }
    }

    /// Appends a copy of a name.
    pub fn push(&mut self, alloc: Global, name: &[u8]) -> Result<(), AllocError>
        ensures ok { OnOk result (self.new ≡ self.old ++ name.now ∷ []) }
        ensures err { OnErr result (self.new ≡ self.old) }
    {
        let text = Vec::from_slice(alloc, name)?;
        self.texts.push(text)?;
        Ok(())
    }

    /// How many names there are.
    pub fn len(&self) -> usize
        ensures { result ≡ length self.now }
    {
        self.texts.len()
    }

    /// Whether there is no name.
    pub fn is_empty(&self) -> bool
        ensures { result ≡ (length self.now == 0) }
    {
        self.texts.is_empty()
    }

    /// The bytes of the name at a position.
    pub fn get(&self, position: usize) -> &[u8]
        requires { position < length self.now }
        ensures { slice_get self.now position ≡ Some result.now }
    {
        &self.texts[position]
    }
}
