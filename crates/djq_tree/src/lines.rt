ghost use Rattle.std.specs.Prelude.{◌≡◌, ℕ, ◌<◌, ◌≤◌, ◌++◌, [], true, length, OnOk, decimal};
ghost use Rattle.djq_hypergraph.specs.Hypergraph.{member};
ghost use Rattle.djq_tree.specs.Explaining.{IsNamed, end_text, label_text, node_text};

use crate::node::Node;
use djq_hypergraph::{Names, VarSet};
use itoa::Buffer;
use std::alloc::{AllocError, Global};
use std::marker::Model;

/// Lines of text, each with its line end. Contracts see the list of their bytes.
#[derive(Debug, Drop)]
pub struct Lines {
    bytes: Vec<u8>,
}

impl Model for Lines {
    ghost use Rattle.std.specs.Prelude.{List, ℕ};

    ghost Value = { List ℕ };

    ghost view = { λ l. l.bytes.items };
}

impl Lines {
    /// No line, which allocates nothing.
    pub fn new(alloc: Global) -> Lines
        ensures { result ≡ [] }
    {
        Lines {
            bytes: Vec::new(alloc),
        }
    }

    /// The lines' bytes.
    pub fn as_bytes(&self) -> &[u8]
        ensures { result.now ≡ self.now }
    {
        &self.bytes
    }

    /// Appends a text.
    pub(crate) fn push_text(&mut self, text: &[u8]) -> Result<(), AllocError>
        ensures { OnOk result (self.new ≡ self.old ++ text.now) }
    {
        self.bytes.extend_from_slice(text)?;
        Ok(())
    }

    /// Appends a number, in decimal.
    pub(crate) fn push_number(&mut self, number: usize) -> Result<(), AllocError>
        ensures { OnOk result (self.new ≡ self.old ++ decimal number) }
    {
        let mut buffer = Buffer::new();
        self.push_text(buffer.format(number).as_bytes())
    }

    /// Appends the description of a node.
    pub(crate) fn push_node(&mut self, node: Node, atoms: &Names) -> Result<(), AllocError>
        requires { IsNamed atoms.now node }
        ensures { OnOk result (self.new ≡ self.old ++ node_text atoms.now node) }
    {
        match node {
            Node::Leaf { atom } => {
                self.push_text(b"leaf ")?;
                self.push_text(atoms.get(atom))
            }
            Node::Trim { child } => {
                self.push_text(b"trim ")?;
                self.push_number(child)
            }
            Node::Meet { guard, side } => {
                self.push_text(b"meet ")?;
                self.push_number(guard)?;
                self.push_text(b" ")?;
                self.push_number(side)
            }
        }
    }

    /// Appends the variables of a label, in order of number.
    pub(crate) fn push_label(&mut self, label: VarSet, variables: &Names) -> Result<(), AllocError>
        requires { (x : ℕ) → member x label ≡ true → x < length variables.now }
        ensures { OnOk result (self.new ≡ self.old ++ label_text variables.now label) }
    {
        let mut rest = label;
        match rest.pop() {
            None => self.push_text(b"-"),
            Some(first) => {
                self.push_text(variables.get(first))?;
                while let Some(variable) = rest.pop() {
                    self.push_text(b",")?;
                    self.push_text(variables.get(variable))?;
                }
                Ok(())
            }
        }
    }

    /// Ends a line, with the word for a node that is in `out` before it.
    pub(crate) fn push_end(&mut self, is_out: bool) -> Result<(), AllocError>
        ensures { OnOk result (self.new ≡ self.old ++ end_text is_out) }
    {
        if is_out {
            self.push_text(b" out\n")
        } else {
            self.push_text(b"\n")
        }
    }
}
