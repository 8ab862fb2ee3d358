ghost use Rattle.std.specs.Prelude.{◌≡◌, ◌<◌, ◌≤◌, ℕ, true, false, List, [], ◌∷◌, ◌++◌, ◌-◌, length, replicate};
ghost use Rattle.std.specs.Prelude.{None, IfOk, OnErr};
ghost use Rattle.djq_arena.specs.Chains.{first_of, IsSlotBelow};
ghost use Rattle.djq_arena.specs.declared.link.TheConstants.{SLOTS};
ghost use Rattle.djq_forest.specs.Invariants.{is_empty};
ghost use Rattle.djq_forest.specs.TieLists.{tie_at, list_at, is_in_list, put_in_front, taken_out, retied, with_ties, with_lists};
ghost use Rattle.djq_forest.specs.TieLists.{AreTieLists};
ghost use Rattle.djq_forest.specs.Ties.{tie_in, head_in, prev_set, next_set, beside_set, to_set, no_tie};

use djq_arena::{Link, Pair};
use std::alloc::{AllocError, Global};
use std::marker::Model;

/// The tie of a slot of an edge's big knot: the small one's slot that it is tied to, and its neighbours in that one's
/// list.
#[derive(Clone, Copy)]
pub struct Tie {
    pub to: u32,
    pub beside: Pair,
}

/// The ties of an edge. Each slot of its big knot is tied to a slot of its small one, and may be in that one's list.
#[derive(Drop)]
pub struct Ties {
    ties: Vec<Tie>,
    heads: Vec<Link>,
}

impl Model for Ties {
    ghost use Rattle.djq_forest.specs.TieLists.{TieLists};

    ghost Value = { TieLists };

    ghost use Rattle.djq_forest.specs.Ties.{tos, lists_in, TiesAreSound};

    ghost view = { λ t. record { ties = tos t.ties.items; lists = lists_in t.ties.items t.heads.items } };

    ghost invariant = { λ t. TiesAreSound t.ties.items t.heads.items };
}

/// The tie of a slot.
fn tie_of(ties: &Vec<Tie>, slot: u32) -> Tie
    requires { slot < length ties.now.items }
    ensures { result ≡ tie_in ties.now.items slot }
{
    ties[slot as usize]
}

/// The first slot of a slot's list.
fn head_of(heads: &Vec<Link>, slot: u32) -> Link
    requires { slot < length heads.now.items }
    ensures { result ≡ head_in heads.now.items slot }
{
    heads[slot as usize]
}

/// Writes another slot before one, if there is one.
fn set_prev(ties: &mut Vec<Tie>, at: Link, prev: Link)
    requires { IsSlotBelow (length ties.old.items) at }
    ensures { ties.new.items ≡ prev_set at prev ties.old.items }
{
    if let Some(slot) = at.get() {
        ties[slot as usize].beside.prev = prev;
    }
}

/// Links another slot after one, if there is one.
fn set_next(ties: &mut Vec<Tie>, at: Link, next: Link)
    requires { IsSlotBelow (length ties.old.items) at }
    ensures { ties.new.items ≡ next_set at next ties.old.items }
{
    if let Some(slot) = at.get() {
        ties[slot as usize].beside.next = next;
    }
}

/// Writes both neighbours of a slot.
fn set_beside(ties: &mut Vec<Tie>, slot: u32, beside: Pair)
    requires { slot < length ties.old.items }
    ensures { ties.new.items ≡ beside_set slot beside ties.old.items }
{
    ties[slot as usize].beside = beside;
}

/// Writes which slot a slot is tied to.
fn set_to(ties: &mut Vec<Tie>, slot: u32, to: u32)
    requires { slot < length ties.old.items }
    ensures { ties.new.items ≡ to_set slot to ties.old.items }
{
    ties[slot as usize].to = to;
}

/// Makes so many ties at least, the new ones to slot 0 and in no list.
fn resize_ties(ties: &mut Vec<Tie>, slots: usize) -> Result<(), AllocError>
    ensures more { IfOk result (λ _. ties.new.items ≡ ties.old.items ++ replicate (slots - length ties.old.items) no_tie) }
    ensures refused { OnErr result (ties.new.items ≡ ties.old.items) }
{
    if slots <= ties.len() {
        return Ok(());
    }
    let beside = Pair {
        prev: Link::none(),
        next: Link::none(),
    };
    ties.resize(slots, Tie { to: 0, beside })
}

/// Makes so many heads at least, the new ones of empty lists.
fn resize_heads(heads: &mut Vec<Link>, slots: usize) -> Result<(), AllocError>
    ensures more { IfOk result (λ _. heads.new.items ≡ heads.old.items ++ replicate (slots - length heads.old.items) None) }
    ensures refused { OnErr result (heads.new.items ≡ heads.old.items) }
{
    if slots <= heads.len() {
        return Ok(());
    }
    heads.resize(slots, Link::none())
}

impl Ties {
    /// No slots on either side.
    pub fn new(alloc: Global) -> Ties
        ensures { result ≡ record { ties = []; lists = [] } }
    {
        Ties {
            ties: Vec::new(alloc),
            heads: Vec::new(alloc),
        }
    }

    /// What holds of all ties. It does nothing.
    pub fn laws(&self)
        ensures { AreTieLists self.now }
    {
        let _ = &self.ties;
    }

    /// Makes so many slots at least on the big knot's side. It fails only out of memory, and then all stays as it was.
    pub fn grow_ties(&mut self, slots: usize) -> Result<(), AllocError>
        requires { slots ≤ SLOTS }
        ensures grown { IfOk result (λ _. self.new ≡ with_ties self.old slots) }
        ensures refused { OnErr result (self.new ≡ self.old) }
    {
        resize_ties(&mut self.ties, slots)
    }

    /// Makes so many slots at least on the small knot's side, the new ones with empty lists. It fails only out of memory,
    /// and then all stays as it was.
    pub fn grow_lists(&mut self, slots: usize) -> Result<(), AllocError>
        ensures grown { IfOk result (λ _. self.new ≡ with_lists self.old slots) }
        ensures refused { OnErr result (self.new ≡ self.old) }
    {
        resize_heads(&mut self.heads, slots)
    }

    /// The slot that a slot is tied to.
    pub fn to(&self, slot: u32) -> u32
        requires { slot < length self.now.ties }
        ensures { result ≡ tie_at self.now slot }
    {
        tie_of(&self.ties, slot).to
    }

    /// The first slot of a list, if it has one.
    pub fn first(&self, to: u32) -> Option<u32>
        requires { to < length self.now.lists }
        ensures { result ≡ first_of (list_at self.now to) }
    {
        head_of(&self.heads, to).get()
    }

    /// The slot after a slot of a list, if there is one.
    pub fn next(&self, slot: u32) -> Option<u32>
        requires { is_in_list self.now slot ≡ true }
        ensures { (xs ys : List ℕ) → list_at self.now (tie_at self.now slot) ≡ xs ++ slot ∷ ys → result ≡ first_of ys }
    {
        tie_of(&self.ties, slot).beside.next.get()
    }

    /// Ties a slot that is in no list to another one.
    pub fn tie(&mut self, slot: u32, to: u32)
        requires within { slot < length self.old.ties }
        requires out { is_in_list self.old slot ≡ false }
        ensures { self.new ≡ retied self.old slot to }
    {
        set_to(&mut self.ties, slot, to);
    }

    /// Puts a slot that is in no list in front of that of the slot that it is tied to. Returns whether that was empty.
    pub fn enter(&mut self, slot: u32) -> bool
        requires within { slot < length self.old.ties }
        requires to { tie_at self.old slot < length self.old.lists }
        requires out { is_in_list self.old slot ≡ false }
        ensures entered { self.new ≡ put_in_front self.old slot }
        ensures first { result ≡ is_empty (list_at self.old (tie_at self.old slot)) }
    {
        let to = tie_of(&self.ties, slot).to;
        let next = head_of(&self.heads, to);
        let prev = Link::none();
        set_beside(&mut self.ties, slot, Pair { prev, next });
        set_prev(&mut self.ties, next, Link::to(slot));
        self.heads[to as usize] = Link::to(slot);
        next.get().is_none()
    }

    /// Removes a slot from its list. Returns whether the list is empty now.
    pub fn leave(&mut self, slot: u32) -> bool
        requires { is_in_list self.old slot ≡ true }
        ensures left { self.new ≡ taken_out self.old slot }
        ensures last { result ≡ is_empty (list_at self.new (tie_at self.old slot)) }
    {
        let Tie { to, beside } = tie_of(&self.ties, slot);
        set_next(&mut self.ties, beside.prev, beside.next);
        set_prev(&mut self.ties, beside.next, beside.prev);
        match beside.prev.get() {
            Some(_before) => false,
            None => {
                self.heads[to as usize] = beside.next;
                beside.next.get().is_none()
            }
        }
    }
}
