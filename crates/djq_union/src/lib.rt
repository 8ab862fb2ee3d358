//! The listing of a union: the answers that some of its members have, each once, in a bounded number of
//! steps a call (Carmeli and Kröll 2021).
//!
//! A union has up to eight members that list answers of their own ([`Listing`], [`Members`]). A
//! [`UnionCursor`] gives one answer of the union a call. If k members each count at most c a call,
//! and tests with all of them count M, a call counts at most k·c and (k-1)·M. This holds however many
//! answers the members have, and share. Of queries, c is twice the width of the head and one, and M the number of
//! their atoms. It allocates nothing: nothing that was given is stored.
//!
//! It is no snapshot: a cursor fits members only until one of them changes, and doesn't notice a
//! change. It offers no order of answers but the one that follows from its members' orders.
//!
//! What surprises: an answer that several members have isn't given when the first of them reaches it.
//! Given is the next one of the later members, whichever that is, and every answer of theirs is given in
//! this way, or after the first member's end. So no test is needed of whether an answer was given before.
//!
//! ```text
//! member a gives          1   2   3   end
//! member b has it         no  yes yes
//! member b gives              0   2   3    end
//! the union gives         1   0   2   3    end
//! ```
//!
//! That `b` has a next one in such a place is what has to be proved. What `a` has given of `b`'s answers
//! are different answers of `b`, and `b` has given one fewer: so one is left.
//!
//! To read first: `specs/Order.antt`, in which order a union gives its answers, and `UnionFits` of
//! `specs/Union.antt`, when states fit the members. Each fits its own, and the later members are in step with
//! the first, never lagging.
//!
//! How it works inside: a cursor holds eight states, none if a member's listing hasn't begun, and
//! contracts see them as a list. A call visits the members from the first one on by recursion, as
//! the definitions do. Whether an answer is left is asked of the members one by one; no state moves for
//! it, and none is copied.
#![tactic(auto)]

ghost use Rattle.std.specs.Prelude.{◌≡◌, ◌↔◌, ◌⊎◌, false, List, ◌∷◌, Option, Contains};
ghost use Rattle.djq_union.specs.Union.{some_has, given_at, union_given};

mod cursor;
mod listing;
mod members;

pub use cursor::UnionCursor;
pub use listing::Listing;
pub use members::Members;

/// What a union has given: what its first member has given that no later member has, and what the
/// union of the later ones has given.
pub fn a_union_gives_what_its_members_give<M: Listing>()
    ensures { (m : M) (ms : List M) (s : Option M.State) (ss : List (Option M.State)) (t : M.Answer)
        → Contains (union_given M.has M.given (m ∷ ms) (s ∷ ss)) t
        ↔ ((Contains (given_at M.given m s) t × (some_has M.has ms t ≡ false))
        ⊎ Contains (union_given M.has M.given ms ss) t) }
{}
