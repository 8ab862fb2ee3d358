ghost use Rattle.std.specs.Prelude.{◌≡◌, ℕ, ◌≤◌, List, ◌∷◌, ◌++◌, [], length, take, IfNone, IfSome};
ghost use Rattle.djq_load.specs.Load.{load, pause};
ghost use Rattle.djq_load.specs.Rest.{from_due};

use crate::draw::{drawn, next};
use crate::line::{put, put_change};
use std::marker::Model;

/// What a load gives next.
#[derive(Clone, Copy, Debug)]
pub(crate) enum Due {
    FirstRelation,
    SecondRelation,
    Query,
    Change,
    Open,
    Read,
    Close,
}

impl Due {
    /// The line that is due, with what is due after it: none if a change is due.
    fn fixed(self) -> Option<(&'static [u8], Due)>
        ensures some { IfSome result (λ p. (length p.0.now ≤ 64) × ((more : List (List ℕ))
            → from_due self more ≡ p.0.now ∷ from_due p.1 more)) }
        ensures none { IfNone result (self ≡ Due.Change) }
    {
        match self {
            Due::FirstRelation => Some((b"rel r int int\n", Due::SecondRelation)),
            Due::SecondRelation => Some((b"rel s int int\n", Due::Query)),
            Due::Query => Some((b"query q(x,y,z) <- r(x,y), s(y,z)\n", Due::Change)),
            Due::Change => None,
            Due::Open => Some((b"open c q\n", Due::Read)),
            Due::Read => Some((b"next c 10\n", Due::Close)),
            Due::Close => Some((b"close c\n", Due::Change)),
        }
    }
}

/// The lines of a load, given one after another.
///
/// Contracts see the list of the lines that remain, each with its line end.
#[derive(Debug, Drop)]
pub struct Load {
    values: u32,
    state: u32,
    done: u32,
    left: u32,
    due: Due,
}

impl Model for Load {
    ghost use Rattle.std.specs.Prelude.{List, ℕ};

    ghost Value = { List (List ℕ) };

    ghost use Rattle.std.specs.Prelude.{◌+◌, ◌<◌, ◌≤◌, ◌^◌};
    ghost use Rattle.djq_load.specs.Load.{changes};
    ghost use Rattle.djq_load.specs.Rest.{from_due};

    ghost view = { λ l. from_due l.due (changes l.values l.state l.done l.left) };

    ghost invariant = { λ l. (0 < l.values) × (l.values ≤ 32768) × (l.done + l.left < 2 ^ 32) };
}

impl Load {
    /// The load of n changes with a seed.
    pub fn new(n: u32, seed: u32) -> Load
        ensures { result ≡ load n seed }
    {
        Load {
            values: (2 + n / 16).min(32768),
            state: seed,
            done: 0,
            left: n,
            due: Due::FirstRelation,
        }
    }

    /// Writes the next line at the front of a buffer, with its line end, and returns its length: none
    /// if and only if the last line was given.
    pub fn line(&mut self, line: &mut [u8; 64]) -> Option<usize>
        ensures given { IfSome result (λ n. (n ≤ 64) × (self.old ≡ take n line.new ∷ self.new)) }
        ensures over { IfNone result ((self.old ≡ []) × (self.new ≡ [])) }
    {
        if let Some((text, due)) = self.due.fixed() {
            self.due = due;
            return Some(put(line, 0, text));
        }
        if self.left == 0 {
            return None;
        }
        let first = next(self.state);
        let second = next(first);
        let third = next(second);
        self.state = third;
        self.done += 1;
        self.left -= 1;
        self.due = after_change(self.done);
        Some(put_change(line, self.values, drawn(first), drawn(second), drawn(third)))
    }
}

/// What is due after so many changes: a cursor after each hundredth.
fn after_change(done: u32) -> Due
    ensures { (more : List (List ℕ)) → from_due result more ≡ pause done ++ more }
{
    if done % 100 == 0 {
        Due::Open
    } else {
        Due::Change
    }
}
