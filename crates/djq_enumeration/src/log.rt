ghost use Rattle.std.specs.Prelude.{◌≡◌, ◌≤◌, ◌↔◌, ◌⊎◌, [], ◌∷◌, ◌++◌, true, false, not, length, take};
ghost use Rattle.std.specs.Prelude.{All, Any, IsTrue};
ghost use Rattle.std.specs.Bool.{OnTrue, OnFalse};
ghost use Rattle.std.specs.Ordering.{nat_cmp};
ghost use Rattle.std.specs.Cmp.Lexicographic.{slice_cmp};
ghost use Rattle.std.specs.List.Sorted.{IsPermutation, IsSortedByKey};
ghost use Rattle.djq_delta.specs.Lines.{AreDistinctLines, HaveOneSign, SettlesTo};
ghost use Rattle.djq_enumeration.specs.Log.{signed_lines};

use djq_reduct::Answer;
use std::alloc::Global;
use std::marker::Model;

/// A line of a log: an answer, and whether it was added or removed.
#[derive(Debug, Drop)]
pub struct Line {
    pub came: bool,
    pub answer: Answer,
}

impl Line {
    /// Replaces the line by one with this answer.
    fn write(&mut self, came: bool, answer: &Answer)
        ensures { self.new ≡ record { came = came; answer = answer.now } }
    {
        self.came = came;
        self.answer = answer.copy();
    }
}

/// Appends a line, and returns true; false if there is no memory for it.
#[inline(never)]
fn push_line(lines: &mut Vec<Line>, came: bool, answer: &Answer) -> bool
    ensures put { OnTrue result (lines.new.items
        ≡ lines.old.items ++ record { came = came; answer = answer.now } ∷ []) }
    ensures same { OnFalse result (lines.new.items ≡ lines.old.items) }
{
    let answer = answer.copy();
    lines.push(Line { came, answer }).is_ok()
}

/// Whether one of the lines has this sign.
fn one_has_sign(lines: &[Line], came: bool) -> bool
    ensures some { result ≡ true → Any (λ l. l.came ≡ came) lines.now }
    ensures none { result ≡ false → All (λ l. l.came ≡ not came) lines.now }
{
    lines.iter().any(|line| line.came == came)
}

/// Whether all answers were added, or all of them removed.
fn are_one_way(lines: &[Line]) -> bool
    ensures { IsTrue result ↔ (All (λ l. l.came ≡ true) lines.now ⊎ All (λ l. l.came ≡ false) lines.now) }
{
    !(one_has_sign(lines, true) && one_has_sign(lines, false))
}

/// Whether two lines are of the same answer.
fn have_same_answer(one: &Line, other: &Line) -> bool
    ensures { IsTrue result ↔ (one.now.answer ≡ other.now.answer) }
{
    one.answer.as_slice() == other.answer.as_slice()
}

/// Sorts lines by the cells of their answers. It allocates nothing.
fn sort_by_answer(lines: &mut [Line])
    ensures permutation { IsPermutation lines.old lines.new }
    ensures sorted { IsSortedByKey (λ l. l.answer) (slice_cmp nat_cmp) lines.new }
{
    lines.sort_unstable_by(|one, other| one.answer.as_slice().cmp(other.answer.as_slice()));
}

/// Of lines that are sorted by answer, drops each pair of opposites: moves those that remain to the front, and
/// returns how many these are.
fn drop_opposite_lines(lines: &mut [Line]) -> usize
    requires distinct { AreDistinctLines (signed_lines lines.old) }
    requires sorted { IsSortedByKey (λ l. l.answer) (slice_cmp nat_cmp) lines.old }
    ensures settled { SettlesTo (signed_lines lines.old) (signed_lines (take result lines.new)) }
    ensures fewer { result ≤ length lines.old }
    ensures long { length lines.new ≡ length lines.old }
{
    let mut remaining = 0;
    for at in 0..lines.len() {
        if remaining > 0 && have_same_answer(&lines[remaining - 1], &lines[at]) {
            remaining -= 1;
        } else {
            lines.swap(remaining, at);
            remaining += 1;
        }
    }
    remaining
}

/// Drops lines that cancel out: moves those that remain to the front, and returns how many these are.
fn settle_lines(lines: &mut [Line]) -> usize
    requires { AreDistinctLines (signed_lines lines.old) }
    ensures settled { SettlesTo (signed_lines lines.old) (signed_lines (take result lines.new)) }
    ensures fewer { result ≤ length lines.old }
    ensures long { length lines.new ≡ length lines.old }
{
    sort_by_answer(lines);
    drop_opposite_lines(lines)
}

/// Drops those of the first lines that cancel out, and returns how many of these remain. They are in front.
fn settle_first(lines: &mut [Line], len: usize) -> usize
    requires within { len ≤ length lines.old }
    requires distinct { AreDistinctLines (signed_lines (take len lines.old)) }
    ensures settled { SettlesTo (signed_lines (take len lines.old)) (signed_lines (take result lines.new)) }
    ensures fewer { result ≤ len }
    ensures long { length lines.new ≡ length lines.old }
{
    settle_lines(&mut lines[..len])
}

/// What a change of the answers is, line by line, or that it was lost for want of memory.
///
/// A lost log has no line, and stays lost until it is cleared.
///
/// Lines that were removed are overwritten by later ones, so that a line is moved nowhere.
#[derive(Drop)]
pub struct DeltaLog {
    // so many lines, and after them some that were removed
    lines: Vec<Line>,
    len: usize,
    lost: bool,
}

impl Model for DeltaLog {
    ghost use Rattle.djq_enumeration.specs.Log as spec;

    ghost Value = { spec.Log };

    ghost use Rattle.std.specs.Prelude.{◌≡◌, ◌≤◌, true, take, length};

    ghost view = { λ l. record { lines = take l.len l.lines.items; lost = l.lost } };

    ghost invariant = { λ l. (l.len ≤ length l.lines.items) × (l.lost ≡ true → l.len ≡ 0) };
}

impl DeltaLog {
    /// A log without lines.
    pub fn new(alloc: Global) -> DeltaLog
        ensures lines { result.lines ≡ [] }
        ensures kept { result.lost ≡ false }
    {
        DeltaLog {
            lines: Vec::new(alloc),
            len: 0,
            lost: false,
        }
    }

    /// The lines, in the order in which they were put in.
    pub fn lines(&self) -> &[Line]
        ensures { result.now ≡ self.now.lines }
    {
        &self.lines[..self.len]
    }

    /// Whether lines were lost for want of memory.
    pub fn lost(&self) -> bool
        ensures lost { result ≡ self.now.lost }
        ensures none { result ≡ true → self.now.lines ≡ [] }
    {
        self.lost
    }

    /// Appends a line. If there is no memory for it, all lines are lost; a lost log accepts none.
    pub fn push(&mut self, came: bool, answer: &Answer)
        ensures kept { self.new.lost ≡ false
            → self.new.lines ≡ self.old.lines ++ record { came = came; answer = answer.now } ∷ [] }
        ensures lost { self.old.lost ≡ true → self.new.lost ≡ true }
    {
        if self.lost {
            return;
        }
        if self.len < self.lines.len() {
            self.lines[self.len].write(came, answer);
        } else if !push_line(&mut self.lines, came, answer) {
            self.lose();
            return;
        }
        self.len += 1;
    }

    /// Loses all lines, if whoever appends them can't continue.
    pub fn lose(&mut self)
        ensures { self.new.lost ≡ true }
    {
        self.len = 0;
        self.lost = true;
    }

    /// Drops the lines that cancel out: those stay whose opposite isn't among them.
    ///
    /// It allocates nothing. If all answers were added, or all removed, nothing changes; else the lines are sorted
    /// by their answers' cells, in time proportional to k log k for k lines.
    pub fn settle(&mut self)
        requires { AreDistinctLines (signed_lines self.old.lines) }
        ensures settled { SettlesTo (signed_lines self.old.lines) (signed_lines self.new.lines) }
        ensures one_way { HaveOneSign (signed_lines self.old.lines) → self.new ≡ self.old }
        ensures fewer { length self.new.lines ≤ length self.old.lines }
        ensures lost { self.new.lost ≡ self.old.lost }
    {
        if !are_one_way(self.lines()) {
            self.len = settle_first(&mut self.lines, self.len);
        }
    }

    /// Removes all lines, to begin anew.
    pub fn clear(&mut self)
        ensures lines { self.new.lines ≡ [] }
        ensures kept { self.new.lost ≡ false }
    {
        self.len = 0;
        self.lost = false;
    }
}
