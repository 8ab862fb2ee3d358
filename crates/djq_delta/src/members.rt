//! What the deltas of a union's members mean for the union.
ghost use Rattle.std.specs.Prelude.{◌≡◌, ◌<◌, ◌↔◌, length, Contains, IsTrue, slice_index_or};
ghost use Rattle.djq_delta.specs.Members.{IsReportedLine};

use crate::delta::Delta;

/// Whether a line has this sign and these cells.
fn is_line(delta: &Delta, index: usize, came: bool, cells: &[u64]) -> bool
    requires { index < length delta.now.lines }
    ensures { IsTrue result ↔ (slice_index_or delta.now.lines index record { came = came; cells = cells.now }
        ≡ record { came = came; cells = cells.now }) }
{
    let (sign, line) = delta.line(index);
    sign == came && line == cells
}

/// Whether a delta has a line of this sign and these cells. It looks through all lines.
pub fn has_line(delta: &Delta, came: bool, cells: &[u64]) -> bool
    ensures { IsTrue result ↔ Contains delta.now.lines record { came = came; cells = cells.now } }
{
    for index in 0..delta.len() {
        if is_line(delta, index, came, cells) {
            return true;
        }
    }
    false
}

/// Whether a union gained or lost an answer, by the settled deltas of its members, which are whole, and by
/// which members have the answer now: the delta of a member has the line, none has the opposite, and no member without
/// the line has the answer. It looks through all lines.
pub fn is_reported(deltas: &[Delta], have: &[bool], came: bool, cells: &[u64]) -> bool
    requires { length have.now ≡ length deltas.now }
    ensures { IsTrue result ↔ IsReportedLine deltas.now have.now record { came = came; cells = cells.now } }
{
    let mut found = false;
    for index in 0..deltas.len() {
        if has_line(&deltas[index], !came, cells) {
            return false;
        }
        if has_line(&deltas[index], came, cells) {
            found = true;
        } else if have[index] {
            return false;
        }
    }
    found
}
