ghost use Rattle.std.specs.Prelude.{◌≡◌, ◌+◌, ◌<◌, ◌≤◌, ◌++◌, length, take, decimal};
ghost use Rattle.djq_load.specs.Load.{change, relation, verb};

use itoa::Buffer;

/// How many bytes a line's buffer has. No line fills it.
pub const LINE_BYTES: usize = 64;

/// Writes a piece of a line after what is there, and returns the end of the piece.
pub(crate) fn put(line: &mut [u8; 64], at: usize, piece: &[u8]) -> usize
    requires { at + length piece.now ≤ 64 }
    ensures end { result ≡ at + length piece.now }
    ensures text { take result line.new ≡ take at line.old ++ piece.now }
{
    let end = at + piece.len();
    line[at..end].copy_from_slice(piece);
    end
}

/// Writes a number of at most five digits after what is there, and returns the end of it.
fn put_number(line: &mut [u8; 64], at: usize, number: u32) -> usize
    requires room { at + 5 ≤ 64 }
    requires short { number < 100000 }
    ensures end { result ≤ at + 5 }
    ensures text { take result line.new ≡ take at line.old ++ decimal number }
{
    let mut buffer = Buffer::new();
    put(line, at, buffer.format(number).as_bytes())
}

/// What a change does, by its first draw.
fn verb(a: u32) -> &'static [u8]
    ensures text { result.now ≡ verb a }
    ensures short { length result.now ≡ 4 }
{
    if a / 2 % 4 == 0 { b"del " } else { b"add " }
}

/// Which relation a change is of, by its first draw.
fn relation(a: u32) -> &'static [u8]
    ensures text { result.now ≡ relation a }
    ensures short { length result.now ≡ 2 }
{
    if a % 2 == 0 { b"r " } else { b"s " }
}

/// Writes the line of a change from its three draws, with so many different values in use.
pub(crate) fn put_change(line: &mut [u8; 64], values: u32, a: u32, b: u32, c: u32) -> usize
    requires some { 0 < values }
    requires few { values ≤ 32768 }
    ensures within { result ≤ 64 }
    ensures text { take result line.new ≡ change values a b c }
{
    let end = put(line, 0, verb(a));
    let end = put(line, end, relation(a));
    let end = put_number(line, end, b % values);
    let end = put(line, end, b" ");
    let end = put_number(line, end, c % values);
    put(line, end, b"\n")
}
