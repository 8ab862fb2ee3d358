/// A value whose text is borrowed, so that reading it allocates nothing.
///
/// Contracts see the value that it is by `value_lent` of `specs/ValueRef.antt`.
#[derive(Clone, Copy, Debug)]
pub enum ValueRef<'a> {
    /// A signed integer of 64 bits.
    Int(i64),
    /// The bytes of a text.
    Text(&'a [u8]),
}
