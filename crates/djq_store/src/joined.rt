use djq_enumeration::DeltaLog;
use djq_united::LiveUnion;

/// A registered union.
#[derive(Drop)]
pub struct Joined {
    /// Its members, and its cursors.
    pub union: LiveUnion,
    /// How many sessions watch it.
    pub watchers: u32,
    /// How its answers changed last, while it was watched.
    pub log: DeltaLog,
}
