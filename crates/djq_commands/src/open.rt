use djq_model::Name;
use djq_session::Session;
use djq_store::CursorId;

/// An open session over the store's cursors and queries.
#[derive(Drop)]
pub struct OpenSession {
    pub id: u64,
    pub session: Session<CursorId, Name>,
}
