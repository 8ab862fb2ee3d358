ghost use Rattle.std.specs.Prelude.{IfOk};
ghost use Rattle.djq_session.specs.Dialog.{IsNewDialog};

use crate::named::NamedCursor;
use bytes::BytesMut;
use djq_model::NoMem;
use djq_parser::Front;
use djq_protocol::EndCause;
use djq_transaction::Transaction;
use std::alloc::Global;
use std::marker::Model;

mod batch;
mod commit;
mod cursors;
mod end;
mod input;
mod output;
mod replies;
mod watches;

/// A buffer above this size that is empty is given back.
const IDLE_BYTES: usize = 16_384;

/// What a session begins with: room for its last line, and for so many short replies before it that
/// room is made new for one in hundreds alone.
const OUTPUT_BYTES: usize = 4_096;

/// The state of a session. `C` is stored for each of its cursors, and `Q` names a query that it
/// watches. Contracts see a record, `Dialog`.
#[derive(Drop)]
pub struct Session<C, Q> {
    input: BytesMut,
    // the front of the input: it is searched for once for each line, and not at each call
    front: Front,
    output: BytesMut,
    // how many bytes of the output were sent so far, modulo 2^64
    taken: u64,
    // the commit that was begun last, and how many bytes had been queued by then, modulo 2^64
    commit: u64,
    queued_before: u64,
    cause: Option<EndCause>,
    cursors: Vec<NamedCursor<C>>,
    watches: Vec<Q>,
    // the lines that its batch holds, if one is open
    batch: Option<Transaction>,
    alloc: Global,
}

impl<C, Q> Model for Session<C, Q> {
    ghost use Rattle.djq_parser.specs.Splitting.{IsFront};
    ghost use Rattle.djq_session.specs.Dialog.{Dialog, DialogIsKept};

    ghost Value = { Dialog C Q };

    ghost view = { λ s. record {
      held = s.input.items;
      pending = s.output.items;
      room = s.output.spare;
      cause = s.cause;
      cursors = s.cursors.items;
      watches = s.watches.items;
      batch = s.batch;
    } };

    ghost invariant = { λ s. DialogIsKept s.cause s.output.spare s.cursors.items × IsFront s.input.items s.front };
}

impl<C: Copy, Q: Copy + PartialEq> Session<C, Q> {
    /// A session as it opens. It allocates a first buffer of output, in which its last line has
    /// room.
    ///
    /// # Errors
    ///
    /// `NoMem` out of memory.
    pub fn new(alloc: Global) -> Result<Self, NoMem>
        ensures { IfOk result IsNewDialog }
    {
        Ok(Session {
            input: BytesMut::new(alloc),
            front: Front::Dry,
            output: BytesMut::with_capacity(alloc, OUTPUT_BYTES)?,
            taken: 0,
            commit: 0,
            queued_before: 0,
            cause: None,
            cursors: Vec::new(alloc),
            watches: Vec::new(alloc),
            batch: None,
            alloc,
        })
    }
}
