ghost use Rattle.std.specs.Prelude.{◌≡◌, ◌<◌, [], ◌∷◌, ◌++◌, OnOk, OnErr};
ghost use Rattle.djq_io.specs.Failing.{is_failing, after_call, CountsDown};
ghost use Rattle.djq_io.specs.FailingSends.{is_send_due, one_after_send, after_send, CountsSends};

use std::alloc::{AllocError, Global};
use std::marker::Model;

/// The calls of an object that are to fail, each as the number of calls until it.
///
/// The next call has number 1. A call that has failed remains, with number 0, so that the list is
/// the object's count of faults too.
#[derive(Debug, Drop)]
pub struct Failing {
    calls: Vec<u64>,
}

impl Model for Failing {
    ghost use Rattle.std.specs.Prelude.{ℕ, List};

    ghost Value = { List ℕ };

    ghost view = { λ f. f.calls.items };
}

impl Failing {
    /// No call is to fail.
    pub fn new(alloc: Global) -> Self
        ensures { result ≡ [] }
    {
        Failing {
            calls: Vec::new(alloc),
        }
    }

    /// Adds a further call that is to fail.
    pub fn push(&mut self, call: u64) -> Result<(), AllocError>
        requires { 0 < call }
        ensures ok { OnOk result (self.new ≡ self.old ++ call ∷ []) }
        ensures err { OnErr result (self.new ≡ self.old) }
    {
        self.calls.push(call)?;
        Ok(())
    }

    /// Counts a call. Returns whether it is to fail.
    pub fn count_down(&mut self) -> bool
        ensures due { result ≡ is_failing self.old }
        ensures counted { self.new ≡ after_call self.old }
        ensures faults { CountsDown result self.old self.new }
    {
        let due = self.calls.contains(&1);
        for call in self.calls.iter_mut() {
            *call = call.saturating_sub(1);
        }
        due
    }
}

/// A send that is to fail: to which session, and as which of the sends to it from now on, or 0 if
/// it has failed.
#[derive(Clone, Copy, Debug, Drop)]
pub struct FailingSend {
    pub id: u64,
    pub send: u64,
}

impl FailingSend {
    /// The same after a send to this session.
    fn after_send(self, id: u64) -> Self
        ensures { result ≡ one_after_send id self }
    {
        if self.id == id {
            FailingSend {
                id,
                send: self.send.saturating_sub(1),
            }
        } else {
            self
        }
    }
}

/// The sends of a hub that are to fail. One that has failed remains, as in [`Failing`].
#[derive(Debug, Drop)]
pub(crate) struct FailingSends {
    sends: Vec<FailingSend>,
}

impl Model for FailingSends {
    ghost use Rattle.std.specs.Prelude.{List};
    ghost use Rattle.djq_io.specs.declared.failing.FailingSend.{FailingSend};

    ghost Value = { List FailingSend };

    ghost view = { λ f. f.sends.items };
}

impl FailingSends {
    /// No send is to fail.
    pub(crate) fn new(alloc: Global) -> Self
        ensures { result ≡ [] }
    {
        FailingSends {
            sends: Vec::new(alloc),
        }
    }

    /// Adds a further send that is to fail.
    pub(crate) fn push(&mut self, send: FailingSend) -> Result<(), AllocError>
        ensures ok { OnOk result (self.new ≡ self.old ++ send ∷ []) }
        ensures err { OnErr result (self.new ≡ self.old) }
    {
        self.sends.push(send)?;
        Ok(())
    }

    /// Counts a send to this session. Returns whether it is to fail.
    pub(crate) fn count_down(&mut self, id: u64) -> bool
        ensures due { result ≡ is_send_due id self.old }
        ensures counted { self.new ≡ after_send id self.old }
        ensures faults { CountsSends result id self.old self.new }
    {
        let due = self.sends.iter().any(|f| f.id == id && f.send == 1);
        for f in self.sends.iter_mut() {
            *f = f.after_send(id);
        }
        due
    }
}
