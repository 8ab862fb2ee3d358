ghost use Rattle.std.specs.Prelude.{◌≡◌};
ghost use Rattle.std.specs.Option.{option_copied};
ghost use Rattle.djq_io.specs.SteadyHub.{NeverFails};

use crate::hub::{Hub, Listened, Sent, Told, Turn};
use crate::mem_hub::MemHub;
use std::marker::Model;

/// A hub in memory of which no call is to fail.
///
/// Its counts of faults are 0 and never rise, so that what serves it meets no fault: a hub answers
/// that it failed, or that a session is `Gone`, only if a count rises.
#[derive(Debug, Drop)]
pub struct SteadyHub {
    hub: MemHub,
}

impl Model for SteadyHub {
    ghost use Rattle.djq_io.specs.MemHub.{Recorded};
    ghost use Rattle.djq_io.specs.SteadyHub.{NeverFails};

    ghost Value = { Recorded };

    ghost view = { λ h. h.hub };

    ghost invariant = { λ h. NeverFails h.hub };
}

impl SteadyHub {
    /// This hub.
    pub fn of(hub: MemHub) -> Self
        requires { NeverFails hub }
        ensures { result ≡ hub }
    {
        SteadyHub { hub }
    }

    /// All calls so far with their answers, or `None` after they are lost. No send among them was answered
    /// `Gone`.
    pub fn past(&self) -> Option<&[Told]>
        ensures past { option_copied result ≡ self.now.past }
        ensures steady { NeverFails self.now }
    {
        self.hub.past()
    }
}

impl Hub for SteadyHub {
    ghost use Rattle.std.specs.Prelude.{Some};

    // It is shown even if the record of the past is lost.
    ghost script = { λ h. Some h.script };

    ghost past = { λ h. h.past };

    ghost ids = { λ h. h.ids };

    ghost faults = { λ _. 0 };

    ghost session_faults = { λ _ _. 0 };

    fn listen(&mut self, addr: &str) -> Listened {
        self.hub.listen(addr)
    }

    fn turn(&mut self, buf: &mut [u8]) -> Turn {
        self.hub.turn(buf)
    }

    fn send(&mut self, id: u64, piece: &[u8]) -> Sent {
        self.hub.send(id, piece)
    }

    fn at_hand(&self) -> bool {
        self.hub.at_hand()
    }

    fn is_late(&self) -> bool {
        self.hub.is_late()
    }

    fn close(&mut self, id: u64) {
        self.hub.close(id);
    }
}
