ghost use Rattle.std.specs.Prelude.{◌≡◌, ◌<◌, length};
ghost use Rattle.djq_gains.specs.Gathered.{in_no_delta, also_in};

/// Of a tuple, in which of up to eight deltas it occurs, and with which signs.
#[derive(Clone, Copy)]
pub struct Marks {
    // by delta
    pub stands: [bool; 8],
    // in one of them as inserted
    pub came: bool,
    // in one of them as deleted
    pub went: bool,
}

impl Marks {
    /// In no delta.
    pub fn none() -> Marks
        ensures { result ≡ in_no_delta }
    {
        Marks {
            stands: [false; 8],
            came: false,
            went: false,
        }
    }

    /// In the nth delta too, as one that was added, or removed.
    pub fn set(&mut self, nth: usize, came: bool)
        requires { nth < 8 }
        ensures set { self.new ≡ also_in nth came self.old }
        ensures eight { length self.old.stands ≡ 8 }
    {
        self.stands[nth] = true;
        if came {
            self.came = true;
        } else {
            self.went = true;
        }
    }
}
