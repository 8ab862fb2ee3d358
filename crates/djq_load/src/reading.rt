ghost use Rattle.std.specs.Prelude.{◌≡◌, false};
ghost use Rattle.djq_load.specs.declared.reading.Place.TheVariants.{Front};
ghost use Rattle.djq_load.specs.Replies.{reading, at_line_front, in_other, in_answer, within_text, read_byte};
ghost use Rattle.djq_load.specs.Replies.{read_bytes};

/// The place of a reader in the replies of a session.
#[derive(Clone, Copy, Debug)]
pub(crate) enum Place {
    /// At the front of a line.
    Front,
    /// In a line that is no answer.
    Other,
    /// In an answer, in a number or in front of a value: whether a minus was read, and the number that
    /// the digits read so far make.
    Answer(bool, u64),
    /// Between the quotes of a text.
    Text,
    /// After a backslash.
    Escape,
}

/// What a reader of replies has read.
#[derive(Clone, Copy, Debug)]
pub(crate) struct Reading {
    /// The number of answers.
    pub answers: u64,
    /// What the integers of the answers add up to.
    pub sum: u64,
    /// Whether the last line that is no answer begins with an `e`, as `end` does.
    pub ended: bool,
    /// Its place in the line.
    pub place: Place,
}

impl Reading {
    /// Nothing is read yet.
    pub fn new() -> Reading
        ensures { result ≡ reading 0 0 false Front }
    {
        Reading {
            answers: 0,
            sum: 0,
            ended: false,
            place: Place::Front,
        }
    }

    /// After a byte at the front of a line.
    fn in_front(self, byte: u8) -> Reading
        ensures { result ≡ at_line_front self byte }
    {
        match byte {
            b'=' => Reading {
                answers: self.answers.wrapping_add(1),
                place: Place::Answer(false, 0),
                ..self
            },
            b'\n' => self,
            _ => Reading {
                ended: byte == b'e',
                place: Place::Other,
                ..self
            },
        }
    }

    /// After a byte of a line that is no answer.
    fn in_other(self, byte: u8) -> Reading
        ensures { result ≡ in_other self byte }
    {
        if byte == b'\n' {
            Reading {
                place: Place::Front,
                ..self
            }
        } else {
            self
        }
    }

    /// After a byte of an answer, outside texts.
    fn in_answer(self, below: bool, number: u64, byte: u8) -> Reading
        ensures { result ≡ in_answer self below number byte }
    {
        let whole = if below { number.wrapping_neg() } else { number };
        let place = match byte {
            b' ' => Place::Answer(false, 0),
            b'\n' => Place::Front,
            b'"' => Place::Text,
            b'-' => Place::Answer(true, number),
            _ => {
                let digit = u64::from(byte.saturating_sub(b'0'));
                Place::Answer(below, number.wrapping_mul(10).wrapping_add(digit))
            }
        };
        if byte == b' ' || byte == b'\n' {
            Reading {
                sum: self.sum.wrapping_add(whole),
                place,
                ..self
            }
        } else {
            Reading { place, ..self }
        }
    }

    /// After a byte of a text.
    fn in_text(self, byte: u8) -> Reading
        ensures { result ≡ within_text self byte }
    {
        match byte {
            b'\\' => Reading {
                place: Place::Escape,
                ..self
            },
            b'"' => Reading {
                place: Place::Answer(false, 0),
                ..self
            },
            _ => self,
        }
    }

    /// After a byte.
    fn read_byte(self, byte: u8) -> Reading
        ensures { result ≡ read_byte self byte }
    {
        match self.place {
            Place::Front => self.in_front(byte),
            Place::Other => self.in_other(byte),
            Place::Answer(below, number) => self.in_answer(below, number, byte),
            Place::Text => self.in_text(byte),
            Place::Escape => Reading {
                place: Place::Text,
                ..self
            },
        }
    }

    /// After these bytes.
    pub fn read(self, bytes: &[u8]) -> Reading
        ensures { result ≡ read_bytes self bytes.now }
    {
        let mut reading = self;
        for byte in bytes {
            reading = reading.read_byte(*byte);
        }
        reading
    }
}
