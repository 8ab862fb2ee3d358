ghost use Rattle.std.specs.Prelude.{◌≡◌, ℕ, List};
ghost use Rattle.std.specs.List.{fold};
ghost use Rattle.djq_log_format.specs.Digest.{halves_exchanged, carried, chained, begun, absorbed, finished};

use std::marker::Model;

/// The multiplier of a step: odd, so that a step is one to one.
const STEP: u64 = 6364136223846793005;

/// A number with its upper half and its lower half exchanged.
fn exchange_halves(number: u64) -> u64
    ensures { result ≡ halves_exchanged number }
{
    number % 4_294_967_296 * 4_294_967_296 + number / 4_294_967_296
}

/// A digest carried on over a word.
fn carry(digest: u64, word: u64) -> u64
    ensures { result ≡ carried digest word }
{
    exchange_halves(digest.wrapping_mul(STEP).wrapping_add(word))
}

/// A digest in progress, over bytes that arrive in pieces.
#[derive(Debug, Drop)]
pub struct Digest {
    digest: u64,
    pending: [u8; 8],
    filled: usize,
}

impl Model for Digest {
    ghost use Rattle.std.specs.Prelude.{◌≡◌, ◌-◌, ◌<◌, ◌++◌, take, replicate};
    ghost use Rattle.djq_log_format.specs.Digest.{Digesting};

    ghost Value = { Digesting };

    ghost view = { λ d. record { digest = d.digest; pending = take d.filled d.pending } };

    // After the bytes that are pending there are zeros.
    ghost invariant = { λ d. (d.filled < 8) × (d.pending ≡ take d.filled d.pending ++ replicate (8 - d.filled) 0) };
}

impl Digest {
    /// A digest on its way from this one, over no bytes.
    pub fn new(digest: u64) -> Self
        ensures { result ≡ begun digest }
    {
        Digest {
            digest,
            pending: [0; 8],
            filled: 0,
        }
    }

    /// Absorbs one byte more.
    fn push(&mut self, byte: u8)
        ensures { self.new ≡ absorbed self.old byte }
    {
        self.pending[self.filled] = byte;
        self.filled += 1;
        if self.filled == 8 {
            self.digest = carry(self.digest, u64::from_be_bytes(self.pending));
            self.pending = [0; 8];
            self.filled = 0;
        }
    }

    /// Absorbs a piece more, of any length.
    pub fn update(&mut self, piece: &[u8])
        ensures { self.new ≡ fold absorbed self.old piece.now }
    {
        for byte in piece {
            self.push(*byte);
        }
    }

    /// The digest of all bytes so far.
    pub fn finish(&self) -> u64
        ensures { result ≡ finished self.now }
    {
        if self.filled == 0 {
            self.digest
        } else {
            carry(self.digest, u64::from_be_bytes(self.pending))
        }
    }
}
