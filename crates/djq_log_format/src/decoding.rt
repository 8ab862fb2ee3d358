ghost use Rattle.std.specs.Prelude.{◌≡◌, ◌*◌, ◌<◌, ℕ, IfSome, IfNone};
ghost use Rattle.std.specs.Int.{from_be_bytes, to_be_bytes, w64};

/// The length that eight bytes store, or `None` if they store none: then the record is damaged.
pub fn decode_length(stored: &[u8; 8]) -> Option<u64>
    ensures some { IfSome result (λ n. from_be_bytes w64 stored.now ≡ n * 257) }
    ensures none { IfNone result ((n : ℕ) → from_be_bytes w64 stored.now ≡ n * 257 → ⊥) }
    ensures encoded { IfSome result (λ n. to_be_bytes w64 (n * 257) ≡ stored.now) }
    ensures short { IfSome result (λ n. n * 257 < 18446744073709551616) }
{
    let number = u64::from_be_bytes(*stored);
    if number % 257 == 0 {
        Some(number / 257)
    } else {
        None
    }
}

/// The digest that eight bytes store.
pub fn decode_digest(stored: &[u8; 8]) -> u64
    ensures encoded { to_be_bytes w64 result ≡ stored.now }
    ensures fits { result < 18446744073709551616 }
{
    u64::from_be_bytes(*stored)
}
