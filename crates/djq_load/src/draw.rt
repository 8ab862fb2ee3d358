ghost use Rattle.std.specs.Prelude.{◌≡◌, ◌<◌};
ghost use Rattle.djq_load.specs.Draws.{drawn, next};

/// The state after a draw.
pub(crate) fn next(state: u32) -> u32
    ensures { result ≡ next state }
{
    ((u64::from(state) * 1_103_515_245 + 12345) % 2_147_483_648) as u32
}

/// The number that is drawn with a state: all but its sixteen lowest bits.
pub(crate) fn drawn(state: u32) -> u32
    ensures { result ≡ drawn state }
{
    state / 65536
}
