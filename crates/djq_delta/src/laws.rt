//! Laws of settling.
ghost use Rattle.djq_delta.specs.Lines.{SettlingIsNet, SettlingTwiceIsOnce, SettlingShortens};

/// The law of the net: of answers that were added and then answers that were removed, those were added in all that
/// weren't removed, and those removed in all that weren't added.
pub fn settling_is_net()
    ensures { SettlingIsNet }
{}

/// The law that settling twice is settling once.
pub fn settling_twice_is_once()
    ensures { SettlingTwiceIsOnce }
{}

/// The law that settling adds no lines.
pub fn settling_shortens()
    ensures { SettlingShortens }
{}
