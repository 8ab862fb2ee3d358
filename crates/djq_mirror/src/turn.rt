//! What a line does, by the mode.
ghost use Rattle.std.specs.Prelude.{◌≡◌};
ghost use Rattle.std.specs.Option.{option_map};
ghost use Rattle.djq_mirror.specs.Mirror.{turn_of_change, turn_of_count};
ghost use Rattle.djq_mirror.specs.Reading.{act_by, news_by, turn_by};

use crate::mode::Mode;
use crate::told::Told;
use djq_protocol::Sign;
use djq_value::is_text;

/// What is done to the answers that are held.
#[derive(Clone, Copy, Debug)]
pub(crate) enum Act<'a> {
    // They are left as they are.
    Keep,
    // All are dropped.
    Clear,
    // The answer of this text is inserted.
    Put(&'a [u8]),
    // It is deleted.
    TakeOut(&'a [u8]),
}

/// The mode after a line, and what is done to the answers; none if the line isn't allowed.
pub(crate) fn turn<'a>(name: &[u8], mode: Mode, told: Told<'a>) -> Option<(Mode, Act<'a>)>
    ensures { option_map (λ t. (t.0, act_by t.1)) result ≡ turn_by name.now mode (news_by told.entry) }
{
    match told {
        Told::Opened => Some((Mode::Listing, Act::Clear)),
        Told::Answer(text) => match mode {
            Mode::Idle => Some((Mode::Idle, Act::Keep)),
            Mode::Listing => Some((Mode::Listing, Act::Put(text))),
            Mode::Live => None,
        },
        Told::More => match mode {
            Mode::Idle => Some((Mode::Idle, Act::Keep)),
            Mode::Listing => Some((Mode::Listing, Act::Keep)),
            Mode::Live => None,
        },
        Told::Last => match mode {
            Mode::Idle => Some((Mode::Idle, Act::Keep)),
            Mode::Listing | Mode::Live => Some((Mode::Live, Act::Keep)),
        },
        Told::Stale => Some((Mode::Idle, Act::Keep)),
        Told::Changed(sign, query, text) => {
            if is_text(query, name) {
                Some(changed(mode, sign, text))
            } else {
                Some((mode, Act::Keep))
            }
        }
        Told::Counted(query) => {
            if is_text(query, name) {
                Some(counted(mode))
            } else {
                Some((mode, Act::Keep))
            }
        }
        Told::Nothing => Some((mode, Act::Keep)),
    }
}

/// What an answer of the query does that was added or removed.
fn changed<'a>(mode: Mode, sign: Sign, text: &'a [u8]) -> (Mode, Act<'a>)
    ensures { (result.0, act_by result.1) ≡ turn_of_change mode sign text.now }
{
    match (mode, sign) {
        (Mode::Idle | Mode::Listing, _) => (Mode::Idle, Act::Keep),
        (Mode::Live, Sign::Came) => (Mode::Live, Act::Put(text)),
        (Mode::Live, Sign::Went) => (Mode::Live, Act::TakeOut(text)),
    }
}

/// What the number of a change of the query does.
fn counted<'a>(mode: Mode) -> (Mode, Act<'a>)
    ensures { (result.0, act_by result.1) ≡ turn_of_count mode }
{
    match mode {
        Mode::Idle | Mode::Listing => (Mode::Idle, Act::Keep),
        Mode::Live => (Mode::Live, Act::Keep),
    }
}
