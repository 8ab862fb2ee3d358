ghost use Rattle.std.specs.Prelude.{◌≡◌};
ghost use Rattle.djq_parser.specs.Refusing.{earlier_of, line_refusal_of};

use djq_model::NoMem;
use djq_value::LiteralRefusal;
use thiserror::Error;

/// Why a line is no command.
#[derive(Clone, Copy, Debug, PartialEq, Eq, Error)]
pub enum LineRefusal {
    /// The line is in no form of the grammar.
    #[error("syntax")]
    Syntax,
    /// A literal of the line is past its limit.
    #[error("a literal past its limit")]
    Range,
    /// Out of memory.
    #[error("out of memory")]
    NoMem,
}

impl LineRefusal {
    /// The one that is first in the order of refusals.
    pub(crate) fn first(self, other: Self) -> Self
        ensures { result ≡ earlier_of self other }
    {
        match (self, other) {
            (LineRefusal::Syntax, _) | (_, LineRefusal::Syntax) => LineRefusal::Syntax,
            (LineRefusal::Range, _) | (_, LineRefusal::Range) => LineRefusal::Range,
            (LineRefusal::NoMem, LineRefusal::NoMem) => LineRefusal::NoMem,
        }
    }
}

impl From<NoMem> for LineRefusal {
    ghost use Rattle.djq_parser.specs.declared.refusal.LineRefusal.TheVariants.{NoMem as NoMemRefusal};
    ghost use Rattle.std.specs.Prelude.{◌≡◌};

    ghost from_gives = { λ _ r. r ≡ NoMemRefusal };

    fn from(_out_of_memory: NoMem) -> Self {
        LineRefusal::NoMem
    }
}

impl From<LiteralRefusal> for LineRefusal {
    ghost use Rattle.djq_parser.specs.Refusing.{line_refusal_of};
    ghost use Rattle.std.specs.Prelude.{◌≡◌};

    ghost from_gives = { λ e r. r ≡ line_refusal_of e };

    fn from(refusal: LiteralRefusal) -> Self {
        match refusal {
            LiteralRefusal::Syntax => LineRefusal::Syntax,
            LiteralRefusal::Range => LineRefusal::Range,
            LiteralRefusal::NoMem => LineRefusal::NoMem,
        }
    }
}
