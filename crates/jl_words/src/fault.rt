//! Why words are refused.

ghost use Rattle.std.specs.Prelude.{◌≡◌, Err};
ghost use Rattle.jl_logic.specs.Answers.{Gives};
ghost use Rattle.jl_words.specs.declared.fault.WordFault.TheVariants.{Missing, Repeated, NoMemory};
ghost use Rattle.jl_words.specs.Reading.{told};

use jl_prim::{CopyEnd, Name, PushEnd};
use std::alloc::{AllocError, Global};

/// Why the words of a command line are refused: the first fault from the left, where what is missing comes
/// after the last word. Words are numbered from 0.
#[derive(Debug, PartialEq, Drop)]
pub enum WordFault {
    /// There are no words.
    NoCommand,
    /// The word with this number is no command or no option, or is one too many.
    UnknownWord(usize),
    /// This operand, or the value of this option, is not there.
    Missing(Name),
    /// This option stands twice.
    Repeated(Name),
    /// The word with this number should hold a number.
    BadNumber(usize),
    /// The word with this number should hold a name or names of another form.
    BadTarget(usize),
    /// The words are well-formed, and ask for what is not there yet.
    NotBuilt,
    /// There was no memory for the command.
    NoMemory,
}

impl From<AllocError> for WordFault {
    ghost from_gives = { λ _ e. e ≡ NoMemory };

    fn from(_e: AllocError) -> WordFault {
        WordFault::NoMemory
    }
}

impl From<CopyEnd> for WordFault {
    ghost from_gives = { λ _ e. e ≡ NoMemory };

    fn from(_e: CopyEnd) -> WordFault {
        WordFault::NoMemory
    }
}

impl From<PushEnd> for WordFault {
    ghost from_gives = { λ _ e. e ≡ NoMemory };

    fn from(_e: PushEnd) -> WordFault {
        WordFault::NoMemory
    }
}

/// The fault of an operand or a value that is not there.
pub fn missing<T>(alloc: Global, what: &str) -> Result<T, WordFault>
    ensures { Gives told (λ x. x) result (Err (Missing what.now)) }
{
    Err(WordFault::Missing(Name::from_text(alloc, what)?))
}

/// The fault of an option that stands twice.
pub fn repeated<T>(alloc: Global, option: &str) -> Result<T, WordFault>
    ensures { Gives told (λ x. x) result (Err (Repeated option.now)) }
{
    Err(WordFault::Repeated(Name::from_text(alloc, option)?))
}
