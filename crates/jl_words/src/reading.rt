//! Reading the words of a command line.

ghost use Rattle.std.specs.Prelude.{◌≡◌, ◌≤◌, length, List, ℕ, Ok, IfOk, map};
ghost use Rattle.std.specs.String.{string_bytes};
ghost use Rattle.jl_logic.specs.Answers.{Gives};
ghost use Rattle.jl_words.specs.declared.command.Command.{Command as Asked};
ghost use Rattle.jl_words.specs.Line.{IsLine};
ghost use Rattle.jl_words.specs.Reading as reading;
ghost use Rattle.jl_words.specs.Reading.{told, words_read};

use crate::command::Command;
use crate::fault::WordFault;
use crate::given::Given;
use crate::operands::{resolve_at, run_at, sample_at};
use crate::options::options;
use crate::setting::{Verb, verb_of};
use jl_prim::MOST_WORDS;
use std::alloc::Global;

/// The command that the words of a command line are, without the program's own name.
///
/// The first fault from the left is the answer; what is missing comes after the last word. Word 65,536,
/// counted from 0, is one too many.
pub fn read_words(alloc: Global, words: &[String]) -> Result<Command, WordFault>
    // What is read is of the form of a command line.
    ensures found { IfOk result (λ c. IsLine (map string_bytes words.now) c) }
    // What is of the form is read, unless memory runs out.
    ensures only { (c : Asked) → IsLine (map string_bytes words.now) c → Gives told (λ x. x) result (Ok c) }
    // By reading from left to right.
    ensures exact { Gives told (λ x. x) result (words_read (map string_bytes words.now)) }
{
    if words.len() <= MOST_WORDS {
        return line_read(alloc, words);
    }
    past_most(line_read(alloc, &words[..MOST_WORDS]))
}

/// A line of any length.
#[tactic(auto, unfolding(crate::specs::Reading::line_read))]
fn line_read(alloc: Global, words: &[String]) -> Result<Command, WordFault>
    ensures { Gives told (λ c. c) result (reading.line_read (map string_bytes words.now)) }
{
    let [first, ..] = words else {
        return Err(WordFault::NoCommand);
    };
    let Some(verb) = verb_of(first.as_str()) else {
        return Err(WordFault::UnknownWord(0));
    };
    let (given, at) = options(alloc, verb, words)?;
    operands_at(alloc, verb, words, given, at)
}

fn operands_at(
    alloc: Global,
    verb: Verb,
    words: &[String],
    given: Given,
    at: usize,
) -> Result<Command, WordFault>
    requires { at ≤ length words.now }
    ensures { Gives told (λ c. c) result (reading.operands_at verb (map string_bytes words.now) (given, at)) }
{
    match verb {
        Verb::Resolve => resolve_at(alloc, words, given, at),
        Verb::Run => run_at(alloc, words, given, at),
        Verb::Sample => sample_at(alloc, words, at),
    }
}

/// A word too many stands before what is missing.
fn past_most(read: Result<Command, WordFault>) -> Result<Command, WordFault>
    ensures { result ≡ reading.past_most read }
{
    match read {
        Ok(_) => Err(WordFault::UnknownWord(MOST_WORDS)),
        Err(WordFault::Missing(_)) => Err(WordFault::UnknownWord(MOST_WORDS)),
        Err(fault) => Err(fault),
    }
}
