//! What the words of a command line ask of `resolve`.

ghost use Rattle.std.specs.Prelude.{◌≡◌, ◌++◌, map, Ok, Err, IfOk};
ghost use Rattle.std.specs.String.{string_bytes};
ghost use Rattle.jl_logic.specs.Answers.{Gives};
ghost use Rattle.jl_words.specs.Reading.{told};
ghost use Rattle.jl_launch.specs.Words as wanted;
ghost use Rattle.jl_launch.specs.Words.{words_of, IsOther};

use jl_prim::{CopyEnd, Items, Name};
use jl_words::{Command, WordFault, read_words};
use std::alloc::Global;

/// What `resolve` is asked: where the modules are, and which are the roots, those that are added behind
/// the others.
#[derive(Debug, Drop)]
pub struct Asked {
    pub elements: Items<Name>,
    pub roots: Items<Name>,
}

/// What the words ask. `NotBuilt` comes for the other commands.
pub fn asked_by(alloc: Global, words: &[String]) -> Result<Asked, WordFault>
    ensures { Gives told (λ asked. asked) result (words_of (map string_bytes words.now)) }
{
    asked_of(read_words(alloc, words)?)
}

/// What a command asks. No command but `resolve` takes memory.
fn asked_of(command: Command) -> Result<Asked, WordFault>
    ensures asks { Gives told (λ asked. asked) result (wanted.asked_of (Ok command)) }
    ensures others { IsOther command → result ≡ Err WordFault.NotBuilt }
{
    match command {
        Command::Resolve {
            elements,
            add,
            roots,
        } => Ok(Asked {
            elements,
            roots: joined(roots, add)?,
        }),
        Command::Run(_) | Command::Sample { .. } => Err(WordFault::NotBuilt),
    }
}

fn joined(roots: Items<Name>, add: Items<Name>) -> Result<Items<Name>, CopyEnd>
    ensures { IfOk result (λ all. all ≡ roots ++ add) }
{
    let mut all = roots.into_vec();
    for name in add.into_vec() {
        all.push(name)?;
    }
    Ok(Items::from_vec(all))
}
