//! Operands.

ghost use Rattle.std.specs.Prelude.{◌≡◌, ◌≤◌, ◌<◌, length, map, ◌+◌, IfOk, IfSome, drop, slice_get, position, not};
ghost use Rattle.std.specs.Option.{option_copied};
ghost use Rattle.std.specs.String.{string_bytes};
ghost use Rattle.jl_logic.specs.Answers.{Gives};
ghost use Rattle.jl_prim.specs.Names.{names_a_module};
ghost use Rattle.jl_words.specs.Reading as reading;
ghost use Rattle.jl_words.specs.Reading.{told};

use crate::command::{Command, RunWords};
use crate::fault::{WordFault, missing};
use crate::given::Given;
use crate::options::word_at;
use crate::targets::target_of;
use crate::texts::number_of;
use jl_prim::{CopyEnd, Items, Name, USUAL_STEPS, is_module_name};
use std::alloc::Global;

/// The roots from a place on.
#[tactic(auto, unfolding(crate::specs::Reading::resolve_at))]
pub fn resolve_at(
    alloc: Global,
    words: &[String],
    given: Given,
    at: usize,
) -> Result<Command, WordFault>
    requires { at ≤ length words.now }
    ensures { Gives told (λ c. c) result (reading.resolve_at (map string_bytes words.now) given at) }
{
    if at >= words.len() {
        return missing(alloc, "ROOT");
    }
    if let Some(before) = first_no_module(words, at) {
        return Err(WordFault::BadTarget(at + before));
    }
    let roots = names_from(alloc, words, at)?;
    Ok(Command::Resolve {
        elements: or_none(alloc, given.elements),
        add: given.add,
        roots,
    })
}

/// How many words from a place on name a module before the first that does not.
fn first_no_module(words: &[String], at: usize) -> Option<usize>
    requires { at ≤ length words.now }
    ensures exact { result ≡ position (λ n. not (names_a_module n)) (drop at (map string_bytes words.now)) }
    ensures within { IfSome result (λ k. at + k < length words.now) }
{
    place_of_no_module(&words[at..])
}

fn place_of_no_module(words: &[String]) -> Option<usize>
    ensures exact { result ≡ position (λ w. not (names_a_module (string_bytes w))) words.now }
    ensures within { IfSome result (λ k. k < length words.now) }
{
    words
        .iter()
        .position(|word| !is_module_name(word.as_bytes()))
}

/// The words from a place on, as names.
fn names_from(alloc: Global, words: &[String], at: usize) -> Result<Items<Name>, CopyEnd>
    requires { at ≤ length words.now }
    ensures { IfOk result (λ names. names ≡ drop at (map string_bytes words.now)) }
{
    names_of(alloc, &words[at..])
}

fn names_of(alloc: Global, words: &[String]) -> Result<Items<Name>, CopyEnd>
    ensures { IfOk result (λ names. names ≡ map string_bytes words.now) }
{
    let mut names = Vec::with_capacity(alloc, words.len())?;
    for word in words {
        names.push(Name::from_text(alloc, word.as_str())?)?;
    }
    Ok(Items::from_vec(names))
}

fn or_none(alloc: Global, elements: Option<Items<Name>>) -> Items<Name>
    ensures { result ≡ reading.or_none elements }
{
    match elements {
        Some(elements) => elements,
        None => Items::new(alloc),
    }
}

fn or_usual(steps: Option<u64>) -> u64
    ensures { result ≡ reading.or_usual steps }
{
    match steps {
        Some(steps) => steps,
        None => USUAL_STEPS,
    }
}

/// The target at a place, and the program's own arguments behind it.
#[tactic(auto, unfolding(crate::specs::Reading::run_at))]
pub fn run_at(
    alloc: Global,
    words: &[String],
    given: Given,
    at: usize,
) -> Result<Command, WordFault>
    requires { at ≤ length words.now }
    ensures { Gives told (λ c. c) result (reading.run_at (map string_bytes words.now) given at) }
{
    let Some(word) = word_at(words, at) else {
        return missing(alloc, "MODULE/CLASS");
    };
    let Some((main_module, main_class)) = target_of(alloc, word)? else {
        return Err(WordFault::BadTarget(at));
    };
    let args = names_from(alloc, words, at + 1)?;
    Ok(Command::Run(RunWords {
        elements: or_none(alloc, given.elements),
        add: given.add,
        added: given.added,
        steps: or_usual(given.steps),
        report: given.report,
        main_module,
        main_class,
        args,
    }))
}

/// The two numbers from a place on.
#[tactic(auto, unfolding(crate::specs::Reading::sample_at))]
pub fn sample_at(alloc: Global, words: &[String], at: usize) -> Result<Command, WordFault>
    requires { at ≤ length words.now }
    ensures { Gives told (λ c. c) result (reading.sample_at (map string_bytes words.now) at) }
{
    let n = number_at(alloc, words, at, "N")?;
    if n < 1 || n > 1_000 {
        return Err(WordFault::BadNumber(at));
    }
    let bound = number_at(alloc, words, at + 1, "BOUND")?;
    if at + 2 < words.len() {
        return Err(WordFault::UnknownWord(at + 2));
    }
    Ok(Command::Sample { n: n as u32, bound })
}

/// The number at a place.
fn number_at(alloc: Global, words: &[String], at: usize, what: &str) -> Result<u64, WordFault>
    ensures { Gives told (λ n. n) result (reading.number_or what.now (slice_get (map string_bytes words.now) at) at) }
{
    let Some(word) = word_at(words, at) else {
        return missing(alloc, what);
    };
    match number_of(word.as_bytes()) {
        Some(n) => Ok(n),
        None => Err(WordFault::BadNumber(at)),
    }
}
