//! Options, from left to right.

ghost use Rattle.std.specs.Prelude.{◌≡◌, ◌≤◌, ◌<◌, length, map, Err, IfOk, option_map, drop, slice_get, Some, true};
ghost use Rattle.std.specs.Option.{option_copied};
ghost use Rattle.std.specs.String.{string_bytes};
ghost use Rattle.jl_logic.specs.Answers.{Gives};
ghost use Rattle.jl_words.specs.Line as line;
ghost use Rattle.jl_words.specs.Reading as reading;
ghost use Rattle.jl_words.specs.Reading.{told};

use crate::fault::{WordFault, missing, repeated};
use crate::given::{Given, is_given, nothing, with_value};
use crate::setting::{Setting, Verb, setting_of};
use crate::texts::parted;
use std::alloc::Global;

/// What the options before the operands say, and the place of the first operand.
pub fn options(alloc: Global, verb: Verb, words: &[String]) -> Result<(Given, usize), WordFault>
    requires { 1 ≤ length words.now }
    ensures exact { Gives told (λ x. x) result (reading.options_from (length words.now) verb (map string_bytes words.now) reading.nothing 1) }
    ensures within { IfOk result (λ x. x.1 ≤ length words.now) }
{
    let mut given = nothing(alloc);
    let mut at = 1;
    for _ in 0..words.len() {
        if !is_option_at(words, at) {
            return Ok((given, at));
        }
        let (more, next) = use_at(alloc, verb, words, given, at)?;
        given = more;
        at = next;
    }
    Ok((given, at))
}

/// The word at a place.
pub fn word_at(words: &[String], at: usize) -> Option<&str>
    ensures { option_copied result ≡ slice_get (map string_bytes words.now) at }
{
    match words.get(at) {
        Some(word) => Some(word.as_str()),
        None => None,
    }
}

fn is_option_at(words: &[String], at: usize) -> bool
    ensures exact { result ≡ reading.is_option (slice_get (map string_bytes words.now) at) }
    ensures within { result ≡ true → at < length words.now }
{
    match word_at(words, at) {
        Some(word) => begins_with_dash(word.as_bytes()),
        None => false,
    }
}

fn begins_with_dash(word: &[u8]) -> bool
    ensures { result ≡ line.begins_with_dash word.now }
{
    match word {
        [first, ..] => *first == b'-',
        [] => false,
    }
}

/// With the option at a place, and the place of the next word.
fn use_at(
    alloc: Global,
    verb: Verb,
    words: &[String],
    given: Given,
    at: usize,
) -> Result<(Given, usize), WordFault>
    requires { at < length words.now }
    ensures exact { Gives told (λ x. x) result (reading.use_of (reading.named_by verb (reading.word_of (slice_get (map string_bytes words.now) at))) (map string_bytes words.now) given at) }
    ensures within { IfOk result (λ x. x.1 ≤ length words.now) }
{
    let Some((setting, joined)) = named_by(verb, words[at].as_str()) else {
        return Err(WordFault::UnknownWord(at));
    };
    if is_given(setting, &given) {
        return repeated(alloc, setting.text());
    }
    valued(alloc, setting, joined, words, given, at)
}

/// The option that a word names, and the value that is joined to it.
fn named_by(verb: Verb, word: &str) -> Option<(Setting, Option<&str>)>
    ensures { option_map (λ x. (x.0, option_copied x.1)) result ≡ reading.named_by verb word.now }
{
    match parted(word, '=') {
        None => fitting(verb, setting_of(word), None),
        Some((text, value)) => fitting(verb, setting_of(text), Some(value)),
    }
}

/// An option of the command, which has a joined value only where it may have one.
fn fitting<'a>(
    verb: Verb,
    setting: Option<Setting>,
    joined: Option<&'a str>,
) -> Option<(Setting, Option<&'a str>)>
    ensures { option_map (λ x. (x.0, option_copied x.1)) result ≡ reading.fitting verb setting (option_copied joined.entry) }
{
    let setting = setting?;
    if verb.has(setting) && !(setting.is_flag() && joined.is_some()) {
        Some((setting, joined))
    } else {
        None
    }
}

/// With the value of the option at a place: the joined one, or else the next word.
fn valued(
    alloc: Global,
    setting: Setting,
    joined: Option<&str>,
    words: &[String],
    given: Given,
    at: usize,
) -> Result<(Given, usize), WordFault>
    requires { at < length words.now }
    ensures exact { Gives told (λ x. x) result (reading.valued setting (option_copied joined.entry) (map string_bytes words.now) given at) }
    ensures within { IfOk result (λ x. x.1 ≤ length words.now) }
{
    if let Some(value) = joined {
        return Ok((with_value(alloc, setting, value, at, given)?, at + 1));
    }
    if setting.is_flag() {
        return Ok((with_value(alloc, setting, "", at, given)?, at + 1));
    }
    let Some(value) = word_at(words, at + 1) else {
        return missing(alloc, setting.text());
    };
    Ok((with_value(alloc, setting, value, at + 1, given)?, at + 2))
}
