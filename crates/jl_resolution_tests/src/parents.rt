//! Tests of resolution over several parents.

use crate::config::{fault_shown, found, names_of};
use jl_config::{Configuration, Read, ResolveFault, resolve};
use jl_making::{same, words_in};
use jl_prim::{ConfigId, Found, Items, Name};
use std::alloc::{AllocError, Global};
use std::test::*;

/// The numbers of a text.
fn numbers_in(alloc: Global, text: &str) -> Result<Vec<ConfigId>, Fail> {
    let mut numbers = Vec::new(alloc);
    for number in text.trim().split(' ') {
        numbers.push(ConfigId(number.parse()?))?;
    }
    Ok(numbers)
}

/// What comes of a finder's modules over known configurations, with all services bound.
fn over_known(
    alloc: Global,
    known: &[Configuration],
    parents: &str,
    modules: &Found,
    roots: &[Name],
) -> Result<Result<Configuration, ResolveFault>, Fail> {
    if known.len() > 4096 {
        return Err(Fail::new("too many to be known"));
    }
    let parents = numbers_in(alloc, parents)?;
    let nothing = found(alloc, "")?;
    let parents = parents.as_slice();
    Ok(resolve(alloc, known, modules, parents, &nothing, roots, true))
}

/// The configurations of a text, with `+` between them. Each has its parents before the colon, and all its modules.
fn known_in(alloc: Global, text: &str) -> Result<Vec<Configuration>, Fail> {
    let mut known = Vec::new(alloc);
    for part in text.split('+') {
        let (parents, modules) = part.split_once(':').ok_or("parents")?;
        let modules = found(alloc, modules.trim())?;
        let roots = names_of(alloc, &modules)?;
        known.push(over_known(alloc, known.as_slice(), parents, &modules, roots.as_slice())??)?;
    }
    Ok(known)
}

/// Who reads whom, with the number of the configuration.
fn reads_shown(alloc: Global, cf: &Configuration) -> Result<String, AllocError> {
    let mut shown = String::new(alloc);
    for read in cf.reads() {
        let (reader, name, number) = (&read.reader, &read.name, read.config.0);
        let line = format!(in alloc; "{reader} {name}@{number};")?;
        shown.push_str(line.as_str())?;
    }
    Ok(shown)
}

/// What comes of a case: the configurations that are known, the parents, the before finder and the roots.
fn resolved_over(alloc: Global, case: [&str; 4]) -> Result<String, Fail> {
    let [known, parents, before, roots] = case;
    let known = known_in(alloc, known)?;
    let before = found(alloc, before)?;
    let roots = words_in(alloc, roots)?;
    let answer = over_known(alloc, known.as_slice(), parents, &before, roots.as_slice())?;
    Ok(match answer {
        Ok(cf) => reads_shown(alloc, &cf)?,
        Err(fault) => fault_shown(alloc, &fault)?,
    })
}

/// Two configurations with a module x each, which y1 and y2 pass on.
const TWO: &str =
    "0: module x | module y1; requires transitive x + 0: module x | module y2; requires transitive x";

/// Known configurations, the numbers of the parents, what the before finder has, the roots, the answer.
const SEVERAL: [[&str; 5]; 14] = [
    [
        TWO,
        "1 2",
        "module r; requires y1; requires y2",
        "r",
        "SameName r x",
    ],
    [TWO, "1 2", "module r; requires x", "r", "r r@3;r x@1;"],
    [TWO, "2 1", "module r; requires x", "r", "r r@3;r x@2;"],
    [
        TWO,
        "1 2",
        "module r; requires y2",
        "r",
        "r r@3;r x@2;r y2@2;",
    ],
    [
        TWO,
        "1 2",
        "module r; requires x; requires y2",
        "r",
        "SameName r x",
    ],
    [TWO, "1 2", "module x", "x", "x x@3;"],
    [
        TWO,
        "2 1",
        "module x | module r; requires static x",
        "r",
        "r r@3;r x@2;",
    ],
    [
        "0: module x + 1: module a; requires transitive x + 1: module b; requires transitive x",
        "2 3",
        "module r; requires a; requires b",
        "r",
        "r a@2;r b@3;r r@4;r x@1;",
    ],
    [
        "0: module x + 0: module x + 1: module a",
        "3 2",
        "module r; requires x",
        "r",
        "r r@4;r x@1;",
    ],
    [
        "0: module x + 1: module a + 0: module x",
        "2 3 1",
        "module r; requires x",
        "r",
        "r r@4;r x@1;",
    ],
    [
        "0: module x + 0: module x",
        "2 1 2",
        "module r; requires x",
        "r",
        "r r@3;r x@2;",
    ],
    [
        "0: module x",
        "0 1",
        "module r; requires x",
        "r",
        "r r@2;r x@1;",
    ],
    [
        "0: module x + 0: module z",
        "1 2",
        "module r; requires x; requires z",
        "r",
        "r r@3;r x@1;r z@2;",
    ],
    [
        "0: module a + 0: module s; exports s; packages s | module h; requires s; uses s/S",
        "1 2",
        "module q; requires s; provides s/S",
        "",
        "q q@3;q s@2;",
    ],
];

/// Each case, whose answer stands behind it, comes out so.
fn all_come_over(alloc: Global, rows: &[[&str; 5]]) -> Result<(), Fail> {
    for [known, parents, before, roots, want] in rows {
        let got = resolved_over(alloc, [*known, *parents, *before, *roots])?;
        same(got.as_str(), want)?;
    }
    Ok(())
}

#[test]
fn several_parents(rt: HostRuntime) -> Result<(), Fail> {
    all_come_over(rt.alloc(), SEVERAL.as_slice())
}

/// Configurations each of which has the two before it as parents.
fn ladder(alloc: Global, count: u32) -> Result<Vec<Configuration>, Fail> {
    let mut known = Vec::new(alloc);
    for number in 1..=count {
        let parents = [ConfigId(number - 1), ConfigId(number.saturating_sub(2))];
        known.push(Configuration::from_parts(
            ConfigId(number),
            Items::from_vec(parents.to_vec(alloc)?),
            Items::new(alloc),
            Items::new(alloc),
        ))?;
    }
    Ok(known)
}

/// A walk that took each way up would not end.
#[test]
fn each_ancestor_is_taken_once(rt: HostRuntime) -> Result<(), Fail> {
    let alloc = rt.alloc();
    let known = ladder(alloc, 4095)?;
    let nothing = found(alloc, "")?;
    let answer = over_known(alloc, known.as_slice(), "4095 4094", &nothing, &[])?;
    assert_eq!(rt; answer.map(|cf| cf.reads().len()), Ok(0));
    Ok(())
}
