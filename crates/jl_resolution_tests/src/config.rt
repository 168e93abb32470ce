//! Tests of jl_config.

use jl_config::{
    Configuration, Read, ResolveFault, refuses_where_one_holds, resolve, resolves_always,
    resolves_once,
};
use jl_making::{declaration, same, words_in};
use jl_prim::{ConfigId, Copied, Found, Items, Name, Observed};
use std::alloc::{AllocError, Global};
use std::test::*;

/// The modules of a text, with `|` between them. No text, no module.
pub(crate) fn found(alloc: Global, text: &str) -> Result<Found, Fail> {
    let mut modules = Items::new(alloc);
    if !text.is_empty() {
        for statements in text.split('|') {
            modules.push(observed(alloc, statements.trim())?)?;
        }
    }
    Ok(Found { modules })
}

fn observed(alloc: Global, statements: &str) -> Result<Observed, Fail> {
    Ok(Observed {
        declaration: declaration(alloc, statements)?,
        place: Name::from_text(alloc, "m")?,
    })
}

pub(crate) fn names_of(alloc: Global, found: &Found) -> Result<Vec<Name>, Fail> {
    let mut all = Vec::new(alloc);
    for o in found.modules.as_slice() {
        all.push(o.declaration.name.copy()?)?;
    }
    Ok(all)
}

// ---- answers as texts

fn push_reads_of(shown: &mut String, reader: &Name, reads: &[Read]) -> Result<(), AllocError> {
    for read in reads {
        if read.reader == *reader {
            shown.push_str(" ")?;
            shown.push_str(read.name.as_str())?;
        }
    }
    Ok(())
}

/// Each module with what it reads.
fn configuration_shown(alloc: Global, cf: &Configuration) -> Result<String, AllocError> {
    let mut shown = String::new(alloc);
    for o in cf.modules() {
        shown.push_str(o.declaration.name.as_str())?;
        shown.push_str(":")?;
        push_reads_of(&mut shown, &o.declaration.name, cf.reads())?;
        shown.push_str(";")?;
    }
    Ok(shown)
}

pub(crate) fn fault_shown(alloc: Global, fault: &ResolveFault) -> Result<String, AllocError> {
    match fault {
        ResolveFault::NoParents => String::from_str(alloc, "NoParents"),
        ResolveFault::NotFound { name, by: None } => format!(in alloc; "NotFound {name} -"),
        ResolveFault::NotFound { name, by: Some(by) } => format!(in alloc; "NotFound {name} {by}"),
        ResolveFault::TooMany => String::from_str(alloc, "TooMany"),
        ResolveFault::Cycle { least } => format!(in alloc; "Cycle {least}"),
        ResolveFault::SameName { reader, name } => format!(in alloc; "SameName {reader} {name}"),
        ResolveFault::SamePackage {
            reader,
            package,
            one,
            other,
        } => format!(in alloc; "SamePackage {reader} {package} {one} {other}"),
        ResolveFault::OwnPackage {
            reader,
            package,
            other,
        } => format!(in alloc; "OwnPackage {reader} {package} {other}"),
        ResolveFault::ServicePackage { module, service } => {
            format!(in alloc; "ServicePackage {module} {service}")
        }
        ResolveFault::NoMemory => String::from_str(alloc, "NoMemory"),
    }
}

fn shown(alloc: Global, answer: Result<Configuration, ResolveFault>) -> Result<String, AllocError> {
    match answer {
        Ok(cf) => configuration_shown(alloc, &cf),
        Err(fault) => fault_shown(alloc, &fault),
    }
}

/// The parent, which has all modules of a text.
fn parent_of(alloc: Global, text: &str) -> Result<Configuration, Fail> {
    let nothing = found(alloc, "")?;
    let modules = found(alloc, text)?;
    let roots = names_of(alloc, &modules)?;
    let empty = [ConfigId(0)];
    let cf = resolve(
        alloc,
        &[],
        &modules,
        empty.as_slice(),
        &nothing,
        roots.as_slice(),
        false,
    )?;
    Ok(cf)
}

/// What comes of a case: the modules of the parent (`-`: there is none), of the two finders, and the roots.
fn resolved(alloc: Global, case: [&str; 4], binds: bool) -> Result<String, Fail> {
    let [parent, before, after, roots] = case;
    let before = found(alloc, before)?;
    let after = found(alloc, after)?;
    let roots = words_in(alloc, roots)?;
    resolved_below(alloc, parent, [&before, &after], roots.as_slice(), binds)
}

/// Likewise, with what the two finders have.
fn resolved_below(
    alloc: Global,
    parent: &str,
    finders: [&Found; 2],
    roots: &[Name],
    binds: bool,
) -> Result<String, Fail> {
    let [before, after] = finders;
    let answer = if parent == "-" {
        resolve(alloc, &[], before, &[], after, roots, binds)
    } else if parent.is_empty() {
        resolve(alloc, &[], before, &[ConfigId(0)], after, roots, binds)
    } else {
        let known = [parent_of(alloc, parent)?];
        resolve(alloc, &known, before, &[ConfigId(1)], after, roots, binds)
    };
    Ok(shown(alloc, answer)?)
}

/// Each case, whose answer stands behind it, comes out so.
fn all_come(alloc: Global, rows: &[[&str; 5]], binds: bool) -> Result<(), Fail> {
    for [parent, before, after, roots, want] in rows {
        let got = resolved(alloc, [*parent, *before, *after, *roots], binds)?;
        same(got.as_str(), want)?;
    }
    Ok(())
}

// ---- cases: the parent, the two finders, the roots, the answer

/// A parent in which y passes x on.
const ABOVE: &str =
    "module java.base | module x; requires java.base | module y; requires transitive x; requires java.base";

/// Who reads whom.
const READS: [[&str; 5]; 13] = [
    [
        "",
        "",
        "module a; requires b; requires java.base | module b; requires transitive c; requires java.base | module c; requires java.base | module java.base",
        "a",
        "a: a b c java.base;b: b c java.base;c: c java.base;java.base: java.base;",
    ],
    [
        "",
        "",
        "module a; requires b; requires java.base | module b; requires c; requires java.base | module c; requires java.base | module java.base",
        "a",
        "a: a b java.base;b: b c java.base;c: c java.base;java.base: java.base;",
    ],
    [
        "",
        "",
        "module a; requires b | module b; requires transitive c | module c; requires transitive d | module d",
        "a",
        "a: a b c d;b: b c d;c: c d;d: d;",
    ],
    [
        "",
        "",
        "module a; requires b | module b; requires c | module c; requires transitive d | module d",
        "a",
        "a: a b;b: b c d;c: c d;d: d;",
    ],
    [
        "",
        "",
        "module a; requires b | module b; requires transitive java.base | module java.base",
        "a",
        "a: a b;b: b java.base;java.base: java.base;",
    ],
    [
        "",
        "",
        "module a; requires b; requires c | module b; requires d | module c; requires d | module d",
        "a",
        "a: a b c;b: b d;c: c d;d: d;",
    ],
    [
        "",
        "",
        "module a; requires static d | module d",
        "a",
        "a: a;",
    ],
    [
        "",
        "",
        "module a; requires static d | module d",
        "a d",
        "a: a d;d: d;",
    ],
    [
        "",
        "",
        "module a; requires b | module b; requires transitive static c | module c",
        "c a",
        "a: a b c;b: b c;c: c;",
    ],
    [
        "",
        "module a; requires b | module b",
        "module b; requires c | module c",
        "a",
        "a: a b;b: b;",
    ],
    [
        "",
        "module a; requires b",
        "module b; requires c | module c",
        "a",
        "a: a b;b: b c;c: c;",
    ],
    ["", "", "module a", "a a", "a: a;"],
    ["", "", "module a", "", ""],
];

/// What an ancestor has.
const PARENTS: [[&str; 5]; 13] = [
    ["-", "", "module a", "a", "NoParents"],
    [
        ABOVE,
        "module r; requires x; requires y | module x",
        "",
        "r",
        "SameName r x",
    ],
    [
        "module v | module x | module y; requires transitive x; requires transitive v",
        "module r; requires x; requires v; requires y | module q; requires x; requires v; requires y | module x | module v",
        "",
        "r q",
        "SameName q v",
    ],
    [
        ABOVE,
        "module r; requires y; requires java.base | module x",
        "",
        "r",
        "r: java.base r x y;",
    ],
    [ABOVE, "", "module x | module r; requires x", "r", "r: r x;"],
    [ABOVE, "", "module x", "x", ""],
    [ABOVE, "module x", "", "x", "x: x;"],
    [ABOVE, "", "module r; requires static x", "r", "r: r x;"],
    [
        ABOVE,
        "module x",
        "module r; requires static x",
        "r",
        "r: r x;",
    ],
    [
        ABOVE,
        "module x",
        "module r; requires transitive static x | module m; requires r",
        "m",
        "m: m r x;r: r x;",
    ],
    [
        ABOVE,
        "module x",
        "module r; requires static x; requires y",
        "r x",
        "SameName r x",
    ],
    [
        "module x; exports p; packages p",
        "module x",
        "module r; requires static x; packages p",
        "r",
        "OwnPackage r p x",
    ],
    [ABOVE, "", "module r; requires z", "r", "NotFound z r"],
];

/// With services bound.
const BOUND: [[&str; 5]; 8] = [
    [
        "",
        "",
        "module app; requires s; uses s/S | module s; exports s; packages s | module p1; requires s; requires t; provides s/S; uses t/T | module t; exports t; packages t | module p2; requires t; provides t/T | module q; requires t; provides t/U",
        "app",
        "app: app s;p1: p1 s t;p2: p2 t;s: s;t: t;",
    ],
    [
        "module s; exports s; packages s | module h; requires s; uses s/S",
        "",
        "module q; requires s; provides s/S",
        "",
        "q: q s;",
    ],
    [
        "module s; exports s; packages s | module h; requires s; uses s/S",
        "",
        "module q; requires s; provides s/T",
        "",
        "",
    ],
    [
        "module s; exports s; packages s | module h; requires s; uses s/S",
        "module q",
        "module q; requires s; provides s/S",
        "",
        "",
    ],
    [
        "",
        "",
        "module a; uses a/S; provides a/S; packages a | module b",
        "a",
        "a: a;",
    ],
    [
        "",
        "",
        "module a; uses a/S; packages a | module b; provides a/S; packages a",
        "a",
        "a: a;b: b;",
    ],
    [
        "module s; exports s; packages s",
        "",
        "module a; requires s; uses s/S | module p; requires s; provides s/S",
        "a",
        "a: a s;p: p s;",
    ],
    [
        "",
        "",
        "module a; uses a/S; packages a | module p; requires x; provides a/S",
        "a",
        "NotFound x p",
    ],
];

/// Without.
const UNBOUND: [[&str; 5]; 2] = [
    [
        "",
        "",
        "module app; requires s; uses s/S | module s; exports s; packages s | module p1; requires s; requires t; provides s/S; uses t/T | module t; exports t; packages t | module p2; requires t; provides t/T | module q; requires t; provides t/U",
        "app",
        "app: app s;s: s;",
    ],
    [
        "module s; exports s; packages s | module h; requires s; uses s/S",
        "",
        "module q; requires s; provides s/S",
        "",
        "",
    ],
];

/// The other refusals, each with the least fields.
const REFUSALS: [[&str; 5]; 22] = [
    [
        "",
        "",
        "module a; requires x | module b; requires x",
        "b a",
        "NotFound x a",
    ],
    [
        "",
        "",
        "module a; requires x | module b; requires x",
        "b a x",
        "NotFound x -",
    ],
    [
        "",
        "",
        "module a; requires y; requires x",
        "a",
        "NotFound x a",
    ],
    ["", "", "module a; requires static d", "a d", "NotFound d -"],
    [
        "",
        "",
        "module a; requires b | module b; requires c | module c; requires a; requires x",
        "a",
        "NotFound x c",
    ],
    [
        "",
        "",
        "module a; requires b | module b; requires c | module c; requires a",
        "a",
        "Cycle a",
    ],
    [
        "",
        "",
        "module z; requires a | module a; requires b | module b; requires c | module c; requires b",
        "z",
        "Cycle b",
    ],
    [
        "",
        "",
        "module a; requires b | module b; requires static a",
        "a",
        "Cycle a",
    ],
    ["", "", "module a; requires a", "a", "Cycle a"],
    [
        "",
        "",
        "module a; requires b | module b; requires transitive b",
        "a",
        "Cycle b",
    ],
    [
        "",
        "",
        "module r; requires b; requires c | module b; exports p; packages p | module c; exports p; packages p",
        "r",
        "SamePackage r p b c",
    ],
    [
        "",
        "",
        "module r; requires b; requires c | module b; exports p; packages p | module c; exports p to b; packages p",
        "r",
        "b: b;c: c;r: b c r;",
    ],
    [
        "",
        "",
        "module r; requires b; requires c | module b; exports p to x; packages p | module c; exports p to r; packages p",
        "r",
        "b: b;c: c;r: b c r;",
    ],
    [
        "",
        "",
        "module r; requires b; requires c | module b; exports p to r; packages p | module c; exports p to r; packages p",
        "r",
        "SamePackage r p b c",
    ],
    [
        "",
        "",
        "module s; requires d; requires c | module r; requires d; requires b; requires c | module b; exports q; exports p; packages q p | module c; exports q; exports p; packages q p | module d; exports q; packages q",
        "r s",
        "SamePackage r p b c",
    ],
    [
        "",
        "",
        "module r; requires b; packages p | module b; exports p; packages p",
        "r",
        "OwnPackage r p b",
    ],
    [
        "",
        "",
        "module r; requires c; requires b; packages q p | module b; exports q; packages q | module c; exports p; packages p",
        "r",
        "OwnPackage r p c",
    ],
    ["", "", "module a; uses s/S", "a", "ServicePackage a s/S"],
    [
        "",
        "",
        "module b; provides s/T | module a; provides s/S; uses q/T | module z",
        "z b a",
        "ServicePackage a q/T",
    ],
    [
        "",
        "",
        "module a; requires s; uses s/S | module s; exports s to z; packages s",
        "a",
        "ServicePackage a s/S",
    ],
    [
        "",
        "",
        "module a; requires s; uses S | module s; exports s; packages s",
        "a",
        "ServicePackage a S",
    ],
    [
        "module x",
        "module x; requires transitive y | module y",
        "module y | module r; requires x",
        "r",
        "r: r x y;x: x y;y: y;",
    ],
];

#[test]
fn cases(rt: HostRuntime) -> Result<(), Fail> {
    let alloc = rt.alloc();
    all_come(alloc, READS.as_slice(), false)?;
    all_come(alloc, PARENTS.as_slice(), false)?;
    all_come(alloc, BOUND.as_slice(), true)?;
    all_come(alloc, UNBOUND.as_slice(), false)?;
    all_come(alloc, REFUSALS.as_slice(), false)
}

// ---- limits

/// The modules m0, m1 and so on.
fn many_modules(alloc: Global, count: usize) -> Result<Found, Fail> {
    let mut modules = Items::new(alloc);
    for number in 0..count {
        let statements = format!(in alloc; "module m{number}")?;
        modules.push(observed(alloc, statements.as_str())?)?;
    }
    Ok(Found { modules })
}

/// What comes of a finder's modules over known configurations: the refusal, or how many are in the set.
fn counted(
    alloc: Global,
    known: &[Configuration],
    modules: &Found,
    roots: &[Name],
) -> Result<Result<usize, ResolveFault>, Fail> {
    if known.len() > 4096 {
        return Err(Fail::new("too many to be known"));
    }
    let nothing = found(alloc, "")?;
    let parents = [ConfigId(0)];
    let answer = resolve(alloc, known, modules, &parents, &nothing, roots, false);
    Ok(answer.map(|cf| cf.modules().len()))
}

/// What comes of so many modules that are all roots.
fn with_modules(alloc: Global, count: usize) -> Result<Result<usize, ResolveFault>, Fail> {
    let modules = many_modules(alloc, count)?;
    let roots = names_of(alloc, &modules)?;
    counted(alloc, &[], &modules, roots.as_slice())
}

/// So many empty configurations.
fn many_known(alloc: Global, count: usize) -> Result<Vec<Configuration>, Fail> {
    let mut known = Vec::new(alloc);
    for _ in 0..count {
        known.push(Configuration::empty(alloc))?;
    }
    Ok(known)
}

/// What comes where so many configurations are known.
fn with_known(alloc: Global, count: usize) -> Result<Result<usize, ResolveFault>, Fail> {
    let known = many_known(alloc, count)?;
    let nothing = found(alloc, "")?;
    counted(alloc, known.as_slice(), &nothing, &[])
}

#[test]
fn limits(rt: HostRuntime) -> Result<(), Fail> {
    let alloc = rt.alloc();
    assert_eq!(rt; with_modules(alloc, 4096)?, Ok(4096));
    assert_eq!(rt; with_modules(alloc, 4097)?, Err(ResolveFault::TooMany));
    assert_eq!(rt; with_known(alloc, 4095)?, Ok(0));
    assert_eq!(rt; with_known(alloc, 4096)?, Err(ResolveFault::TooMany));
    Ok(())
}

/// The configuration of b over two that are empty.
fn third(alloc: Global) -> Result<Configuration, Fail> {
    let known = [Configuration::empty(alloc), Configuration::empty(alloc)];
    let modules = found(alloc, "module a | module b")?;
    let nothing = found(alloc, "")?;
    let roots = words_in(alloc, "b")?;
    let parents = [ConfigId(2)];
    let cf = resolve(
        alloc,
        known.as_slice(),
        &modules,
        parents.as_slice(),
        &nothing,
        roots.as_slice(),
        false,
    )?;
    Ok(cf)
}

#[test]
fn the_next_number(rt: HostRuntime) -> Result<(), Fail> {
    resolves_once();
    resolves_always();
    refuses_where_one_holds();
    let cf = third(rt.alloc())?;
    let parents = [ConfigId(2)];
    assert_eq!(rt; cf.id(), ConfigId(3));
    assert_eq!(rt; cf.parents(), parents.as_slice());
    assert_eq!(rt; cf.modules().len(), 1);
    assert_eq!(rt; cf.reads().len(), 1);
    Ok(())
}
