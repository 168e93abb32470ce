//! Rows of layers: how they are made, what is asked of them, and what comes.

use crate::asking::fault_shown;
use crate::making::{found, words};
use crate::stage::Stage;
use jl_layer::{LayerFault, Mode};
use jl_prim::{ConfigId, LayerId, ParentLoader};
use std::alloc::Global;
use std::test::*;

/// The configurations of a text are kept, with `+` between them. Each has its parents before the colon, and all its
/// modules.
fn keep_all(alloc: Global, stage: &mut Stage, text: &str) -> Result<(), Fail> {
    for part in text.split('+') {
        let (parents, modules) = part.split_once(':').ok_or("parents")?;
        let modules = found(alloc, modules.trim())?;
        let parents = configurations_in(alloc, parents)?;
        stage.keep(alloc, &modules, parents.as_slice())?;
    }
    Ok(())
}

fn configurations_in(alloc: Global, text: &str) -> Result<Vec<ConfigId>, Fail> {
    let mut numbers = Vec::new(alloc);
    for word in text.split_whitespace() {
        numbers.push(ConfigId(word.parse()?))?;
    }
    Ok(numbers)
}

fn layers_in(alloc: Global, text: &str) -> Result<Vec<LayerId>, Fail> {
    let mut numbers = Vec::new(alloc);
    for word in text.split_whitespace() {
        numbers.push(LayerId(word.parse()?))?;
    }
    Ok(numbers)
}

/// The layers of a text are defined, with `+` between them: `boot C` is the boot layer of a configuration, and `one C
/// over L ..` and `many C over L ..` are layers over others, behind which ` with M` names the module whose loader is
/// the parent. The answer is the refusals.
fn define_all(alloc: Global, stage: &mut Stage, text: &str) -> Result<String, Fail> {
    let mut refused = String::new(alloc);
    for part in text.split('+') {
        let fault = defined(alloc, stage, part.trim())?;
        push(&mut refused, fault.as_str())?;
    }
    Ok(refused)
}

/// The refusal of a layer, or nothing.
fn defined(alloc: Global, stage: &mut Stage, text: &str) -> Result<String, Fail> {
    let (word, rest) = text.split_once(' ').ok_or("a layer")?;
    let answer = match word {
        "boot" => stage.define_boot(ConfigId(rest.parse()?))?,
        "one" => define_over(alloc, stage, Mode::One, rest)?,
        "many" => define_over(alloc, stage, Mode::Many, rest)?,
        _ => return Err(Fail::new("a mode")),
    };
    match answer {
        Ok(_) => Ok(String::new(alloc)),
        Err(fault) => fault_shown(alloc, &fault),
    }
}

fn define_over(
    alloc: Global,
    stage: &mut Stage,
    mode: Mode,
    text: &str,
) -> Result<Result<LayerId, LayerFault>, Fail> {
    let (front, above) = match text.split_once(" with ") {
        Some((front, m)) => (front, ParentLoader::Loader(stage.loader(m)?)),
        None => (text, ParentLoader::Null),
    };
    let (cf, parents) = front.split_once(" over").ok_or("parents")?;
    let parents = layers_in(alloc, parents)?;
    stage.define(ConfigId(cf.parse()?), parents.as_slice(), mode, above)
}

fn push(answers: &mut String, answer: &str) -> Result<(), Fail> {
    if !answers.is_empty() && !answer.is_empty() {
        answers.push_str(", ")?;
    }
    answers.push_str(answer)?;
    Ok(())
}

/// What comes of layers: the refusals, and then the answers.
fn come_of(alloc: Global, stage: &mut Stage, row: [&str; 3]) -> Result<String, Fail> {
    let [configurations, layers, asked] = row;
    keep_all(alloc, stage, configurations)?;
    let mut answers = define_all(alloc, stage, layers)?;
    if asked.is_empty() {
        return Ok(answers);
    }
    for line in asked.split(',') {
        let answer = stage.answer(alloc, line)?;
        push(&mut answers, answer.as_str())?;
    }
    Ok(answers)
}

// ---- rows: configurations, layers over them, what is asked, and what comes

/// The boot layer of most rows: app requires lib, which exports lib and hides util.
const BOOT: &str =
    "0: module java.base; exports java/lang; packages java/lang sun/misc | module lib; exports lib; packages lib util | module app; requires lib; packages app";

/// Over the boot layer, which has number 1 and configuration 1.
static OVER_BOOT: [[&str; 4]; 47] = [
    // where loaders lead, and what is imposed on them
    [
        "1: module p1; requires lib; packages util",
        "many 2 over 1",
        "lead p1@2 util/X, lead p1@2 lib/Base, lead p1@2 no/T",
        "p1@2, lib@1, -",
    ],
    [
        "1: module p1; requires lib; packages util",
        "many 2 over 1",
        "impose util/X p1@2 app@1, impose util/X app@1 p1@2, impose lib/B p1@2 lib@1, impose no/T p1@2 app@1",
        "Clash util/X p1@2 lib@1, Clash util/X lib@1 p1@2, ok, ok",
    ],
    // no parent leads to java.base alone, also to packages that it does not export
    [
        "1: module p1; requires lib; packages util",
        "many 2 over 1",
        "lead p1@2 java/lang/Object, lead p1@2 sun/misc/X, lead p1@2 app/T, lead p1@2 java/util/X",
        "java.base@1, java.base@1, -, -",
    ],
    // a parent loader, and one of another layer
    [
        "1: module p1; requires lib; packages util",
        "many 2 over 1 with app@1",
        "lead p1@2 util/X, lead p1@2 app/T, lead p1@2 sun/misc/X, lead p1@2 no/T",
        "p1@2, app@1, java.base@1, -",
    ],
    [
        "1: module p1; requires lib; packages util + 1: module t; packages t",
        "many 2 over 1 + many 3 over 1 with p1@2",
        "lead t@3 t/T, lead t@3 util/X, lead t@3 lib/B, lead t@3 app/T",
        "t@3, p1@2, lib@1, -",
    ],
    // parents
    [
        "1: module p",
        "many 2 over 0 + one 2 over",
        "find p@1",
        "ParentMismatch, ParentMismatch, -",
    ],
    [
        "1: module p",
        "many 2 over 1 1 + many 1 over 1 + many 2 over 1",
        "find p@2, loader p@2",
        "ParentMismatch, ParentMismatch, p@2, 2",
    ],
    // java.base and packages of Java
    [
        "1: module java.base; packages java/lang",
        "many 2 over 1 + one 2 over 1",
        "layer 1",
        "BaseAgain, BaseAgain, 1 1 3",
    ],
    [
        "1: module m; packages java/x",
        "one 2 over 1 + many 2 over 1",
        "layer 1",
        "JavaPackage java/x, JavaPackage java/x, 1 1 3",
    ],
    [
        "1: module m; packages p java/x | module n; packages java/lang java/w | module o; packages java/wa",
        "many 2 over 1",
        "layer 1",
        "JavaPackage java/lang, 1 1 3",
    ],
    [
        "1: module m; packages java/a | module n; packages java",
        "one 2 over 1",
        "layer 1",
        "JavaPackage java, 1 1 3",
    ],
    [
        "1: module m; packages javax/a javafx jav java_a",
        "one 2 over 1",
        "find m@2",
        "m@2",
    ],
    // a package of two modules
    [
        "1: module c; packages p o | module b; packages o | module a; packages p",
        "one 2 over 1 + many 2 over 1",
        "lead a@2 p/T, lead c@2 p/T, lead b@2 o/T",
        "Overlap o b c, a@2, c@2, b@2",
    ],
    [
        "1: module c; packages p | module b; packages p | module a; packages p",
        "one 2 over 1",
        "layer 1",
        "Overlap p a b, 1 1 3",
    ],
    [
        "1: module b; packages lib util",
        "one 2 over 1",
        "lead b@2 util/X, lead app@1 util/X",
        "b@2, lib@1",
    ],
    // a package of two loaders above
    [
        "1: module u; exports q; packages q | module v; exports q; packages q + 2: module x; requires u | module y; requires v",
        "many 2 over 1 + one 3 over 2",
        "layer 2",
        "Split q u v, 2 1 2",
    ],
    [
        "1: module u; exports q; packages q | module v; exports q; packages q + 2: module x; requires u | module y; requires v",
        "many 2 over 1 + many 3 over 2",
        "lead x@3 q/T, lead y@3 q/T, lead x@3 no/T",
        "u@2, v@2, -",
    ],
    [
        "1: module u; exports q; packages q | module v; exports q; packages q + 2: module x; requires u | module y; requires v | module z; packages q",
        "many 2 over 1 + one 3 over 2",
        "lead x@3 q/T",
        "z@3",
    ],
    [
        "1: module u; exports q; packages q | module v; exports q; packages q + 2: module x; requires u | module y; requires u",
        "many 2 over 1 + one 3 over 2",
        "lead y@3 q/T",
        "u@2",
    ],
    [
        "1: module u; exports q to x; packages q | module v; exports q to y; packages q + 2: module x; requires u; requires v | module y; requires u; requires v",
        "many 2 over 1 + one 3 over 2 + many 3 over 2",
        "lead x@3 q/T, lead y@3 q/T",
        "Split q u v, u@2, v@2",
    ],
    [
        "1: module u; exports q to x; packages q | module v; exports q to x; packages q + 2: module x; requires u | module y; requires v",
        "many 2 over 1 + one 3 over 2",
        "lead x@3 q/T",
        "u@2",
    ],
    [
        "1: module u; exports q; packages q + 1: module u; exports q; packages q | module w; requires transitive u + 2 3: module x; requires u | module y; requires w",
        "many 2 over 1 + many 3 over 1 + one 4 over 2 3 + many 4 over 2 3",
        "lead x@4 q/T, lead y@4 q/T",
        "Split q u u, u@2, u@3",
    ],
    [
        "1: module a; exports q; exports r; packages q r | module b; exports r; exports q; packages q r | module c; exports q; packages q + 2: module x; requires c | module y; requires b",
        "many 2 over 1 + one 3 over 2",
        "layer 2",
        "Split q b c, 2 1 3",
    ],
    // the first refusal of those that hold
    [
        "1: module u; exports q; packages q | module v; exports q; packages q + 2: module java.base; packages java/b | module j; packages java/a | module o1; packages o | module o2; packages o | module x; requires u | module y; requires v",
        "many 2 over 1 + one 3 over 1 + one 3 over 2 + many 3 over 1 + many 3 over 2",
        "layer 2",
        "ParentMismatch, BaseAgain, ParentMismatch, BaseAgain, 2 1 2",
    ],
    [
        "1: module u; exports q; packages q | module v; exports q; packages q + 2: module j; packages java/a | module o1; packages o | module o2; packages o | module x; requires u | module y; requires v",
        "many 2 over 1 + one 3 over 2 + many 3 over 2",
        "layer 2",
        "JavaPackage java/a, JavaPackage java/a, 2 1 2",
    ],
    [
        "1: module u; exports q; packages q | module v; exports q; packages q + 2: module o1; packages o | module o2; packages o | module x; requires u | module y; requires v",
        "many 2 over 1 + one 3 over 2 + many 3 over 2",
        "layer 3",
        "Overlap o o1 o2, 3 1 4",
    ],
    // two layers of one configuration
    [
        "1: module a; packages a | module b; exports b; packages b",
        "one 2 over 1 + many 2 over 1",
        "loader a@2, loader b@2, loader a@3, loader b@3, lead a@2 b/T, lead a@3 b/T, lead b@3 b/T",
        "2, 2, 3, 4, b@2, -, b@3",
    ],
    [
        "1: module a; requires b | module b; exports b; packages b",
        "many 2 over 1 + one 2 over 1",
        "lead a@2 b/T, lead a@3 b/T, reads a@2 b@2, reads a@3 b@3, reads a@2 b@3",
        "b@2, b@3, yes, yes, no",
    ],
    // a layer over a layer over the boot layer
    [
        "1: module m; requires transitive lib; exports m; packages m + 2: module t; requires m",
        "one 2 over 1 + many 3 over 2",
        "lead t@3 m/T, lead t@3 lib/B, lead t@3 util/X, reads t@3 m@3, reads t@3 lib@3, reads m@2 lib@1, reads t@3 app@3, find app@3, find t@2",
        "m@2, lib@1, -, yes, yes, yes, no, app@1, -",
    ],
    // two parents
    [
        "1: module x; exports x; packages x | module y; packages y + 1: module x; exports x; packages x | module z; packages z + 2 3: module r; requires x",
        "many 2 over 1 + many 3 over 1 + many 4 over 2 3 + many 4 over 3 2",
        "lead r@4 x/T, find x@4, find y@4, find z@4, find lib@4, layer 4",
        "ParentMismatch, x@2, x@2, y@2, z@3, lib@1, 4 2 1",
    ],
    [
        "1: module x; exports x; packages x | module y; packages y + 1: module x; exports x; packages x | module z; packages z + 3 2: module r; requires x",
        "many 2 over 1 + many 3 over 1 + many 4 over 3 2",
        "lead r@4 x/T, find x@4, reads r@4 x@3, reads r@4 x@2",
        "x@3, x@3, yes, no",
    ],
    [
        "1: module x; exports x; packages x | module y; packages y + 1: module x; exports x; packages x | module z; packages z + 2 3 2: module r; requires x",
        "many 2 over 1 + many 3 over 1 + many 4 over 2 3 2",
        "lead r@4 x/T, find x@4, layer 4",
        "x@2, x@2, 4 3 1",
    ],
    // a configuration of two parent layers is met in the first of them
    [
        "1: module x; exports x; packages x + 2 2: module r; requires x",
        "many 2 over 1 + many 2 over 1 + many 3 over 3 2 + many 3 over 2 3",
        "lead r@4 x/T, lead r@5 x/T",
        "x@3, x@2",
    ],
    // an ancestor counts once, at its first place
    [
        "1: module x; exports x; packages x + 2: module a; requires transitive x + 2: module b; requires transitive x + 3 4: module r; requires a; requires b",
        "many 2 over 1 + many 3 over 2 + many 4 over 2 + one 5 over 3 4",
        "lead r@5 x/T, find x@5, find lib@5, find b@5, reads r@5 x@2, find nobody@5",
        "x@2, x@2, lib@1, b@4, yes, -",
    ],
    [
        "1: module x; exports x; packages x + 2: module a + 1: module x; exports x; packages x + 3 4 2: module r; requires x",
        "many 2 over 1 + many 3 over 2 + many 4 over 1 + many 5 over 3 4 2",
        "lead r@5 x/T, find x@5",
        "x@2, x@2",
    ],
    [
        "1: module x; exports x; packages x + 2: module a + 1: module x; exports x; packages x + 3 4: module r; requires x + 4 3: module r; requires x",
        "many 2 over 1 + many 3 over 2 + many 4 over 1 + many 5 over 3 4 + many 6 over 4 3",
        "lead r@5 x/T, find x@5, lead r@6 x/T, find x@6",
        "x@2, x@2, x@4, x@4",
    ],
    // whom a package is exported and opened to: a module of a parent, of the layer before one of a parent, and nobody
    [
        "1: module m; exports m to app; opens o to app; packages m o",
        "many 2 over 1",
        "exported m@2 m app@1, exported m@2 m lib@1, exported m@2 m all, exported m@2 o app@1, opened m@2 m app@1, opened m@2 o app@1, opened m@2 o lib@1",
        "yes, no, no, yes, no, yes, no",
    ],
    [
        "1: module app | module m; exports m to app; packages m",
        "many 2 over 1",
        "exported m@2 m app@2, exported m@2 m app@1",
        "yes, no",
    ],
    [
        "1: module m; exports m to late nobody; packages m + 2: module late; requires m",
        "many 2 over 1 + many 3 over 2",
        "exported m@2 m late@3, lead late@3 m/T, class late@3 late m@2 m",
        "no, m@2, denied not-exported-to",
    ],
    [
        "1: module m; exports m to friend; packages m | module friend; requires m + 2: module friend; requires m",
        "many 2 over 1 + many 3 over 2",
        "exported m@2 m friend@2, exported m@2 m friend@3, class friend@2 f m@2 m, class friend@3 f m@2 m",
        "yes, no, granted, denied not-exported-to",
    ],
    // verdicts
    [
        "1: module a; requires t; packages a | module b; requires t; packages b | module c; packages c | module t; opens q to a; packages q r",
        "many 2 over 1",
        "class c@2 c t@2 r, class c@2 c t@2 q, class b@2 b t@2 q, deep b@2 b t@2 q, class b@2 b t@2 r, deep b@2 b t@2 r, class a@2 a t@2 q, deep a@2 a t@2 q",
        "denied not-read, denied not-read, denied not-exported-to, denied not-open-to, denied not-exported, denied not-open, granted, granted",
    ],
    [
        "1: open module o; packages o | module b; requires o; uses b/S; packages b",
        "many 2 over 1",
        "opened o@2 o all, exported o@2 o b@2, deep b@2 b o@2 o, uses b@2 b/S, uses o@2 b/S, uses b@2 b/T",
        "yes, yes, granted, yes, no, no",
    ],
    // what is added moves no lead
    [
        "1: module p1; requires lib; packages util",
        "many 2 over 1",
        "add-reads p1@2 app@1, reads p1@2 app@1, add-exports app@1 app all, class p1@2 util app@1 app, lead p1@2 app/T, add-opens lib@1 util p1@2, deep p1@2 util lib@1 util, deep app@1 app lib@1 util, lead p1@2 util/X, add-uses p1@2 s/S, uses p1@2 s/S",
        "ok, yes, ok, granted, -, ok, granted, denied not-open-to, p1@2, ok, yes",
    ],
    // a third loader joined with two that agree
    [
        "1: module a; packages util | module b; packages b | module c; requires lib; packages c | module d; packages util",
        "many 2 over 1",
        "impose util/X a@2 b@2, impose util/X b@2 c@2, impose util/X c@2 d@2, impose util/X d@2 c@2, impose util/Y c@2 d@2, impose util/X c@2 a@2",
        "ok, ok, Clash util/X a@2 d@2, Clash util/X d@2 a@2, ok, ok",
    ],
    [
        "1: module a; packages util | module b; packages b | module c; requires lib; packages c | module d; packages util",
        "many 2 over 1",
        "impose lib/X c@2 b@2, impose lib/X b@2 app@1, impose lib/X app@1 lib@1",
        "ok, ok, ok",
    ],
    // a layer without modules
    [
        "1: + 2: module t",
        "many 2 over 1 + one 2 over 1 + many 3 over 2",
        "layer 2, find lib@2, find nobody@2, loader t@4, layer 0, find lib@0",
        "2 1 0, lib@1, -, 2, 0 0 0, -",
    ],
    // what is known of a module
    [
        "1: module m; requires lib; packages m n",
        "one 2 over 1",
        "module m@2, module lib@2, loader m@2, loader lib@1",
        "m m 2 3, lib m 1 5, 2, 1",
    ],
];

/// With a boot layer of their own.
static BOOTS: [[&str; 4]; 3] = [
    [
        "0: module java.base; packages java/lang o | module b; packages o p | module a; packages p",
        "boot 1",
        "layer 0",
        "Overlap o b java.base, 0 0 0",
    ],
    [
        "0: module java.base; packages java/lang | module b; packages p | module a; packages p + 0: module java.base; packages java/lang | module b; packages p",
        "boot 1 + boot 2",
        "layer 1, lead b@1 p/T, lead b@1 java/lang/X, lead java.base@1 p/T, loader b@1",
        "Overlap p a b, 2 1 2, b@1, java.base@1, b@1, 1",
    ],
    [
        "0: module java.base; packages java/lang | module j; packages java/x",
        "boot 1",
        "lead j@1 java/x/T",
        "j@1",
    ],
];

/// Each row comes out as its last text says, after the boot layer is defined where there is one.
fn rows_come(alloc: Global, boot: Option<&str>, rows: &[[&str; 4]]) -> Result<(), Fail> {
    for [configurations, layers, asked, want] in rows {
        let mut stage = Stage::new(alloc);
        if let Some(text) = boot {
            come_of(alloc, &mut stage, [text, "boot 1", ""])?;
        }
        let got = come_of(alloc, &mut stage, [*configurations, *layers, *asked])?;
        if got.as_str() != *want {
            return Err(Fail::new(format_args!("{got:?} in place of {want:?}")));
        }
    }
    Ok(())
}

#[test]
fn rows(rt: HostRuntime) -> Result<(), Fail> {
    rows_come(rt.alloc(), Some(BOOT), OVER_BOOT.as_slice())?;
    rows_come(rt.alloc(), None, BOOTS.as_slice())
}
