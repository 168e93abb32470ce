//! Tests of jl_words.

use jl_words::{Command, RunWords, WordFault, read_words};
use std::alloc::Global;
use std::test::*;

/// Lines of words with a blank between them, and the command or the fault that each is.
static REFUSED_LINES: [(&str, &str); 55] = [
    ("", "UnknownWord(0)"),
    ("walk a", "UnknownWord(0)"),
    ("Resolve a", "UnknownWord(0)"),
    ("--report", "UnknownWord(0)"),
    ("resolve", "Missing(ROOT)"),
    ("resolve --module-path", "Missing(--module-path)"),
    ("resolve --module-path a", "Missing(ROOT)"),
    (
        "resolve --module-path=a --module-path=b r",
        "Repeated(--module-path)",
    ),
    (
        "resolve --module-path --module-path --module-path",
        "Repeated(--module-path)",
    ),
    ("resolve --module-pat a r", "UnknownWord(1)"),
    ("resolve --steps 1 r", "UnknownWord(1)"),
    ("resolve --report r", "UnknownWord(1)"),
    ("resolve - r", "UnknownWord(1)"),
    ("resolve --add-modules a,,b r", "BadTarget(2)"),
    ("resolve --add-modules  r", "BadTarget(2)"),
    ("resolve --add-modules= r", "BadTarget(1)"),
    ("resolve --add-modules=a,b/c r", "BadTarget(1)"),
    (
        "resolve --add-modules a --add-modules",
        "Missing(--add-modules)",
    ),
    ("resolve a/b", "BadTarget(1)"),
    ("resolve a  b", "BadTarget(2)"),
    ("resolve a b,c d", "BadTarget(2)"),
    ("run", "Missing(MODULE/CLASS)"),
    ("run --steps 1 --steps 2 a/p.Main", "Repeated(--steps)"),
    ("run --report --report a", "Repeated(--report)"),
    ("run --report=v a", "UnknownWord(1)"),
    ("run --report= a", "UnknownWord(1)"),
    ("run --unknown a", "UnknownWord(1)"),
    ("run --steps 99999999999999999999 a/p.Main", "BadNumber(2)"),
    ("run --steps=18446744073709551616 a", "BadNumber(1)"),
    ("run --steps=000000000000000000001 a", "BadNumber(1)"),
    ("run --steps= a", "BadNumber(1)"),
    ("run --steps  a", "BadNumber(2)"),
    ("run --steps +1 a", "BadNumber(2)"),
    ("run --steps -1 a", "BadNumber(2)"),
    ("run --steps x --report", "BadNumber(2)"),
    ("run --steps", "Missing(--steps)"),
    ("run --add-reads a a", "BadTarget(2)"),
    ("run --add-reads=a=b=c d", "BadTarget(1)"),
    ("run --add-exports a/p b", "BadTarget(2)"),
    ("run --add-exports a=b c", "BadTarget(2)"),
    ("run --add-opens a/p/q=b c", "BadTarget(2)"),
    ("run --add-opens a/p..q=b c", "BadTarget(2)"),
    ("run --add-opens /p=b c", "BadTarget(2)"),
    ("run a/Main", "BadTarget(1)"),
    ("run a/p.", "BadTarget(1)"),
    ("run a/", "BadTarget(1)"),
    ("run /p.C", "BadTarget(1)"),
    ("run a/p/C", "BadTarget(1)"),
    ("sample", "Missing(N)"),
    ("sample 1", "Missing(BOUND)"),
    ("sample 0 1", "BadNumber(1)"),
    ("sample 1001 5", "BadNumber(1)"),
    ("sample 1 x", "BadNumber(2)"),
    ("sample --steps 1", "UnknownWord(1)"),
    ("sample 1 5 6", "UnknownWord(3)"),
];

static READ_LINES: [(&str, &str); 19] = [
    ("resolve r", "resolve [] [] [r]"),
    (
        "resolve --module-path a:b::c r s",
        "resolve [a, b, c] [] [r, s]",
    ),
    ("resolve --module-path=:a=b: r", "resolve [a=b] [] [r]"),
    ("resolve --module-path  r", "resolve [] [] [r]"),
    ("resolve --module-path= r", "resolve [] [] [r]"),
    ("resolve --module-path --x r", "resolve [--x] [] [r]"),
    (
        "resolve --add-modules a,b --add-modules=c r",
        "resolve [] [a, b, c] [r]",
    ),
    (
        "resolve --add-modules -a --module-path p r --x",
        "resolve [p] [-a] [r, --x]",
    ),
    ("resolve \u{fc}.\u{e4}", "resolve [] [] [\u{fc}.\u{e4}]"),
    ("run a", "run [] [] [] 100000000 false a None []"),
    (
        "run a.b/p.C",
        "run [] [] [] 100000000 false a.b Some(p/C) []",
    ),
    (
        "run --report --steps 18446744073709551615 a/p.q.C --report --steps x",
        "run [] [] [] 18446744073709551615 true a Some(p/q/C) [--report, --steps, x]",
    ),
    (
        "run --steps=00000000000000000007 a",
        "run [] [] [] 7 false a None []",
    ),
    (
        "run --add-reads a=b --add-exports=a/p.q=c --add-opens m/p=n --add-reads=c=d a",
        "run [] [] [Reads(a, b), Exports(a, p/q, c), Opens(m, p, n), Reads(c, d)] 100000000 false a None []",
    ),
    (
        "run --module-path=m --add-modules=x a  y",
        "run [m] [x] [] 100000000 false a None [, y]",
    ),
    (
        "run --add-reads -a=-b c",
        "run [] [] [Reads(-a, -b)] 100000000 false c None []",
    ),
    ("sample 1000 5", "sample 1000 5"),
    (
        "sample 1 18446744073709551615",
        "sample 1 18446744073709551615",
    ),
    ("sample 0003 010", "sample 3 10"),
];

/// The command or the fault that the words of a line are, as text.
fn answer(alloc: Global, line: &str) -> Result<String, Fail> {
    let mut words = Vec::new(alloc);
    for word in line.split(' ') {
        words.push(String::from_str(alloc, word)?)?;
    }
    match read_words(alloc, words.as_slice()) {
        Ok(command) => shown(alloc, &command),
        Err(fault) => Ok(format!(in alloc; "{fault:?}")?),
    }
}

fn shown(alloc: Global, command: &Command) -> Result<String, Fail> {
    match command {
        Command::Resolve {
            elements,
            add,
            roots,
        } => {
            let (elements, add, roots) = (elements.as_slice(), add.as_slice(), roots.as_slice());
            Ok(format!(in alloc; "resolve {elements:?} {add:?} {roots:?}")?)
        }
        Command::Run(run) => shown_run(alloc, run),
        Command::Sample { n, bound } => Ok(format!(in alloc; "sample {n} {bound}")?),
    }
}

fn shown_run(alloc: Global, run: &RunWords) -> Result<String, Fail> {
    let (elements, add, added) = (
        run.elements.as_slice(),
        run.add.as_slice(),
        run.added.as_slice(),
    );
    let (steps, report) = (run.steps, run.report);
    let given = format!(in alloc; "run {elements:?} {add:?} {added:?} {steps} {report}")?;
    let (module, class, args) = (&run.main_module, &run.main_class, run.args.as_slice());
    Ok(format!(in alloc; "{given} {module:?} {class:?} {args:?}")?)
}

/// The first line with another answer than the wanted one.
fn first_wrong<'a>(alloc: Global, rows: &'a [(&'a str, &'a str)]) -> Result<&'a str, Fail> {
    for (line, wanted) in rows {
        if answer(alloc, line)?.as_str() != *wanted {
            return Ok(*line);
        }
    }
    Ok("none")
}

#[test]
fn lines_that_are_refused(rt: HostRuntime) -> Result<(), Fail> {
    assert_eq!(rt; first_wrong(rt.alloc(), &REFUSED_LINES)?, "none");
    Ok(())
}

#[test]
fn lines_that_are_read(rt: HostRuntime) -> Result<(), Fail> {
    assert_eq!(rt; first_wrong(rt.alloc(), &READ_LINES)?, "none");
    Ok(())
}

#[test]
fn no_words(rt: HostRuntime) -> Result<(), Fail> {
    let refused = read_words(rt.alloc(), &[]);
    assert!(rt; matches!(refused, Err(WordFault::NoCommand)));
    Ok(())
}

/// So many words, of which all but two are a program's arguments.
fn many_words(alloc: Global, count: usize) -> Result<Vec<String>, Fail> {
    let mut words = Vec::new(alloc);
    words.push(String::from_str(alloc, "run")?)?;
    words.push(String::from_str(alloc, "a")?)?;
    for _ in 2..count {
        words.push(String::new(alloc))?;
    }
    Ok(words)
}

#[test]
fn words_past_the_limit(rt: HostRuntime) -> Result<(), Fail> {
    let alloc = rt.alloc();
    let most = many_words(alloc, 65_536)?;
    assert!(rt; read_words(alloc, most.as_slice()).is_ok());
    let past = many_words(alloc, 65_537)?;
    let refused = read_words(alloc, past.as_slice());
    assert!(rt; matches!(refused, Err(WordFault::UnknownWord(65_536))));
    Ok(())
}
