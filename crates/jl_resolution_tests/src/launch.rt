//! Tests of jl_launch.

use jl_launch::{launch, status_of};
use jl_making::{edited, info_file, numbers, plain_file, same, tree_in, tree_of};
use jl_prim::{CopyEnd, Items, Name};
use jl_tree::{Entry, MemSink, MemTree, Sink, SinkFault, Tree, TreeFault};
use std::alloc::Global;
use std::test::*;

const SMALLEST: &str = "0 module a\n  reads java.base\nmodule java.base\n";

/// The words of a line with blanks between them.
fn line_words(alloc: Global, line: &str) -> Result<Vec<String>, Fail> {
    let mut words = Vec::new(alloc);
    for word in line.split_whitespace() {
        words.push(String::from_str(alloc, word)?)?;
    }
    Ok(words)
}

/// The status of a launch with the words of a line.
fn status(
    alloc: Global,
    line: &str,
    tree: &mut impl Tree,
    sink: &mut impl Sink,
) -> Result<u8, Fail> {
    let words = line_words(alloc, line)?;
    Ok(status_of(&launch(alloc, words.as_slice(), tree, sink)))
}

/// The status, and behind it what was written.
fn launched(alloc: Global, tree: &mut impl Tree, line: &str) -> Result<String, Fail> {
    let mut sink = MemSink::new(alloc, 2000, Items::new(alloc))?;
    let status = status(alloc, line, tree, &mut sink)?;
    written(alloc, status, &sink)
}

fn written(alloc: Global, status: u8, sink: &MemSink) -> Result<String, Fail> {
    let text = String::from_utf8(Vec::from_slice(alloc, sink.bytes())?)?;
    Ok(format!(in alloc; "{status} {text}")?)
}

/// Checks what is written of each of these: files, words, and the status and the text.
fn check_rows(alloc: Global, rows: &[(&str, &str, &str)]) -> Result<(), Fail> {
    for (files, line, want) in rows {
        let mut tree = tree_in(alloc, files, &[])?;
        same(launched(alloc, &mut tree, line)?.as_str(), want)?;
    }
    Ok(())
}

static GRAPH_ROWS: [(&str, &str, &str); 12] = [
    ("m/a = a", "resolve --module-path m a", SMALLEST),
    ("m/a = a", "resolve --module-path=m a a", SMALLEST),
    (
        "m/a = a; requires b | m/b = b; requires transitive c | m/c = c",
        "resolve --module-path m a",
        "0 module a\n  reads b\n  reads c\n  reads java.base\nmodule b\n  reads c\n  reads java.base\nmodule c\n  reads java.base\nmodule java.base\n",
    ),
    (
        "m/a = a; requires b | m/b = b; requires c | m/c = c",
        "resolve --module-path m a",
        "0 module a\n  reads b\n  reads java.base\nmodule b\n  reads c\n  reads java.base\nmodule c\n  reads java.base\nmodule java.base\n",
    ),
    (
        "m/a = a; requires static d",
        "resolve --module-path m a",
        SMALLEST,
    ),
    (
        "m/a = a; requires static d | m/d = d",
        "resolve --module-path m a",
        SMALLEST,
    ),
    (
        "m/a = a; requires static d | m/d = d",
        "resolve --module-path m a d",
        "0 module a\n  reads d\n  reads java.base\nmodule d\n  reads java.base\nmodule java.base\n",
    ),
    (
        "m/e = é",
        "resolve --module-path m é",
        "0 module java.base\nmodule é\n  reads java.base\n",
    ),
    (
        "m/r = r; requires b; requires c | m/b = b; exports p; packages p | m/c = c; exports p to b; packages p",
        "resolve --module-path m r",
        "0 module b\n  reads java.base\nmodule c\n  reads java.base\nmodule java.base\nmodule r\n  reads b\n  reads c\n  reads java.base\n",
    ),
    (
        "m/a = a | m/b = b",
        "resolve --module-path m --add-modules b a",
        "0 module a\n  reads java.base\nmodule b\n  reads java.base\nmodule java.base\n",
    ),
    (
        "m1/a = a | m2/a = a; requires b | m2/b = b",
        "resolve --module-path m1:m2 a",
        SMALLEST,
    ),
    (
        "m/app = app; requires s; uses s/S | m/s = s; exports s; packages s | m/p1 = p1; requires s; requires t; provides s/S with p1/P; uses t/T; packages p1 | m/t = t; exports t; packages t | m/p2 = p2; requires t; provides t/T with p2/P; packages p2 | m/q = q; requires t; provides t/U with q/Q; packages q",
        "resolve --module-path m app",
        "0 module app\n  reads java.base\n  reads s\nmodule java.base\nmodule p1\n  reads java.base\n  reads s\n  reads t\nmodule p2\n  reads java.base\n  reads t\nmodule s\n  reads java.base\nmodule t\n  reads java.base\n",
    ),
];

#[test]
fn graphs(rt: HostRuntime) -> Result<(), Fail> {
    check_rows(rt.alloc(), &GRAPH_ROWS)
}

static COMMAND_ROWS: [(&str, &str, &str); 15] = [
    (
        "m/a = a; requires static d",
        "resolve --module-path m a d",
        "3 refused: Resolve NotFound d -\n",
    ),
    (
        "m/a = a; requires x | m/b = b; requires x",
        "resolve --module-path m b a",
        "3 refused: Resolve NotFound x a\n",
    ),
    (
        "m/a = a",
        "resolve --module-path x a",
        "3 refused: Resolve NotFound a -\n",
    ),
    (
        "m/a = a",
        "resolve --module-path m --add-modules b a",
        "3 refused: Resolve NotFound b -\n",
    ),
    (
        "m/a = a; requires b | m/b = b; requires c | m/c = c; requires a; requires x",
        "resolve --module-path m a",
        "3 refused: Resolve NotFound x c\n",
    ),
    (
        "m/a = a; requires b | m/b = b; requires c | m/c = c; requires a",
        "resolve --module-path m a",
        "3 refused: Resolve Cycle a\n",
    ),
    (
        "m/r = r; requires b; requires c | m/b = b; exports p; packages p | m/c = c; exports p; packages p",
        "resolve --module-path m r",
        "3 refused: Resolve SamePackage r p b c\n",
    ),
    (
        "m/r = r; requires b; requires c | m/b = b; exports p/q; packages p/q | m/c = c; exports p/q; packages p/q",
        "resolve --module-path m r",
        "3 refused: Resolve SamePackage r p.q b c\n",
    ),
    (
        "m/r = r; requires b; packages p | m/r/p/T.class | m/b = b; exports p; packages p",
        "resolve --module-path m r",
        "3 refused: Resolve OwnPackage r p b\n",
    ),
    (
        "m/a = a; uses s/S",
        "resolve --module-path m a",
        "3 refused: Resolve ServicePackage a s.S\n",
    ),
    (
        "m/a = a; exports p",
        "resolve --module-path m a",
        "3 refused: Find Info m/a/module-info.class PackageMissing p\n",
    ),
    (
        "m/a = a | m/b = a",
        "resolve --module-path m a",
        "3 refused: Find TwoInDirectory m a\n",
    ),
    (
        "m/a = a; requires x | m/b = a",
        "resolve --module-path m y",
        "3 refused: Find TwoInDirectory m a\n",
    ),
    (
        "m/a = a | m/a/X.class",
        "resolve --module-path m a",
        "3 refused: Find TopLevelClass m/a/X.class\n",
    ),
    (
        "m/a = a | m/x.jar",
        "resolve --module-path m a",
        "3 refused: Find Archive m/x.jar\n",
    ),
];

#[test]
fn refused_commands(rt: HostRuntime) -> Result<(), Fail> {
    check_rows(rt.alloc(), &COMMAND_ROWS)
}

static WORD_ROWS: [(&str, &str, &str); 9] = [
    ("", "", "2 words: NoCommand\n"),
    ("", "walk", "2 words: UnknownWord 0\n"),
    ("", "resolve", "2 words: Missing ROOT\n"),
    (
        "",
        "run --steps 1 --steps 2 a/p.Main",
        "2 words: Repeated --steps\n",
    ),
    (
        "",
        "run --steps 99999999999999999999 a/p.Main",
        "2 words: BadNumber 2\n",
    ),
    ("", "run a/Main", "2 words: BadTarget 1\n"),
    ("", "run --module-path m a/p.Main", "2 words: NotBuilt\n"),
    ("", "sample 3 100", "2 words: NotBuilt\n"),
    ("", "sample 3", "2 words: Missing BOUND\n"),
];

#[test]
fn refused_words(rt: HostRuntime) -> Result<(), Fail> {
    check_rows(rt.alloc(), &WORD_ROWS)
}

/// What comes of these bytes as the declaration file of `m/a`.
fn launched_over(alloc: Global, bytes: Vec<u8>) -> Result<String, Fail> {
    let mut files = Items::new(alloc);
    files.push(info_file(alloc, "m/a", bytes)?)?;
    launched(
        alloc,
        &mut tree_of(alloc, files, &[])?,
        "resolve --module-path m a",
    )
}

/// Tries each row on a declaration file: it is cut behind so many bytes and zeros stand there, and it has this
/// fault then.
fn all_wrong(alloc: Global, file: &[u8], rows: &[(usize, usize, &str)]) -> Result<(), Fail> {
    for (count, more, fault) in rows {
        let zeros = vec![in alloc; 0; *more]?;
        let bytes = edited(alloc, file, *count, file.len(), &zeros)?;
        let want = format!(in alloc; "3 refused: Find Info m/a/module-info.class {fault}\n")?;
        same(launched_over(alloc, bytes)?.as_str(), want.as_str())?;
    }
    Ok(())
}

#[test]
fn wrong_declarations(rt: HostRuntime) -> Result<(), Fail> {
    static ROWS: [(usize, usize, &str); 5] = [
        (0, 0, "Short 0"),
        (40, 0, "Short 40"),
        (77, 0, "Short 74"),
        (99, 0, "Short 78"),
        (100, 1, "Trailing"),
    ];
    let smallest = plain_file(rt.alloc(), "a")?;
    all_wrong(rt.alloc(), &smallest, &ROWS)?;
    same(launched_over(rt.alloc(), smallest)?.as_str(), SMALLEST)
}

/// Tries each row: a declaration file of so many zeros, and what is written of it.
fn all_zeros(alloc: Global, rows: &[(usize, &str)]) -> Result<(), Fail> {
    for (count, want) in rows {
        let bytes = vec![in alloc; 0; *count]?;
        same(launched_over(alloc, bytes)?.as_str(), want)?;
    }
    Ok(())
}

#[test]
fn long_files(rt: HostRuntime) -> Result<(), Fail> {
    static ROWS: [(usize, &str); 2] = [
        (
            4194304,
            "3 refused: Find Info m/a/module-info.class BadMagic\n",
        ),
        (
            4194305,
            "3 refused: Find TooLarge m/a/module-info.class 4194305\n",
        ),
    ];
    all_zeros(rt.alloc(), &ROWS)
}

/// A tree in memory that tells nothing, and counts its calls.
#[derive(Drop)]
struct Counted {
    tree: MemTree,
    calls: u64,
}

impl Tree for Counted {
    ghost use Rattle.std.specs.Prelude.{None, true};

    ghost files = { λ _. None };

    ghost asked = { λ _. None };

    ghost faults = { λ t. t.tree.faults };

    ghost counts_exactly = { true };

    fn list(&mut self, alloc: Global, dir: &Name) -> Result<Option<Vec<Entry>>, TreeFault> {
        self.calls = self.calls.wrapping_add(1);
        self.tree.list(alloc, dir)
    }

    fn read(
        &mut self,
        alloc: Global,
        path: &Name,
        most: usize,
    ) -> Result<Option<Vec<u8>>, TreeFault> {
        self.calls = self.calls.wrapping_add(1);
        self.tree.read(alloc, path, most)
    }
}

/// A sink in memory that takes so many bytes of a piece at the most, tells nothing, and counts its calls.
#[derive(Drop)]
struct Slow {
    sink: MemSink,
    most: usize,
    calls: u64,
}

impl Sink for Slow {
    ghost use Rattle.std.specs.Prelude.{None, false};

    ghost taken = { λ _. None };

    ghost faults = { λ s. s.sink.faults };

    ghost counts_exactly = { false };

    fn write(&mut self, piece: &[u8]) -> Result<usize, SinkFault> {
        self.calls = self.calls.wrapping_add(1);
        if piece.len() > self.most && self.most > 0 {
            return self.sink.write(&piece[..self.most]);
        }
        self.sink.write(piece)
    }
}

/// How many calls of the tree and of the sink were made, the declaration files asked for, the status and the text,
/// where these calls fail.
fn calls(
    alloc: Global,
    most: usize,
    tree_fails: &[u64],
    sink_fails: &[u64],
) -> Result<String, Fail> {
    let files = "m/a = a; requires b | m/b = b | m/b/p/X.class";
    let mut tree = Counted {
        tree: tree_in(alloc, files, tree_fails)?,
        calls: 0,
    };
    let mut sink = Slow {
        sink: MemSink::new(alloc, 1000, numbers(alloc, sink_fails)?)?,
        most,
        calls: 0,
    };
    let status = status(alloc, "resolve --module-path m a", &mut tree, &mut sink)?;
    let (asked, of_tree, of_sink) = (tree.tree.asked().len(), tree.calls, sink.calls);
    let text = written(alloc, status, &sink.sink)?;
    Ok(format!(in alloc; "{of_tree} {asked} {of_sink} {text}")?)
}

/// What is wanted where the first call of the tree fails, the second, and so on.
fn all_fail_in_tree(alloc: Global, rows: &[&str]) -> Result<(), Fail> {
    for (before, want) in rows.iter().enumerate() {
        same(calls(alloc, 100, &[before as u64 + 1], &[])?.as_str(), want)?;
    }
    Ok(())
}

/// Likewise of the sink.
fn all_fail_in_sink(alloc: Global, rows: &[&str]) -> Result<(), Fail> {
    for (before, want) in rows.iter().enumerate() {
        same(calls(alloc, 100, &[], &[before as u64 + 1])?.as_str(), want)?;
    }
    Ok(())
}

/// The tree is asked six times: for `m`, `m/a` and its declaration, `m/b`, `m/b/p` and the declaration of `m/b`. No
/// call follows the one that fails, and nothing is written.
#[test]
fn each_call_of_the_tree_fails(rt: HostRuntime) -> Result<(), Fail> {
    static ROWS: [&str; 6] = [
        "1 0 0 6 ", "2 0 0 6 ", "3 1 0 6 ", "4 1 0 6 ", "5 1 0 6 ", "6 2 0 6 ",
    ];
    all_fail_in_tree(rt.alloc(), &ROWS)
}

/// The sink is asked for each line. No call follows the one that fails, and the lines before it are written.
#[test]
fn each_call_of_the_sink_fails(rt: HostRuntime) -> Result<(), Fail> {
    static ROWS: [&str; 7] = [
        "6 2 1 7 ",
        "6 2 2 7 module a\n",
        "6 2 3 7 module a\n  reads b\n",
        "6 2 4 7 module a\n  reads b\n  reads java.base\n",
        "6 2 5 7 module a\n  reads b\n  reads java.base\nmodule b\n",
        "6 2 6 7 module a\n  reads b\n  reads java.base\nmodule b\n  reads java.base\n",
        "6 2 6 0 module a\n  reads b\n  reads java.base\nmodule b\n  reads java.base\nmodule java.base\n",
    ];
    all_fail_in_sink(rt.alloc(), &ROWS)
}

/// A sink that takes nine bytes at the most is asked for the rest of a line.
#[test]
fn a_slow_sink_takes_the_same(rt: HostRuntime) -> Result<(), Fail> {
    let alloc = rt.alloc();
    let third = "6 2 3 7 module a\n  reads b";
    same(calls(alloc, 9, &[], &[3])?.as_str(), third)?;
    let fifth = "6 2 5 7 module a\n  reads b\n  reads j";
    same(calls(alloc, 9, &[], &[5])?.as_str(), fifth)?;
    let all =
        "6 2 10 0 module a\n  reads b\n  reads java.base\nmodule b\n  reads java.base\nmodule java.base\n";
    same(calls(alloc, 9, &[], &[])?.as_str(), all)
}

/// A tree that answers otherwise from call to call.
#[derive(Drop)]
struct Liar {
    declaration: Vec<u8>,
    calls: u64,
}

impl Liar {
    /// Whether this call answers with something.
    fn answers(&mut self) -> bool {
        self.calls = self.calls.wrapping_add(1);
        self.calls % 3 != 0
    }
}

fn entry(alloc: Global, name: &str, is_dir: bool) -> Result<Entry, CopyEnd> {
    Ok(Entry {
        name: Name::from_text(alloc, name)?,
        is_dir,
    })
}

impl Tree for Liar {
    ghost use Rattle.std.specs.Prelude.{None, true};

    ghost files = { λ _. None };

    ghost asked = { λ _. None };

    ghost faults = { λ _. 0 };

    ghost counts_exactly = { true };

    fn list(&mut self, alloc: Global, _dir: &Name) -> Result<Option<Vec<Entry>>, TreeFault> {
        if !self.answers() {
            return Ok(None);
        }
        let mut entries = Vec::new(alloc);
        entries.push(entry(alloc, "module-info.class", self.calls % 2 == 0)?)?;
        entries.push(entry(alloc, "x", self.calls % 2 == 1)?)?;
        entries.push(entry(alloc, "x", true)?)?;
        Ok(Some(entries))
    }

    fn read(
        &mut self,
        alloc: Global,
        _path: &Name,
        _most: usize,
    ) -> Result<Option<Vec<u8>>, TreeFault> {
        if !self.answers() {
            return Ok(None);
        }
        let all = self.declaration.as_slice();
        let count = if self.calls % 2 == 0 { 90 } else { all.len() };
        Ok(Some(Vec::from_slice(alloc, &all[..count.min(all.len())])?))
    }
}

/// The status of a launch over a tree that lies, after so many calls.
fn lied(alloc: Global, calls: u64) -> Result<u8, Fail> {
    let mut liar = Liar {
        declaration: plain_file(alloc, "a")?,
        calls,
    };
    let mut sink = MemSink::new(alloc, 2000, Items::new(alloc))?;
    status(alloc, "resolve --module-path m:n:x a", &mut liar, &mut sink)
}

#[test]
fn a_launch_over_a_lying_tree_returns(rt: HostRuntime) -> Result<(), Fail> {
    for calls in 0..6 {
        let status = lied(rt.alloc(), calls)?;
        assert!(rt; status == 0 || status == 3);
    }
    Ok(())
}
