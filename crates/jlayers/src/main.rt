//! `jlayers` resolves Java modules that are kept in folders, and prints the module graph.
#![tactic(auto)]

use jl_launch::{launch, status_of};
use jl_tree::{FolderTree, StdoutSink};
use std::alloc::Global;
use std::env;
use std::io::{self, ErrorKind};
use std::process::ExitCode;
use std::rt::{Env, Runtime};

/// The status where there is no memory for the words.
const NO_MEMORY: u8 = 9;

/// The status where the words are refused before they are read, as one that is not UTF-8.
const BAD_WORDS: u8 = 11;

fn main(rt: HostRuntime) -> ExitCode {
    match words_of_program(&rt) {
        Ok(words) => ExitCode::from(run(&rt, words.as_slice())),
        Err(error) => ExitCode::from(status_of_words(&error)),
    }
}

/// The words without the program's own name.
fn words_of_program<R: Env + Alloc>(rt: &R) -> io::Result<Vec<String<R::A>, R::A>> {
    let mut words = Vec::new(rt.alloc());
    for word in env::args(rt)?.skip(1) {
        words.push(word)?;
    }
    Ok(words)
}

fn status_of_words(error: &io::Error) -> u8 {
    if error.kind() == ErrorKind::OutOfMemory {
        NO_MEMORY
    } else {
        BAD_WORDS
    }
}

fn run<R: Runtime<A = Global>>(rt: &R, words: &[String]) -> u8 {
    let mut tree = FolderTree::new(rt);
    let mut out = StdoutSink::new(rt);
    status_of(&launch(rt.alloc(), words, &mut tree, &mut out))
}
