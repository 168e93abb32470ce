//! Class files that a test makes.

use crate::making::words;
use jl_making::{bytes_in, tree_of};
use jl_prim::{Items, Name};
use jl_tree::MemTree;
use std::alloc::Global;
use std::test::Fail;

/// A class file that is being written: its pool, with how many entries it has, and the rows behind it.
#[derive(Drop)]
struct Parts {
    pool: Vec<u8>,
    entries: usize,
    interfaces: Vec<u8>,
    fields: Vec<u8>,
    methods: Vec<u8>,
    host: Vec<u8>,
    members: Vec<u8>,
    permits: Vec<u8>,
}

/// The tree of the class files in a text, with `|` between them.
///
/// A file is `FOLDER:CLASS WORDS`, where the first word is `cut`, `old` or the flags, and each other one a part:
/// `<NAME` the superclass, which is else `java/lang/Object` (`<` none), `=NAME` the name that the file declares in place
/// of CLASS, `:NAME` an interface, `fFLAGS,NAME,DESC` a field and `mFLAGS,NAME,DESC` a method, which is native unless it
/// is abstract, `hNAME` the host, `nNAME` a member of the nest, `sNAME` a permitted subclass, and `CTEXT`,
/// `FCLASS,NAME,DESC`, `M..` and `I..` references to a class, a field, a method and a method of an interface. A CLASS `@K`
/// there is the class entry of reference K, counted from 0. Each reference takes six entries from the front of the pool on.
pub fn tree_in(alloc: Global, text: &str) -> Result<MemTree, Fail> {
    let mut files = Items::new(alloc);
    for entry in text.split('|') {
        if !entry.trim().is_empty() {
            files.push(file_in(alloc, entry)?)?;
        }
    }
    tree_of(alloc, files, &[])
}

fn file_in(alloc: Global, entry: &str) -> Result<(Name, Items<u8>), Fail> {
    let words = words(alloc, entry)?;
    let [place, rest @ ..] = words.as_slice() else {
        return Err(Fail::new("no file"));
    };
    let (folder, name) = place.split_once(':').ok_or("a folder")?;
    let bytes = class_file(alloc, name, rest)?;
    let path = format!(in alloc; "{folder}/{name}.class")?;
    Ok((Name::from_string(path), Items::from_vec(bytes)))
}

fn class_file(alloc: Global, name: &str, words: &[&str]) -> Result<Vec<u8>, Fail> {
    match words {
        ["cut"] => bytes_in(alloc, "cafebabe 0000 0035"),
        ["old"] => bytes_in(alloc, "cafebabe 0000 0034"),
        [flags, rest @ ..] => written(alloc, flags, name, rest),
        [] => Err(Fail::new("no flags")),
    }
}

fn written(alloc: Global, flags: &str, name: &str, words: &[&str]) -> Result<Vec<u8>, Fail> {
    let mut parts = Parts::new(alloc);
    for word in words {
        parts.refer(word)?;
    }
    for word in words {
        parts.state(alloc, word)?;
    }
    let this = parts.class(word_behind(words, '=').unwrap_or(name))?;
    let above = match word_behind(words, '<').unwrap_or("java/lang/Object") {
        "" => 0,
        other => parts.class(other)?,
    };
    let attributes = parts.attributes(alloc)?;
    let front = bytes_in(alloc, flags)?;
    assembled(alloc, &parts, &front, (this, above), &attributes)
}

/// The text behind the first word that begins with a character.
fn word_behind<'a>(words: &[&'a str], first: char) -> Option<&'a str> {
    for word in words {
        if let Some(rest) = word.strip_prefix(first) {
            return Some(rest);
        }
    }
    None
}

fn assembled(
    alloc: Global,
    parts: &Parts,
    flags: &[u8],
    names: (usize, usize),
    attributes: &[u8],
) -> Result<Vec<u8>, Fail> {
    let mut bytes = bytes_in(alloc, "cafebabe 0000 003d")?;
    push_number(&mut bytes, parts.entries.saturating_add(1))?;
    bytes.extend_from_slice(&parts.pool)?;
    bytes.extend_from_slice(flags)?;
    push_number(&mut bytes, names.0)?;
    push_number(&mut bytes, names.1)?;
    push_rows(&mut bytes, &parts.interfaces, 2)?;
    push_rows(&mut bytes, &parts.fields, 8)?;
    push_rows(&mut bytes, &parts.methods, 8)?;
    bytes.extend_from_slice(attributes)?;
    Ok(bytes)
}

/// How many rows of a size there are, and the rows.
fn push_rows(bytes: &mut Vec<u8>, rows: &[u8], size: usize) -> Result<(), Fail> {
    if size == 0 {
        return Err(Fail::new("no rows"));
    }
    push_number(bytes, rows.len() / size)?;
    bytes.extend_from_slice(rows)?;
    Ok(())
}

fn push_number(bytes: &mut Vec<u8>, n: usize) -> Result<(), Fail> {
    bytes.extend_from_slice(&[(n / 256 % 256) as u8, (n % 256) as u8])?;
    Ok(())
}

impl Parts {
    fn new(alloc: Global) -> Parts {
        Parts {
            pool: Vec::new(alloc),
            entries: 0,
            interfaces: Vec::new(alloc),
            fields: Vec::new(alloc),
            methods: Vec::new(alloc),
            host: Vec::new(alloc),
            members: Vec::new(alloc),
            permits: Vec::new(alloc),
        }
    }

    /// Enters an entry: its tag and its numbers.
    fn enter(&mut self, tag: u8, numbers: &[usize]) -> Result<usize, Fail> {
        self.pool.push(tag)?;
        for n in numbers {
            push_number(&mut self.pool, *n)?;
        }
        self.entries = self.entries.saturating_add(1);
        Ok(self.entries)
    }

    fn text(&mut self, text: &str) -> Result<usize, Fail> {
        let index = self.enter(1, &[text.len()])?;
        self.pool.extend_from_slice(text.as_bytes())?;
        Ok(index)
    }

    fn class(&mut self, name: &str) -> Result<usize, Fail> {
        let text = self.text(name)?;
        self.enter(7, &[text])
    }

    /// Enters the reference that a word is.
    fn refer(&mut self, word: &str) -> Result<(), Fail> {
        let Some((letter, rest)) = word.split_at_checked(1) else {
            return Ok(());
        };
        match letter {
            "C" => self.refer_to_class(rest),
            "F" => self.refer_to_member(9, rest),
            "M" => self.refer_to_member(10, rest),
            "I" => self.refer_to_member(11, rest),
            _ => Ok(()),
        }
    }

    fn refer_to_class(&mut self, text: &str) -> Result<(), Fail> {
        self.class(text)?;
        self.text("x")?;
        self.text("x")?;
        self.text("x")?;
        self.text("x")?;
        Ok(())
    }

    fn refer_to_member(&mut self, tag: u8, parts: &str) -> Result<(), Fail> {
        let (class, member) = parts.split_once(',').ok_or("a class")?;
        let class = self.class_of_reference(class)?;
        let (name, desc) = member.split_once(',').ok_or("a name")?;
        let name = self.text(name)?;
        let desc = self.text(desc)?;
        let both = self.enter(12, &[name, desc])?;
        self.enter(tag, &[class, both])?;
        Ok(())
    }

    fn class_of_reference(&mut self, class: &str) -> Result<usize, Fail> {
        let Some(number) = class.strip_prefix('@') else {
            return self.class(class);
        };
        self.text("x")?;
        self.text("x")?;
        let number: u8 = number.parse()?;
        Ok(number as usize * 6 + 2)
    }

    /// Adds the part that a word says.
    fn state(&mut self, alloc: Global, word: &str) -> Result<(), Fail> {
        let Some((letter, rest)) = word.split_at_checked(1) else {
            return Ok(());
        };
        match letter {
            "f" => {
                let row = self.member(alloc, rest, 0)?;
                self.fields.extend_from_slice(&row)?;
            }
            "m" => {
                let row = self.member(alloc, rest, 1)?;
                self.methods.extend_from_slice(&row)?;
            }
            _ => self.name(letter, rest)?,
        }
        Ok(())
    }

    fn name(&mut self, letter: &str, name: &str) -> Result<(), Fail> {
        match letter {
            ":" => {
                let class = self.class(name)?;
                push_number(&mut self.interfaces, class)
            }
            "h" => {
                let class = self.class(name)?;
                push_number(&mut self.host, class)
            }
            "n" => {
                let class = self.class(name)?;
                push_number(&mut self.members, class)
            }
            "s" => {
                let class = self.class(name)?;
                push_number(&mut self.permits, class)
            }
            _ => Ok(()),
        }
    }

    /// A row of a member, whose first flags get more bits unless it is abstract.
    fn member(&mut self, alloc: Global, parts: &str, more: u8) -> Result<Vec<u8>, Fail> {
        let (flags, rest) = parts.split_once(',').ok_or("flags")?;
        let (name, desc) = rest.split_once(',').ok_or("a name")?;
        let mut row = bytes_in(alloc, flags)?;
        if let Some(high) = row.first_mut() {
            if *high / 4 % 2 == 0 {
                *high |= more;
            }
        }
        let name = self.text(name)?;
        let desc = self.text(desc)?;
        push_number(&mut row, name)?;
        push_number(&mut row, desc)?;
        push_number(&mut row, 0)?;
        Ok(row)
    }

    /// The attributes of the class, behind their count.
    fn attributes(&mut self, alloc: Global) -> Result<Vec<u8>, Fail> {
        let mut rows = Vec::new(alloc);
        let mut count = 0;
        if !self.host.is_empty() {
            let name = self.text("NestHost")?;
            push_number(&mut rows, name)?;
            rows.extend_from_slice(&[0, 0, 0, 2])?;
            rows.extend_from_slice(&self.host)?;
            count += 1;
        }
        if !self.members.is_empty() {
            let name = self.text("NestMembers")?;
            push_list(&mut rows, name, &self.members)?;
            count += 1;
        }
        if !self.permits.is_empty() {
            let name = self.text("PermittedSubclasses")?;
            push_list(&mut rows, name, &self.permits)?;
            count += 1;
        }
        let mut bytes = Vec::new(alloc);
        push_number(&mut bytes, count)?;
        bytes.extend_from_slice(&rows)?;
        Ok(bytes)
    }
}

/// An attribute that is a list of classes.
fn push_list(bytes: &mut Vec<u8>, name: usize, list: &[u8]) -> Result<(), Fail> {
    push_number(bytes, name)?;
    push_number(bytes, 0)?;
    push_number(bytes, list.len().saturating_add(2))?;
    push_number(bytes, list.len() / 2)?;
    bytes.extend_from_slice(list)?;
    Ok(())
}
