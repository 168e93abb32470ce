//! Declarations by their statements, and their files.

use crate::names::names_in;
use jl_modinfo::{is_writable, write_info};
use jl_prim::{Declaration, Grant, Items, Name, Provides, Requires};
use std::alloc::Global;
use std::test::Fail;

/// The declaration of these statements, which stand between `;`.
///
/// `module NAME` and `open module NAME` name it, `version TEXT` and `main CLASS` say what they say.
/// `requires MODULE`, `requires transitive MODULE`, `requires static MODULE`, `exports PACKAGE`,
/// `exports PACKAGE to MODULE ..`, `opens ..` likewise, `uses CLASS`, `provides CLASS with CLASS ..` and
/// `packages PACKAGE ..` add to the tables. Nothing is added that is not said.
pub fn declaration(alloc: Global, statements: &str) -> Result<Declaration, Fail> {
    let mut d = unnamed(alloc)?;
    for statement in statements.split(';') {
        state(alloc, &mut d, statement.trim())?;
    }
    Ok(d)
}

/// The file of a declaration.
pub fn file_of(alloc: Global, d: &Declaration) -> Result<Vec<u8>, Fail> {
    if !is_writable(alloc, d)? {
        return Err(Fail::new("not writable"));
    }
    Ok(write_info(alloc, d)?)
}

/// The file of the declaration of these statements.
pub fn module_file(alloc: Global, statements: &str) -> Result<Vec<u8>, Fail> {
    file_of(alloc, &declaration(alloc, statements)?)
}

fn unnamed(alloc: Global) -> Result<Declaration, Fail> {
    Ok(Declaration {
        name: Name::from_text(alloc, "")?,
        is_open: false,
        version: None,
        required: Items::new(alloc),
        exports: Items::new(alloc),
        opens: Items::new(alloc),
        uses: Items::new(alloc),
        provides: Items::new(alloc),
        packages: Items::new(alloc),
        main: None,
    })
}

fn state(alloc: Global, d: &mut Declaration, statement: &str) -> Result<(), Fail> {
    let (word, rest) = statement.split_once(' ').unwrap_or((statement, ""));
    match word {
        "module" => d.name = Name::from_text(alloc, rest)?,
        "open" => {
            d.is_open = true;
            state_name(alloc, d, rest)?;
        }
        "version" => d.version = Some(Name::from_text(alloc, rest)?),
        "main" => d.main = Some(Name::from_text(alloc, rest)?),
        "requires" => d.required.push(required(alloc, rest)?)?,
        "exports" => d.exports.push(grant(alloc, rest)?)?,
        "opens" => d.opens.push(grant(alloc, rest)?)?,
        "uses" => d.uses.push(Name::from_text(alloc, rest)?)?,
        "provides" => d.provides.push(provided(alloc, rest)?)?,
        "packages" => d.packages = names_in(alloc, rest)?,
        "" => {}
        _ => return Err(Fail::new(word)),
    }
    Ok(())
}

fn state_name(alloc: Global, d: &mut Declaration, words: &str) -> Result<(), Fail> {
    let Some(("module", name)) = words.split_once(' ') else {
        return Err(Fail::new(words));
    };
    d.name = Name::from_text(alloc, name)?;
    Ok(())
}

fn required(alloc: Global, words: &str) -> Result<Requires, Fail> {
    let mut required = Requires {
        name: Name::from_text(alloc, "")?,
        transitive: false,
        is_static: false,
    };
    for word in words.split_whitespace() {
        match word {
            "transitive" => required.transitive = true,
            "static" => required.is_static = true,
            _ => required.name = Name::from_text(alloc, word)?,
        }
    }
    Ok(required)
}

fn grant(alloc: Global, words: &str) -> Result<Grant, Fail> {
    Ok(match words.split_once(" to ") {
        None => Grant {
            package: Name::from_text(alloc, words)?,
            to: None,
        },
        Some((package, modules)) => Grant {
            package: Name::from_text(alloc, package)?,
            to: Some(names_in(alloc, modules)?),
        },
    })
}

fn provided(alloc: Global, words: &str) -> Result<Provides, Fail> {
    let (service, classes) = words.split_once(" with ").unwrap_or((words, ""));
    Ok(Provides {
        service: Name::from_text(alloc, service)?,
        implementations: names_in(alloc, classes)?,
    })
}
