//! The declaration of the built-in `java.base`.

ghost use Rattle.std.specs.Prelude.{◌≡◌, ◌++◌, map, IfOk, OnOk};
ghost use Rattle.jl_base.specs.Base.{base_declaration, exported_packages, hidden_packages, to_all};

use crate::fault::BaseFault;
use jl_prim::{Declaration, Grant, Items, Name};
use std::alloc::Global;

/// The packages that it exports to all.
const EXPORTED: [&str; 6] = [
    "java/lang",
    "java/lang/module",
    "java/lang/reflect",
    "java/util",
    "java/io",
    "java/nio/file",
];

/// Those that it has for itself.
const HIDDEN: [&str; 1] = ["jdk/internal"];

/// The declaration (JLS 7.7): it requires nothing.
pub fn declaration(alloc: Global) -> Result<Declaration, BaseFault>
    ensures { IfOk result (λ d. d ≡ base_declaration) }
{
    Ok(Declaration {
        name: Name::from_text(alloc, "java.base")?,
        is_open: false,
        version: None,
        required: Items::new(alloc),
        exports: exports(alloc, &EXPORTED)?,
        opens: Items::new(alloc),
        uses: Items::new(alloc),
        provides: Items::new(alloc),
        packages: packages(alloc)?,
        main: None,
    })
}

/// Exports of these packages to all.
fn exports(alloc: Global, texts: &[&str]) -> Result<Items<Grant>, BaseFault>
    ensures { IfOk result (λ grants. grants ≡ map (λ text. to_all text.now) texts.now) }
{
    let mut grants = Vec::new(alloc);
    for text in texts {
        grants.push(Grant {
            package: Name::from_text(alloc, text)?,
            to: None,
        })?;
    }
    Ok(Items::from_vec(grants))
}

fn packages(alloc: Global) -> Result<Items<Name>, BaseFault>
    ensures { IfOk result (λ names. names ≡ exported_packages ++ hidden_packages) }
{
    let mut names = Vec::new(alloc);
    push_names(alloc, &mut names, &EXPORTED)?;
    push_names(alloc, &mut names, &HIDDEN)?;
    Ok(Items::from_vec(names))
}

fn push_names(alloc: Global, names: &mut Vec<Name>, texts: &[&str]) -> Result<(), BaseFault>
    ensures { OnOk result (names.new.items ≡ names.old.items ++ map (λ text. text.now) texts.now) }
{
    for text in texts {
        names.push(Name::from_text(alloc, text)?)?;
    }
    Ok(())
}
