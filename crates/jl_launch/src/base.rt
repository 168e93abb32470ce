//! The built-in `java.base`.

ghost use Rattle.std.specs.Prelude.{◌≡◌, ◌∷◌, [], ◌++◌, map, IfOk, OnOk};
ghost use Rattle.jl_launch.specs.Base.{built_in_base, shown_packages, hidden_packages, to_all};

use jl_prim::{CopyEnd, Declaration, Found, Grant, Items, Name, Observed};
use std::alloc::Global;

/// The packages that it exports to all.
const SHOWN: [&str; 6] = [
    "java/lang",
    "java/lang/module",
    "java/lang/reflect",
    "java/util",
    "java/io",
    "java/nio/file",
];

/// Those that it has for itself.
const HIDDEN: [&str; 1] = ["jdk/internal"];

/// The built-in `java.base` alone.
pub fn base_alone(alloc: Global) -> Result<Found, CopyEnd>
    ensures { IfOk result (λ f. f.modules ≡ built_in_base ∷ []) }
{
    let mut modules = Vec::new(alloc);
    modules.push(base(alloc)?)?;
    Ok(Found {
        modules: Items::from_vec(modules),
    })
}

fn base(alloc: Global) -> Result<Observed, CopyEnd>
    ensures { IfOk result (λ o. o ≡ built_in_base) }
{
    Ok(Observed {
        declaration: Declaration {
            name: Name::from_text(alloc, "java.base")?,
            is_open: false,
            version: None,
            required: Items::new(alloc),
            exports: exports(alloc, &SHOWN)?,
            opens: Items::new(alloc),
            uses: Items::new(alloc),
            provides: Items::new(alloc),
            packages: packages(alloc)?,
            main: None,
        },
        place: Name::from_text(alloc, "")?,
    })
}

/// Exports of these packages to all.
fn exports(alloc: Global, texts: &[&str]) -> Result<Items<Grant>, CopyEnd>
    ensures { IfOk result (λ grants. grants ≡ map (λ text. to_all text.now) texts.now) }
{
    let mut grants = Vec::new(alloc);
    for text in texts {
        grants.push(Grant {
            package: Name::from_text(alloc, text)?,
            to: None,
        })?;
    }
    Ok(Items::from_vec(grants))
}

fn packages(alloc: Global) -> Result<Items<Name>, CopyEnd>
    ensures { IfOk result (λ names. names ≡ shown_packages ++ hidden_packages) }
{
    let mut names = Vec::new(alloc);
    push_names(alloc, &mut names, &SHOWN)?;
    push_names(alloc, &mut names, &HIDDEN)?;
    Ok(Items::from_vec(names))
}

fn push_names(alloc: Global, names: &mut Vec<Name>, texts: &[&str]) -> Result<(), CopyEnd>
    ensures { OnOk result (names.new.items ≡ names.old.items ++ map (λ text. text.now) texts.now) }
{
    for text in texts {
        names.push(Name::from_text(alloc, text)?)?;
    }
    Ok(())
}
