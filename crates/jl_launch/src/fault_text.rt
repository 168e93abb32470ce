//! How refusals are printed: the kind of a fault, and behind it its fields.

ghost use Rattle.std.specs.Prelude.{◌≡◌, ◌∷◌, ◌++◌, [], Some, codes, is_some, IfOk, IsTrue};
ghost use Rattle.std.specs.String.{string_bytes};
ghost use Rattle.jl_config.specs.declared.fault.ResolveFault.TheVariants.{SamePackage, OwnPackage};
ghost use Rattle.jl_launch.specs.Text as lines;

use crate::end::Refusal;
use jl_config::ResolveFault;
use jl_finder::FindFault;
use jl_modinfo::InfoFault;
use jl_names::dotted;
use jl_prim::Name;
use jl_words::WordFault;
use std::alloc::{AllocError, Global};

/// The line of refused words.
pub fn words_line(alloc: Global, fault: &WordFault) -> Result<String, AllocError>
    requires { IsTrue (is_some (lines.word_text fault.now)) }
    ensures { IfOk result (λ line. string_bytes line ∷ [] ≡ lines.words_lines fault.now) }
{
    let text = word_text(alloc, fault)?;
    format!(in alloc; "words: {text}\n")
}

fn word_text(alloc: Global, fault: &WordFault) -> Result<String, AllocError>
    requires { IsTrue (is_some (lines.word_text fault.now)) }
    ensures { IfOk result (λ text. Some (string_bytes text) ≡ lines.word_text fault.now) }
{
    match fault {
        WordFault::NoCommand => String::from_str(alloc, "NoCommand"),
        WordFault::UnknownWord(at) => format!(in alloc; "UnknownWord {at}"),
        WordFault::Missing(what) => format!(in alloc; "Missing {what}"),
        WordFault::Repeated(option) => format!(in alloc; "Repeated {option}"),
        WordFault::BadNumber(at) => format!(in alloc; "BadNumber {at}"),
        WordFault::BadTarget(at) => format!(in alloc; "BadTarget {at}"),
        WordFault::NotBuilt => String::from_str(alloc, "NotBuilt"),
        WordFault::NoMemory => unreachable!(),
    }
}

/// The line of a refused command.
pub fn refusal_line(alloc: Global, refusal: &Refusal) -> Result<String, AllocError>
    requires { IsTrue (is_some (lines.refusal_text refusal.now)) }
    ensures { IfOk result (λ line. string_bytes line ∷ [] ≡ lines.refusal_lines refusal.now) }
{
    let text = refusal_text(alloc, refusal)?;
    format!(in alloc; "refused: {text}\n")
}

fn refusal_text(alloc: Global, refusal: &Refusal) -> Result<String, AllocError>
    requires { IsTrue (is_some (lines.refusal_text refusal.now)) }
    ensures { IfOk result (λ text. Some (string_bytes text) ≡ lines.refusal_text refusal.now) }
{
    match refusal {
        Refusal::Find(fault) => {
            let text = find_text(alloc, fault)?;
            format!(in alloc; "Find {text}")
        }
        Refusal::Resolve(fault) => {
            let text = resolve_text(alloc, fault)?;
            format!(in alloc; "Resolve {text}")
        }
    }
}

fn find_text(alloc: Global, fault: &FindFault) -> Result<String, AllocError>
    requires { IsTrue (is_some (lines.find_text fault.now)) }
    ensures { IfOk result (λ text. Some (string_bytes text) ≡ lines.find_text fault.now) }
{
    match fault {
        FindFault::Info(path, fault) => {
            let text = info_text(alloc, fault)?;
            format!(in alloc; "Info {path} {text}")
        }
        FindFault::Archive(path) => format!(in alloc; "Archive {path}"),
        FindFault::TwoInDirectory(dir, name) => format!(in alloc; "TwoInDirectory {dir} {name}"),
        FindFault::TopLevelClass(path) => format!(in alloc; "TopLevelClass {path}"),
        FindFault::TooLarge(path, length) => format!(in alloc; "TooLarge {path} {length}"),
        FindFault::TooMany => String::from_str(alloc, "TooMany"),
        FindFault::ReadFault => unreachable!(),
        FindFault::NoMemory => unreachable!(),
    }
}

fn info_text(alloc: Global, fault: &InfoFault) -> Result<String, AllocError>
    requires { IsTrue (is_some (lines.info_text fault.now)) }
    ensures { IfOk result (λ text. Some (string_bytes text) ≡ lines.info_text fault.now) }
{
    match fault {
        InfoFault::BadMagic => String::from_str(alloc, "BadMagic"),
        InfoFault::BadVersion => String::from_str(alloc, "BadVersion"),
        InfoFault::Short(at) => format!(in alloc; "Short {at}"),
        InfoFault::BadPool(index) => format!(in alloc; "BadPool {index}"),
        InfoFault::NotModule(name) => format!(in alloc; "NotModule {name}"),
        InfoFault::NoModuleAttribute => String::from_str(alloc, "NoModuleAttribute"),
        InfoFault::BadIndex(at) => format!(in alloc; "BadIndex {at}"),
        InfoFault::Repeated(table, name) => {
            let name = dotted(alloc, name.as_str())?;
            format!(in alloc; "Repeated {table} {name}")
        }
        InfoFault::BaseRule => String::from_str(alloc, "BaseRule"),
        InfoFault::PackageMissing(name) => {
            let name = dotted(alloc, name.as_str())?;
            format!(in alloc; "PackageMissing {name}")
        }
        InfoFault::Trailing => String::from_str(alloc, "Trailing"),
        InfoFault::NoMemory => unreachable!(),
    }
}

fn resolve_text(alloc: Global, fault: &ResolveFault) -> Result<String, AllocError>
    requires { IsTrue (is_some (lines.resolve_text fault.now)) }
    ensures { IfOk result (λ text. Some (string_bytes text) ≡ lines.resolve_text fault.now) }
{
    match fault {
        ResolveFault::NoParents => String::from_str(alloc, "NoParents"),
        ResolveFault::NotFound { name, by: Some(by) } => {
            format!(in alloc; "NotFound {name} {by}")
        }
        ResolveFault::NotFound { name, by: None } => format!(in alloc; "NotFound {name} -"),
        ResolveFault::TooMany => String::from_str(alloc, "TooMany"),
        ResolveFault::Cycle { least } => format!(in alloc; "Cycle {least}"),
        ResolveFault::SameName { reader, name } => format!(in alloc; "SameName {reader} {name}"),
        ResolveFault::SamePackage {
            reader,
            package,
            one,
            other,
        } => same_package_text(alloc, reader, package, one, other),
        ResolveFault::OwnPackage {
            reader,
            package,
            other,
        } => own_package_text(alloc, reader, package, other),
        ResolveFault::ServicePackage { module, service } => {
            let service = dotted(alloc, service.as_str())?;
            format!(in alloc; "ServicePackage {module} {service}")
        }
        ResolveFault::NoMemory => unreachable!(),
    }
}

fn same_package_text(
    alloc: Global,
    reader: &Name,
    held: &Name,
    one: &Name,
    other: &Name,
) -> Result<String, AllocError>
    ensures { IfOk result (λ text. Some (string_bytes text) ≡ lines.resolve_text (SamePackage reader.now held.now one.now other.now)) }
{
    let package = dotted(alloc, held.as_str())?;
    let of_package = format!(in alloc; "SamePackage {reader} {package}")?;
    with_both(alloc, of_package.as_str(), one, other)
}

fn with_both(alloc: Global, text: &str, one: &Name, other: &Name) -> Result<String, AllocError>
    ensures { IfOk result (λ all. string_bytes all ≡ text.now ++ lines.field one.now ++ lines.field other.now) }
{
    format!(in alloc; "{text} {one} {other}")
}

fn own_package_text(
    alloc: Global,
    reader: &Name,
    held: &Name,
    other: &Name,
) -> Result<String, AllocError>
    ensures { IfOk result (λ text. Some (string_bytes text) ≡ lines.resolve_text (OwnPackage reader.now held.now other.now)) }
{
    let package = dotted(alloc, held.as_str())?;
    let of_package = format!(in alloc; "OwnPackage {reader} {package}")?;
    format!(in alloc; "{of_package} {other}")
}
