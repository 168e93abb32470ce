//! The attributes of a declaration file (JVMS 4.7).

ghost use Rattle.std.specs.Prelude.{◌≡◌};
ghost use Rattle.std.specs.List.{list_any};
ghost use Rattle.jl_logic.specs.Answers.{Gives};
ghost use Rattle.jl_classfile.specs.Places.{Reads};
ghost use Rattle.jl_tables.specs.Faults.{told};
ghost use Rattle.jl_modinfo.specs.Reading.{form_name, is_form, part_form, attributes_at, attributes_in};
ghost use Rattle.jl_modinfo.specs.Reading as reading;

use crate::module::{Module, module_of};
use jl_classfile::{AttributeReader, Place};
use jl_pool::Pool;
use jl_prim::{Copied, Items, Name};
use jl_tables::{InfoFault, Kind, name_at, names_at, repetition};
use std::alloc::Global;

/// The attributes of a declaration file that are read.
#[derive(Clone, Copy, Debug, PartialEq, Eq)]
pub enum Form {
    /// JVMS 4.7.25.
    Module,
    /// JVMS 4.7.26.
    Packages,
    /// JVMS 4.7.27.
    MainClass,
}

/// What one of them means.
#[derive(Debug, Drop)]
pub enum Part {
    Module(Module),
    Packages(Items<Name>),
    MainClass(Name),
}

/// What the attributes declare together.
#[derive(Debug, Drop)]
pub struct FileParts {
    pub module: Option<Module>,
    pub packages: Option<Items<Name>>,
    pub main: Option<Name>,
}

/// What reads the attributes of a file with this pool.
#[derive(Clone, Copy)]
struct InfoReader<'a> {
    pool: &'a Pool,
}

impl Form {
    fn name(self) -> &'static str
        ensures { result.now ≡ form_name self }
    {
        match self {
            Form::Module => "Module",
            Form::Packages => "ModulePackages",
            Form::MainClass => "ModuleMainClass",
        }
    }

    fn is(self, other: Form) -> bool
        ensures { result ≡ is_form self other }
    {
        matches!(
            (self, other),
            (Form::Module, Form::Module)
                | (Form::Packages, Form::Packages)
                | (Form::MainClass, Form::MainClass)
        )
    }
}

impl Part {
    fn form(&self) -> Form
        ensures { result ≡ part_form self.now }
    {
        match self {
            Part::Module(_) => Form::Module,
            Part::Packages(_) => Form::Packages,
            Part::MainClass(_) => Form::MainClass,
        }
    }
}

impl<'a> AttributeReader<Form, Part, InfoFault> for InfoReader<'a> {
    ghost use Rattle.jl_modinfo.specs.Reading.{reader_of};

    ghost reader = { λ it. reader_of it.pool.now };

    fn form(&self, name: &Name) -> Option<Form> {
        let name = name.as_str();
        if name == "Module" {
            Some(Form::Module)
        } else if name == "ModulePackages" {
            Some(Form::Packages)
        } else if name == "ModuleMainClass" {
            Some(Form::MainClass)
        } else {
            None
        }
    }

    fn may_stand(&self, done: &[Part], form: Form) -> bool {
        !has_form(done, form)
    }

    fn unnamed(&self, place: usize) -> InfoFault {
        InfoFault::BadIndex(place)
    }

    fn refused(&self, alloc: Global, _place: usize, form: Form) -> InfoFault {
        repetition(alloc, "attributes", form.name())
    }

    fn cut(&self, _place: usize, at: usize) -> InfoFault {
        InfoFault::Short(at)
    }

    fn no_memory(&self) -> InfoFault {
        InfoFault::NoMemory
    }

    fn meaning(
        &self,
        alloc: Global,
        form: Form,
        _place: usize,
        content: Place<'_>,
    ) -> Result<Part, InfoFault> {
        match form {
            Form::Module => Ok(Part::Module(module_of(alloc, self.pool, content)?)),
            Form::Packages => Ok(Part::Packages(packages_of(alloc, self.pool, content)?)),
            Form::MainClass => Ok(Part::MainClass(main_of(self.pool, content)?)),
        }
    }
}

/// Whether an attribute of the form was read.
fn has_form(done: &[Part], form: Form) -> bool
    ensures { result ≡ list_any (λ part. is_form form (part_form part)) done.now }
{
    done.iter().any(|part| form.is(part.form()))
}

/// What the attributes declare whose count stands at a place, and the place after them.
#[tactic(auto, unfolding(crate::specs::Reading::attributes_at))]
pub fn attributes_of<'p>(
    alloc: Global,
    pool: &Pool,
    place: Place<'p>,
) -> Result<(FileParts, Place<'p>), InfoFault>
    ensures { Reads told (λ read. read) place.entry result (attributes_at pool.now) }
{
    let (count, place) = place.u16::<InfoFault>()?;
    let reader = InfoReader { pool };
    let (read, next) = jl_classfile::attributes_at(alloc, &reader, pool, count, place)?;
    Ok((together(read), next))
}

/// What attributes declare together. Of a form that stood twice the first would count.
fn together(read: Vec<Part>) -> FileParts
    ensures { result ≡ attributes_in read.items }
{
    let mut rest = read;
    let mut behind = FileParts {
        module: None,
        packages: None,
        main: None,
    };
    while let Some(part) = rest.pop() {
        behind = before(part, behind);
    }
    behind
}

/// What an attribute declares before others.
fn before(part: Part, behind: FileParts) -> FileParts
    ensures { result ≡ reading.before part behind }
{
    let mut all = behind;
    match part {
        Part::Module(module) => all.module = Some(module),
        Part::Packages(packages) => all.packages = Some(packages),
        Part::MainClass(class) => all.main = Some(class),
    }
    all
}

/// The packages that the bytes from a place on list, all of them.
#[tactic(auto, unfolding(crate::specs::Reading::packages_at))]
fn packages_of(alloc: Global, pool: &Pool, content: Place<'_>) -> Result<Items<Name>, InfoFault>
    ensures { Gives told (λ x. x) result (reading.packages_at pool.now content.entry.bytes.now content.entry.at) }
{
    let (packages, next) = names_at(alloc, pool, "packages", Kind::Package, content)?;
    if !next.is_end() {
        return Err(InfoFault::Trailing);
    }
    Ok(packages)
}

/// The class that the bytes from a place on name, all of them.
#[tactic(auto, unfolding(crate::specs::Reading::main_at))]
fn main_of(pool: &Pool, content: Place<'_>) -> Result<Name, InfoFault>
    ensures { Gives told (λ x. x) result (reading.main_at pool.now content.entry.bytes.now content.entry.at) }
{
    let (name, next) = name_at(pool, Kind::Class, content)?;
    if !next.is_end() {
        return Err(InfoFault::Trailing);
    }
    Ok(name.copy()?)
}
