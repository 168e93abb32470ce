//! A hierarchy of listed classes, for hosts without a world of loaded classes.

ghost use Rattle.std.specs.Prelude.{◌≡◌, ◌==◌, ◌+◌, [], length, IfOk};
ghost use Rattle.std.specs.Option.{option_copied};
ghost use Rattle.std.specs.List.{list_any};
ghost use Rattle.jl_logic.specs.Answers.{Gives, Tells};
ghost use Rattle.jl_vtypes.specs.Listed as words;
ghost use Rattle.jl_vtypes.specs.Listed.{told, Steps};

use crate::ends::HierarchyEnd;
use crate::hierarchy::Hierarchy;
use crate::question::{Asked, Question};
use jl_names::Units;
use jl_prim::{CopyEnd, ErrorKind, Items, Name};
use std::alloc::{AllocError, Global};

/// A class or an interface, by its name in internal form, and its superclass, which only Object lacks.
#[derive(Debug, Drop)]
pub struct ListedClass {
    pub name: Name,
    pub is_interface: bool,
    pub superclass: Option<Name>,
}

/// A name of which no class loads, and the error of its load.
#[derive(Debug, Drop)]
pub struct MissingClass {
    pub name: Name,
    pub kind: ErrorKind,
    pub message: Option<Units>,
}

/// Classes by a list. It keeps the questions that it was asked, each with its answer.
#[derive(Drop)]
pub struct ListedClasses {
    classes: Items<ListedClass>,
    missing: Items<MissingClass>,
    fails: Items<u64>,
    asked: Items<Asked>,
    faults: u64,
}

impl ListedClasses {
    /// A hierarchy of these classes. The names in `missing` do not load, and are looked at first. The questions with
    /// the numbers in `fails` fail, counted from 1. A name that is in no list is missing with a NoClassDefFoundError
    /// without a message. A missing name may still stand among superclasses.
    pub fn new(
        alloc: Global,
        classes: Items<ListedClass>,
        missing: Items<MissingClass>,
        fails: Items<u64>,
    ) -> ListedClasses
        ensures { result ≡ record { classes = classes; missing = missing; fails = fails; asked = []; faults = 0 } }
    {
        ListedClasses {
            classes,
            missing,
            fails,
            asked: Items::new(alloc),
            faults: 0,
        }
    }

    /// The questions and answers so far, in order. A question for which there was no memory is none of them.
    pub fn asked(&self) -> &[Asked]
        ensures { result.now ≡ self.now.asked }
    {
        self.asked.as_slice()
    }

    /// How many questions failed. The count stands still at the last value of a u64.
    pub fn faults(&self) -> u64
        ensures { result ≡ self.now.faults }
    {
        self.faults
    }

    /// The answer to a question, which is kept with it.
    fn ask(&mut self, question: Question) -> Result<bool, HierarchyEnd>
        ensures { Steps self.old (record { question = question; answer = result }) self.new }
    {
        let answer = self.answer(&question);
        let kept = match &answer {
            Ok(is_so) => Ok(*is_so),
            Err(HierarchyEnd::NoMemory) => return Err(HierarchyEnd::NoMemory),
            Err(end) => Err(end.copy()?),
        };
        self.asked.push(Asked {
            question,
            answer: kept,
        })?;
        if let Err(HierarchyEnd::ReadFault) = answer {
            self.faults = self.faults.saturating_add(1);
        }
        answer
    }

    fn answer(&self, question: &Question) -> Result<bool, HierarchyEnd>
        ensures { Tells told result (words.answer self.now question.now) }
    {
        if is_among(self.fails.as_slice(), self.asked.len()) {
            return Err(HierarchyEnd::ReadFault);
        }
        match question {
            Question::IsInterface(name) => Ok(self.loaded(name.as_slice())?.is_interface),
            Question::IsSubclass(from, to) => {
                self.loaded(from.as_slice())?;
                self.loaded(to.as_slice())?;
                Ok(is_descendant(self.classes.as_slice(), from.as_slice(), to.as_slice()))
            }
        }
    }

    /// The class that a name loads.
    fn loaded(&self, name: &[u8]) -> Result<&ListedClass, HierarchyEnd>
        ensures { Gives told (λ c. c.now) result (words.loaded self.now name.now) }
    {
        if let Some(missing) = missing_named(self.missing.as_slice(), name) {
            return Err(error_of(missing)?);
        }
        match class_named(self.classes.as_slice(), name) {
            Some(class) => Ok(class),
            None => Err(HierarchyEnd::Missing(ErrorKind::NoClassDefFoundError, None)),
        }
    }
}

impl Hierarchy for ListedClasses {
    ghost step = { Steps };

    fn is_interface(&mut self, alloc: Global, name: &[u8]) -> Result<bool, HierarchyEnd> {
        let name = bytes_of(alloc, name)?;
        self.ask(Question::IsInterface(name))
    }

    fn is_subclass(&mut self, alloc: Global, from: &[u8], to: &[u8]) -> Result<bool, HierarchyEnd> {
        let from = bytes_of(alloc, from)?;
        let to = bytes_of(alloc, to)?;
        self.ask(Question::IsSubclass(from, to))
    }
}

fn bytes_of(alloc: Global, bytes: &[u8]) -> Result<Items<u8>, AllocError>
    ensures { IfOk result (λ copy. copy ≡ bytes.now) }
{
    Ok(Items::from_vec(Vec::from_slice(alloc, bytes)?))
}

fn is_among(numbers: &[u64], before: usize) -> bool
    ensures { result ≡ list_any (λ n. n == before + 1) numbers.now }
{
    numbers.iter().any(|number| is_next(*number, before))
}

/// Whether a number is one more than another.
fn is_next(number: u64, before: usize) -> bool
    ensures { result ≡ (number == before + 1) }
{
    number > 0 && number - 1 == before as u64
}

fn error_of(missing: &MissingClass) -> Result<HierarchyEnd, CopyEnd>
    ensures { IfOk result (λ e. e ≡ words.error_of missing.now) }
{
    match &missing.message {
        None => Ok(HierarchyEnd::Missing(missing.kind, None)),
        Some(message) => match message.copy() {
            Ok(message) => Ok(HierarchyEnd::Missing(missing.kind, Some(message))),
            Err(_) => Err(CopyEnd::NoMemory),
        },
    }
}

fn class_named<'a>(classes: &'a [ListedClass], name: &[u8]) -> Option<&'a ListedClass>
    ensures { option_copied result ≡ words.class_named classes.now name.now }
{
    classes.iter().find(|class| class.name.as_bytes() == name)
}

fn missing_named<'a>(missing: &'a [MissingClass], name: &[u8]) -> Option<&'a MissingClass>
    ensures { option_copied result ≡ words.missing_named missing.now name.now }
{
    missing.iter().find(|class| class.name.as_bytes() == name)
}

/// Whether a class is another one, or some superclass of it is. It stops after as many steps as there are classes.
fn is_descendant(classes: &[ListedClass], from: &[u8], to: &[u8]) -> bool
    ensures { result ≡ words.descends (length classes.now) classes.now to.now from.now }
{
    let mut from = from;
    for _ in 0..classes.len() {
        if from == to {
            return true;
        }
        match superclass_of(classes, from) {
            Some(above) => from = above,
            None => return false,
        }
    }
    false
}

fn superclass_of<'a>(classes: &'a [ListedClass], name: &[u8]) -> Option<&'a [u8]>
    ensures { option_copied result ≡ words.superclass_of (words.class_named classes.now name.now) }
{
    match class_named(classes, name) {
        Some(class) => match &class.superclass {
            Some(above) => Some(above.as_bytes()),
            None => None,
        },
        None => None,
    }
}
