//! The report of the checks between modules.

ghost use Rattle.std.specs.Prelude.{◌≡◌, [], ◌∷◌, ◌++◌, List, OnOk, OnErr, slice_get, option_map, option_copied};
ghost use Rattle.jl_access.specs.Counting as counting;
ghost use Rattle.jl_access.specs.Reports.{Note, noted, lines_of, is_due};
ghost use Rattle.jl_access.specs.Texts as texts;

use crate::fault::FactsEnd;
use crate::verdict::Verdict;
use indexmap::IndexMap;
use jl_prim::{ModuleId, Name};
use std::alloc::Global;
use std::marker::Model;

/// What was checked.
#[derive(Clone, Copy, Debug, PartialEq, Eq, Hash)]
pub enum NoteKind {
    Class,
    Member,
    Reflect,
    Deep,
    Service,
    Caller,
}

impl NoteKind {
    /// The kind as it is printed.
    pub fn text(self) -> &'static str
        ensures { result.now ≡ texts.kind_text self }
    {
        match self {
            NoteKind::Class => "class",
            NoteKind::Member => "member",
            NoteKind::Reflect => "reflect",
            NoteKind::Deep => "deep",
            NoteKind::Service => "service",
            NoteKind::Caller => "caller",
        }
    }
}

/// Whether a check between two modules is noted: exactly where they differ.
pub fn is_note_due(from: ModuleId, to: ModuleId) -> bool
    ensures { result ≡ is_due from to }
{
    from != to
}

/// What tells one line of the report from another.
#[derive(Debug, PartialEq, Eq, Hash, Drop)]
pub struct Key {
    pub from: ModuleId,
    pub to: ModuleId,
    pub package: Option<Name>,
    pub kind: NoteKind,
    pub verdict: Verdict,
}

/// The notes grouped by key, in the order in which keys first occurred. Contracts see the lines.
#[derive(Drop)]
pub struct Report {
    lines: IndexMap<Key, (u64, u64)>,
}

impl Model for Report {
    ghost use Rattle.std.specs.Prelude.{List, map};
    ghost use Rattle.jl_access.specs.Reports.{Line};

    ghost Value = { List Line };

    ghost view = { λ r. map (λ e. record { key = e.0; first = e.1.0; count = e.1.1 }) r.lines.entries };
}

impl Report {
    /// No line.
    pub fn new(alloc: Global) -> Report
        ensures { result ≡ [] }
    {
        Report {
            lines: IndexMap::new(alloc),
        }
    }

    /// Notes a check at a step. The first note of a key makes a line; a later one counts. Without memory the
    /// report is as before.
    pub fn note(&mut self, key: Key, step: u64) -> Result<(), FactsEnd>
        ensures noted { OnOk result (self.new ≡ noted key step self.old) }
        // The lines are those of all the notes so far.
        ensures grouped { (notes : List Note) → self.old ≡ lines_of notes
            → OnOk result (self.new ≡ lines_of (notes ++ record { key = key; step = step } ∷ [])) }
        ensures err { OnErr result (self.new ≡ self.old) }
    {
        let line = after_note(step, self.lines.get(&key));
        self.lines.insert(key, line)?;
        Ok(())
    }

    /// The line with this number, from 0 on: its key, the step of its first note, and its count. None past
    /// the end.
    pub fn line(&self, i: usize) -> Option<(&Key, u64, u64)>
        ensures { option_map (λ l. record { key = l.0.now; first = l.1; count = l.2 }) result ≡ slice_get self.now i }
    {
        match self.lines.get_index(i) {
            Some((key, (first, count))) => Some((key, *first, *count)),
            None => None,
        }
    }
}

/// The step of the first note, and the count, after a note at a step.
fn after_note(step: u64, line: Option<&(u64, u64)>) -> (u64, u64)
    ensures { result ≡ counting.after_note step (option_copied line.entry) }
{
    match line {
        Some((first, count)) => (*first, count.saturating_add(1)),
        None => (step, 1),
    }
}
