//! Which module may use what of another: facts about modules, verdicts with their rules, and the report of
//! the checks (JVMS 5.4.4; `java.lang.Module`; `java.lang.reflect.AccessibleObject`).
#![tactic(auto)]

mod adding;
mod facts;
mod fault;
mod judging;
mod law;
mod names;
mod queries;
mod report;
mod statement;
mod table;
mod verdict;

pub use facts::Facts;
pub use fault::FactsEnd;
pub use law::{
    deep_by_an_opening, denials_name_their_rules, facts_stay, grants_by_three, grants_stay,
    reflects_by_an_export,
};
pub use report::{Key, NoteKind, Report, is_note_due};
pub use statement::{Reach, Statement};
pub use verdict::{Access, MemberAccess, Place, Rule, Verdict};
