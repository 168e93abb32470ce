//! Making a pool.

ghost use Rattle.std.specs.Prelude.{◌≡◌, ◌<◌, [], ◌∷◌, nat_lt, length, IfOk, IfErr, OnOk, OnErr, IsOkUnless, IsTrue, IsUtf8, ◌+◌, ◌||◌, ◌⊎◌, if◌then◌else◌};
ghost use Rattle.jl_logic.specs.Answers.{Gives};
ghost use Rattle.jl_logic.specs.Lists.{AreDistinct};
ghost use Rattle.jl_pool.specs.declared.constant.Constant.TheVariants as constants;
ghost use Rattle.jl_pool.specs.declared.constant.BuildEnd.TheVariants as ends;
ghost use Rattle.jl_pool.specs.Builder.{build_told, has, is_same, index_of, index_in, with_constant, with_needed, fitting, text_in, IsShort, AreKept, entry_of, entries_of, pool_of};
ghost use Rattle.jl_names.specs.Utf16.{utf16};
ghost use Rattle.jl_pool.specs.Spelling.{ArePoolEntries};

use crate::constant::{BuildEnd, Constant};
use crate::entry::{Entry, Text};
use crate::memory::made;
use indexmap::IndexSet;
use jl_names::utf16_of;
use jl_prim::{Copied, CopyEnd, Name};
use std::alloc::Global;
use std::marker::Model;

/// A pool that is being made, which contracts see as the list of its constants, each of them once. The
/// first has index 1.
#[derive(Drop)]
pub struct PoolBuilder {
    constants: IndexSet<Constant>,
}

impl Model for PoolBuilder {
    ghost use Rattle.std.specs.Prelude.{List};
    ghost use Rattle.jl_pool.specs.declared.constant.Constant.{Constant};
    ghost use Rattle.jl_pool.specs.Builder.{AreKept};

    ghost Value = { List Constant };

    ghost view = { λ builder. builder.constants.keys };

    ghost invariant = { λ builder. AreKept builder.constants.keys };
}

impl PoolBuilder {
    /// The pool with no entries.
    pub fn new(alloc: Global) -> PoolBuilder
        ensures { result ≡ [] }
    {
        PoolBuilder {
            constants: IndexSet::new(alloc),
        }
    }

    /// Whether a constant is there.
    pub fn has(&self, constant: &Constant) -> bool
        ensures { result ≡ has self.now constant.now }
    {
        self.constants.contains(constant)
    }

    /// The index of a constant, and 0 where it is not there.
    pub fn index(&self, constant: &Constant) -> u16
        ensures index { result ≡ index_in self.now constant.now }
        ensures there { IsTrue (has self.now constant.now) → result ≡ index_of self.now constant.now }
    {
        match self.constants.get_index_of(constant) {
            Some(at) => at as u16 + 1,
            None => 0,
        }
    }

    /// Enters a constant, behind its text where it has a name, and answers its index. What is there
    /// already is not entered again, and keeps its index.
    ///
    /// `TooMany` comes where the pool would have more entries than two bytes count, and leaves the builder
    /// as it was. Without memory the text may have been entered alone.
    pub fn enter(&mut self, constant: Constant) -> Result<u16, BuildEnd>
        requires { IsShort (text_in constant) }
        ensures ok { OnOk result (self.new ≡ with_needed self.old constant) }
        ensures index { IfOk result (λ i. i ≡ index_of self.new constant) }
        ensures exact { Gives build_told (λ _. with_needed self.old constant) result (fitting (with_needed self.old constant)) }
        ensures many { IfErr result (λ e. e ≡ ends.TooMany → self.new ≡ self.old) }
        ensures wanting { OnErr result ((self.new ≡ self.old) ⊎ (self.new ≡ with_constant self.old (constants.Text (text_in constant)))) }
    {
        let text = text_of(&constant)?;
        if !self.has_room(&text, &constant) {
            return Err(BuildEnd::TooMany);
        }
        self.add(text)?;
        self.add(constant)
    }

    /// The entries of the pool, the unused one first.
    pub fn finish(&self, alloc: Global) -> Result<Vec<Entry>, CopyEnd>
        ensures pool { IfOk result (λ pool. pool.items ≡ pool_of self.now) }
        // They make a pool, in which each constant has its text.
        ensures right { IfOk result (λ _. ArePoolEntries (entries_of self.now)) }
        ensures kept { IfOk result (λ _. AreKept self.now) }
        // No two of them are the same.
        ensures distinct { IfOk result (λ pool. AreDistinct pool.items) }
    {
        let mut entries = Vec::new(alloc);
        entries.push(Entry::Unused)?;
        for constant in self.constants.as_slice() {
            entries.push(self.entry(alloc, constant)?)?;
        }
        Ok(entries)
    }

    /// The entry of a constant whose text is there.
    fn entry(&self, alloc: Global, constant: &Constant) -> Result<Entry, CopyEnd>
        requires { IsTrue (has self.now (constants.Text (text_in constant.now))) }
        ensures { IfOk result (λ entry. entry ≡ entry_of self.now constant.now) }
    {
        let name = constant.text();
        let index = self.index(&Constant::Text(name.copy()?));
        Ok(match constant {
            Constant::Text(_) => Entry::Utf8(text_entry(alloc, name)?),
            Constant::Class(_) => Entry::Class(index),
            Constant::Module(_) => Entry::Module(index),
            Constant::Package(_) => Entry::Package(index),
        })
    }

    /// Whether there is room for a constant and its text.
    fn has_room(&self, text: &Constant, constant: &Constant) -> bool
        ensures { result ≡ nat_lt (length (with_constant (with_constant self.now text.now) constant.now)) 65535 }
    {
        let is_known = self.has_with(text, constant);
        self.constants.len() + places(self.has(text)) + places(is_known) < 65535
    }

    /// Whether a constant is there once its text is.
    fn has_with(&self, text: &Constant, constant: &Constant) -> bool
        ensures { result ≡ (has self.now constant.now || is_same constant.now text.now) }
    {
        self.has(constant) || constant == text
    }

    /// Enters a constant whose text is there, or which is a text.
    fn add(&mut self, constant: Constant) -> Result<u16, BuildEnd>
        requires utf8 { IsUtf8 (text_in constant) }
        requires short { IsShort (text_in constant) }
        requires text { IsTrue (has (with_constant self.old constant) (constants.Text (text_in constant))) }
        requires room { length (with_constant self.old constant) < 65535 }
        ensures ok { OnOk result (self.new ≡ with_constant self.old constant) }
        ensures index { IfOk result (λ i. i ≡ index_of self.new constant) }
        ensures memory { IsOkUnless result BuildEnd.NoMemory }
        ensures err { OnErr result (self.new ≡ self.old) }
    {
        let (at, _) = self.constants.insert_full(constant)?;
        Ok(at as u16 + 1)
    }
}

/// The text of a constant as a constant.
fn text_of(constant: &Constant) -> Result<Constant, CopyEnd>
    ensures text { IfOk result (λ text. text ≡ constants.Text (text_in constant.now)) }
    ensures utf8 { IsUtf8 (text_in constant.now) }
{
    let name = constant.text();
    // whatever a name has as text is UTF-8
    let _text = name.as_str();
    Ok(Constant::Text(name.copy()?))
}

fn text_entry(alloc: Global, name: &Name) -> Result<Text, CopyEnd>
    ensures { IfOk result (λ text. text ≡ utf16 name.now) }
{
    let units = made(utf16_of(alloc, name.as_str()))?;
    Ok(Text::new(units, name.copy()?))
}

/// How many places a constant takes.
fn places(is_known: bool) -> usize
    ensures { result ≡ (if is_known then 0 else 1) }
{
    if is_known { 0 } else { 1 }
}
