//! Names of packages and services, each kept once.

ghost use Rattle.std.specs.Prelude.{◌≡◌, ◌+◌, ◌<◌, ◌≤◌, [], ◌∷◌, length, Some, OnOk, slice_get};
ghost use Rattle.jl_logic.specs.Lists.{IsFront};
ghost use Rattle.jl_access.specs.Kept.{Texts, IsNumberOf};

use indexmap::IndexSet;
use std::alloc::{AllocError, Global};
use std::marker::Model;

/// Texts, each known by its number, from 0 on. Contracts see the list of the texts, and for how many more there
/// is room.
#[derive(Drop)]
pub struct Names {
    texts: IndexSet<Vec<u8>>,
    reserved: usize,
}

impl Model for Names {
    ghost use Rattle.std.specs.Prelude.{map, ◌≤◌};
    ghost use Rattle.std.specs.List.{IsDistinct};
    ghost use Rattle.indexmap.specs.IndexSet.{spare};
    ghost use Rattle.jl_access.specs.Kept.{Texts, same_items};

    ghost Value = { Texts };

    ghost view = { λ names. record { texts = map (λ v. v.items) names.texts.keys; spare_texts = names.reserved } };

    ghost invariant = { λ names. IsDistinct (same_items (λ v. v.items)) names.texts.keys × (names.reserved ≤ spare names.texts) };
}

impl Names {
    /// No text.
    pub fn new(alloc: Global) -> Names
        ensures { result ≡ record { texts = []; spare_texts = 0 } }
    {
        Names {
            texts: IndexSet::new(alloc),
            reserved: 0,
        }
    }

    /// Makes room for so many more texts.
    pub fn room(&mut self, count: usize) -> Result<(), AllocError>
        ensures same { self.new.texts ≡ self.old.texts }
        ensures kept { self.old.spare_texts ≤ self.new.spare_texts }
        ensures room { OnOk result (count ≤ self.new.spare_texts) }
    {
        self.texts.reserve(count)?;
        self.reserved = self.reserved.max(count);
        Ok(())
    }

    /// The number of a text, which is taken in where it is new.
    pub fn place(&mut self, text: Vec<u8>) -> usize
        requires { 0 < self.old.spare_texts }
        ensures placed { slice_get self.new.texts result ≡ Some text.items }
        ensures front { IsFront self.old.texts self.new.texts }
        ensures spare { self.new.spare_texts + 1 ≡ self.old.spare_texts }
    {
        self.reserved -= 1;
        match self.texts.insert_full(text) {
            Ok((number, _)) => number,
            Err(_) => unreachable!(),
        }
    }

    /// The number of a text that is there.
    pub fn number_of(&self, text: &[u8]) -> Option<usize>
        ensures { IsNumberOf self.now.texts text.now result }
    {
        match self.texts.get_full(text) {
            Some((number, _)) => Some(number),
            None => None,
        }
    }
}
