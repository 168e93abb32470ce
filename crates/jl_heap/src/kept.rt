//! What is kept once.

ghost use Rattle.std.specs.Prelude.{◌≡◌, [], None, OnOk, OnErr};
ghost use Rattle.jl_heap.specs.Kept.{kept_under, with_kept};

use crate::ends::KeptEnd;
use crate::shape::Mirror;
use indexmap::IndexMap;
use jl_names::Units;
use jl_prim::{ClassId, ObjRef};
use std::alloc::Global;
use std::marker::Model;

/// What is kept once.
#[derive(Debug, PartialEq, Eq, Hash, Drop)]
pub enum KeptKey {
    /// A literal text.
    Text(Units),
    Mirror(Mirror),
    /// A value in its box.
    Boxed(ClassId, i64),
}

/// The objects that are kept once, each under a key of its own, and two objects that are there from the
/// start. Contracts see the list of the keys with their objects.
#[derive(Drop)]
pub struct Kept {
    objects: IndexMap<KeptKey, ObjRef>,
    no_heap: ObjRef,
    out: ObjRef,
}

impl Model for Kept {
    ghost use Rattle.jl_heap.specs.Kept.{KeptState};

    ghost Value = { KeptState };

    ghost view = { λ k. record { pairs = k.objects.entries; no_heap = k.no_heap; out = k.out } };
}

impl Kept {
    /// Nothing but the two objects of the start.
    pub(crate) fn new(alloc: Global, no_heap: ObjRef, out: ObjRef) -> Kept
        ensures { result ≡ record { pairs = []; no_heap = no_heap; out = out } }
    {
        Kept {
            objects: IndexMap::new(alloc),
            no_heap,
            out,
        }
    }

    /// The object that is kept under a key.
    pub fn find(&self, key: &KeptKey) -> Option<ObjRef>
        ensures { result ≡ kept_under key.now self.now.pairs }
    {
        self.objects.get(key).copied()
    }

    /// Keeps an object under a key under which none is kept. Without memory nothing has changed.
    #[tactic(auto, using(crate::proofs::Keeping::insert_is_kept))]
    pub fn keep(&mut self, key: KeptKey, o: ObjRef) -> Result<(), KeptEnd>
        requires { kept_under key self.old.pairs ≡ None }
        ensures kept { OnOk result (self.new ≡ with_kept key o self.old) }
        ensures refused { OnErr result (self.new ≡ self.old) }
    {
        self.objects.insert(key, o)?;
        Ok(())
    }

    /// The OutOfMemoryError that is thrown where the heap is full.
    pub fn no_heap(&self) -> ObjRef
        ensures { result ≡ self.now.no_heap }
    {
        self.no_heap
    }

    /// What `System.out` is.
    pub fn out(&self) -> ObjRef
        ensures { result ≡ self.now.out }
    {
        self.out
    }
}
