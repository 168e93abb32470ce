//! Frames as values.

ghost use Rattle.std.specs.Prelude.{◌≡◌, ◌∷◌, [], ◌++◌, length, drop, slice_get, IfOk, OnOk};
ghost use Rattle.std.specs.Option.{option_copied};
ghost use Rattle.std.specs.List.{list_any};
ghost use Rattle.jl_vtypes.specs.Assignability.{is_same};
ghost use Rattle.jl_verify.specs.Frames.{stacked};
ghost use Rattle.jl_verify.specs.Moves.{item_at, or_top};

use crate::declaring::{copies, is_wide};
use jl_prim::{Copied, CopyEnd};
use jl_vtypes::Item;
use std::marker::Model;

/// What the locals and the stack hold at an instruction, slot by slot (JVMS 4.10.1.4). Of the two slots of a long or a
/// double the higher one is Top.
#[derive(Debug, Drop)]
pub struct TypeFrame {
    /// From the lowest.
    pub(crate) locals: Vec<Item>,
    /// From the lowest, the top last.
    pub(crate) stack: Vec<Item>,
    /// `this` is not yet initialized.
    pub(crate) marked: bool,
}

impl Model for TypeFrame {
    ghost use Rattle.std.specs.Prelude.{reverse};
    ghost use Rattle.jl_verify.specs.Frames.{Frame};

    ghost Value = { Frame };

    ghost view = { λ f. record { locals = f.locals.items; stack = reverse f.stack.items; marked = f.marked } };
}

impl TypeFrame {
    /// The slot of the stack below so many others.
    pub fn slot(&self, depth: usize) -> Option<&Item>
        ensures { option_copied result ≡ slice_get self.now.stack depth }
    {
        let count = self.stack.len();
        if depth < count {
            Some(&self.stack[count - 1 - depth])
        } else {
            None
        }
    }

    /// A local.
    pub fn local(&self, at: usize) -> Option<&Item>
        ensures { option_copied result ≡ slice_get self.now.locals at }
    {
        self.locals.get(at)
    }

    /// Whether an item is on the stack.
    pub fn has_on_stack(&self, item: &Item) -> bool
        ensures { result ≡ list_any (is_same item.now) self.now.stack }
    {
        is_among(&self.stack, item)
    }

    /// How many slots are on the stack.
    pub fn depth(&self) -> usize
        ensures { result ≡ length self.now.stack }
    {
        self.stack.len()
    }

    /// The item in the slot below so many others, Top where there is none.
    #[tactic(auto, using(crate::proofs::Slots::at_slot))]
    pub fn slot_item(&self, depth: usize) -> Result<Item, CopyEnd>
        ensures { IfOk result (λ item. item ≡ item_at self.now.stack depth) }
    {
        copy_or_top(self.slot(depth))
    }

    /// The item in a local, Top where there is none.
    #[tactic(auto, using(crate::proofs::Slots::at_slot))]
    pub fn local_item(&self, at: usize) -> Result<Item, CopyEnd>
        ensures { IfOk result (λ item. item ≡ item_at self.now.locals at) }
    {
        copy_or_top(self.local(at))
    }

    /// Puts an item on the stack, with the slots that it takes.
    pub fn push(&mut self, item: Item) -> Result<(), CopyEnd>
        ensures { OnOk result (self.new ≡ record self.old { stack = stacked (item ∷ []) ++ self.old.stack }) }
    {
        let wide = is_wide(&item);
        self.stack.push(item)?;
        if wide {
            self.stack.push(Item::Top)?;
        }
        Ok(())
    }

    /// Puts an item into one slot of the stack.
    pub fn push_slot(&mut self, item: Item) -> Result<(), CopyEnd>
        ensures { OnOk result (self.new ≡ record self.old { stack = item ∷ self.old.stack }) }
    {
        self.stack.push(item)?;
        Ok(())
    }

    /// Takes so many slots from the stack, or all.
    pub fn pop(&mut self, count: usize)
        ensures { self.new ≡ record self.old { stack = drop count self.old.stack } }
    {
        let left = self.stack.len().saturating_sub(count);
        self.stack.truncate(left);
    }
}

fn is_among(items: &[Item], item: &Item) -> bool
    ensures { result ≡ list_any (is_same item.now) items.now }
{
    items.iter().any(|other| item.is_same(other))
}

fn copy_or_top(item: Option<&Item>) -> Result<Item, CopyEnd>
    ensures { IfOk result (λ it. it ≡ or_top (option_copied item.entry)) }
{
    match item {
        Some(item) => item.copy(),
        None => Ok(Item::Top),
    }
}

impl Copied for TypeFrame {
    fn copy(&self) -> Result<TypeFrame, CopyEnd> {
        Ok(TypeFrame {
            locals: copies(*self.locals.allocator(), &self.locals)?,
            stack: copies(*self.stack.allocator(), &self.stack)?,
            marked: self.marked,
        })
    }
}
