//! Lists of UTF-16 units.

ghost use Rattle.std.specs.Prelude.{◌≡◌, ◌++◌, IfOk, OnOk, OnErr, nat_eq};
ghost use Rattle.std.specs.Cmp.Lexicographic.{pointwise, nat_list_eq_equiv};
ghost use Rattle.std.specs.Cmp.{partial_equiv_from_equiv};
ghost use Rattle.std.specs.Cmp.Rules.{hashing};
ghost use Rattle.std.proofs.Common.{rules};
ghost use Rattle.std.specs.Hash as fed;

use crate::fault::CopyEnd;
use std::hash::{Hash, Hasher};
use std::marker::Model;

/// A list of UTF-16 units, which contracts see as a list of numbers below 65,536.
#[derive(Debug, Drop)]
pub struct Units {
    units: Vec<u16>,
}

impl Model for Units {
    ghost use Rattle.std.specs.Prelude.{ℕ, List};

    ghost Value = { List ℕ };

    ghost view = { λ it. it.units.items };
}

impl Units {
    /// The units of a vector, as they stand.
    pub fn from_vec(units: Vec<u16>) -> Units
        ensures { result ≡ units.items }
    {
        Units { units }
    }

    /// The units in order.
    pub fn as_slice(&self) -> &[u16]
        ensures { result.now ≡ self.now }
    {
        self.units.as_slice()
    }

    /// Adds units at the end. Without memory the list is as before.
    pub fn append(&mut self, units: &[u16]) -> Result<(), CopyEnd>
        ensures ok { OnOk result (self.new ≡ self.old ++ units.now) }
        ensures err { OnErr result (self.new ≡ self.old) }
    {
        self.units.extend_from_slice(units)?;
        Ok(())
    }

    /// An equal list. The source stays as it is.
    pub fn copy(&self) -> Result<Units, CopyEnd>
        ensures { IfOk result (λ it. it ≡ self.now) }
    {
        Ok(Units {
            units: self.units.clone()?,
        })
    }
}

impl PartialEq for Units {
    ghost eq = { pointwise nat_eq };

    ghost laws = { partial_equiv_from_equiv nat_list_eq_equiv };

    fn eq(&self, other: &Units) -> bool {
        self.units == other.units
    }
}

impl Eq for Units {
    ghost laws = { nat_list_eq_equiv };
}

impl Hash for Units {
    ghost hash_input = { fed.slice fed.u16 };

    ghost respects_eq = { Prim.search (hashing, rules) };

    fn hash<H: Hasher>(&self, state: &mut H) {
        self.units.hash(state);
    }
}
