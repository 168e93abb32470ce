//! The superinterfaces of a class that is about to be defined (JVMS 4.1).

ghost use Rattle.std.specs.Prelude.{◌≡◌, IfOk, OnOk};
ghost use Rattle.jl_loads.specs.Ranks.{above_new, rank_new, with_above, with_more, with_one};
ghost use Rattle.jl_loads.specs.Worlds.{each_once, is_among, superinterfaces};

use crate::class::Class;
use crate::loads::Loads;
use crate::rank::Rank;
use jl_prim::{ClassId, Items, PushEnd};

impl Loads {
    /// What is to be kept of a class that stands over classes that are there.
    pub(crate) fn rank_new(&self, class: &Class) -> Result<Rank, PushEnd>
        ensures { IfOk result (λ rank. rank ≡ rank_new self.now class.now) }
    {
        Ok(Rank {
            above: self.above_new(class)?,
            fields: self.all_fields(),
            methods: self.all_methods(),
        })
    }

    /// The superinterfaces of a class that stands over classes that are there.
    #[tactic(auto, using(crate::proofs::Once::above_top))]
    fn above_new(&self, class: &Class) -> Result<Items<ClassId>, PushEnd>
        ensures { IfOk result (λ above. above ≡ above_new self.now class.now) }
    {
        let mut above = self.above_interfaces(class.interfaces())?;
        match class.superclass() {
            None => Ok(Items::from_vec(above)),
            Some(superclass) => {
                add_all(&mut above, self.above(superclass))?;
                Ok(Items::from_vec(above))
            }
        }
    }

    /// Interfaces in order, each behind its own superinterfaces, and each once.
    fn above_interfaces(&self, interfaces: &[ClassId]) -> Result<Vec<ClassId>, PushEnd>
        ensures { IfOk result (λ above. above.items ≡ each_once (with_above self.now interfaces.now)) }
    {
        let mut above = Vec::new(self.allocator());
        for interface in interfaces {
            add_all(&mut above, self.above(*interface))?;
            add(&mut above, *interface)?;
        }
        Ok(above)
    }
}

/// Adds classes, each if it is not there yet.
fn add_all(list: &mut Vec<ClassId>, more: &[ClassId]) -> Result<(), PushEnd>
    ensures { OnOk result (list.new.items ≡ with_more list.old.items more.now) }
{
    for c in more {
        add(list, *c)?;
    }
    Ok(())
}

/// Adds a class, if it is not there yet.
fn add(list: &mut Vec<ClassId>, c: ClassId) -> Result<(), PushEnd>
    ensures { OnOk result (list.new.items ≡ with_one list.old.items c) }
{
    if !is_there(list.as_slice(), c) {
        list.push(c)?;
    }
    Ok(())
}

/// Whether a class is one of these.
pub(crate) fn is_there(list: &[ClassId], c: ClassId) -> bool
    ensures { result ≡ is_among c list.now }
{
    list.iter().any(|d| c == *d)
}
