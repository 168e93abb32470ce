//! Attributes (JVMS 4.7) of a site, of which those of some forms are read.

ghost use Rattle.std.specs.Prelude.{◌≡◌, None};
ghost use Rattle.jl_reading.specs.Reading.{number_at};
ghost use Rattle.jl_logic.specs.Order.{is_text};
ghost use Rattle.jl_classfile.specs.Places.{Reads};
ghost use Rattle.jl_classfile.specs.Attributes.{alone};
ghost use Rattle.jl_optable.specs.Attributes.{name_of};
ghost use Rattle.jl_class.specs.Faults.{cut, told};
ghost use Rattle.jl_class.specs.Reading as reading;

use crate::fault::ClassFault;
use crate::source::Source;
use jl_classfile::{AttributeReader, Place, attributes_at, first};
use jl_optable::AttrForm;
use jl_pool::Pool;
use jl_prim::Name;
use std::alloc::Global;

/// The attributes of a site, and what each that is read means.
pub trait SiteReader<V>: Sized {
    ghost use Rattle.std.specs.Prelude.{◌≡◌, ℕ, List, Option, Some, Result, Bool};
    ghost use Rattle.jl_logic.specs.Answers.{Gives};
    ghost use Rattle.jl_optable.specs.declared.attributes.AttrForm.{AttrForm};
    ghost use Rattle.jl_class.specs.declared.fault.ClassFault.{ClassFault};
    ghost use Rattle.jl_class.specs.Faults.{told};

    ghost form_of: { Self → List ℕ → Option AttrForm };

    ghost may_stand: { Self → List V → AttrForm → Bool };

    ghost cut_at: { Self → ℕ → ℕ → ClassFault };

    ghost means: { Self → AttrForm → ℕ → List ℕ → ℕ → Result V ClassFault };

    /// The form of the attributes of a name, where they are read.
    fn form(&self, name: &Name) -> Option<AttrForm>
        ensures { result ≡ form_of self.now name.now };

    /// Whether an attribute of a form may stand behind those with these meanings.
    fn may(&self, done: &[V], form: AttrForm) -> bool
        ensures { result ≡ may_stand self.now done.now form };

    /// The fault of what is not whole at the second place, in the attribute at the first.
    fn cut(&self, attribute: usize, at: usize) -> ClassFault
        ensures is { result ≡ cut_at self.now attribute at }
        // Want of memory is no answer.
        ensures told { told result ≡ Some result };

    /// What a content means in the attribute at a place.
    fn meaning(
        &self,
        alloc: Global,
        form: AttrForm,
        attribute: usize,
        content: Place<'_>,
    ) -> Result<V, ClassFault>
        ensures { Gives told (λ v. v) result (means self.now form attribute content.entry.bytes.now content.entry.at) };
}

/// The reader of a site's attributes.
#[derive(Drop)]
pub struct SiteAttributes<S> {
    pub site: S,
}

impl<V, S: SiteReader<V>> AttributeReader<AttrForm, V, ClassFault> for SiteAttributes<S> {
    ghost use Rattle.jl_class.specs.Reading.{reader as reader_of};

    ghost reader = { λ all. reader_of (S.form_of all.site) (S.cut_at all.site) (S.may_stand all.site) (S.means all.site) };

    fn form(&self, name: &Name) -> Option<AttrForm> {
        self.site.form(name)
    }

    fn may_stand(&self, done: &[V], form: AttrForm) -> bool {
        self.site.may(done, form)
    }

    fn unnamed(&self, place: usize) -> ClassFault {
        ClassFault::Attribute(place)
    }

    fn refused(&self, _alloc: Global, place: usize, _form: AttrForm) -> ClassFault {
        ClassFault::Attribute(place)
    }

    fn cut(&self, place: usize, at: usize) -> ClassFault {
        self.site.cut(place, at)
    }

    fn no_memory(&self) -> ClassFault {
        ClassFault::NoMemory
    }

    fn meaning(
        &self,
        alloc: Global,
        form: AttrForm,
        place: usize,
        content: Place<'_>,
    ) -> Result<V, ClassFault> {
        self.site.meaning(alloc, form, place, content)
    }
}

/// What the one attribute that is read means, of those whose count stands at a place.
#[tactic(auto, unfolding(crate::specs::Reading::one_at))]
pub fn one_at<'a, V: Drop, S: SiteReader<V> + Drop>(
    alloc: Global,
    site: S,
    source: Source,
    pool: &Pool,
    place: Place<'a>,
) -> Result<(Option<V>, Place<'a>), ClassFault>
    ensures { Reads told (λ v. v) place.entry result (reading.one_at (reading.reader (S.form_of site) (S.cut_at site) (S.may_stand site) (S.means site)) (cut source) pool.now) }
{
    let (count, place) = source.u16(place)?;
    let reader = SiteAttributes { site };
    let (read, place) = attributes_at(alloc, &reader, pool, count, place)?;
    Ok((first(read), place))
}

/// The form, where attributes of a name have it.
pub fn named(name: &Name, form: AttrForm) -> Option<AttrForm>
    ensures { result ≡ alone (λ text. is_text text (name_of form)) form name.now }
{
    if name.as_str() == form.name() {
        Some(form)
    } else {
        None
    }
}
