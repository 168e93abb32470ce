//! The numbers of fields and methods, over all classes.

ghost use Rattle.std.specs.Prelude.{◌≡◌, ◌+◌, ◌≤◌, ◌<◌, length};
ghost use Rattle.jl_loads.specs.Ranks.{rank_of};
ghost use Rattle.jl_loads.specs.Worlds.{IsClass, IsFieldOf, IsMethodOf, all_fields, all_methods, fields_before, fields_of, methods_before, methods_of};
ghost use Rattle.jl_loads.specs.Worlds as worlds;

use crate::law::is_sound;
use crate::loads::Loads;
use crate::rank::Rank;
use jl_class::tables_stand;
use jl_prim::{ClassId, FieldId, MethodId};

impl Loads {
    /// The number of the field at a place of a class.
    pub fn field_id(&self, c: ClassId, at: usize) -> FieldId
        requires class { IsClass self.now c }
        requires within { at < length (fields_of self.now c) }
        ensures number { result ≡ worlds.field_id self.now c at }
        ensures there { result.0 < all_fields self.now }
    {
        is_sound(self);
        FieldId(self.fields_before(c) + at as u32)
    }

    /// The number of the method at a place of a class.
    pub fn method_id(&self, c: ClassId, at: usize) -> MethodId
        requires class { IsClass self.now c }
        requires within { at < length (methods_of self.now c) }
        ensures number { result ≡ worlds.method_id self.now c at }
        ensures there { result.0 < all_methods self.now }
    {
        is_sound(self);
        MethodId(self.methods_before(c) + at as u32)
    }

    /// The class that has the field with a number, and the place of the field there.
    pub fn field_owner(&self, f: FieldId) -> (ClassId, usize)
        requires { f.0 < all_fields self.now }
        ensures { IsFieldOf self.now f result.0 result.1 }
    {
        let c = self.class_of_field(f);
        (c, (f.0 - self.fields_before(c)) as usize)
    }

    /// The class that has the method with a number, and the place of the method there.
    pub fn method_owner(&self, m: MethodId) -> (ClassId, usize)
        requires { m.0 < all_methods self.now }
        ensures { IsMethodOf self.now m result.0 result.1 }
    {
        let c = self.class_of_method(m);
        (c, (m.0 - self.methods_before(c)) as usize)
    }

    /// What is kept of a class.
    pub(crate) fn rank(&self, c: ClassId) -> &Rank
        requires { IsClass self.now c }
        ensures { result.now ≡ rank_of self.now c }
    {
        &self.ranks[c.0 as usize - 1]
    }

    /// How many fields there are before those of a class.
    fn fields_before(&self, c: ClassId) -> u32
        requires { IsClass self.now c }
        ensures { result ≡ fields_before self.now c }
    {
        self.rank(c).fields
    }

    /// How many methods there are before those of a class.
    fn methods_before(&self, c: ClassId) -> u32
        requires { IsClass self.now c }
        ensures { result ≡ methods_before self.now c }
    {
        self.rank(c).methods
    }

    /// How many fields a class has.
    #[tactic(auto, using(crate::proofs::Counting::field_total))]
    fn field_count(&self, c: ClassId) -> u32
        requires { IsClass self.now c }
        ensures { result ≡ length (fields_of self.now c) }
    {
        let declared = self.class_at(c).declared();
        tables_stand(declared);
        declared.fields().len() as u32
    }

    /// How many fields there are in all.
    pub(crate) fn all_fields(&self) -> u32
        ensures { result ≡ all_fields self.now }
    {
        let last = ClassId(self.classes());
        if last.0 == 0 {
            return 0;
        }
        is_sound(self);
        self.fields_before(last) + self.field_count(last)
    }

    /// How many methods a class has.
    #[tactic(auto, using(crate::proofs::Counting::method_total))]
    fn method_count(&self, c: ClassId) -> u32
        requires { IsClass self.now c }
        ensures { result ≡ length (methods_of self.now c) }
    {
        let declared = self.class_at(c).declared();
        tables_stand(declared);
        declared.methods().len() as u32
    }

    /// How many methods there are in all.
    pub(crate) fn all_methods(&self) -> u32
        ensures { result ≡ all_methods self.now }
    {
        let last = ClassId(self.classes());
        if last.0 == 0 {
            return 0;
        }
        is_sound(self);
        self.methods_before(last) + self.method_count(last)
    }

    /// The class that has the field with a number.
    #[tactic(auto, using(crate::proofs::Counting::around_low, crate::proofs::Counting::around_high, crate::proofs::Counting::around_fields, crate::proofs::Counting::around_class))]
    fn class_of_field(&self, f: FieldId) -> ClassId
        requires { f.0 < all_fields self.now }
        ensures class { IsClass self.now result }
        ensures from { fields_before self.now result ≤ f.0 }
        ensures to { f.0 < fields_before self.now result + length (fields_of self.now result) }
    {
        is_sound(self);
        let mut low = 1;
        let mut high = self.classes() + 1;
        while high - low > 1 {
            let middle = low + (high - low) / 2;
            if self.fields_before(ClassId(middle)) <= f.0 {
                low = middle;
            } else {
                high = middle;
            }
        }
        ClassId(low)
    }

    /// The class that has the method with a number.
    #[tactic(auto, using(crate::proofs::Counting::around_low, crate::proofs::Counting::around_high, crate::proofs::Counting::around_methods, crate::proofs::Counting::around_class))]
    fn class_of_method(&self, m: MethodId) -> ClassId
        requires { m.0 < all_methods self.now }
        ensures class { IsClass self.now result }
        ensures from { methods_before self.now result ≤ m.0 }
        ensures to { m.0 < methods_before self.now result + length (methods_of self.now result) }
    {
        is_sound(self);
        let mut low = 1;
        let mut high = self.classes() + 1;
        while high - low > 1 {
            let middle = low + (high - low) / 2;
            if self.methods_before(ClassId(middle)) <= m.0 {
                low = middle;
            } else {
                high = middle;
            }
        }
        ClassId(low)
    }
}
