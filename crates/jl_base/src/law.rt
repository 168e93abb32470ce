//! Laws of the table. There is nothing to run.

ghost use Rattle.std.specs.Prelude.{◌≡◌, [], ◌∷◌, map, IsTrue};
ghost use Rattle.std.specs.List.{list_all};
ghost use Rattle.jl_logic.specs.Lists.{AreDistinct};
ghost use Rattle.jl_base.specs.Base.{base_declaration};
ghost use Rattle.jl_base.specs.Laws.{IsBegin, has_members_apart, has_right_flags, boxed_rows};
ghost use Rattle.jl_base.specs.Ready.{is_ready};
ghost use Rattle.jl_base.specs.Images.{class_of};
ghost use Rattle.jl_base.specs.Table.{table};

/// Says that a machine can begin with the classes: what a class extends or implements comes before it (JLS 8.1.4,
/// 8.1.5), no name comes again, no class is outside the packages of the declaration, and 65,536 is not passed.
pub fn a_machine_begins()
    ensures { IsBegin base_declaration.packages (map class_of table) }
{}

/// Says that every row has flags, names and descriptors as a class file has (JVMS 4.1, 4.5, 4.6), a superclass
/// or is `java/lang/Object`, and a pool with room for all that it names.
pub fn rows_are_ready()
    ensures { IsTrue (list_all is_ready table) }
{}

/// Says that no two fields and no two methods of a class have one name and descriptor.
pub fn members_are_apart()
    ensures { IsTrue (list_all has_members_apart (map class_of table)) }
{}

/// Says that all classes are public, that each has the flags of an interface or of a class (JVMS 4.1-B), and that
/// each method is native or abstract.
pub fn flags_are_right()
    ensures { IsTrue (list_all has_right_flags (map class_of table)) }
{}

/// Says that no two rows of boxed natives are one, and which they are, in the order of the table.
pub fn boxed_rows_are_distinct()
    ensures rows { boxed_rows table ≡ 1 ∷ 2 ∷ 3 ∷ 4 ∷ 5 ∷ 6 ∷ 7 ∷ 8 ∷ 9 ∷ 20 ∷ 21 ∷ 14 ∷ 15 ∷ 10 ∷ 11 ∷ 12 ∷ 13 ∷ 16 ∷ 17 ∷ 18 ∷ 19 ∷ 30 ∷ 31 ∷ 32 ∷ [] }
    ensures distinct { AreDistinct (boxed_rows table) }
{}
