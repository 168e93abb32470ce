//! Laws of class files. There is nothing to run.

ghost use Rattle.std.specs.Prelude.{◌≡◌, ℕ, List, Ok};
ghost use Rattle.jl_reading.specs.Reading.{IsBytes};
ghost use Rattle.jl_class.specs.Classes.{Class};
ghost use Rattle.jl_class.specs.Longer.{ReadsLonger};
ghost use Rattle.jl_class.specs.Reading.{class_of};
ghost use Rattle.jl_class.specs.Tables.{AreTables, HasOneNest};

use crate::class::ClassDecl;

/// Says what reading a class file answers where more bytes follow. Behind a class that was read they are
/// `Trailing`, and every fault but `Short` stays. `Short(at)` is within the bytes, and some longer file is
/// read past it.
pub fn reads_longer()
    ensures { ReadsLonger }
{}

/// Says how long the tables of a class may be, and that no class both lists members of a nest and names its host.
pub fn tables_stand(class: &ClassDecl)
    ensures { AreTables class.now }
{
    class.pool();
}

/// Says the same of any class that is read.
pub fn tables_are_read()
    ensures tables { (bytes : List ℕ) (c : Class) → IsBytes bytes → class_of bytes ≡ Ok c → AreTables c }
    // Of its nest this holds whatever the numbers of the file are.
    ensures nest { (bytes : List ℕ) (c : Class) → class_of bytes ≡ Ok c → HasOneNest c }
{}
