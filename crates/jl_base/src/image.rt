//! The image of the built-in `java.base`.

ghost use Rattle.std.specs.Prelude.{◌≡◌, ◌++◌, map, IfOk, OnOk, IsTrue};
ghost use Rattle.std.specs.List.{list_all};
ghost use Rattle.jl_base.specs.Base.{base_declaration};
ghost use Rattle.jl_base.specs.Rows.{row_of};
ghost use Rattle.jl_base.specs.Images.{class_of};
ghost use Rattle.jl_base.specs.Ready.{is_ready};
ghost use Rattle.jl_base.specs.Table.{rows_of, table};
ghost use Rattle.jl_base.specs.Laws.{IsBegin};

use crate::building::class_of_row;
use crate::declaration::declaration;
use crate::fault::BaseFault;
use crate::row::ClassRow;
use crate::table::base_rows;
use jl_class::ClassDecl;
use jl_prim::{Declaration, Items};
use std::alloc::Global;

/// The built-in `java.base`: what it declares, and its classes.
#[derive(Debug, Drop)]
pub struct BaseImage {
    pub declaration: Declaration,
    pub classes: Items<ClassDecl>,
}

/// The image that `base_rows` says: a class for each row, in order, so that what a class extends or implements comes
/// before it.
///
/// Only memory can be wanting.
pub fn base_image(alloc: Global) -> Result<BaseImage, BaseFault>
    ensures declaration { IfOk result (λ image. image.declaration ≡ base_declaration) }
    ensures classes { IfOk result (λ image. image.classes ≡ map class_of table) }
    // A machine can begin with them.
    ensures begin { IfOk result (λ image. IsBegin base_declaration.packages image.classes) }
{
    Ok(BaseImage {
        declaration: declaration(alloc)?,
        classes: classes(alloc, &base_rows())?,
    })
}

/// The classes of the rows of all parts.
fn classes(alloc: Global, parts: &[&[ClassRow]]) -> Result<Items<ClassDecl>, BaseFault>
    requires { IsTrue (list_all is_ready (rows_of parts.now)) }
    ensures { IfOk result (λ classes. classes ≡ map class_of (rows_of parts.now)) }
{
    let mut classes = Vec::new(alloc);
    let mut rest = parts;
    while let [part, others @ ..] = rest {
        push_classes(alloc, &mut classes, part)?;
        rest = others;
    }
    Ok(Items::from_vec(classes))
}

/// Puts the classes of rows behind others.
fn push_classes(
    alloc: Global,
    classes: &mut Vec<ClassDecl>,
    rows: &[ClassRow],
) -> Result<(), BaseFault>
    requires { IsTrue (list_all is_ready (map row_of rows.now)) }
    ensures { OnOk result (classes.new.items ≡ classes.old.items ++ map class_of (map row_of rows.now)) }
{
    let mut rest = rows;
    while let [row, others @ ..] = rest {
        classes.push(class_of_row(alloc, row)?)?;
        rest = others;
    }
    Ok(())
}
