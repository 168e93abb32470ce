//! How errors name types.

ghost use Rattle.std.specs.Prelude.{◌≡◌, ◌++◌, IfOk, OnOk, encode_utf8, replicate, string_bytes};
ghost use Rattle.jl_objops.specs.Types as words;

use crate::types::{ObjectType, has_class};
use jl_heap::Base;
use jl_link::World;
use jl_names::dotted;
use jl_prim::ClassId;
use std::alloc::{AllocError, Global};

/// The name of a class, with dots. Empty where there is none.
pub fn class_text(alloc: Global, world: &World, c: ClassId) -> Result<String, AllocError>
    ensures { IfOk result (λ text. string_bytes text ≡ words.class_text world.now c) }
{
    if has_class(world, c) {
        return dotted(alloc, world.class(c).name().as_str());
    }
    Ok(String::new(alloc))
}

/// A type: a class by its name, an array by its descriptor, with dots.
pub fn type_text(alloc: Global, world: &World, x: ObjectType) -> Result<String, AllocError>
    ensures { IfOk result (λ text. string_bytes text ≡ words.type_text world.now x) }
{
    if x.dims == 0 {
        return alone_text(alloc, world, x.base);
    }
    let mut text = String::new(alloc);
    push_brackets(&mut text, x.dims)?;
    push_element(alloc, &mut text, world, x.base)?;
    Ok(text)
}

/// A class by its name, or a primitive type by its letter.
fn alone_text(alloc: Global, world: &World, base: Base) -> Result<String, AllocError>
    ensures { IfOk result (λ text. string_bytes text ≡ words.alone_text world.now base) }
{
    match base {
        Base::Class(c) => class_text(alloc, world, c),
        Base::Prim(letter) => letter_text(alloc, letter),
    }
}

/// Puts a bracket for each dimension behind a text.
fn push_brackets(text: &mut String, dims: u16) -> Result<(), AllocError>
    ensures { OnOk result (string_bytes text.new ≡ string_bytes text.old ++ replicate dims 91) }
{
    for _ in 0..dims {
        text.push_str("[")?;
    }
    Ok(())
}

/// A text of one letter.
fn letter_text(alloc: Global, letter: u8) -> Result<String, AllocError>
    ensures { IfOk result (λ text. string_bytes text ≡ encode_utf8 letter) }
{
    let mut text = String::new(alloc);
    text.push(char::from(letter))?;
    Ok(text)
}

/// Puts the elements of an array behind a text: a class by its name between `L` and `;`, a primitive type by its letter.
fn push_element(
    alloc: Global,
    text: &mut String,
    world: &World,
    base: Base,
) -> Result<(), AllocError>
    ensures { OnOk result (string_bytes text.new ≡ string_bytes text.old ++ words.element_text world.now base) }
{
    match base {
        Base::Class(c) => {
            let name = class_text(alloc, world, c)?;
            text.push_str("L")?;
            text.push_str(name.as_str())?;
            text.push_str(";")?;
        }
        Base::Prim(letter) => {
            text.push(char::from(letter))?;
        }
    }
    Ok(())
}
