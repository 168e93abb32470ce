//! What members need in the pool.

ghost use Rattle.std.specs.Prelude.{◌≡◌, ◌<◌, ◌++◌, List, length, IfOk, IfSome, IsUtf8};
ghost use Rattle.std.specs.Option.{option_copied};
ghost use Rattle.jl_logic.specs.Answers.{Gives};
ghost use Rattle.jl_classw.specs.Faults.{told};
ghost use Rattle.std.specs.List.{AllByRecursion};
ghost use Rattle.jl_class.specs.Spelling.{HandlerFits};
ghost use Rattle.jl_classw.specs.Built.{IsFit, AreNumbers, AreCodeNumbers};
ghost use Rattle.jl_classw.specs.Building as building;
ghost use Rattle.jl_classw.specs.Building.{super_entered, some_constant_entered, optional_entered, attribute_entered, frames_entered, some_code_entered, code_entered};

use crate::entering::{enter_class, enter_constant, enter_text};
use crate::entries::Entries;
use crate::entry::Constant;
use crate::fault::WriteFault;
use jl_class::CodeBytes;
use jl_pool::Entry;
use jl_prim::{Handler, Items, Name};

/// Enters a superclass where there is one.
pub fn enter_super(
    pool: &Entries,
    added: Vec<Entry>,
    name: Option<&Name>,
) -> Result<(Vec<Entry>, u16), WriteFault>
    requires { length (pool.now ++ added.items) < 65536 }
    ensures exact { Gives told (λ x. (pool.now ++ x.0.items, x.1)) result (super_entered (pool.now ++ added.items) (option_copied name.entry)) }
    ensures few { IfOk result (λ x. length (pool.now ++ x.0.items) < 65536) }
    ensures utf8 { IfOk result (λ _. IfSome (option_copied name.entry) IsUtf8) }
{
    match name {
        Some(name) => enter_class(pool, added, name),
        None => Ok((added, 0)),
    }
}

/// Enters the constant of a field, behind the name of its attribute (JVMS 4.7.2), and answers its index.
pub fn enter_optional(
    pool: &Entries,
    added: Vec<Entry>,
    constant: Option<Constant>,
) -> Result<(Vec<Entry>, Option<u16>), WriteFault>
    requires { length (pool.now ++ added.items) < 65536 }
    ensures exact { Gives told (λ x. (pool.now ++ x.0.items, x.1)) result (optional_entered (pool.now ++ added.items) constant) }
    ensures fit { IfOk result (λ _. IfSome constant IsFit) }
    ensures few { IfOk result (λ x. length (pool.now ++ x.0.items) < 65536) }
{
    match constant {
        Some(constant) => enter_some(pool, added, constant),
        None => Ok((added, None)),
    }
}

#[tactic(auto, unfolding(crate::specs::Building::some_constant_entered))]
fn enter_some(
    pool: &Entries,
    added: Vec<Entry>,
    constant: Constant,
) -> Result<(Vec<Entry>, Option<u16>), WriteFault>
    requires { length (pool.now ++ added.items) < 65536 }
    ensures exact { Gives told (λ x. (pool.now ++ x.0.items, x.1)) result (some_constant_entered (pool.now ++ added.items) constant) }
    ensures fit { IfOk result (λ _. IsFit constant) }
    ensures few { IfOk result (λ x. length (pool.now ++ x.0.items) < 65536) }
{
    let attribute = Name::from_text(*added.allocator(), "ConstantValue")?;
    let (added, _) = enter_text(pool, added, &attribute)?;
    let (added, index) = enter_constant(pool, added, constant)?;
    Ok((added, Some(index)))
}

/// Enters a text whose index is not asked for.
#[tactic(auto, unfolding(crate::specs::Building::attribute_entered))]
pub fn enter_name(pool: &Entries, added: Vec<Entry>, name: &Name) -> Result<Vec<Entry>, WriteFault>
    requires { length (pool.now ++ added.items) < 65536 }
    ensures exact { Gives told (λ after. pool.now ++ after.items) result (attribute_entered (pool.now ++ added.items) name.now) }
    ensures few { IfOk result (λ after. length (pool.now ++ after.items) < 65536) }
    ensures utf8 { IfOk result (λ _. IsUtf8 name.now) }
{
    let (added, _) = enter_text(pool, added, name)?;
    Ok(added)
}

/// The most handlers of a code (JVMS 4.7.3).
const MOST_HANDLERS: usize = 65535;

/// Whether a code has more handlers than two bytes count.
pub fn has_many_handlers(code: &Option<CodeBytes>) -> bool
    ensures { result ≡ building.has_many_handlers code.now }
{
    match code {
        Some(code) => code.handlers.len() > MOST_HANDLERS,
        None => false,
    }
}

/// Enters the names of the attributes that a method has (JVMS 4.7.3, 4.7.4).
pub fn enter_code(
    pool: &Entries,
    added: Vec<Entry>,
    code: &Option<CodeBytes>,
) -> Result<Vec<Entry>, WriteFault>
    requires { length (pool.now ++ added.items) < 65536 }
    ensures exact { Gives told (λ after. pool.now ++ after.items) result (code_entered (pool.now ++ added.items) code.now) }
    ensures few { IfOk result (λ after. length (pool.now ++ after.items) < 65536) }
    ensures numbers { IfOk result (λ _. AreCodeNumbers code.now) }
{
    match code {
        Some(code) => enter_some_code(pool, added, code),
        None => Ok(added),
    }
}

#[tactic(auto, unfolding(crate::specs::Building::some_code_entered))]
fn enter_some_code(
    pool: &Entries,
    added: Vec<Entry>,
    code: &CodeBytes,
) -> Result<Vec<Entry>, WriteFault>
    requires { length (pool.now ++ added.items) < 65536 }
    ensures exact { Gives told (λ after. pool.now ++ after.items) result (some_code_entered (pool.now ++ added.items) code.now) }
    ensures few { IfOk result (λ after. length (pool.now ++ after.items) < 65536) }
    ensures numbers { IfOk result (λ _. AreNumbers code.now) }
{
    read_numbers(code);
    let name = Name::from_text(*added.allocator(), "Code")?;
    let added = enter_name(pool, added, &name)?;
    enter_frames(pool, added, &code.frames)
}

/// The numbers of a code fit two bytes, which is known once they are read.
fn read_numbers(code: &CodeBytes)
    ensures { AreNumbers code.now }
{
    read(code.max_stack);
    read(code.max_locals);
    read_handlers(code.handlers.as_slice());
}

fn read_handlers(handlers: &[Handler])
    ensures { AllByRecursion HandlerFits handlers.now }
{
    for handler in handlers {
        read_handler(handler);
    }
}

fn read_handler(handler: &Handler)
    ensures { HandlerFits handler.now }
{
    read(handler.start);
    read(handler.end);
    read(handler.target);
    read(handler.catch_type);
}

fn read(n: u16)
    ensures { n < 65536 }
{
    let _value = n;
}

fn enter_frames(
    pool: &Entries,
    added: Vec<Entry>,
    frames: &Option<Items<u8>>,
) -> Result<Vec<Entry>, WriteFault>
    requires { length (pool.now ++ added.items) < 65536 }
    ensures exact { Gives told (λ after. pool.now ++ after.items) result (frames_entered (pool.now ++ added.items) frames.now) }
    ensures few { IfOk result (λ after. length (pool.now ++ after.items) < 65536) }
{
    match frames {
        Some(_) => {
            let name = Name::from_text(*added.allocator(), "StackMapTable")?;
            enter_name(pool, added, &name)
        }
        None => Ok(added),
    }
}
