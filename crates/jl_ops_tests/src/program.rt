//! Programs as texts: the words of a program are instructions, such as `IADD` or `IINC:1,-3`.

ghost use Rattle.std.specs.Prelude.{◌≡◌};
ghost use Rattle.jl_heap.specs.Stores as words;

use jl_code::{Arg, Code, Instr};
use jl_heap::{FrameKind, Frames, NewFrame, RowEnd, Shape, Store, Value};
use jl_ops::{exec_instr, exec_plain, is_plain, next_place, stands_at_plain};
use jl_optable::{each_row, ops};
use jl_prim::{ClassId, Items, MethodId};
use std::alloc::Global;
use std::test::*;

macro_rules! mnemonics {
    ([] $($stub:tt $operands:ident: $($op:ident)*;)*) => {
        [$($((ops::$op, stringify!($op)),)*)*]
    };
}

/// The opcode with a mnemonic.
fn op_named(name: &str) -> Result<u8, Fail> {
    static NAMES: [(u8, &str); 199] = each_row!(mnemonics);
    match NAMES.iter().find(|row| row.1 == name) {
        Some((op, _)) => Ok(*op),
        None => Err(Fail::new(format_args!("no opcode {name}"))),
    }
}

/// Places of a switch: that of all other keys, and those of keys, as `90,1=10,2=20`.
fn switch_of(alloc: Global, text: &str) -> Result<Arg, Fail> {
    let mut cases = Vec::new(alloc);
    let mut other = 0;
    for part in text.split(',') {
        match part.split_once('=') {
            Some((key, place)) => cases.push((key.parse()?, place.parse()?))?,
            None => other = part.parse()?,
        }
    }
    Ok(Arg::Switch {
        other,
        cases: Items::from_vec(cases),
    })
}

/// The operands of an opcode, as they stand behind its name.
fn arg_of(alloc: Global, op: u8, text: &str) -> Result<Arg, Fail> {
    match op {
        ops::IINC => {
            let (local, more) = text.split_once(',').ok_or("a local and a number")?;
            Ok(Arg::Inc(local.parse()?, more.parse()?))
        }
        ops::TABLESWITCH | ops::LOOKUPSWITCH => switch_of(alloc, text),
        ops::LDC2_W => Ok(Arg::Long(text.parse()?)),
        ops::BIPUSH | ops::SIPUSH | ops::NEWARRAY => Ok(Arg::Number(text.parse()?)),
        ops::ILOAD..=ops::ALOAD | ops::ISTORE..=ops::ASTORE => Ok(Arg::Local(text.parse()?)),
        _ => Ok(Arg::Target(text.parse()?)),
    }
}

/// An instruction at a place. Behind `WIDE.` it is widened.
pub fn instr_of(alloc: Global, at: u32, word: &str) -> Result<Instr, Fail> {
    let (wide, word) = match word.strip_prefix("WIDE.") {
        Some(rest) => (true, rest),
        None => (false, word),
    };
    let (name, text) = word.split_once(':').unwrap_or((word, ""));
    let op = op_named(name)?;
    let arg = if text.is_empty() {
        Arg::Nothing
    } else {
        arg_of(alloc, op, text)?
    };
    Ok(Instr { at, op, wide, arg })
}

fn no_field(alloc: Global) -> Shape
    ensures { words.IsObject result }
{
    Shape::Object {
        class: ClassId(7),
        fields: Items::new(alloc),
    }
}

fn frame(max_stack: u16, max_locals: u16) -> NewFrame {
    NewFrame {
        kind: FrameKind::Method(MethodId(1)),
        max_stack,
        max_locals,
    }
}

/// A store with two frames, whose stacks and locals have so many slots: `below`, and the one on top.
pub fn store_with(alloc: Global, stack: u16, locals: u16, below: u16) -> Result<Store, Fail> {
    let mut store = Store::new(alloc, no_field(alloc), no_field(alloc))?;
    store.frames.push(frame(below, 0))?;
    store.frames.push(frame(stack, locals))?;
    Ok(store)
}

/// Executes an instruction, which has to be plain.
fn step(alloc: Global, store: &mut Store, instr: &Instr) -> Result<RowEnd, Fail> {
    if !is_plain(instr) || store.frames.depth() == 0 {
        return Err(Fail::new("an instruction that is not plain, or no frame"));
    }
    Ok(exec_instr(alloc, store, instr))
}

fn word_of(alloc: Global, v: Value) -> Result<String, Fail> {
    Ok(match v {
        Value::Int(n) => format!(in alloc; "{n} ")?,
        Value::Long(n) => format!(in alloc; "{n}L ")?,
        Value::Ref(Some(o)) => format!(in alloc; "#{} ", o.0)?,
        Value::Ref(None) => String::from_str(alloc, "null ")?,
        Value::Top => String::from_str(alloc, "_ ")?,
    })
}

/// The slots of the top frame's stack from the top down.
fn shown(alloc: Global, frames: &Frames) -> Result<String, Fail> {
    let mut text = String::new(alloc);
    for down in 0..8 {
        if frames.depth() == 0 {
            return Err(Fail::new("no frame"));
        }
        if let Some(v) = frames.peek(down) {
            text.push_str(&word_of(alloc, v)?)?;
        }
    }
    Ok(text)
}

/// How a row ended that does not go on.
fn end_shown(alloc: Global, end: &RowEnd) -> Result<String, Fail> {
    match end {
        RowEnd::Throws(kind, Some(message)) => {
            let mut text = format!(in alloc; "{kind:?}: ")?;
            for unit in message.as_slice() {
                text.push(char::from((*unit % 128) as u8))?;
            }
            Ok(text)
        }
        RowEnd::Throws(kind, None) => Ok(format!(in alloc; "{kind:?}")?),
        RowEnd::Raises(o) => Ok(format!(in alloc; "raises #{}", o.0)?),
        end => Ok(format!(in alloc; "{end:?}")?),
    }
}

/// What comes of a program: the stack of the top frame from the top down, or how a row ended that did not go on. The
/// instructions stand at 0, 100, 200 and so on.
pub fn outcome(alloc: Global, store: &mut Store, program: &str) -> Result<String, Fail> {
    let mut at = 0u32;
    for word in program.split(' ') {
        let instr = instr_of(alloc, at, word)?;
        match step(alloc, store, &instr)? {
            RowEnd::Next => {}
            end => return end_shown(alloc, &end),
        }
        at = at.saturating_add(100);
    }
    shown(alloc, &store.frames)
}

/// Fails where a row does not come to what it says. Blanks at its end count for nothing.
pub fn comes(row: &str, got: &str, want: &str) -> Result<(), Fail> {
    if got.trim_end() == want {
        return Ok(());
    }
    Err(Fail::new(format_args!("{got} and not {row}")))
}

/// Code whose instructions stand one behind the other.
pub fn code_of(alloc: Global, program: &str) -> Result<Code, Fail> {
    let mut instrs = Vec::new(alloc);
    let mut at = 0;
    for word in program.split(' ') {
        let instr = instr_of(alloc, at, word)?;
        at = next_place(&instr);
        instrs.push(instr)?;
    }
    Ok(Code::Instructions(Items::from_vec(instrs)))
}

/// Executes code from its first place on, up to the first instruction that is not plain or does not go on, at most so
/// many.
pub fn run(alloc: Global, store: &mut Store, code: &Code, most: u32) -> Result<String, Fail> {
    for _ in 0..most {
        if !stands_at_plain(store, code) {
            return shown(alloc, &store.frames);
        }
        match exec_plain(alloc, store, code) {
            RowEnd::Next => {}
            end => return end_shown(alloc, &end),
        }
    }
    Err(Fail::new("too many"))
}
