//! Classes with one method each, by its parts, and what is said of faults.

use jl_class::{ClassDecl, read_class};
use jl_making::{bytes_in, bytes_of_lines};
use jl_names::plain_text;
use jl_verify::VerifyFault;
use std::alloc::Global;
use std::test::Fail;

/// The front of the class `p/A`, up to the name and the descriptor of its method, which are the entries 4b and 4c.
static FRONT: [&str; 11] = [
    // from 01: the classes A, its superclass S, and Object
    "cafebabe 00000035 004d =p/A 070001 =p/S 070003 =Code =StackMapTable =java/lang/Object 070007",
    // from 09: the classes B, which extends A, I, which is an interface of A, Throwable, and T, which is one
    "=p/B 070009 =p/I 07000b =java/lang/Throwable 07000d =p/T 07000f",
    // from 11: arrays
    "=[I 070011 =[Lp/A; 070013 =[Ljava/lang/Object; 070015 =[[I 070017 =[Z 070019 =[B 07001b",
    // from 1d: the class String, and the constructors of Object, A, S and B
    "=java/lang/String 07001d =<init> =()V 0c001f0020 0a00080021 0a00020021 0a00040021 0a000a0021",
    // from 26: the method m of A, S, B and I
    "=m 0c00260020 0a00020027 0a00040027 0a000a0027 0b000c0027",
    // from 2c: the fields f and g of A
    "=f =I 0c002c002d 090002002e =g =J 0c00300031 0900020032",
    // from 34: the field o and the method k of A
    "=o =Ljava/lang/Object; 0c00340035 0900020036 =k =(Lp/I;J)Lp/A; 0c00380039 0a0002003a",
    // from 3c: a String, a Long, and the field f of S
    "08001d 050000000000000001 090004002e",
    // from 40: the method m of J, which is no interface of A
    "=p/J 070040 0b00410027",
    // from 43: the method q of A
    "=q =(Ljava/lang/Object;)V 0c00430044 0a00020045",
    // from 47: the field s of A
    "=s =Lp/S; 0c00470048 0900020049",
];

/// What stands between the pool and the flags of the method: the fields f, g and o.
static MIDDLE: &str =
    "0021 0002 0004 0001 000c 0003 0001002c002d0000 000100300031000000010034003500000001";

fn u16_bytes(n: usize) -> [u8; 2] {
    [(n / 256 % 256) as u8, (n % 256) as u8]
}

/// Bytes behind a number of four bytes that says how many they are.
fn push_counted(bytes: &mut Vec<u8>, content: &[u8]) -> Result<(), Fail> {
    bytes.extend_from_slice(&u16_bytes(content.len() / 65536))?;
    bytes.extend_from_slice(&u16_bytes(content.len()))?;
    bytes.extend_from_slice(content)?;
    Ok(())
}

/// The content of the Code attribute: sizes of stack and locals, code, handlers, and a stack map where there is one.
fn code_content(
    alloc: Global,
    sizes: [usize; 2],
    code: &str,
    frames: &str,
    handlers: &str,
) -> Result<Vec<u8>, Fail> {
    let [max_stack, max_locals] = sizes;
    let handlers = bytes_in(alloc, handlers)?;
    let mut content = Vec::new(alloc);
    content.extend_from_slice(&u16_bytes(max_stack))?;
    content.extend_from_slice(&u16_bytes(max_locals))?;
    push_counted(&mut content, &bytes_in(alloc, code)?)?;
    content.extend_from_slice(&u16_bytes(handlers.len() / 8))?;
    content.extend_from_slice(&handlers)?;
    push_stack_map(alloc, &mut content, frames)?;
    Ok(content)
}

fn push_stack_map(alloc: Global, content: &mut Vec<u8>, frames: &str) -> Result<(), Fail> {
    if frames.is_empty() {
        content.extend_from_slice(&[0, 0])?;
        return Ok(());
    }
    content.extend_from_slice(&[0, 1, 0, 6])?;
    push_counted(content, &bytes_in(alloc, frames)?)
}

/// The class with one method. Its flags, name, descriptor, max_stack and max_locals are words of a line; its code,
/// handlers and stack map are bytes, and it has no stack map where no bytes stand.
pub fn class_of(
    alloc: Global,
    method: &str,
    code: &str,
    frames: &str,
    handlers: &str,
) -> Result<ClassDecl, Fail> {
    let mut words = method.split_whitespace();
    let flags = words.next().ok_or("flags")?;
    let name = words.next().ok_or("a name")?;
    let desc = words.next().ok_or("a descriptor")?;
    let max_stack = words.next().ok_or("max_stack")?.parse()?;
    let max_locals = words.next().ok_or("max_locals")?.parse()?;
    let mut bytes = bytes_of_lines(alloc, &FRONT)?;
    let member = format!(in alloc; "={name} ={desc} {MIDDLE} {flags} 004b 004c 0001 0005")?;
    bytes.extend_from_slice(&bytes_in(alloc, member.as_str())?)?;
    let content = code_content(alloc, [max_stack, max_locals], code, frames, handlers)?;
    push_counted(&mut bytes, &content)?;
    bytes.extend_from_slice(&[0, 0])?;
    match read_class(alloc, &bytes) {
        Ok(class) => Ok(class),
        Err(fault) => Err(Fail::new(format_args!("{fault:?}"))),
    }
}

/// A fault as a text.
pub fn fault_text(alloc: Global, fault: &VerifyFault) -> Result<String, Fail> {
    Ok(match fault {
        VerifyFault::ClassMissing(name, kind, None) => {
            format!(in alloc; "ClassMissing {name} {kind:?}")?
        }
        VerifyFault::ClassMissing(name, kind, Some(message)) => {
            let message = plain_text(alloc, message.as_slice())?;
            format!(in alloc; "ClassMissing {name} {kind:?} {}", message.as_str())?
        }
        other => format!(in alloc; "{other:?}")?,
    })
}
