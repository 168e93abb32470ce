//! Tests of assignability, and of the questions that it asks.

use jl_names::{plain_text, utf16_of};
use jl_prim::{ErrorKind, Items, Name};
use jl_vtypes::{
    HierarchyEnd, Item, ListedClass, ListedClasses, MissingClass, Question, assignable,
};
use std::alloc::Global;
use std::test::*;

/// An item by its letter or name, whether it goes to that one, and the questions asked.
type Row = (&'static str, &'static str, bool, &'static str);

/// B extends A, which extends Object; I is an interface.
static ROWS: [Row; 34] = [
    ("int", "top", true, ""),
    ("this", "top", true, ""),
    ("int", "int", true, ""),
    ("int", "float", false, ""),
    ("long", "long", true, ""),
    ("double", "long", false, ""),
    ("top", "int", false, ""),
    ("int", "null", false, ""),
    ("null", "null", true, ""),
    ("null", "p/A", true, ""),
    ("null", "[I", true, ""),
    ("null", "this", false, ""),
    ("p/A", "null", false, ""),
    ("this", "this", true, ""),
    ("this", "p/A", false, ""),
    ("new", "new", true, ""),
    ("new", "java/lang/Object", false, ""),
    ("p/A", "p/A", true, ""),
    ("p/B", "java/lang/Object", true, ""),
    ("p/B", "p/A", true, "i p/A; s p/B p/A; "),
    ("p/A", "p/B", false, "i p/B; s p/A p/B; "),
    ("p/A", "p/I", true, "i p/I; "),
    ("p/I", "p/A", false, "i p/A; s p/I p/A; "),
    ("[I", "java/lang/Object", true, ""),
    ("[I", "java/lang/Cloneable", true, ""),
    ("[[I", "java/io/Serializable", true, ""),
    ("[Lp/A;", "p/I", false, ""),
    ("p/A", "[Lp/A;", false, ""),
    ("[I", "[I", true, ""),
    ("[Z", "[B", false, ""),
    ("[[I", "[Ljava/lang/Object;", true, ""),
    ("[[I", "[Lp/I;", false, ""),
    ("[[Lp/B;", "[[Lp/A;", true, "i p/A; s p/B p/A; "),
    ("[[Lp/B;", "[Lp/A;", false, ""),
];

fn item_of(alloc: Global, text: &str) -> Result<Item, Fail> {
    Ok(match text {
        "top" => Item::Top,
        "int" => Item::Int,
        "float" => Item::Float,
        "long" => Item::Long,
        "double" => Item::Double,
        "null" => Item::Null,
        "this" => Item::UninitThis,
        "new" => Item::Uninit(3),
        _ if text.as_bytes().starts_with(b"[") => Item::Array(Name::from_text(alloc, text)?),
        _ => Item::Class(Name::from_text(alloc, text)?),
    })
}

fn class(
    alloc: Global,
    name: &str,
    is_interface: bool,
    superclass: &str,
) -> Result<ListedClass, Fail> {
    Ok(ListedClass {
        name: Name::from_text(alloc, name)?,
        is_interface,
        superclass: if superclass.is_empty() {
            None
        } else {
            Some(Name::from_text(alloc, superclass)?)
        },
    })
}

fn classes(alloc: Global, fails: &[u64]) -> Result<ListedClasses, Fail> {
    let mut listed = Items::new(alloc);
    listed.push(class(alloc, "java/lang/Object", false, "")?)?;
    listed.push(class(alloc, "p/A", false, "java/lang/Object")?)?;
    listed.push(class(alloc, "p/B", false, "p/A")?)?;
    listed.push(class(alloc, "p/I", true, "java/lang/Object")?)?;
    let mut missing = Items::new(alloc);
    missing.push(MissingClass {
        name: Name::from_text(alloc, "p/Gone")?,
        kind: ErrorKind::LinkageError,
        message: Some(utf16_of(alloc, "gone")?),
    })?;
    let fails = Items::from_vec(Vec::from_slice(alloc, fails)?);
    Ok(ListedClasses::new(alloc, listed, missing, fails))
}

fn spell(alloc: Global, text: &mut String, name: &Items<u8>) -> Result<(), Fail> {
    text.push_str(str::from_utf8(name.as_slice())?)?;
    Ok(())
}

/// The questions that were asked, in a line.
pub fn questions(alloc: Global, h: &ListedClasses) -> Result<String, Fail> {
    let mut text = String::new(alloc);
    for asked in h.asked() {
        match &asked.question {
            Question::IsInterface(name) => {
                text.push_str("i ")?;
                spell(alloc, &mut text, name)?;
            }
            Question::IsSubclass(from, to) => {
                text.push_str("s ")?;
                spell(alloc, &mut text, from)?;
                text.push_str(" ")?;
                spell(alloc, &mut text, to)?;
            }
        }
        text.push_str("; ")?;
    }
    Ok(text)
}

#[test]
fn items_go_to_others(rt: HostRuntime) -> Result<(), Fail> {
    let alloc = rt.alloc();
    for (from, to, want, asked) in &ROWS {
        let mut h = classes(alloc, &[])?;
        let got = match assignable(alloc, &mut h, &item_of(alloc, from)?, &item_of(alloc, to)?) {
            Ok(goes) => goes,
            Err(_) => return Err(Fail::new("no answer")),
        };
        assert_eq!(rt; got, *want, "{from} to {to}");
        let got = questions(alloc, &h)?;
        assert_eq!(rt; got.as_str(), *asked, "{from} to {to}");
    }
    Ok(())
}

/// How `p/B` goes to a class where the questions with these numbers fail: the class, the number that fails, or 0, how
/// it ends, the questions, and the faults.
static ENDS: [(&str, u64, &str, &str, u64); 6] = [
    ("p/A", 0, "yes", "i p/A; s p/B p/A; ", 0),
    ("p/A", 1, "fault", "i p/A; ", 1),
    ("p/A", 2, "fault", "i p/A; s p/B p/A; ", 1),
    ("p/A", 3, "yes", "i p/A; s p/B p/A; ", 0),
    ("p/Gone", 0, "LinkageError gone", "i p/Gone; ", 0),
    ("p/None", 0, "NoClassDefFoundError", "i p/None; ", 0),
];

fn end_text(alloc: Global, end: &Result<bool, HierarchyEnd>) -> Result<String, Fail> {
    Ok(match end {
        Ok(true) => String::from_str(alloc, "yes")?,
        Ok(false) => String::from_str(alloc, "no")?,
        Err(HierarchyEnd::Missing(kind, None)) => format!(in alloc; "{kind:?}")?,
        Err(HierarchyEnd::Missing(kind, Some(message))) => {
            let message = plain_text(alloc, message.as_slice())?;
            format!(in alloc; "{kind:?} {}", message.as_str())?
        }
        Err(HierarchyEnd::ReadFault) => String::from_str(alloc, "fault")?,
        Err(HierarchyEnd::NoMemory) => return Err(Fail::new("no memory")),
    })
}

#[test]
fn questions_end_the_call(rt: HostRuntime) -> Result<(), Fail> {
    let alloc = rt.alloc();
    for (to, fails, want, asked, faults) in &ENDS {
        let mut h = classes(alloc, &[*fails])?;
        let from = item_of(alloc, "p/B")?;
        let end = assignable(alloc, &mut h, &from, &item_of(alloc, to)?);
        assert_eq!(rt; end_text(alloc, &end)?.as_str(), *want, "{to} {fails}");
        assert_eq!(rt; questions(alloc, &h)?.as_str(), *asked, "{to} {fails}");
        assert_eq!(rt; h.faults(), *faults, "{to} {fails}");
    }
    Ok(())
}
