//! Tests of jl_names.

use jl_names::{
    BaseType, Descriptor, FieldType, TextFault, brackets, bytes_of, descriptor, dotted,
    is_class_name, is_field_name, is_method_name, is_paired, package_of, plain_of, plain_text,
    slashed, units_of, utf16_of,
};
use std::alloc::Global;
use std::test::*;

fn bad_place(alloc: Global, bytes: &[u8]) -> Option<usize> {
    match units_of(alloc, bytes) {
        Err(TextFault::BadText(at)) => Some(at),
        _ => None,
    }
}

#[test]
fn texts_are_read(rt: HostRuntime) -> Result<(), Fail> {
    let alloc = rt.alloc();
    let table: [(&[u8], &[u16]); 6] = [
        (&[], &[]),
        (b"a.b", &[97, 46, 98]),
        (&[0xc0, 0x80], &[0]),
        (&[0xc3, 0xa4], &[0xe4]),
        (&[0xed, 0xa0, 0x80], &[0xd800]),
        (&[0xe6, 0x97, 0xa5, 0xef, 0xbf, 0xbf], &[0x65e5, 0xffff]),
    ];
    for (bytes, want) in table {
        let units = units_of(alloc, bytes).ok().ok_or("a text")?;
        assert_eq!(rt; units.as_slice(), want);
        assert_eq!(rt; units.copy().ok().ok_or("a copy")?.as_slice(), want);
    }
    Ok(())
}

#[test]
fn texts_are_refused(rt: HostRuntime) {
    let table: [(&[u8], usize); 11] = [
        (&[0], 0),
        (&[97, 0], 1),
        (&[0x80], 0),
        (&[0xc1, 0x81], 0),
        (&[0xc0, 0x81], 1),
        (&[0xc3], 1),
        (&[0xc3, 0x28], 1),
        (&[0xe0, 0x80, 0x80], 1),
        (&[0xe6, 0x97], 2),
        (&[0xe6, 0x97, 0x41], 2),
        (&[0xf0, 0x90, 0x8d, 0x88], 0),
    ];
    for (bytes, want) in table {
        assert_eq!(rt; bad_place(rt.alloc(), bytes), Some(want));
    }
}

#[test]
fn units_as_text(rt: HostRuntime) -> Result<(), Fail> {
    let table: [(&[u16], &str, bool); 6] = [
        (&[], "", true),
        (&[104, 0xe9, 0x65e5], "hé日", true),
        (&[0xd83d, 0xde00], "😀", true),
        (&[0xd800], "?", false),
        (&[0xde00, 0xd83d], "??", false),
        (&[0xd83d, 0xd83d, 0xde00, 97], "?😀a", false),
    ];
    for (units, text, paired) in table {
        let plain = plain_text(rt.alloc(), units).ok().ok_or("a text")?;
        assert_eq!(rt; plain.as_str(), text);
        assert_eq!(rt; is_paired(units), paired);
    }
    Ok(())
}

fn is_written(alloc: Global, units: &[u16], bytes: &[u8], plain: &[u8]) -> bool {
    match (bytes_of(alloc, units), plain_of(alloc, units)) {
        (Ok(written), Ok(shown)) => written.as_slice() == bytes && shown.as_slice() == plain,
        _ => false,
    }
}

#[test]
fn units_are_written(rt: HostRuntime) {
    let table: [(&[u16], &[u8], &[u8]); 4] = [
        (&[], &[], &[]),
        (&[0], &[0xc0, 0x80], &[0]),
        (&[0xd800], &[0xed, 0xa0, 0x80], b"?"),
        (
            &[97, 0xe4, 0xffff],
            &[97, 0xc3, 0xa4, 0xef, 0xbf, 0xbf],
            &[97, 0xc3, 0xa4, 0xef, 0xbf, 0xbf],
        ),
    ];
    for (units, bytes, plain) in table {
        assert!(rt; is_written(rt.alloc(), units, bytes, plain));
    }
}

/// Whether the text is a descriptor, or stops at the place.
fn stops_at(alloc: Global, text: &[u8], want: Option<usize>) -> bool {
    match descriptor(alloc, text) {
        Ok(_) => want == None,
        Err(TextFault::BadText(at)) => want == Some(at),
        Err(TextFault::NoMemory) => false,
    }
}

#[test]
fn descriptors(rt: HostRuntime) {
    let table: [(&[u8], Option<usize>); 15] = [
        (b"", Some(0)),
        (b"II", Some(1)),
        (b"V", Some(0)),
        (b"L;", Some(1)),
        (b"La/;", Some(3)),
        (b"La//b;", Some(3)),
        (b"La.b;", Some(2)),
        (b"La", Some(2)),
        (b"La/b;", None),
        (b"(I", Some(2)),
        (b"(I)", Some(3)),
        (b"(I)VV", Some(4)),
        (b"(V)V", Some(1)),
        (b"(I)V", None),
        (b"(J[[Lp/A;)[I", None),
    ];
    for (text, want) in table {
        assert!(rt; stops_at(rt.alloc(), text, want));
    }
}

/// A text of one byte so many times, between others.
fn long_text(alloc: Global, begin: &[u8], byte: u8, count: usize, end: &[u8]) -> Option<Vec<u8>> {
    let mut text = Vec::from_slice(alloc, begin).ok()?;
    for _ in 0..count {
        text.push(byte).ok()?;
    }
    text.extend_from_slice(end).ok()?;
    Some(text)
}

#[test]
fn limits_of_descriptors(rt: HostRuntime) -> Result<(), Fail> {
    let alloc = rt.alloc();
    let table: [(&[u8], u8, usize, &[u8], Option<usize>); 6] = [
        (b"", b'[', 255, b"I", None),
        (b"", b'[', 256, b"I", Some(255)),
        (b"(", b'I', 255, b")V", None),
        (b"(", b'I', 256, b")V", Some(256)),
        (b"(", b'I', 254, b"J)V", Some(255)),
        (b"(", b'I', 254, b"[J)V", None),
    ];
    for (begin, byte, count, end, want) in table {
        let text = long_text(alloc, begin, byte, count, end).ok_or("a text")?;
        assert!(rt; stops_at(alloc, &text, want));
    }
    Ok(())
}

fn says_what_it_spells(alloc: Global) -> bool {
    let long = FieldType {
        dims: 0,
        base: BaseType::Prim(b'J'),
    };
    let class = FieldType {
        dims: 2,
        base: BaseType::Class(5, 8),
    };
    let array = FieldType {
        dims: 1,
        base: BaseType::Prim(b'I'),
    };
    match descriptor(alloc, b"(J[[Lp/A;)[I") {
        Ok(Descriptor::Method { params, result }) => {
            params.as_slice() == [long, class].as_slice() && result == Some(array)
        }
        _ => false,
    }
}

#[test]
fn types_of_a_method(rt: HostRuntime) {
    assert!(rt; says_what_it_spells(rt.alloc()));
}

#[test]
fn classes_and_slots_of_types(rt: HostRuntime) {
    let text: &[u8] = b"[[Lp/A;";
    let class = FieldType {
        dims: 2,
        base: BaseType::Class(3, 6),
    };
    let long = FieldType {
        dims: 0,
        base: BaseType::Prim(b'J'),
    };
    assert_eq!(rt; class.class_in(text), Some(b"p/A".as_slice()));
    assert_eq!(rt; long.class_in(text), None);
    assert_eq!(rt; class.slots(), 1);
    assert_eq!(rt; long.slots(), 2);
    assert_eq!(rt; brackets(text), 2);
}

fn is_named(text: &[u8], class: bool, field: bool, method: bool) -> bool {
    is_class_name(text) == class && is_field_name(text) == field && is_method_name(text) == method
}

#[test]
fn names(rt: HostRuntime) {
    let table: [(&[u8], bool, bool, bool); 12] = [
        (b"a", true, true, true),
        (b"a/b", true, false, false),
        (b"", false, false, false),
        (b"/a", false, false, false),
        (b"a/", false, false, false),
        (b"a//b", false, false, false),
        (b"a.b", false, false, false),
        (b"a;", false, false, false),
        (b"[a", false, false, false),
        (b"<init>", true, true, true),
        (b"<clinit>", true, true, true),
        (b"a<b", true, true, false),
    ];
    for (text, class, field, method) in table {
        assert!(rt; is_named(text, class, field, method));
    }
}

#[test]
fn packages(rt: HostRuntime) {
    let table: [(&[u8], &[u8]); 4] = [(b"p/q/A", b"p/q"), (b"p/A", b"p"), (b"A", b""), (b"", b"")];
    for (name, package) in table {
        assert_eq!(rt; package_of(name), package);
    }
}

#[test]
fn dots_and_slashes(rt: HostRuntime) -> Result<(), Fail> {
    let alloc = rt.alloc();
    assert_eq!(rt; dotted(alloc, "p/é/X.y")?.as_str(), "p.é.X.y");
    assert_eq!(rt; slashed(alloc, "p.é/X.y")?.as_str(), "p/é/X/y");
    Ok(())
}

#[test]
fn texts_as_units(rt: HostRuntime) -> Result<(), Fail> {
    let units = utf16_of(rt.alloc(), "a😀").ok().ok_or("units")?;
    assert_eq!(rt; units.as_slice(), [97, 0xd83d, 0xde00].as_slice());
    Ok(())
}
