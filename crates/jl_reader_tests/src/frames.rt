//! Tests of jl_frames.

use jl_frames::{FrameFault, read_frames};
use jl_making::bytes_in;
use std::alloc::Global;
use std::fmt::Write;
use std::test::*;

/// Frames of each form, one after the other (JVMS 4.7.4): same; one item; one item, extended; chop of 3 and
/// of 1; same, extended; append of 1 and of 3; full, with two locals and a stack of two.
const EACH: &str =
    "0009 03 4501 f70100070009 f80000 fa0002 fb0001 fc000000 fe0000020304 ff0004000206080005000205070102";

/// The places where a number of these frames begins.
const STARTS: [usize; 32] = [
    0, 2, 3, 4, 5, 6, 8, 9, 11, 12, 14, 15, 17, 18, 20, 21, 23, 24, 25, 27, 28, 29, 30, 31, 33, 35,
    36, 37, 39, 41, 42, 43,
];

/// Contents of the attribute, with the frames or the fault of each.
const CONTENTS: [(&str, &str); 25] = [
    (
        EACH,
        "3 Same []; 9 One [Int]; 266 One [Object(9)]; 267 Chop(3) []; 270 Chop(1) []; 272 Same []; 273 Append [Top]; 274 Append [Float, Double, Long]; 279 Full(2) [UninitThis, Uninit(5), Null, Object(258)]; ",
    ),
    ("0002 03 03", "3 Same []; 7 Same []; "),
    ("", "Short(0)"),
    ("0001", "Short(2)"),
    ("0001 80", "BadTag(2)"),
    ("0001 f6", "BadTag(2)"),
    ("0002 03 a0", "BadTag(3)"),
    ("0001 40 09", "BadItem(3)"),
    ("0001 fd 0000 01 ff", "BadItem(6)"),
    ("0001 ff 0000 0000 0001 09", "BadItem(9)"),
    ("0001 03 00", "Trailing"),
    ("0000 00", "Trailing"),
    ("0000", ""),
    // the first and the last tag of each form
    ("0001 00", "0 Same []; "),
    ("0001 3f", "63 Same []; "),
    ("0001 40 01", "0 One [Int]; "),
    ("0001 7f 01", "63 One [Int]; "),
    ("0001 f7 ffff 01", "65535 One [Int]; "),
    ("0001 f8 0001", "1 Chop(3) []; "),
    ("0001 f9 0001", "1 Chop(2) []; "),
    ("0001 fb ffff", "65535 Same []; "),
    ("0001 fd 0001 01 01", "1 Append [Int, Int]; "),
    // full frames without locals or without a stack
    ("0001 ff 0001 0000 0000", "1 Full(0) []; "),
    ("0001 ff 0001 0001 01 0000", "1 Full(1) [Int]; "),
    ("0001 ff 0001 0000 0001 01", "1 Full(0) [Int]; "),
];

/// The frames of a content as a text, or its fault.
fn told(alloc: Global, bytes: &[u8]) -> Result<String, Fail> {
    let mut text = String::new(alloc);
    match read_frames(alloc, bytes) {
        Err(fault) => write!(text, "{fault:?}")?,
        Ok(frames) => {
            for frame in &frames {
                let items = frame.items.as_slice();
                write!(text, "{} {:?} {items:?}; ", frame.offset, frame.change)?;
            }
        }
    }
    Ok(text)
}

#[test]
fn contents(rt: HostRuntime) -> Result<(), Fail> {
    for (content, expected) in &CONTENTS {
        let bytes = bytes_in(rt.alloc(), content)?;
        let found = told(rt.alloc(), &bytes)?;
        assert_eq!(rt; found.as_str(), *expected, "{content}");
    }
    Ok(())
}

/// The greatest of the places up to n.
fn start_up_to(n: usize) -> usize {
    let mut unit = 0;
    for start in &STARTS {
        if *start <= n {
            unit = *start;
        }
    }
    unit
}

#[test]
fn cuts(rt: HostRuntime) -> Result<(), Fail> {
    let bytes = bytes_in(rt.alloc(), EACH)?;
    assert_eq!(rt; bytes.len(), 45);
    for n in 0..45 {
        let fault = read_frames(rt.alloc(), &bytes[..n]).err();
        assert_eq!(rt; fault, Some(FrameFault::Short(start_up_to(n))), "{n}");
    }
    Ok(())
}
