use jl_names::{Units, plain_of, utf16_of};
use jl_natives::*;
use jl_prim::{ErrorKind, Items};
use std::alloc::Global;
use std::io;
use std::process::Abort;
use std::test::*;
use std::time::{self, Duration};

/// A value as a table writes it.
#[derive(Clone, Copy)]
enum Shown {
    Int(i32),
    Long(i64),
    Text(&'static str),
    Units(&'static [u16]),
    Null,
}

use Shown::{Int, Long, Null, Text};

/// What a native answers.
#[derive(Clone, Copy)]
enum Want {
    Is(Shown),
    Throws(ErrorKind, &'static str),
    ThrowsAlone(ErrorKind),
}

use Want::{Is, Throws, ThrowsAlone};

fn made(alloc: Global, value: Shown) -> Option<Plain> {
    Some(match value {
        Int(n) => Plain::Int(n),
        Long(n) => Plain::Long(n),
        Text(text) => Plain::Text(utf16_of(alloc, text).ok()?),
        Shown::Units(units) => Plain::Text(Units::from_vec(Vec::from_slice(alloc, units).ok()?)),
        Null => Plain::Null,
    })
}

fn is_text(alloc: Global, units: &Units, text: &str) -> bool {
    match plain_of(alloc, units.as_slice()) {
        Ok(plain) => plain.as_slice() == text.as_bytes(),
        Err(_) => false,
    }
}

fn is_value(alloc: Global, value: &Plain, want: Shown) -> bool {
    match (value, want) {
        (Plain::Int(n), Int(m)) => *n == m,
        (Plain::Long(n), Long(m)) => *n == m,
        (Plain::Text(units), Text(text)) => is_text(alloc, units, text),
        (Plain::Text(units), Shown::Units(want)) => units.as_slice() == want,
        (Plain::Null, Null) => true,
        _ => false,
    }
}

fn is_wanted(alloc: Global, answer: &Result<Plain, NativeEnd>, want: Want) -> bool {
    match (answer, want) {
        (Ok(value), Is(want)) => is_value(alloc, value, want),
        (Err(NativeEnd::Throws(kind, Some(units))), Throws(wanted, text)) => {
            *kind == wanted && is_text(alloc, units, text)
        }
        (Err(NativeEnd::Throws(kind, None)), ThrowsAlone(wanted)) => *kind == wanted,
        _ => false,
    }
}

fn asked<N: NativeOp>(
    alloc: Global,
    native: &mut N,
    args: &[Shown],
) -> Option<Result<Plain, NativeEnd>> {
    let mut plains = Vec::new(alloc);
    for arg in args {
        plains.push(made(alloc, *arg)?).ok()?;
    }
    if is_taken(native.row(), &plains) {
        Some(native.call(alloc, &plains))
    } else {
        None
    }
}

fn walk<N: NativeOp>(rt: &impl Abort, alloc: Global, mut native: N, table: &[(&[Shown], Want)]) {
    for (args, want) in table {
        let answer = asked(alloc, &mut native, args);
        assert!(rt;
            answer
                .as_ref()
                .is_some_and(|answer| is_wanted(alloc, answer, *want))
        );
    }
}

const BOUNDS: ErrorKind = ErrorKind::StringIndexOutOfBoundsException;

const NULL: ErrorKind = ErrorKind::NullPointerException;

const NUMBER: ErrorKind = ErrorKind::NumberFormatException;

#[test]
fn parts_of_texts(rt: HostRuntime) {
    let alloc = rt.alloc();
    walk(
        &rt,
        alloc,
        Row1,
        &[(&[Text("")], Is(Int(0))), (&[Text("a😀")], Is(Int(3)))],
    );
    walk(
        &rt,
        alloc,
        Row2,
        &[
            (&[Text("abc"), Int(0)], Is(Int(97))),
            (&[Text("abc"), Int(2)], Is(Int(99))),
            (
                &[Text("abc"), Int(3)],
                Throws(BOUNDS, "Index 3 out of bounds for length 3"),
            ),
            (
                &[Text(""), Int(-1)],
                Throws(BOUNDS, "Index -1 out of bounds for length 0"),
            ),
        ],
    );
    walk(
        &rt,
        alloc,
        Row3,
        &[
            (&[Text("ab"), Text("c")], Is(Text("abc"))),
            (&[Text(""), Text("")], Is(Text(""))),
            (&[Text("ab"), Null], ThrowsAlone(NULL)),
        ],
    );
    walk(
        &rt,
        alloc,
        Row4,
        &[
            (&[Text("abcd"), Int(1), Int(3)], Is(Text("bc"))),
            (&[Text("abcd"), Int(4), Int(4)], Is(Text(""))),
            (
                &[Text("abcd"), Int(3), Int(2)],
                Throws(BOUNDS, "begin 3, end 2, length 4"),
            ),
            (
                &[Text("abcd"), Int(-1), Int(2)],
                Throws(BOUNDS, "begin -1, end 2, length 4"),
            ),
            (
                &[Text("abcd"), Int(0), Int(5)],
                Throws(BOUNDS, "begin 0, end 5, length 4"),
            ),
        ],
    );
}

#[test]
fn texts_compared(rt: HostRuntime) {
    let alloc = rt.alloc();
    walk(
        &rt,
        alloc,
        Row5,
        &[
            (&[Text("ababc"), Text("abc")], Is(Int(2))),
            (&[Text(""), Text("")], Is(Int(0))),
            (&[Text("ab"), Text("abc")], Is(Int(-1))),
            (&[Text("ab"), Null], ThrowsAlone(NULL)),
        ],
    );
    walk(
        &rt,
        alloc,
        Row6,
        &[
            (&[Text("abc"), Text("az")], Is(Int(-24))),
            (
                &[Shown::Units(&[0xd83d]), Shown::Units(&[0xffff])],
                Is(Int(-10178)),
            ),
            (&[Text("abc"), Text("a")], Is(Int(2))),
            (&[Text("ab"), Text("ab")], Is(Int(0))),
            (&[Text("ab"), Null], ThrowsAlone(NULL)),
        ],
    );
    walk(
        &rt,
        alloc,
        Row7,
        &[
            (&[Text("")], Is(Int(0))),
            (&[Text("hello")], Is(Int(99162322))),
            (&[Text("zzzzzz")], Is(Int(-685785664))),
            (&[Text("😀")], Is(Int(1772899))),
        ],
    );
    walk(
        &rt,
        alloc,
        Row8,
        &[(&[Text("")], Is(Int(1))), (&[Text(" ")], Is(Int(0)))],
    );
    walk(
        &rt,
        alloc,
        Row9,
        &[
            (&[Text("ab"), Text("a")], Is(Int(1))),
            (&[Text("a"), Text("")], Is(Int(1))),
            (&[Text("a"), Text("ab")], Is(Int(0))),
            (&[Text("a"), Null], ThrowsAlone(NULL)),
        ],
    );
}

#[test]
fn numbers_written(rt: HostRuntime) {
    let alloc = rt.alloc();
    walk(
        &rt,
        alloc,
        Row10,
        &[
            (&[Int(-5)], Is(Text("-5"))),
            (&[Int(i32::MIN)], Is(Text("-2147483648"))),
        ],
    );
    walk(
        &rt,
        alloc,
        Row12,
        &[(&[Long(i64::MAX)], Is(Text("9223372036854775807")))],
    );
    walk(
        &rt,
        alloc,
        Row14,
        &[
            (&[Int(0xd800)], Is(Shown::Units(&[0xd800]))),
            (&[Int(-1)], Is(Shown::Units(&[0xffff]))),
        ],
    );
    walk(
        &rt,
        alloc,
        Row15,
        &[
            (&[Int(1)], Is(Text("true"))),
            (&[Int(0)], Is(Text("false"))),
        ],
    );
    walk(&rt, alloc, Row20, &[(&[Int(0)], Is(Text("0")))]);
    walk(
        &rt,
        alloc,
        Row21,
        &[(&[Long(i64::MIN)], Is(Text("-9223372036854775808")))],
    );
}

#[test]
fn ints_read(rt: HostRuntime) {
    walk(
        &rt,
        rt.alloc(),
        Row11,
        &[
            (&[Text("2147483647")], Is(Int(i32::MAX))),
            (&[Text("2147483648")], Throws(NUMBER, "2147483648")),
            (&[Text("-2147483648")], Is(Int(i32::MIN))),
            (&[Text("-2147483649")], Throws(NUMBER, "-2147483649")),
            (&[Text("-0")], Is(Int(0))),
            (&[Text("+5")], Is(Int(5))),
            (&[Text("00000000000000000000007")], Is(Int(7))),
            (&[Text("")], Throws(NUMBER, "")),
            (&[Text("-")], Throws(NUMBER, "-")),
            (&[Text("+-5")], Throws(NUMBER, "+-5")),
            (&[Text("5 ")], Throws(NUMBER, "5 ")),
            (&[Text("١")], Throws(NUMBER, "١")),
            (&[Null], Throws(NUMBER, "null")),
        ],
    );
}

#[test]
fn longs_read(rt: HostRuntime) {
    walk(
        &rt,
        rt.alloc(),
        Row13,
        &[
            (&[Text("9223372036854775807")], Is(Long(i64::MAX))),
            (&[Text("-9223372036854775808")], Is(Long(i64::MIN))),
            (
                &[Text("9223372036854775808")],
                Throws(NUMBER, "9223372036854775808"),
            ),
            (
                &[Text("10000000000000000000")],
                Throws(NUMBER, "10000000000000000000"),
            ),
            (&[Text("+0")], Is(Long(0))),
            (&[Null], Throws(NUMBER, "null")),
        ],
    );
}

#[test]
fn arithmetic(rt: HostRuntime) {
    let alloc = rt.alloc();
    walk(
        &rt,
        alloc,
        Row16,
        &[
            (&[Int(-7)], Is(Int(7))),
            (&[Int(i32::MIN)], Is(Int(i32::MIN))),
        ],
    );
    walk(&rt, alloc, Row17, &[(&[Int(-1), Int(1)], Is(Int(1)))]);
    walk(&rt, alloc, Row18, &[(&[Int(-1), Int(1)], Is(Int(-1)))]);
    walk(
        &rt,
        alloc,
        Row19,
        &[
            (&[Int(7), Int(3)], Is(Int(1))),
            (&[Int(-7), Int(3)], Is(Int(2))),
            (&[Int(7), Int(-3)], Is(Int(-2))),
            (&[Int(-7), Int(-3)], Is(Int(-1))),
            (&[Int(-6), Int(3)], Is(Int(0))),
            (&[Int(i32::MIN), Int(-1)], Is(Int(0))),
            (&[Int(1), Int(i32::MIN)], Is(Int(-2147483647))),
            (
                &[Int(1), Int(0)],
                Throws(ErrorKind::ArithmeticException, "/ by zero"),
            ),
        ],
    );
}

fn is_failure(answer: &Result<Plain, NativeEnd>) -> bool {
    matches!(answer, Err(NativeEnd::Failed))
}

/// Whether the native gives these answers to the arguments, and fails past them.
fn gives<N: NativeOp>(alloc: Global, native: &mut N, args: &[Shown], answers: &[Shown]) -> bool {
    for want in answers {
        let answer = asked(alloc, native, args);
        if !answer.is_some_and(|answer| is_wanted(alloc, &answer, Is(*want))) {
            return false;
        }
    }
    asked(alloc, native, args).is_some_and(|answer| is_failure(&answer))
}

#[test]
#[tactic(auto, unfolding(jl_natives::specs::Table::native_of, jl_natives::specs::Table::gives, jl_natives::specs::Table::is_outside))]
fn scripts(rt: HostRuntime) -> Result<(), Fail> {
    let alloc = rt.alloc();
    let mut millis = ScriptNative::new(
        30,
        Items::from_vec(vec![in alloc; Plain::Long(7), Plain::Long(9)]?),
    );
    assert!(rt; gives(alloc, &mut millis, &[], &[Long(7), Long(9)]));
    let mut nanos = ScriptNative::new(31, Items::new(alloc));
    assert!(rt; gives(alloc, &mut nanos, &[], &[]));
    let text = Plain::Text(utf16_of(alloc, "/").ok().ok_or("a text")?);
    let mut properties = ScriptNative::new(32, Items::from_vec(vec![in alloc; text, Plain::Null]?));
    assert!(rt;
        gives(
            alloc,
            &mut properties,
            &[Text("file.separator")],
            &[Text("/"), Null]
        )
    );
    Ok(())
}

#[test]
fn boxes(rt: HostRuntime) -> Result<(), Fail> {
    let alloc = rt.alloc();
    let mut natives: Vec<Box<dyn NativeOp>> = Vec::new(alloc);
    natives.push(Box::new(alloc, Row10)?)?;
    natives.push(Box::new(alloc, Row7)?)?;
    natives.push(Box::new(alloc, Row7)?)?;
    natives.push(Box::new(alloc, Row21)?)?;
    let table = [(10, Some(0)), (7, Some(1)), (21, Some(3)), (8, None)];
    for (row, place) in table {
        assert_eq!(rt; find_box(&natives, row), place);
    }
    let args = [Plain::Int(-5)];
    let place = find_box(&natives, 10).ok_or("a place")?;
    assert!(rt; is_taken(10, &args));
    let answer = ask(alloc, &mut natives, place, &args);
    assert!(rt; is_wanted(alloc, &answer, Is(Text("-5"))));
    Ok(())
}

/// A clock that stands still, and one that fails.
#[derive(Drop)]
struct Stopped {
    at: Option<Duration>,
}

impl time::Clock for Stopped {
    fn monotonic(&self) -> io::Result<Duration> {
        match self.at {
            Some(at) => Ok(at),
            None => Err(io::Error::from(io::ErrorKind::Other)),
        }
    }

    fn since_1970(&self) -> io::Result<Duration> {
        self.monotonic()
    }
}

fn clock_answer(alloc: Global, row: u16, at: Option<Duration>) -> Option<Result<Plain, NativeEnd>> {
    if row == 30 || row == 31 {
        asked(alloc, &mut Clock::new(Stopped { at }, row), &[])
    } else {
        None
    }
}

#[test]
fn clocks(rt: HostRuntime) {
    let alloc = rt.alloc();
    let table = [
        (30, Duration::new(2, 7_000_001), 2007),
        (31, Duration::new(2, 7_000_001), 2_007_000_001),
    ];
    for (row, at, want) in table {
        let answer = clock_answer(alloc, row, Some(at));
        assert!(rt; answer.is_some_and(|answer| is_wanted(alloc, &answer, Is(Long(want)))));
    }
    for at in [None, Some(Duration::new(u64::MAX, 0))] {
        assert!(rt; clock_answer(alloc, 30, at).is_some_and(|answer| is_failure(&answer)));
        assert!(rt; clock_answer(alloc, 31, at).is_some_and(|answer| is_failure(&answer)));
    }
}

#[test]
fn real_clocks(rt: HostRuntime) {
    let alloc = rt.alloc();
    let millis = asked(alloc, &mut Clock::new(&rt, 30), &[]);
    assert!(rt; millis.is_some_and(|answer| matches!(answer, Ok(Plain::Long(_)))));
    let nanos = asked(alloc, &mut Clock::new(&rt, 31), &[]);
    assert!(rt; nanos.is_some_and(|answer| matches!(answer, Ok(Plain::Long(_)))));
}

#[test]
fn properties(rt: HostRuntime) -> Result<(), Fail> {
    let alloc = rt.alloc();
    let mut list = Items::new(alloc);
    for (name, text) in [("a", "1"), ("b", "2"), ("a", "3")] {
        let name = utf16_of(alloc, name).ok().ok_or("a name")?;
        let text = utf16_of(alloc, text).ok().ok_or("a text")?;
        list.push((name, text)).ok().ok_or("room")?;
    }
    walk(
        &rt,
        alloc,
        Properties::new(list),
        &[
            (&[Text("a")], Is(Text("1"))),
            (&[Text("b")], Is(Text("2"))),
            (&[Text("ab")], Is(Null)),
        ],
    );
    Ok(())
}
