//! Tests of jl_pool.

use jl_making::bytes_in;
use jl_pool::{Constant, Pool, PoolBuilder, pool_bytes, read_pool, reads_longer};
use jl_prim::Name;
use std::alloc::Global;
use std::test::*;

/// The pool of the smallest declaration file.
const SMALLEST: &str = "0008 =module-info 070001 =Module =a 130004 =java.base 130006";

/// A pool with each tag once. A Long stands at 4 and a Double at 6.
const EACH: &str =
    "0014 =a 03ffffffff 043f800000 05fffffffffffffffe 060000000000000000 070001 080001 \
    090008000d 0a0008000d 0b0008000d 0c00010001 0f06000b 100001 110000000d 120001000d 130001 140001";

/// What comes of reading these bytes as a pool: `to` and the place after it, or the fault.
fn outcome(alloc: Global, bytes: &[u8]) -> Result<String, Fail> {
    match read_pool(alloc, bytes, 0) {
        Ok((_, next)) => Ok(format!(in alloc; "to {next}")?),
        Err(fault) => Ok(format!(in alloc; "{fault:?}")?),
    }
}

/// The entry at an index, by the accessor for its tag.
fn shown(alloc: Global, pool: &Pool, i: u16) -> Result<String, Fail> {
    Ok(match pool.tag(i) {
        Some(1) => format!(in alloc; "{:?}", pool.text(i))?,
        Some(3) => format!(in alloc; "{:?}", pool.integer(i))?,
        Some(5) => format!(in alloc; "{:?}", pool.long(i))?,
        Some(7) => format!(in alloc; "{:?}", pool.class(i))?,
        Some(8) => format!(in alloc; "{:?}", pool.string(i))?,
        Some(9 | 10 | 11) => format!(in alloc; "{:?}", pool.member(i))?,
        Some(12) => format!(in alloc; "{:?}", pool.name_and_type(i))?,
        Some(19) => format!(in alloc; "{:?}", pool.module(i))?,
        Some(20) => format!(in alloc; "{:?}", pool.package(i))?,
        tag => format!(in alloc; "tag {tag:?}")?,
    })
}

#[test]
fn entries_of_each_tag(rt: HostRuntime) -> Result<(), Fail> {
    let alloc = rt.alloc();
    let bytes = bytes_in(alloc, EACH)?;
    let (pool, _) = read_pool(alloc, &bytes, 0)?;
    static ROWS: [&str; 21] = [
        "tag None",
        "Some(a)",
        "Some(-1)",
        "tag Some(4)",
        "Some(-2)",
        "tag None",
        "tag Some(6)",
        "tag None",
        "Some(1)",
        "Some(1)",
        "Some((9, 8, 13))",
        "Some((10, 8, 13))",
        "Some((11, 8, 13))",
        "Some((1, 1))",
        "tag Some(15)",
        "tag Some(16)",
        "tag Some(17)",
        "tag Some(18)",
        "Some(1)",
        "Some(1)",
        "tag None",
    ];
    let mut i = 0;
    for want in &ROWS {
        assert_eq!(rt; shown(alloc, &pool, i)?.as_str(), *want, "at {i}");
        i = i.wrapping_add(1);
    }
    Ok(())
}

/// The greatest of the places up to n.
fn start_up_to(starts: &[usize], n: usize) -> usize {
    let mut unit = 0;
    for start in starts {
        if *start <= n {
            unit = *start;
        }
    }
    unit
}

/// A pool, and the places where a number or a text of it begins. Each front of the pool is cut there.
#[test]
fn cut_pools(rt: HostRuntime) -> Result<(), Fail> {
    reads_longer();
    let alloc = rt.alloc();
    let rows: [(&str, &[usize]); 2] = [
        (
            SMALLEST,
            &[
                0, 2, 3, 5, 16, 17, 19, 20, 22, 28, 29, 31, 32, 33, 35, 36, 38, 47, 48,
            ],
        ),
        (
            EACH,
            &[
                0, 2, 3, 5, 6, 7, 11, 12, 16, 17, 25, 26, 34, 35, 37, 38, 40, 41, 43, 45, 46, 48,
                50, 51, 53, 55, 56, 58, 60, 61, 62, 64, 65, 67, 68, 70, 72, 73, 75, 77, 78, 80, 81,
            ],
        ),
    ];
    for (line, starts) in rows {
        let bytes = bytes_in(alloc, line)?;
        for n in 0..bytes.len() {
            let want = format!(in alloc; "Short({})", start_up_to(starts, n))?;
            assert_eq!(rt;
                outcome(alloc, &bytes[..n])?.as_str(),
                want.as_str(),
                "of {n} bytes"
            );
        }
    }
    Ok(())
}

#[test]
fn pools_and_their_faults(rt: HostRuntime) -> Result<(), Fail> {
    let alloc = rt.alloc();
    static ROWS: [(&str, &str); 32] = [
        ("0000 01", "to 2"),
        ("0001 01", "to 2"),
        (SMALLEST, "to 50"),
        (EACH, "to 83"),
        // unknown tags
        ("0002 00", "Entry(1)"),
        ("0002 02", "Entry(1)"),
        ("0002 0d", "Entry(1)"),
        ("0002 0e", "Entry(1)"),
        ("0002 15", "Entry(1)"),
        ("0002 ff", "Entry(1)"),
        // bad texts
        ("0002 01000180", "Entry(1)"),
        ("0003 0300000001 01000100", "Entry(2)"),
        // numbers of eight bytes at the last index
        ("0002 05", "Entry(1)"),
        ("0002 050000", "Entry(1)"),
        ("0002 060000000000000000", "Entry(1)"),
        ("0003 050000", "Short(3)"),
        ("0004 050000000000000000 070002", "Entry(3)"),
        // references of each tag to the entry itself
        ("0003 =a 070002", "Entry(2)"),
        ("0003 =a 080002", "Entry(2)"),
        ("0003 =a 0900020002", "Entry(2)"),
        ("0003 =a 0a00020002", "Entry(2)"),
        ("0003 =a 0b00020002", "Entry(2)"),
        ("0003 =a 0c00010002", "Entry(2)"),
        ("0003 =a 0f060002", "Entry(2)"),
        ("0003 =a 100002", "Entry(2)"),
        ("0003 =a 1100000002", "Entry(2)"),
        ("0003 =a 1200000002", "Entry(2)"),
        ("0003 =a 130002", "Entry(2)"),
        ("0003 =a 140002", "Entry(2)"),
        // the least wrong index, and only after the last entry
        ("0003 070002 080001", "Entry(1)"),
        ("0004 =a 070001 080002", "Entry(3)"),
        ("0003 070009 07", "Short(6)"),
    ];
    for (line, want) in &ROWS {
        assert_eq!(rt;
            outcome(alloc, &bytes_in(alloc, line)?)?.as_str(),
            *want,
            "{line}"
        );
    }
    Ok(())
}

/// A pool with the Integers 0, 1 and so on at each index below 65,535.
#[test]
fn pool_of_65534_entries(rt: HostRuntime) -> Result<(), Fail> {
    let alloc = rt.alloc();
    let mut bytes = Vec::from_slice(alloc, &[0xff, 0xff])?;
    for n in 0..65534u16 {
        bytes.extend_from_slice(&[3, 0, 0, (n / 256) as u8, (n % 256) as u8])?;
    }
    let (pool, next) = read_pool(alloc, &bytes, 0)?;
    assert_eq!(rt; next, 327_672);
    assert_eq!(rt; pool.integer(65534), Some(65533));
    assert_eq!(rt; pool.tag(65535), None);
    Ok(())
}

fn entered(alloc: Global, builder: &mut PoolBuilder, constant: Constant) -> Result<String, Fail> {
    if !constant.is_short(alloc)? {
        return Ok(String::from_str(alloc, "too long")?);
    }
    match builder.enter(constant) {
        Ok(index) => Ok(format!(in alloc; "{index}")?),
        Err(end) => Ok(format!(in alloc; "{end:?}")?),
    }
}

/// A class, its text and a module of the same name have the indices 2, 1 and 3, whenever they are entered.
#[test]
fn constants_are_entered_once(rt: HostRuntime) -> Result<(), Fail> {
    let alloc = rt.alloc();
    let mut builder = PoolBuilder::new(alloc);
    for _ in 0..2 {
        let class = Constant::Class(Name::from_text(alloc, "a")?);
        assert_eq!(rt; entered(alloc, &mut builder, class)?.as_str(), "2");
        let module = Constant::Module(Name::from_text(alloc, "a")?);
        assert_eq!(rt; entered(alloc, &mut builder, module)?.as_str(), "3");
    }
    let bytes = pool_bytes(alloc, &builder.finish(alloc)?)?;
    let want = bytes_in(alloc, "0004 =a 070001 130001")?;
    assert_eq!(rt; bytes.as_slice(), want.as_slice());
    Ok(())
}

/// A pool with a text at each index has no room for one more.
#[test]
fn a_full_pool(rt: HostRuntime) -> Result<(), Fail> {
    let alloc = rt.alloc();
    let mut builder = PoolBuilder::new(alloc);
    for n in 1..=65534u16 {
        let text = Constant::Text(Name::from_string(format!(in alloc; "{n}")?));
        let want = format!(in alloc; "{n}")?;
        assert_eq!(rt; entered(alloc, &mut builder, text)?.as_str(), want.as_str());
    }
    let class = Constant::Class(Name::from_text(alloc, "1")?);
    assert_eq!(rt; entered(alloc, &mut builder, class)?.as_str(), "TooMany");
    let text = Constant::Text(Name::from_text(alloc, "1")?);
    assert_eq!(rt; entered(alloc, &mut builder, text)?.as_str(), "1");
    Ok(())
}
