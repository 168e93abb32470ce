//! Tests of jl_modinfo.

use jl_making::{bytes_of_lines, case_of, comes, declaration, edited_in, file_of};
use jl_modinfo::{files_keep_rules, is_writable, read_info, reads_longer, write_info};
use jl_prim::{Declaration, Name};
use std::alloc::Global;
use std::test::*;

/// Module `a`, which requires `java.base` with the mandated flag.
const SMALLEST: [&str; 4] = [
    "cafebabe 00000035 0008 =module-info 070001 =Module =a 130004 =java.base 130006",
    "8000 0002 0000 0000 0000 0000",
    "0001 0003 00000016 0005 0000 0000",
    "0001 0007 8000 0000 0000 0000 0000 0000",
];

/// Module `m` with every table filled, and the attributes ModulePackages, ModuleMainClass and SourceFile.
const WHOLE: [&str; 8] = [
    "cafebabe 00000035 0027 070002 =module-info =Module 130005 =m 130007 =java.base 130009",
    "=java.logging 13000b =java.sql 14000d =p 14000f =q 130011 =x 130013 =y 140015 =r 070017 =u/S",
    "070019 =u/T 07001b =p/C 07001d =q/D 07001f =q/E =ModulePackages =ModuleMainClass =SourceFile",
    "010003eda080 130023 =z 140025 8000 0001 0000 0000 0000 0000 0004 0003 00000052 0004 0000 0000",
    "0003 000680000000 000800200000 000a00400000 0002 000c00000000 000e00000002 0010 0012",
    "0002 001400000000 000c00000001 0010 0002 0016 0018 0002 0016 0002 001a 001c 0018 0001 001e",
    "0020 00000008 0003 000c 000e 0014 0021 00000002 001a",
    "0022 00000002 0005",
];

/// What comes of reading a file: `read`, or the fault.
fn outcome(alloc: Global, file: &[u8]) -> Result<String, Fail> {
    match read_info(alloc, file, &[]) {
        Ok(_) => Ok(String::from_str(alloc, "read")?),
        Err(fault) => Ok(format!(in alloc; "{fault:?}")?),
    }
}

/// Tries each row on a file: its edits, and what comes of reading.
fn all_come(alloc: Global, lines: &[&str], rows: &[&str]) -> Result<(), Fail> {
    let file = bytes_of_lines(alloc, lines)?;
    for row in rows {
        let (edited, want) = case_of(alloc, &file, row)?;
        comes(row, outcome(alloc, &edited)?.as_str(), want)?;
    }
    Ok(())
}

/// The places where a number, a text or a content of the smallest file begins. Each front is cut there.
#[test]
fn cut_files(rt: HostRuntime) -> Result<(), Fail> {
    files_keep_rules();
    reads_longer();
    let alloc = rt.alloc();
    let file = bytes_of_lines(alloc, &SMALLEST)?;
    let places = [
        0, 4, 6, 8, 10, 11, 13, 24, 25, 27, 28, 30, 36, 37, 39, 40, 41, 43, 44, 46, 55, 56, 58, 60,
        62, 64, 66, 68, 70, 72, 74, 78,
    ];
    let mut place = 0;
    assert_eq!(rt; file.len(), 100);
    for n in 0..file.len() {
        if places.contains(&n) {
            place = n;
        }
        let want = format!(in alloc; "Short({place})")?;
        assert_eq!(rt;
            outcome(alloc, &file[..n])?.as_str(),
            want.as_str(),
            "of {n} bytes"
        );
    }
    Ok(())
}

#[test]
fn edits_of_the_smallest_file(rt: HostRuntime) -> Result<(), Fail> {
    static ROWS: [&str; 39] = [
        "3 1 bf -> BadMagic",
        "7 1 34 -> BadVersion",
        "7 1 36 -> read",
        "7 1 3d -> read",
        "7 1 3e -> BadVersion",
        "4 4 00010037 -> read",
        "4 4 00010038 -> BadVersion",
        "4 4 00000038 -> read",
        "4 4 ffff003d -> BadVersion",
        "24 1 02 -> BadPool(2)",
        "40 3 130005 -> BadPool(5)",
        "58 2 8001 -> NotModule(flags)",
        "61 1 05 -> NotModule(this)",
        "13 1 6e -> NotModule(this)",
        "63 1 01 -> NotModule(super)",
        "65 1 01 -> NotModule(interfaces)",
        "67 1 01 -> NotModule(fields)",
        "69 1 01 -> NotModule(methods)",
        "70 30 0000 -> NoModuleAttribute",
        "71 1 00 -> NoModuleAttribute",
        "72 2 0005 -> BadIndex(72)",
        "30 1 4e -> NoModuleAttribute",
        "74 4 ffffffff -> Short(78)",
        "77 1 15 -> Short(98)",
        "39 1 20 -> BadIndex(78)",
        "79 1 04 -> BadIndex(78)",
        "83 1 05 -> BadIndex(82)",
        "87 1 06 -> BadIndex(86)",
        "91 1 07 -> BadIndex(90)",
        "54 1 66 -> BaseRule",
        "93 1 01 -> BadIndex(94)",
        "99 1 01 -> Short(100)",
        "100 0 00 -> Trailing",
        "100 0 00030000001600050000000000010007800000000000000000000000; 71 1 02 -> Repeated(attributes, Module)",
        "100 0 000300; 71 1 02 -> Repeated(attributes, Module)",
        "84 8 0002000780000000000780000000; 77 1 1c -> Repeated(requires, java.base)",
        "84 8 0002000780000000000500000000; 77 1 1c -> read",
        "84 8 0000; 77 1 10 -> BaseRule",
        "100 0 00; 77 1 17 -> Trailing",
    ];
    all_come(rt.alloc(), &SMALLEST, &ROWS)
}

#[test]
fn indices_of_wrong_entries(rt: HostRuntime) -> Result<(), Fail> {
    static ROWS: [&str; 23] = [
        "248 2 000c -> BadIndex(248)",
        "254 2 000c -> BadIndex(254)",
        "254 2 0024 -> BadIndex(254)",
        "254 2 0000 -> BadIndex(254)",
        "258 2 0006 -> BadIndex(258)",
        "268 2 000c -> BadIndex(268)",
        "272 2 0006 -> BadIndex(272)",
        "282 2 0006 -> BadIndex(282)",
        "288 2 0016 -> BadIndex(288)",
        "296 2 000c -> BadIndex(296)",
        "300 2 0010 -> BadIndex(300)",
        "312 2 000c -> BadIndex(312)",
        "318 2 000c -> BadIndex(318)",
        "322 2 000c -> BadIndex(322)",
        "328 2 000e -> BadIndex(328)",
        "346 2 0016 -> BadIndex(346)",
        "356 2 000c -> BadIndex(356)",
        "336 2 000c -> BadIndex(336)",
        "96 1 2e -> BadIndex(282)",
        "131 3 752f3b -> BadIndex(316)",
        "131 3 752f2f -> BadIndex(316)",
        "256 2 0020 -> BadIndex(300)",
        "332 2 0000 -> BadIndex(332)",
    ];
    all_come(rt.alloc(), &WHOLE, &ROWS)
}

#[test]
fn names_that_repeat(rt: HostRuntime) -> Result<(), Fail> {
    static ROWS: [&str; 12] = [
        "274 2 0006 -> Repeated(requires, java.base)",
        "274 2 0008 -> Repeated(requires, java.logging)",
        "288 2 000c -> Repeated(exports, p)",
        "296 2 0010 -> Repeated(targets, x)",
        "306 2 0014 -> Repeated(opens, r)",
        "318 2 0016 -> Repeated(uses, u/S)",
        "330 2 0016 -> Repeated(provides, u/S)",
        "328 2 001a -> Repeated(implementations, p/C)",
        "348 2 000c -> Repeated(packages, p)",
        "336 2 0003 -> Repeated(attributes, Module)",
        "358 2 0020 -> Repeated(attributes, ModulePackages)",
        "358 2 0021 -> Repeated(attributes, ModuleMainClass)",
    ];
    all_come(rt.alloc(), &WHOLE, &ROWS)
}

#[test]
fn rules_and_ends(rt: HostRuntime) -> Result<(), Fail> {
    static ROWS: [&str; 17] = [
        "0 0 - -> read",
        "254 2 0006 -> BaseRule",
        "262 2 0010 -> BaseRule",
        "264 2 8060 -> read",
        "344 2 0026 -> PackageMissing(p)",
        "346 2 0026 -> PackageMissing(q)",
        "348 2 0026 -> PackageMissing(r)",
        "167 3 732f45 -> PackageMissing(s)",
        "167 3 717845 -> PackageMissing()",
        "320 2 0001 -> Trailing",
        "342 2 0002 -> Trailing",
        "352 4 00000004 -> Trailing",
        "366 0 00 -> Trailing",
        "248 2 0022 -> NoModuleAttribute",
        "360 4 00000003 -> Short(364)",
        "352 4 00000001 -> Short(356)",
        "342 2 0004 -> Short(350)",
    ];
    all_come(rt.alloc(), &WHOLE, &ROWS)
}

/// Name, version, whether it is open, and what is required.
fn shown(alloc: Global, lines: &[&str], edits: &str) -> Result<String, Fail> {
    let file = bytes_of_lines(alloc, lines)?;
    let found = [Name::from_text(alloc, "p/q")?];
    let d = read_info(alloc, &edited_in(alloc, &file, edits)?, &found)?;
    let (name, version, required) = (&d.name, &d.version, d.required.as_slice());
    let packages = d.packages.as_slice();
    Ok(format!(in alloc;
        "{name} {version:?} {} {packages:?} {required:?}",
        d.is_open
    )?)
}

#[test]
fn parts_of_declarations(rt: HostRuntime) -> Result<(), Fail> {
    let rows = [
        ("0 0 -", "a None false", false, false),
        ("37 3 0002c3bc", "\u{fc} None false", false, false),
        ("80 2 0020", "a None true", false, false),
        ("82 2 0004", "a Some(a) false", false, false),
        ("88 2 0020", "a None false", true, false),
        ("88 2 0040", "a None false", false, true),
    ];
    let alloc = rt.alloc();
    for (edits, front, transitive, is_static) in rows {
        let want = format!(in alloc;
            "{front} [p/q] [Requires {{ name: java.base, transitive: {transitive}, is_static: {is_static} }}]"
        )?;
        assert_eq!(rt; shown(alloc, &SMALLEST, edits)?.as_str(), want.as_str());
    }
    Ok(())
}

/// The statements of the whole file.
const STATEMENTS: [&str; 4] = [
    "module m; requires java.base; requires transitive java.logging; requires static java.sql;",
    "exports p; exports q to x y; opens r; opens p to x; uses u/S; uses u/T;",
    "provides u/S with p/C q/D; provides u/T with q/E;",
    "packages p q r; main p/C",
];

/// The declaration of the whole file.
fn whole(alloc: Global) -> Result<Declaration, Fail> {
    let mut statements = String::new(alloc);
    for line in STATEMENTS {
        statements.push_str(line)?;
    }
    declaration(alloc, statements.as_str())
}

fn is_same(alloc: Global, a: &Declaration, b: &Declaration) -> Result<bool, Fail> {
    Ok(format!(in alloc; "{a:?}")? == format!(in alloc; "{b:?}")?)
}

#[test]
fn what_is_read_and_written(rt: HostRuntime) -> Result<(), Fail> {
    let alloc = rt.alloc();
    let d = whole(alloc)?;
    let read = read_info(alloc, &bytes_of_lines(alloc, &WHOLE)?, &[])?;
    assert!(rt; is_same(alloc, &read, &d)?);
    let again = read_info(alloc, &file_of(alloc, &d)?, &[])?;
    assert!(rt; is_same(alloc, &again, &d)?);
    Ok(())
}

/// What comes of writing a declaration: `written`, `not writable`, or the fault.
fn written(alloc: Global, d: &Declaration) -> Result<String, Fail> {
    if !is_writable(alloc, d)? {
        return Ok(String::from_str(alloc, "not writable")?);
    }
    match write_info(alloc, d) {
        Ok(_) => Ok(String::from_str(alloc, "written")?),
        Err(fault) => Ok(format!(in alloc; "{fault:?}")?),
    }
}

/// The whole declaration, with so many more uses of one service.
fn using(alloc: Global, count: usize) -> Result<Declaration, Fail> {
    let mut d = whole(alloc)?;
    for _ in 0..count {
        d.uses.push(Name::from_text(alloc, "u/S")?)?;
    }
    Ok(d)
}

/// The whole declaration, with a version of so many bytes.
fn versioned(alloc: Global, count: usize) -> Result<Declaration, Fail> {
    let mut d = whole(alloc)?;
    let mut version = String::new(alloc);
    for _ in 0..count {
        version.push('1')?;
    }
    d.version = Some(Name::from_string(version));
    Ok(d)
}

#[test]
fn two_bytes_count(rt: HostRuntime) -> Result<(), Fail> {
    let alloc = rt.alloc();
    assert_eq!(rt; written(alloc, &using(alloc, 65533)?)?.as_str(), "written");
    assert_eq!(rt;
        written(alloc, &using(alloc, 65534)?)?.as_str(),
        "TooMany(uses)"
    );
    assert_eq!(rt;
        written(alloc, &versioned(alloc, 65535)?)?.as_str(),
        "written"
    );
    assert_eq!(rt;
        written(alloc, &versioned(alloc, 65536)?)?.as_str(),
        "not writable"
    );
    Ok(())
}
