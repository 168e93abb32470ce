//! Rows of arithmetic. What is expected was printed by `bench/Arithmetic.java`, run by Java 17: each row has operands,
//! and what comes of them by each instruction of its columns. `/0` is the error of a division by zero.

use crate::program::{comes, outcome, store_with};
use std::alloc::Global;
use std::test::*;

static INTS_COLUMNS: [&str; 11] = [
    "IADD", "ISUB", "IMUL", "IDIV", "IREM", "IAND", "IOR", "IXOR", "ISHL", "ISHR", "IUSHR",
];

static INTS: [&str; 15] = [
    "BIPUSH:7 BIPUSH:2 = 9 5 14 3 1 2 7 5 28 1 1",
    "BIPUSH:-7 BIPUSH:2 = -5 -9 -14 -3 -1 0 -5 -5 -28 -2 1073741822",
    "BIPUSH:7 BIPUSH:-2 = 5 9 -14 -3 1 6 -1 -7 -1073741824 0 0",
    "BIPUSH:-7 BIPUSH:-2 = -9 -5 14 3 -1 -8 -1 7 1073741824 -1 3",
    "BIPUSH:2147483647 BIPUSH:1 = -2147483648 2147483646 2147483647 2147483647 0 1 2147483647 2147483646 -2 1073741823 1073741823",
    "BIPUSH:-2147483648 BIPUSH:1 = -2147483647 2147483647 -2147483648 -2147483648 0 0 -2147483647 -2147483647 0 -1073741824 1073741824",
    "BIPUSH:-2147483648 BIPUSH:-1 = 2147483647 -2147483647 -2147483648 -2147483648 0 -2147483648 -1 2147483647 0 -1 1",
    "BIPUSH:-2147483648 BIPUSH:-2147483648 = 0 0 0 1 0 -2147483648 -2147483648 0 -2147483648 -2147483648 -2147483648",
    "BIPUSH:65536 BIPUSH:65537 = 131073 -1 65536 0 65536 65536 65537 1 131072 32768 32768",
    "BIPUSH:5 BIPUSH:0 = 5 5 0 /0 /0 0 5 5 5 5 5",
    "BIPUSH:0 BIPUSH:5 = 5 -5 0 0 0 0 5 5 0 0 0",
    "BIPUSH:-1 BIPUSH:31 = 30 -32 -31 0 -1 31 -1 -32 -2147483648 -1 1",
    "BIPUSH:-1 BIPUSH:32 = 31 -33 -32 0 -1 32 -1 -33 -1 -1 -1",
    "BIPUSH:1 BIPUSH:33 = 34 -32 33 0 1 1 33 32 2 0 0",
    "BIPUSH:-9 BIPUSH:63 = 54 -72 -567 0 -9 55 -1 -56 -2147483648 -1 1",
];

static LONGS_COLUMNS: [&str; 9] = [
    "LADD", "LSUB", "LMUL", "LDIV", "LREM", "LAND", "LOR", "LXOR", "LCMP",
];

static LONGS: [&str; 11] = [
    "LDC2_W:7 LDC2_W:2 = 9L 5L 14L 3L 1L 2L 7L 5L 1",
    "LDC2_W:-7 LDC2_W:2 = -5L -9L -14L -3L -1L 0L -5L -5L -1",
    "LDC2_W:7 LDC2_W:-2 = 5L 9L -14L -3L 1L 6L -1L -7L 1",
    "LDC2_W:-7 LDC2_W:-2 = -9L -5L 14L 3L -1L -8L -1L 7L -1",
    "LDC2_W:9223372036854775807 LDC2_W:1 = -9223372036854775808L 9223372036854775806L 9223372036854775807L 9223372036854775807L 0L 1L 9223372036854775807L 9223372036854775806L 1",
    "LDC2_W:-9223372036854775808 LDC2_W:1 = -9223372036854775807L 9223372036854775807L -9223372036854775808L -9223372036854775808L 0L 0L -9223372036854775807L -9223372036854775807L -1",
    "LDC2_W:-9223372036854775808 LDC2_W:-1 = 9223372036854775807L -9223372036854775807L -9223372036854775808L -9223372036854775808L 0L -9223372036854775808L -1L 9223372036854775807L -1",
    "LDC2_W:4294967296 LDC2_W:4294967297 = 8589934593L -1L 4294967296L 0L 4294967296L 4294967296L 4294967297L 1L -1",
    "LDC2_W:5 LDC2_W:0 = 5L 5L 0L /0 /0 0L 5L 5L 1",
    "LDC2_W:-3 LDC2_W:-3 = -6L 0L 9L 1L 0L -3L -3L 0L 0",
    "LDC2_W:-9223372036854775808 LDC2_W:9223372036854775807 = -1L 1L -9223372036854775808L -1L -1L 0L -1L -1L -1",
];

static SHIFTS_COLUMNS: [&str; 3] = ["LSHL", "LSHR", "LUSHR"];

static SHIFTS: [&str; 21] = [
    "LDC2_W:1 BIPUSH:0 = 1L 1L 1L",
    "LDC2_W:1 BIPUSH:1 = 2L 0L 0L",
    "LDC2_W:1 BIPUSH:32 = 4294967296L 0L 0L",
    "LDC2_W:1 BIPUSH:63 = -9223372036854775808L 0L 0L",
    "LDC2_W:1 BIPUSH:64 = 1L 1L 1L",
    "LDC2_W:1 BIPUSH:65 = 2L 0L 0L",
    "LDC2_W:1 BIPUSH:-1 = -9223372036854775808L 0L 0L",
    "LDC2_W:-1 BIPUSH:0 = -1L -1L -1L",
    "LDC2_W:-1 BIPUSH:1 = -2L -1L 9223372036854775807L",
    "LDC2_W:-1 BIPUSH:32 = -4294967296L -1L 4294967295L",
    "LDC2_W:-1 BIPUSH:63 = -9223372036854775808L -1L 1L",
    "LDC2_W:-1 BIPUSH:64 = -1L -1L -1L",
    "LDC2_W:-1 BIPUSH:65 = -2L -1L 9223372036854775807L",
    "LDC2_W:-1 BIPUSH:-1 = -9223372036854775808L -1L 1L",
    "LDC2_W:-9223372036854775808 BIPUSH:0 = -9223372036854775808L -9223372036854775808L -9223372036854775808L",
    "LDC2_W:-9223372036854775808 BIPUSH:1 = 0L -4611686018427387904L 4611686018427387904L",
    "LDC2_W:-9223372036854775808 BIPUSH:32 = 0L -2147483648L 2147483648L",
    "LDC2_W:-9223372036854775808 BIPUSH:63 = 0L -1L 1L",
    "LDC2_W:-9223372036854775808 BIPUSH:64 = -9223372036854775808L -9223372036854775808L -9223372036854775808L",
    "LDC2_W:-9223372036854775808 BIPUSH:65 = 0L -4611686018427387904L 4611686018427387904L",
    "LDC2_W:-9223372036854775808 BIPUSH:-1 = 0L -1L 1L",
];

static CONVERSIONS_COLUMNS: [&str; 5] = ["INEG", "I2B", "I2C", "I2S", "I2L"];

static CONVERSIONS: [&str; 12] = [
    "BIPUSH:0 = 0 0 0 0 0L",
    "BIPUSH:1 = -1 1 1 1 1L",
    "BIPUSH:-1 = 1 -1 65535 -1 -1L",
    "BIPUSH:127 = -127 127 127 127 127L",
    "BIPUSH:128 = -128 -128 128 128 128L",
    "BIPUSH:-129 = 129 127 65407 -129 -129L",
    "BIPUSH:32768 = -32768 0 32768 -32768 32768L",
    "BIPUSH:65535 = -65535 -1 65535 -1 65535L",
    "BIPUSH:65536 = -65536 0 0 0 65536L",
    "BIPUSH:-65537 = 65537 -1 65535 -1 -65537L",
    "BIPUSH:2147483647 = -2147483647 -1 65535 -1 2147483647L",
    "BIPUSH:-2147483648 = -2147483648 0 0 0 -2147483648L",
];

static LONG_CONVERSIONS_COLUMNS: [&str; 2] = ["LNEG", "L2I"];

static LONG_CONVERSIONS: [&str; 9] = [
    "LDC2_W:0 = 0L 0",
    "LDC2_W:1 = -1L 1",
    "LDC2_W:-1 = 1L -1",
    "LDC2_W:2147483648 = -2147483648L -2147483648",
    "LDC2_W:4294967295 = -4294967295L -1",
    "LDC2_W:4294967296 = -4294967296L 0",
    "LDC2_W:-4294967297 = 4294967297L -1",
    "LDC2_W:9223372036854775807 = -9223372036854775807L -1",
    "LDC2_W:-9223372036854775808 = -9223372036854775808L 0",
];

/// The text of the stack, or of the end, that a column says.
fn wanted(alloc: Global, word: &str) -> Result<String, Fail> {
    if word == "/0" {
        return Ok(String::from_str(alloc, "ArithmeticException: / by zero")?);
    }
    if word.ends_with('L') {
        return Ok(format!(in alloc; "_ {word}")?);
    }
    Ok(String::from_str(alloc, word)?)
}

/// Tries each column of each row.
fn all_come(alloc: Global, columns: &[&str], rows: &[&str]) -> Result<(), Fail> {
    for row in rows {
        let (operands, results) = row.split_once(" = ").ok_or("a row")?;
        for (column, result) in columns.iter().zip(results.split(' ')) {
            let mut store = store_with(alloc, 8, 4, 2)?;
            let program = format!(in alloc; "{operands} {column}")?;
            let got = outcome(alloc, &mut store, &program)?;
            comes(row, &got, &wanted(alloc, result)?)?;
        }
    }
    Ok(())
}

#[test]
fn ints(rt: HostRuntime) -> Result<(), Fail> {
    all_come(rt.alloc(), &INTS_COLUMNS, &INTS)
}

#[test]
fn longs(rt: HostRuntime) -> Result<(), Fail> {
    all_come(rt.alloc(), &LONGS_COLUMNS, &LONGS)
}

#[test]
fn shifts_of_longs(rt: HostRuntime) -> Result<(), Fail> {
    all_come(rt.alloc(), &SHIFTS_COLUMNS, &SHIFTS)
}

#[test]
fn conversions(rt: HostRuntime) -> Result<(), Fail> {
    all_come(rt.alloc(), &CONVERSIONS_COLUMNS, &CONVERSIONS)?;
    all_come(rt.alloc(), &LONG_CONVERSIONS_COLUMNS, &LONG_CONVERSIONS)
}
