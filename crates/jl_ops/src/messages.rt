//! The ends of rows that do not go on, with the messages of what they throw.

ghost use Rattle.std.specs.Prelude.{◌≡◌, IfOk, Some};
ghost use Rattle.jl_heap.specs.declared.ends.RowEnd.TheVariants as ends;
ghost use Rattle.jl_ops.specs.Stops as words;

use crate::stop::Stop;
use jl_heap::RowEnd;
use jl_names::Units;
use jl_prim::ErrorKind;
use std::alloc::{AllocError, Global};

/// A text of ASCII characters as units.
fn units_of(alloc: Global, text: &str) -> Result<Units, AllocError>
    ensures { IfOk result (λ units. units ≡ text.now) }
{
    let mut units = Vec::with_capacity(alloc, text.len())?;
    for byte in text.as_bytes() {
        units.push(u16::from(*byte))?;
    }
    Ok(Units::from_vec(units))
}

/// An error with a message.
fn thrown(alloc: Global, kind: ErrorKind, message: &str) -> RowEnd
    ensures { words.IsEnd (ends.Throws kind (Some message.now)) result }
{
    match units_of(alloc, message) {
        Ok(units) => RowEnd::Throws(kind, Some(units)),
        Err(_) => RowEnd::NoMemory,
    }
}

/// The error of an index that an array of so many elements does not have.
fn out_of_bounds(alloc: Global, at: i32, count: u32) -> RowEnd
    ensures { words.IsEnd (words.end_of (Stop.OutOfBounds at count)) result }
{
    let kind = ErrorKind::ArrayIndexOutOfBoundsException;
    match format!(in alloc; "Index {at} out of bounds for length {count}") {
        Ok(message) => thrown(alloc, kind, &message),
        Err(_) => RowEnd::NoMemory,
    }
}

/// The error of an array with a negative number of elements.
fn negative(alloc: Global, count: i32) -> RowEnd
    ensures { words.IsEnd (words.end_of (Stop.Negative count)) result }
{
    match format!(in alloc; "{count}") {
        Ok(message) => thrown(alloc, ErrorKind::NegativeArraySizeException, &message),
        Err(_) => RowEnd::NoMemory,
    }
}

/// The end of a row that does not go on, with the message of what is thrown.
pub fn end_of(alloc: Global, stop: Stop) -> RowEnd
    ensures { words.IsEnd (words.end_of stop) result }
{
    match stop {
        Stop::Stuck(kind, found) => RowEnd::Stuck(kind, found),
        Stop::Null => RowEnd::Throws(ErrorKind::NullPointerException, None),
        Stop::ZeroDivisor => thrown(alloc, ErrorKind::ArithmeticException, "/ by zero"),
        Stop::OutOfBounds(at, count) => out_of_bounds(alloc, at, count),
        Stop::Negative(count) => negative(alloc, count),
        Stop::Full => thrown(alloc, ErrorKind::OutOfMemoryError, "heap"),
        Stop::Raised(o) => RowEnd::Raises(o),
    }
}
