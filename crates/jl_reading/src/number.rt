//! Numbers, with the highest byte first.

ghost use Rattle.std.specs.Prelude.{◌≡◌, ◌+◌, ◌≤◌, ◌↔◌, length, IsTrue};
ghost use Rattle.jl_reading.specs.Reading.{number_at};

use crate::fault::Fault;
use byteorder::{BigEndian, ByteOrder};

/// Whether so many bytes stand from a place on.
pub fn is_whole(bytes: &[u8], at: usize, count: usize) -> bool
    requires { at ≤ length bytes.now }
    ensures { IsTrue result ↔ (at + count ≤ length bytes.now) }
{
    count <= bytes.len() - at
}

/// The byte at a place, and the place after it.
pub fn byte_at<F: Fault>(bytes: &[u8], at: usize) -> Result<(u8, usize), F>
    requires { at ≤ length bytes.now }
    ensures { result ≡ number_at F.short 1 bytes.now at }
{
    if is_whole(bytes, at, 1) {
        Ok((bytes[at], at + 1))
    } else {
        Err(F::short(at))
    }
}

/// The number in two bytes from a place on, and the place after it.
pub fn u16_at<F: Fault>(bytes: &[u8], at: usize) -> Result<(u16, usize), F>
    requires { at ≤ length bytes.now }
    ensures { result ≡ number_at F.short 2 bytes.now at }
{
    if is_whole(bytes, at, 2) {
        Ok((BigEndian::read_u16(&bytes[at..]), at + 2))
    } else {
        Err(F::short(at))
    }
}

/// The number in four bytes from a place on, and the place after it.
pub fn u32_at<F: Fault>(bytes: &[u8], at: usize) -> Result<(u32, usize), F>
    requires { at ≤ length bytes.now }
    ensures { result ≡ number_at F.short 4 bytes.now at }
{
    if is_whole(bytes, at, 4) {
        Ok((BigEndian::read_u32(&bytes[at..]), at + 4))
    } else {
        Err(F::short(at))
    }
}

/// The number in eight bytes from a place on, and the place after it.
pub fn u64_at<F: Fault>(bytes: &[u8], at: usize) -> Result<(u64, usize), F>
    requires { at ≤ length bytes.now }
    ensures { result ≡ number_at F.short 8 bytes.now at }
{
    if is_whole(bytes, at, 8) {
        Ok((BigEndian::read_u64(&bytes[at..]), at + 8))
    } else {
        Err(F::short(at))
    }
}
