//! Places in bytes, from which numbers and contents are read.

ghost use Rattle.std.specs.Prelude.{◌≡◌, ◌+◌, ◌≤◌, ◌↔◌, length, drop, IfErr, IsTrue, MatchOption, Some};
ghost use Rattle.jl_reading.specs.Reading.{number_at};

use byteorder::{BigEndian, ByteOrder};
use jl_reading::{Fault, is_whole};

/// A place in bytes, which are at least so many.
#[derive(Clone, Copy)]
pub struct Place<'a> {
    pub bytes: &'a [u8],
    pub at: usize,
    ghost within: { at ≤ length bytes.now },
}

impl<'a> Place<'a> {
    ghost use Rattle.jl_classfile.specs.Places.{Reads, NumberOrCut, ContentOrCut};

    /// The first place.
    pub fn start(bytes: &'a [u8]) -> Place<'a>
        ensures bytes { result.bytes.now ≡ bytes.now }
        ensures at { result.at ≡ 0 }
    {
        Place { bytes, at: 0 }
    }

    /// Whether no byte stands at the place or behind it.
    pub fn is_end(self) -> bool
        ensures { IsTrue result ↔ (self.entry.at ≡ length self.entry.bytes.now) }
    {
        self.at == self.bytes.len()
    }

    /// The bytes from the place on.
    pub fn rest(self) -> &'a [u8]
        ensures { result.now ≡ drop self.entry.at self.entry.bytes.now }
    {
        &self.bytes[self.at..]
    }

    /// The number in two bytes and the place after it, or none where it is not whole.
    pub fn next_u16(self) -> Option<(u16, Place<'a>)>
        ensures { NumberOrCut 2 self.entry result }
    {
        if is_whole(self.bytes, self.at, 2) {
            let number = BigEndian::read_u16(&self.bytes[self.at..]);
            Some((number, self.moved(2)))
        } else {
            None
        }
    }

    /// The number in four bytes and the place after it, or none where it is not whole.
    pub fn next_u32(self) -> Option<(u32, Place<'a>)>
        ensures { NumberOrCut 4 self.entry result }
    {
        if is_whole(self.bytes, self.at, 4) {
            let number = BigEndian::read_u32(&self.bytes[self.at..]);
            Some((number, self.moved(4)))
        } else {
            None
        }
    }

    /// The number in two bytes, and the place after it. One that is not whole is short, at its place.
    pub fn u16<F: Fault>(self) -> Result<(u16, Place<'a>), F>
        ensures exact { Reads F.told (λ n. n) self.entry result (number_at F.short 2) }
        // The fault is told: want of memory is no answer.
        ensures fault { IfErr result (λ e. F.told e ≡ Some e) }
    {
        match self.next_u16() {
            Some(read) => Ok(read),
            None => Err(F::short(self.at)),
        }
    }

    /// The number in four bytes, and the place after it. One that is not whole is short, at its place.
    pub fn u32<F: Fault>(self) -> Result<(u32, Place<'a>), F>
        ensures exact { Reads F.told (λ n. n) self.entry result (number_at F.short 4) }
        // The fault is told: want of memory is no answer.
        ensures fault { IfErr result (λ e. F.told e ≡ Some e) }
    {
        match self.next_u32() {
            Some(read) => Ok(read),
            None => Err(F::short(self.at)),
        }
    }

    /// The content of so many bytes: its place in the bytes up to its end, and the place after it. None is
    /// where it is not whole.
    pub fn next_content(self, count: usize) -> Option<(Place<'a>, Place<'a>)>
        ensures { ContentOrCut count self.entry result }
    {
        if !is_whole(self.bytes, self.at, count) {
            return None;
        }
        let after = self.moved(count);
        let content = Place {
            bytes: &self.bytes[..after.at],
            at: self.at,
        };
        Some((content, after))
    }

    fn moved(self, count: usize) -> Place<'a>
        requires { self.at + count ≤ length self.bytes.now }
        ensures bytes { result.bytes.now ≡ self.entry.bytes.now }
        ensures at { result.at ≡ self.entry.at + count }
    {
        Place {
            bytes: self.bytes,
            at: self.at + count,
        }
    }
}
