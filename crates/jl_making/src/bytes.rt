//! Files by their parts.

ghost use Rattle.std.specs.Prelude.{◌<◌, IfOk};

use std::alloc::Global;
use std::test::Fail;

/// The bytes that the words of a line say, one behind the other: `'TEXT` its own bytes, `=TEXT` an entry of
/// a pool with that text (JVMS 4.4.7), and any other word two hexadecimal digits a byte.
pub fn bytes_in(alloc: Global, line: &str) -> Result<Vec<u8>, Fail> {
    let mut bytes = Vec::new(alloc);
    for word in line.split_whitespace() {
        push_word(&mut bytes, word)?;
    }
    Ok(bytes)
}

/// The bytes of several lines, one behind the other.
pub fn bytes_of_lines(alloc: Global, lines: &[&str]) -> Result<Vec<u8>, Fail> {
    let mut bytes = Vec::new(alloc);
    for line in lines {
        bytes.extend_from_slice(&bytes_in(alloc, line)?)?;
    }
    Ok(bytes)
}

/// The bytes where others stand in place of so many from a place on.
pub fn edited(
    alloc: Global,
    file: &[u8],
    at: usize,
    removed: usize,
    put: &[u8],
) -> Result<Vec<u8>, Fail> {
    let (front, rest) = file.split_at(at.min(file.len()));
    let mut bytes = Vec::from_slice(alloc, front)?;
    bytes.extend_from_slice(put)?;
    bytes.extend_from_slice(&rest[removed.min(rest.len())..])?;
    Ok(bytes)
}

/// The bytes after the edits of a line, one after the other, which stand between `;`: a place, how many bytes
/// go there, and which come, `-` for none.
pub fn edited_in(alloc: Global, file: &[u8], edits: &str) -> Result<Vec<u8>, Fail> {
    let mut bytes = Vec::from_slice(alloc, file)?;
    for edit in edits.split(';') {
        let (at, rest) = edit.trim().split_once(' ').ok_or("a place")?;
        let (removed, put) = rest.split_once(' ').ok_or("a count")?;
        let put = bytes_in(alloc, if put == "-" { "" } else { put })?;
        bytes = edited(alloc, &bytes, at.parse()?, removed.parse()?, &put)?;
    }
    Ok(bytes)
}

/// The bytes after the edits of a row, and what the row says behind ` -> ` comes of them.
pub fn case_of<'a>(alloc: Global, file: &[u8], row: &'a str) -> Result<(Vec<u8>, &'a str), Fail> {
    let (edits, want) = row.split_once(" -> ").ok_or("a row")?;
    Ok((edited_in(alloc, file, edits)?, want))
}

fn push_word(bytes: &mut Vec<u8>, word: &str) -> Result<(), Fail> {
    if let Some(text) = word.strip_prefix('\'') {
        bytes.extend_from_slice(text.as_bytes())?;
        return Ok(());
    }
    if let Some(text) = word.strip_prefix('=') {
        bytes.extend_from_slice(&[1, (text.len() / 256 % 256) as u8, (text.len() % 256) as u8])?;
        bytes.extend_from_slice(text.as_bytes())?;
        return Ok(());
    }
    push_digits(bytes, word.as_bytes())
}

fn push_digits(bytes: &mut Vec<u8>, digits: &[u8]) -> Result<(), Fail> {
    for pair in digits.chunks(2) {
        match *pair {
            [high, low] => bytes.push(digit(high)? * 16 + digit(low)?)?,
            _ => return Err(Fail::new("half a byte")),
        }
    }
    Ok(())
}

fn digit(character: u8) -> Result<u8, Fail>
    ensures { IfOk result (λ n. n < 16) }
{
    match character {
        b'0'..=b'9' => Ok(character - b'0'),
        b'a'..=b'f' => Ok(character - b'a' + 10),
        _ => Err(Fail::new("no digit")),
    }
}
