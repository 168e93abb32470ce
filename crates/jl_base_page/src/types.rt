//! The types of a descriptor, as Java writes them.

use std::alloc::{AllocError, Global};
use std::mem;

/// Types that are read byte by byte: those that are whole, and what was read of the next.
#[derive(Drop)]
struct Types {
    alloc: Global,
    whole: Vec<String>,
    name: String,
    brackets: String,
    is_class: bool,
}

/// The types that a descriptor names, one behind the other: of a method its parameters and then its result. A
/// class has its own name alone.
pub fn types_in(alloc: Global, desc: &str) -> Result<Vec<String>, AllocError> {
    let mut types = Types {
        alloc,
        whole: Vec::new(alloc),
        name: String::new(alloc),
        brackets: String::new(alloc),
        is_class: false,
    };
    for c in desc.chars() {
        types.read(c)?;
    }
    Ok(types.whole)
}

impl Types {
    fn read(&mut self, c: char) -> Result<(), AllocError> {
        if self.is_class {
            return self.read_name(c);
        }
        match c {
            '(' | ')' => Ok(()),
            '[' => Ok(self.brackets.push_str("[]")?),
            'L' => {
                self.is_class = true;
                Ok(())
            }
            _ => {
                self.name.push_str(primitive(c))?;
                self.end()
            }
        }
    }

    fn read_name(&mut self, c: char) -> Result<(), AllocError> {
        match c {
            ';' => {
                self.is_class = false;
                self.end()
            }
            '/' => {
                self.name.clear();
                Ok(())
            }
            '$' => Ok(self.name.push('.')?),
            _ => Ok(self.name.push(c)?),
        }
    }

    /// Puts the type that was read to the others.
    fn end(&mut self) -> Result<(), AllocError> {
        let brackets = mem::replace(&mut self.brackets, String::new(self.alloc));
        let mut text = mem::replace(&mut self.name, String::new(self.alloc));
        text.push_str(&brackets)?;
        self.whole.push(text)?;
        Ok(())
    }
}

/// A type without a class by its letter (JVMS 4.3.2), or no result.
fn primitive(c: char) -> &'static str {
    match c {
        'B' => "byte",
        'C' => "char",
        'D' => "double",
        'F' => "float",
        'I' => "int",
        'J' => "long",
        'S' => "short",
        'Z' => "boolean",
        _ => "void",
    }
}
