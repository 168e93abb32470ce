//! The natives that their arguments decide, one for each row. They keep nothing.
#![tactic(auto, using(crate::proofs::Pure::no_fault), unfolding(crate::specs::Table::native_of, crate::specs::Table::row_of, crate::specs::Table::is_outside))]

ghost use Rattle.jl_natives.specs.Boxes.{quiet_view};

use crate::args::{int_at, long_at, text_at, units_at};
use crate::native::{NativeEnd, NativeOp};
use crate::numbers::{abs, floor_mod, int_text, long_text, parse_int, parse_long};
use crate::plain::Plain;
use crate::strings::{char_at, concat, of_boolean, of_char, substring};
use crate::units::{as_boolean, as_int, compare_to, hash_code, index_of, starts_with_part};
use std::alloc::Global;

/// `String.length()`.
#[derive(Debug, Drop)]
pub struct Row1;

impl NativeOp for Row1 {
    ghost view = { λ _. quiet_view 1 };

    fn row(&self) -> u16 {
        1
    }

    fn call(&mut self, _alloc: Global, args: &[Plain]) -> Result<Plain, NativeEnd> {
        Ok(Plain::Int(as_int(units_at(args, 0).len())))
    }
}

/// `String.charAt(int)`.
#[derive(Debug, Drop)]
pub struct Row2;

impl NativeOp for Row2 {
    ghost view = { λ _. quiet_view 2 };

    fn row(&self) -> u16 {
        2
    }

    fn call(&mut self, alloc: Global, args: &[Plain]) -> Result<Plain, NativeEnd> {
        char_at(alloc, units_at(args, 0), int_at(args, 1))
    }
}

/// `String.concat(String)`.
#[derive(Debug, Drop)]
pub struct Row3;

impl NativeOp for Row3 {
    ghost view = { λ _. quiet_view 3 };

    fn row(&self) -> u16 {
        3
    }

    fn call(&mut self, alloc: Global, args: &[Plain]) -> Result<Plain, NativeEnd> {
        concat(alloc, units_at(args, 0), text_at(args, 1))
    }
}

/// `String.substring(int, int)`.
#[derive(Debug, Drop)]
pub struct Row4;

impl NativeOp for Row4 {
    ghost view = { λ _. quiet_view 4 };

    fn row(&self) -> u16 {
        4
    }

    fn call(&mut self, alloc: Global, args: &[Plain]) -> Result<Plain, NativeEnd> {
        substring(alloc, units_at(args, 0), int_at(args, 1), int_at(args, 2))
    }
}

/// `String.indexOf(String)`.
#[derive(Debug, Drop)]
pub struct Row5;

impl NativeOp for Row5 {
    ghost view = { λ _. quiet_view 5 };

    fn row(&self) -> u16 {
        5
    }

    fn call(&mut self, _alloc: Global, args: &[Plain]) -> Result<Plain, NativeEnd> {
        index_of(units_at(args, 0), text_at(args, 1))
    }
}

/// `String.compareTo(String)`.
#[derive(Debug, Drop)]
pub struct Row6;

impl NativeOp for Row6 {
    ghost view = { λ _. quiet_view 6 };

    fn row(&self) -> u16 {
        6
    }

    fn call(&mut self, _alloc: Global, args: &[Plain]) -> Result<Plain, NativeEnd> {
        compare_to(units_at(args, 0), text_at(args, 1))
    }
}

/// `String.hashCode()`.
#[derive(Debug, Drop)]
pub struct Row7;

impl NativeOp for Row7 {
    ghost view = { λ _. quiet_view 7 };

    fn row(&self) -> u16 {
        7
    }

    fn call(&mut self, _alloc: Global, args: &[Plain]) -> Result<Plain, NativeEnd> {
        Ok(Plain::Int(hash_code(units_at(args, 0))))
    }
}

/// `String.isEmpty()`.
#[derive(Debug, Drop)]
pub struct Row8;

impl NativeOp for Row8 {
    ghost view = { λ _. quiet_view 8 };

    fn row(&self) -> u16 {
        8
    }

    fn call(&mut self, _alloc: Global, args: &[Plain]) -> Result<Plain, NativeEnd> {
        Ok(as_boolean(units_at(args, 0).is_empty()))
    }
}

/// `String.startsWith(String)`.
#[derive(Debug, Drop)]
pub struct Row9;

impl NativeOp for Row9 {
    ghost view = { λ _. quiet_view 9 };

    fn row(&self) -> u16 {
        9
    }

    fn call(&mut self, _alloc: Global, args: &[Plain]) -> Result<Plain, NativeEnd> {
        starts_with_part(units_at(args, 0), text_at(args, 1))
    }
}

/// `Integer.toString(int)`.
#[derive(Debug, Drop)]
pub struct Row10;

impl NativeOp for Row10 {
    ghost view = { λ _. quiet_view 10 };

    fn row(&self) -> u16 {
        10
    }

    fn call(&mut self, alloc: Global, args: &[Plain]) -> Result<Plain, NativeEnd> {
        int_text(alloc, int_at(args, 0))
    }
}

/// `Integer.parseInt(String)`.
#[derive(Debug, Drop)]
pub struct Row11;

impl NativeOp for Row11 {
    ghost view = { λ _. quiet_view 11 };

    fn row(&self) -> u16 {
        11
    }

    fn call(&mut self, alloc: Global, args: &[Plain]) -> Result<Plain, NativeEnd> {
        parse_int(alloc, text_at(args, 0))
    }
}

/// `Long.toString(long)`.
#[derive(Debug, Drop)]
pub struct Row12;

impl NativeOp for Row12 {
    ghost view = { λ _. quiet_view 12 };

    fn row(&self) -> u16 {
        12
    }

    fn call(&mut self, alloc: Global, args: &[Plain]) -> Result<Plain, NativeEnd> {
        long_text(alloc, long_at(args, 0))
    }
}

/// `Long.parseLong(String)`.
#[derive(Debug, Drop)]
pub struct Row13;

impl NativeOp for Row13 {
    ghost view = { λ _. quiet_view 13 };

    fn row(&self) -> u16 {
        13
    }

    fn call(&mut self, alloc: Global, args: &[Plain]) -> Result<Plain, NativeEnd> {
        parse_long(alloc, text_at(args, 0))
    }
}

/// `String.valueOf(char)`.
#[derive(Debug, Drop)]
pub struct Row14;

impl NativeOp for Row14 {
    ghost view = { λ _. quiet_view 14 };

    fn row(&self) -> u16 {
        14
    }

    fn call(&mut self, alloc: Global, args: &[Plain]) -> Result<Plain, NativeEnd> {
        of_char(alloc, int_at(args, 0))
    }
}

/// `String.valueOf(boolean)`.
#[derive(Debug, Drop)]
pub struct Row15;

impl NativeOp for Row15 {
    ghost view = { λ _. quiet_view 15 };

    fn row(&self) -> u16 {
        15
    }

    fn call(&mut self, alloc: Global, args: &[Plain]) -> Result<Plain, NativeEnd> {
        of_boolean(alloc, int_at(args, 0))
    }
}

/// `Math.abs(int)`.
#[derive(Debug, Drop)]
pub struct Row16;

impl NativeOp for Row16 {
    ghost view = { λ _. quiet_view 16 };

    fn row(&self) -> u16 {
        16
    }

    fn call(&mut self, _alloc: Global, args: &[Plain]) -> Result<Plain, NativeEnd> {
        Ok(Plain::Int(abs(int_at(args, 0))))
    }
}

/// `Math.max(int, int)`.
#[derive(Debug, Drop)]
pub struct Row17;

impl NativeOp for Row17 {
    ghost view = { λ _. quiet_view 17 };

    fn row(&self) -> u16 {
        17
    }

    fn call(&mut self, _alloc: Global, args: &[Plain]) -> Result<Plain, NativeEnd> {
        Ok(Plain::Int(int_at(args, 0).max(int_at(args, 1))))
    }
}

/// `Math.min(int, int)`.
#[derive(Debug, Drop)]
pub struct Row18;

impl NativeOp for Row18 {
    ghost view = { λ _. quiet_view 18 };

    fn row(&self) -> u16 {
        18
    }

    fn call(&mut self, _alloc: Global, args: &[Plain]) -> Result<Plain, NativeEnd> {
        Ok(Plain::Int(int_at(args, 0).min(int_at(args, 1))))
    }
}

/// `Math.floorMod(int, int)`.
#[derive(Debug, Drop)]
pub struct Row19;

impl NativeOp for Row19 {
    ghost view = { λ _. quiet_view 19 };

    fn row(&self) -> u16 {
        19
    }

    fn call(&mut self, alloc: Global, args: &[Plain]) -> Result<Plain, NativeEnd> {
        floor_mod(alloc, int_at(args, 0), int_at(args, 1))
    }
}

/// `String.valueOf(int)`.
#[derive(Debug, Drop)]
pub struct Row20;

impl NativeOp for Row20 {
    ghost view = { λ _. quiet_view 20 };

    fn row(&self) -> u16 {
        20
    }

    fn call(&mut self, alloc: Global, args: &[Plain]) -> Result<Plain, NativeEnd> {
        int_text(alloc, int_at(args, 0))
    }
}

/// `String.valueOf(long)`.
#[derive(Debug, Drop)]
pub struct Row21;

impl NativeOp for Row21 {
    ghost view = { λ _. quiet_view 21 };

    fn row(&self) -> u16 {
        21
    }

    fn call(&mut self, alloc: Global, args: &[Plain]) -> Result<Plain, NativeEnd> {
        long_text(alloc, long_at(args, 0))
    }
}
