//! Prints the page on the built-in `java.base`, docs/JAVA_BASE.md, from the table of its classes.
#![tactic(auto)]

mod front;
mod lines;
mod types;

use front::FRONT;
use jl_base::{ClassRow, base_rows};
use lines::{heading, member_line};
use std::alloc::Global;
use std::io;
use std::rt::Runtime;

fn main(rt: HostRuntime) -> io::Result<()> {
    for line in &FRONT {
        println!(rt; "{line}")?;
    }
    for part in base_rows() {
        print_classes(&rt, part)?;
    }
    Ok(())
}

fn print_classes<R: Runtime<A = Global>>(rt: &R, rows: &[ClassRow]) -> io::Result<()> {
    for row in rows {
        println!(rt; "")?;
        println!(rt; "**{}**", heading(rt.alloc(), row)?)?;
        print_members(rt, row)?;
    }
    Ok(())
}

fn print_members<R: Runtime<A = Global>>(rt: &R, row: &ClassRow) -> io::Result<()> {
    let (_, class, _, _, members) = *row;
    if !members.is_empty() {
        println!(rt; "")?;
    }
    for member in members {
        println!(rt; "- {}", member_line(rt.alloc(), class, member)?)?;
    }
    Ok(())
}
