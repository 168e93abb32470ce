//! How a module graph is printed.

ghost use Rattle.std.specs.Prelude.{◌≡◌, ◌≤◌, ◌-◌, ◌++◌, codes, not, length, take, drop, map, filter, IfOk, OnOk};
ghost use Rattle.std.specs.String.{string_bytes};
ghost use Rattle.std.specs.Ordering.{is_lt, is_le};
ghost use Rattle.jl_logic.specs.Order.{is_text, name_cmp, RisesBy};
ghost use Rattle.jl_config.specs.Orders.{read_cmp};
ghost use Rattle.jl_launch.specs.Text as lines;

use jl_config::{Configuration, Read};
use jl_prim::{Name, Observed};
use std::alloc::{AllocError, Global};

/// The lines of a graph: each module, and under it what it reads without itself.
pub fn graph_lines(alloc: Global, graph: &Configuration) -> Result<Vec<String>, AllocError>
    requires { RisesBy read_cmp graph.now.reads }
    ensures { IfOk result (λ all. map string_bytes all.items ≡ lines.graph_lines graph.now) }
{
    let reads = graph.reads();
    let mut printed = Vec::new(alloc);
    for observed in graph.modules() {
        print_module(alloc, &mut printed, observed, reads)?;
    }
    Ok(printed)
}

/// Adds the line of a module, and under it those of what it reads.
fn print_module(
    alloc: Global,
    printed: &mut Vec<String>,
    observed: &Observed,
    reads: &[Read],
) -> Result<(), AllocError>
    requires { RisesBy read_cmp reads.now }
    ensures { OnOk result (map string_bytes printed.new.items ≡ map string_bytes printed.old.items ++ lines.module_lines reads.now observed.now) }
{
    let name = &observed.declaration.name;
    printed.push(module_line(alloc, name)?)?;
    print_reads(alloc, printed, name, reads_of(reads, name))
}

/// Adds the lines of what a module reads without itself.
fn print_reads(
    alloc: Global,
    printed: &mut Vec<String>,
    name: &Name,
    reads: &[Read],
) -> Result<(), AllocError>
    ensures { OnOk result (map string_bytes printed.new.items ≡ map string_bytes printed.old.items ++ map lines.read_line (filter (λ r. not (is_text r.name name.now)) reads.now)) }
{
    for read in reads {
        if read.name != *name {
            printed.push(read_line(alloc, read)?)?;
        }
    }
    Ok(())
}

/// What a reader reads. Its reads stand side by side.
fn reads_of<'a>(reads: &'a [Read], reader: &Name) -> &'a [Read]
    requires { RisesBy read_cmp reads.now }
    ensures { result.now ≡ filter (λ r. is_text r.reader reader.now) reads.now }
{
    let (from, to) = span_of(reads, reader);
    &reads[from..to]
}

/// Where the reads of a reader begin and end, by two searches.
fn span_of(reads: &[Read], reader: &Name) -> (usize, usize)
    requires { RisesBy read_cmp reads.now }
    ensures ordered { result.0 ≤ result.1 }
    ensures bound { result.1 ≤ length reads.now }
    ensures cut { take (result.1 - result.0) (drop result.0 reads.now) ≡ filter (λ r. is_text r.reader reader.now) reads.now }
{
    let from = reads.partition_point(
        |read: &Read| -> bool
            ensures { result ≡ is_lt (name_cmp read.now.reader reader.entry.now) }
        { read.reader < *reader },
    );
    let to = reads.partition_point(
        |read: &Read| -> bool
            ensures { result ≡ is_le (name_cmp read.now.reader reader.entry.now) }
        { read.reader <= *reader },
    );
    (from, to)
}

fn module_line(alloc: Global, name: &Name) -> Result<String, AllocError>
    ensures { IfOk result (λ line. string_bytes line ≡ lines.line (codes "module " ++ name.now)) }
{
    format!(in alloc; "module {name}\n")
}

fn read_line(alloc: Global, read: &Read) -> Result<String, AllocError>
    ensures { IfOk result (λ line. string_bytes line ≡ lines.read_line read.now) }
{
    let name = &read.name;
    format!(in alloc; "  reads {name}\n")
}
