//! Writing lines to a sink.

ghost use Rattle.std.specs.Prelude.{◌≡◌, ◌≤◌, map, OnErr, IsTrue, MatchResult};
ghost use Rattle.std.specs.List.{concat};
ghost use Rattle.std.specs.String.{string_bytes};
ghost use Rattle.jl_logic.specs.Counts.{Rose, raised};
ghost use Rattle.jl_launch.specs.Writing.{Writes};

use jl_tree::{Sink, SinkFault};

/// Writes a line as one piece. What a write leaves is written again. A write that takes nothing is a failure.
pub fn write_line<S: Sink>(out: &mut S, line: &[u8]) -> Result<(), SinkFault>
    ensures writes { Writes (S.taken out.old) line.now result (S.taken out.new) }
    ensures counts { S.faults out.old ≤ S.faults out.new }
    ensures failed { OnErr result (Rose (S.faults out.old) (S.faults out.new)) }
    ensures exact { IsTrue S.counts_exactly → MatchResult result (λ _. S.faults out.new ≡ S.faults out.old) (λ _. S.faults out.new ≡ raised (S.faults out.old)) }
{
    let mut rest = line;
    while !rest.is_empty() {
        let count = match out.write(rest) {
            Ok(count) => count,
            Err(fault) => return Err(fault),
        };
        if count == 0 {
            return Err(SinkFault::Failed);
        }
        rest = &rest[count..];
    }
    Ok(())
}

/// Writes lines, each as one piece.
pub fn write_lines<S: Sink>(out: &mut S, lines: &[String]) -> Result<(), SinkFault>
    ensures writes { Writes (S.taken out.old) (concat (map string_bytes lines.now)) result (S.taken out.new) }
    ensures counts { S.faults out.old ≤ S.faults out.new }
    ensures failed { OnErr result (Rose (S.faults out.old) (S.faults out.new)) }
    ensures exact { IsTrue S.counts_exactly → MatchResult result (λ _. S.faults out.new ≡ S.faults out.old) (λ _. S.faults out.new ≡ raised (S.faults out.old)) }
{
    for line in lines {
        match write_line(out, line.as_bytes()) {
            Ok(()) => {}
            Err(fault) => return Err(fault),
        }
    }
    Ok(())
}
