//! The top call.

ghost use Rattle.std.specs.Prelude.{◌≡◌, ◌≤◌, ◌<◌, ◌∷◌, [], map, ℕ, List, Some, is_some, Ok, Err, IfSome, IfOk, IfErr, IsErrOf, IsTrue, MatchResult};
ghost use Rattle.std.specs.String.{string_bytes};
ghost use Rattle.jl_logic.specs.Counts.{Rose, last_count};
ghost use Rattle.jl_logic.specs.Order.{RisesBy};
ghost use Rattle.jl_config.specs.Orders.{read_cmp};
ghost use Rattle.jl_words.specs.declared.fault.WordFault.{WordFault as Refused};
ghost use Rattle.jl_launch.specs.Words.{words_of};
ghost use Rattle.jl_finder.specs.Observed.{observed};
ghost use Rattle.jl_launch.specs.Statuses.{IsOwn, tree_faults, sink_faults, stop_faults};
ghost use Rattle.jl_launch.specs.Text.{word_text, refusal_text};
ghost use Rattle.jl_launch.specs.declared.words.Asked.{Asked as Wanted};
ghost use Rattle.jl_finder.specs.Asking.{AsksUpTo, places_of};
ghost use Rattle.std.specs.List.{flat_map};
ghost use Rattle.jl_tree.specs.Files.{File};
ghost use Rattle.jl_launch.specs.Launched.{EndsAs, RefusesWords, Ends, Completes, IsLaunched, IsResolved, IsPrinted, IsRefused, IsRefusedWords, IsFinal, Comes};

use crate::base::base_alone;
use crate::end::{LaunchEnd, Refusal};
use crate::fault_text::{refusal_line, words_line};
use crate::law::launches_always;
use crate::text::graph_lines;
use crate::words::{Asked, asked_by};
use crate::writing::write_lines;
use jl_config::{Configuration, ResolveFault, resolve};
use jl_finder::{FindFault, find_all};
use jl_prim::{ConfigId, CopyEnd, Found, Name};
use jl_tree::{Sink, Tree};
use jl_words::WordFault;
use std::alloc::{AllocError, AllocFailed, Global};

/// What a command comes to: how it ends, and the lines that it prints.
#[derive(Drop)]
struct Outcome {
    end: LaunchEnd,
    lines: Vec<String>,
}

/// Why it was not decided what a command comes to.
#[derive(Clone, Copy, Drop)]
enum Stop {
    /// The tree failed. Its count of faults rose.
    ReadFault,
    /// There was no memory.
    NoMemory,
}

impl From<AllocError> for Stop {
    ghost use Rattle.jl_launch.specs.declared.launching.Stop.TheVariants.{NoMemory};

    ghost from_gives = { λ _ e. e ≡ NoMemory };

    fn from(_e: AllocError) -> Stop {
        Stop::NoMemory
    }
}

impl<T: Drop> From<AllocFailed<T>> for Stop {
    ghost use Rattle.jl_launch.specs.declared.launching.Stop.TheVariants.{NoMemory};

    ghost from_gives = { λ _ e. e ≡ NoMemory };

    fn from(_e: AllocFailed<T>) -> Stop {
        Stop::NoMemory
    }
}

impl From<CopyEnd> for Stop {
    ghost use Rattle.jl_launch.specs.declared.launching.Stop.TheVariants.{NoMemory};

    ghost from_gives = { λ _ e. e ≡ NoMemory };

    fn from(_e: CopyEnd) -> Stop {
        Stop::NoMemory
    }
}

/// Runs the command that the words give, over a tree of files, and writes what it prints to a sink.
pub fn launch<T: Tree, S: Sink>(
    alloc: Global,
    words: &[String],
    tree: &mut T,
    out: &mut S,
) -> LaunchEnd
    // The end and the text are what is launched, or a fault or want of memory stopped it with a front of the text.
    ensures launched { IfSome (T.files tree.old) (λ files. IfSome (S.taken out.old) (λ before.
        Ends (map string_bytes words.now) files before result (S.taken out.new))) }
    ensures read_fault { result ≡ LaunchEnd.ReadFault → Rose (T.faults tree.old) (T.faults tree.new) }
    ensures sink_fault { result ≡ LaunchEnd.SinkFault → Rose (S.faults out.old) (S.faults out.new) }
    // Where the words are refused no file is asked for, and the tree did not fail.
    ensures unasked { (f : Refused) → words_of (map string_bytes words.now) ≡ Err f → tree.new ≡ tree.old }
    ensures never_read { (f : Refused) → words_of (map string_bytes words.now) ≡ Err f → result ≡ LaunchEnd.ReadFault → ⊥ }
    // Refused words end so whatever the tree and the sink tell, unless the sink failed or there was no memory.
    ensures refused { (f : Refused) → words_of (map string_bytes words.now) ≡ Err f → RefusesWords f (S.taken out.old) result (S.taken out.new) }
    // The end is what is launched, or a stop, also where the sink tells nothing.
    ensures ended { IfSome (T.files tree.old) (λ files. EndsAs (map string_bytes words.now) files result) }
    // What is refused is a fault that is printed.
    ensures own { IsOwn result }
    // A fault of the tree or the sink ends the launch as itself, and no call follows it.
    ensures tree_exact { IsTrue T.counts_exactly → T.faults tree.new ≡ tree_faults result (T.faults tree.old) }
    ensures sink_exact { IsTrue S.counts_exactly → S.faults out.new ≡ sink_faults result (S.faults out.old) }
    // A resolution writes nothing before all files are read, and refused words take memory before their line is written.
    ensures unwritten { (a : Wanted) → words_of (map string_bytes words.now) ≡ Ok a → result ≡ LaunchEnd.ReadFault → out.new ≡ out.old }
    ensures no_memory { (a : Wanted) → words_of (map string_bytes words.now) ≡ Ok a → result ≡ LaunchEnd.NoMemory → out.new ≡ out.old }
    ensures no_memory_for_words { (f : Refused) → words_of (map string_bytes words.now) ≡ Err f → result ≡ LaunchEnd.NoMemory → out.new ≡ out.old }
    // The declaration files of the places of modules are asked for, each once for an element, in their order.
    ensures asks { (files : List File) (a : Wanted) → T.files tree.old ≡ Some files → words_of (map string_bytes words.now) ≡ Ok a → AsksUpTo (T.asked tree.old) (flat_map (places_of files) a.elements) (T.asked tree.new) }
    // Where nothing failed, the end and the whole text are what is launched, or memory ended and a front of the text was written.
    ensures complete { T.faults tree.new ≡ T.faults tree.old → T.faults tree.old < last_count
        → S.faults out.new ≡ S.faults out.old → S.faults out.old < last_count
        → IfSome (T.files tree.old) (λ files. IfSome (S.taken out.old) (λ before.
        Completes (map string_bytes words.now) files before result (S.taken out.new))) }
{
    // There is an end and a text also where a stop leaves them undecided.
    launches_always();
    match decide(alloc, words, tree) {
        Ok(outcome) => write_outcome(outcome, out),
        Err(Stop::ReadFault) => LaunchEnd::ReadFault,
        Err(Stop::NoMemory) => LaunchEnd::NoMemory,
    }
}

/// Writes what a command prints, and answers how it ends.
fn write_outcome<S: Sink>(outcome: Outcome, out: &mut S) -> LaunchEnd
    requires { IsFinal outcome.end }
    ensures comes { Comes outcome.end (map string_bytes outcome.lines.items) (S.taken out.old) result (S.taken out.new) }
    ensures never_read { result ≡ LaunchEnd.ReadFault → ⊥ }
    ensures never_memory { result ≡ LaunchEnd.NoMemory → ⊥ }
    ensures counts { S.faults out.old ≤ S.faults out.new }
    ensures sink_fault { result ≡ LaunchEnd.SinkFault → Rose (S.faults out.old) (S.faults out.new) }
    ensures exact { IsTrue S.counts_exactly → S.faults out.new ≡ sink_faults result (S.faults out.old) }
    ensures own { IsOwn outcome.end → IsOwn result }
    ensures same_tree { (n : ℕ) → tree_faults result n ≡ n }
{
    match write_lines(out, outcome.lines.as_slice()) {
        Ok(()) => outcome.end,
        Err(_) => LaunchEnd::SinkFault,
    }
}

/// What the words come to over a tree.
fn decide<T: Tree>(alloc: Global, words: &[String], tree: &mut T) -> Result<Outcome, Stop>
    ensures decided { IfSome (T.files tree.old) (λ files. IfOk result (λ o. IsLaunched (map string_bytes words.now) files o.end (map string_bytes o.lines.items))) }
    ensures ended { IfOk result (λ o. IsFinal o.end) }
    ensures read_fault { IsErrOf result Stop.ReadFault → Rose (T.faults tree.old) (T.faults tree.new) }
    ensures unasked { (f : Refused) → words_of (map string_bytes words.now) ≡ Err f → tree.new ≡ tree.old }
    ensures never_read { (f : Refused) → words_of (map string_bytes words.now) ≡ Err f → IsErrOf result Stop.ReadFault → ⊥ }
    ensures refused { (f : Refused) → words_of (map string_bytes words.now) ≡ Err f → IfOk result (λ o. IsRefusedWords f o.end (map string_bytes o.lines.items)) }
    ensures own { IfOk result (λ o. IsOwn o.end) }
    ensures exact { IsTrue T.counts_exactly → MatchResult result (λ _. T.faults tree.new ≡ T.faults tree.old) (λ e. T.faults tree.new ≡ stop_faults e (T.faults tree.old)) }
    ensures asks { (files : List File) (a : Wanted) → T.files tree.old ≡ Some files → words_of (map string_bytes words.now) ≡ Ok a → AsksUpTo (T.asked tree.old) (flat_map (places_of files) a.elements) (T.asked tree.new) }
{
    match asked_by(alloc, words) {
        Ok(asked) => answer(alloc, &asked, tree),
        Err(WordFault::NoMemory) => Err(Stop::NoMemory),
        Err(fault) => refuse_words(alloc, fault),
    }
}

fn refuse_words(alloc: Global, fault: WordFault) -> Result<Outcome, Stop>
    requires { IsTrue (is_some (word_text fault)) }
    ensures refused { IfOk result (λ o. IsRefusedWords fault o.end (map string_bytes o.lines.items)) }
    ensures ended { IfOk result (λ o. IsFinal o.end) }
    ensures memory { IfErr result (λ e. e ≡ Stop.NoMemory) }
    ensures own { IfOk result (λ o. IsOwn o.end) }
{
    let line = words_line(alloc, &fault)?;
    Ok(Outcome {
        lines: one_line(alloc, line)?,
        end: LaunchEnd::Words(fault),
    })
}

fn refuse(alloc: Global, refusal: Refusal) -> Result<Outcome, Stop>
    requires { IsTrue (is_some (refusal_text refusal)) }
    ensures refused { IfOk result (λ o. IsRefused refusal o.end (map string_bytes o.lines.items)) }
    ensures ended { IfOk result (λ o. IsFinal o.end) }
    ensures memory { IfErr result (λ e. e ≡ Stop.NoMemory) }
    ensures own { IfOk result (λ o. IsOwn o.end) }
{
    let line = refusal_line(alloc, &refusal)?;
    Ok(Outcome {
        lines: one_line(alloc, line)?,
        end: LaunchEnd::Refused(refusal),
    })
}

fn one_line(alloc: Global, line: String) -> Result<Vec<String>, AllocError>
    ensures { IfOk result (λ all. all.items ≡ line ∷ []) }
{
    let mut lines = Vec::new(alloc);
    lines.push(line)?;
    Ok(lines)
}

/// What `resolve` comes to over a tree.
fn answer<T: Tree>(alloc: Global, asked: &Asked, tree: &mut T) -> Result<Outcome, Stop>
    ensures answered { IfSome (T.files tree.old) (λ files. IfOk result (λ o. IsResolved asked.now.roots (observed files asked.now.elements) o.end (map string_bytes o.lines.items))) }
    ensures ended { IfOk result (λ o. IsFinal o.end) }
    ensures read_fault { IsErrOf result Stop.ReadFault → Rose (T.faults tree.old) (T.faults tree.new) }
    ensures own { IfOk result (λ o. IsOwn o.end) }
    ensures exact { IsTrue T.counts_exactly → MatchResult result (λ _. T.faults tree.new ≡ T.faults tree.old) (λ e. T.faults tree.new ≡ stop_faults e (T.faults tree.old)) }
    ensures asks { (files : List File) → T.files tree.old ≡ Some files → AsksUpTo (T.asked tree.old) (flat_map (places_of files) asked.now.elements) (T.asked tree.new) }
{
    match find_all(alloc, tree, asked.elements.as_slice()) {
        Ok(found) => answer_over(alloc, found, asked.roots.as_slice()),
        Err(FindFault::ReadFault) => Err(Stop::ReadFault),
        Err(FindFault::NoMemory) => Err(Stop::NoMemory),
        Err(fault) => refuse(alloc, Refusal::Find(fault)),
    }
}

/// What `resolve` comes to over the modules that were found.
fn answer_over(alloc: Global, after: Found, roots: &[Name]) -> Result<Outcome, Stop>
    ensures resolved { IfOk result (λ o. IsResolved roots.now (Ok after.modules) o.end (map string_bytes o.lines.items)) }
    ensures ended { IfOk result (λ o. IsFinal o.end) }
    ensures memory { IfErr result (λ e. e ≡ Stop.NoMemory) }
    ensures own { IfOk result (λ o. IsOwn o.end) }
{
    let before = base_alone(alloc)?;
    match resolve(alloc, &[], &before, &[ConfigId(0)], &after, roots, true) {
        Ok(graph) => print_graph(alloc, &graph),
        Err(ResolveFault::NoMemory) => Err(Stop::NoMemory),
        Err(fault) => refuse(alloc, Refusal::Resolve(fault)),
    }
}

fn print_graph(alloc: Global, graph: &Configuration) -> Result<Outcome, Stop>
    requires { RisesBy read_cmp graph.now.reads }
    ensures printed { IfOk result (λ o. IsPrinted (Ok graph.now) o.end (map string_bytes o.lines.items)) }
    ensures ended { IfOk result (λ o. IsFinal o.end) }
    ensures memory { IfErr result (λ e. e ≡ Stop.NoMemory) }
    ensures own { IfOk result (λ o. IsOwn o.end) }
{
    Ok(Outcome {
        end: LaunchEnd::Done,
        lines: graph_lines(alloc, graph)?,
    })
}
