//! Steps over a world, by words, and what comes of them.

ghost use Rattle.std.specs.Prelude.{◌≡◌, ◌<◌, true, length, IfOk};
ghost use Rattle.jl_loaders.specs.Loaders.{IsLoader};
ghost use Rattle.jl_loads.specs.Worlds.{IsClass, row_of};

use crate::files::tree_in;
use crate::growing::{add_exports, add_layer, add_reads, impose};
use crate::layers::layers_of;
use crate::making::words;
use crate::showing::{
    asked, class_shown, end_shown, notes, number, place_of_method, shown, slots, supertypes,
};
use jl_link::{LinkEnd, World};
use jl_prim::{ClassId, Items, LoaderId};
use jl_tree::MemTree;
use std::alloc::Global;
use std::test::Fail;

/// Class files beside Object, steps with `,` between them, and what comes of each, with `, ` between.
pub type Row = (&'static str, &'static str, &'static str);

/// The class Object: `clone` and `finalize` are protected, `of` is static.
const OBJECT: &str =
    "lib:java/lang/Object 0021 < m0001,<init>,()V m0004,clone,()Ljava/lang/Object; m0001,hashCode,()I m0004,finalize,()V m0009,of,()V";

/// The step of the program at which all is done.
const AT: u64 = 5;

/// That the rows over layers of modules come out as they say.
pub fn hold(alloc: Global, modules: &str, rows: &[Row]) -> Result<(), Fail> {
    for (files, steps, want) in rows {
        let got = comes_of(alloc, modules, files, steps)?;
        same_after(steps, got.as_str(), want)?;
    }
    Ok(())
}

fn same_after(steps: &str, got: &str, want: &str) -> Result<(), Fail> {
    if got == want {
        return Ok(());
    }
    Err(Fail::new(format_args!("{steps}: {got} in place of {want}")))
}

fn comes_of(alloc: Global, modules: &str, files: &str, steps: &str) -> Result<String, Fail> {
    let mut world = began(alloc, modules)?;
    let mut tree = tree_beside_object(alloc, files)?;
    all_of(alloc, &mut world, &mut tree, steps)
}

/// A world over layers, with no class.
fn began(alloc: Global, modules: &str) -> Result<World, Fail> {
    let layers = layers_of(alloc, modules)?;
    Ok(World::new(layers, Items::new(alloc))?)
}

fn tree_beside_object(alloc: Global, files: &str) -> Result<MemTree, Fail> {
    let text = format!(in alloc; "{OBJECT} | {files}")?;
    tree_in(alloc, text.as_str())
}

fn all_of(
    alloc: Global,
    world: &mut World,
    tree: &mut MemTree,
    steps: &str,
) -> Result<String, Fail> {
    let mut all = String::new(alloc);
    for step in steps.split(',') {
        let answer = answer(alloc, world, tree, step.trim())?;
        if !all.is_empty() {
            all.push_str(", ")?;
        }
        all.push_str(answer.as_str())?;
    }
    Ok(all)
}

fn answer(
    alloc: Global,
    world: &mut World,
    tree: &mut MemTree,
    step: &str,
) -> Result<String, Fail> {
    if let Some(modules) = step.strip_prefix("layer ") {
        return add_layer(alloc, world, modules);
    }
    let words = words(alloc, step)?;
    match words.as_slice() {
        ["load", class] => load(alloc, world, tree, class),
        ["has", class] => has_file(alloc, world, tree, class),
        ["class", class, k] => resolve(alloc, world, tree, class, (k, 2)),
        ["ref", class, k] => resolve(alloc, world, tree, class, (k, 6)),
        ["host", class] => host(alloc, world, tree, class),
        ["select", class, owner, name, desc] => {
            select(alloc, world, tree, (class, owner), (name, desc))
        }
        others => tell(alloc, world, tree, others),
    }
}

fn tell(
    alloc: Global,
    world: &mut World,
    tree: &mut MemTree,
    words: &[&str],
) -> Result<String, Fail> {
    match words {
        ["reads", one, other] => {
            let (one, other) = two(world, tree, one, other)?;
            add_reads(alloc, world, one, other)
        }
        ["exports", one, other] => {
            let (one, other) = two(world, tree, one, other)?;
            add_exports(alloc, world, one, other)
        }
        ["above", class] => {
            let class = class_of(world, tree, class)?;
            supertypes(alloc, world, class)
        }
        ["slots", class] => {
            let class = class_of(world, tree, class)?;
            slots(alloc, world, class)
        }
        ["impose", name, one, other] => impose(alloc, world, name, (number(one)?, number(other)?)),
        ["asked"] => asked(alloc, tree),
        ["notes"] => notes(alloc, world),
        ["count"] => count(alloc, world),
        _ => Err(Fail::new("no step")),
    }
}

fn count(alloc: Global, world: &World) -> Result<String, Fail> {
    let count = world.classes();
    Ok(format!(in alloc; "{count}")?)
}

/// The name and the number of the loader in `NAME` or `NAME@LOADER`; loader 1 where none is given.
fn operand(text: &str) -> Result<(&str, LoaderId), Fail> {
    match text.split_once('@') {
        None => Ok((text, LoaderId(1))),
        Some((name, loader)) => Ok((name, LoaderId(number(loader)?))),
    }
}

/// Whether a loader is there.
fn is_loader(world: &World, l: LoaderId) -> bool
    ensures { result ≡ true → IsLoader world.now.layers.loaders l }
{
    l.0 > 0 && l.0 as usize <= world.layers().loaders().count()
}

/// Whether a class is there.
pub fn is_class(world: &World, c: ClassId) -> bool
    ensures { result ≡ true → IsClass world.now c }
{
    c.0 > 0 && c.0 <= world.classes()
}

fn loaded(
    world: &mut World,
    tree: &mut MemTree,
    class: &str,
) -> Result<Result<ClassId, LinkEnd>, Fail>
    ensures { IfOk result (λ answer. IfOk answer (IsClass world.new)) }
{
    let (name, loader) = operand(class)?;
    if !is_loader(world, loader) {
        return Err(Fail::new("no loader"));
    }
    Ok(world.load(tree, loader, name.as_bytes(), AT))
}

/// The class of a name, which is loaded if need be.
fn class_of(world: &mut World, tree: &mut MemTree, class: &str) -> Result<ClassId, Fail>
    ensures { IfOk result (IsClass world.new) }
{
    match loaded(world, tree, class)? {
        Ok(c) => Ok(c),
        Err(_) => Err(Fail::new(class)),
    }
}

/// Two classes.
fn two(
    world: &mut World,
    tree: &mut MemTree,
    one: &str,
    other: &str,
) -> Result<(ClassId, ClassId), Fail>
    ensures one { IfOk result (λ cs. IsClass world.new cs.0) }
    ensures other { IfOk result (λ cs. IsClass world.new cs.1) }
{
    let one = class_of(world, tree, one)?;
    let other = class_of(world, tree, other)?;
    if !is_class(world, one) {
        return Err(Fail::new("no class"));
    }
    Ok((one, other))
}

fn load(alloc: Global, world: &mut World, tree: &mut MemTree, class: &str) -> Result<String, Fail> {
    let answer = loaded(world, tree, class)?;
    class_or_end(alloc, world, &answer)
}

fn class_or_end(
    alloc: Global,
    world: &World,
    answer: &Result<ClassId, LinkEnd>,
) -> Result<String, Fail> {
    match answer {
        Ok(c) => class_shown(alloc, world, *c),
        Err(end) => end_shown(alloc, end),
    }
}

fn has_file(
    alloc: Global,
    world: &mut World,
    tree: &mut MemTree,
    class: &str,
) -> Result<String, Fail> {
    let (name, loader) = operand(class)?;
    if !is_loader(world, loader) {
        return Err(Fail::new("no loader"));
    }
    let is_there = world.has_file(tree, loader, name.as_bytes())?;
    Ok(format!(in alloc; "{is_there}")?)
}

/// Resolves an entry of a reference of a class: the reference by its number, and the entry by its place in it.
fn resolve(
    alloc: Global,
    world: &mut World,
    tree: &mut MemTree,
    class: &str,
    entry: (&str, u16),
) -> Result<String, Fail> {
    let class = class_of(world, tree, class)?;
    let reference: u8 = entry.0.parse()?;
    let index = (reference as u16 * 6).saturating_add(entry.1);
    if !is_within(world, class, index) {
        return Err(Fail::new("no entry"));
    }
    let answer = world.resolve_ref(tree, class, index, AT);
    shown(alloc, world, &answer)
}

fn is_within(world: &World, c: ClassId, index: u16) -> bool
    requires { IsClass world.now c }
    ensures { result ≡ true → index < length (row_of world.now c) }
{
    (index as usize) < world.pool_of(c).len()
}

fn host(alloc: Global, world: &mut World, tree: &mut MemTree, class: &str) -> Result<String, Fail> {
    let class = class_of(world, tree, class)?;
    let answer = world.host_of(tree, class, AT);
    class_or_end(alloc, world, &answer)
}

/// What is selected for an object of the one class, for a method of the other.
fn select(
    alloc: Global,
    world: &mut World,
    tree: &mut MemTree,
    classes: (&str, &str),
    member: (&str, &str),
) -> Result<String, Fail> {
    let (class, owner) = two(world, tree, classes.0, classes.1)?;
    let at = place_of_method(world, owner, member)?;
    let method = world.method_id(owner, at);
    let answer = world.select(class, method);
    crate::showing::method_or_end(alloc, world, &answer)
}
