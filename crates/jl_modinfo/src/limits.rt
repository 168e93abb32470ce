//! Which table has too many entries.

ghost use Rattle.std.specs.Prelude.{◌≡◌, length, nat_lt};
ghost use Rattle.std.specs.List.{list_any};
ghost use Rattle.std.specs.Option.{option_copied};
ghost use Rattle.jl_tables.specs.Layout.{targets};
ghost use Rattle.jl_modinfo.specs.Writing.{tables};
ghost use Rattle.jl_modinfo.specs.Layout.{first_long, has_long_targets, has_long_classes, named_if, or_else, long_of_grants, long_behind_grants, long_in_file};

use jl_prim::{Declaration, Grant, Provides};

/// The greatest number that two bytes count.
const MOST: usize = 65535;

/// The first table in a file that has more entries than two bytes count.
pub fn long_table(d: &Declaration) -> Option<&'static str>
    ensures { option_copied result ≡ first_long (tables d.now) }
{
    long_in(d)
}

fn long_in(d: &Declaration) -> Option<&'static str>
    ensures { option_copied result ≡ long_in_file d.now }
{
    let exports = long_in_grants("exports", d.exports.as_slice());
    let opens = long_in_grants("opens", d.opens.as_slice());
    let granted = first(exports, first(opens, long_behind(d)));
    first(long("requires", d.required.len()), granted)
}

fn long_in_grants(table: &'static str, grants: &[Grant]) -> Option<&'static str>
    ensures { option_copied result ≡ long_of_grants table.now grants.now }
{
    first(
        long(table, grants.len()),
        named("targets", have_long_targets(grants)),
    )
}

fn long_behind(d: &Declaration) -> Option<&'static str>
    ensures { option_copied result ≡ long_behind_grants d.now }
{
    let classes = have_long_classes(d.provides.as_slice());
    let packages = long("packages", d.packages.len());
    let behind = first(named("implementations", classes), packages);
    let provides = first(long("provides", d.provides.len()), behind);
    first(long("uses", d.uses.len()), provides)
}

fn long(table: &'static str, count: usize) -> Option<&'static str>
    ensures { option_copied result ≡ named_if table.now (nat_lt 65535 count) }
{
    named(table, count > MOST)
}

fn named(table: &'static str, is_long: bool) -> Option<&'static str>
    ensures { option_copied result ≡ named_if table.now is_long }
{
    if is_long { Some(table) } else { None }
}

fn first(one: Option<&'static str>, other: Option<&'static str>) -> Option<&'static str>
    ensures { option_copied result ≡ or_else (option_copied one.entry) (option_copied other.entry) }
{
    match one {
        Some(table) => Some(table),
        None => other,
    }
}

fn have_long_targets(grants: &[Grant]) -> bool
    ensures { result ≡ list_any has_long_targets grants.now }
{
    grants.iter().any(|grant| target_count(grant) > MOST)
}

pub(crate) fn target_count(grant: &Grant) -> usize
    ensures { result ≡ length (targets grant.now) }
{
    match &grant.to {
        Some(names) => names.len(),
        None => 0,
    }
}

fn have_long_classes(provides: &[Provides]) -> bool
    ensures { result ≡ list_any has_long_classes provides.now }
{
    provides
        .iter()
        .any(|service| service.implementations.len() > MOST)
}
