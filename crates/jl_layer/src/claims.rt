//! Modules that claim a package, and two owners of one.

ghost use Rattle.std.specs.Prelude.{◌≡◌, ◌<◌, length, None, Some, IsSorted, IfOk, IfSome, MatchOption};
ghost use Rattle.jl_layer.specs.Claims.{claim_cmp, clash_in, clash_of, is_claimed};
ghost use Rattle.jl_layer.specs.Deciding.{AreOrdered, IsLeastClash};
ghost use Rattle.jl_layer.specs.ClaimSteps.{AreFirstTwo, is_clash, next_first, without};

use crate::fault::Lack;
use jl_prim::{Copied, Name};

/// A module claims a package, for an owner.
#[derive(Debug, PartialEq, Eq, PartialOrd, Ord, Drop)]
pub struct Claim {
    pub package: Name,
    pub name: Name,
    pub owner: u32,
}

/// Two modules claim a package for two owners.
#[derive(Debug, PartialEq, Eq, Drop)]
pub struct Clash {
    pub package: Name,
    pub one: Name,
    pub other: Name,
}

/// The claims by their packages, modules and owners.
pub fn sorted(mut claims: Vec<Claim>) -> Result<Vec<Claim>, Lack>
    ensures { IfOk result (λ sorted. AreOrdered claims.items sorted.items) }
{
    claims.sort()?;
    Ok(claims)
}

/// The clash with the least package, and of those the one with the least modules, of claims in order.
pub fn least_clash(claims: &[Claim]) -> Result<Option<Clash>, Lack>
    requires { IsSorted claim_cmp claims.now }
    ensures { IfOk result (IsLeastClash claims.now) }
{
    match first_clash(claims) {
        Some((first, other)) => Ok(Some(clash_of(&claims[first], &claims[other])?)),
        None => Ok(None),
    }
}

/// The clash of two claims.
fn clash_of(first: &Claim, other: &Claim) -> Result<Clash, Lack>
    ensures { IfOk result (λ clash. clash ≡ clash_of (first.now, other.now)) }
{
    Ok(Clash {
        package: first.package.copy()?,
        one: first.name.copy()?,
        other: other.name.copy()?,
    })
}

/// The places of the first two of claims in order that clash.
fn first_clash(claims: &[Claim]) -> Option<(usize, usize)>
    ensures within { IfSome result (λ p. (p.0 < length claims.now) × (p.1 < length claims.now)) }
    ensures first_two { MatchOption result (clash_in claims.now ≡ None) (λ p. AreFirstTwo claims.now p.0 p.1) }
{
    let mut first = 0;
    for at in 1..claims.len() {
        if is_clash(&claims[first], &claims[at]) {
            return Some((first, at));
        }
        first = next_first(claims, first, at);
    }
    None
}

/// Whether two claims on one package have two owners.
fn is_clash(first: &Claim, other: &Claim) -> bool
    ensures { result ≡ is_clash first.now other.now }
{
    other.package == first.package && other.owner != first.owner
}

/// The place of the first claim on the package at hand.
fn next_first(claims: &[Claim], first: usize, at: usize) -> usize
    requires first { first < length claims.now }
    requires at { at < length claims.now }
    ensures { result ≡ next_first claims.now first at }
{
    if claims[at].package == claims[first].package {
        first
    } else {
        at
    }
}

/// The claims on packages that none of these others claims.
pub fn free_of(mut claims: Vec<Claim>, others: &[Claim]) -> Vec<Claim>
    requires { IsSorted claim_cmp others.now }
    ensures { result.items ≡ without others.now claims.items }
{
    claims.retain(|claim| !is_claimed(others, claim.package.as_bytes()));
    claims
}

/// Whether one of claims in order is on the package.
fn is_claimed(claims: &[Claim], name: &[u8]) -> bool
    requires { IsSorted claim_cmp claims.now }
    ensures { result ≡ is_claimed claims.now name.now }
{
    claims
        .binary_search_by(|claim| claim.package.as_bytes().cmp(name))
        .is_ok()
}
