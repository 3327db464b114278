//! The names that elements claim.
ghost use Rattle.std.specs.Prelude.{◌≡◌, ◌++◌, ℕ, List, Some, None, IfOk, OnOk, if◌then◌else◌};
ghost use Rattle.std.specs.List.{list_any};
ghost use Rattle.std.specs.Option.{option_or};
ghost use Rattle.std.specs.Str.{bytes_eq};
ghost use Rattle.cg_model.specs.First.{first_from, is_before};
ghost use Rattle.cg_parts.specs.Parts as spec;
ghost use Rattle.cg_reading.specs.Numbers.{found_in};
ghost use Rattle.cg_parts.specs.Numbers.{IsClaiming};
ghost use Rattle.cg_parts.specs.Rules.{repeats_by, repeated_name};

use crate::names::{out_name, port_name_of};
use crate::parts::{Element, Names};
use cg_model::Name;
use cg_reading::{Numbers, add_first, is_before, number_in};
use indexmap::IndexMap;
use std::alloc::{AllocError, Global};

/// Returns the names that `element` claims.
fn claims_of(alloc: Global, element: &Element) -> Result<Vec<Name>, AllocError>
    ensures { IfOk result (λ names. names.items ≡ spec.claims_of element.now) }
{
    let mut names = Vec::new(alloc);
    match element {
        Element::Wire { name, .. } | Element::Register { name, .. } => {
            names.push(Name::copy_of(alloc, name.as_str())?)?;
        }
        Element::Unit { name, ports, .. } => {
            names.push(Name::copy_of(alloc, name.as_str())?)?;
            names.push(out_name(alloc, name.as_str())?)?;
            add_port_names(alloc, &mut names, name.as_str(), ports.as_slice())?;
        }
    }
    Ok(names)
}

/// Appends the names of the ports of a unit that have one.
fn add_port_names(
    alloc: Global,
    names: &mut Vec<Name>,
    unit: &str,
    ports: &[Names],
) -> Result<(), AllocError>
    ensures { OnOk result (names.new.items ≡ names.old.items ++ spec.port_names unit.now 0 ports.now) }
{
    for port in 0..ports.len() {
        match port_name_of(alloc, unit, port)? {
            Some(name) => names.push(name)?,
            None => return Ok(()),
        }
    }
    Ok(())
}

/// Returns the number of the first element that claims each name.
fn claimers_of(alloc: Global, elements: &[Element]) -> Result<Numbers, AllocError>
    ensures { IfOk result (λ numbers. IsClaiming numbers elements.now) }
{
    let mut numbers = IndexMap::new(alloc);
    for (number, element) in elements.iter().enumerate() {
        let names = claims_of(alloc, element)?;
        add_claims(alloc, &mut numbers, &names, number)?;
    }
    Ok(numbers)
}

/// Gives each of the names the number, where the name has none yet.
fn add_claims(
    alloc: Global,
    numbers: &mut Numbers,
    names: &[Name],
    number: usize,
) -> Result<(), AllocError>
    ensures { OnOk result ((other : List ℕ) → found_in numbers.new other
        ≡ option_or (found_in numbers.old other) (if list_any (λ claim. bytes_eq claim other) names.now then Some number else None)) }
{
    for name in names {
        add_first(alloc, numbers, name.as_str(), number)?;
    }
    Ok(())
}

/// Returns the number of the first element that claims a name of an earlier one.
pub(crate) fn first_repeat(alloc: Global, elements: &[Element]) -> Result<Option<usize>, AllocError>
    ensures { IfOk result (λ found. found ≡ repeated_name elements.now) }
{
    let claimers = claimers_of(alloc, elements)?;
    first_repeat_by(alloc, &claimers, elements)
}

/// Returns the number of the first element that claims a name which an earlier element claims.
fn first_repeat_by(
    alloc: Global,
    claimers: &Numbers,
    elements: &[Element],
) -> Result<Option<usize>, AllocError>
    ensures { IfOk result (λ found. found ≡ first_from (repeats_by (found_in claimers.now)) 0 elements.now) }
{
    for (number, element) in elements.iter().enumerate() {
        if repeats(alloc, claimers, number, element)? {
            return Ok(Some(number));
        }
    }
    Ok(None)
}

/// Returns whether an element before the given number claims a name that this element claims.
fn repeats(
    alloc: Global,
    claimers: &Numbers,
    number: usize,
    element: &Element,
) -> Result<bool, AllocError>
    ensures { IfOk result (λ found. found ≡ repeats_by (found_in claimers.now) number element.now) }
{
    let names = claims_of(alloc, element)?;
    Ok(any_before(claimers, &names, number))
}

/// Returns whether an element before `number` claims one of `names`.
fn any_before(claimers: &Numbers, names: &[Name], number: usize) -> bool
    ensures { result ≡ list_any (λ claim. is_before (found_in claimers.now claim) number) names.now }
{
    names.iter().any(|name| is_before(number_in(claimers, name.as_str()), number))
}
