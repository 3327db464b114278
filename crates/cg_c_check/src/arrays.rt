//! Arrays and tables.
ghost use Rattle.std.specs.Prelude.{◌≡◌, ◌≢◌, ◌+◌, ◌*◌, ◌≤◌, Ok, Err, Some, None, IfOk, IfErr, IfSome, if◌then◌else◌};
ghost use Rattle.cg_c_syntax.specs.Written.{exprs_of, rows_of, rows_list};
ghost use Rattle.cg_c_check.specs.Arrays as spec;

use crate::constants::{constant_of, place_of};
use crate::fault::CheckFault;
use crate::names::Names;
use cg_c_syntax::{Expr, Rows};
use std::alloc::Global;

/// The greatest number of words of all arrays.
const MOST_MEMORY: u32 = 1_048_576;

/// The dimensions of an array, and the address behind it.
#[derive(Drop)]
pub(crate) struct Extent {
    pub dimensions: Vec<u32>,
    pub end: u32,
}

/// Returns the product of `size` and `dimension`, where that is not 0 and an array of that many words at `start` ends in
/// memory.
fn enlarged(start: u32, size: u32, dimension: u32) -> Option<u32>
    ensures value { result ≡ (if spec.has_room start size dimension then Some (size * dimension) else None) }
    ensures room { IfSome result (λ larger. start + larger ≤ 1048576) }
{
    let size = u64::from(size) * u64::from(dimension);
    if dimension > 0 && u64::from(start) + size <= u64::from(MOST_MEMORY) {
        Some(size as u32)
    } else {
        None
    }
}

/// Returns the dimensions `exprs` of an array at `start`, and the address behind it.
pub(crate) fn extent_of<'s>(
    alloc: Global,
    names: &Names<'s>,
    start: u32,
    exprs: &'s [Expr],
) -> Result<Extent, CheckFault>
    ensures ok { IfOk result (λ extent. spec.dimensions_of names.now start 1 (exprs_of exprs.now) ≡ Ok extent.dimensions.items) }
    ensures end { IfOk result (λ extent. extent.end ≡ spec.end_of start extent.dimensions.items) }
    ensures err { IfErr result (λ fault. fault ≢ CheckFault.Memory → spec.dimensions_of names.now start 1 (exprs_of exprs.now) ≡ Err fault) }
{
    let mut dimensions = Vec::new(alloc);
    let mut size = 1;
    let mut end = start;
    for expr in exprs {
        let dimension = constant_of(names, expr)?.word;
        let Some(larger) = enlarged(start, size, dimension) else {
            return Err(CheckFault::BadArray(place_of(expr)));
        };
        dimensions.push(dimension)?;
        size = larger;
        end = start + larger;
    }
    Ok(Extent { dimensions, end })
}

/// Returns whether `dimensions` begin with `count`.
fn is_first(count: usize, dimensions: &[u32]) -> bool
    ensures { result ≡ spec.is_first count dimensions.now }
{
    match dimensions {
        [first, ..] => *first as usize == count,
        [] => false,
    }
}

/// Returns all of `dimensions` but the first.
fn behind_first(dimensions: &[u32]) -> &[u32]
    ensures { result.now ≡ spec.behind_first dimensions.now }
{
    match dimensions {
        [_, rest @ ..] => rest,
        [] => dimensions,
    }
}

/// Returns the words of `values`.
fn values_of<'s>(
    alloc: Global,
    names: &Names<'s>,
    values: &'s [Expr],
) -> Result<Vec<u32>, CheckFault>
    ensures ok { IfOk result (λ words. spec.values_of names.now (exprs_of values.now) ≡ Ok words.items) }
    ensures err { IfErr result (λ fault. fault ≢ CheckFault.Memory → spec.values_of names.now (exprs_of values.now) ≡ Err fault) }
{
    let mut words = Vec::new(alloc);
    for value in values {
        let constant = constant_of(names, value)?;
        words.push(constant.word)?;
    }
    Ok(words)
}

/// Returns the words of `rows`, which have to be as long as `dimensions` say.
#[cycle(rows)]
pub(crate) fn table_of<'s>(
    alloc: Global,
    names: &Names<'s>,
    dimensions: &[u32],
    rows: &'s Rows,
) -> Result<Vec<u32>, CheckFault>
    ensures ok { IfOk result (λ words. spec.table_of names.now dimensions.now (rows_of rows.now) ≡ Ok words.items) }
    ensures err { IfErr result (λ fault. fault ≢ CheckFault.Memory → spec.table_of names.now dimensions.now (rows_of rows.now) ≡ Err fault) }
{
    match rows {
        Rows::Values { place, values } => {
            if !is_first(values.len(), dimensions) {
                return Err(CheckFault::BadArray(*place));
            }
            values_of(alloc, names, values)
        }
        Rows::Rows { place, rows } => {
            if !is_first(rows.len(), dimensions) {
                return Err(CheckFault::BadArray(*place));
            }
            tables_of(alloc, names, behind_first(dimensions), rows)
        }
    }
}

/// Returns the words of all of `rows`, each of which has to be as long as `dimensions` say.
#[cycle(rows)]
fn tables_of<'s>(
    alloc: Global,
    names: &Names<'s>,
    dimensions: &[u32],
    rows: &'s [Rows],
) -> Result<Vec<u32>, CheckFault>
    ensures ok { IfOk result (λ words. spec.tables_of names.now dimensions.now (rows_list rows.now) ≡ Ok words.items) }
    ensures err { IfErr result (λ fault. fault ≢ CheckFault.Memory → spec.tables_of names.now dimensions.now (rows_list rows.now) ≡ Err fault) }
{
    let mut words = Vec::new(alloc);
    for row in rows {
        let more = table_of(alloc, names, dimensions, row)?;
        words.extend_from_slice(&more)?;
    }
    Ok(words)
}
