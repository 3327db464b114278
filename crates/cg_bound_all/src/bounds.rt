//! The least intervals that no reason of one kind excludes.
ghost use Rattle.std.specs.Prelude.{◌≡◌, ◌≤◌, IfOk, Some};
ghost use Rattle.cg_bound_all.specs.Why.{AreNumbers, AreAllNumbers, numbers_at, hops_at, IsShown, IsBound, AreBounds, all_kinds};
ghost use Rattle.cg_bound_all.specs.Scan.{IsFound, IsBetween};

use crate::exclusion::find_reason;
use crate::instances::{AtInterval, Instance};
use crate::numbers::HopTables;
use crate::reach::excludes_lower;
use crate::reason::{Kind, Reason};
use cg_recur::{Arch, Kernel};
use std::alloc::{AllocError, Global};

/// The least interval that no reason of one kind excludes.
#[derive(Drop)]
pub struct Bound {
    /// The kind.
    pub kind: Kind,
    /// The interval, in cycles, at most the architecture's contexts; `None` if each is excluded.
    pub least: Option<u32>,
    /// What excludes the interval below it, or the greatest of all; `None` if the least interval is 1.
    pub below: Option<Reason>,
}

/// The search for the least interval of `instance` that no reason of kind `kind` excludes.
#[derive(Clone, Copy)]
struct Search<'a> {
    instance: Instance<'a>,
    kind: Kind,
}

/// Finds a reason of the kind of `search` that excludes interval `ii`; `None` if no reason does.
fn find_at(alloc: Global, search: Search, ii: u32) -> Result<Option<Reason>, AllocError>
    requires interval { ii ≤ search.instance.arch.now.contexts }
    requires numbers { AreNumbers search.instance.arch.now search.instance.kernel.now ii (numbers_at search.instance.tables.now ii) }
    ensures { IfOk result (IsFound search.entry.instance.arch.now search.entry.instance.kernel.now (hops_at search.entry.instance.tables.now ii) ii search.entry.kind) }
{
    let Instance {
        arch,
        kernel,
        tables,
    } = search.instance;
    let numbers = tables.at(ii);
    let at = AtInterval {
        arch,
        kernel,
        numbers,
        ii,
    };
    find_reason(alloc, at, search.kind)
}

/// Finds the least interval that no reason of the kind of `search` excludes, by binary search: reasons exclude each
/// interval up to `low`, `below` that one, and none excludes `free`. Below an interval that none excludes, each interval
/// below one that is excluded is excluded too.
fn halve(
    alloc: Global,
    search: Search,
    low: u32,
    below: Reason,
    free: u32,
) -> Result<Bound, AllocError>
    requires numbers { AreAllNumbers search.instance.arch.now search.instance.kernel.now search.instance.tables.now }
    requires between { IsBetween search.instance.arch.now search.instance.kernel.now search.instance.tables.now search.kind low free (Some below) }
    ensures bound { IfOk result (IsBound search.entry.instance.arch.now search.entry.instance.kernel.now search.entry.instance.tables.now) }
    ensures kind { IfOk result (λ bound. bound.kind ≡ search.entry.kind) }
{
    let mut low = low;
    let mut high = free;
    let mut below = Some(below);
    while low + 1 < high {
        let middle = low + (high - low) / 2;
        match find_at(alloc, search, middle)? {
            Some(reason) => {
                low = middle;
                below = Some(reason);
            }
            None => high = middle,
        }
    }
    Ok(Bound {
        kind: search.kind,
        least: Some(high),
        below,
    })
}

/// Finds the least interval that no reason of the kind of `search` excludes, by binary search for one that none excludes:
/// `first` excludes interval 1, and `last` the contexts of the architecture.
fn narrow(alloc: Global, search: Search, first: Reason, last: Reason) -> Result<Bound, AllocError>
    requires numbers { AreAllNumbers search.instance.arch.now search.instance.kernel.now search.instance.tables.now }
    requires first { IsShown search.instance.arch.now search.instance.kernel.now search.instance.tables.now search.kind 1 (Some first) }
    requires last { IsShown search.instance.arch.now search.instance.kernel.now search.instance.tables.now search.kind search.instance.arch.now.contexts (Some last) }
    requires several { 2 ≤ search.instance.arch.now.contexts }
    ensures bound { IfOk result (IsBound search.entry.instance.arch.now search.entry.instance.kernel.now search.entry.instance.tables.now) }
    ensures kind { IfOk result (λ bound. bound.kind ≡ search.entry.kind) }
{
    let Instance {
        arch,
        kernel,
        tables,
    } = search.instance;
    let mut low = 1;
    let mut below = first;
    let mut high = arch.contexts();
    let mut above = last;
    while low + 1 < high {
        let middle = low + (high - low) / 2;
        let Some(reason) = find_at(alloc, search, middle)? else {
            return halve(alloc, search, low, below, middle);
        };
        if excludes_lower(arch, kernel, tables, middle, &reason) {
            low = middle;
            below = reason;
        } else {
            high = middle;
            above = reason;
        }
    }
    Ok(Bound {
        kind: search.kind,
        least: None,
        below: Some(above),
    })
}

/// Finds the least interval that no reason of the kind of `search` excludes, from 1 to the contexts of the architecture.
fn find_bound(alloc: Global, search: Search) -> Result<Bound, AllocError>
    requires { AreAllNumbers search.instance.arch.now search.instance.kernel.now search.instance.tables.now }
    ensures bound { IfOk result (IsBound search.entry.instance.arch.now search.entry.instance.kernel.now search.entry.instance.tables.now) }
    ensures kind { IfOk result (λ bound. bound.kind ≡ search.entry.kind) }
{
    let Instance {
        arch,
        kernel,
        tables,
    } = search.instance;
    let kind = search.kind;
    let most = arch.contexts();
    let Some(first) = find_at(alloc, search, 1)? else {
        return Ok(Bound {
            kind,
            least: Some(1),
            below: None,
        });
    };
    let Some(last) = find_at(alloc, search, most)? else {
        return halve(alloc, search, 1, first, most);
    };
    if most == 1 || excludes_lower(arch, kernel, tables, most, &last) {
        return Ok(Bound {
            kind,
            least: None,
            below: Some(last),
        });
    }
    narrow(alloc, search, first, last)
}

/// Returns the kinds, in order.
fn kinds() -> [Kind; 4]
    ensures { result ≡ all_kinds }
{
    [Kind::Recurrence, Kind::Ways, Kind::Class, Kind::Registers]
}

/// Finds the least interval that no reason of a kind excludes, for each kind.
pub(crate) fn find_bounds(
    alloc: Global,
    arch: &Arch,
    kernel: &Kernel,
    tables: &HopTables,
) -> Result<Vec<Bound>, AllocError>
    requires { AreAllNumbers arch.now kernel.now tables.now }
    ensures { IfOk result (λ bounds. AreBounds arch.now kernel.now tables.now 4 bounds.items) }
{
    let instance = Instance {
        arch,
        kernel,
        tables,
    };
    let all = kinds();
    let kinds = all.as_slice();
    let mut bounds = Vec::new(alloc);
    for kind in kinds {
        let search = Search {
            instance,
            kind: *kind,
        };
        bounds.push(find_bound(alloc, search)?)?;
    }
    Ok(bounds)
}
