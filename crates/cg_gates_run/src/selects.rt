//! The cells that drive selects.
ghost use Rattle.std.specs.Prelude.{◌≡◌, ◌<◌, true, Contains, IfOk, length};
ghost use Rattle.cg_model.specs.Array.{IsArch};
ghost use Rattle.cg_netlist.specs.Forms.{begins};
ghost use Rattle.cg_netlist.specs.Graph.{IsNetGraph};
ghost use Rattle.cg_gates.specs.Accepts.{IsAccepted};
ghost use Rattle.cg_gates.specs.Gates as gates;
ghost use Rattle.cg_gates_run.specs.Kept.{front_of, is_given};
ghost use Rattle.cg_gates.specs.Numbers.{AreResources};
ghost use Rattle.cg_gates.specs.Shape.{form_said, is_context, is_preselect, shape_of};
ghost use Rattle.cg_gates.specs.Tables.{AreSelects, IsSelect};

use crate::nets::Nets;
use cg_arch::Arch;
use cg_gates::{SelectCell, after_front, driven_net, form_said, number_or_all, numbers_of};
use cg_netlist::{Cell, Form};
use cg_reading::Numbers;
use std::alloc::{AllocError, Global};

/// Which selects a cell drives.
#[derive(Clone, Copy)]
pub(crate) enum Given {
    /// The selects of the cycle.
    Now,
    /// The selects of the next cycle.
    Next,
}

/// The cells that drive selects.
#[derive(Drop)]
pub(crate) struct Selects {
    /// The cells for the cycle.
    pub(crate) now: Vec<SelectCell>,
    /// The cells for the next cycle.
    pub(crate) next: Vec<SelectCell>,
}

/// Returns all cells of `nets` that drive selects of `arch`.
pub(crate) fn all_selects(
    alloc: Global,
    arch: &Arch,
    nets: &Nets<'_>,
) -> Result<Selects, AllocError>
    requires { IsAccepted arch.now nets.now }
    ensures valid { IsArch arch.now }
    ensures now { IfOk result (λ selects. AreSelects arch.now nets.now is_context selects.now.items) }
    ensures next { IfOk result (λ selects. AreSelects arch.now nets.now is_preselect selects.next.items) }
{
    let now = selects_of(alloc, arch, nets, Given::Now)?;
    let next = selects_of(alloc, arch, nets, Given::Next)?;
    Ok(Selects { now, next })
}

/// Returns the cells of `nets` that drive the selects of `arch` that `given` names.
fn selects_of(
    alloc: Global,
    arch: &Arch,
    nets: &Nets<'_>,
    given: Given,
) -> Result<Vec<SelectCell>, AllocError>
    requires { IsAccepted arch.now nets.now }
    ensures valid { IsArch arch.now }
    ensures list { IfOk result (λ list. AreSelects arch.now nets.now (is_given given) list.items) }
{
    let resources = numbers_of(alloc, arch.resources())?;
    selects_by(alloc, arch, &resources, nets, given)
}

/// Returns the cells of `nets` that drive the selects of `arch` that `given` names. `resources` maps the names of its
/// resources to their numbers.
fn selects_by(
    alloc: Global,
    arch: &Arch,
    resources: &Numbers,
    nets: &Nets<'_>,
    given: Given,
) -> Result<Vec<SelectCell>, AllocError>
    requires accepted { IsAccepted arch.now nets.now }
    requires resources { AreResources resources.now arch.now.resources }
    ensures { IfOk result (λ list. AreSelects arch.now nets.now (is_given given) list.items) }
{
    let mut list = Vec::new(alloc);
    for cell in nets.netlist().cells() {
        if is_given(given, form_said(cell)) {
            list.push(select_cell(arch, resources, nets, given, cell))?;
        }
    }
    Ok(list)
}

/// Returns the entry of `cell` of `nets`, which drives a select of `arch` that `given` names. `resources` maps the
/// names of the resources to their numbers.
fn select_cell(
    arch: &Arch,
    resources: &Numbers,
    nets: &Nets<'_>,
    given: Given,
    cell: &Cell,
) -> SelectCell
    requires graph { IsNetGraph nets.now }
    requires accepted { IsAccepted arch.now nets.now }
    requires resources { AreResources resources.now arch.now.resources }
    requires there { Contains nets.now.cells cell.now }
    requires form { is_given given (form_said cell.now) ≡ true }
    ensures { IsSelect arch.now nets.now (is_given given) (shape_of cell.now) result }
{
    SelectCell {
        net: nets.number(driven_net(cell)),
        resource: resource_of(arch, resources, stem(cell.name.as_str(), front_of(given))),
    }
}

/// Returns the number of the resource of `arch` that is called `name`. `resources` maps the names of the resources to
/// their numbers.
#[tactic(auto, unfolding(cg_gates::specs::Gates::resource_named))]
fn resource_of(arch: &Arch, resources: &Numbers, name: &str) -> u32
    requires resources { AreResources resources.now arch.now.resources }
    requires known { gates.resource_named arch.now name.now < length arch.now.resources }
    ensures { result ≡ gates.resource_named arch.now name.now }
{
    number_or_all(resources, arch.resources(), name) as u32
}

/// Returns the part of `name` after `front`.
fn stem<'a>(name: &'a str, front: &str) -> &'a str
    requires begun { begins front.now name.now ≡ true }
    requires two { length front.now ≡ 2 }
    ensures { result.now ≡ gates.stem name.now }
{
    match after_front(name, front) {
        Some(stem) => stem,
        None => unreachable!(),
    }
}

/// Checks whether `form` is that of cells that drive the selects that `given` names.
fn is_given(given: Given, form: Form) -> bool
    ensures { result ≡ is_given given form }
{
    match given {
        Given::Now => matches!(form, Form::Context(_)),
        Given::Next => matches!(form, Form::Preselect(_)),
    }
}

/// Returns the letter and `_` with which the names of these cells begin.
fn front_of(given: Given) -> &'static str
    ensures { result.now ≡ front_of given }
{
    match given {
        Given::Now => "c_",
        Given::Next => "p_",
    }
}
