//! The parts of a bench that depend on the array: the modules of its cells, the words that a line of the trace shows,
//! and the units that are examined when a cycle ends.
ghost use Rattle.std.specs.Prelude.{◌≡◌, ◌++◌, ◌<◌, OnOk, [], length, if◌then◌else◌};
ghost use Rattle.std.specs.List.{list_any};
ghost use Rattle.cg_netlist.specs.Forms.{form_of};
ghost use Rattle.cg_testbench.specs.Array as spec;

use crate::cells::cell_text;
use cg_arch::Arch;
use cg_netlist::{Cell, form_of};
use cg_word::{Op, OpSet};
use std::alloc::{AllocError, Global};

/// Checks whether one of `cells` has the module `name`.
fn is_any_called(cells: &[Cell], name: &str) -> bool
    ensures { result ≡ list_any (spec.is_called name.now) cells.now }
{
    cells.iter().any(|cell| cell.module.as_str() == name)
}

/// Adds the module `name` to `text`, if a form has this name.
fn push_named_module(alloc: Global, text: &mut Vec<u8>, name: &str) -> Result<(), AllocError>
    ensures { OnOk result (text.new.items ≡ text.old.items ++ spec.text_by name.now (form_of name.now)) }
{
    match form_of(name) {
        Some(form) => {
            let module = cell_text(alloc, name, form)?;
            text.extend_from_slice(module.as_bytes())
        }
        None => Ok(()),
    }
}

/// Adds the module of cell `k` of `cells` to `text`, unless an earlier cell has the same module.
fn push_module(
    alloc: Global,
    text: &mut Vec<u8>,
    cells: &[Cell],
    k: usize,
) -> Result<(), AllocError>
    requires { k < length cells.now }
    ensures { OnOk result (text.new.items ≡ text.old.items ++ spec.module_at cells.now k) }
{
    let name = cells[k].module.as_str();
    if is_any_called(&cells[..k], name) {
        return Ok(());
    }
    push_named_module(alloc, text, name)
}

/// Adds the modules of `cells` to `text`, each once.
pub(crate) fn push_modules(
    alloc: Global,
    text: &mut Vec<u8>,
    cells: &[Cell],
) -> Result<(), AllocError>
    ensures { OnOk result (text.new.items ≡ text.old.items ++ spec.modules_text cells.now) }
{
    for k in 0..cells.len() {
        push_module(alloc, text, cells, k)?;
    }
    Ok(())
}

/// Adds the line that shows the word of the resource `name` to `text`.
fn push_trace_line(alloc: Global, text: &mut Vec<u8>, name: &str) -> Result<(), AllocError>
    ensures { OnOk result (text.new.items ≡ text.old.items ++ spec.trace_line_of name.now) }
{
    let line = format!(in alloc;
        "      if (array.n_{name} !== 0) $write(\" {name} %0d\", array.n_{name});\n"
    )?;
    text.extend_from_slice(line.as_bytes())
}

/// Adds the lines that show the words of all resources of `arch` to `text`.
pub(crate) fn push_trace_lines(
    alloc: Global,
    text: &mut Vec<u8>,
    arch: &Arch,
) -> Result<(), AllocError>
    ensures { OnOk result (text.new.items ≡ text.old.items ++ spec.trace_lines arch.now) }
{
    for resource in arch.resources() {
        push_trace_line(alloc, text, resource.name.as_str())?;
    }
    Ok(())
}

/// Checks whether a unit that offers `ops` may access the memory.
fn may_access(ops: OpSet) -> bool
    ensures { result ≡ spec.may_access ops }
{
    ops.has(Op::Load) || ops.has(Op::Store) || ops.has(Op::LoadIf) || ops.has(Op::StoreIf)
}

/// Checks whether a unit that offers `ops` may send a word.
fn may_send(ops: OpSet) -> bool
    ensures { result ≡ spec.may_send ops }
{
    ops.has(Op::Output) || ops.has(Op::OutputIf)
}

/// Adds the line for the memory accesses of the unit `name` to `text`, if its operations `ops` may access the memory.
fn push_access_line(
    alloc: Global,
    text: &mut Vec<u8>,
    name: &str,
    ops: OpSet,
) -> Result<(), AllocError>
    ensures { OnOk result (text.new.items ≡ text.old.items ++ (if spec.may_access ops then spec.access_line name.now else [])) }
{
    if !may_access(ops) {
        return Ok(());
    }
    let line = format!(in alloc;
        "    if (array.u_{name}.accesses) access(array.u_{name}.stores, array.u_{name}.address, array.u_{name}.word);\n"
    )?;
    text.extend_from_slice(line.as_bytes())
}

/// Adds the line for the words that the unit `name` sends to `text`, if its operations `ops` may send a word.
fn push_send_line(
    alloc: Global,
    text: &mut Vec<u8>,
    name: &str,
    ops: OpSet,
) -> Result<(), AllocError>
    ensures { OnOk result (text.new.items ≡ text.old.items ++ (if spec.may_send ops then spec.send_line name.now else [])) }
{
    if !may_send(ops) {
        return Ok(());
    }
    let line = format!(in alloc;
        "    if (array.u_{name}.sends) send(array.u_{name}.stream, array.u_{name}.word);\n"
    )?;
    text.extend_from_slice(line.as_bytes())
}

/// Adds to `text` the lines that examine the unit `name`, which offers `ops`, when a cycle ends.
fn push_end_lines(
    alloc: Global,
    text: &mut Vec<u8>,
    name: &str,
    ops: OpSet,
) -> Result<(), AllocError>
    ensures { OnOk result (text.new.items ≡ text.old.items ++ spec.end_lines_of name.now ops) }
{
    push_access_line(alloc, text, name, ops)?;
    push_send_line(alloc, text, name, ops)?;
    Ok(())
}

/// Adds to `text` the lines that examine all units of `arch` when a cycle ends.
pub(crate) fn push_units(alloc: Global, text: &mut Vec<u8>, arch: &Arch) -> Result<(), AllocError>
    ensures { OnOk result (text.new.items ≡ text.old.items ++ spec.units_text arch.now) }
{
    for unit in arch.units() {
        push_end_lines(alloc, text, unit.name.as_str(), unit.ops)?;
    }
    Ok(())
}
