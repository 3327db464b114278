//! The assignments of a bench before the run: the configuration in the cells, the image, and the expected result.
ghost use Rattle.std.specs.Prelude.{◌≡◌, ◌++◌, ◌<◌, ◌≤◌, IfOk, OnOk, length, slice_index, codes, string_bytes};
ghost use Rattle.cg_model.specs.Canonical.{IsCanonical};
ghost use Rattle.cg_model.specs.Config.{arg};
ghost use Rattle.cg_model.specs.Limits.{most_contexts, port_count};
ghost use Rattle.cg_list_laws.specs.Below.{lists_below};
ghost use Rattle.cg_testbench.specs.Pieces.{port_letter};
ghost use Rattle.cg_testbench.specs.Sizes.{sent};
ghost use Rattle.cg_testbench.specs.Lines.{number_line};
ghost use Rattle.cg_testbench.specs.Setup as spec;

use crate::lines::{
    Place, push_input_line, push_left_memory_line, push_left_output_line, push_length_line,
    push_memory_line, push_number_line, push_word_line,
};
use crate::sizes::{sent, stream, taken};
use cg_arch::Arch;
use cg_config::Contexts;
use cg_datapath::RunEnd;
use cg_model::{ArgFields, Kind, UnitFields};
use cg_pad::{Image, PORTS};
use cg_word::Op;
use std::alloc::{AllocError, Global};

/// A slot of a configuration of an array.
#[derive(Drop)]
pub(crate) struct Slot<'s, C: Contexts> {
    /// The array.
    pub arch: &'s Arch,
    /// The configuration.
    pub contexts: &'s C,
    /// The number of the slot.
    pub number: u32,
}

/// An argument of a unit in a slot.
#[derive(Clone, Copy)]
pub(crate) struct Argument<'a> {
    /// The name of the unit's cell.
    pub cell: &'a str,
    /// The slot.
    pub slot: u32,
    /// The number of the argument.
    pub number: usize,
}

/// Returns the prefix of the name of the cell that drives the select of a resource of the kind `kind`.
fn select_prefix(kind: Kind) -> &'static str
    ensures { result.now ≡ spec.select_prefix kind }
{
    match kind {
        Kind::Register => "p_",
        Kind::Wire | Kind::Port | Kind::Out => "c_",
    }
}

/// Returns the name of the cell that drives the select of `resource` of `arch`.
fn select_cell(alloc: Global, arch: &Arch, resource: u32) -> Result<String, AllocError>
    requires { resource < length arch.now.resources }
    ensures { IfOk result (λ text. string_bytes text ≡ spec.select_cell arch.now resource) }
{
    let resource = &arch.resources()[resource as usize];
    let prefix = select_prefix(resource.kind);
    let name = resource.name.as_str();
    format!(in alloc; "{prefix}{name}")
}

/// Returns the name of the cell of `unit` of `arch`.
fn unit_cell(alloc: Global, arch: &Arch, unit: u32) -> Result<String, AllocError>
    requires { unit < length arch.now.units }
    ensures { IfOk result (λ text. string_bytes text ≡ spec.unit_cell arch.now unit) }
{
    let name = arch.units()[unit as usize].name.as_str();
    format!(in alloc; "u_{name}")
}

/// Returns the letter of the port of argument `number`.
fn port_letter(number: usize) -> &'static str
    ensures { result.now ≡ port_letter number }
{
    match number {
        0 => "a",
        1 => "b",
        _ => "c",
    }
}

/// Adds to `text` the line of the operation `op` that the unit of `cell` begins in `slot`.
fn push_op_line(
    alloc: Global,
    text: &mut Vec<u8>,
    cell: &str,
    slot: u32,
    op: Option<Op>,
) -> Result<(), AllocError>
    ensures { OnOk result (text.new.items ≡ text.old.items ++ spec.op_line cell.now slot op) }
{
    match op {
        Some(op) => {
            let code = op.code();
            let name = op.name();
            let line = format!(in alloc; "    array.{cell}.op[{slot}] = {code}; // {name}\n")?;
            text.extend_from_slice(line.as_bytes())
        }
        None => Ok(()),
    }
}

/// Adds to `text` the line that marks `argument` as the immediate, where it is `fixed`.
fn push_fixed_line(
    alloc: Global,
    text: &mut Vec<u8>,
    argument: Argument<'_>,
    fixed: bool,
) -> Result<(), AllocError>
    ensures { OnOk result (text.new.items ≡ text.old.items ++ spec.fixed_line argument.entry.cell.now argument.entry.slot argument.entry.number fixed) }
{
    if !fixed {
        return Ok(());
    }
    let Argument { cell, slot, number } = argument;
    let letter = port_letter(number);
    let line = format!(in alloc; "    array.{cell}.fixed_{letter}[{slot}] = 1;\n")?;
    text.extend_from_slice(line.as_bytes())
}

/// Adds to `text` the line of the number `count` of the initial words of `argument`.
fn push_count_line(
    alloc: Global,
    text: &mut Vec<u8>,
    argument: Argument<'_>,
    count: u32,
) -> Result<(), AllocError>
    ensures { OnOk result (text.new.items ≡ text.old.items ++ number_line argument.entry.cell.now (codes "count_" ++ port_letter argument.entry.number) argument.entry.slot count) }
{
    let Argument { cell, slot, number } = argument;
    let letter = port_letter(number);
    let table = format!(in alloc; "count_{letter}")?;
    let place = Place {
        cell,
        table: table.as_str(),
        at: slot,
    };
    push_number_line(alloc, text, place, count)
}

/// Adds to `text` the lines of the four initial words of `argument` in `fields`.
fn push_first_lines(
    alloc: Global,
    text: &mut Vec<u8>,
    argument: Argument<'_>,
    fields: &ArgFields,
) -> Result<(), AllocError>
    requires { argument.slot ≤ most_contexts }
    ensures { OnOk result (text.new.items ≡ text.old.items ++ lists_below (spec.first_line argument.entry.cell.now argument.entry.slot argument.entry.number fields.now) 4) }
{
    let Argument { cell, slot, number } = argument;
    let letter = port_letter(number);
    let table = format!(in alloc; "first_{letter}")?;
    for k in 0..4_u32 {
        let place = Place {
            cell,
            table: table.as_str(),
            at: 4 * slot + k,
        };
        push_word_line(alloc, text, place, fields.init[k as usize])?;
    }
    Ok(())
}

/// Adds to `text` the lines of `argument`, of a unit with the configuration `fields`.
fn push_argument(
    alloc: Global,
    text: &mut Vec<u8>,
    argument: Argument<'_>,
    fields: &UnitFields,
) -> Result<(), AllocError>
    requires slot { argument.slot ≤ most_contexts }
    requires number { argument.number < 3 }
    ensures { OnOk result (text.new.items ≡ text.old.items ++ spec.argument_lines argument.entry.cell.now argument.entry.slot fields.now argument.entry.number) }
{
    let own = &fields.args[argument.number];
    push_fixed_line(alloc, text, argument, own.fixed)?;
    push_count_line(alloc, text, argument, own.count)?;
    push_first_lines(alloc, text, argument, own)?;
    Ok(())
}

/// Adds to `text` the lines of all arguments in `slot` of the unit of `cell`, with the configuration `fields`.
fn push_arguments(
    alloc: Global,
    text: &mut Vec<u8>,
    cell: &str,
    slot: u32,
    fields: &UnitFields,
) -> Result<(), AllocError>
    requires { slot ≤ most_contexts }
    ensures { OnOk result (text.new.items ≡ text.old.items ++ lists_below (spec.argument_lines cell.now slot fields.now) 3) }
{
    for number in 0..3 {
        push_argument(alloc, text, Argument { cell, slot, number }, fields)?;
    }
    Ok(())
}

/// Adds to `text` the lines in `slot` of the unit of `cell`, with the configuration `fields`.
fn push_fields(
    alloc: Global,
    text: &mut Vec<u8>,
    cell: &str,
    slot: u32,
    fields: &UnitFields,
) -> Result<(), AllocError>
    requires { slot ≤ most_contexts }
    ensures { OnOk result (text.new.items ≡ text.old.items ++ spec.fields_lines cell.now slot fields.now) }
{
    let at = slot;
    push_op_line(alloc, text, cell, slot, fields.op)?;
    let table = "stage";
    push_number_line(alloc, text, Place { cell, table, at }, fields.stage)?;
    let table = "port";
    push_number_line(alloc, text, Place { cell, table, at }, fields.port)?;
    let table = "immediate";
    push_word_line(alloc, text, Place { cell, table, at }, fields.immediate)?;
    push_arguments(alloc, text, cell, slot, fields)?;
    Ok(())
}

/// Adds the select of `resource` in `slot` to `text`.
fn push_select_line<C: Contexts>(
    alloc: Global,
    text: &mut Vec<u8>,
    slot: &Slot<'_, C>,
    resource: u32,
) -> Result<(), AllocError>
    requires canonical { IsCanonical slot.now.arch.now (C.config slot.now.contexts.now) }
    requires slot { slot.now.number < (C.config slot.now.contexts.now).ii }
    requires resource { resource < length slot.now.arch.now.resources }
    ensures { OnOk result (text.new.items ≡ text.old.items ++ spec.select_line slot.now.arch.now (C.config slot.now.contexts.now) slot.now.number resource) }
{
    let select = slot.contexts.select(resource, slot.number);
    let cell = select_cell(alloc, slot.arch, resource)?;
    let place = Place {
        cell: cell.as_str(),
        table: "select",
        at: slot.number,
    };
    push_number_line(alloc, text, place, select)
}

/// Adds the selects of all resources in `slot` to `text`.
fn push_selects<C: Contexts>(
    alloc: Global,
    text: &mut Vec<u8>,
    slot: &Slot<'_, C>,
) -> Result<(), AllocError>
    requires canonical { IsCanonical slot.now.arch.now (C.config slot.now.contexts.now) }
    requires slot { slot.now.number < (C.config slot.now.contexts.now).ii }
    ensures { OnOk result (text.new.items ≡ text.old.items ++ lists_below (spec.select_line slot.now.arch.now (C.config slot.now.contexts.now) slot.now.number) (length slot.now.arch.now.resources)) }
{
    for resource in 0..slot.arch.resources().len() {
        push_select_line(alloc, text, slot, resource as u32)?;
    }
    Ok(())
}

/// Adds the configuration of `unit` in `slot` to `text`.
fn push_unit<C: Contexts>(
    alloc: Global,
    text: &mut Vec<u8>,
    slot: &Slot<'_, C>,
    unit: u32,
) -> Result<(), AllocError>
    requires canonical { IsCanonical slot.now.arch.now (C.config slot.now.contexts.now) }
    requires slot { slot.now.number < (C.config slot.now.contexts.now).ii }
    requires few { slot.now.number ≤ most_contexts }
    requires unit { unit < length slot.now.arch.now.units }
    ensures { OnOk result (text.new.items ≡ text.old.items ++ spec.unit_lines slot.now.arch.now (C.config slot.now.contexts.now) slot.now.number unit) }
{
    let fields = slot.contexts.unit(unit, slot.number);
    let cell = unit_cell(alloc, slot.arch, unit)?;
    push_fields(alloc, text, cell.as_str(), slot.number, &fields)
}

/// Adds the configuration of all units in `slot` to `text`.
fn push_units<C: Contexts>(
    alloc: Global,
    text: &mut Vec<u8>,
    slot: &Slot<'_, C>,
) -> Result<(), AllocError>
    requires canonical { IsCanonical slot.now.arch.now (C.config slot.now.contexts.now) }
    requires slot { slot.now.number < (C.config slot.now.contexts.now).ii }
    ensures { OnOk result (text.new.items ≡ text.old.items ++ lists_below (spec.unit_lines slot.now.arch.now (C.config slot.now.contexts.now) slot.now.number) (length slot.now.arch.now.units)) }
{
    for unit in 0..slot.arch.units().len() {
        push_unit(alloc, text, slot, unit as u32)?;
    }
    Ok(())
}

/// Adds the lines of `slot` to `text`.
fn push_slot<C: Contexts>(
    alloc: Global,
    text: &mut Vec<u8>,
    slot: &Slot<'_, C>,
) -> Result<(), AllocError>
    requires canonical { IsCanonical slot.now.arch.now (C.config slot.now.contexts.now) }
    requires slot { slot.now.number < (C.config slot.now.contexts.now).ii }
    ensures { OnOk result (text.new.items ≡ text.old.items ++ spec.slot_lines slot.now.arch.now (C.config slot.now.contexts.now) slot.now.number) }
{
    push_selects(alloc, text, slot)?;
    push_units(alloc, text, slot)?;
    Ok(())
}

/// Adds the configuration `contexts` of `arch` to `text`.
pub(crate) fn push_configuration<C: Contexts>(
    alloc: Global,
    text: &mut Vec<u8>,
    arch: &Arch,
    contexts: &C,
) -> Result<(), AllocError>
    requires { IsCanonical arch.now (C.config contexts.now) }
    ensures { OnOk result (text.new.items ≡ text.old.items ++ spec.configuration_lines arch.now (C.config contexts.now)) }
{
    for number in 0..contexts.ii() {
        let slot = Slot {
            arch,
            contexts,
            number,
        };
        push_slot(alloc, text, &slot)?;
    }
    Ok(())
}

/// Returns word `at` of `words`, 0 past the last.
fn word_at(words: &[u32], at: usize) -> u32
    ensures { result ≡ slice_index words.now at }
{
    match words.get(at) {
        Some(word) => *word,
        None => 0,
    }
}

/// Adds to `text` word `at` of `memory`, if it isn't 0.
fn push_memory_word(
    alloc: Global,
    text: &mut Vec<u8>,
    memory: &[u32],
    at: usize,
) -> Result<(), AllocError>
    ensures { OnOk result (text.new.items ≡ text.old.items ++ spec.word_of_memory memory.now at) }
{
    let word = word_at(memory, at);
    if word == 0 {
        return Ok(());
    }
    push_memory_line(alloc, text, at, word)
}

/// Adds the words of `memory` to `text`.
fn push_memory(alloc: Global, text: &mut Vec<u8>, memory: &[u32]) -> Result<(), AllocError>
    ensures { OnOk result (text.new.items ≡ text.old.items ++ lists_below (spec.word_of_memory memory.now) (length memory.now)) }
{
    for at in 0..memory.len() {
        push_memory_word(alloc, text, memory, at)?;
    }
    Ok(())
}

/// Adds to `text` the words of input stream `port` of `image` that `turns` iterations can take.
fn push_input(
    alloc: Global,
    text: &mut Vec<u8>,
    turns: u32,
    image: &Image,
    port: usize,
) -> Result<(), AllocError>
    ensures { OnOk result (text.new.items ≡ text.old.items ++ spec.input_lines turns image.now.streams port) }
{
    let words = stream(image, port);
    for at in 0..taken(turns, image, port) {
        push_input_line(alloc, text, port, at, word_at(words, at))?;
    }
    Ok(())
}

/// Adds to `text` the words of all input streams of `image` that `turns` iterations can take.
fn push_inputs(
    alloc: Global,
    text: &mut Vec<u8>,
    turns: u32,
    image: &Image,
) -> Result<(), AllocError>
    ensures { OnOk result (text.new.items ≡ text.old.items ++ lists_below (spec.input_lines turns image.now.streams) port_count) }
{
    for port in 0..PORTS {
        push_input(alloc, text, turns, image, port)?;
    }
    Ok(())
}

/// Adds to `text` the words of `image`, those of streams as far as `turns` iterations can take them.
pub(crate) fn push_image(
    alloc: Global,
    text: &mut Vec<u8>,
    turns: u32,
    image: &Image,
) -> Result<(), AllocError>
    ensures { OnOk result (text.new.items ≡ text.old.items ++ spec.image_lines turns image.now) }
{
    push_memory(alloc, text, image.memory())?;
    push_inputs(alloc, text, turns, image)?;
    Ok(())
}

/// Adds word `at` of the memory `after` to `text`, if it differs from that of the memory `before`.
fn push_changed_word(
    alloc: Global,
    text: &mut Vec<u8>,
    before: &[u32],
    after: &[u32],
    at: usize,
) -> Result<(), AllocError>
    ensures { OnOk result (text.new.items ≡ text.old.items ++ spec.changed_word before.now after.now at) }
{
    let word = word_at(after, at);
    if word == word_at(before, at) {
        return Ok(());
    }
    push_left_memory_line(alloc, text, at, word)
}

/// Adds to `text` the words of the memory `after` that differ from those of the memory `before`.
fn push_changed_words(
    alloc: Global,
    text: &mut Vec<u8>,
    before: &[u32],
    after: &[u32],
) -> Result<(), AllocError>
    ensures { OnOk result (text.new.items ≡ text.old.items ++ lists_below (spec.changed_word before.now after.now) (length after.now)) }
{
    for at in 0..after.len() {
        push_changed_word(alloc, text, before, after, at)?;
    }
    Ok(())
}

/// Adds the words of output stream `port` of `image` to `text`.
fn push_output_words(
    alloc: Global,
    text: &mut Vec<u8>,
    image: &Image,
    port: usize,
) -> Result<(), AllocError>
    ensures { OnOk result (text.new.items ≡ text.old.items ++ lists_below (spec.word_of_output image.now.streams port) (sent image.now.streams port)) }
{
    let words = stream(image, port);
    for at in 0..sent(image, port) {
        push_left_output_line(alloc, text, port, at, word_at(words, at))?;
    }
    Ok(())
}

/// Adds the length and the words of output stream `port` of `image` to `text`.
fn push_output(
    alloc: Global,
    text: &mut Vec<u8>,
    image: &Image,
    port: usize,
) -> Result<(), AllocError>
    ensures { OnOk result (text.new.items ≡ text.old.items ++ spec.output_lines image.now.streams port) }
{
    push_length_line(alloc, text, port, sent(image, port))?;
    push_output_words(alloc, text, image, port)?;
    Ok(())
}

/// Adds all output streams of `image` to `text`.
fn push_outputs(alloc: Global, text: &mut Vec<u8>, image: &Image) -> Result<(), AllocError>
    ensures { OnOk result (text.new.items ≡ text.old.items ++ lists_below (spec.output_lines image.now.streams) port_count) }
{
    for port in 0..PORTS {
        push_output(alloc, text, image, port)?;
    }
    Ok(())
}

/// Adds the number `outside` of the accesses outside the memory to `text`.
fn push_outside(alloc: Global, text: &mut Vec<u8>, outside: u64) -> Result<(), AllocError>
    ensures { OnOk result (text.new.items ≡ text.old.items ++ spec.outside_line outside) }
{
    let line = format!(in alloc; "    left_outside = 64'd{outside};\n")?;
    text.extend_from_slice(line.as_bytes())
}

/// Adds to `text` the result `end` that is expected of a run from `image`.
pub(crate) fn push_left(
    alloc: Global,
    text: &mut Vec<u8>,
    image: &Image,
    end: &RunEnd,
) -> Result<(), AllocError>
    ensures { OnOk result (text.new.items ≡ text.old.items ++ spec.left_lines image.now (record { image = end.now.image; outside = end.now.outside })) }
{
    push_changed_words(alloc, text, image.memory(), end.image.memory())?;
    push_outputs(alloc, text, &end.image)?;
    push_outside(alloc, text, end.outside)?;
    Ok(())
}
