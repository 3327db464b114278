//! Lines that set one word of a table.
ghost use Rattle.std.specs.Prelude.{◌≡◌, ◌++◌, OnOk};
ghost use Rattle.cg_testbench.specs.Lines as spec;

use std::alloc::{AllocError, Global};

/// A place in a table of a cell.
#[derive(Clone, Copy)]
pub(crate) struct Place<'p> {
    /// The name of the cell.
    pub cell: &'p str,
    /// The name of the table.
    pub table: &'p str,
    /// The index of the place.
    pub at: u32,
}

/// Adds to `text` the line that sets `place` to the small number `value`, if it isn't 0.
pub(crate) fn push_number_line(
    alloc: Global,
    text: &mut Vec<u8>,
    place: Place<'_>,
    value: u32,
) -> Result<(), AllocError>
    ensures { OnOk result (text.new.items ≡ text.old.items ++ spec.number_line place.entry.cell.now place.entry.table.now place.entry.at value) }
{
    if value == 0 {
        return Ok(());
    }
    let Place { cell, table, at } = place;
    let line = format!(in alloc; "    array.{cell}.{table}[{at}] = {value};\n")?;
    text.extend_from_slice(line.as_bytes())
}

/// Adds to `text` the line that sets `place` to the word `value`, if it isn't 0.
pub(crate) fn push_word_line(
    alloc: Global,
    text: &mut Vec<u8>,
    place: Place<'_>,
    value: u32,
) -> Result<(), AllocError>
    ensures { OnOk result (text.new.items ≡ text.old.items ++ spec.word_line place.entry.cell.now place.entry.table.now place.entry.at value) }
{
    if value == 0 {
        return Ok(());
    }
    let Place { cell, table, at } = place;
    let line = format!(in alloc; "    array.{cell}.{table}[{at}] = 32'd{value};\n")?;
    text.extend_from_slice(line.as_bytes())
}

/// Adds the line that sets word `at` of the memory to `value` to `text`.
pub(crate) fn push_memory_line(
    alloc: Global,
    text: &mut Vec<u8>,
    at: usize,
    value: u32,
) -> Result<(), AllocError>
    ensures { OnOk result (text.new.items ≡ text.old.items ++ spec.memory_line at value) }
{
    let line = format!(in alloc; "    memory[{at}] = 32'd{value};\n")?;
    text.extend_from_slice(line.as_bytes())
}

/// Adds to `text` the line that sets word `at` of the expected memory to `value`.
pub(crate) fn push_left_memory_line(
    alloc: Global,
    text: &mut Vec<u8>,
    at: usize,
    value: u32,
) -> Result<(), AllocError>
    ensures { OnOk result (text.new.items ≡ text.old.items ++ spec.left_memory_line at value) }
{
    let line = format!(in alloc; "    left_memory[{at}] = 32'd{value};\n")?;
    text.extend_from_slice(line.as_bytes())
}

/// Adds to `text` the line that sets word `at` of input stream `port` to `value`, if it isn't 0.
pub(crate) fn push_input_line(
    alloc: Global,
    text: &mut Vec<u8>,
    port: usize,
    at: usize,
    value: u32,
) -> Result<(), AllocError>
    ensures { OnOk result (text.new.items ≡ text.old.items ++ spec.input_line port at value) }
{
    if value == 0 {
        return Ok(());
    }
    let line = format!(in alloc; "    inputs[{port} * depth + {at}] = 32'd{value};\n")?;
    text.extend_from_slice(line.as_bytes())
}

/// Adds to `text` the line that sets word `at` of the expected output stream `port` to `value`, if it isn't 0.
pub(crate) fn push_left_output_line(
    alloc: Global,
    text: &mut Vec<u8>,
    port: usize,
    at: usize,
    value: u32,
) -> Result<(), AllocError>
    ensures { OnOk result (text.new.items ≡ text.old.items ++ spec.left_output_line port at value) }
{
    if value == 0 {
        return Ok(());
    }
    let line = format!(in alloc; "    left_outputs[{port} * room + {at}] = 32'd{value};\n")?;
    text.extend_from_slice(line.as_bytes())
}

/// Adds to `text` the line that sets the expected number of words in output stream `port` to `count`, if it isn't 0.
pub(crate) fn push_length_line(
    alloc: Global,
    text: &mut Vec<u8>,
    port: usize,
    count: usize,
) -> Result<(), AllocError>
    ensures { OnOk result (text.new.items ≡ text.old.items ++ spec.length_line port count) }
{
    if count == 0 {
        return Ok(());
    }
    let line = format!(in alloc; "    left_sent[{port}] = {count};\n")?;
    text.extend_from_slice(line.as_bytes())
}
