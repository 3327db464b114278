//! Notes on negative answers.

use cg_effects::File;
use cg_json::{items_at, json_value, text_at};
use cg_spans::{Finding, MOST_PARSED, Step, json_value_at};
use serde_json::Value;
use std::alloc::{AllocError, Global};

/// Adds to `notes` what `report`, of a command that answered no for `kernel`, means: why an interval is impossible, which two
/// accesses are left unordered, or what to try if no mapping was found.
pub(crate) fn note_answer(
    alloc: Global,
    report: &[u8],
    kernel: Option<&File>,
    notes: &mut Vec<String>,
) -> Result<(), AllocError> {
    let Some(line) = telling_line(report) else {
        return Ok(());
    };
    match line.split_once(' ') {
        Some(("unordered", rest)) => note_unordered(alloc, rest, notes),
        Some(("impossible", rest)) => note_impossible(alloc, rest, kernel, notes),
        Some(("ii", rest)) if rest.contains(" cost ") || rest.contains(" faults ") => {
            notes.push(String::from_str(
                alloc,
                "no mapping was found; another seed, more moves or a greater interval may find one",
            )?)?;
            Ok(())
        }
        _ => Ok(()),
    }
}

/// Returns the line of `report` that gives the reason: the first line if the report is on intervals, the last line
/// otherwise.
fn telling_line(report: &[u8]) -> Option<&str> {
    let report = std::str::from_utf8(report).ok()?;
    let first = report.lines().next()?;
    if first.starts_with("ii ") {
        Some(first)
    } else {
        report.lines().last()
    }
}

/// Adds to `notes` what the certificate at the end of `rest` says: the interval that nodes or edges need.
fn note_impossible(
    alloc: Global,
    rest: &str,
    kernel: Option<&File>,
    notes: &mut Vec<String>,
) -> Result<(), AllocError> {
    let mut words = rest.split(' ').rev();
    let last = words.next().and_then(|word| word.parse::<u32>().ok());
    let what = words.next();
    let first = words.next().and_then(|word| word.parse::<u32>().ok());
    let (Some(first), Some(last)) = (first, last) else {
        return Ok(());
    };
    let note = match (what, last) {
        (Some("units"), 0) => unoffered_note(alloc, class_of(rest), kernel)?,
        (Some("units"), last) => overfull_note(alloc, first, last, first.div_ceil(last))?,
        (Some("distance"), 1..) => recurrence_note(alloc, first, last, first.div_ceil(last))?,
        _ => return Ok(()),
    };
    notes.push(note)?;
    Ok(())
}

/// Returns the note that no unit offers `op`, with the first node of `kernel` that needs it.
fn unoffered_note(alloc: Global, op: &str, kernel: Option<&File>) -> Result<String, AllocError> {
    if let Some(kernel) = kernel {
        if let Some(note) = user_note(alloc, kernel, op)? {
            return Ok(note);
        }
    }
    format!(in alloc; "no unit offers {op}: add it to the ops of a unit")
}

/// Returns the note that `units` units offer an operation of `nodes` nodes, so that the interval is at least `least`.
fn overfull_note(alloc: Global, nodes: u32, units: u32, least: u32) -> Result<String, AllocError> {
    format!(in alloc;
        "nodes with one of these operations: {nodes}, units that offer one: {units}; so the interval is at least {least}: contexts and --ii may not be below"
    )
}

/// Returns the note that a ring of edges takes `cycles` cycles and leads `turns` turns back, so that the interval is at
/// least `least`.
fn recurrence_note(
    alloc: Global,
    cycles: u32,
    turns: u32,
    least: u32,
) -> Result<String, AllocError> {
    format!(in alloc;
        "cycles around these edges: {cycles}, turns around them: {turns}; so the interval is at least {least}: contexts and --ii may not be below"
    )
}

/// Returns the note that no unit offers `op` on the first node with this operation in `kernel`; None if it isn't found.
fn user_note(alloc: Global, kernel: &File, op: &str) -> Result<Option<String>, AllocError> {
    let bytes = kernel.bytes.as_slice();
    let name = kernel.name.as_str();
    if bytes.len() > MOST_PARSED || name.contains('\n') {
        return Ok(None);
    }
    let Ok(value) = json_value(alloc, bytes) else {
        return Ok(None);
    };
    match user_in(alloc, bytes, &value, op)? {
        Some(finding) => Ok(Some(finding.note(alloc, name, "")?)),
        None => Ok(None),
    }
}

/// Returns the finding that no unit offers `op` on the first node with this operation in `kernel`, the value of `bytes`.
fn user_in(
    alloc: Global,
    bytes: &[u8],
    kernel: &Value,
    op: &str,
) -> Result<Option<Finding>, AllocError> {
    let nodes = items_at(kernel, "nodes").unwrap_or(&[]);
    let Some(number) = nodes
        .iter()
        .position(|node| text_at(node, "op") == Some(op))
    else {
        return Ok(None);
    };
    let user = match nodes.get(number) {
        Some(node) => text_at(node, "name").unwrap_or(""),
        None => "",
    };
    let text = format!(in alloc;
        "node {number} \"{user}\": no unit offers {op}: add it to the ops of a unit"
    )?;
    let path = [Step::Key("nodes"), Step::Item(number), Step::Key("op")];
    let at = json_value_at(bytes, &path).unwrap_or(0);
    Ok(Some(Finding::at(bytes, at, text)))
}

/// Returns the operations of the certificate in `rest`, `.. class OPERATIONS nodes ..`.
fn class_of(rest: &str) -> &str {
    match rest
        .split_once("class ")
        .map(|(_, class)| class.split_once(" nodes "))
    {
        Some(Some((class, _))) => class,
        _ => "the operation",
    }
}

/// Adds to `notes` that the accesses that `rest` gives, `NODE TURN NODE TURN`, are left unordered.
fn note_unordered(alloc: Global, rest: &str, notes: &mut Vec<String>) -> Result<(), AllocError> {
    let Some((first, others)) = rest.split_once(' ') else {
        return Ok(());
    };
    let Some((turn, others)) = others.split_once(' ') else {
        return Ok(());
    };
    let Some((second, last)) = others.split_once(' ') else {
        return Ok(());
    };
    let note = format!(in alloc;
        "{first} in turn {turn} and {second} in turn {last} reach the same word, but no edge orders them: the command depend adds the missing edges"
    )?;
    notes.push(note)?;
    Ok(())
}
