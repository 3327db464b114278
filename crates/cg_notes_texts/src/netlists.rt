//! Faults of netlists.

use crate::cells::{form_of, number_in, pin_bits};
use crate::statements::first_word;
use crate::token::{Quoted, Token, begins_comment, missing_semicolon};
use cg_gates::GateFault;
use cg_help::nearest_name;
use cg_netlist_reader::VerilogFault;
use cg_spans::{
    Finding, MOST_PARSED, Place, behind_blanks, is_word_byte, last_byte, last_word, words_of,
};
use std::alloc::{AllocError, Global};

/// The maximum number of bytes of a word that are shown.
const MOST_SHOWN: usize = 60;

/// The maximum number of drivers of a net that are counted.
const MOST_DRIVERS: usize = 8;

/// The maximum number of pins of a cell whose nets are looked at.
const MOST_PINS: usize = 64;

/// The words with which statements begin that aren't cells.
const KEYWORDS: [&str; 5] = ["module", "input", "output", "wire", "endmodule"];

/// Returns the finding of `fault` in `bytes`, a text that isn't a valid netlist.
pub fn find_in_netlist(
    alloc: Global,
    bytes: &[u8],
    fault: &VerilogFault,
) -> Result<Option<Finding>, AllocError> {
    match fault {
        VerilogFault::Memory => Ok(None),
        VerilogFault::Text(at) => {
            let text = unexpected(alloc, bytes, *at)?;
            Ok(Some(Finding::at(bytes, *at, text)))
        }
        VerilogFault::UnknownCell(cell) => find_cell(alloc, bytes, CellFault::Form, *cell),
        VerilogFault::UnknownNet(net) => {
            let sentence = unknown_net(alloc, bytes, net.as_str())?;
            find_net(alloc, bytes, net.as_str(), sentence.as_str())
        }
    }
}

/// Returns the finding of `fault` in `bytes`, a netlist that has no meaning over an architecture.
pub fn find_in_gates(
    alloc: Global,
    bytes: &[u8],
    fault: &GateFault,
) -> Result<Option<Finding>, AllocError> {
    match fault {
        GateFault::Memory => Ok(None),
        GateFault::DriverCount(net) => find_drivers(alloc, bytes, net.as_str()),
        GateFault::PinNet(cell) => find_cell(alloc, bytes, CellFault::Pin, *cell),
        GateFault::MuxLoop(nets) => match nets.as_slice().first() {
            Some(net) => find_net(
                alloc,
                bytes,
                net.as_str(),
                "muxes form a loop without a register, and one of them drives this net",
            ),
            None => Ok(None),
        },
        GateFault::RepeatedInstance(cell) => find_cell(alloc, bytes, CellFault::Repeated, *cell),
        GateFault::UnknownInstance(cell) => find_cell(alloc, bytes, CellFault::Name, *cell),
        GateFault::MissingUnit(unit) => find_unit(alloc, bytes, unit.as_str()),
    }
}

/// Returns the message that the text ceases to be a netlist at byte `at` of `bytes`, with a hint on what may be wrong
/// there.
fn unexpected(alloc: Global, bytes: &[u8], at: usize) -> Result<String, AllocError> {
    let rest = bytes.get(at..).unwrap_or(&[]);
    let Some(token) = Token::at_start(rest) else {
        return String::from_str(alloc, "the text ends here: a netlist ends with endmodule");
    };
    let before = bytes.get(..at).unwrap_or(&[]);
    if let Some(text) = missing_semicolon(alloc, before, rest, token)? {
        return Ok(text);
    }
    let hint = if begins_comment(rest) {
        "; there are no comments: remove it"
    } else {
        token_hint(before, token)
    };
    let quoted = Quoted(token);
    format!(in alloc; "unexpected {quoted}{hint}")
}

/// Returns a hint on `token` after `before` in a netlist; empty if there is none.
fn token_hint(before: &[u8], token: Token<'_>) -> &'static str {
    match (token, last_byte(before)) {
        (_, None) => "; a netlist begins with module, as written by verilog ARCH OUT",
        (Token::Word(_), _) if last_word(before) == b"module".as_slice() =>
            "; the module is called cgra_array",
        (Token::Byte(b'='), _) => "; there are no assignments: a cell drives a net by its pin q",
        (Token::Word(_), Some(b'(' | b',')) if first_word(before) != "module" =>
            "; a pin is written with its name, for example .clk(clk)",
        _ => "",
    }
}

/// What is wrong with a cell.
#[derive(Clone, Copy, Drop)]
enum CellFault {
    /// Its module has no form, or its pins aren't those of its form.
    Form,
    /// A pin is on a wrong net.
    Pin,
    /// An earlier cell has its name.
    Repeated,
    /// Nothing in the architecture has its name.
    Name,
}

/// Returns why the net `name` of `bytes` is unknown, or is declared where it may not be. For a long text, names all
/// possible causes.
fn unknown_net(alloc: Global, bytes: &[u8], name: &str) -> Result<String, AllocError> {
    if bytes.len() > MOST_PARSED {
        return String::from_str(
            alloc,
            "this net is not declared by a wire, or is declared twice",
        );
    }
    if name == "clk" || name == "rst" {
        return String::from_str(
            alloc,
            "clk and rst are inputs, so no wire may have these names",
        );
    }
    let mut wires: Vec<&str> = Vec::new(alloc);
    for statement in bytes.split(|byte| *byte == b';') {
        if let Some(wire) = wire_of(statement) {
            wires.push(wire)?;
        }
    }
    if wires.contains(&name) {
        return String::from_str(alloc, "two wires declare this net");
    }
    if let Some(near) = nearest_name(alloc, name, wires.as_slice())? {
        if may_stand_for(alloc, bytes, near, name)? {
            return format!(in alloc; "no wire declares this net, did you mean {near}?");
        }
    }
    undeclared(alloc, bytes, name)
}

/// Checks whether the net `near` of `bytes` may be meant by `name`: whether `name` occurs there only once, and the two
/// aren't both driven.
fn may_stand_for(alloc: Global, bytes: &[u8], near: &str, name: &str) -> Result<bool, AllocError> {
    let mut uses = 0usize;
    let words = words_of(alloc, bytes, bytes.len())?;
    for word in words.as_slice() {
        if *word == name {
            uses = uses.saturating_add(1);
        }
    }
    Ok(uses < 2 && !(is_driven(bytes, name) && is_driven(bytes, near)))
}

/// Returns the message that no wire of `bytes` declares the net `name`, with its declaration if a cell's pin gives its
/// width.
fn undeclared(alloc: Global, bytes: &[u8], name: &str) -> Result<String, AllocError> {
    for statement in bytes.split(|byte| *byte == b';') {
        if is_cell(behind_blanks(statement)) {
            if let Some(top) = top_bit(alloc, statement, name)? {
                return format!(in alloc;
                    "no wire declares this net; declare it: wire [{top}:0] {name};"
                );
            }
        }
    }
    String::from_str(alloc, "no wire declares this net")
}

/// Returns the number of the highest bit of the net `name`, by the pin that is on it in `statement`, a cell; None if no
/// pin is.
fn top_bit(alloc: Global, statement: &[u8], name: &str) -> Result<Option<u32>, AllocError> {
    let words = words_of(alloc, statement, MOST_PINS)?;
    let module = words.first().copied().unwrap_or("");
    for pin in words.get(2..).unwrap_or(&[]).chunks(2) {
        if let [pin, net] = pin {
            if *net == name {
                return Ok(pin_bits(module, pin).checked_sub(1));
            }
        }
    }
    Ok(None)
}

/// Returns the name of the net that `statement` declares.
fn wire_of(statement: &[u8]) -> Option<&str> {
    if word_of(behind_blanks(statement)) == "wire" {
        std::str::from_utf8(last_word(statement)).ok()
    } else {
        None
    }
}

/// Returns the number of bits of the net `name` of `bytes`; None if no wire declares it.
fn bits_of(alloc: Global, bytes: &[u8], name: &str) -> Result<Option<u32>, AllocError> {
    for statement in bytes.split(|byte| *byte == b';') {
        if wire_of(statement) == Some(name) {
            let words = words_of(alloc, statement, 3)?;
            let greatest = words.get(1).and_then(|word| word.parse::<u32>().ok());
            return Ok(greatest.map(|bit| bit.saturating_add(1)));
        }
    }
    Ok(None)
}

/// Returns the finding that none or several of the cells of `bytes` drive the net `name`: in the second case at the second
/// of them.
fn find_drivers(alloc: Global, bytes: &[u8], name: &str) -> Result<Option<Finding>, AllocError> {
    let places = driver_places(alloc, bytes, name)?;
    let [first, second, ..] = places.as_slice() else {
        return find_net(alloc, bytes, name, "no cell drives this net by its pin q");
    };
    let Place { line, .. } = *first;
    let text = match places.len() {
        2 => format!(in alloc;
            "{name}: the cell in line {line} drives this net too, by its pin q"
        )?,
        count if count < MOST_DRIVERS => format!(in alloc;
            "{name}: {count} cells drive this net by their pins q, the first in line {line}"
        )?,
        count => format!(in alloc;
            "{name}: {count} or more cells drive this net by their pins q, the first in line {line}"
        )?,
    };
    let place = Some(*second);
    Ok(Some(Finding { place, text }))
}

/// Checks whether a cell of `bytes` drives the net `name`.
fn is_driven(bytes: &[u8], name: &str) -> bool {
    bytes.split(|byte| *byte == b';').any(|statement| is_cell(behind_blanks(statement))
        && drives(statement, name))
}

/// Returns the places of the first cells of `bytes` that drive the net `name`, up to a limit.
fn driver_places(alloc: Global, bytes: &[u8], name: &str) -> Result<Vec<Place>, AllocError> {
    let mut places = Vec::new(alloc);
    let mut at = 0usize;
    for statement in bytes.split(|byte| *byte == b';') {
        let words = behind_blanks(statement);
        let begins = at.saturating_add(statement.len().saturating_sub(words.len()));
        if is_cell(words) && drives(statement, name) && places.len() < MOST_DRIVERS {
            places.push(Place::at(bytes, begins))?;
        }
        at = at.saturating_add(statement.len()).saturating_add(1);
    }
    Ok(places)
}

/// Checks whether the cell in `statement` drives the net `name`: whether the net is on its last pin, its output.
fn drives(statement: &[u8], name: &str) -> bool {
    last_word(statement) == name.as_bytes()
}

/// Returns the finding of `fault` at cell number `cell` of `bytes`.
fn find_cell(
    alloc: Global,
    bytes: &[u8],
    fault: CellFault,
    cell: usize,
) -> Result<Option<Finding>, AllocError> {
    let Some(at) = cell_at(bytes, cell) else {
        return Ok(None);
    };
    let rest = bytes.get(at..).unwrap_or(&[]);
    let statement = rest.split(|byte| *byte == b';').next().unwrap_or(&[]);
    let module = word_of(rest);
    let name = word_of(behind_blanks(rest.get(module.len()..).unwrap_or(&[])));
    let why = match fault {
        CellFault::Form => wrong_form(alloc, module, statement)?,
        CellFault::Pin => wrong_pin(alloc, bytes, module, statement)?,
        CellFault::Repeated => String::from_str(alloc, "an earlier cell has this name")?,
        CellFault::Name => wrong_name(alloc, module)?,
    };
    let why = why.as_str();
    let text = format!(in alloc; "cell {cell}, {module} {name}: {why}")?;
    Ok(Some(Finding::at(bytes, at, text)))
}

/// Returns what is wrong with the name or the pins of `statement`, a cell of `module`.
fn wrong_form(alloc: Global, module: &str, statement: &[u8]) -> Result<String, AllocError> {
    if let Some(text) = other_count(alloc, module, statement)? {
        return Ok(text);
    }
    match form_of(module) {
        Some(form) => String::from_str(alloc, form.pins),
        None => format!(in alloc;
            "there is no module {module}; the modules are cg_ctx_W, cg_pre_W, cg_mux_K, cg_reg_K, cg_zero and cg_unit_P_L_H"
        ),
    }
}

/// Returns which module has the number of pins d of `statement`, a cell of `module`, if that is a mux or a register
/// with another number of them. Returns None otherwise.
fn other_count(
    alloc: Global,
    module: &str,
    statement: &[u8],
) -> Result<Option<String>, AllocError> {
    let (front, pins) = match module.rsplit_once('_') {
        Some(("cg_mux", _)) => ("cg_mux", "s"),
        Some(("cg_reg", _)) => ("cg_reg", "clk, rst, s"),
        _ => return Ok(None),
    };
    let number = number_in(module);
    let words = words_of(alloc, statement, MOST_PINS)?;
    let mut count = 0u32;
    for pin in words.get(2..).unwrap_or(&[]).chunks(2) {
        if let [pin, _] = pin {
            if pin.starts_with('d') {
                count = count.saturating_add(1);
            }
        }
    }
    if number == 0 || count == 0 || count == number || words.len() >= MOST_PINS {
        return Ok(None);
    }
    let text = format!(in alloc;
        "the pins of {module} are {pins}, d1 to d{number}, q in this order: with d1 to d{count} it is a {front}_{count}"
    )?;
    Ok(Some(text))
}

/// Returns the message on how a cell of `module` is named.
fn wrong_name(alloc: Global, module: &str) -> Result<String, AllocError> {
    let names = match form_of(module) {
        Some(form) => form.names,
        None => "",
    };
    format!(in alloc; "nothing in the architecture corresponds to this cell: {names}")
}

/// Returns what is wrong with the first pin that is on a wrong net in `statement`, a cell of `module` in `bytes`. For a
/// long text, names all possible causes.
fn wrong_pin(
    alloc: Global,
    bytes: &[u8],
    module: &str,
    statement: &[u8],
) -> Result<String, AllocError> {
    let most = if bytes.len() > MOST_PARSED {
        0
    } else {
        MOST_PINS
    };
    let words = words_of(alloc, statement, most)?;
    for pin in words.get(2..).unwrap_or(&[]).chunks(2) {
        if let [pin, net] = pin {
            if let Some(why) = wrong_net(alloc, bytes, module, pin, net)? {
                return Ok(why);
            }
        }
    }
    String::from_str(
        alloc,
        "a pin is connected to a net of another width, or clk or rst to another net",
    )
}

/// Returns what is wrong if `pin` of a cell of `module` is on `net` of `bytes`.
fn wrong_net(
    alloc: Global,
    bytes: &[u8],
    module: &str,
    pin: &str,
    net: &str,
) -> Result<Option<String>, AllocError> {
    if pin == "clk" || pin == "rst" {
        if net == pin {
            return Ok(None);
        }
        let text = format!(in alloc;
            "the pin {pin} is connected to the net {net}, but belongs to {pin}"
        )?;
        return Ok(Some(text));
    }
    let needed = pin_bits(module, pin);
    match bits_of(alloc, bytes, net)? {
        Some(bits) if bits == needed => Ok(None),
        Some(bits) => {
            let text = format!(in alloc;
                "the pin {pin} is connected to the net {net} of {bits} bits, but needs {needed}"
            )?;
            Ok(Some(text))
        }
        None => {
            let text = format!(in alloc;
                "the pin {pin} is connected to {net}, which is not a wire"
            )?;
            Ok(Some(text))
        }
    }
}

/// Returns the byte at which cell number `cell` of `bytes` begins: cells are the statements without a keyword.
fn cell_at(bytes: &[u8], cell: usize) -> Option<usize> {
    let mut at = 0usize;
    let mut left = cell;
    for statement in bytes.split(|byte| *byte == b';') {
        let words = behind_blanks(statement);
        let begins = at.saturating_add(statement.len().saturating_sub(words.len()));
        at = at.saturating_add(statement.len()).saturating_add(1);
        if is_cell(words) {
            if left == 0 {
                return Some(begins);
            }
            left = left.saturating_sub(1);
        }
    }
    None
}

/// Checks whether a statement that begins with `words` is a cell.
fn is_cell(words: &[u8]) -> bool {
    let first = word_of(words);
    !first.is_empty() && !KEYWORDS.contains(&first)
}

/// Returns the name that `bytes` begin with, or the beginning of a long one.
fn word_of(bytes: &[u8]) -> &str {
    let length = bytes
        .iter()
        .take(MOST_SHOWN)
        .take_while(|byte| is_word_byte(**byte))
        .count();
    match bytes.get(..length) {
        Some(word) => std::str::from_utf8(word).unwrap_or(""),
        None => "",
    }
}

/// Returns the finding with `sentence` on the net `name` of `bytes`, at the first occurrence of that name.
fn find_net(
    alloc: Global,
    bytes: &[u8],
    name: &str,
    sentence: &str,
) -> Result<Option<Finding>, AllocError> {
    let Some(at) = name_at(bytes, name.as_bytes()) else {
        return Ok(None);
    };
    let text = format!(in alloc; "{name}: {sentence}")?;
    Ok(Some(Finding::at(bytes, at, text)))
}

/// Returns the byte at which `name` begins in `bytes`, as a whole name, for the first time.
fn name_at(bytes: &[u8], name: &[u8]) -> Option<usize> {
    let mut at = 0usize;
    for word in bytes.split(|byte| !is_word_byte(*byte)) {
        if word == name {
            return Some(at);
        }
        at = at.saturating_add(word.len()).saturating_add(1);
    }
    None
}

/// Returns the finding that the unit `name` has no cell in `bytes`, at their end.
fn find_unit(alloc: Global, bytes: &[u8], name: &str) -> Result<Option<Finding>, AllocError> {
    let Some(at) = name_at(bytes, b"endmodule") else {
        return Ok(None);
    };
    let text = format!(in alloc; "unit {name} has no cell; its name is u_{name}")?;
    Ok(Some(Finding::at(bytes, at, text)))
}
