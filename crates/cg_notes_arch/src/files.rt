//! What is wrong in a refused architecture file.

use crate::elements::{find_driver, find_element, find_letter, find_tile_part};
use crate::heads::{find_head, find_key, find_unknown_key};
use crate::others::with_other_drivers;
use crate::reach::{find_entry, find_limit, find_link, find_loop};
use crate::rows::{find_row, row_finding};
use crate::tiles::arch_slips;
use cg_grid::{TilesFault, TilesPlace};
use cg_lints::Rule;
use cg_parts::{ArchFault, HubPlace, NamePlace};
use cg_spans::{Finding, Findings, MOST_PARSED};
use cg_toml::toml_table;
use std::alloc::{AllocError, Global};
use toml::Value;

/// An architecture file.
#[derive(Clone, Copy, Drop)]
pub(crate) struct ArchFile<'a> {
    /// Its bytes.
    pub(crate) bytes: &'a [u8],
    /// The table that they represent.
    pub(crate) table: &'a Value,
}

/// Returns what is wrong in `bytes`, an architecture file that is refused for `fault`: each place at which its rule is
/// broken, and then further faults. Returns nothing for a text that isn't TOML.
pub fn arch_findings(
    alloc: Global,
    bytes: &[u8],
    fault: &TilesFault,
) -> Result<Findings, AllocError> {
    if bytes.len() > MOST_PARSED {
        return findings_in_bytes(alloc, bytes, fault);
    }
    match toml_table(alloc, bytes) {
        Ok(table) => findings_in_table(alloc, bytes, &table, fault),
        Err(_) => findings_in_bytes(alloc, bytes, fault),
    }
}

/// Returns what is wrong in `bytes`, an architecture file that is refused for `fault`, by its lines alone.
fn findings_in_bytes(
    alloc: Global,
    bytes: &[u8],
    fault: &TilesFault,
) -> Result<Findings, AllocError> {
    let mut findings = Findings::new(alloc);
    findings.add(find_in_bytes(alloc, bytes, fault)?)?;
    Ok(findings)
}

/// Returns what is wrong in `bytes`, an architecture file that is refused for `fault` and represents `table`.
fn findings_in_table<'a>(
    alloc: Global,
    bytes: &'a [u8],
    table: &'a Value,
    fault: &TilesFault,
) -> Result<Findings, AllocError> {
    let file = ArchFile { bytes, table };
    let mut findings = arch_slips(alloc, file)?.findings(bytes, rule_of(fault))?;
    if !findings.own.is_empty() {
        return Ok(findings);
    }
    let found = match find_in_table(alloc, file, fault)? {
        Some(finding) => Some(finding),
        None => find_in_bytes(alloc, bytes, fault)?,
    };
    findings.add(found)?;
    match fault {
        TilesFault::Parts(ArchFault::UnknownDriver(_)) => with_other_drivers(alloc, file, findings),
        _ => Ok(findings),
    }
}

/// Returns the rule that `fault` is on, if slips may break it.
fn rule_of(fault: &TilesFault) -> Rule {
    match fault {
        TilesFault::WrongShape(_) => Rule::WrongShape,
        TilesFault::UnknownKey(_) => Rule::UnknownKey,
        TilesFault::UnknownOp(_) => Rule::UnknownOp,
        TilesFault::Parts(ArchFault::BadName(_)) => Rule::BadName,
        TilesFault::Parts(ArchFault::BadUnit(_)) => Rule::BadUnit,
        _ => Rule::Other,
    }
}

/// Returns the finding of `fault` in `file` by its table.
fn find_in_table(
    alloc: Global,
    file: ArchFile<'_>,
    fault: &TilesFault,
) -> Result<Option<Finding>, AllocError> {
    match fault {
        TilesFault::WrongShape(TilesPlace::File) | TilesFault::UnknownKey(TilesPlace::File) => {
            find_head(alloc, file)
        }
        TilesFault::UnknownTile(cell) => find_letter(alloc, file, *cell),
        TilesFault::RaggedGrid(row) => find_row(alloc, file, *row),
        TilesFault::Parts(fault) => find_element_fault(alloc, file, fault),
        _ => Ok(None),
    }
}

/// Returns the finding of `fault` on the elements of `file`.
fn find_element_fault(
    alloc: Global,
    file: ArchFile<'_>,
    fault: &ArchFault,
) -> Result<Option<Finding>, AllocError> {
    match fault {
        ArchFault::BadName(NamePlace::Element(element))
        | ArchFault::RepeatedName(element)
        | ArchFault::BadUnit(element) => find_element(alloc, file, *element, fault),
        ArchFault::UnknownDriver(place) | ArchFault::PortDrives(place) => {
            find_driver(alloc, file, place, fault)
        }
        ArchFault::ZeroDelayLoop(names) => find_loop(alloc, file, names.as_slice()),
        ArchFault::HubIncomplete(HubPlace::Link { from, to }) => {
            find_link(alloc, file, from.as_str(), to.as_str())
        }
        _ => Ok(None),
    }
}

/// Returns the finding of `fault` in `bytes`, an architecture file, by its lines.
fn find_in_bytes(
    alloc: Global,
    bytes: &[u8],
    fault: &TilesFault,
) -> Result<Option<Finding>, AllocError> {
    match fault {
        TilesFault::WrongShape(TilesPlace::File) => { find_unknown_key(alloc, bytes, Some(SHAPE)) }
        TilesFault::UnknownKey(TilesPlace::File) => find_unknown_key(alloc, bytes, Some(KEY)),
        TilesFault::WrongShape(TilesPlace::Part(place)) => {
            find_tile_part(alloc, bytes, *place, SHAPE)
        }
        TilesFault::UnknownKey(TilesPlace::Part(place)) => {
            find_tile_part(alloc, bytes, *place, KEY)
        }
        TilesFault::UnknownOp(place) => {
            find_tile_part(alloc, bytes, *place, "a name in \"ops\" isn't an operation")
        }
        TilesFault::RaggedGrid(row) => {
            let text = "the rows of the grid must all have the same length, and not be empty";
            row_finding(alloc, bytes, *row, text)
        }
        TilesFault::Parts(fault) => find_in_lines(alloc, bytes, fault),
        _ => Ok(None),
    }
}

/// The general sentence on a value of another kind.
const SHAPE: &str =
    "a value is of another kind or out of its range, or a reference isn't in one of its forms";

/// The general sentence on a key.
const KEY: &str = "a key isn't one of the format's";

/// Returns the finding of `fault` on the elements of the architecture file `bytes`, by its lines.
fn find_in_lines(
    alloc: Global,
    bytes: &[u8],
    fault: &ArchFault,
) -> Result<Option<Finding>, AllocError> {
    match fault {
        ArchFault::TooLarge(place) => or_on_file(
            alloc,
            find_limit(alloc, bytes, *place)?,
            "the grid has more than 32 rows or columns, or there are more than 4096 resources, 65536 links, 1024 units or 1048576 words",
        ),
        ArchFault::BadName(NamePlace::Architecture) => find_key(
            alloc,
            bytes,
            "name",
            "a name is a letter or _, followed by letters, digits or _, with at most 40 characters",
        ),
        ArchFault::BadContexts(_) => find_key(
            alloc,
            bytes,
            "contexts",
            "the number of contexts is 1 to 64",
        ),
        ArchFault::ZeroDelayLoop(_) => or_on_file(
            alloc,
            None,
            "these wires form a loop without a register",
        ),
        ArchFault::HubIncomplete(place) => or_on_file(
            alloc,
            find_entry(alloc, bytes, place)?,
            "the hub lacks a register or a link",
        ),
        _ => Ok(None),
    }
}

/// Returns `finding`, or the one with `sentence` on the file as a whole if there is none.
fn or_on_file(
    alloc: Global,
    finding: Option<Finding>,
    sentence: &str,
) -> Result<Option<Finding>, AllocError> {
    match finding {
        Some(finding) => Ok(Some(finding)),
        None => Ok(Some(Finding::on_file(alloc, sentence)?)),
    }
}
