//! Further references to resources that don't exist.

use crate::drivers::{Written, grid_of, sided, unknown_driver};
use crate::elements::{Origin, Part};
use crate::files::ArchFile;
use crate::names::{cell_of, has_resource, parts_at, parts_of, tile_at};
use cg_grid::{Cell, Grid, neighbour};
use cg_spans::{Finding, Findings};
use cg_toml::{items_at, items_in};
use std::alloc::{AllocError, Global};
use toml::Value;

/// The maximum number of findings on references to resources that don't exist.
const MOST_FOUND: usize = 8;

/// Returns `findings`, of which there is one on a reference of `file` to a resource that doesn't exist, with those on
/// further ones: those of each tile as in the first cell that has it, up to a limit.
pub(crate) fn with_other_drivers(
    alloc: Global,
    file: ArchFile<'_>,
    findings: Findings,
) -> Result<Findings, AllocError> {
    let grid = match grid_of(file.table) {
        Some(grid) if !findings.own.is_empty() => grid,
        _ => return Ok(findings),
    };
    let Findings { own, further } = findings;
    let mut others = Others {
        alloc,
        file,
        grid,
        found: own,
    };
    others.add_tiles()?;
    Ok(Findings {
        own: others.found,
        further,
    })
}

/// The findings on the references of an architecture file.
#[derive(Drop)]
struct Others<'a> {
    alloc: Global,
    file: ArchFile<'a>,
    /// The grid of the architecture.
    grid: Grid,
    /// Those that are known.
    found: Vec<Finding>,
}

impl Others<'_> {
    /// Adds the findings of the tiles.
    fn add_tiles(&mut self) -> Result<(), AllocError> {
        let table = self.file.table;
        let mut seen: Vec<&str> = Vec::new(self.alloc);
        for row in 0..self.grid.rows {
            for column in 0..self.grid.columns {
                let cell = Cell { row, column };
                if let Some(tile) = tile_at(table, cell) {
                    if !seen.contains(&tile) {
                        seen.push(tile)?;
                        self.add_parts(cell, tile)?;
                    }
                }
            }
        }
        Ok(())
    }

    /// Adds the findings of the parts of `tile` in `cell`.
    fn add_parts(&mut self, cell: Cell, tile: &str) -> Result<(), AllocError> {
        let table = self.file.table;
        for (number, value) in parts_of(table, tile).unwrap_or(&[]).iter().enumerate() {
            let part = Part { tile, number };
            let origin = Origin { cell, part };
            if let Some(list) = items_at(value, "from") {
                self.add_list(origin, list)?;
            }
            for port in items_at(value, "ports").unwrap_or(&[]) {
                self.add_list(origin, items_in(port).unwrap_or(&[]))?;
            }
        }
        Ok(())
    }

    /// Adds the findings of the references in `list`, which is written in the part of `origin`.
    fn add_list(&mut self, origin: Origin<'_>, list: &[Value]) -> Result<(), AllocError> {
        for item in list {
            if self.found.len() >= MOST_FOUND {
                return Ok(());
            }
            if let Some(reference) = item.as_str() {
                if let Some(driver) = self.missing(origin.cell, reference)? {
                    let written = Written { reference, list };
                    self.add(origin.part, written, driver.as_str())?;
                }
            }
        }
        Ok(())
    }

    /// Adds the finding on the reference of `written` in `part`, if it isn't known yet. `driver` is the flat name of the
    /// resource.
    fn add(
        &mut self,
        part: Part<'_>,
        written: Written<'_>,
        driver: &str,
    ) -> Result<(), AllocError> {
        let ArchFile { bytes, table } = self.file;
        let what = unknown_driver(self.alloc, table, written, driver)?;
        let at = part.drivers_at(bytes);
        match part.finding(self.alloc, bytes, at, what.as_str())? {
            Some(finding) if !self.has(finding.text.as_str()) => {
                self.found.push(finding)?;
                Ok(())
            }
            _ => Ok(()),
        }
    }

    /// Checks whether a finding with `text` is known.
    fn has(&self, text: &str) -> bool {
        self.found.iter().any(|known| known.text.as_str() == text)
    }

    /// Returns the flat name of the resource to which `reference` in `cell` refers, if the cell of the resource has a
    /// tile without it. Returns None otherwise.
    fn missing(&self, cell: Cell, reference: &str) -> Result<Option<String>, AllocError> {
        let Some((target, name)) = target_of(self.grid, cell, reference) else {
            return Ok(None);
        };
        match parts_at(self.file.table, target) {
            Some(parts) if !parts.iter().any(|part| has_resource(part, name)) => {
                let Cell { row, column } = target;
                let driver = format!(in self.alloc; "r{row}c{column}_{name}")?;
                Ok(Some(driver))
            }
            _ => Ok(None),
        }
    }
}

/// Returns the cell of the resource to which `reference` in `cell` of `grid` refers, and its name there; None if it lies
/// off the grid.
fn target_of(grid: Grid, cell: Cell, reference: &str) -> Option<(Cell, &str)> {
    if let Some(flat) = reference.strip_prefix('/') {
        return cell_of(flat);
    }
    let (side, name) = sided(reference);
    Some((neighbour(grid, cell, side)?, name))
}
