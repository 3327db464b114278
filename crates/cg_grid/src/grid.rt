//! Cells of a grid and their neighbours.
ghost use Rattle.std.specs.Prelude.{◌≡◌, option_map};
ghost use Rattle.cg_grid.specs.Grid as spec;

use crate::written::Side;

/// The size of a grid, and whether its rows and columns wrap around its edges.
#[derive(Clone, Copy, Debug, PartialEq, Eq)]
pub struct Grid {
    pub rows: usize,
    pub columns: usize,
    pub torus: bool,
}

/// A cell of a grid, counted from 0.
#[derive(Clone, Copy, Debug, PartialEq, Eq)]
pub struct Cell {
    pub row: usize,
    pub column: usize,
}

/// Returns the neighbour of `cell` on `side`, None off the grid.
pub fn neighbour(grid: Grid, cell: Cell, side: Side) -> Option<Cell>
    ensures { result ≡ spec.neighbour grid cell side }
{
    match side {
        Side::North => in_row(cell, before(grid.torus, grid.rows, cell.row)),
        Side::East => in_column(cell, after(grid.torus, grid.columns, cell.column)),
        Side::South => in_row(cell, after(grid.torus, grid.rows, cell.row)),
        Side::West => in_column(cell, before(grid.torus, grid.columns, cell.column)),
        Side::Here | Side::Anywhere => Some(cell),
    }
}

fn in_row(cell: Cell, row: Option<usize>) -> Option<Cell>
    ensures { result ≡ option_map (spec.in_row cell) row }
{
    match row {
        Some(row) => Some(Cell {
            row,
            column: cell.column,
        }),
        None => None,
    }
}

fn in_column(cell: Cell, column: Option<usize>) -> Option<Cell>
    ensures { result ≡ option_map (spec.in_column cell) column }
{
    match column {
        Some(column) => Some(Cell {
            row: cell.row,
            column,
        }),
        None => None,
    }
}

/// Returns the number before `number`, among `count` numbers.
fn before(wraps: bool, count: usize, number: usize) -> Option<usize>
    ensures { result ≡ spec.before wraps count number }
{
    if number > 0 {
        Some(number - 1)
    } else if wraps {
        Some(count.saturating_sub(1))
    } else {
        None
    }
}

/// Returns the number after `number`, among `count` numbers.
fn after(wraps: bool, count: usize, number: usize) -> Option<usize>
    ensures { result ≡ spec.after wraps count number }
{
    match number.checked_add(1) {
        Some(next) if next < count => Some(next),
        _ => if wraps { Some(0) } else { None },
    }
}
