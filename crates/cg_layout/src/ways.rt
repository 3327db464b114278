//! The ways of lines.
ghost use Rattle.std.specs.Prelude.{◌≡◌, ◌+◌, ◌-◌, ◌<◌, ◌≤◌, ◌^◌, IfOk, string_bytes};
ghost use Rattle.cg_layout.specs.Ways as spec;
ghost use Rattle.cg_layout.specs.Ends.{IsPlaced};
ghost use Rattle.cg_layout.specs.Places.{IsGrid};

use crate::seats::{beyond, corner, panel_height, panel_width, tile_height};
use crate::spot::{Frame, Spot};
use cg_model::Kind;
use std::alloc::{AllocError, Global};

/// A resource at which a way begins or ends.
#[derive(Clone, Copy)]
pub struct Chip {
    /// Its tile.
    pub tile: u32,
    /// Its kind.
    pub kind: Kind,
    /// The place where its chip begins.
    pub seat: Spot,
}

/// Where a way begins and ends, and where it turns.
#[derive(Clone, Copy)]
pub struct Bends {
    /// The place where it begins.
    pub start: Spot,
    /// The position where it turns to leave its tile, from the left.
    pub turn: u32,
    /// The position where it leaves its tile, from the top.
    pub exit: u32,
    /// The position where it goes up or down between tiles, from the left.
    pub gap: u32,
    /// The position where it enters the other tile, from the top.
    pub entry: u32,
    /// The position where it turns to its end, from the left.
    pub last: u32,
    /// The place where it ends.
    pub finish: Spot,
}

/// Returns the lane of the value of `node`.
pub(crate) fn lane_of(node: u32) -> u32
    ensures value { result ≡ spec.lane node }
    ensures few { result < 6 }
{
    node % 6
}

/// Returns where `lane` goes above `tile`.
fn above(frame: Frame, tile: u32, lane: u32) -> u32
    requires tile { tile < 1024 }
    requires lane { lane < 6 }
    ensures { result ≡ spec.above frame tile lane }
{
    (corner(frame, tile).y + 3 * lane).saturating_sub(24)
}

/// Returns where `lane` goes below `tile`.
fn below(frame: Frame, tile: u32, lane: u32) -> u32
    requires tile { tile < 1024 }
    requires lane { lane < 6 }
    ensures { result ≡ spec.below frame tile lane }
{
    corner(frame, tile).y + tile_height(frame) + 6 + 3 * lane
}

/// Returns where `lane` goes to the right of `tile`.
fn beside(frame: Frame, tile: u32, lane: u32) -> u32
    requires tile { tile < 1024 }
    requires lane { lane < 6 }
    ensures { result ≡ spec.beside frame tile lane }
{
    corner(frame, tile).x + 176 + 3 * lane
}

/// Returns where a way in `lane` from `chip` leaves its tile.
fn exit(frame: Frame, chip: Chip, lane: u32) -> u32
    requires chip { IsPlaced chip }
    requires lane { lane < 6 }
    ensures { result ≡ spec.exit_by frame chip.tile lane (chip.seat.y + 6) chip.kind }
{
    match chip.kind {
        Kind::Out => chip.seat.y + 6,
        Kind::Register => below(frame, chip.tile, lane),
        Kind::Wire | Kind::Port => above(frame, chip.tile, lane),
    }
}

/// Returns where a way in `lane` from `chip` turns to leave its tile.
fn turn(frame: Frame, chip: Chip, lane: u32) -> u32
    requires chip { IsPlaced chip }
    requires lane { lane < 6 }
    ensures { result ≡ spec.turn_by frame chip.tile lane (chip.seat.x + 33) chip.kind }
{
    match chip.kind {
        Kind::Out => beside(frame, chip.tile, lane),
        Kind::Register | Kind::Wire | Kind::Port => chip.seat.x + 33 + 2 + lane / 2,
    }
}

/// Returns where a way in `lane` enters the tile of `chip`.
fn entry(frame: Frame, chip: Chip, lane: u32) -> u32
    requires chip { IsPlaced chip }
    requires lane { lane < 6 }
    ensures { result ≡ spec.entry_by frame chip.tile lane chip.kind }
{
    match chip.kind {
        Kind::Register => below(frame, chip.tile, lane),
        Kind::Wire | Kind::Port | Kind::Out => above(frame, chip.tile, lane),
    }
}

/// Returns where a way to `chip` ends.
fn finish(chip: Chip) -> Spot
    requires { IsPlaced chip }
    ensures { result ≡ record { x = chip.seat.x - 1; y = chip.seat.y + 6 } }
{
    Spot {
        x: chip.seat.x.saturating_sub(1),
        y: chip.seat.y + 6,
    }
}

/// Returns the bends of the way in `lane` from the chip `from` to the chip `to`.
fn bends_between(frame: Frame, lane: u32, from: Chip, to: Chip) -> Bends
    requires lane { lane < 6 }
    requires from { IsPlaced from }
    requires to { IsPlaced to }
    ensures { result ≡ spec.bends_by frame lane from to }
{
    Bends {
        start: beyond(from.seat, 33, 6),
        turn: turn(frame, from, lane),
        exit: exit(frame, from, lane),
        gap: beside(frame, from.tile, lane),
        entry: entry(frame, to, lane),
        last: to.seat.x.saturating_sub(5 + lane / 2),
        finish: finish(to),
    }
}

/// Returns the beginning of a curve that leaves `spot` towards `x` and `y`.
fn departure(alloc: Global, spot: Spot, x: u32, y: u32) -> Result<String, AllocError>
    ensures { IfOk result (λ text. string_bytes text ≡ spec.departure spot x y) }
{
    let Spot { x: left, y: top } = spot;
    format!(in alloc; "M{left} {top}C{x} {y} ")
}

/// Returns the end of a curve that reaches `spot` from `x` and `y`.
fn arrival(alloc: Global, spot: Spot, x: u32, y: u32) -> Result<String, AllocError>
    ensures { IfOk result (λ text. string_bytes text ≡ spec.arrival spot x y) }
{
    let Spot { x: left, y: top } = spot;
    format!(in alloc; "{x} {y} {left} {top}")
}

/// Returns a curve from `start` to `finish` that begins and ends horizontally, `by` pixels long on both sides.
fn curve(alloc: Global, start: Spot, finish: Spot, by: u32) -> Result<String, AllocError>
    requires { start.x + by < 2 ^ 32 }
    ensures { IfOk result (λ text. string_bytes text ≡ spec.curve start finish by) }
{
    let first = departure(alloc, start, start.x + by, start.y)?;
    let last = arrival(alloc, finish, finish.x.saturating_sub(by), finish.y)?;
    format!(in alloc; "{first}{last}")
}

/// Returns a way from `start` to `finish`, which belong to one chip, above the chip.
fn circuit(alloc: Global, start: Spot, finish: Spot) -> Result<String, AllocError>
    requires { start.x + 12 < 2 ^ 32 }
    ensures { IfOk result (λ text. string_bytes text ≡ spec.circuit start finish) }
{
    let high = start.y.saturating_sub(14);
    let first = departure(alloc, start, start.x + 12, high)?;
    let last = arrival(alloc, finish, finish.x.saturating_sub(12), high)?;
    format!(in alloc; "{first}{last}")
}

/// Returns the first bends of `bends`.
fn leaving(alloc: Global, bends: Bends) -> Result<String, AllocError>
    ensures { IfOk result (λ text. string_bytes text ≡ spec.leaving bends) }
{
    let Spot { x, y } = bends.start;
    let turn = bends.turn;
    let exit = bends.exit;
    format!(in alloc; "M{x} {y}H{turn}V{exit}")
}

/// Returns the last bends of `bends`.
fn coming(alloc: Global, bends: Bends) -> Result<String, AllocError>
    ensures { IfOk result (λ text. string_bytes text ≡ spec.coming bends) }
{
    let Spot { x, y } = bends.finish;
    format!(in alloc; "V{y}H{x}")
}

/// Returns the part of a way that goes to the gap between the tiles, and up or down in it.
fn aisle(alloc: Global, bends: Bends) -> Result<String, AllocError>
    ensures { IfOk result (λ text. string_bytes text ≡ spec.aisle bends) }
{
    let gap = bends.gap;
    let entry = bends.entry;
    format!(in alloc; "H{gap}V{entry}")
}

/// Returns the part of a way that goes up or down between the tiles, where it has to.
fn passage(alloc: Global, bends: Bends) -> Result<String, AllocError>
    ensures { IfOk result (λ text. string_bytes text ≡ spec.passage bends) }
{
    if bends.exit == bends.entry {
        Ok(String::new(alloc))
    } else {
        aisle(alloc, bends)
    }
}

/// Returns the way between the tiles.
fn back(alloc: Global, bends: Bends) -> Result<String, AllocError>
    ensures { IfOk result (λ text. string_bytes text ≡ spec.back bends) }
{
    let first = leaving(alloc, bends)?;
    let middle = passage(alloc, bends)?;
    let last = bends.last;
    let rest = coming(alloc, bends)?;
    format!(in alloc; "{first}{middle}H{last}{rest}")
}

/// Returns the way over the right edge of a panel.
fn over_right(alloc: Global, frame: Frame, bends: Bends) -> Result<String, AllocError>
    ensures { IfOk result (λ text. string_bytes text ≡ spec.over_right frame bends) }
{
    let Spot { x, y } = bends.start;
    let width = panel_width(frame);
    let Spot { x: right, y: low } = bends.finish;
    format!(in alloc; "M{x} {y}H{width}M0 {low}H{right}")
}

/// Returns the way over the left edge of a panel.
fn over_left(alloc: Global, frame: Frame, bends: Bends) -> Result<String, AllocError>
    ensures { IfOk result (λ text. string_bytes text ≡ spec.over_left frame bends) }
{
    let first = leaving(alloc, bends)?;
    let middle = passage(alloc, bends)?;
    let width = panel_width(frame);
    let entry = bends.entry;
    let last = bends.last;
    let rest = coming(alloc, bends)?;
    format!(in alloc; "{first}{middle}H0M{width} {entry}H{last}{rest}")
}

/// Returns the way over the upper edge of a panel.
fn over_top(alloc: Global, frame: Frame, bends: Bends) -> Result<String, AllocError>
    requires { IsGrid frame }
    ensures { IfOk result (λ text. string_bytes text ≡ spec.over_top frame bends) }
{
    let first = leaving(alloc, bends)?;
    let gap = bends.gap;
    let last = bends.last;
    let height = panel_height(frame);
    let rest = coming(alloc, bends)?;
    format!(in alloc; "{first}H{gap}V10M{last} {height}{rest}")
}

/// Returns the way over the lower edge of a panel.
fn over_bottom(alloc: Global, frame: Frame, bends: Bends) -> Result<String, AllocError>
    requires { IsGrid frame }
    ensures { IfOk result (λ text. string_bytes text ≡ spec.over_bottom frame bends) }
{
    let first = leaving(alloc, bends)?;
    let gap = bends.gap;
    let height = panel_height(frame);
    let last = bends.last;
    let rest = coming(alloc, bends)?;
    format!(in alloc; "{first}H{gap}V{height}M{last} 10{rest}")
}

/// Checks whether the way between `first` and `second`, among `count` rows or columns, is shorter around the edge.
fn is_round(count: u16, first: u32, second: u32) -> bool
    requires first { first < 2 ^ 31 }
    requires second { second < 2 ^ 31 }
    ensures { result ≡ spec.is_round count first second }
{
    2 < count && u32::from(count) < 2 * (first.max(second) - first.min(second))
}

/// Returns the way around the edge from column `first` to column `second`.
fn round_columns(
    alloc: Global,
    frame: Frame,
    first: u32,
    second: u32,
    bends: Bends,
) -> Result<String, AllocError>
    ensures { IfOk result (λ text. string_bytes text ≡ spec.round_columns frame first second bends) }
{
    if second < first {
        over_right(alloc, frame, bends)
    } else {
        over_left(alloc, frame, bends)
    }
}

/// Returns the way around the edge from row `first` to row `second`.
fn round_rows(
    alloc: Global,
    frame: Frame,
    first: u32,
    second: u32,
    bends: Bends,
) -> Result<String, AllocError>
    requires { IsGrid frame }
    ensures { IfOk result (λ text. string_bytes text ≡ spec.round_rows frame first second bends) }
{
    if first < second {
        over_top(alloc, frame, bends)
    } else {
        over_bottom(alloc, frame, bends)
    }
}

/// Returns the way from the tile `first` to the tile `second` inside the panel.
fn inside(alloc: Global, first: u32, second: u32, bends: Bends) -> Result<String, AllocError>
    requires { bends.start.x < 2 ^ 15 }
    ensures { IfOk result (λ text. string_bytes text ≡ spec.inside first second bends) }
{
    if first % 32 < second % 32 {
        let by = if first / 32 == second / 32 { 24 } else { 40 };
        curve(alloc, bends.start, bends.finish, by)
    } else {
        back(alloc, bends)
    }
}

/// Returns the way from the tile `first` to the tile `second`.
fn across(
    alloc: Global,
    frame: Frame,
    first: u32,
    second: u32,
    bends: Bends,
) -> Result<String, AllocError>
    requires grid { IsGrid frame }
    requires start { bends.start.x < 2 ^ 15 }
    ensures { IfOk result (λ text. string_bytes text ≡ spec.across frame first second bends) }
{
    if is_round(frame.columns, first % 32, second % 32) {
        round_columns(alloc, frame, first % 32, second % 32, bends)
    } else if is_round(frame.rows, first / 32, second / 32) {
        round_rows(alloc, frame, first / 32, second / 32, bends)
    } else {
        inside(alloc, first, second, bends)
    }
}

/// Returns the way within a tile.
fn within(alloc: Global, bends: Bends) -> Result<String, AllocError>
    requires { bends.start.x < 2 ^ 15 }
    ensures { IfOk result (λ text. string_bytes text ≡ spec.within bends) }
{
    let by = if bends.start.x < bends.finish.x {
        6
    } else {
        14
    };
    curve(alloc, bends.start, bends.finish, by)
}

/// Returns the way in `lane` from the chip `from` to the chip `to`; `same` says whether these are one chip.
pub(crate) fn way(
    alloc: Global,
    frame: Frame,
    same: bool,
    lane: u32,
    from: Chip,
    to: Chip,
) -> Result<String, AllocError>
    requires grid { IsGrid frame }
    requires lane { lane < 6 }
    requires from { IsPlaced from }
    requires to { IsPlaced to }
    ensures { IfOk result (λ text. string_bytes text ≡ spec.way_by frame same from.tile to.tile (spec.bends_by frame lane from to)) }
{
    let bends = bends_between(frame, lane, from, to);
    if same {
        circuit(alloc, bends.start, bends.finish)
    } else if from.tile == to.tile {
        within(alloc, bends)
    } else {
        across(alloc, frame, from.tile, to.tile, bends)
    }
}
