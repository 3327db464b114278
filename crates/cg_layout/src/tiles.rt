//! The tiles in names.
ghost use Rattle.std.specs.Prelude.{◌≡◌, ◌<◌, ◌*◌, ◌∷◌, [], ℕ, ◌≤◌, length, nat_eq, IfOk, is_some, unwrap_or, map, string_bytes};
ghost use Rattle.std.specs.List.{list_all, starts_with};
ghost use Rattle.cg_list_laws.specs.Below.{lists_below};
ghost use Rattle.cg_model.specs.First.{first_from};
ghost use Rattle.cg_layout.specs.Tiles as spec;

use cg_arch::Arch;
use std::alloc::{AllocError, Global};

/// The greatest number of tiles of a grid.
const MOST_TILES: u32 = 1024;

/// Returns the prefixes of the names of the resources of each tile.
fn prefixes(alloc: Global) -> Result<Vec<String>, AllocError>
    ensures { IfOk result (λ list. map string_bytes list.items ≡ spec.prefixes) }
{
    let mut list = Vec::new(alloc);
    for tile in 0..MOST_TILES {
        list.push(tile_prefix(alloc, tile)?)?;
    }
    Ok(list)
}

/// Returns the prefix of the names of the resources of `tile`.
fn tile_prefix(alloc: Global, tile: u32) -> Result<String, AllocError>
    ensures { IfOk result (λ text. string_bytes text ≡ spec.tile_prefix tile) }
{
    let row = tile / 32;
    let column = tile % 32;
    format!(in alloc; "r{row}c{column}_")
}

/// Checks whether `name` begins with `prefix`.
fn begins(name: &str, prefix: &str) -> bool
    ensures { result ≡ starts_with nat_eq name.now prefix.now }
{
    name.as_bytes().starts_with(prefix.as_bytes())
}

/// Returns the number of the first of `prefixes` with which `name` begins.
fn prefix_of(prefixes: &[String], name: &str) -> Option<u32>
    requires { length prefixes.now ≤ 1024 }
    ensures { result ≡ first_from (λ v prefix. starts_with nat_eq name.now (string_bytes prefix)) 0 prefixes.now }
{
    for (number, prefix) in prefixes.iter().enumerate() {
        if begins(name, prefix.as_str()) {
            return Some(number as u32);
        }
    }
    None
}

/// Returns the tile of `name`, where `prefixes` are those of all tiles.
fn tile_in(prefixes: &[String], name: &str) -> Option<u32>
    requires { map string_bytes prefixes.now ≡ spec.prefixes }
    ensures { result ≡ spec.tile_in name.now }
{
    prefix_of(prefixes, name)
}

/// Returns the tile of each resource of `arch`, by number.
pub(crate) fn tiles_in(alloc: Global, arch: &Arch) -> Result<Vec<Option<u32>>, AllocError>
    ensures { IfOk result (λ tiles. tiles.items ≡ spec.tiles_in arch.now.resources) }
{
    let prefixes = prefixes(alloc)?;
    let mut tiles = Vec::new(alloc);
    for resource in arch.resources() {
        tiles.push(tile_in(prefixes.as_slice(), resource.name.as_str()))?;
    }
    Ok(tiles)
}

/// Checks whether none of `tiles` is None.
pub(crate) fn are_all(tiles: &[Option<u32>]) -> bool
    ensures { result ≡ list_all is_some tiles.now }
{
    tiles.iter().all(|tile| tile.is_some())
}

/// Returns the numbers in `tiles`, with 0 for None.
pub(crate) fn numbers(alloc: Global, tiles: &[Option<u32>]) -> Result<Vec<u32>, AllocError>
    ensures { IfOk result (λ numbers. numbers.items ≡ map (λ tile. unwrap_or tile 0) tiles.now) }
{
    tiles.iter().map(|tile| tile.unwrap_or(0)).collect(alloc)
}
