//! Reads the description of a mapping from a JSON value.
ghost use Rattle.std.specs.Prelude.{◌≡◌, map};
ghost use Rattle.serde_json.specs.View.{view};
ghost use Rattle.cg_reading.specs.Items.{all_or_first};
ghost use Rattle.cg_reading.specs.Reads.{IsReadAt};
ghost use Rattle.cg_mapping.specs.Written as spec;

use crate::fault::MappingPlace;
use crate::written::{WrittenMapping, WrittenPlace, WrittenRoute};
use cg_json::{has_other_keys, items_at, text_at, word_in};
use cg_model::Name;
use cg_reading::{ItemReader, Misfit, WRONG_SHAPE, all_of, all_or_first};
use serde_json::Value;
use std::alloc::Global;

/// The misfit of a file that has a wrong shape outside of its places and routes.
const WRONG_FILE: Misfit<MappingPlace> = Misfit::WrongShape(MappingPlace::File);

/// Returns the description in the value, or the first place of a wrong shape.
#[tactic(auto, unfolding(crate::specs::Written::written_of))]
pub fn written_of(alloc: Global, value: &Value) -> Result<WrittenMapping, Misfit<MappingPlace>>
    ensures { IsReadAt (spec.written_of (view value.now)) result }
{
    format_in(value).ok_or(WRONG_FILE)?;
    let ii = word_at(value, "ii").ok_or(WRONG_FILE)?;
    let places = items_at(value, "places").ok_or(WRONG_FILE)?;
    let routes = items_at(value, "routes").ok_or(WRONG_FILE)?;
    let other_keys = has_other_keys(value, &["format", "ii", "places", "routes"]);
    joined(alloc, ii, other_keys, places, routes)
}

fn joined(
    alloc: Global,
    ii: u32,
    other_keys: bool,
    places: &[Value],
    routes: &[Value],
) -> Result<WrittenMapping, Misfit<MappingPlace>>
    ensures { IsReadAt (spec.joined ii other_keys
        (all_or_first spec.place_in 0 (map view places.now))
        (all_or_first spec.route_in 0 (map view routes.now))) result }
{
    let places = all_or_first::<PlaceReader>(alloc, places).map_err(|misfit| misfit.at(
        MappingPlace::Place,
    ))?;
    let routes = all_or_first::<RouteReader>(alloc, routes).map_err(|misfit| misfit.at(
        MappingPlace::Route,
    ))?;
    Ok(WrittenMapping {
        ii,
        places,
        routes,
        other_keys,
    })
}

fn format_in(value: &Value) -> Option<()>
    ensures { result ≡ spec.format_in (view value.now) }
{
    match text_at(value, "format") {
        Some("cgm1") => Some(()),
        _ => None,
    }
}

/// Returns the word at `key`.
fn word_at(value: &Value, key: &str) -> Option<u32>
    ensures { result ≡ spec.word_at key.now (view value.now) }
{
    match value.get(key) {
        Some(found) => word_in(found),
        None => None,
    }
}

/// Reads places.
struct PlaceReader;

impl ItemReader for PlaceReader {
    ghost use Rattle.serde_json.specs.Data as json;

    type Value = Value;

    type Item = WrittenPlace;

    ghost Data = { json.Data };

    ghost data_of = { view };

    ghost item_in = { spec.place_in };

    fn read(alloc: Global, value: &Value) -> Result<WrittenPlace, Misfit<()>> {
        let node = text_at(value, "node").ok_or(WRONG_SHAPE)?;
        let unit = text_at(value, "unit").ok_or(WRONG_SHAPE)?;
        let time = word_at(value, "time").ok_or(WRONG_SHAPE)?;
        let other_keys = has_other_keys(value, &["node", "unit", "time"]);
        Ok(WrittenPlace {
            node: Name::copy_of(alloc, node)?,
            unit: Name::copy_of(alloc, unit)?,
            time,
            other_keys,
        })
    }
}

/// Reads routes.
struct RouteReader;

impl ItemReader for RouteReader {
    ghost use Rattle.serde_json.specs.Data as json;

    type Value = Value;

    type Item = WrittenRoute;

    ghost Data = { json.Data };

    ghost data_of = { view };

    ghost item_in = { spec.route_in };

    fn read(alloc: Global, value: &Value) -> Result<WrittenRoute, Misfit<()>> {
        let to = text_at(value, "to").ok_or(WRONG_SHAPE)?;
        let arg = word_at(value, "arg").ok_or(WRONG_SHAPE)?;
        let path = items_at(value, "path").ok_or(WRONG_SHAPE)?;
        let path = all_of::<TextReader>(alloc, path)?;
        let other_keys = has_other_keys(value, &["to", "arg", "path"]);
        Ok(WrittenRoute {
            to: Name::copy_of(alloc, to)?,
            arg,
            path,
            other_keys,
        })
    }
}

/// Reads texts.
struct TextReader;

impl ItemReader for TextReader {
    ghost use Rattle.serde_json.specs.Data as json;
    ghost use Rattle.serde_json.specs.Find.{as_str};

    type Value = Value;

    type Item = Name;

    ghost Data = { json.Data };

    ghost data_of = { view };

    ghost item_in = { as_str };

    fn read(alloc: Global, value: &Value) -> Result<Name, Misfit<()>> {
        let text = value.as_str().ok_or(WRONG_SHAPE)?;
        Ok(Name::copy_of(alloc, text)?)
    }
}
