//! Unknown keys.
ghost use Rattle.std.specs.Prelude.{◌≡◌, map, string_bytes};
ghost use Rattle.std.specs.List.{list_any};
ghost use Rattle.std.specs.BTreeMap.{keys};
ghost use Rattle.cg_reading.specs.Keys as spec;

use std::collections::BTreeMap;

/// Returns whether the map `members` has a key that isn't one of `known`.
pub fn has_other<V>(members: &BTreeMap<String, V>, known: &[&str]) -> bool
    ensures { result ≡ spec.has_other (map (λ k. k.now) known.now) (map string_bytes (keys members.now)) }
{
    has_unlisted(members, known)
}

fn has_unlisted<V>(members: &BTreeMap<String, V>, known: &[&str]) -> bool
    ensures { result ≡ list_any (λ key. spec.is_unlisted (map (λ k. k.now) known.now) (string_bytes key)) (keys members.now) }
{
    members.keys().any(|key| is_unlisted(known, key.as_str()))
}

fn is_unlisted(known: &[&str], key: &str) -> bool
    ensures { result ≡ spec.is_unlisted (map (λ k. k.now) known.now) key.now }
{
    for other in known {
        if *other == key {
            return false;
        }
    }
    true
}
