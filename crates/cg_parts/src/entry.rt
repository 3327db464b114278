//! Resources with named drivers.

use crate::parts::Names;
use cg_model::{Kind, Name};
use cg_reading::Named;

/// A resource that an element defines, with its drivers still by name.
#[derive(Drop)]
pub struct Entry {
    /// Its name. A port past a unit's third has none.
    pub name: Option<Name>,
    pub kind: Kind,
    /// Its drivers, each once.
    pub drivers: Names,
}

impl Named for Entry {
    ghost own_name = { λ r. r.name };

    fn name(&self) -> Option<&str> {
        match &self.name {
            Some(name) => Some(name.as_str()),
            None => None,
        }
    }
}
