//! What is wrong with references to drivers.

use crate::tiles::Here;
use cg_lints::{Rule, Slips, shown};
use cg_toml::{items_at, items_in};
use std::alloc::AllocError;
use toml::Value;

/// The maximum number of ports of a unit.
const MOST_PORTS: usize = 3;

/// The message on ports that aren't lists.
const WRONG_PORTS: &str =
    "\"ports\" must be a list of lists of references, one for each port, such as [[\"x\", \"y\"], [\"x\"]]";

impl Here<'_> {
    /// Adds to `slips` what is wrong with the drivers of `value`, a wire or a register.
    pub(crate) fn note_from(self, slips: &mut Slips, value: &Value) -> Result<(), AllocError> {
        if value.get("from").is_none() {
            return self.note_missing(slips, "from");
        }
        match items_at(value, "from") {
            Some(references) => self.note_references(slips, "from", references),
            None => self.add_shape(
                slips,
                "from",
                "\"from\" must be a list of references, such as [\"x\", \"N.x\"]",
            ),
        }
    }

    /// Adds to `slips` what is wrong with the ports of `value`, a unit.
    pub(crate) fn note_ports(self, slips: &mut Slips, value: &Value) -> Result<(), AllocError> {
        if value.get("ports").is_none() {
            return self.note_missing(slips, "ports");
        }
        let Some(ports) = items_at(value, "ports") else {
            return self.add_shape(slips, "ports", WRONG_PORTS);
        };
        let count = ports.len();
        if count > MOST_PORTS {
            let text = format!(in slips.alloc;
                "a unit has at most three ports, but this one has {count}"
            )?;
            self.add(slips, Rule::BadUnit, self.place_of("ports"), text.as_str())?;
        }
        for port in ports {
            match items_in(port) {
                Some(references) => self.note_references(slips, "ports", references)?,
                None => return self.add_shape(slips, "ports", WRONG_PORTS),
            }
        }
        Ok(())
    }

    /// Adds to `slips` the faults of `references`, a list at `key`.
    fn note_references(
        self,
        slips: &mut Slips,
        key: &str,
        references: &[Value],
    ) -> Result<(), AllocError> {
        for reference in references {
            match reference.as_str() {
                None => self.add_shape(slips, key, "a reference must be a string")?,
                Some(text) => self.note_reference(slips, key, text)?,
            }
        }
        Ok(())
    }

    /// Adds a slip to `slips` if `text`, in a list at `key`, isn't a reference.
    fn note_reference(self, slips: &mut Slips, key: &str, text: &str) -> Result<(), AllocError> {
        if is_reference(text) {
            return Ok(());
        }
        let why = match text.split_once('.') {
            Some(_) =>
                "a neighbour is N, E, S or W, as in \"N.x\"; a resource of another cell has a flat name, such as \"/r0c0_x\"",
            None =>
                "a reference is a name, a neighbour's name such as \"N.x\", or a flat name such as \"/r0c0_x\"",
        };
        let text = shown(slips.alloc, text)?;
        let text = text.as_str();
        let text = format!(in slips.alloc; "\"{text}\" is not a reference: {why}")?;
        self.add_shape(slips, key, text.as_str())
    }
}

/// Checks whether `text` has one of the forms of references.
fn is_reference(text: &str) -> bool {
    let name = match text.split_once('.') {
        Some(("N" | "E" | "S" | "W", name)) => name,
        Some(_) => return false,
        None => text.strip_prefix('/').unwrap_or(text),
    };
    is_word(name)
}

/// Checks whether `name` is a letter or `_`, followed by letters, digits or `_`.
fn is_word(name: &str) -> bool {
    match name.as_bytes() {
        [] => false,
        [first, ..] => {
            !first.is_ascii_digit()
                && name
                    .bytes()
                    .all(|byte| byte.is_ascii_alphanumeric() || byte == b'_')
        }
    }
}
