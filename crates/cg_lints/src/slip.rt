//! A slip, and its place.

use cg_spans::{Finding, Findings, Step, json_key_at, json_value_at};
use std::alloc::{AllocError, Global};

/// The maximum number of slips that are kept per file.
const MOST_SLIPS: usize = 256;

/// The maximum number of slips per file for whose names the nearest ones are sought.
const MOST_SOUGHT: usize = 8;

/// The maximum number of places of one fault that are noted, and of places of further faults.
const MOST_NOTED: usize = 8;

/// The maximum number of slips, those of the fault for which a file is refused and further ones, beyond which no further
/// one is noted.
const MOST_PLACED: usize = 24;

/// The maximum number of keys of an object that are searched for the place of one key.
const MOST_KEYS: usize = 64;

/// The rule of a format that a slip breaks, as the faults of the files' readers name it.
#[derive(Clone, Copy, PartialEq, Eq, Drop)]
pub enum Rule {
    WrongShape,
    UnknownKey,
    BadName,
    RepeatedName,
    UnknownOp,
    WrongOperandCount,
    UnknownNode,
    NoValue,
    BackEdgeWithoutDistance,
    BadDistance,
    InitCount,
    TwoConstants,
    BadPort,
    RepeatedOutputPort,
    UnknownName,
    TooLarge,
    Incomplete,
    BadUnit,
    /// A rule that no slip breaks.
    Other,
}

/// Where in an item of a list a slip lies.
#[derive(Drop)]
pub enum Spot {
    /// At the list itself.
    List,
    /// At the item itself.
    Item,
    /// At the value of this key.
    Key(&'static str),
    /// At this key itself, which isn't one of the format's.
    OtherKey(String),
    /// At an element, counted from 0, of the list at this key.
    Element(&'static str, usize),
    /// At the value of the second key, in an element, counted from 0, of the list at the first key.
    ElementKey(&'static str, usize, &'static str),
    /// At the second key, which isn't one of the format's, in an element, counted from 0, of the list at the first
    /// key.
    ElementOtherKey(&'static str, usize, String),
}

/// The place of a slip.
#[derive(Drop)]
pub enum At {
    /// At this byte of the file.
    Byte(usize),
    /// In an item of a list of a JSON file.
    Item {
        /// The key of the list.
        list: &'static str,
        /// The number of the item in the list, from 0.
        item: usize,
        /// Where in the item.
        spot: Spot,
    },
}

impl At {
    /// Returns the byte of `bytes`, the file, at this place. If the place isn't found, returns the place of the nearest
    /// value around it.
    fn byte(&self, bytes: &[u8]) -> usize {
        match self {
            At::Byte(byte) => *byte,
            At::Item { list, item, spot } => {
                let path = [Step::Key(list), Step::Item(*item)];
                spot.byte(bytes, path)
                    .or(json_value_at(bytes, &path))
                    .unwrap_or(0)
            }
        }
    }
}

impl Spot {
    /// Returns the byte of `bytes` at this spot of the item to which `path` leads.
    fn byte(&self, bytes: &[u8], path: [Step<'_>; 2]) -> Option<usize> {
        let [list, item] = path;
        match self {
            Spot::List => json_value_at(bytes, &[list]),
            Spot::Item => None,
            Spot::Key(key) => json_value_at(bytes, &[list, item, Step::Key(key)]),
            Spot::OtherKey(key) => key_named(bytes, &path, key.as_str()),
            Spot::Element(key, number) => json_value_at(
                bytes,
                &[list, item, Step::Key(key), Step::Item(*number)],
            ),
            Spot::ElementKey(key, number, inner) => json_value_at(
                bytes,
                &[
                    list,
                    item,
                    Step::Key(key),
                    Step::Item(*number),
                    Step::Key(inner),
                ],
            ),
            Spot::ElementOtherKey(key, number, inner) => key_named(
                bytes,
                &[list, item, Step::Key(key), Step::Item(*number)],
                inner.as_str(),
            ),
        }
    }
}

/// Returns the byte of `bytes` at which the key `name` begins in the object that `path` leads to.
fn key_named(bytes: &[u8], path: &[Step<'_>], name: &str) -> Option<usize> {
    for number in 0..MOST_KEYS {
        let at = json_key_at(bytes, path, number)?;
        if is_key(bytes, at, name) {
            return Some(at);
        }
    }
    None
}

/// Checks whether the text between the quotes that begin at `at` is `name`.
fn is_key(bytes: &[u8], at: usize, name: &str) -> bool {
    let Some(rest) = bytes.get(at..) else {
        return false;
    };
    let Some(inside) = rest.strip_prefix(b"\"") else {
        return false;
    };
    match inside.strip_prefix(name.as_bytes()) {
        Some(end) => end.first() == Some(&b'"'),
        None => false,
    }
}

/// What is wrong at a place of a file.
#[derive(Drop)]
struct Slip {
    rule: Rule,
    at: At,
    /// What is wrong, in a sentence.
    text: String,
}

impl Slip {
    /// Returns the finding on this slip in `bytes`, the file.
    fn finding(&self, alloc: Global, bytes: &[u8]) -> Result<Finding, AllocError> {
        let text = String::from_str(alloc, self.text.as_str())?;
        Ok(Finding::at(bytes, self.at.byte(bytes), text))
    }
}

/// Slips as they are found, up to a limit.
#[derive(Drop)]
pub struct Slips {
    /// The allocator of their sentences.
    pub alloc: Global,
    found: Vec<Slip>,
}

impl Slips {
    /// Returns no slips.
    pub fn new(alloc: Global) -> Slips {
        Slips {
            alloc,
            found: Vec::new(alloc),
        }
    }

    /// Adds the slip `text` at `at`, which breaks `rule`, unless there are too many.
    pub fn add(&mut self, rule: Rule, at: At, text: String) -> Result<(), AllocError> {
        if self.found.len() < MOST_SLIPS {
            self.found.push(Slip { rule, at, text })?;
        }
        Ok(())
    }

    /// Checks whether there are few slips so far, so that the nearest name may be sought for an unknown one.
    pub fn are_few(&self) -> bool {
        self.found.len() < MOST_SOUGHT
    }

    /// Returns the findings on the first slips in `bytes`, a file that is refused because it breaks `rule`: on those
    /// that break it, and on further ones.
    pub fn findings(&self, bytes: &[u8], rule: Rule) -> Result<Findings, AllocError> {
        let own = self.found.iter().filter(|slip| slip.rule == rule).count();
        Ok(Findings {
            own: self.first(bytes, rule, true, MOST_NOTED)?,
            further: self.first(
                bytes,
                rule,
                false,
                MOST_PLACED.saturating_sub(own).min(MOST_NOTED),
            )?,
        })
    }

    /// Returns the findings on the first slips in `bytes`, at most `most`, that break `rule` or, if `is_own` is false,
    /// other rules.
    fn first(
        &self,
        bytes: &[u8],
        rule: Rule,
        is_own: bool,
        most: usize,
    ) -> Result<Vec<Finding>, AllocError> {
        let mut findings = Vec::new(self.alloc);
        for slip in &self.found {
            if (slip.rule == rule) == is_own && findings.len() < most {
                findings.push(slip.finding(self.alloc, bytes)?)?;
            }
        }
        Ok(findings)
    }
}
