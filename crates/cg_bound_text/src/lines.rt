//! The lines of the least intervals of the kinds.
ghost use Rattle.std.specs.Prelude.{◌≡◌, ◌+◌, ◌++◌, Contains, OnOk, IfOk, codes, string_bytes};
ghost use Rattle.cg_bound_all.specs.declared.bounds.Bound as declared;
ghost use Rattle.cg_bound_all.specs.Why.{HasShortLists, below_of as below_least};
ghost use Rattle.cg_bound_text.specs.Text.{impossible_words as impossible_words_of, impossible_text, least_word as word_of_least, kind_word as word_of_kind, below_text, lines_above, lines_to, HasShortBelow};

use crate::instances::AtInterval;
use crate::reasons::push_reason;
use cg_bound_all::{Bound, Instance, Kind, Reason};
use cg_recur::Arch;
use std::alloc::{AllocError, Global};

/// Returns the word for a kind, with a blank after it.
fn kind_word(kind: Kind) -> &'static str
    ensures { result.now ≡ word_of_kind kind }
{
    match kind {
        Kind::Recurrence => "recurrence ",
        Kind::Ways => "ways ",
        Kind::Class => "class ",
        Kind::Registers => "registers ",
    }
}

/// Returns the word for a least interval.
fn least_word(alloc: Global, least: Option<u32>) -> Result<String, AllocError>
    ensures { IfOk result (λ word. string_bytes word ≡ word_of_least least) }
{
    match least {
        Some(least) => format!(in alloc; "{least}"),
        None => String::from_str(alloc, "none"),
    }
}

/// Returns the interval below a least one, or the greatest of all.
pub(crate) fn below_of(arch: &Arch, least: Option<u32>) -> u32
    ensures { result ≡ below_least arch.now.contexts least }
{
    match least {
        Some(least) => least.saturating_sub(1),
        None => arch.contexts(),
    }
}

/// Returns the words that an interval is impossible, between two colons.
fn impossible_words(alloc: Global, ii: u32) -> Result<String, AllocError>
    ensures { IfOk result (λ words. string_bytes words ≡ impossible_words_of ii) }
{
    format!(in alloc; ": impossible at ii {ii}: ")
}

/// Adds to `text` why `reason` makes interval `ii` of `instance` impossible, after a colon.
fn push_impossible(
    alloc: Global,
    text: &mut Vec<u8>,
    instance: Instance,
    ii: u32,
    reason: &Reason,
) -> Result<(), AllocError>
    requires short { HasShortLists reason.now }
    ensures { OnOk result (text.new.items ≡ text.old.items ++ impossible_text instance.entry.arch.now instance.entry.kernel.now instance.entry.tables.now ii reason.now) }
{
    let words = impossible_words(alloc, ii)?;
    let numbers = instance.tables.at(ii);
    let at = AtInterval {
        arch: instance.arch,
        kernel: instance.kernel,
        hops: numbers.hops.as_slice(),
        ii,
    };
    text.extend_from_slice(words.as_bytes())?;
    push_reason(alloc, text, at, reason)?;
    Ok(())
}

/// Adds to `text` what excludes interval `ii` of `instance` after a colon, if there is a reason.
fn push_below(
    alloc: Global,
    text: &mut Vec<u8>,
    instance: Instance,
    ii: u32,
    reason: &Option<Reason>,
) -> Result<(), AllocError>
    requires short { HasShortBelow reason.now }
    ensures { OnOk result (text.new.items ≡ text.old.items ++ below_text instance.entry.arch.now instance.entry.kernel.now instance.entry.tables.now ii reason.now) }
{
    match reason {
        None => Ok(()),
        Some(reason) => push_impossible(alloc, text, instance, ii, reason),
    }
}

/// A least interval, by the word before it, and what excludes the interval below it.
#[derive(Clone, Copy)]
pub(crate) struct Row<'a> {
    pub name: &'a str,
    pub least: Option<u32>,
    pub below: &'a Option<Reason>,
}

/// Adds the line of `row` to `text`.
pub(crate) fn push_line(
    alloc: Global,
    text: &mut Vec<u8>,
    instance: Instance,
    row: Row,
) -> Result<(), AllocError>
    requires short { HasShortBelow row.below.now }
    ensures { OnOk result (text.new.items ≡ text.old.items ++ (row.entry.name.now ++ (word_of_least row.entry.least ++ (below_text instance.entry.arch.now instance.entry.kernel.now instance.entry.tables.now (below_least instance.entry.arch.now.contexts row.entry.least) row.entry.below.now ++ codes "\n")))) }
{
    let word = least_word(alloc, row.least)?;
    text.extend_from_slice(row.name.as_bytes())?;
    text.extend_from_slice(word.as_bytes())?;
    let ii = below_of(instance.arch, row.least);
    push_below(alloc, text, instance, ii, row.below)?;
    text.push(b'\n')?;
    Ok(())
}

/// Adds the lines of the bounds whose least interval is `below` plus 1.
fn push_lines_above(
    alloc: Global,
    text: &mut Vec<u8>,
    instance: Instance,
    bounds: &[Bound],
    below: u32,
) -> Result<(), AllocError>
    requires short { (bound : declared.Bound) → Contains bounds.now bound → HasShortBelow bound.below }
    ensures { OnOk result (text.new.items ≡ text.old.items ++ lines_above instance.entry.arch.now instance.entry.kernel.now instance.entry.tables.now bounds.now below) }
{
    for bound in bounds {
        if below_of(instance.arch, bound.least) == below {
            let row = Row {
                name: kind_word(bound.kind),
                least: bound.least,
                below: &bound.below,
            };
            push_line(alloc, text, instance, row)?;
        }
    }
    Ok(())
}

/// Adds the lines of the least intervals `bounds` of the kinds to `text`, the greatest first.
pub fn push_lines(
    alloc: Global,
    text: &mut Vec<u8>,
    instance: Instance,
    bounds: &[Bound],
) -> Result<(), AllocError>
    requires short { (bound : declared.Bound) → Contains bounds.now bound → HasShortBelow bound.below }
    ensures { OnOk result (text.new.items ≡ text.old.items ++ lines_to instance.entry.arch.now instance.entry.kernel.now instance.entry.tables.now bounds.now (instance.entry.arch.now.contexts + 1)) }
{
    let mut end = instance.arch.contexts() + 1;
    while end > 0 {
        end -= 1;
        push_lines_above(alloc, text, instance, bounds, end)?;
    }
    Ok(())
}
