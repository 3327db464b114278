//! The options of commands: files, and what is asked of a search.
ghost use Rattle.std.specs.Prelude.{◌≡◌, ◌≤◌, None, IfOk, IfSome, map, option_map};
ghost use Rattle.cg_model.specs.Limits.{most_moves};
ghost use Rattle.cg_command.specs.Words as spec;
ghost use Rattle.cg_model.specs.Request.{IsInRange};
ghost use Rattle.cg_command.specs.Words.{heard_option, said_once};

use crate::arguments::{Arguments, Given};
use crate::numbers::{USUAL_MOVES, USUAL_RESPONSES, USUAL_SEED, interval_of, moves_of, seed_of};
use cg_model::Request;
use std::alloc::{AllocError, Global};

/// Returns the file that the option `name` in `said` names, if it is given; None where it is given more than once.
pub(crate) fn file_said<'a>(
    alloc: Global,
    name: &str,
    said: &Arguments<'a>,
) -> Result<Option<Option<&'a str>>, AllocError>
    ensures { IfOk result (λ file. option_map (λ f. option_map (λ name. name.now) f) file ≡ spec.file_said name.now (spec.heard said.now)) }
{
    let files = values_said(alloc, said.options.as_slice(), name)?;
    Ok(one_file(files.as_slice()))
}

/// Returns the one of `files`, if there is one; None where there are more.
fn one_file<'a>(files: &[&'a str]) -> Option<Option<&'a str>>
    ensures { option_map (λ f. option_map (λ name. name.now) f) result ≡ said_once None spec.named_file (map (λ file. file.now) files.now) }
{
    match files {
        [] => Some(None),
        [file] => Some(Some(*file)),
        _ => None,
    }
}

/// Returns the request in the `options` of a search, with `usual` as the number of moves where none is given; None
/// where they can't be read.
pub(crate) fn request_of(
    alloc: Global,
    usual: u32,
    options: &[Given],
) -> Result<Option<Request>, AllocError>
    requires { usual ≤ most_moves }
    ensures value { IfOk result (λ s. s ≡ spec.request_of usual (map heard_option options.now)) }
    ensures range { IfOk result (λ s. IfSome s IsInRange) }
{
    let Some(ii) = interval_said(values_said(alloc, options, "ii")?.as_slice()) else {
        return Ok(None);
    };
    let Some(seed) = seed_said(values_said(alloc, options, "seed")?.as_slice()) else {
        return Ok(None);
    };
    let Some(moves) = moves_said(usual, values_said(alloc, options, "moves")?.as_slice()) else {
        return Ok(None);
    };
    Ok(Some(Request { ii, seed, moves }))
}

/// Returns the values of the option `name` among `options`, in order.
fn values_said<'a>(
    alloc: Global,
    options: &[Given<'a>],
    name: &str,
) -> Result<Vec<&'a str>, AllocError>
    ensures { IfOk result (λ v. map (λ value. value.now) v.items
        ≡ spec.values_said name.now (map heard_option options.now)) }
{
    let mut values = Vec::new(alloc);
    for option in options {
        if option.name == name {
            values.push(option.value)?;
        }
    }
    Ok(values)
}

/// Returns the interval that `values` ask for, if they ask for one; None where they can't be read.
fn interval_said(values: &[&str]) -> Option<Option<u32>>
    ensures value { result ≡ said_once None spec.asked_interval (map (λ value. value.now) values.now) }
    ensures some { IfSome result (λ ii. IfSome ii (λ n. 1 ≤ n)) }
{
    match values {
        [] => Some(None),
        [value] => match interval_of(value) {
            Some(ii) => Some(Some(ii)),
            None => None,
        },
        _ => None,
    }
}

/// Returns the seed that `values` give; None where they can't be read.
fn seed_said(values: &[&str]) -> Option<u64>
    ensures { result ≡ said_once spec.usual_seed spec.seed_of (map (λ value. value.now) values.now) }
{
    match values {
        [] => Some(USUAL_SEED),
        [value] => seed_of(value),
        _ => None,
    }
}

/// Returns the greatest number of moves at an interval that `values` give, or `usual` where there is none; None where
/// they can't be read.
fn moves_said(usual: u32, values: &[&str]) -> Option<u32>
    requires { usual ≤ most_moves }
    ensures value { result ≡ said_once usual spec.moves_of (map (λ value. value.now) values.now) }
    ensures few { IfSome result (λ moves. moves ≤ most_moves) }
{
    match values {
        [] => Some(usual),
        [value] => moves_of(value),
        _ => None,
    }
}
