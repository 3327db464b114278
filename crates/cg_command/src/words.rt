//! Commands by their words.
ghost use Rattle.std.specs.Prelude.{◌≡◌, ◌≤◌, IfOk, IfSome, bytes_eq, map, option_map, string_bytes};
ghost use Rattle.std.specs.List.{list_any};
ghost use Rattle.cg_model.specs.Limits.{most_moves};
ghost use Rattle.cg_model.specs.Request.{IsInRange};
ghost use Rattle.cg_command.specs.declared.command.Command.TheVariants.{Map, Search};
ghost use Rattle.cg_command.specs.Command.{IsRanged, call_denoted, denoted};
ghost use Rattle.cg_command.specs.Words as spec;

use crate::arguments::{Arguments, arguments_of};
use crate::command::{ArrayCall, Command, MapperCall};
use crate::numbers::{USUAL_MOVES, USUAL_RESPONSES, seed_of, turns_of};
use crate::requests::{file_said, request_of};
use std::alloc::{AllocError, Global};

/// Returns the command that `words` ask for; None where they fit no command.
#[tactic(auto, unfolding(crate::specs::Words::plan_of))]
pub fn plan_words<'a>(
    alloc: Global,
    words: &'a [String],
) -> Result<Option<Command<&'a str, &'a str>>, AllocError>
    ensures plan { IfOk result (λ c. option_map denoted c ≡ spec.plan_of (map string_bytes words.entry.now)) }
    ensures ranged { IfOk result (λ c. IfSome c IsRanged) }
{
    let Some((name, rest)) = words.split_first() else {
        return Ok(None);
    };
    match arguments_of(alloc, rest)? {
        Some(said) => command_of(alloc, name.as_str(), &said),
        None => Ok(None),
    }
}

/// Returns the command `name` with the arguments `said`.
fn command_of<'a>(
    alloc: Global,
    name: &str,
    said: &Arguments<'a>,
) -> Result<Option<Command<&'a str, &'a str>>, AllocError>
    ensures plan { IfOk result (λ c. option_map denoted c ≡ spec.command_of name.now (spec.heard said.now)) }
    ensures ranged { IfOk result (λ c. IfSome c IsRanged) }
{
    match name {
        "simplify" => Ok(simplify_command(said)),
        _ if has_no_flags(said) => flagless_command(alloc, name, said),
        _ => Ok(None),
    }
}

/// Returns the command `simplify` with the arguments `said`.
fn simplify_command<'a>(said: &Arguments<'a>) -> Option<Command<&'a str, &'a str>>
    ensures plan { option_map denoted result ≡ spec.simplify_command (spec.heard said.now) }
    ensures ranged { IfSome result IsRanged }
{
    if !has_no_options(said) {
        return None;
    }
    let [kernel, out] = said.words.as_slice() else {
        return None;
    };
    Some(Command::Simplify {
        kernel: *kernel,
        out: *out,
        copies: is_among("copies", said.flags.as_slice()),
        share: is_among("share", said.flags.as_slice()),
    })
}

/// Returns the command `name`, which takes no flag, with the arguments `said`.
fn flagless_command<'a>(
    alloc: Global,
    name: &str,
    said: &Arguments<'a>,
) -> Result<Option<Command<&'a str, &'a str>>, AllocError>
    ensures plan { IfOk result (λ c. option_map denoted c ≡ spec.flagless_command name.now (spec.heard said.now)) }
    ensures ranged { IfOk result (λ c. IfSome c IsRanged) }
{
    match name {
        "run" => run_command(alloc, said),
        "map" => map_command(alloc, said),
        "search" => search_command(alloc, said),
        _ if has_no_options(said) => Ok(plain_command(name, said.words.as_slice())),
        _ => Ok(None),
    }
}

/// Returns the command `run` with the arguments `said`.
fn run_command<'a>(
    alloc: Global,
    said: &Arguments<'a>,
) -> Result<Option<Command<&'a str, &'a str>>, AllocError>
    ensures plan { IfOk result (λ c. option_map denoted c ≡ spec.run_command (spec.heard said.now)) }
    ensures ranged { IfOk result (λ c. IfSome c IsRanged) }
{
    if !takes_only(said, &["netlist"]) {
        return Ok(None);
    }
    let Some(netlist) = file_said(alloc, "netlist", said)? else {
        return Ok(None);
    };
    Ok(array_command(said.words.as_slice(), netlist))
}

/// Returns the command `run` with the plain words `words`, of the array or of the netlist in the file `netlist`.
fn array_command<'a>(
    words: &[&'a str],
    netlist: Option<&'a str>,
) -> Option<Command<&'a str, &'a str>>
    ensures plan { option_map denoted result
        ≡ spec.array_command (map (λ word. word.now) words.now) (option_map (λ name. name.now) netlist.entry) }
    ensures ranged { IfSome result IsRanged }
{
    match words {
        [arch, bits, turns, image, out] => {
            let turns = turns_of(turns)?;
            Some(Command::Run {
                call: ArrayCall {
                    arch: *arch,
                    bits: *bits,
                    turns,
                    image: *image,
                    out: *out,
                },
                netlist,
            })
        }
        _ => None,
    }
}

/// Returns the command `map` with the arguments `said`.
fn map_command<'a>(
    alloc: Global,
    said: &Arguments<'a>,
) -> Result<Option<Command<&'a str, &'a str>>, AllocError>
    ensures plan { IfOk result (λ c. option_map denoted c ≡ option_map Map (spec.mapper_call spec.usual_moves (spec.heard said.now))) }
    ensures ranged { IfOk result (λ c. IfSome c IsRanged) }
{
    match mapper_call(alloc, USUAL_MOVES, said)? {
        Some(call) => Ok(Some(Command::Map(call))),
        None => Ok(None),
    }
}

/// Returns the command `search` with the arguments `said`.
fn search_command<'a>(
    alloc: Global,
    said: &Arguments<'a>,
) -> Result<Option<Command<&'a str, &'a str>>, AllocError>
    ensures plan { IfOk result (λ c. option_map denoted c ≡ option_map Search (spec.mapper_call spec.usual_responses (spec.heard said.now))) }
    ensures ranged { IfOk result (λ c. IfSome c IsRanged) }
{
    match mapper_call(alloc, USUAL_RESPONSES, said)? {
        Some(call) => Ok(Some(Command::Search(call))),
        None => Ok(None),
    }
}

/// Returns the call of a mapper with the arguments `said`, and with `usual` moves where none are given.
fn mapper_call<'a>(
    alloc: Global,
    usual: u32,
    said: &Arguments<'a>,
) -> Result<Option<MapperCall<&'a str, &'a str>>, AllocError>
    requires { usual ≤ most_moves }
    ensures plan { IfOk result (λ c. option_map call_denoted c ≡ spec.mapper_call usual (spec.heard said.now)) }
    ensures ranged { IfOk result (λ c. IfSome c (λ call. IsInRange call.request)) }
{
    if !takes_only(said, &["ii", "seed", "moves", "mapping"]) {
        return Ok(None);
    }
    let Some(request) = request_of(alloc, usual, said.options.as_slice())? else {
        return Ok(None);
    };
    let Some(mapping) = file_said(alloc, "mapping", said)? else {
        return Ok(None);
    };
    match said.words.as_slice() {
        [arch, kernel, out] => Ok(Some(MapperCall {
            arch: *arch,
            kernel: *kernel,
            out: *out,
            mapping,
            request,
        })),
        _ => Ok(None),
    }
}

/// Returns the command `name`, which takes no option, with the plain words `words`.
fn plain_command<'a>(name: &str, words: &[&'a str]) -> Option<Command<&'a str, &'a str>>
    ensures plan { option_map denoted result ≡ spec.plain_command name.now (map (λ word. word.now) words.now) }
    ensures ranged { IfSome result IsRanged }
{
    match name {
        "turns" => turns_command(words),
        "flat" => {
            let [arch, out] = words else {
                return None;
            };
            Some(Command::Flat {
                arch: *arch,
                out: *out,
            })
        }
        "bound" => {
            let [arch, kernel] = words else {
                return None;
            };
            Some(Command::Bound {
                arch: *arch,
                kernel: *kernel,
            })
        }
        "why" => {
            let [arch, kernel] = words else {
                return None;
            };
            Some(Command::Why {
                arch: *arch,
                kernel: *kernel,
            })
        }
        "check" => {
            let [arch, kernel, mapping] = words else {
                return None;
            };
            Some(Command::Check {
                arch: *arch,
                kernel: *kernel,
                mapping: *mapping,
            })
        }
        "violations" => {
            let [arch, kernel, mapping] = words else {
                return None;
            };
            Some(Command::Violations {
                arch: *arch,
                kernel: *kernel,
                mapping: *mapping,
            })
        }
        "emit" => emit_command(words),
        "show" => show_command(words),
        _ => further_command(name, words),
    }
}

/// Returns the command `name`, for the commands that `plain_command` leaves to it.
fn further_command<'a>(name: &str, words: &[&'a str]) -> Option<Command<&'a str, &'a str>>
    ensures plan { option_map denoted result ≡ spec.further_command name.now (map (λ word. word.now) words.now) }
    ensures ranged { IfSome result IsRanged }
{
    match name {
        "trial" => trial_command(words),
        "verilog" => {
            let [arch, out] = words else {
                return None;
            };
            Some(Command::Verilog {
                arch: *arch,
                out: *out,
            })
        }
        "loop" => {
            let [source, out] = words else {
                return None;
            };
            Some(Command::Loop {
                source: *source,
                out: *out,
            })
        }
        "depend" => {
            let [kernel, out] = words else {
                return None;
            };
            Some(Command::Depend {
                kernel: *kernel,
                out: *out,
            })
        }
        "migrate" => {
            let [arch, bits, out] = words else {
                return None;
            };
            Some(Command::Migrate {
                arch: *arch,
                bits: *bits,
                out: *out,
            })
        }
        "bench" => bench_command(words),
        "image" => {
            let [text, out] = words else {
                return None;
            };
            Some(Command::Image {
                text: *text,
                out: *out,
            })
        }
        "words" => {
            let [image] = words else {
                return None;
            };
            Some(Command::Words { image: *image })
        }
        _ => None,
    }
}

/// Returns the command `turns` with the plain words `words`.
fn turns_command<'a>(words: &[&'a str]) -> Option<Command<&'a str, &'a str>>
    ensures plan { option_map denoted result ≡ spec.turns_command (map (λ word. word.now) words.now) }
    ensures ranged { IfSome result IsRanged }
{
    match words {
        [kernel, turns] => {
            let turns = turns_of(turns)?;
            Some(Command::Turns {
                kernel: *kernel,
                turns,
            })
        }
        [kernel, turns, image, out] => {
            let turns = turns_of(turns)?;
            Some(Command::TurnsOnImage {
                kernel: *kernel,
                turns,
                image: *image,
                out: *out,
            })
        }
        _ => None,
    }
}

/// Returns the command `emit` with the plain words `words`.
fn emit_command<'a>(words: &[&'a str]) -> Option<Command<&'a str, &'a str>>
    ensures plan { option_map denoted result ≡ spec.emit_command (map (λ word. word.now) words.now) }
    ensures ranged { IfSome result IsRanged }
{
    match words {
        [arch, kernel, mapping, out] => Some(Command::Emit {
            arch: *arch,
            kernel: *kernel,
            mapping: *mapping,
            out: *out,
        }),
        _ => None,
    }
}

/// Returns the command `show` with the plain words `words`.
fn show_command<'a>(words: &[&'a str]) -> Option<Command<&'a str, &'a str>>
    ensures plan { option_map denoted result ≡ spec.show_command (map (λ word. word.now) words.now) }
    ensures ranged { IfSome result IsRanged }
{
    match words {
        [arch, kernel, mapping] => Some(Command::Show {
            arch: *arch,
            kernel: *kernel,
            mapping: *mapping,
            out: None,
        }),
        [arch, kernel, mapping, out] => Some(Command::Show {
            arch: *arch,
            kernel: *kernel,
            mapping: *mapping,
            out: Some(*out),
        }),
        _ => None,
    }
}

/// Returns the command `trial` with the plain words `words`.
fn trial_command<'a>(words: &[&'a str]) -> Option<Command<&'a str, &'a str>>
    ensures plan { option_map denoted result ≡ spec.trial_command (map (λ word. word.now) words.now) }
    ensures ranged { IfSome result IsRanged }
{
    match words {
        [seed] => {
            let seed = seed_of(seed)?;
            Some(Command::Trial { seed })
        }
        _ => None,
    }
}

/// Returns the command `bench` with the plain words `words`.
fn bench_command<'a>(words: &[&'a str]) -> Option<Command<&'a str, &'a str>>
    ensures plan { option_map denoted result ≡ spec.bench_command (map (λ word. word.now) words.now) }
    ensures ranged { IfSome result IsRanged }
{
    match words {
        [arch, bits, turns, image, out] => {
            let turns = turns_of(turns)?;
            Some(Command::Bench(ArrayCall {
                arch: *arch,
                bits: *bits,
                turns,
                image: *image,
                out: *out,
            }))
        }
        _ => None,
    }
}

/// Checks whether no option is given in `said`.
fn has_no_options(said: &Arguments) -> bool
    ensures { result ≡ spec.is_empty (spec.heard said.now).options }
{
    matches!(said.options.as_slice(), [])
}

/// Checks whether no flag is given in `said`.
fn has_no_flags(said: &Arguments) -> bool
    ensures { result ≡ spec.is_empty (spec.heard said.now).flags }
{
    matches!(said.flags.as_slice(), [])
}

/// Checks whether each option given in `said` is one of `names`.
fn takes_only(said: &Arguments, names: &[&str]) -> bool
    ensures { result ≡ spec.takes (map (λ name. name.now) names.now) (spec.heard said.now).options }
{
    for option in said.options.as_slice() {
        if !is_among(option.name, names) {
            return false;
        }
    }
    true
}

/// Checks whether `name` is one of `names`.
fn is_among(name: &str, names: &[&str]) -> bool
    ensures { result ≡ list_any (bytes_eq name.now) (map (λ other. other.now) names.now) }
{
    for other in names {
        if name == *other {
            return true;
        }
    }
    false
}
