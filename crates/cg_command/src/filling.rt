//! A command with its input files, which were read in order.
ghost use Rattle.std.specs.Prelude.{◌≡◌, ◌∷◌, [], length, map};
ghost use Rattle.cg_effects.specs.Outcome.{file_of, names_of};
ghost use Rattle.cg_command.specs.Command.{IsRanged, denoted, inputs_of};
ghost use Rattle.cg_command.specs.Files.{filled, names_only};

use crate::command::{ArrayCall, Command, MapperCall};
use cg_effects::File;

/// Returns `command` with its input files `files`, which were read in the order of their names.
pub fn fill<'a, 'b>(
    command: &Command<&'a str, &'a str>,
    files: &'b [File],
) -> Command<&'b File, &'a str>
    requires count { length files.now ≡ length (inputs_of (denoted command.now)) }
    requires names { names_of (map file_of files.now) ≡ inputs_of (denoted command.now) }
    ensures inputs { inputs_of (filled result) ≡ map file_of files.now }
    ensures named { names_only (filled result) ≡ denoted command.now }
    ensures ranged { IsRanged command.now → IsRanged result }
{
    match *command {
        Command::Turns { turns, .. } => Command::Turns {
            kernel: one(files),
            turns,
        },
        Command::TurnsOnImage { turns, out, .. } => {
            let (kernel, image) = two(files);
            Command::TurnsOnImage {
                kernel,
                turns,
                image,
                out,
            }
        }
        Command::Flat { out, .. } => Command::Flat {
            arch: one(files),
            out,
        },
        Command::Run {
            call,
            netlist: None,
        } => Command::Run {
            call: array_call_with(&call, files),
            netlist: None,
        },
        Command::Run {
            call,
            netlist: Some(_),
        } => {
            let (arch, bits, image, netlist) = four(files);
            Command::Run {
                call: ArrayCall {
                    arch,
                    bits,
                    turns: call.turns,
                    image,
                    out: call.out,
                },
                netlist: Some(netlist),
            }
        }
        Command::Bound { .. } => {
            let (arch, kernel) = two(files);
            Command::Bound { arch, kernel }
        }
        Command::Check { .. } => {
            let (arch, kernel, mapping) = three(files);
            Command::Check {
                arch,
                kernel,
                mapping,
            }
        }
        Command::Emit { out, .. } => {
            let (arch, kernel, mapping) = three(files);
            Command::Emit {
                arch,
                kernel,
                mapping,
                out,
            }
        }
        Command::Map(call) => Command::Map(call_with(&call, files)),
        Command::Search(call) => Command::Search(call_with(&call, files)),
        Command::Show { out, .. } => {
            let (arch, kernel, mapping) = three(files);
            Command::Show {
                arch,
                kernel,
                mapping,
                out,
            }
        }
        Command::Trial { seed } => Command::Trial { seed },
        Command::Verilog { out, .. } => Command::Verilog {
            arch: one(files),
            out,
        },
        Command::Loop { out, .. } => Command::Loop {
            source: one(files),
            out,
        },
        Command::Depend { out, .. } => Command::Depend {
            kernel: one(files),
            out,
        },
        Command::Simplify {
            out,
            copies,
            share,
            ..
        } => Command::Simplify {
            kernel: one(files),
            out,
            copies,
            share,
        },
        Command::Migrate { out, .. } => {
            let (arch, bits) = two(files);
            Command::Migrate { arch, bits, out }
        }
        Command::Bench(call) => Command::Bench(array_call_with(&call, files)),
        Command::Image { out, .. } => Command::Image {
            text: one(files),
            out,
        },
        Command::Words { .. } => Command::Words { image: one(files) },
        Command::Violations { .. } => {
            let (arch, kernel, mapping) = three(files);
            Command::Violations {
                arch,
                kernel,
                mapping,
            }
        }
        Command::Why { .. } => {
            let (arch, kernel) = two(files);
            Command::Why { arch, kernel }
        }
    }
}

/// Returns `call` with its input files `files`: an architecture and a kernel.
fn call_with<'a, 'b>(
    call: &MapperCall<&'a str, &'a str>,
    files: &'b [File],
) -> MapperCall<&'b File, &'a str>
    requires { length files.now ≡ 2 }
    ensures files { file_of result.arch.now ∷ file_of result.kernel.now ∷ [] ≡ map file_of files.now }
    ensures rest { result ≡ record { arch = result.arch; kernel = result.kernel; out = call.now.out; mapping = call.now.mapping; request = call.now.request } }
{
    let (arch, kernel) = two(files);
    MapperCall {
        arch,
        kernel,
        out: call.out,
        mapping: call.mapping,
        request: call.request,
    }
}

/// Returns `call` with its input files `files`: an architecture, a configuration and an image.
fn array_call_with<'a, 'b>(
    call: &ArrayCall<&'a str, &'a str>,
    files: &'b [File],
) -> ArrayCall<&'b File, &'a str>
    requires { length files.now ≡ 3 }
    ensures files { file_of result.arch.now ∷ file_of result.bits.now ∷ file_of result.image.now ∷ [] ≡ map file_of files.now }
    ensures rest { result ≡ record { arch = result.arch; bits = result.bits; turns = call.now.turns; image = result.image; out = call.now.out } }
{
    let (arch, bits, image) = three(files);
    ArrayCall {
        arch,
        bits,
        turns: call.turns,
        image,
        out: call.out,
    }
}

/// Returns the one file in `files`.
fn one<'a>(files: &'a [File]) -> &'a File
    requires { length files.now ≡ 1 }
    ensures { files.now ≡ result.now ∷ [] }
{
    &files[0]
}

/// Returns the two files in `files`.
fn two<'a>(files: &'a [File]) -> (&'a File, &'a File)
    requires { length files.now ≡ 2 }
    ensures { files.now ≡ result.0.now ∷ result.1.now ∷ [] }
{
    (&files[0], &files[1])
}

/// Returns the three files in `files`.
fn three<'a>(files: &'a [File]) -> (&'a File, &'a File, &'a File)
    requires { length files.now ≡ 3 }
    ensures { files.now ≡ result.0.now ∷ result.1.now ∷ result.2.now ∷ [] }
{
    (&files[0], &files[1], &files[2])
}

/// Returns the four files in `files`.
fn four<'a>(files: &'a [File]) -> (&'a File, &'a File, &'a File, &'a File)
    requires { length files.now ≡ 4 }
    ensures { files.now ≡ result.0.now ∷ result.1.now ∷ result.2.now ∷ result.3.now ∷ [] }
{
    (&files[0], &files[1], &files[2], &files[3])
}
