//! Commands, each with its files and its numbers.
ghost use Rattle.std.specs.Prelude.{◌≡◌, IfOk, map, string_bytes};
ghost use Rattle.cg_command.specs.Command.{denoted, inputs_of};

use cg_model::Request;
use std::alloc::{AllocError, Global};

/// A call of a mapper: its input files as `F`, and the names of its output files as `N`.
#[derive(Clone, Copy, Debug, PartialEq, Eq)]
pub struct MapperCall<F, N> {
    /// The architecture.
    pub arch: F,
    /// The kernel.
    pub kernel: F,
    /// The file for the bitstream.
    pub out: N,
    /// The file for the mapping, if it is asked for.
    pub mapping: Option<N>,
    /// What is asked for: the interval, the seed and the number of moves.
    pub request: Request,
}

/// A call of a command that runs an array: its input files as `F`, and the name of its output file as `N`.
#[derive(Clone, Copy, Debug, PartialEq, Eq)]
pub struct ArrayCall<F, N> {
    /// The architecture.
    pub arch: F,
    /// The configuration.
    pub bits: F,
    /// The number of iterations.
    pub turns: u32,
    /// The image at the start.
    pub image: F,
    /// The file that is written.
    pub out: N,
}

/// A command, with its numbers and its files. Input files are of type `F`: names before they are read, and contents
/// afterwards. Output files are named, by `N`.
#[derive(Clone, Copy, Debug, PartialEq, Eq)]
pub enum Command<F, N> {
    /// `turns KERNEL TURNS`: a number of iterations of the kernel.
    Turns {
        kernel: F,
        turns: u32,
    },
    /// `turns KERNEL TURNS IN OUT`: a number of iterations of the kernel from an image, and the result image.
    TurnsOnImage {
        kernel: F,
        turns: u32,
        image: F,
        out: N,
    },
    /// `flat ARCH OUT`: the flat text of an architecture.
    Flat {
        arch: F,
        out: N,
    },
    /// `run ARCH BITS TURNS IN OUT [--netlist FILE]`: a number of iterations of the array, or of a netlist in its
    /// place, under a configuration, from an image, and the result image.
    Run {
        call: ArrayCall<F, N>,
        netlist: Option<F>,
    },
    /// `bound ARCH KERNEL`: the least interval that nothing forbids, and what forbids the one below it.
    Bound {
        arch: F,
        kernel: F,
    },
    /// `check ARCH KERNEL MAPPING`: whether the mapping is legal.
    Check {
        arch: F,
        kernel: F,
        mapping: F,
    },
    /// `emit ARCH KERNEL MAPPING OUT`: the bitstream of a legal mapping.
    Emit {
        arch: F,
        kernel: F,
        mapping: F,
        out: N,
    },
    /// `map ARCH KERNEL OUT [--ii N] [--seed N] [--moves N] [--mapping FILE]`: the bitstream of a mapping that is
    /// searched.
    Map(MapperCall<F, N>),
    /// `search ARCH KERNEL OUT [--ii N] [--seed N] [--moves N] [--mapping FILE]`: the bitstream of a mapping near the
    /// least interval.
    Search(MapperCall<F, N>),
    /// `show ARCH KERNEL MAPPING [OUT]`: the contents of each slot of a legal mapping, as a table, and as a picture
    /// where a file is named for it.
    Show {
        arch: F,
        kernel: F,
        mapping: F,
        out: Option<N>,
    },
    /// `trial SEED`: a random kernel, mapped over the hub of an architecture made for it, and run both by the array and
    /// by the iterations of the kernel.
    Trial {
        seed: u64,
    },
    /// `verilog ARCH OUT`: the netlist of an architecture, as structural Verilog.
    Verilog {
        arch: F,
        out: N,
    },
    /// `loop SOURCE OUT`: the kernel of a loop in source form.
    Loop {
        source: F,
        out: N,
    },
    /// `depend KERNEL OUT`: the kernel with the order edges that its accesses need.
    Depend {
        kernel: F,
        out: N,
    },
    /// `simplify KERNEL OUT [--copies] [--share]`: a kernel with fewer nodes that leaves the same.
    Simplify {
        kernel: F,
        out: N,
        copies: bool,
        share: bool,
    },
    /// `migrate ARCH BITS OUT`: a bitstream of the first format in the current format.
    Migrate {
        arch: F,
        bits: F,
        out: N,
    },
    /// `bench ARCH BITS TURNS IN OUT`: a test bench of the array under a configuration, for a simulator of Verilog.
    Bench(ArrayCall<F, N>),
    /// `image TEXT OUT`: the image that a text encodes.
    Image {
        text: F,
        out: N,
    },
    /// `words IMAGE`: an image as a text.
    Words {
        image: F,
    },
    /// `violations ARCH KERNEL MAPPING`: all places at which the mapping violates the rules of legal mappings.
    Violations {
        arch: F,
        kernel: F,
        mapping: F,
    },
    /// `why ARCH KERNEL`: the least interval that no reason excludes, and what excludes those below it.
    Why {
        arch: F,
        kernel: F,
    },
}

/// Returns the names of the input files of `command`, in the order of reading.
pub fn inputs(alloc: Global, command: &Command<&str, &str>) -> Result<Vec<String>, AllocError>
    ensures { IfOk result (λ list. map string_bytes list.items ≡ inputs_of (denoted command.now)) }
{
    match *command {
        Command::Trial { .. } => Ok(Vec::new(alloc)),
        Command::Turns { kernel: file, .. }
        | Command::Flat { arch: file, .. }
        | Command::Verilog { arch: file, .. }
        | Command::Loop { source: file, .. }
        | Command::Depend { kernel: file, .. }
        | Command::Simplify { kernel: file, .. }
        | Command::Image { text: file, .. }
        | Command::Words { image: file } => copies(alloc, &[file]),
        Command::Bound { arch, kernel } | Command::Why { arch, kernel } => {
            copies(alloc, &[arch, kernel])
        }
        Command::TurnsOnImage { kernel, image, .. } => copies(alloc, &[kernel, image]),
        Command::Map(call) | Command::Search(call) => copies(alloc, &[call.arch, call.kernel]),
        Command::Migrate { arch, bits, .. } => copies(alloc, &[arch, bits]),
        Command::Check {
            arch,
            kernel,
            mapping,
        }
        | Command::Violations {
            arch,
            kernel,
            mapping,
        }
        | Command::Emit {
            arch,
            kernel,
            mapping,
            ..
        }
        | Command::Show {
            arch,
            kernel,
            mapping,
            ..
        } => copies(alloc, &[arch, kernel, mapping]),
        Command::Bench(call)
        | Command::Run {
            call,
            netlist: None,
        } => copies(alloc, &[call.arch, call.bits, call.image]),
        Command::Run {
            call,
            netlist: Some(netlist),
        } => copies(alloc, &[call.arch, call.bits, call.image, netlist]),
    }
}

/// Returns copies of `words`.
pub fn copies(alloc: Global, words: &[&str]) -> Result<Vec<String>, AllocError>
    ensures { IfOk result (λ list. map string_bytes list.items ≡ map (λ word. word.now) words.now) }
{
    let mut list = Vec::new(alloc);
    for word in words {
        list.push(String::from_str(alloc, word)?)?;
    }
    Ok(list)
}
