//! The input files of commands.

use cg_cause::Cause;
use cg_command::Command;
use cg_effects::File;

/// Returns the input file of `command` that is refused for `cause`.
pub(crate) fn refused_file<'a>(
    command: &Command<&'a File, &str>,
    cause: &Cause,
) -> Option<&'a File> {
    match cause {
        Cause::Arch(_) | Cause::IntervalAboveContexts { .. } => arch_of(command),
        Cause::Kernel(_) | Cause::Depend(_) => kernel_of(command),
        Cause::Mapping(_) => mapping_of(command),
        Cause::Bits(_) | Cause::FirstBits(_) => bits_of(command),
        Cause::Image(_) | Cause::Run(_) => image_of(command),
        Cause::ImageText(_) | Cause::Loop(_) => text_of(command),
        Cause::Netlist(_) | Cause::Gates(_) => netlist_of(command),
    }
}

/// Returns the architecture's file of `command`.
pub(crate) fn arch_of<'a>(command: &Command<&'a File, &str>) -> Option<&'a File> {
    match *command {
        Command::Flat { arch, .. }
        | Command::Bound { arch, .. }
        | Command::Check { arch, .. }
        | Command::Emit { arch, .. }
        | Command::Show { arch, .. }
        | Command::Verilog { arch, .. }
        | Command::Migrate { arch, .. }
        | Command::Violations { arch, .. }
        | Command::Why { arch, .. } => Some(arch),
        Command::Map(call) | Command::Search(call) => Some(call.arch),
        Command::Run { call, .. } | Command::Bench(call) => Some(call.arch),
        _ => None,
    }
}

/// Returns the kernel's file of `command`.
pub(crate) fn kernel_of<'a>(command: &Command<&'a File, &str>) -> Option<&'a File> {
    match *command {
        Command::Turns { kernel, .. }
        | Command::TurnsOnImage { kernel, .. }
        | Command::Bound { kernel, .. }
        | Command::Check { kernel, .. }
        | Command::Emit { kernel, .. }
        | Command::Show { kernel, .. }
        | Command::Depend { kernel, .. }
        | Command::Simplify { kernel, .. }
        | Command::Violations { kernel, .. }
        | Command::Why { kernel, .. } => Some(kernel),
        Command::Map(call) | Command::Search(call) => Some(call.kernel),
        _ => None,
    }
}

/// Returns the mapping's file of `command`.
fn mapping_of<'a>(command: &Command<&'a File, &str>) -> Option<&'a File> {
    match *command {
        Command::Check { mapping, .. }
        | Command::Emit { mapping, .. }
        | Command::Show { mapping, .. }
        | Command::Violations { mapping, .. } => Some(mapping),
        _ => None,
    }
}

/// Returns the file of bits of `command`.
fn bits_of<'a>(command: &Command<&'a File, &str>) -> Option<&'a File> {
    match *command {
        Command::Run { call, .. } | Command::Bench(call) => Some(call.bits),
        Command::Migrate { bits, .. } => Some(bits),
        _ => None,
    }
}

/// Returns the image's file of `command`.
fn image_of<'a>(command: &Command<&'a File, &str>) -> Option<&'a File> {
    match *command {
        Command::TurnsOnImage { image, .. } | Command::Words { image } => Some(image),
        Command::Run { call, .. } | Command::Bench(call) => Some(call.image),
        _ => None,
    }
}

/// Returns the file of `command` that is a loop in source form or a text of words.
fn text_of<'a>(command: &Command<&'a File, &str>) -> Option<&'a File> {
    match *command {
        Command::Loop { source, .. } => Some(source),
        Command::Image { text, .. } => Some(text),
        _ => None,
    }
}

/// Returns the netlist's file of `command`.
fn netlist_of<'a>(command: &Command<&'a File, &str>) -> Option<&'a File> {
    match *command {
        Command::Run { netlist, .. } => netlist,
        _ => None,
    }
}
