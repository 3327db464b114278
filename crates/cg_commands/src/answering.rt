//! The answer of a command.
ghost use Rattle.std.specs.Prelude.{option_map};
ghost use Rattle.std.specs.Borrow.{Bor};
ghost use Rattle.cg_effects.specs.Outcome.{Name, file_of};
ghost use Rattle.cg_cause.specs.Allowed.{Allows};
ghost use Rattle.cg_command.specs.Command.{IsRanged, listed};
ghost use Rattle.cg_command.specs.Files.{filled};
ghost use Rattle.cg_command_judge.specs.Show.{IsShow};
ghost use Rattle.cg_commands.specs.Commands.{IsAnswer};
ghost use Rattle.cg_commands.specs.Trial.{IsTrialOf};

use cg_cause::Stop;
use cg_command::{Command, copies};
use cg_diagnostics::Aside;
use cg_effects::{File, Outcome, Status};
use cg_simplify::Options;
use std::alloc::Global;

/// Returns the outcome of `command`. `aside` receives the progress of a search.
pub fn answer(
    alloc: Global,
    command: &Command<&File, &str>,
    aside: &mut dyn Aside,
) -> Result<Outcome, Stop>
    requires { IsRanged command.now }
    ensures { Allows (IsAnswer (filled command.now)) result }
{
    match *command {
        Command::Turns { kernel, turns } => cg_command_run::turns(alloc, turns, kernel),
        Command::TurnsOnImage {
            kernel,
            turns,
            image,
            out,
        } => cg_command_run::turns_on_image(alloc, turns, kernel, image, out),
        Command::Flat { arch, out } => cg_command_run::flat(alloc, arch, out),
        Command::Run {
            call,
            netlist: None,
        } => cg_command_run::run(alloc, &call),
        Command::Run {
            call,
            netlist: Some(netlist),
        } => cg_command_run::run_netlist(alloc, &call, netlist),
        Command::Bound { arch, kernel } => cg_command_judge::bound(alloc, arch, kernel),
        Command::Check {
            arch,
            kernel,
            mapping,
        } => cg_command_judge::check(alloc, arch, kernel, mapping),
        Command::Emit {
            arch,
            kernel,
            mapping,
            out,
        } => cg_command_judge::emit(alloc, arch, kernel, mapping, out),
        Command::Map(call) => cg_command_map::map(alloc, &call, aside),
        Command::Search(call) => cg_command_map::search(alloc, &call, aside),
        Command::Show {
            arch,
            kernel,
            mapping,
            out,
        } => show(alloc, arch, kernel, mapping, out),
        Command::Trial { seed } => trial(alloc, seed),
        Command::Verilog { arch, out } => cg_command_files::verilog(alloc, arch, out),
        Command::Loop { source, out } => cg_command_files::loop_answer(alloc, source, out),
        Command::Depend { kernel, out } => cg_command_files::depend(alloc, kernel, out),
        Command::Simplify {
            kernel,
            out,
            copies,
            share,
        } => cg_command_files::simplify(alloc, kernel, out, Options { copies, share }),
        Command::Migrate { arch, bits, out } => cg_command_files::migrate(alloc, arch, bits, out),
        Command::Bench(call) => cg_command_run::bench(alloc, &call),
        Command::Image { text, out } => cg_command_files::image(alloc, text, out),
        Command::Words { image } => cg_command_files::words(alloc, image),
        Command::Violations {
            arch,
            kernel,
            mapping,
        } => cg_command_judge::violations(alloc, arch, kernel, mapping),
        Command::Why { arch, kernel } => cg_command_judge::why(alloc, arch, kernel),
    }
}

/// Returns the outcome of `show` for the files of an architecture, a kernel and a mapping; `out` is the name of the
/// picture, if it is asked for.
fn show(
    alloc: Global,
    arch: &File,
    kernel: &File,
    mapping: &File,
    out: Option<&str>,
) -> Result<Outcome, Stop>
    ensures { Allows (IsShow (file_of arch.now) (file_of kernel.now) (file_of mapping.now)
        (listed (option_map (λ (name : Bor Name). name.now) out.entry))) result }
{
    let outputs = match out {
        None => Vec::new(alloc),
        Some(out) => copies(alloc, &[out])?,
    };
    cg_command_judge::show(alloc, arch, kernel, mapping, outputs.as_slice())
}

/// Returns the outcome of `trial` for `seed`.
fn trial(alloc: Global, seed: u64) -> Result<Outcome, Stop>
    ensures { Allows (IsTrialOf seed) result }
{
    let report = cg_command_run::trial(alloc, seed)?;
    Ok(Outcome::new(alloc, Status::Done, report))
}
