//! Rows of runs that no command reaches, each printed on a line with its result: configurations and their bits, words of
//! netlists beside those of the array, random configurations run in two ways, and a trial.
#![tactic(auto)]

mod alike;
mod bits;
mod histories;
mod netlists;
mod trial;

use cg_arch::Arch;
use cg_kernel::read_kernel;
use cg_model::Kernel;
use cg_pad::{Image, read_image};
use cg_tiles::read_arch;
use cg_trial::TrialParts;
use histories::{Found, Setting, found_of};
use std::rt::Files;
use std::{fs, io};
use trial::{digest_text, trial_of};

fn main(rt: HostRuntime) -> io::Result<()> {
    rows_of_one_unit(&rt)?;
    rows_of_histories(&rt)?;
    rows_of_trial(&rt)
}

/// Prints the rows of one unit and of the running sum.
fn rows_of_one_unit(rt: &(impl Files + Print + AllocGlobal)) -> io::Result<()> {
    let Some(arch) = arch_in(rt, "t1.toml")? else {
        return rt.print("t1.toml is no architecture\n");
    };
    let Some(sum) = kernel_in(rt, "running_sum.json")? else {
        return rt.print("running_sum.json is no kernel\n");
    };
    rows_of_bits(rt, &arch, &sum)
}

/// Reads the architecture in the file `name`, if there is one.
fn arch_in(rt: &(impl Files + AllocGlobal), name: &str) -> io::Result<Option<Arch>> {
    let bytes = fs::read(rt, name)?;
    Ok(read_arch(rt.alloc(), bytes.as_slice()).ok())
}

/// Reads the kernel in the file `name`, if there is one.
fn kernel_in(rt: &(impl Files + AllocGlobal), name: &str) -> io::Result<Option<Kernel>> {
    let bytes = fs::read(rt, name)?;
    Ok(read_kernel(rt.alloc(), bytes.as_slice()).ok())
}

/// Prints `row` and whether it holds.
fn say(rt: &(impl Print + AllocGlobal), row: &str, holds: bool) -> io::Result<()> {
    let said = if holds { "holds" } else { "fails" };
    let line = format!(in rt.alloc(); "{row}: {said}\n")?;
    rt.print(line.as_str())
}

/// Prints the rows of the bits of configurations, and of runs of too many iterations.
fn rows_of_bits(
    rt: &(impl Files + Print + AllocGlobal),
    arch: &Arch,
    sum: &Kernel,
) -> io::Result<()> {
    let off = bits::two_slots_that_are_off(rt.alloc(), arch)?;
    say(rt, "two slots that are off", off)?;
    let canonical = bits::tells_canonical(rt.alloc(), arch)?;
    say(rt, "canonical, or not", canonical)?;
    let bits = fs::read(rt, "sum.bits")?;
    row_of_cuts(rt, arch, bits.as_slice())?;
    row_of_turned_bits(rt, arch, bits.as_slice())?;
    row_of_turns(rt, arch, sum, bits.as_slice())?;
    row_of_nets(rt, arch, bits.as_slice())
}

fn row_of_cuts(rt: &(impl Print + AllocGlobal), arch: &Arch, bits: &[u8]) -> io::Result<()> {
    let holds = bits::cut_bytes_are_truncated(rt.alloc(), arch, bits)?;
    say(rt, "cut bytes are truncated", holds)
}

fn row_of_turned_bits(rt: &(impl Print + AllocGlobal), arch: &Arch, bits: &[u8]) -> io::Result<()> {
    let count = bits.len();
    let (unlike, taken) = bits::bits_turned_over(rt.alloc(), arch, bits)?;
    let line = format!(in rt.alloc();
        "{count} bytes, each bit turned over: {unlike} unlike, {taken} taken\n"
    )?;
    rt.print(line.as_str())
}

fn row_of_turns(
    rt: &(impl Print + AllocGlobal),
    arch: &Arch,
    sum: &Kernel,
    bits: &[u8],
) -> io::Result<()> {
    let holds = bits::too_many_turns(rt.alloc(), arch, sum, bits)?;
    say(rt, "too many turns", holds)
}

fn row_of_nets(rt: &(impl Print + AllocGlobal), arch: &Arch, bits: &[u8]) -> io::Result<()> {
    let holds = netlists::bits_alike(rt.alloc(), arch, bits)?;
    say(rt, "netlist, each word by tables and view", holds)
}

/// Reads the image in the file `name`, if there is one.
fn image_in(rt: &(impl Files + AllocGlobal), name: &str) -> io::Result<Option<Image>> {
    let bytes = fs::read(rt, name)?;
    Ok(read_image(rt.alloc(), bytes.as_slice()).ok())
}

/// Prints the rows of a thousand configurations that are run by results and by words.
fn rows_of_histories(rt: &(impl Files + Print + AllocGlobal)) -> io::Result<()> {
    let Some(arch) = arch_in(rt, "runs.toml")? else {
        return rt.print("runs.toml is no architecture\n");
    };
    let Some(image) = image_in(rt, "runs.img")? else {
        return rt.print("runs.img is no image\n");
    };
    let setting = Setting {
        arch: &arch,
        image: &image,
    };
    let found = found_of(rt.alloc(), &setting, 1000)?;
    rows_of_found(rt, &found)
}

/// Prints what was found of a thousand configurations.
fn rows_of_found(rt: &(impl Print + AllocGlobal), found: &Found) -> io::Result<()> {
    let unlike = found.unlike;
    let line = format!(in rt.alloc();
        "1000 configurations, by results and by words: {unlike} unlike\n"
    )?;
    rt.print(line.as_str())?;
    say_part(rt, "of them by results", found.by_results)?;
    say_part(rt, "that leave something", found.leaving)
}

/// Prints `row` and whether `count` is more than half of a thousand.
fn say_part(rt: &(impl Print + AllocGlobal), row: &str, count: u32) -> io::Result<()> {
    let said = if count > 500 { "most" } else { "few" };
    let line = format!(in rt.alloc(); "{row}: {said}\n")?;
    rt.print(line.as_str())
}

/// Prints the rows of the trial of seed 1.
fn rows_of_trial(rt: &(impl Print + AllocGlobal)) -> io::Result<()> {
    let trial = trial_of(rt.alloc(), 1)?;
    rows_of_parts(rt, &trial.parts, trial.bits.as_slice())
}

/// Prints the rows of the trial's parts, its bits, and the images that the array and the iterations leave.
fn rows_of_parts(
    rt: &(impl Print + AllocGlobal),
    parts: &TrialParts,
    bits: &[u8],
) -> io::Result<()> {
    say(rt, "trial, its parts", trial::are_parts_of_seed_1(parts))?;
    row_of_bytes(rt, bits)?;
    row_of_readers(rt, &parts.arch, bits)?;
    row_of_run(rt, parts, bits)?;
    row_of_trial_turns(rt, parts)
}

fn row_of_readers(rt: &(impl Print + AllocGlobal), arch: &Arch, bits: &[u8]) -> io::Result<()> {
    let alike = trial::reads_alike(rt.alloc(), arch, bits)?;
    say(rt, "trial, each select and field by tables and view", alike)
}

fn row_of_run(rt: &(impl Print + AllocGlobal), parts: &TrialParts, bits: &[u8]) -> io::Result<()> {
    let run = trial::run_image(rt.alloc(), &parts.arch, bits, &parts.image)?;
    row_of_digest(rt, "run-image", run)
}

fn row_of_trial_turns(rt: &(impl Print + AllocGlobal), parts: &TrialParts) -> io::Result<()> {
    let turns = trial::turns_image(rt.alloc(), &parts.kernel, &parts.image)?;
    row_of_digest(rt, "turns-image", turns)
}

fn row_of_bytes(rt: &(impl Print + AllocGlobal), bits: &[u8]) -> io::Result<()> {
    let count = bits.len();
    let line = format!(in rt.alloc(); "trial of seed 1: {count} bytes\n")?;
    rt.print(line.as_str())
}

/// Prints the digest of the bytes of `image`, labelled `row`.
fn row_of_digest(
    rt: &(impl Print + AllocGlobal),
    row: &str,
    image: Option<Vec<u8>>,
) -> io::Result<()> {
    let Some(image) = image else {
        return say(rt, row, false);
    };
    let digest = digest_text(rt.alloc(), image.as_slice())?;
    let line = format!(in rt.alloc(); "{row} {digest}\n")?;
    rt.print(line.as_str())
}
