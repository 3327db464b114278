//! Rows that no command reaches: worked out by hand, each printed on a line with its result. Then, for each pair of an
//! architecture and a kernel that the arguments name, the least interval that no reason excludes, and what excludes
//! those below it.
#![tactic(auto)]

mod archs;
mod graphs;
mod places;
mod reasons;
mod routes;
mod texts;
mod walks;
mod ways;

use cg_arch::Arch;
use cg_hub::serial;
use cg_kernel::read_kernel;
use cg_model::Kernel;
use cg_tiles::read_arch;
use std::rt::Files;
use std::{env, fs, io};

fn main(rt: HostRuntime) -> io::Result<()> {
    rows(&rt)?;
    let mut arch = String::new(rt.alloc());
    for (place, name) in env::args(&rt)?.skip(1).enumerate() {
        if place % 2 == 0 {
            arch = name;
        } else {
            reasons::run_pair(&rt, arch.as_str(), name.as_str())?;
        }
    }
    Ok(())
}

/// Prints all rows: those of one unit, and the others.
fn rows(rt: &(impl Files + Print + AllocGlobal)) -> io::Result<()> {
    let Some(arch) = arch_in(rt, "t1.toml")? else {
        return rt.print("t1.toml is no architecture\n");
    };
    rows_of_one_unit(rt, &arch)
}

/// Prints the rows that begin with one unit.
fn rows_of_one_unit(rt: &(impl Files + Print + AllocGlobal), arch: &Arch) -> io::Result<()> {
    let Some(sum) = kernel_in(rt, "running_sum.json")? else {
        return rt.print("running_sum.json is no kernel\n");
    };
    first_rows(rt, arch, &sum)?;
    last_rows(rt, arch)
}

/// Prints the rows of one unit and of the running sum.
fn first_rows(
    rt: &(impl Files + Print + AllocGlobal),
    arch: &Arch,
    sum: &Kernel,
) -> io::Result<()> {
    rows_of_texts(rt, arch, sum)?;
    row_of_shape(rt, arch, sum)?;
    rows_of_routes(rt, arch)?;
    rows_of_sum(rt, arch, sum)
}

/// Prints the rows of two outputs, of moves, and of a filter.
fn last_rows(rt: &(impl Files + Print + AllocGlobal), arch: &Arch) -> io::Result<()> {
    row_of_outputs(rt, arch)?;
    rows_of_two_units(rt)?;
    row_of_ways(rt)?;
    rows_of_filter(rt, arch)
}

/// Reads the architecture in the file `name`, if there is one.
fn arch_in(rt: &(impl Files + AllocGlobal), name: &str) -> io::Result<Option<Arch>> {
    let bytes = fs::read(rt, name)?;
    Ok(read_arch(rt.alloc(), bytes.as_slice()).ok())
}

/// Reads the kernel in the file `name`, if there is one.
fn kernel_in(rt: &(impl Files + AllocGlobal), name: &str) -> io::Result<Option<Kernel>> {
    let bytes = fs::read(rt, name)?;
    Ok(read_kernel(rt.alloc(), bytes.as_slice()).ok())
}

/// Prints `row` and whether it holds.
fn say(rt: &(impl Print + AllocGlobal), row: &str, holds: bool) -> io::Result<()> {
    let said = if holds { "holds" } else { "fails" };
    let line = format!(in rt.alloc(); "{row}: {said}\n")?;
    rt.print(line.as_str())
}

/// Prints the rows of the texts of the architecture, the kernel and a mapping.
fn rows_of_texts(
    rt: &(impl Files + Print + AllocGlobal),
    arch: &Arch,
    sum: &Kernel,
) -> io::Result<()> {
    row_of_slot(rt, arch)?;
    let names = archs::names_that_no_file_gives(rt.alloc())?;
    say(rt, "names that no file gives", names)?;
    row_of_kernel(rt, sum)?;
    row_of_mapping(rt, arch, sum)
}

fn row_of_slot(rt: &(impl Files + Print + AllocGlobal), arch: &Arch) -> io::Result<()> {
    let flat = fs::read(rt, "t1.flat")?;
    let holds = archs::text_and_slot_of_one_unit(rt.alloc(), arch, flat.as_slice())?;
    say(rt, "text and slot of one unit", holds)
}

fn row_of_kernel(rt: &(impl Files + Print + AllocGlobal), sum: &Kernel) -> io::Result<()> {
    let text = fs::read(rt, "sum.printed")?;
    let holds = texts::prints(rt.alloc(), sum, text.as_slice())?;
    say(rt, "kernel as text", holds)
}

fn row_of_mapping(
    rt: &(impl Files + Print + AllocGlobal),
    arch: &Arch,
    sum: &Kernel,
) -> io::Result<()> {
    let mixed = fs::read(rt, "mixed.map")?;
    let text = fs::read(rt, "mixed.printed")?;
    let holds = texts::prints_mapping(rt.alloc(), arch, sum, mixed.as_slice(), text.as_slice())?;
    say(rt, "mapping as text", holds)
}

/// Prints the rows of the graph of one unit, and of the least paths in it.
fn rows_of_routes(rt: &(impl Print + AllocGlobal), arch: &Arch) -> io::Result<()> {
    let links = graphs::links_of_one_unit(rt.alloc(), arch)?;
    say(rt, "links of one unit", links)?;
    let paths = routes::paths_of_one_unit(rt.alloc(), arch)?;
    say(rt, "paths of one unit", paths)?;
    let claims = routes::plain_claims_of_one_unit(rt.alloc(), arch)?;
    say(rt, "plain claims of one unit", claims)
}

/// Prints the rows of the running sum on one unit: mapped one node after another, and by the walk.
fn rows_of_sum(rt: &(impl Print + AllocGlobal), arch: &Arch, sum: &Kernel) -> io::Result<()> {
    let six = serial(arch, sum) == Some(6);
    say(rt, "running sum one after another", six)?;
    let first = walks::maps_sum(rt.alloc(), arch, sum)?;
    say(rt, "running sum at its first places", first)
}

/// Prints the row of the test of which shape a mapping is.
fn row_of_shape(
    rt: &(impl Files + Print + AllocGlobal),
    arch: &Arch,
    sum: &Kernel,
) -> io::Result<()> {
    let Some(outputs) = kernel_in(rt, "outputs.json")? else {
        return rt.print("outputs.json is no kernel\n");
    };
    let mixed = fs::read(rt, "mixed.map")?;
    let holds = texts::tells_shape(rt.alloc(), arch, sum, &outputs, mixed.as_slice())?;
    say(rt, "shape of a mapping, or not", holds)
}

/// Prints the row of two outputs on one unit.
fn row_of_outputs(rt: &(impl Files + Print + AllocGlobal), arch: &Arch) -> io::Result<()> {
    let Some(outputs) = kernel_in(rt, "outputs.json")? else {
        return rt.print("outputs.json is no kernel\n");
    };
    let two = walks::leaves_two_in_a_slot(rt.alloc(), arch, &outputs)?;
    say(rt, "two outputs in one slot", two)
}

/// Prints the rows of two units.
fn rows_of_two_units(rt: &(impl Files + Print + AllocGlobal)) -> io::Result<()> {
    let Some(arch) = arch_in(rt, "two_units.toml")? else {
        return rt.print("two_units.toml is no architecture\n");
    };
    row_of_moves(rt, &arch)
}

/// Prints the row of moves of three nodes.
fn row_of_moves(rt: &(impl Files + Print + AllocGlobal), arch: &Arch) -> io::Result<()> {
    let Some(kernel) = kernel_in(rt, "three.json")? else {
        return rt.print("three.json is no kernel\n");
    };
    let holds = places::moves_of_three_nodes(rt.alloc(), arch, &kernel)?;
    say(rt, "moves of three nodes", holds)
}

/// Prints the row of the registers on ways.
fn row_of_ways(rt: &(impl Files + Print + AllocGlobal)) -> io::Result<()> {
    let Some(arch) = arch_in(rt, "ways.toml")? else {
        return rt.print("ways.toml is no architecture\n");
    };
    let Some(kernel) = kernel_in(rt, "ways.json")? else {
        return rt.print("ways.json is no kernel\n");
    };
    let holds = ways::registers_on_ways(rt.alloc(), &arch, &kernel)?;
    say(rt, "registers on ways", holds)
}

/// Prints the rows of a filter, whose operations one unit doesn't offer.
fn rows_of_filter(rt: &(impl Files + Print + AllocGlobal), small: &Arch) -> io::Result<()> {
    let Some(filter) = kernel_in(rt, "filter.json")? else {
        return rt.print("filter.json is no kernel\n");
    };
    say(rt, "filter not offered", serial(small, &filter).is_none())?;
    rows_of_sixteen_tiles(rt, &filter)
}

/// Prints the rows of the filter on four rows of four tiles.
fn rows_of_sixteen_tiles(
    rt: &(impl Files + Print + AllocGlobal),
    filter: &Kernel,
) -> io::Result<()> {
    let Some(arch) = arch_in(rt, "four_by_four.toml")? else {
        return rt.print("four_by_four.toml is no architecture\n");
    };
    row_of_walks(rt, &arch, filter, 1)?;
    row_of_walks(rt, &arch, filter, 2)
}

/// Prints the row of the walk of seventy moves at interval 2, compared with the plain walk.
fn row_of_walks(
    rt: &(impl Print + AllocGlobal),
    arch: &Arch,
    kernel: &Kernel,
    seed: u64,
) -> io::Result<()> {
    let alike = walks::end_alike(rt.alloc(), arch, kernel, 2, seed, 70)?;
    let row = format!(in rt.alloc(); "filter, seed {seed}, 70 moves, as the plain walk")?;
    say(rt, row.as_str(), alike)
}
