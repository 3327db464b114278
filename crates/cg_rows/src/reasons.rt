//! The least interval that no reason excludes, and what excludes those below it.

use cg_bound_all::{Arch, Kernel, explain};
use cg_bound_text::why_report;
use cg_kernel::read_kernel;
use cg_tiles::read_arch;
use std::rt::Files;
use std::{fs, io};

/// Reads the architecture in the file `arch` and the kernel in the file `kernel`, and prints the reasons for them.
pub(crate) fn run_pair(
    rt: &(impl Files + Print + AllocGlobal),
    arch: &str,
    kernel: &str,
) -> io::Result<()> {
    let alloc = rt.alloc();
    let tiles = fs::read(rt, format!(in alloc; "{arch}.toml")?.as_str())?;
    let graph = fs::read(rt, format!(in alloc; "{kernel}.json")?.as_str())?;
    let title = format!(in alloc; "{arch}, {kernel}\n")?;
    rt.print(title.as_str())?;
    let Ok(array) = read_arch(alloc, tiles.as_slice()) else {
        return rt.print("no architecture\n");
    };
    let Ok(graph) = read_kernel(alloc, graph.as_slice()) else {
        return rt.print("no kernel\n");
    };
    print_reasons(rt, &array, &graph)
}

/// Prints the report on `kernel` and `arch`.
fn print_reasons(rt: &(impl Print + AllocGlobal), arch: &Arch, kernel: &Kernel) -> io::Result<()> {
    let why = explain(rt.alloc(), arch, kernel)?;
    let report = why_report(rt.alloc(), arch, kernel, &why)?;
    match std::str::from_utf8(report.as_slice()) {
        Ok(text) => rt.print(text),
        Err(_) => rt.print("no text\n"),
    }
}
