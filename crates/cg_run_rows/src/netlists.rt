//! The netlist of an array compared with the array, net by net.
ghost use Rattle.std.specs.Prelude.{◌≡◌, ◌<◌, ◌≤◌};
ghost use Rattle.cg_model.specs.Canonical.{IsCanonical};

use cg_arch::Arch;
use cg_bits::read_bits;
use cg_config::Contexts;
use cg_gates_run::{GateRun, Gates};
use cg_netlist::netlist;
use cg_pad::Image;
use cg_sim::Sim;
use cg_view::ConfigView;
use std::alloc::{AllocError, Global};

/// Checks whether `bytes` are bits of `arch` under which five iterations take fifteen cycles, in each of which the net
/// of each resource has the resource's word, both with tables and with the view of the bytes.
pub(crate) fn bits_alike(alloc: Global, arch: &Arch, bytes: &[u8]) -> Result<bool, AllocError> {
    match (read_bits(alloc, arch, bytes), ConfigView::of(arch, bytes)) {
        (Ok(tables), Ok(view)) => Ok(
            words_alike(alloc, arch, &tables, 5, 15)? && words_alike(alloc, arch, &view, 5, 15)?,
        ),
        _ => Ok(false),
    }
}

/// Checks whether a run of `turns` iterations of `arch` under `config`, from an image without words, has `cycles`
/// cycles, in each of which the net of each resource has the resource's word.
fn words_alike<C: Contexts>(
    alloc: Global,
    arch: &Arch,
    config: &C,
    turns: u32,
    cycles: u64,
) -> Result<bool, AllocError>
    requires { IsCanonical arch.now (C.config config.now) }
{
    let graph = netlist(alloc, arch)?;
    let image = Image::empty(alloc)?;
    match Gates::build(alloc, arch, &graph) {
        Ok(gates) => Ok(runs_alike(alloc, arch, &gates, config, turns, cycles, &image)),
        Err(_) => Ok(false),
    }
}

/// Checks whether a run of `turns` iterations of `gates` under `config`, from `image`, has `cycles` cycles, in each of
/// which the net of each resource has the word of the resource in the array's run.
fn runs_alike<C: Contexts>(
    alloc: Global,
    arch: &Arch,
    gates: &Gates<'_>,
    config: &C,
    turns: u32,
    cycles: u64,
    image: &Image,
) -> bool
    requires array { IsCanonical arch.now (C.config config.now) }
    requires netlist { IsCanonical gates.now.arch (C.config config.now) }
{
    let Ok(mut sim) = Sim::new(alloc, arch, config, turns, image) else {
        return false;
    };
    let Ok(mut run) = GateRun::new(alloc, gates, config, turns, image) else {
        return false;
    };
    if sim.left() != cycles || run.left() != cycles {
        return false;
    }
    for _cycle in 0..cycles {
        if sim.left() == 0 || run.left() == 0 {
            return false;
        }
        sim.cycle();
        run.cycle();
        if !are_alike(arch, gates, &sim, &run) {
            return false;
        }
    }
    sim.left() == 0 && run.left() == 0
}

/// Checks whether, in the last cycle of `run`, the net of each resource has the resource's word in that of `sim`.
fn are_alike<C: Contexts>(
    arch: &Arch,
    gates: &Gates<'_>,
    sim: &Sim<'_, C>,
    run: &GateRun<'_, C>,
) -> bool
    requires sim { sim.now.arch ≡ arch.now }
    requires run { run.now.netlist ≡ gates.now.netlist }
{
    let nets = gates.netlist().nets().len();
    let resources = arch.resources();
    let mut net = 0_usize;
    for r in 0..resources.len() {
        let Ok(number) = u32::try_from(net) else {
            return false;
        };
        if net >= nets || sim.value(r as u32) != run.value(number) {
            return false;
        }
        net += if resources[r].drivers.as_slice().is_empty() {
            1
        } else {
            2
        };
    }
    net == nets
}
