//! A netlist that has a meaning over an architecture.
ghost use Rattle.std.specs.Prelude.{◌≡◌, ◌≢◌, IfOk, IfErr, OnOk};

use crate::build::ordered;
use crate::choices::Chosen;
use crate::nets::Nets;
use crate::selects::Selects;
use cg_arch::Arch;
use cg_datapath::Terminals;
use cg_gates::{Choices, GateFault, SelectCell, fault_before_loops};
use cg_netlist::NetGraph;
use std::alloc::Global;
use std::marker::Model;

/// A netlist that has a meaning over an architecture. Contracts see both.
#[derive(Drop)]
pub struct Gates<'a> {
    arch: &'a Arch,
    netlist: &'a NetGraph,
    contexts: Vec<SelectCell>,
    preselects: Vec<SelectCell>,
    registers: Choices,
    muxes: Choices,
    units: Vec<Terminals>,
}

impl<'a> Model for Gates<'a> {
    ghost use Rattle.cg_gates.specs.Gated.{Gated, IsGated};

    ghost Value = { Gated };

    ghost view = { λ g. record { arch = g.arch.now; netlist = g.netlist.now } };

    ghost invariant = { λ g. IsGated g.arch.now g.netlist.now g.contexts.items g.preselects.items g.registers g.muxes g.units.items };
}

impl<'a> Gates<'a> {
    ghost use Rattle.std.specs.Prelude.{◌≡◌, IfOk};
    ghost use Rattle.cg_model.specs.Array.{IsArch};
    ghost use Rattle.cg_netlist.specs.Graph.{IsNetGraph};
    ghost use Rattle.cg_gates.specs.Shape.{is_context, is_preselect, is_register, is_mux};
    ghost use Rattle.cg_gates.specs.Accepts.{IsAccepted, IsGateAnswer};
    ghost use Rattle.cg_gates.specs.Tables.{AreSelects, AreChoices, AreRising, AreTerminals};
    ghost use Rattle.cg_gates.specs.Gated.{IsGated};

    /// Returns the gates of `netlist` over `arch`, or the lowest of E1 to E6 that applies, at its first place. Where
    /// muxes form rings, the fault names one of these, starting at the net that is declared first and against the
    /// direction of the signal.
    pub fn build(
        alloc: Global,
        arch: &'a Arch,
        netlist: &'a NetGraph,
    ) -> Result<Gates<'a>, GateFault>
        ensures found { IfOk result (λ gates. gates ≡ record { arch = arch.now; netlist = netlist.now }) }
        ensures answer { IsGateAnswer arch.now netlist.now result }
    {
        let nets = Nets::new(alloc, netlist)?;
        if let Some(fault) = fault_before_loops(alloc, netlist, nets.numbers())? {
            return Err(fault);
        }
        ordered(alloc, arch, &nets)
    }

    /// Returns the gates of `netlist` over `arch` with these `selects`, `choices` and `units`.
    pub(crate) fn new(
        arch: &'a Arch,
        netlist: &'a NetGraph,
        selects: Selects,
        choices: Chosen,
        units: Vec<Terminals>,
    ) -> Gates<'a>
        requires { IsGated arch.now netlist.now selects.now.items selects.next.items choices.registers choices.muxes units.items }
        ensures { result ≡ record { arch = arch.now; netlist = netlist.now } }
    {
        Gates {
            arch,
            netlist,
            contexts: selects.now,
            preselects: selects.next,
            registers: choices.registers,
            muxes: choices.muxes,
            units,
        }
    }

    /// Returns the architecture.
    pub fn arch(&self) -> &'a Arch
        ensures arch { result.now ≡ self.now.arch }
        ensures valid { IsArch self.now.arch }
    {
        self.arch
    }

    /// Returns the netlist.
    pub fn netlist(&self) -> &'a NetGraph
        ensures netlist { result.now ≡ self.now.netlist }
        ensures valid { IsNetGraph self.now.netlist }
        ensures accepted { IsAccepted self.now.arch self.now.netlist }
    {
        self.netlist
    }

    /// Returns the cells that drive the selects of a cycle.
    pub fn contexts(&self) -> &[SelectCell]
        ensures { AreSelects self.now.arch self.now.netlist is_context result.now }
    {
        &self.contexts
    }

    /// Returns the cells that drive the selects of the next cycle.
    pub fn preselects(&self) -> &[SelectCell]
        ensures { AreSelects self.now.arch self.now.netlist is_preselect result.now }
    {
        &self.preselects
    }

    /// Returns the registers.
    pub fn registers(&self) -> &Choices
        ensures { AreChoices self.now.netlist is_register result.now }
    {
        &self.registers
    }

    /// Returns the muxes, each after the muxes that it hears.
    pub fn muxes(&self) -> &Choices
        ensures all { AreChoices self.now.netlist is_mux result.now }
        ensures rising { AreRising result.now }
    {
        &self.muxes
    }

    /// Returns the nets of each unit's cell, in the order of the architecture's units.
    pub fn units(&self) -> &[Terminals]
        ensures { AreTerminals self.now.arch self.now.netlist result.now }
    {
        &self.units
    }
}
