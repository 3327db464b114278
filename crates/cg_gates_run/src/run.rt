//! A run of a netlist.
ghost use Rattle.std.specs.Prelude.{◌≡◌, ◌<◌, ◌+◌, IfOk, length};
ghost use Rattle.cg_gates_run.specs.State.{HaveThree};

use crate::gates::Gates;
use crate::settle::settle;
use cg_config::Contexts;
use cg_datapath::{Course, SimFault, Terminals, check_run};
use cg_pad::Image;
use std::alloc::{AllocError, Global};
use std::marker::Model;
use std::mem::swap;

/// A run of a netlist under a configuration, from an image. Contracts see the run and the number of past cycles.
#[derive(Drop)]
pub struct GateRun<'a, C: Contexts> {
    gates: &'a Gates<'a>,
    contexts: &'a C,
    course: Course<'a, C>,
    words: Vec<u32>,
    before: Vec<u32>,
}

impl<'a, C: Contexts> Model for GateRun<'a, C> {
    ghost use Rattle.cg_gates_run.specs.Run.{Run};
    ghost use Rattle.cg_gates_run.specs.State.{IsRunning};

    ghost Value = { Run };

    ghost view = { λ s. record { arch = s.gates.now.arch; netlist = s.gates.now.netlist; config = C.config s.contexts.now; n = s.course.n; image = s.course.image; done = s.course.done } };

    ghost invariant = { λ s. IsRunning s.gates.now.arch s.gates.now.netlist (C.config s.contexts.now) s.course s.words.items s.before.items };
}

impl<'a, C: Contexts> GateRun<'a, C> {
    ghost use Rattle.std.specs.Prelude.{◌≡◌, ◌≢◌, ◌<◌, ◌≤◌, ◌+◌, ◌-◌, ◌↔◌, ℕ, Err, IfOk, length};
    ghost use Rattle.cg_model.specs.Canonical.{IsCanonical};
    ghost use Rattle.cg_model.specs.Limits.{most_turns};
    ghost use Rattle.cg_pad.specs.Bytes.{IsStorable};
    ghost use Rattle.cg_gates.specs.Gates.{gates_left, net_word};
    ghost use Rattle.cg_gates.specs.Accepts.{net_name};
    ghost use Rattle.cg_gates_run.specs.Run.{start_of, state, all_cycles};

    /// Begins a run of `n` iterations of `gates` under `contexts` from `image`. It allocates all memory of the run; no
    /// later call allocates any.
    pub fn new(
        alloc: Global,
        gates: &'a Gates<'a>,
        contexts: &'a C,
        n: u32,
        image: &'a Image,
    ) -> Result<GateRun<'a, C>, SimFault>
        requires { IsCanonical gates.now.arch (C.config contexts.now) }
        ensures ok { IfOk result (λ r. r ≡ start_of gates.now.arch gates.now.netlist (C.config contexts.now) n image.now) }
        ensures many { (t : ℕ) → (result ≡ Err (SimFault.TooManyTurns t)) ↔ ((t ≡ n) × (most_turns < n)) }
        ensures large { (w : ℕ) → (result ≡ Err (SimFault.ImageTooLarge w)) ↔ ((w ≡ length image.now.memory) × (n ≤ most_turns) × (gates.now.arch.memory < w)) }
    {
        match check_run(gates.arch(), n, image) {
            Ok(()) => GateRun::start(alloc, gates, contexts, n, image),
            Err(fault) => Err(fault),
        }
    }

    /// Begins the run, whose number of iterations and image are within their limits.
    fn start(
        alloc: Global,
        gates: &'a Gates<'a>,
        contexts: &'a C,
        n: u32,
        image: &'a Image,
    ) -> Result<GateRun<'a, C>, SimFault>
        requires canonical { IsCanonical gates.now.arch (C.config contexts.now) }
        requires turns { n ≤ most_turns }
        requires fits { length image.now.memory ≤ gates.now.arch.memory }
        ensures ok { IfOk result (λ r. r ≡ start_of gates.now.arch gates.now.netlist (C.config contexts.now) n image.now) }
        ensures few { (t : ℕ) → result ≢ Err (SimFault.TooManyTurns t) }
        ensures small { (w : ℕ) → result ≢ Err (SimFault.ImageTooLarge w) }
    {
        let nets = gates.netlist().nets().len();
        let words = vec![in alloc; 0; nets + 1]?;
        let before = vec![in alloc; 0; nets + 1]?;
        let terminals = copied(alloc, gates.units())?;
        match Course::new(alloc, gates.arch(), contexts, n, image, terminals) {
            Ok(course) => Ok(GateRun {
                gates,
                contexts,
                course,
                words,
                before,
            }),
            Err(fault) => Err(fault),
        }
    }

    /// Returns the number of cycles still to be run.
    pub fn left(&self) -> u64
        ensures left { result ≡ all_cycles self.now - self.now.done }
        ensures within { self.now.done ≤ all_cycles self.now }
    {
        self.course.left()
    }

    /// Runs one cycle of the netlist.
    pub fn cycle(&mut self)
        requires { self.old.done < all_cycles self.old }
        ensures { self.new ≡ record self.old { done = self.old.done + 1 } }
    {
        swap(&mut self.words, &mut self.before);
        settle(
            self.gates,
            self.contexts,
            &self.course,
            &self.before,
            &mut self.words,
        );
        self.course.begin(&self.words);
    }

    /// Runs all cycles that are left.
    pub fn finish(&mut self)
        ensures { self.new ≡ record self.old { done = all_cycles self.old } }
    {
        for _cycle in 0..self.left() {
            self.cycle();
        }
    }

    /// Returns the word on net number `net`, in the order of declaration, in the last cycle that was run; 0 before the
    /// first.
    pub fn value(&self, net: u32) -> u32
        requires { net < length self.now.netlist.nets }
        ensures before_the_first { self.now.done ≡ 0 → result ≡ 0 }
        ensures last { (c : ℕ) → self.now.done ≡ c + 1 → result ≡ net_word self.now.arch self.now.netlist self.now.config self.now.n self.now.image (net_name self.now.netlist net) c }
    {
        self.words[net as usize]
    }

    /// Returns the number of accesses outside the memory so far.
    pub fn outside(&self) -> u64
        ensures { result ≡ (state self.now).outside }
    {
        self.course.outside()
    }

    /// Returns the memory and the output streams that the whole run leaves.
    pub fn into_image(self) -> Image
        requires { self.done ≡ all_cycles self }
        ensures image { result ≡ (gates_left self.entry.arch self.entry.netlist self.entry.config self.entry.n self.entry.image).image }
        ensures storable { IsStorable result }
    {
        let GateRun { course, .. } = self;
        course.into_image()
    }
}

/// Copies `units`, each of which has three ports.
fn copied(alloc: Global, units: &[Terminals]) -> Result<Vec<Terminals>, AllocError>
    ensures copy { IfOk result (λ copy. copy.items ≡ units.now) }
    ensures three { IfOk result (λ copy. HaveThree copy.items) }
{
    let mut copy = Vec::with_capacity(alloc, units.len())?;
    for j in 0..units.len() {
        copy.push(with_three(units[j]))?;
    }
    Ok(copy)
}

/// Returns `unit`, which has three ports.
fn with_three(unit: Terminals) -> Terminals
    ensures same { result ≡ unit }
    ensures three { length unit.ports ≡ 3 }
{
    unit
}
