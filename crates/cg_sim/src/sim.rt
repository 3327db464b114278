//! A run of the array.
ghost use Rattle.std.specs.Prelude.{◌≡◌, ◌<◌, ◌≤◌, ◌+◌, ◌≢◌, IfOk, OnOk, length, replicate};
ghost use Rattle.cg_model.specs.Array.{IsArch};

use crate::plan::{Plan, plan_of, terminals_of};
use crate::settle::settle;
use cg_arch::Arch;
use cg_config::Contexts;
use cg_datapath::{Course, SimFault, check_run};
use cg_pad::Image;
use std::alloc::{AllocError, Global};
use std::marker::Model;
use std::mem::swap;

/// A run of an array under a configuration, from an image. Contracts see the architecture, configuration, number of
/// iterations and image, and the number of cycles done.
#[derive(Drop)]
pub struct Sim<'a, C: Contexts> {
    contexts: &'a C,
    plan: Plan,
    words: Vec<u32>,
    before: Vec<u32>,
    course: Course<'a, C>,
}

impl<'a, C: Contexts> Model for Sim<'a, C> {
    ghost use Rattle.cg_sim.specs.Run.{Run, run_of};
    ghost use Rattle.cg_sim.specs.State.{IsRunning};

    ghost Value = { Run };

    ghost view = { λ s. run_of s.course };

    ghost invariant = { λ s. IsRunning (C.config s.contexts.now) s.course s.plan s.words.items s.before.items };
}

impl<'a, C: Contexts> Sim<'a, C> {
    ghost use Rattle.std.specs.Prelude.{◌≡◌, ◌≢◌, ◌<◌, ◌≤◌, ◌+◌, ◌-◌, ◌↔◌, ℕ, Err, IfOk, length};
    ghost use Rattle.cg_model.specs.Canonical.{IsCanonical};
    ghost use Rattle.cg_model.specs.Limits.{most_turns};
    ghost use Rattle.cg_model.specs.Machine.{machine_left, word};
    ghost use Rattle.cg_pad.specs.Bytes.{IsStorable};
    ghost use Rattle.cg_sim.specs.Run.{start_of, state, all_cycles};

    /// Begins a run of `n` iterations of `arch` under `contexts` from `image`. It allocates all memory of the run; no
    /// later call allocates any.
    pub fn new(
        alloc: Global,
        arch: &'a Arch,
        contexts: &'a C,
        n: u32,
        image: &'a Image,
    ) -> Result<Sim<'a, C>, SimFault>
        requires { IsCanonical arch.now (C.config contexts.now) }
        ensures ok { IfOk result (λ s. s ≡ start_of arch.now (C.config contexts.now) n image.now) }
        ensures many { (t : ℕ) → (result ≡ Err (SimFault.TooManyTurns t)) ↔ ((t ≡ n) × (most_turns < n)) }
        ensures large { (w : ℕ) → (result ≡ Err (SimFault.ImageTooLarge w)) ↔ ((w ≡ length image.now.memory) × (n ≤ most_turns) × (arch.now.memory < w)) }
    {
        match check_run(arch, n, image) {
            Ok(()) => Sim::start(alloc, arch, contexts, n, image),
            Err(fault) => Err(fault),
        }
    }

    fn start(
        alloc: Global,
        arch: &'a Arch,
        contexts: &'a C,
        n: u32,
        image: &'a Image,
    ) -> Result<Sim<'a, C>, SimFault>
        requires canonical { IsCanonical arch.now (C.config contexts.now) }
        requires turns { n ≤ most_turns }
        requires fits { length image.now.memory ≤ arch.now.memory }
        ensures ok { IfOk result (λ s. s ≡ start_of arch.now (C.config contexts.now) n image.now) }
        ensures few { (t : ℕ) → result ≢ Err (SimFault.TooManyTurns t) }
        ensures small { (w : ℕ) → result ≢ Err (SimFault.ImageTooLarge w) }
    {
        let none = no_words(alloc, arch)?;
        let plan = plan_of(alloc, arch)?;
        let terminals = terminals_of(alloc, arch.units(), arch.resources().len() as u32)?;
        match Course::new(alloc, arch, contexts, n, image, terminals) {
            Ok(course) => Ok(Sim {
                contexts,
                plan,
                words: none.words,
                before: none.before,
                course,
            }),
            Err(fault) => Err(fault),
        }
    }

    /// Returns the number of cycles that remain to be run.
    pub fn left(&self) -> u64
        ensures left { result ≡ all_cycles self.now - self.now.done }
        ensures within { self.now.done ≤ all_cycles self.now }
    {
        self.course.left()
    }

    /// Runs one cycle of the whole array.
    pub fn cycle(&mut self)
        requires { self.old.done < all_cycles self.old }
        ensures { self.new ≡ record self.old { done = self.old.done + 1 } }
    {
        swap(&mut self.words, &mut self.before);
        self.course.give_outs(&mut self.words);
        let slot = self.course.slot();
        settle(
            &self.plan,
            self.contexts,
            slot,
            &self.before,
            &mut self.words,
        );
        self.course.begin(&self.words);
    }

    /// Runs all cycles that remain.
    pub fn finish(&mut self)
        ensures { self.new ≡ record self.old { done = all_cycles self.old } }
    {
        for _cycle in 0..self.left() {
            self.cycle();
        }
    }

    /// Returns the word on `resource` in the last cycle that was run, 0 before the first.
    pub fn value(&self, resource: u32) -> u32
        requires { resource < length self.now.arch.resources }
        ensures before_the_first { self.now.done ≡ 0 → result ≡ 0 }
        ensures last { (c : ℕ) → self.now.done ≡ c + 1 → result ≡ word self.now.arch self.now.config self.now.n self.now.image resource c }
    {
        self.words[resource as usize]
    }

    /// Returns the number of accesses that have reached outside the memory so far.
    pub fn outside(&self) -> u64
        ensures { result ≡ (state self.now).outside }
    {
        self.course.outside()
    }

    /// Returns the memory and the output streams that the whole run leaves, and consumes the run.
    pub fn into_image(self) -> Image
        requires { self.done ≡ all_cycles self }
        ensures image { result ≡ (machine_left self.entry.arch self.entry.config self.entry.n self.entry.image).image }
        ensures storable { IsStorable result }
    {
        let Sim { course, .. } = self;
        course.into_image()
    }
}

/// The words of the last cycle and of the one before it.
#[derive(Drop)]
struct Values {
    words: Vec<u32>,
    before: Vec<u32>,
}

/// Returns the words on the resources of `arch` before the first cycle, which are 0.
fn no_words(alloc: Global, arch: &Arch) -> Result<Values, AllocError>
    ensures words { IfOk result (λ v. v.words.items ≡ replicate (length arch.now.resources + 1) 0) }
    ensures before { IfOk result (λ v. v.before.items ≡ replicate (length arch.now.resources + 1) 0) }
    ensures valid { IsArch arch.now }
{
    let resources = arch.resources().len();
    let words = vec![in alloc; 0; resources + 1]?;
    let before = vec![in alloc; 0; resources + 1]?;
    Ok(Values { words, before })
}
