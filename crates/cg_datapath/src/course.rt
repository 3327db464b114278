//! The course of a run.
ghost use Rattle.std.specs.Prelude.{◌≡◌, ◌<◌, ◌≤◌, ◌↔◌, ◌*◌, ℕ, Ok, Err, IfOk, length, replicate};
ghost use Rattle.cg_model.specs.Array.{IsArch};
ghost use Rattle.cg_model.specs.Limits.{most_turns};

use crate::effects::Effects;
use crate::fault::SimFault;
use crate::moment::Moment;
use crate::outs::set_outs;
use crate::start::{length_in_cycles, no_effects};
use crate::streams::all_words;
use crate::terminals::Terminals;
use crate::units::begin_units;
use cg_arch::Arch;
use cg_config::Contexts;
use cg_model::{MOST_TURNS, Words};
use cg_pad::{Image, PORTS, Streams};
use std::alloc::{AllocError, Global};
use std::marker::Model;

/// The state of a run of units, except the words. Contracts see the architecture, configuration and image of the run,
/// the number of cycles done, and what these cycles left.
#[derive(Drop)]
pub struct Course<'a, C: Contexts> {
    arch: &'a Arch,
    contexts: &'a C,
    image: &'a Image,
    n: u32,
    ii: u32,
    length: u64,
    done: u64,
    moment: Moment,
    terminals: Vec<Terminals>,
    history: Vec<u32>,
    effects: Effects,
    finished: Vec<Words>,
}

impl<'a, C: Contexts> Model for Course<'a, C> {
    ghost use Rattle.cg_datapath.specs.Course as courses;
    ghost use Rattle.cg_datapath.specs.Reserved.{all_words};
    ghost use Rattle.cg_datapath.specs.State.{IsCourse};

    ghost Value = { courses.Course };

    ghost view = { λ s. record { arch = s.arch.now; config = C.config s.contexts.now; n = s.n; image = s.image.now; terminals = s.terminals.items; done = s.done; memory = s.effects.memory; streams = all_words s.effects.streams.items; outside = s.effects.outside; history = s.history.items } };

    ghost invariant = { λ s. IsCourse (record { arch = s.arch.now; config = C.config s.contexts.now; n = s.n; image = s.image.now; terminals = s.terminals.items; done = s.done; memory = s.effects.memory; streams = all_words s.effects.streams.items; outside = s.effects.outside; history = s.history.items }) s.ii s.length s.moment s.effects s.finished };
}

impl<'a, C: Contexts> Course<'a, C> {
    ghost use Rattle.std.specs.Prelude.{◌≡◌, ◌<◌, ◌≤◌, ◌+◌, ◌-◌, ◌%◌, ◌↔◌, ℕ, Err, IfOk, length};
    ghost use Rattle.cg_model.specs.Canonical.{IsCanonical};
    ghost use Rattle.cg_model.specs.Limits.{most_turns};
    ghost use Rattle.cg_pad.specs.Bytes.{IsStorable};
    ghost use Rattle.cg_datapath.specs.Terminals.{terminals};
    ghost use Rattle.cg_datapath.specs.Course.{course_cycles, AreShort, IsStart, Keeps, AreOutsRight, GiveOuts, ArePortsKnown, Advances};

    /// Begins a run of `n` iterations of `arch` under `contexts` from `image`, whose units have these `terminals`. It
    /// allocates all memory of the run; no later call allocates any.
    pub fn new(
        alloc: Global,
        arch: &'a Arch,
        contexts: &'a C,
        n: u32,
        image: &'a Image,
        terminals: Vec<Terminals>,
    ) -> Result<Course<'a, C>, SimFault>
        requires canonical { IsCanonical arch.now (C.config contexts.now) }
        requires units { length terminals.items ≡ length arch.now.units }
        requires latencies { AreShort terminals.items }
        ensures ok { IfOk result (IsStart arch.now (C.config contexts.now) n image.now terminals.items) }
        ensures many { (t : ℕ) → (result ≡ Err (SimFault.TooManyTurns t)) ↔ ((t ≡ n) × (most_turns < n)) }
        ensures large { (w : ℕ) → (result ≡ Err (SimFault.ImageTooLarge w)) ↔ ((w ≡ length image.now.memory) × (n ≤ most_turns) × (arch.now.memory < w)) }
    {
        match check_run(arch, n, image) {
            Ok(()) => Ok(Course::start(alloc, arch, contexts, n, image, terminals)?),
            Err(fault) => Err(fault),
        }
    }

    fn start(
        alloc: Global,
        arch: &'a Arch,
        contexts: &'a C,
        n: u32,
        image: &'a Image,
        terminals: Vec<Terminals>,
    ) -> Result<Course<'a, C>, AllocError>
        requires canonical { IsCanonical arch.now (C.config contexts.now) }
        requires units { length terminals.items ≡ length arch.now.units }
        requires latencies { AreShort terminals.items }
        requires turns { n ≤ most_turns }
        requires fits { length image.now.memory ≤ arch.now.memory }
        ensures { IfOk result (IsStart arch.now (C.config contexts.now) n image.now terminals.items) }
    {
        let history = no_results(alloc, arch)?;
        let ii = contexts.ii();
        let length = length_in_cycles(n, contexts.stages(), ii);
        let effects = no_effects(alloc, arch, contexts, n, image)?;
        let finished = Vec::with_capacity(alloc, PORTS)?;
        Ok(Course {
            arch,
            contexts,
            image,
            n,
            ii,
            length,
            done: 0,
            moment: Moment {
                slot: 0,
                round: 0,
                row: 0,
            },
            terminals,
            history,
            effects,
            finished,
        })
    }

    /// Returns the number of cycles that remain to be run.
    pub fn left(&self) -> u64
        ensures left { result ≡ course_cycles self.now - self.now.done }
        ensures within { self.now.done ≤ course_cycles self.now }
    {
        self.length - self.done
    }

    /// Returns the slot of the next cycle.
    pub fn slot(&self) -> u32
        ensures slot { result ≡ self.now.done % self.now.config.ii }
        ensures within { result < self.now.config.ii }
    {
        self.moment.slot
    }

    /// Returns the slot of the cycle after the next one.
    pub fn next_slot(&self) -> u32
        ensures slot { result ≡ (self.now.done + 1) % self.now.config.ii }
        ensures within { result < self.now.config.ii }
    {
        if self.moment.slot + 1 == self.ii {
            0
        } else {
            self.moment.slot + 1
        }
    }

    /// Sets the word of each out in `words` to the result that its unit gave one latency ago.
    pub fn give_outs(&self, words: &mut [u32])
        requires { (x : ℕ) → x < length self.now.terminals → (terminals self.now.terminals x).out < length words.old }
        ensures kept { (f : ℕ → ℕ) → GiveOuts self.now f → Keeps f words.old words.new }
        ensures right { (f : ℕ → ℕ) → GiveOuts self.now f → AreOutsRight self.now.terminals words.new f }
    {
        set_outs(&self.terminals, self.moment.row, &self.history, words);
    }

    /// Begins the units of the next cycle in order, on these `words`, and advances by that cycle.
    pub fn begin(&mut self, words: &[u32])
        requires left { self.old.done < course_cycles self.old }
        requires ports { ArePortsKnown self.old.terminals words.now }
        ensures { Advances self.old words.now self.new }
    {
        begin_units(
            &self.terminals,
            self.contexts,
            self.image,
            self.n,
            self.moment,
            words,
            &mut self.history,
            &mut self.effects,
        );
        self.effects.store_pending();
        self.moment = self.moment.next(self.ii);
        self.done += 1;
    }

    /// Returns the number of accesses that have reached outside the memory so far.
    pub fn outside(&self) -> u64
        ensures { result ≡ self.now.outside }
    {
        self.effects.outside
    }

    /// Returns the memory and the output streams as they are, and consumes the run.
    pub fn into_image(self) -> Image
        ensures image { result ≡ record { memory = self.entry.memory; streams = self.entry.streams } }
        ensures storable { IsStorable result }
    {
        let Course {
            effects,
            finished,
            ..
        } = self;
        let Effects {
            memory,
            streams,
            ..
        } = effects;
        Image {
            memory: memory.into_words(),
            streams: Streams::new(all_words(streams, finished)),
        }
    }
}

/// Checks that `n` iterations from `image` can be run on `arch`: first the number of iterations, then the size of the
/// image.
pub fn check_run(arch: &Arch, n: u32, image: &Image) -> Result<(), SimFault>
    ensures ok { (result ≡ Ok tt) ↔ ((n ≤ most_turns) × (length image.now.memory ≤ arch.now.memory)) }
    ensures many { (t : ℕ) → (result ≡ Err (SimFault.TooManyTurns t)) ↔ ((t ≡ n) × (most_turns < n)) }
    ensures large { (w : ℕ) → (result ≡ Err (SimFault.ImageTooLarge w)) ↔ ((w ≡ length image.now.memory) × (n ≤ most_turns) × (arch.now.memory < w)) }
{
    if n > MOST_TURNS {
        return Err(SimFault::TooManyTurns(n));
    }
    let size = image.memory().len();
    if size > arch.memory() as usize {
        return Err(SimFault::ImageTooLarge(size));
    }
    Ok(())
}

/// Returns the results of the last four cycles before the first cycle, which are 0.
fn no_results(alloc: Global, arch: &Arch) -> Result<Vec<u32>, AllocError>
    ensures zeros { IfOk result (λ v. v.items ≡ replicate (4 * length arch.now.units) 0) }
    ensures valid { IsArch arch.now }
{
    let units = arch.units().len();
    vec![in alloc; 0; 4 * units]
}
