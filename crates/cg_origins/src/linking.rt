//! The walk back from a resource to the source of its word.
ghost use Rattle.std.specs.Prelude.{◌≡◌, ◌≢◌, ◌<◌, ◌≤◌, ◌-◌, ◌%◌, ℕ, IfSome, length};
ghost use Rattle.cg_model.specs.Array as arrays;
ghost use Rattle.cg_model.specs.declared.array.Kind.TheVariants.{Register, Out};
ghost use Rattle.cg_model.specs.Canonical.{IsCanonical};
ghost use Rattle.cg_origins.specs.Source.{IsFrom, IsReadable};
ghost use Rattle.cg_origins.specs.Walk.{IsPlace, IsStep, driver_at};

use crate::indexed::IndexedArch;
use crate::source::{MOST_DELAY, Source};
use cg_arch::Kind;
use cg_config::Contexts;

/// A place of a walk: the word that a resource had, a number of cycles before the walk's start.
#[derive(Clone, Copy)]
struct Place {
    /// The resource.
    resource: u32,
    /// The slot of the cycles in which it had the word.
    slot: u32,
    /// The number of cycles from then to the walk's start.
    delay: u32,
}

/// Where a step of a walk leads.
enum Step {
    /// To the source of the word.
    Ends(Source),
    /// To a further place with the same word.
    Further(Place),
    /// To a place or result of more than 255 cycles ago.
    TooFar,
}

/// Returns the source of the word on `resource` in the cycles of `slot`, on `arch` under `contexts`. Each link of the walk
/// takes one from `links`. `None`: the source is more than 255 cycles ago, or `links` are used up.
pub(crate) fn source_of<C: Contexts>(
    arch: &IndexedArch<'_>,
    contexts: &C,
    resource: u32,
    slot: u32,
    links: &mut u32,
) -> Option<Source>
    requires canonical { IsCanonical arch.now (C.config contexts.now) }
    requires resource { resource < length arch.now.resources }
    requires slot { slot < (C.config contexts.now).ii }
    ensures from { IfSome result (λ s. IsFrom arch.now (C.config contexts.now) slot resource s) }
    ensures readable { IfSome result (λ s. IsReadable arch.now (C.config contexts.now) slot s) }
    ensures links { links.new ≤ links.old }
{
    let mut here = Place {
        resource,
        slot,
        delay: 0,
    };
    while *links > 0 {
        *links -= 1;
        match step_back(arch, contexts, here) {
            Step::Ends(source) => return Some(source),
            Step::Further(next) => here = next,
            Step::TooFar => return None,
        }
    }
    None
}

/// Returns where the step back from `here` leads, on `arch` under `contexts`.
fn step_back<C: Contexts>(arch: &IndexedArch<'_>, contexts: &C, here: Place) -> Step
    requires canonical { IsCanonical arch.now (C.config contexts.now) }
    requires place { IsPlace arch.now (C.config contexts.now) here }
    ensures { IsStep arch.now (C.config contexts.now) here result }
{
    match arch.arch().resources()[here.resource as usize].kind {
        Kind::Out => out_step(arch, contexts, here),
        Kind::Register => register_step(arch, contexts, here),
        Kind::Wire | Kind::Port => net_step(arch, contexts, here),
    }
}

/// Returns where the step back from the wire or port at `here` leads: to its driver in the same cycles.
fn net_step<C: Contexts>(arch: &IndexedArch<'_>, contexts: &C, here: Place) -> Step
    requires canonical { IsCanonical arch.now (C.config contexts.now) }
    requires place { IsPlace arch.now (C.config contexts.now) here }
    requires not_out { (arrays.resource arch.now here.resource).kind ≢ Out }
    requires not_register { (arrays.resource arch.now here.resource).kind ≢ Register }
    ensures { IsStep arch.now (C.config contexts.now) here result }
{
    let Some(driver) = driver_at(arch, contexts, here) else {
        return Step::Ends(Source::Word(0));
    };
    Step::Further(Place {
        resource: driver,
        slot: here.slot,
        delay: here.delay,
    })
}

/// Returns where the step back from the register at `here` leads: to its driver in the cycles before.
fn register_step<C: Contexts>(arch: &IndexedArch<'_>, contexts: &C, here: Place) -> Step
    requires canonical { IsCanonical arch.now (C.config contexts.now) }
    requires place { IsPlace arch.now (C.config contexts.now) here }
    requires register { (arrays.resource arch.now here.resource).kind ≡ Register }
    ensures { IsStep arch.now (C.config contexts.now) here result }
{
    let Some(driver) = driver_at(arch, contexts, here) else {
        return Step::Ends(Source::Word(0));
    };
    if here.delay == MOST_DELAY {
        return Step::TooFar;
    }
    Step::Further(Place {
        resource: driver,
        slot: slot_before(here.slot, contexts.ii(), 1),
        delay: here.delay + 1,
    })
}

/// Returns where the step back from the out at `here` leads: to the result of its unit, or to 0 where that was off.
fn out_step<C: Contexts>(arch: &IndexedArch<'_>, contexts: &C, here: Place) -> Step
    requires canonical { IsCanonical arch.now (C.config contexts.now) }
    requires place { IsPlace arch.now (C.config contexts.now) here }
    requires out { (arrays.resource arch.now here.resource).kind ≡ Out }
    ensures { IsStep arch.now (C.config contexts.now) here result }
{
    let unit = arch.owner(here.resource);
    let latency = arch.arch().units()[unit as usize].latency;
    if here.delay + latency > MOST_DELAY {
        return Step::TooFar;
    }
    let began = slot_before(here.slot, contexts.ii(), latency);
    if contexts.head(unit, began).op.is_none() {
        return Step::Ends(Source::Word(0));
    }
    Step::Ends(Source::Result(unit, here.delay + latency))
}

/// Returns the driver of the resource at `here`, if any, on `arch` under `contexts`.
fn driver_at<C: Contexts>(arch: &IndexedArch<'_>, contexts: &C, here: Place) -> Option<u32>
    requires canonical { IsCanonical arch.now (C.config contexts.now) }
    requires place { IsPlace arch.now (C.config contexts.now) here }
    ensures driver { result ≡ driver_at arch.now (C.config contexts.now) here }
    ensures valid { arrays.IsArch arch.now }
{
    let resource = &arch.arch().resources()[here.resource as usize];
    let select = contexts.select(here.resource, here.slot) as usize;
    if select == 0 {
        None
    } else {
        Some(resource.drivers.as_slice()[select - 1])
    }
}

/// Returns the slot of the cycles that are `cycles` before those of `slot`, where the interval is `ii`.
fn slot_before(slot: u32, ii: u32, cycles: u32) -> u32
    requires { slot < ii }
    ensures within { result < ii }
    ensures before { (c : ℕ) → c % ii ≡ slot → cycles ≤ c → (c - cycles) % ii ≡ result }
{
    let back = cycles % ii;
    if back <= slot {
        slot - back
    } else {
        slot + (ii - back)
    }
}
