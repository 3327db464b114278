//! Times at which nodes would begin without places, so that values stay short.

use crate::group::{Group, Tightness};
use crate::lists::number_at;
use crate::places::shifted;
use crate::problem::{DataEdge, Problem};
use cg_model::OrderEdge;
use std::alloc::{AllocError, Global};

/// The greatest number of passes over the nodes, for each cycle of the interval.
const PASSES_A_CYCLE: u32 = 8;

/// The number of further passes, for each node.
const PASSES_A_NODE: u32 = 4;

/// The number of passes in a row that may shorten nothing, for each cycle of the interval.
const IDLE_A_CYCLE: u32 = 4;

/// The number of further passes of this kind.
const IDLE_PASSES: u32 = 8;

/// Returns the sum over all nodes of the longest stay of a value, where they begin at `times`: the cycles from when the
/// value leaves the fastest unit until it is read.
pub fn longest_stays(problem: &Problem, times: &[u32]) -> u32 {
    let mut sum: u32 = 0;
    for node in 0..problem.nodes {
        sum = sum.saturating_add(longest_stay(problem, times, node));
    }
    sum
}

/// Returns the longest stay of a value of `node`, 0 where none stays.
fn longest_stay(problem: &Problem, times: &[u32], node: u32) -> u32 {
    let mut longest: u32 = 0;
    for edge in problem.outs.of(node) {
        longest = longest.max(stay_on(problem, times, *edge));
    }
    longest
}

/// Returns the stay of the value of data edge number `edge`.
fn stay_on(problem: &Problem, times: &[u32], edge: u32) -> u32 {
    match problem.edge(edge) {
        Some(facts) => stay_of(problem, times, facts),
        None => 0,
    }
}

/// Returns the stay of the value of `edge`, 0 where it comes late.
fn stay_of(problem: &Problem, times: &[u32], edge: DataEdge) -> u32 {
    let begin = number_at(times, edge.target as usize);
    let taken = begin.saturating_add(problem.turns(edge.distance));
    let leaves = number_at(times, edge.source as usize).saturating_add(problem.least_latency(
        edge.source,
    ));
    taken.saturating_sub(leaves)
}

/// Edges at given times: those on which the value doesn't stay are tight.
#[derive(Clone, Copy, Drop)]
struct Timing<'a> {
    times: &'a [u32],
}

impl<'a> Tightness for Timing<'a> {
    /// Checks whether the value doesn't stay.
    fn is_tight(&self, problem: &Problem, edge: DataEdge) -> bool {
        stay_of(problem, self.times, edge) == 0
    }

    /// Checks whether the target begins no later than a cycle after the source.
    fn is_tight_tie(&self, problem: &Problem, tie: OrderEdge) -> bool {
        let begin = number_at(self.times, tie.to as usize);
        let after = number_at(self.times, tie.from as usize).saturating_add(1);
        begin.saturating_add(problem.turns(tie.distance)) <= after
    }
}

/// The result of moving nodes.
#[derive(Clone, Copy, PartialEq, Eq, Drop)]
enum Gain {
    /// No node moves.
    Nothing,
    /// Values stay as long as before.
    Same,
    /// Values stay for a shorter time.
    Shorter,
}

impl Gain {
    /// Returns the result of both.
    fn and(self, other: Gain) -> Gain {
        match (self, other) {
            (Gain::Shorter, _) | (_, Gain::Shorter) => Gain::Shorter,
            (Gain::Nothing, Gain::Nothing) => Gain::Nothing,
            _ => Gain::Same,
        }
    }
}

/// Times that are changed so that values stay for a shorter time.
#[derive(Drop)]
struct Descent {
    times: Vec<u32>,
    /// The nodes that move along.
    group: Group,
    /// The nodes whose values' stays change by the move.
    concerned: Group,
}

impl Descent {
    /// Returns a descent that begins at `times`.
    fn new(alloc: Global, problem: &Problem, times: &[u32]) -> Result<Descent, AllocError> {
        Ok(Descent {
            times: Vec::from_slice(alloc, times)?,
            group: Group::new(alloc, problem.nodes)?,
            concerned: Group::new(alloc, problem.nodes)?,
        })
    }

    /// Tries each node a cycle later, the last node first, or a cycle sooner, the first node first. Returns the result.
    fn pass(&mut self, problem: &Problem, is_later: bool) -> Result<Gain, AllocError> {
        let mut gain = Gain::Nothing;
        for step in 0..problem.nodes {
            let node = if is_later {
                problem.nodes.saturating_sub(step).saturating_sub(1)
            } else {
                step
            };
            gain = gain.and(self.try_node(problem, node, is_later)?);
        }
        Ok(gain)
    }

    /// Moves `node` a cycle, with all nodes that must move along, where values then don't stay longer, and, if sooner,
    /// stay shorter. Returns the result.
    fn try_node(
        &mut self,
        problem: &Problem,
        node: u32,
        is_later: bool,
    ) -> Result<Gain, AllocError> {
        self.gather(problem, node, is_later)?;
        if self.group.is_whole() {
            return Ok(Gain::Nothing);
        }
        self.gather_concerned(problem)?;
        Ok(self.try_group(problem, is_later))
    }

    /// Makes the group that of `node`.
    fn gather(&mut self, problem: &Problem, node: u32, is_later: bool) -> Result<(), AllocError> {
        self.group.clear();
        self.group.add(node)?;
        let timing = Timing {
            times: self.times.as_slice(),
        };
        self.group.grow(problem, &timing, is_later)
    }

    /// Gathers the nodes whose values' stays change where the group moves: the members, and the sources of edges into
    /// members.
    fn gather_concerned(&mut self, problem: &Problem) -> Result<(), AllocError> {
        self.concerned.clear();
        for member in self.group.members() {
            self.concerned.add(*member)?;
            add_sources(&mut self.concerned, problem, *member)?;
        }
        Ok(())
    }

    /// Moves the group where values then don't stay longer, and, if sooner, stay shorter. Returns the result.
    fn try_group(&mut self, problem: &Problem, is_later: bool) -> Gain {
        let before = self.stays(problem);
        self.shift(is_later);
        let after = self.stays(problem);
        if after < before {
            return Gain::Shorter;
        }
        if after == before && is_later {
            return Gain::Same;
        }
        self.shift(!is_later);
        Gain::Nothing
    }

    /// Returns the sum of the longest stays of the concerned nodes.
    fn stays(&self, problem: &Problem) -> u32 {
        let mut sum: u32 = 0;
        for node in self.concerned.members() {
            sum = sum.saturating_add(longest_stay(problem, self.times.as_slice(), *node));
        }
        sum
    }

    /// Moves the group a cycle later, or sooner.
    fn shift(&mut self, is_later: bool) {
        for member in self.group.members() {
            step_at(&mut self.times, *member as usize, is_later);
        }
    }
}

/// Makes the time at `place` a cycle later, or sooner.
fn step_at(times: &mut [u32], place: usize, is_later: bool) {
    if let Some(time) = times.get_mut(place) {
        *time = shifted(*time, 1, is_later);
    }
}

/// Adds the sources of the data edges into `node` to `group`.
fn add_sources(group: &mut Group, problem: &Problem, node: u32) -> Result<(), AllocError> {
    for edge in problem.ins.of(node) {
        if let Some(facts) = problem.edge(*edge) {
            group.add(facts.source)?;
        }
    }
    Ok(())
}

/// Returns times at which values stay shorter than at `early`, the earliest times: passes over the nodes, alternately
/// later and sooner. Where two passes in a row move nothing, no further pass would.
pub(crate) fn ideal(
    alloc: Global,
    problem: &Problem,
    early: &[u32],
) -> Result<Vec<u32>, AllocError> {
    let more = problem.nodes.saturating_mul(PASSES_A_NODE);
    let patience = in_all(problem.ii, IDLE_A_CYCLE, IDLE_PASSES);
    let mut descent = Descent::new(alloc, problem, early)?;
    let mut idle: u32 = 0;
    let mut last = Gain::Same;
    for pass in 0..in_all(problem.ii, PASSES_A_CYCLE, more) {
        let gain = descent.pass(problem, pass % 2 == 0)?;
        idle = if gain == Gain::Shorter {
            0
        } else {
            idle.saturating_add(1)
        };
        if idle > patience || last.and(gain) == Gain::Nothing {
            break;
        }
        last = gain;
    }
    Ok(descent.times)
}

/// Returns `each` times `ii`, plus `more`.
fn in_all(ii: u32, each: u32, more: u32) -> u32 {
    ii.saturating_mul(each).saturating_add(more)
}
