//! One turn of a program.
ghost use Rattle.std.specs.Prelude.{◌≡◌, ◌+◌, ◌*◌, ◌/◌, ◌%◌, ◌≤◌, ◌<◌, true, [], IfOk, OnOk, length, map};
ghost use Rattle.cg_c_check.specs.Written.{level_of, program_of, stmts_of};
ghost use Rattle.cg_c_meaning.specs.Meaning as meaning;
ghost use Rattle.cg_c_meaning.specs.Turns.{all_turn, turns_of};
ghost use Rattle.cg_c_meaning.specs.Typed.{AreApart, AreTypedStmts, IsTyped, stmts_inputs};
ghost use Rattle.cg_c_values.specs.Listed.{listed};
ghost use Rattle.cg_c_turn.specs.Draft.{draft_of};
ghost use Rattle.cg_c_turn.specs.Nested.{AddsNoLoad, AreQuiet, EntersLoop, IsBlank, IsIndex, IsNested, IsOfTurn};
ghost use Rattle.cg_c_turn.specs.Stands.{IsFormed};
ghost use Rattle.cg_c_turn.specs.Turn.{Turns};

use crate::draft::Draft;
use crate::effect::Latest;
use cg_c_check::{Array, Level, Program, Range, Stmt};
use cg_c_values::{Value, Values};
use cg_word::Op;
use std::alloc::{AllocError, Global};

/// Returns the number of turns of loops in one another.
fn span_of(levels: &[Level]) -> u32
    requires iterate { all_turn (map level_of levels.now) ≡ true }
    requires few { turns_of (map level_of levels.now) ≤ 1000000 }
    ensures { result ≡ turns_of (map level_of levels.now) }
{
    match levels.split_first() {
        None => 1,
        Some((level, inner)) => level.range.trips * span_of(inner),
    }
}

/// Returns the value of the turn's number divided by `divisor`, modulo `radix`.
fn digit(values: &mut Values, divisor: u32, radix: u32) -> Result<usize, AllocError>
    ensures adds { AddsNoLoad (listed values.old) (listed values.new) }
    ensures digit { IfOk result (λ v. IsOfTurn (listed values.new) v (λ t. t / divisor % radix)) }
{
    if radix == 1 {
        values.constant(0)
    } else {
        values.insert(Value::Digit { divisor, radix })
    }
}

/// Returns the value of the counter of a loop of which an iteration has `span` turns.
fn counter(values: &mut Values, range: Range, span: u32) -> Result<usize, AllocError>
    ensures adds { AddsNoLoad (listed values.old) (listed values.new) }
    ensures counter { IfOk result (λ v. IsOfTurn (listed values.new) v (λ t. meaning.counter range (t / span % range.trips))) }
{
    let iteration = digit(values, span, range.trips)?;
    let step = values.constant(range.step)?;
    let distance = values.two(Op::Mul, iteration, step)?;
    let first = values.constant(range.first)?;
    values.two(Op::Add, distance, first)
}

impl<'p> Draft<'p> {
    /// Returns the draft of a turn in which nothing is done yet.
    fn blank(alloc: Global, arrays: &'p [Array]) -> Result<Draft<'p>, AllocError>
        ensures { IfOk result (λ d. IsBlank arrays.now (draft_of d)) }
    {
        let mut latest = Vec::new(alloc);
        for _ in 0..arrays.len() {
            latest.push(Latest {
                version: 0,
                stored: None,
            })?;
        }
        Ok(Draft {
            alloc,
            arrays,
            counters: Vec::new(alloc),
            values: Values::new(alloc),
            effects: Vec::new(alloc),
            guard: None,
            words: Vec::new(alloc),
            initial: Vec::new(alloc),
            latest,
        })
    }

    /// Enters a loop in an iteration of `span` turns, and returns the number of the turn among these.
    fn enter_loop(&mut self, range: Range, span: u32) -> Result<usize, AllocError>
        ensures { IfOk result (EntersLoop (draft_of self.old) (draft_of self.new) range span) }
    {
        let counter = counter(&mut self.values, range, span)?;
        self.counters.push(counter)?;
        digit(&mut self.values, 1, span)
    }

    /// Translates loops in one another, and the statements of the innermost, where `index` is the number of the turn among
    /// theirs; if `outermost` is true it is the number of the turn.
    fn nest(
        &mut self,
        levels: &[Level],
        body: &[Stmt],
        index: usize,
        outermost: bool,
    ) -> Result<(), AllocError>
        requires formed { IsFormed (draft_of self.now) }
        requires index { IsIndex (draft_of self.now).values index (turns_of (map level_of levels.now)) }
        requires levels { AreQuiet (draft_of self.now).arrays (map level_of levels.now) }
        requires body { AreTypedStmts (draft_of self.now).arrays true (stmts_of body.now) }
        requires apart { AreApart (stmts_inputs (stmts_of body.now)) }
        requires iterate { all_turn (map level_of levels.now) ≡ true }
        requires few { turns_of (map level_of levels.now) ≤ 1000000 }
        requires outermost { outermost ≡ true → IsOfTurn (draft_of self.now).values index (λ t. t) }
        ensures { OnOk result (IsNested (draft_of self.old) (draft_of self.new) index (map level_of levels.now) (stmts_of body.now)) }
    {
        let Some((level, inner)) = levels.split_first() else {
            return self.stmts(body);
        };
        let span = span_of(levels);
        self.before(level.before.as_slice(), index, outermost)?;
        let inner_index = self.enter_loop(level.range, span_of(inner))?;
        self.nest(inner, body, inner_index, false)?;
        self.counters.pop();
        self.edge(level.after.as_slice(), index, span - 1)
    }
}

/// Returns one turn of `program` as values and effects: an iteration of its innermost loop, with the statements before and
/// after those loops that begin or end with it.
pub fn turn_of<'p>(alloc: Global, program: &'p Program) -> Result<Draft<'p>, AllocError>
    requires typed { IsTyped (program_of program.now) }
    ensures { IfOk result (λ d. Turns (program_of program.now) (draft_of d)) }
{
    let mut draft = Draft::blank(alloc, program.arrays.as_slice())?;
    let index = draft.values.add(Value::Turn)?;
    draft.nest(
        program.levels.as_slice(),
        program.body.as_slice(),
        index,
        true,
    )?;
    Ok(draft)
}
