//! Loops in one another.
ghost use Rattle.std.specs.Prelude.{◌≡◌, ◌≢◌, ◌≤◌, Ok, Err, IfOk, IfErr};
ghost use Rattle.cg_c_syntax.specs.Tree.{Holds};
ghost use Rattle.cg_c_syntax.specs.Written as written;
ghost use Rattle.cg_c_check.specs.Check as spec;
ghost use Rattle.cg_c_check.specs.Loops.{most_turns};
ghost use Rattle.cg_c_check.specs.Nests.{nested_of};
ghost use Rattle.cg_c_check.specs.States.{state_of};

use crate::checker::Checker;
use crate::fault::CheckFault;
use crate::loops::{MOST_LOOPS, range_of};
use crate::names::Meaning;
use crate::program::{Level, Range, Stmt};
use cg_c_syntax::{Loop as LoopTree, Nest as NestTree, Stmt as StmtTree};

/// The levels of a nest from the outermost on, and the statements of the innermost loop.
#[derive(Drop)]
pub(crate) struct Nested {
    pub levels: Vec<Level>,
    pub body: Vec<Stmt>,
}

impl<'s> Checker<'s> {
    /// Returns the typed nest of `tree`, where `depth` loops of `turns` turns are around.
    #[cycle(nest)]
    fn nest(&mut self, depth: u32, turns: u32, tree: &'s NestTree) -> Result<Nested, CheckFault>
        requires turns { turns ≤ most_turns }
        ensures ok { IfOk result (λ x. spec.nest depth turns (written.nest_of tree.now) (state_of self.old) ≡ Ok (nested_of x, state_of self.new)) }
        ensures err { IfErr result (λ fault. fault ≢ CheckFault.Memory → spec.nest depth turns (written.nest_of tree.now) (state_of self.old) ≡ Err fault) }
    {
        match &tree.inner {
            None => Ok(Nested {
                levels: Vec::new(self.alloc),
                body: self.stmts(true, &tree.before)?,
            }),
            Some(inner) => self.holds(depth, turns, inner, &tree.before, &tree.after),
        }
    }

    /// Returns the typed nest of the loop `inner` between `before` and `after`, where `depth` loops of `turns` turns are
    /// around.
    #[cycle(nest)]
    pub fn holds(
        &mut self,
        depth: u32,
        turns: u32,
        inner: &'s LoopTree,
        before: &'s [StmtTree],
        after: &'s [StmtTree],
    ) -> Result<Nested, CheckFault>
        requires turns { turns ≤ most_turns }
        ensures ok { IfOk result (λ x. spec.nest depth turns (Holds (written.stmts_of before.now) (written.loop_of inner.now) (written.stmts_of after.now)) (state_of self.old) ≡ Ok (nested_of x, state_of self.new)) }
        ensures err { IfErr result (λ fault. fault ≢ CheckFault.Memory → spec.nest depth turns (Holds (written.stmts_of before.now) (written.loop_of inner.now) (written.stmts_of after.now)) (state_of self.old) ≡ Err fault) }
    {
        let before = self.stmts(false, before)?;
        let visible = self.names.count();
        let (range, nested) = self.looped(depth, turns, inner)?;
        self.names.forget(visible);
        let after = self.stmts(false, after)?;
        let level = Level {
            before,
            range,
            after,
        };
        let Nested { mut levels, body } = nested;
        levels.insert(0, level)?;
        Ok(Nested { levels, body })
    }

    /// Returns the range of the loop `tree` and the typed nest in it, where `depth` loops of `turns` turns are around.
    #[cycle(nest)]
    fn looped(
        &mut self,
        depth: u32,
        turns: u32,
        tree: &'s LoopTree,
    ) -> Result<(Range, Nested), CheckFault>
        requires turns { turns ≤ most_turns }
        ensures ok { IfOk result (λ x. spec.looped depth turns (written.loop_of tree.now) (state_of self.old) ≡ Ok ((x.0, nested_of x.1), state_of self.new)) }
        ensures err { IfErr result (λ fault. fault ≢ CheckFault.Memory → spec.looped depth turns (written.loop_of tree.now) (state_of self.old) ≡ Err fault) }
    {
        if depth >= MOST_LOOPS {
            return Err(CheckFault::BadLoop(tree.place));
        }
        let range = range_of(&self.names, turns, tree)?;
        self.names.declare(&tree.counter, Meaning::Counter(depth))?;
        let nested = self.nest(depth + 1, turns * range.trips, &tree.body)?;
        Ok((range, nested))
    }
}
