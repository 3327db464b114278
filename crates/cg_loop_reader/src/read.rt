//! Reading loop bodies from bytes.
ghost use Rattle.std.specs.Prelude.{◌≡◌, ◌≢◌, [], IfOk, IfErr};
ghost use Rattle.cg_loop_syntax.specs.declared.fault.LoopFault as faults;
ghost use Rattle.cg_loop_syntax.specs.Loop as loops;
ghost use Rattle.cg_loop_syntax.specs.Body.{body_of};
ghost use Rattle.cg_loop_reader.specs.Answer as spec;
ghost use Rattle.cg_loop_reader.specs.Left.{noted};
ghost use Rattle.cg_loop_reader.specs.Whole.{FindsText, MissesText};

use crate::fault::Misfit;
use crate::judging::judge;
use crate::reader::Reader;
use cg_loop_syntax::{Decl, LoopBody, LoopFault, Stmt};
use cg_model::Items;
use std::alloc::Global;

/// Reads the loop body that `bytes` encode.
pub fn read_loop(alloc: Global, bytes: &[u8]) -> Result<LoopBody, LoopFault>
    // The bytes encode the result.
    ensures found { IfOk result (λ body. spec.Spells bytes.now (body_of body)) }
    // A body that the bytes encode is the result, unless memory runs out.
    ensures only { (P : loops.Body) → spec.Spells bytes.now P → spec.Gives P result }
    // The fault is one that applies to the bytes.
    ensures fault { IfErr result (λ e. spec.IsFault e bytes.now) }
    // A fault that applies is the result, unless memory runs out.
    ensures exact { (e : faults.LoopFault) → e ≢ LoopFault.Memory → spec.IsFault e bytes.now → spec.GivesFault e result }
{
    read(alloc, bytes)
}

/// Reads the loop body that `bytes` encode. The contract of `read_loop` follows from these two clauses.
fn read(alloc: Global, bytes: &[u8]) -> Result<LoopBody, LoopFault>
    ensures found { IfOk result (λ body. spec.Spells bytes.now (body_of body)) }
    ensures fault { IfErr result (λ e. spec.IsFault e bytes.now) }
{
    let mut reader = Reader::new(alloc, bytes);
    match reader.text(alloc) {
        Ok(parts) => judged(alloc, &reader, parts, bytes),
        Err(Misfit::Memory) => Err(LoopFault::Memory),
        Err(Misfit::Text) => Err(LoopFault::Text(reader.place())),
    }
}

/// The declarations and the statements of a text.
#[derive(Drop)]
pub(crate) struct Parts {
    pub decls: Vec<Decl>,
    pub stmts: Vec<Stmt>,
}

/// Returns the loop body of `parts`, if the names and the ports that `reader` recorded in `bytes` have no fault.
fn judged(
    alloc: Global,
    reader: &Reader<'_>,
    parts: Parts,
    bytes: &[u8],
) -> Result<LoopBody, LoopFault>
    requires { spec.IsReadTo parts bytes.now (noted reader.now) }
    ensures found { IfOk result (λ body. spec.Spells bytes.now (body_of body)) }
    ensures fault { IfErr result (λ e. spec.IsFault e bytes.now) }
{
    let _ = bytes;
    judge(alloc, &reader.uses)?;
    let decls = Items::new(parts.decls);
    let stmts = Items::new(parts.stmts);
    Ok(LoopBody { decls, stmts })
}

impl<'a> Reader<'a> {
    ghost use Rattle.std.specs.Prelude.{◌≡◌, IfOk, IfErr};
    ghost use Rattle.cg_loop_reader.specs.Whole.{FindsText, MissesText};

    /// Reads a whole text, and returns its declarations and statements.
    fn text(&mut self, alloc: Global) -> Result<Parts, Misfit>
        ensures ok { IfOk result (λ parts. FindsText parts self.old self.new) }
        ensures misses { IfErr result (λ e. MissesText e self.old self.new) }
        ensures same { self.new.bytes ≡ self.old.bytes }
    {
        self.exactly(b"cgl1")?;
        self.exactly(b";")?;
        let decls = self.decls(alloc)?;
        let stmts = self.stmts(alloc)?;
        Ok(Parts { decls, stmts })
    }
}
