//! Reads the loop body in a file. A file without a valid loop body ends the call with the outcome that refuses it.
ghost use Rattle.std.specs.Prelude.{IfOk, IfErr};
ghost use Rattle.cg_cause.specs.Allowed.{EndsBy};
ghost use Rattle.cg_effects.specs.Outcome.{file_of};
ghost use Rattle.cg_loop_syntax.specs.Body.{body_of};
ghost use Rattle.cg_loop_reader.specs.Answer.{Spells};
ghost use Rattle.cg_command_files.specs.Loop.{RefusesLoop};

use cg_cause::{Cause, Stop};
use cg_effects::File;
use cg_loop::{LoopBody, LoopFault, read_loop};
use std::alloc::Global;

/// Reads the loop body in `file`. A fault in it ends the call with status 3.
pub(crate) fn body_in(alloc: Global, file: &File) -> Result<LoopBody, Stop>
    ensures spelled { IfOk result (λ body. Spells (file_of file.now).bytes (body_of body)) }
    ensures refused { IfErr result (EndsBy (RefusesLoop (file_of file.now))) }
{
    match read_loop(alloc, file.bytes.as_slice()) {
        Ok(body) => Ok(body),
        Err(LoopFault::Memory) => Err(Stop::Memory),
        Err(fault) => Err(Stop::refused(alloc, file, Cause::Loop(fault))),
    }
}
