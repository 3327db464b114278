//! Reads a kernel from bytes.
ghost use Rattle.std.specs.Prelude.{◌≡◌, Some, None, IfOk, IsOkAnd};
ghost use Rattle.serde_json.specs.View.{view};
ghost use Rattle.cg_model.specs.Answers.{Gives};
ghost use Rattle.cg_model.specs.Kernel.{IsKernel};
ghost use Rattle.cg_kernel.specs.Answer.{answer_of, judged, answer_in, answer_written};
ghost use Rattle.cg_kernel.specs.Numbers.{IsIndex};
ghost use Rattle.cg_kernel.specs.Words.{HasAllWords};
ghost use Rattle.cg_kernel.specs.Written.{written_of};

use crate::build::kernel_of;
use crate::fault::KernelFault;
use crate::first::first_fault;
use crate::reading;
use crate::written::WrittenKernel;
use cg_json::{JsonFault, json_value};
use cg_model::Kernel;
use cg_reading::{Misfit, Numbers, numbers_of};
use serde_json::Value;
use std::alloc::Global;

/// Returns the kernel that `bytes` describe, or the lowest fault that applies, at its first place.
pub fn read_kernel(alloc: Global, bytes: &[u8]) -> Result<Kernel, KernelFault>
    ensures answer { Gives KernelFault.Memory result (answer_of bytes.now) }
    ensures valid { IfOk result IsKernel }
{
    match json_value(alloc, bytes) {
        Ok(value) => kernel_in(alloc, &value),
        Err(JsonFault::NotJson) => Err(KernelFault::NotJson),
        Err(JsonFault::Memory) => Err(KernelFault::Memory),
    }
}

fn kernel_in(alloc: Global, value: &Value) -> Result<Kernel, KernelFault>
    ensures answer { Gives KernelFault.Memory result (answer_written (written_of (view value.now))) }
    ensures valid { IfOk result IsKernel }
{
    match reading::written_of(alloc, value) {
        Ok(written) => judged(alloc, &written),
        Err(Misfit::WrongShape(place)) => Err(KernelFault::WrongShape(place)),
        Err(Misfit::Memory) => Err(KernelFault::Memory),
    }
}

fn judged(alloc: Global, written: &WrittenKernel) -> Result<Kernel, KernelFault>
    requires { HasAllWords written.now }
    ensures answer { Gives KernelFault.Memory result (judged written.now) }
    ensures valid { IfOk result IsKernel }
{
    let numbers = numbers_of(alloc, written.nodes.as_slice())?;
    judged_by(alloc, &numbers, written)
}

fn judged_by(
    alloc: Global,
    numbers: &Numbers,
    written: &WrittenKernel,
) -> Result<Kernel, KernelFault>
    requires index { IsIndex numbers.now written.now.nodes }
    requires words { HasAllWords written.now }
    ensures answer { Gives KernelFault.Memory result (judged written.now) }
    ensures valid { IfOk result IsKernel }
{
    if let Some(fault) = first_fault(numbers, written) {
        return Err(fault);
    }
    Ok(kernel_of(alloc, numbers, written)?)
}
