//! Kernels: their file format and its rules.
#![tactic(auto)]

mod build;
mod fault;
mod first;
mod read;
mod reading;
mod rule;
mod rules;
mod texts;
mod written;

pub use cg_model::{Items, Kernel, Name, Node, Operand, Operands, OrderEdge, Words};
pub use cg_word::Op;
pub use fault::{KernelFault, KernelPlace};
pub use read::read_kernel;
pub use reading::written_of;
pub use rule::Rule;
pub use rules::{applies_to_edge, applies_to_file, applies_to_node, op_of};
pub use texts::kernel_fault_text;
pub use written::{Format, WrittenArg, WrittenEdge, WrittenKernel, WrittenNode};
