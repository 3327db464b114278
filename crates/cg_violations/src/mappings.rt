//! A mapping with its kernel and its architecture.

use cg_arch::Arch;
use cg_model::{Kernel, Mapping};

/// A mapping of a kernel on an architecture.
#[derive(Clone, Copy)]
pub(crate) struct Mapped<'a> {
    pub arch: &'a Arch,
    pub kernel: &'a Kernel,
    pub mapping: &'a Mapping,
}
