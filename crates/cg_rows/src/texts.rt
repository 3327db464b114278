//! Kernels and mappings as text.

use cg_arch::Arch;
use cg_kernel_text::print_kernel;
use cg_mapping::{MappingFault, has_shape, print_mapping, read_mapping};
use cg_model::Kernel;
use std::alloc::{AllocError, Global};

/// Checks whether `kernel` is printed as `text`.
pub(crate) fn prints(alloc: Global, kernel: &Kernel, text: &[u8]) -> Result<bool, AllocError> {
    Ok(print_kernel(alloc, kernel)?.as_slice() == text)
}

/// Checks whether `bytes` describe a mapping that is printed as `text`.
pub(crate) fn prints_mapping(
    alloc: Global,
    arch: &Arch,
    kernel: &Kernel,
    bytes: &[u8],
    text: &[u8],
) -> Result<bool, AllocError> {
    match read_mapping(alloc, arch, kernel, bytes) {
        Ok(mapping) => Ok(print_mapping(alloc, arch, kernel, &mapping)?.as_slice() == text),
        Err(MappingFault::Memory) => Err(AllocError),
        Err(_) => Ok(false),
    }
}

/// Checks whether the mapping of `kernel` in `bytes` is recognised as having the shape of `kernel`, and not that of
/// `other`.
pub(crate) fn tells_shape(
    alloc: Global,
    arch: &Arch,
    kernel: &Kernel,
    other: &Kernel,
    bytes: &[u8],
) -> Result<bool, AllocError> {
    match read_mapping(alloc, arch, kernel, bytes) {
        Ok(mapping) => {
            Ok(has_shape(alloc, kernel, &mapping)? && !has_shape(alloc, other, &mapping)?)
        }
        Err(MappingFault::Memory) => Err(AllocError),
        Err(_) => Ok(false),
    }
}
