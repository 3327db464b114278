//! Readers of input files. A file that can't be parsed ends the command, with the fault that its reader found.
ghost use Rattle.std.specs.Prelude.{◌≡◌, ◌≤◌, Ok, Err, IfOk, IfErr, length};
ghost use Rattle.cg_model.specs.Array.{IsArch};
ghost use Rattle.cg_model.specs.Canonical.{IsCanonical};
ghost use Rattle.cg_model.specs.Kernel.{IsKernel};
ghost use Rattle.cg_model.specs.Limits.{most_memory};
ghost use Rattle.cg_model.specs.Mapping.{IsShaped};
ghost use Rattle.cg_cause.specs.Allowed.{EndsBy};
ghost use Rattle.cg_effects.specs.Outcome.{file_of};
ghost use Rattle.cg_tiles.specs.Answer.{AreValidBytes};
ghost use Rattle.cg_kernel.specs.Answer as kernels;
ghost use Rattle.cg_mapping.specs.Answer as mappings;
ghost use Rattle.cg_pad.specs.Bytes as images;
ghost use Rattle.cg_bits.specs.Answers as bits;
ghost use Rattle.cg_inputs.specs.Readings.{ReadsArray};
ghost use Rattle.cg_inputs.specs.Sources.{AreMapped, ArePaired};
ghost use Rattle.cg_inputs.specs.Refused.{RefusesArch, RefusesBits, RefusesImage, RefusesKernel, RefusesMapping};

use cg_arch::Arch;
use cg_bits::{BitsFault, Config, read_bits};
use cg_cause::{Cause, Stop};
use cg_effects::File;
use cg_kernel::{KernelFault, read_kernel};
use cg_mapping::{MappingFault, read_mapping};
use cg_model::{Kernel, Mapping};
use cg_pad::{Image, ImageFault, read_image};
use cg_tiles::{TilesFault, read_arch};
use std::alloc::Global;

/// Reads the architecture in `file`. A fault in it ends the call with status 3.
pub fn arch_in(alloc: Global, file: &File) -> Result<Arch, Stop>
    ensures given { IfOk result (AreValidBytes (file_of file.now).bytes) }
    ensures refused { IfErr result (EndsBy (RefusesArch (file_of file.now))) }
    ensures valid { IfOk result IsArch }
{
    match read_arch(alloc, file.bytes.as_slice()) {
        Ok(arch) => Ok(arch),
        Err(TilesFault::Memory) => Err(Stop::Memory),
        Err(fault) => Err(Stop::refused(alloc, file, Cause::Arch(fault))),
    }
}

/// Reads the kernel in `file`. A fault in it ends the call with status 3.
pub fn kernel_in(alloc: Global, file: &File) -> Result<Kernel, Stop>
    ensures given { IfOk result (λ kernel. kernels.answer_of (file_of file.now).bytes ≡ Ok kernel) }
    ensures refused { IfErr result (EndsBy (RefusesKernel (file_of file.now))) }
    ensures valid { IfOk result IsKernel }
{
    match read_kernel(alloc, file.bytes.as_slice()) {
        Ok(kernel) => Ok(kernel),
        Err(KernelFault::Memory) => Err(Stop::Memory),
        Err(fault) => Err(Stop::refused(alloc, file, Cause::Kernel(fault))),
    }
}

/// Reads the mapping of `kernel` to `arch` in `file`. A fault in it ends the call with status 3.
pub fn mapping_in(alloc: Global, arch: &Arch, kernel: &Kernel, file: &File) -> Result<Mapping, Stop>
    ensures given { IfOk result (λ mapping.
        mappings.answer_of arch.now kernel.now (file_of file.now).bytes ≡ Ok mapping) }
    ensures refused { IfErr result (EndsBy (RefusesMapping arch.now kernel.now (file_of file.now))) }
    ensures shaped { IfOk result (λ mapping. IsShaped kernel.now mapping) }
{
    match read_mapping(alloc, arch, kernel, file.bytes.as_slice()) {
        Ok(mapping) => Ok(mapping),
        Err(MappingFault::Memory) => Err(Stop::Memory),
        Err(fault) => Err(Stop::refused(alloc, file, Cause::Mapping(fault))),
    }
}

/// Reads the image in `file`. A fault in it ends the call with status 3.
pub fn image_in(alloc: Global, file: &File) -> Result<Image, Stop>
    ensures given { IfOk result (λ image. images.answer_of (file_of file.now).bytes ≡ Ok image) }
    ensures refused { IfErr result (EndsBy (RefusesImage (file_of file.now))) }
    ensures small { IfOk result (λ image. length image.memory ≤ most_memory) }
{
    match read_image(alloc, file.bytes.as_slice()) {
        Ok(image) => Ok(image),
        Err(ImageFault::Memory) => Err(Stop::Memory),
        Err(fault) => Err(Stop::refused(alloc, file, Cause::Image(fault))),
    }
}

/// Reads the configuration of `arch` in `file`. A fault in it ends the call with status 3.
pub fn config_in(alloc: Global, arch: &Arch, file: &File) -> Result<Config, Stop>
    ensures given { IfOk result (λ config. bits.answer_of arch.now (file_of file.now).bytes ≡ Ok config) }
    ensures refused { IfErr result (EndsBy (RefusesBits arch.now (file_of file.now))) }
    ensures canonical { IfOk result (IsCanonical arch.now) }
{
    match read_bits(alloc, arch, file.bytes.as_slice()) {
        Ok(config) => Ok(config),
        Err(BitsFault::Memory) => Err(Stop::Memory),
        Err(fault) => Err(Stop::refused(alloc, file, Cause::Bits(fault))),
    }
}

/// An architecture and a configuration of it.
#[derive(Drop)]
pub struct Array {
    pub arch: Arch,
    pub config: Config,
}

/// Reads the architecture in the file `arch` and its configuration in `bits`. A fault in one ends the command with
/// status 3.
pub fn array_in(alloc: Global, arch: &File, bits: &File) -> Result<Array, Stop>
    ensures given { IfOk result (λ a. ReadsArray (file_of arch.now) (file_of bits.now) (Ok (a.arch, a.config))) }
    ensures refused { IfErr result (EndsBy (λ o. ReadsArray (file_of arch.now) (file_of bits.now) (Err o))) }
    ensures canonical { IfOk result (λ a. IsCanonical a.arch a.config) }
{
    let array = arch_in(alloc, arch)?;
    let config = config_in(alloc, &array, bits)?;
    Ok(Array {
        arch: array,
        config,
    })
}

/// An architecture and a kernel.
#[derive(Drop)]
pub struct Instance {
    pub arch: Arch,
    pub kernel: Kernel,
}

/// Reads the architecture in the file `arch` and the kernel in `kernel`. A fault in one ends the command with status 3.
pub fn instance_in(alloc: Global, arch: &File, kernel: &File) -> Result<Instance, Stop>
    ensures given { IfOk result (λ i. ArePaired (file_of arch.now) (file_of kernel.now) (Ok (record { arch = i.arch; kernel = i.kernel }))) }
    ensures refused { IfErr result (EndsBy (λ o. ArePaired (file_of arch.now) (file_of kernel.now) (Err o))) }
{
    let array = arch_in(alloc, arch)?;
    let graph = kernel_in(alloc, kernel)?;
    Ok(Instance {
        arch: array,
        kernel: graph,
    })
}

/// A mapping with its architecture and its kernel.
#[derive(Drop)]
pub struct Sources {
    pub arch: Arch,
    pub kernel: Kernel,
    pub mapping: Mapping,
}

/// Reads the architecture in the file `arch`, the kernel in `kernel` and the mapping in `mapping`. A fault in one ends
/// the command with status 3.
pub fn sources_in(
    alloc: Global,
    arch: &File,
    kernel: &File,
    mapping: &File,
) -> Result<Sources, Stop>
    ensures given { IfOk result (λ s. AreMapped (file_of arch.now) (file_of kernel.now) (file_of mapping.now)
        (Ok (record { arch = s.arch; kernel = s.kernel; mapping = s.mapping }))) }
    ensures refused { IfErr result (EndsBy (λ o. AreMapped (file_of arch.now) (file_of kernel.now) (file_of mapping.now) (Err o))) }
    ensures shaped { IfOk result (λ s. IsShaped s.kernel s.mapping) }
{
    let instance = instance_in(alloc, arch, kernel)?;
    let placed = mapping_in(alloc, &instance.arch, &instance.kernel, mapping)?;
    let Instance { arch, kernel } = instance;
    Ok(Sources {
        arch,
        kernel,
        mapping: placed,
    })
}
