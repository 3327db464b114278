//! What the input files of a command contain: an architecture, a kernel, a mapping, an image or a configuration, or
//! else the cause for which the file is refused.
#![tactic(auto)]

mod readers;

pub use cg_arch::Arch;
pub use cg_bits::Config;
pub use cg_cause::Stop;
pub use cg_check::LegalMapping;
pub use cg_effects::{File, Outcome};
pub use cg_model::{Kernel, Mapping};
pub use cg_pad::Image;
pub use readers::{
    Array, Instance, Sources, arch_in, array_in, config_in, image_in, instance_in, kernel_in,
    mapping_in, sources_in,
};
