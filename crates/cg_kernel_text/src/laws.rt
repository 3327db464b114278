//! The law of the texts of kernels. The function here has an empty body: its clause states the law.
ghost use Rattle.std.specs.Prelude.{◌≡◌, Ok};
ghost use Rattle.cg_model.specs.Kernel.{Kernel, IsKernel};
ghost use Rattle.cg_kernel.specs.Answer.{answer_of};
ghost use Rattle.cg_kernel_text.specs.Printed.{kernel_text};

/// States that the text of each valid kernel reads back as the kernel.
pub fn text_reads_back()
    ensures { (K : Kernel) → IsKernel K → answer_of (kernel_text K) ≡ Ok K }
{}
