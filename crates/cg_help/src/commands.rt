//! The list of commands.

/// The commands and their words, a line for each.
pub const COMMANDS: &str =
    "bench ARCH BITS TURNS IN OUT    writes a Verilog test bench of an array under a configuration
bound ARCH KERNEL               finds the least interval that neither a recurrence nor a class of units excludes
check ARCH KERNEL MAPPING       says whether a mapping is legal
depend KERNEL OUT               writes a kernel with the order edges that its memory accesses need
emit ARCH KERNEL MAPPING OUT    writes the bits of a legal mapping
flat ARCH OUT                   writes the flat text of an architecture
image TEXT OUT                  writes the image that a text of words describes
loop SOURCE OUT                 compiles a loop in source form to a kernel
search ARCH KERNEL OUT          searches for a mapping near the least interval, and writes its bits (--ii N, --seed N, --moves N, --mapping FILE)
map ARCH KERNEL OUT             searches for a mapping by a simple random walk, and writes its bits (--ii N, --seed N, --moves N, --mapping FILE)
migrate ARCH BITS OUT           converts bits of the first format to the current one
run ARCH BITS TURNS IN OUT      runs an array, or a netlist of it, under a configuration from an image to an image (--netlist FILE)
show ARCH KERNEL MAPPING [OUT]  prints a legal mapping as a table, and writes its picture
simplify KERNEL OUT             writes a kernel with fewer nodes that leaves the same memory and streams (--copies, --share)
trial SEED                      maps a random kernel over a hub, and runs the array and the kernel
turns KERNEL TURNS              runs TURNS iterations of a kernel without memory
turns KERNEL TURNS IN OUT       runs TURNS iterations of a kernel from an image to an image
verilog ARCH OUT                writes the netlist of an array as structural Verilog
violations ARCH KERNEL MAPPING  lists every violation of a mapping
why ARCH KERNEL                 finds the least interval that no reason excludes, and what excludes those below it
words IMAGE                     prints an image as a text of words
";
