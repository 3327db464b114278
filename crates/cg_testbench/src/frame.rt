//! The fixed parts of every bench.

/// The text before the modules of cells.
pub(crate) const CELLS: &str =
    "// Beside it goes the array as structural Verilog. +vcd writes waves to cgra_bench.vcd, +trace prints a line a cycle.

`ifndef CGRA_OWN_CELLS
";

/// The text after the modules of cells.
pub(crate) const NO_MORE_CELLS: &str = "
`endif

";

/// The clock and the counters, up to the last slot.
pub(crate) const TIME: &str = "
  reg clk;
  reg rst;
  reg [31:0] cycle;
  reg [5:0] slot;
  reg [31:0] round;
  wire [5:0] next_slot = slot == ";

/// The array, the effects of units on the memory and the streams, and the head of a line of the trace.
pub(crate) const TASKS: &str = "  cgra_array array (.clk(clk), .rst(rst));

  task access(input store, input [31:0] address, input [31:0] word);
    if (address >= words) outside = outside + 1;
    else if (store) memory[address] <= word;
  endtask

  task send(input [3:0] stream, input [31:0] word);
    begin
      if (sent[stream] < room) outputs[stream * room + sent[stream]] = word;
      sent[stream] = sent[stream] + 1;
    end
  endtask

  task trace;
    begin
      $write(\"cycle %0d\", cycle);
";

/// The actions when a cycle ends, up to those of the units.
pub(crate) const EDGE: &str = "      $write(\"\\n\");
    end
  endtask

  // the end of a cycle, unit after unit
  reg traces;
  always @(posedge clk) if (!rst) begin
    if (traces) trace;
";

/// The time of the next cycle.
pub(crate) const NEXT: &str = "    cycle <= cycle + 1;
    slot <= next_slot;
    if (next_slot == 0) round <= round + 1;
  end

";

/// The start of the run, up to the configuration, which is set after each cell has cleared its tables.
pub(crate) const START: &str = "  integer i;
  integer j;
  integer differences;
  initial begin
    if ($test$plusargs(\"vcd\")) begin
      $dumpfile(\"cgra_bench.vcd\");
      $dumpvars(1, cgra_bench);
      $dumpvars(1, array);
    end
    traces = $test$plusargs(\"trace\");
    clk = 0;
    rst = 1;
    cycle = 0;
    slot = 0;
    round = 0;
    outside = 0;
    for (i = 0; i < words; i = i + 1) memory[i] = 0;
    for (i = 0; i < 16 * depth; i = i + 1) inputs[i] = 0;
    for (i = 0; i < 16 * room; i = i + 1) begin
      outputs[i] = 0;
      left_outputs[i] = 0;
    end
    for (i = 0; i < 16; i = i + 1) begin
      sent[i] = 0;
      left_sent[i] = 0;
    end
    #1;

    // the configuration
";

/// The text before the image.
pub(crate) const IMAGE: &str = "
    // the image
";

/// The text before the expected result.
pub(crate) const LEFT: &str = "
    // what is to be left: the words that change, the streams, the accesses outside the memory
    for (i = 0; i < words; i = i + 1) left_memory[i] = memory[i];
";

/// The text before the run.
pub(crate) const RUN: &str = "
    // an edge under reset, and then the run
    #4 clk = 1;
    #5 clk = 0;
    rst = 0;
";

/// A cycle, and the comparison with the expected result.
pub(crate) const CHECKS: &str = "      #5 clk = 1;
      #5 clk = 0;
    end

    // what is left
    differences = 0;
    for (i = 0; i < words; i = i + 1) if (memory[i] !== left_memory[i]) begin
      if (differences < 8) $display(\"differs memory %0d is %0d expected %0d\", i, memory[i], left_memory[i]);
      differences = differences + 1;
    end
    for (i = 0; i < 16; i = i + 1) if (sent[i] !== left_sent[i]) begin
      if (differences < 8) $display(\"differs stream %0d length is %0d expected %0d\", i, sent[i], left_sent[i]);
      differences = differences + 1;
    end
    for (i = 0; i < 16; i = i + 1) for (j = 0; j < left_sent[i]; j = j + 1) if (outputs[i * room + j] !== left_outputs[i * room + j]) begin
      if (differences < 8) $display(\"differs stream %0d word %0d is %0d expected %0d\", i, j, outputs[i * room + j], left_outputs[i * room + j]);
      differences = differences + 1;
    end
    if (outside !== left_outside) begin
      if (differences < 8) $display(\"differs outside is %0d expected %0d\", outside, left_outside);
      differences = differences + 1;
    end
    if (differences != 0) $fatal(1);
    $display(\"pass cycles %0d\", cycle);
    $finish;
  end
endmodule
";
