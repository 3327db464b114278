//! The module of a unit's cell.
ghost use Rattle.std.specs.Prelude.{◌≡◌, IfOk, string_bytes, flat_map};
ghost use Rattle.cg_list_laws.specs.Below.{lists_below};
ghost use Rattle.cg_word.specs.Word.{all_ops};
ghost use Rattle.cg_testbench.specs.Pieces as pieces;
ghost use Rattle.cg_testbench.specs.Unit as spec;

use crate::pieces::{argument_letter, port_input, port_letter, port_name};
use cg_word::Op;
use std::alloc::{AllocError, Global};

/// The configuration of a unit in each slot, apart from its arguments.
pub(crate) const FIELDS: &str = "  reg [5:0] op [0:63];
  reg [15:0] stage [0:63];
  reg [3:0] port [0:63];
  reg [31:0] immediate [0:63];
";

/// The current work of a unit in a cycle, apart from its arguments.
pub(crate) const WORK: &str =
    "  // the work of this cycle: from the round of its stage on, a turn a round
  wire [5:0] slot = cgra_bench.slot;
  wire [5:0] code = op[slot];
  wire [3:0] stream = port[slot];
  wire [31:0] turn = cgra_bench.round - stage[slot];
  wire active = code != 0 && cgra_bench.round >= stage[slot] && turn < cgra_bench.turns;
";

/// The word that an input takes.
pub(crate) const TAKEN: &str = "  // the word of the turn in its stream, 0 past the end
  wire [31:0] taken = turn < cgra_bench.depth ? cgra_bench.inputs[stream * cgra_bench.depth + turn] : 0;

";

/// The effects of a unit on the memory and the streams, except for the word that it stores or sends.
pub(crate) const EFFECTS: &str =
    "  // guarded operations act only where their first argument isn't 0
  wire acts = active && (code < 23 || x != 0);
  wire accesses = acts && (code == 20 || code == 21 || code == 23 || code == 24);
  wire stores = acts && (code == 21 || code == 24);
  wire sends = acts && (code == 22 || code == 25);
  wire [31:0] address = code < 23 ? x : y;
  wire [31:0] word =
";

/// The word that a load takes.
pub(crate) const LOADED: &str =
    "  wire [31:0] loaded = address < cgra_bench.words ? cgra_bench.memory[address] : 0;
";

/// Checks whether `operations`, with bit k for the operation of code k, include `op`.
fn offers(operations: u32, op: Op) -> bool
    ensures { result ≡ spec.offers operations op }
{
    (operations >> op.code()) & 1 == 1
}

/// Returns the name of `op` after a blank where `operations` include it, and else nothing.
fn op_word(alloc: Global, operations: u32, op: Op) -> Result<String, AllocError>
    ensures { IfOk result (λ text. string_bytes text ≡ spec.op_word operations op) }
{
    if offers(operations, op) {
        let name = op.name();
        format!(in alloc; " {name}")
    } else {
        Ok(String::new(alloc))
    }
}

/// Returns the names of `operations`, each after a blank.
fn op_words(alloc: Global, operations: u32) -> Result<String, AllocError>
    ensures { IfOk result (λ text. string_bytes text ≡ spec.op_words operations) }
{
    let mut text = String::new(alloc);
    for op in &Op::ALL {
        let word = op_word(alloc, operations, *op)?;
        text.push_str(word.as_str())?;
    }
    Ok(text)
}

// ---- what it keeps of the configuration

/// Returns the tables of argument `argument`.
fn argument_tables(alloc: Global, argument: u32) -> Result<String, AllocError>
    ensures { IfOk result (λ text. string_bytes text ≡ spec.argument_tables argument) }
{
    let letter = port_letter(argument);
    format!(in alloc;
        "  reg fixed_{letter} [0:63];\n  reg [2:0] count_{letter} [0:63];\n  reg [31:0] first_{letter} [0:255];\n"
    )
}

/// Returns the statements that set a slot's entries for argument `argument` to 0.
fn argument_zeros(alloc: Global, argument: u32) -> Result<String, AllocError>
    ensures { IfOk result (λ text. string_bytes text ≡ spec.argument_zeros argument) }
{
    let letter = port_letter(argument);
    format!(in alloc; "      fixed_{letter}[i] = 0;\n      count_{letter}[i] = 0;\n")
}

/// Returns the statements that set the initial words of argument `argument` to 0.
fn word_zeros(alloc: Global, argument: u32) -> Result<String, AllocError>
    ensures { IfOk result (λ text. string_bytes text ≡ spec.word_zeros argument) }
{
    let letter = port_letter(argument);
    format!(in alloc; "    for (i = 0; i < 256; i = i + 1) first_{letter}[i] = 0;\n")
}

/// Returns the tables of the arguments of a unit with `ports` ports.
fn all_argument_tables(alloc: Global, ports: u32) -> Result<String, AllocError>
    ensures { IfOk result (λ text. string_bytes text ≡ lists_below spec.argument_tables ports) }
{
    let mut text = String::new(alloc);
    for argument in 0..ports {
        let tables = argument_tables(alloc, argument)?;
        text.push_str(tables.as_str())?;
    }
    Ok(text)
}

/// Returns the statements that set a slot's entries for the arguments of a unit with `ports` ports to 0.
fn all_argument_zeros(alloc: Global, ports: u32) -> Result<String, AllocError>
    ensures { IfOk result (λ text. string_bytes text ≡ lists_below spec.argument_zeros ports) }
{
    let mut text = String::new(alloc);
    for argument in 0..ports {
        let zeros = argument_zeros(alloc, argument)?;
        text.push_str(zeros.as_str())?;
    }
    Ok(text)
}

/// Returns the statements that set the initial words of the arguments of a unit with `ports` ports to 0.
fn all_word_zeros(alloc: Global, ports: u32) -> Result<String, AllocError>
    ensures { IfOk result (λ text. string_bytes text ≡ lists_below spec.word_zeros ports) }
{
    let mut text = String::new(alloc);
    for argument in 0..ports {
        let zeros = word_zeros(alloc, argument)?;
        text.push_str(zeros.as_str())?;
    }
    Ok(text)
}

/// Returns the tables of a unit with `ports` ports, all 0 at first.
fn tables(alloc: Global, ports: u32) -> Result<String, AllocError>
    ensures { IfOk result (λ text. string_bytes text ≡ spec.tables ports) }
{
    let fields = FIELDS;
    let tables = all_argument_tables(alloc, ports)?;
    let zeros = all_argument_zeros(alloc, ports)?;
    let words = all_word_zeros(alloc, ports)?;
    format!(in alloc;
        "  // the configuration, by slot: an operation of 0 is none\n{fields}{tables}  integer i;\n  initial begin\n    for (i = 0; i < 64; i = i + 1) begin\n      op[i] = 0;\n      stage[i] = 0;\n      port[i] = 0;\n      immediate[i] = 0;\n{zeros}    end\n{words}  end\n"
    )
}

// ---- what it does in a cycle

/// Returns the word that a unit with a port for argument `argument` takes: the immediate, or the initial word of the
/// iteration, or the word on the port.
fn argument_wire(alloc: Global, argument: u32) -> Result<String, AllocError>
    ensures { IfOk result (λ text. string_bytes text ≡ spec.argument_wire argument) }
{
    let word = argument_letter(argument);
    let port = port_letter(argument);
    format!(in alloc;
        "  wire [31:0] {word} = fixed_{port}[slot] ? immediate[slot] : turn < count_{port}[slot] ? first_{port}[4 * slot + turn] : {port};\n"
    )
}

/// Returns the word that a unit with no port for argument `argument` takes: 0.
fn no_argument_wire(alloc: Global, argument: u32) -> Result<String, AllocError>
    ensures { IfOk result (λ text. string_bytes text ≡ spec.no_argument_wire argument) }
{
    let word = argument_letter(argument);
    format!(in alloc; "  wire [31:0] {word} = 0;\n")
}

/// Returns the word that a unit with `ports` ports takes for argument `argument`.
fn argument_of(alloc: Global, ports: u32, argument: u32) -> Result<String, AllocError>
    ensures { IfOk result (λ text. string_bytes text ≡ spec.argument_of ports argument) }
{
    if argument < ports {
        argument_wire(alloc, argument)
    } else {
        no_argument_wire(alloc, argument)
    }
}

/// Returns the words that a unit with `ports` ports takes for three arguments.
fn three_arguments(alloc: Global, ports: u32) -> Result<String, AllocError>
    ensures { IfOk result (λ text. string_bytes text ≡ lists_below (spec.argument_of ports) 3) }
{
    let mut text = String::new(alloc);
    for argument in 0..3 {
        let word = argument_of(alloc, ports, argument)?;
        text.push_str(word.as_str())?;
    }
    Ok(text)
}

/// Returns the operands of the work of a unit with `ports` ports in a cycle.
fn arguments(alloc: Global, ports: u32) -> Result<String, AllocError>
    ensures { IfOk result (λ text. string_bytes text ≡ spec.arguments ports) }
{
    let work = WORK;
    let words = three_arguments(alloc, ports)?;
    format!(in alloc; "{work}{words}\n")
}

/// Returns the word that an input takes where `operations` include one, and else nothing.
fn taken(operations: u32) -> &'static str
    ensures { result.now ≡ spec.taken operations }
{
    if offers(operations, Op::Input) {
        TAKEN
    } else {
        ""
    }
}

/// Checks whether `operations` include one that reads the memory.
fn loads(operations: u32) -> bool
    ensures { result ≡ spec.loads operations }
{
    offers(operations, Op::Load) || offers(operations, Op::LoadIf)
}

/// Returns the word that a load takes where `operations` include one, and else nothing.
fn loaded(operations: u32) -> &'static str
    ensures { result.now ≡ spec.loaded operations }
{
    if loads(operations) { LOADED } else { "" }
}

/// Returns the word that `op` stores or sends where it does so and `operations` include it, and else nothing.
fn word_line(alloc: Global, operations: u32, op: Op) -> Result<String, AllocError>
    ensures { IfOk result (λ text. string_bytes text ≡ spec.word_line operations op) }
{
    if offers(operations, op) && (op.is_store() || op.is_output()) {
        let code = op.code();
        let word = argument_letter(op.last_arg() as u32);
        let name = op.name();
        format!(in alloc; "    code == {code} ? {word} : // {name}\n")
    } else {
        Ok(String::new(alloc))
    }
}

/// Returns the words that `operations` store or send.
fn word_lines(alloc: Global, operations: u32) -> Result<String, AllocError>
    ensures { IfOk result (λ text. string_bytes text ≡ flat_map (spec.word_line operations) all_ops) }
{
    let mut text = String::new(alloc);
    for op in &Op::ALL {
        let line = word_line(alloc, operations, *op)?;
        text.push_str(line.as_str())?;
    }
    Ok(text)
}

/// Returns the effects of a unit with `operations` on the memory and the streams.
fn effects(alloc: Global, operations: u32) -> Result<String, AllocError>
    ensures { IfOk result (λ text. string_bytes text ≡ spec.effects operations) }
{
    let taken = taken(operations);
    let effects = EFFECTS;
    let words = word_lines(alloc, operations)?;
    let loaded = loaded(operations);
    format!(in alloc; "{taken}{effects}{words}    0;\n{loaded}")
}

/// Returns the value of `op` on x, y and z.
fn value_of(op: Op) -> &'static str
    ensures { result.now ≡ spec.value_of op }
{
    match op {
        Op::Const => "x",
        Op::Iter => "turn",
        Op::Input => "taken",
        Op::Add => "x + y",
        Op::Sub => "x - y",
        Op::Mul => "x * y",
        Op::And => "x & y",
        Op::Or => "x | y",
        Op::Xor => "x ^ y",
        Op::Shl => "x << y[4:0]",
        Op::Shr => "x >> y[4:0]",
        Op::Sar => "$signed(x) >>> y[4:0]",
        Op::Eq => "x == y",
        Op::Ne => "x != y",
        Op::Lts => "$signed(x) < $signed(y)",
        Op::Ltu => "x < y",
        Op::Mins => "$signed(y) < $signed(x) ? y : x",
        Op::Maxs => "$signed(x) < $signed(y) ? y : x",
        Op::Select => "x != 0 ? y : z",
        Op::Load => "loaded",
        Op::LoadIf => "x != 0 ? loaded : 0",
        Op::Store | Op::Output | Op::StoreIf | Op::OutputIf => "0",
    }
}

/// Returns the value of `op` where it has one and `operations` include it, and else nothing.
fn value_line(alloc: Global, operations: u32, op: Op) -> Result<String, AllocError>
    ensures { IfOk result (λ text. string_bytes text ≡ spec.value_line operations op) }
{
    if offers(operations, op) && op.has_value() {
        let code = op.code();
        let value = value_of(op);
        let name = op.name();
        format!(in alloc; "    {code}: value = {value}; // {name}\n")
    } else {
        Ok(String::new(alloc))
    }
}

/// Returns the values of `operations`, case by case.
fn value_lines(alloc: Global, operations: u32) -> Result<String, AllocError>
    ensures { IfOk result (λ text. string_bytes text ≡ flat_map (spec.value_line operations) all_ops) }
{
    let mut text = String::new(alloc);
    for op in &Op::ALL {
        let line = value_line(alloc, operations, *op)?;
        text.push_str(line.as_str())?;
    }
    Ok(text)
}

/// Returns the value of each operation of `operations`.
fn values(alloc: Global, operations: u32) -> Result<String, AllocError>
    ensures { IfOk result (λ text. string_bytes text ≡ spec.values operations) }
{
    let lines = value_lines(alloc, operations)?;
    format!(in alloc;
        "\n  // the value of each operation\n  reg [31:0] value;\n  always @* case (code)\n{lines}    default: value = 0;\n  endcase\n\n"
    )
}

/// Returns the register of the work that was begun one cycle more than `cycles` ago.
fn stage_register(alloc: Global, cycles: u32) -> Result<String, AllocError>
    ensures { IfOk result (λ text. string_bytes text ≡ spec.stage_register cycles) }
{
    let next = u64::from(cycles) + 1;
    format!(in alloc; "  reg [31:0] q{next};\n")
}

/// Returns the assignment to the register of the work that was begun one cycle more than `cycles` ago, at a clock edge.
fn stage_step(alloc: Global, cycles: u32) -> Result<String, AllocError>
    ensures { IfOk result (λ text. string_bytes text ≡ spec.stage_step cycles) }
{
    if cycles == 0 {
        String::from_str(alloc, "    q1 <= rst || !active ? 0 : value;\n")
    } else {
        let next = u64::from(cycles) + 1;
        format!(in alloc; "    q{next} <= rst ? 0 : q{cycles};\n")
    }
}

/// Returns the registers of a unit with the latency `latency`.
fn all_stage_registers(alloc: Global, latency: u32) -> Result<String, AllocError>
    ensures { IfOk result (λ text. string_bytes text ≡ lists_below spec.stage_register latency) }
{
    let mut text = String::new(alloc);
    for cycles in 0..latency {
        let register = stage_register(alloc, cycles)?;
        text.push_str(register.as_str())?;
    }
    Ok(text)
}

/// Returns the assignments to the registers of a unit with the latency `latency`, at a clock edge.
fn all_stage_steps(alloc: Global, latency: u32) -> Result<String, AllocError>
    ensures { IfOk result (λ text. string_bytes text ≡ lists_below spec.stage_step latency) }
{
    let mut text = String::new(alloc);
    for cycles in 0..latency {
        let step = stage_step(alloc, cycles)?;
        text.push_str(step.as_str())?;
    }
    Ok(text)
}

/// Returns the result of a unit with the latency `latency` on its out.
fn results(alloc: Global, latency: u32) -> Result<String, AllocError>
    ensures { IfOk result (λ text. string_bytes text ≡ spec.results latency) }
{
    let registers = all_stage_registers(alloc, latency)?;
    let steps = all_stage_steps(alloc, latency)?;
    format!(in alloc;
        "  // the result, a latency later\n{registers}  always @(posedge clk) begin\n{steps}  end\n  assign q = q{latency};\n"
    )
}

// ---- the module

/// Returns the note on a unit with `ports` ports, the latency `latency` and `operations`.
pub(crate) fn unit_note(
    alloc: Global,
    ports: u32,
    latency: u32,
    operations: u32,
) -> Result<String, AllocError>
    ensures { IfOk result (λ text. string_bytes text ≡ spec.unit_note ports latency operations) }
{
    let words = op_words(alloc, operations)?;
    format!(in alloc; "a unit with {ports} ports and a latency of {latency}:{words}")
}

/// Returns the ports of the arguments of a unit with `ports` ports, as written in a list of ports.
fn all_port_names(alloc: Global, ports: u32) -> Result<String, AllocError>
    ensures { IfOk result (λ text. string_bytes text ≡ lists_below pieces.port_name ports) }
{
    let mut text = String::new(alloc);
    for argument in 0..ports {
        let name = port_name(alloc, argument)?;
        text.push_str(name.as_str())?;
    }
    Ok(text)
}

/// Returns the declarations of the ports of the arguments of a unit with `ports` ports.
fn all_port_inputs(alloc: Global, ports: u32) -> Result<String, AllocError>
    ensures { IfOk result (λ text. string_bytes text ≡ lists_below pieces.port_input ports) }
{
    let mut text = String::new(alloc);
    for argument in 0..ports {
        let input = port_input(alloc, argument)?;
        text.push_str(input.as_str())?;
    }
    Ok(text)
}

/// Returns the list of the ports of a unit with `ports` ports for arguments.
pub(crate) fn unit_ports(alloc: Global, ports: u32) -> Result<String, AllocError>
    ensures { IfOk result (λ text. string_bytes text ≡ spec.unit_ports ports) }
{
    let names = all_port_names(alloc, ports)?;
    format!(in alloc; "clk, rst, {names}q")
}

/// Returns the declarations of the ports of a unit with `ports` ports for arguments.
fn unit_pins(alloc: Global, ports: u32) -> Result<String, AllocError>
    ensures { IfOk result (λ text. string_bytes text ≡ spec.unit_pins ports) }
{
    let inputs = all_port_inputs(alloc, ports)?;
    format!(in alloc; "  input clk;\n  input rst;\n{inputs}  output [31:0] q;\n\n")
}

/// Returns the body of a unit with `ports` ports, the latency `latency` and `operations`.
pub(crate) fn unit_body(
    alloc: Global,
    ports: u32,
    latency: u32,
    operations: u32,
) -> Result<String, AllocError>
    ensures { IfOk result (λ text. string_bytes text ≡ spec.unit_body ports latency operations) }
{
    let pins = unit_pins(alloc, ports)?;
    let tables = tables(alloc, ports)?;
    let arguments = arguments(alloc, ports)?;
    let effects = effects(alloc, operations)?;
    let values = values(alloc, operations)?;
    let results = results(alloc, latency)?;
    format!(in alloc; "{pins}{tables}\n{arguments}{effects}{values}{results}")
}
