//! The fields of a unit in a slot.
ghost use Rattle.std.specs.Prelude.{◌≡◌, ◌+◌, ◌*◌, ◌%◌, ◌<◌, ◌≤◌, ◌^◌, ◌||◌, ℕ, Some, length, slice_index, slice_index_or, if◌then◌else◌};
ghost use Rattle.cg_word.specs.Word.{has_port};
ghost use Rattle.cg_model.specs.Config.{arg, no_arg};
ghost use Rattle.cg_bits.specs.Numbers.{bits_of_bytes, number_at};
ghost use Rattle.cg_bits.specs.Format.{cgb2};
ghost use Rattle.cg_bits.specs.Reading.{unit_in};
ghost use Rattle.cg_config.specs.Told.{head_of, told};
ghost use Rattle.cg_view.specs.Held.{HoldsUnit};

use cg_bits::{ArgFields, CGB2, NO_ARG, UnitFields, number_at, op_of};
use cg_config::UnitHead;
use cg_word::Op;
use std::marker::Model;

/// The fields of a unit that is off.
const OFF: UnitFields = UnitFields {
    op: None,
    stage: 0,
    port: 0,
    immediate: 0,
    args: [NO_ARG; 3],
};

/// An argument that is the immediate.
const FIXED: ArgFields = ArgFields {
    fixed: true,
    count: 0,
    init: [0; 4],
};

/// The fields of a unit in a slot, borrowed. Contracts see it as these fields.
#[derive(Drop)]
pub struct UnitView<'a> {
    body: &'a [u8],
    at: usize,
    ports: usize,
}

impl<'a> Model for UnitView<'a> {
    ghost use Rattle.cg_model.specs.declared.config.UnitFields.{UnitFields as Fields};
    ghost use Rattle.cg_bits.specs.Numbers.{bits_of_bytes};
    ghost use Rattle.cg_bits.specs.Format.{cgb2};
    ghost use Rattle.cg_bits.specs.Reading.{unit_in};
    ghost use Rattle.cg_view.specs.Held.{HoldsUnit};

    ghost Value = { Fields };

    ghost view = { λ u. unit_in cgb2 u.ports (bits_of_bytes u.body.now) u.at };

    ghost invariant = { λ u. HoldsUnit u.body.now u.at u.ports };
}

impl<'a> UnitView<'a> {
    ghost use Rattle.std.specs.Prelude.{◌≡◌, ◌<◌};
    ghost use Rattle.cg_model.specs.Canonical.{arity_of};
    ghost use Rattle.cg_bits.specs.Numbers.{bits_of_bytes};
    ghost use Rattle.cg_bits.specs.Format.{cgb2};
    ghost use Rattle.cg_bits.specs.Reading.{unit_in};
    ghost use Rattle.cg_config.specs.Told.{head_of, told};
    ghost use Rattle.cg_view.specs.Held.{HoldsUnit};

    /// Returns the unit of `ports` ports that begins at bit `at` of `body`.
    pub(crate) fn new(body: &'a [u8], at: usize, ports: usize) -> UnitView<'a>
        requires { HoldsUnit body.now at ports }
        ensures { result ≡ unit_in cgb2 ports (bits_of_bytes body.now) at }
    {
        UnitView { body, at, ports }
    }

    /// Returns all fields. For a unit that is off only the operation is read. Arguments from the arity on, initial
    /// words from the count on, and an immediate that no argument takes are zero, and aren't read.
    pub fn fields(&self) -> UnitFields
        ensures { result ≡ self.now }
    {
        unit_fields(self.body, self.at, self.ports)
    }

    /// Returns what the unit begins, without its arguments. It reads only the first 26 bits.
    pub fn head(&self) -> UnitHead
        ensures { result ≡ head_of self.now }
    {
        unit_head(self.body, self.at, self.ports)
    }

    /// Returns the initial word or immediate that argument number `place` of the unit's operation has in iteration
    /// `turn`, if any. It reads the argument's mode and count, and no word except the one that it returns.
    pub fn told(&self, place: usize, turn: u32) -> Option<u32>
        requires { place < arity_of self.now.op }
        ensures { result ≡ told self.now place turn }
    {
        unit_told(self.body, self.at, self.ports, place, turn)
    }
}

/// Returns what a unit of `ports` ports begins, without its arguments. The first 26 bits are its operation's code, its
/// stage and its port.
fn unit_head(body: &[u8], at: usize, ports: usize) -> UnitHead
    requires { HoldsUnit body.now at ports }
    ensures { result ≡ head_of (unit_in cgb2 ports (bits_of_bytes body.now) at) }
{
    let head = number_at(body, at, 26);
    UnitHead {
        op: op_of(CGB2, head >> 20),
        stage: (head >> 4) % 65536,
        port: head % 16,
    }
}

/// Returns the initial word or immediate that argument `place` of a unit of `ports` ports has in iteration `turn`, if
/// any. The argument's first four bits are its mode and the count of its initial words.
fn unit_told(body: &[u8], at: usize, ports: usize, place: usize, turn: u32) -> Option<u32>
    requires held { HoldsUnit body.now at ports }
    requires port { place < ports }
    ensures { result ≡ told (unit_in cgb2 ports (bits_of_bytes body.now) at) place turn }
{
    let arg_at = at + 58 + place * 132;
    let head = number_at(body, arg_at, 4);
    if head >> 3 == 1 {
        Some(number_at(body, at + 26, 32))
    } else if turn < head % 8 {
        Some(number_at(body, arg_at + 4 + turn as usize * 32, 32))
    } else {
        None
    }
}

/// Returns the fields of a unit of `ports` ports.
fn unit_fields(body: &[u8], at: usize, ports: usize) -> UnitFields
    requires { HoldsUnit body.now at ports }
    ensures { result ≡ unit_in cgb2 ports (bits_of_bytes body.now) at }
{
    let head = number_at(body, at, 26);
    match op_of(CGB2, head >> 20) {
        Some(op) => fields_of(op, head, body, at, ports),
        None => OFF,
    }
}

/// Returns the fields of a unit of `ports` ports whose operation is `op`. Its first 26 bits, `head`, are the
/// operation's code, the stage and the port.
fn fields_of(op: Op, head: u32, body: &[u8], at: usize, ports: usize) -> UnitFields
    requires held { HoldsUnit body.now at ports }
    requires head { head ≡ number_at (bits_of_bytes body.now) at 26 }
    requires op { (unit_in cgb2 ports (bits_of_bytes body.now) at).op ≡ Some op }
    ensures { result ≡ unit_in cgb2 ports (bits_of_bytes body.now) at }
{
    let args = args_of(op, body, at, ports);
    let fixed = any_fixed(&args);
    UnitFields {
        op: Some(op),
        stage: (head >> 4) % 65536,
        port: port_of(op, head),
        immediate: immediate_if(fixed, body, at + 26),
        args,
    }
}

/// Returns the port in the first 26 bits, `head`, or 0 if `op` names no port.
fn port_of(op: Op, head: u32) -> u32
    ensures { result ≡ (if has_port op then head % 16 else 0) }
{
    if op.has_port() { head % 16 } else { 0 }
}

/// Returns whether one of `args` is the immediate.
fn any_fixed(args: &[ArgFields; 3]) -> bool
    ensures { result ≡ ((slice_index_or args.now 0 no_arg).fixed || ((slice_index_or args.now 1 no_arg).fixed || (slice_index_or args.now 2 no_arg).fixed)) }
{
    args[0].fixed || args[1].fixed || args[2].fixed
}

/// Returns the immediate at bit `place` of `body`, or 0 if it isn't `asked` for.
fn immediate_if(asked: bool, body: &[u8], place: usize) -> u32
    requires inside { place + 32 ≤ 8 * length body.now }
    requires counted { place < 2 ^ 60 }
    ensures { result ≡ (if asked then number_at (bits_of_bytes body.now) place 32 else 0) }
{
    if asked { number_at(body, place, 32) } else { 0 }
}

/// Returns the arguments of a unit of `ports` ports whose operation is `op`.
fn args_of(op: Op, body: &[u8], at: usize, ports: usize) -> [ArgFields; 3]
    requires held { HoldsUnit body.now at ports }
    requires op { (unit_in cgb2 ports (bits_of_bytes body.now) at).op ≡ Some op }
    ensures { result ≡ (unit_in cgb2 ports (bits_of_bytes body.now) at).args }
{
    let mut args = [NO_ARG; 3];
    for p in 0..op.arity() as usize {
        args[p] = arg_of(body, at, ports, p);
    }
    args
}

/// Returns the first `count` of the four words from bit `place` on, followed by zeros.
fn words_of(body: &[u8], place: usize, count: u32) -> [u32; 4]
    requires few { count ≤ 4 }
    requires inside { place + 128 ≤ 8 * length body.now }
    requires counted { place < 2 ^ 58 }
    ensures read { (k : ℕ) → k < count → slice_index result k ≡ number_at (bits_of_bytes body.now) (place + k * 32) 32 }
    ensures zero { (k : ℕ) → count ≤ k → k < 4 → slice_index result k ≡ 0 }
{
    let mut words = [0; 4];
    for k in 0..count as usize {
        words[k] = number_at(body, place + k * 32, 32);
    }
    words
}

/// Returns argument `p` of a unit of `ports` ports. Its first four bits are its mode and the count of its initial
/// words.
fn arg_of(body: &[u8], at: usize, ports: usize, p: usize) -> ArgFields
    requires held { HoldsUnit body.now at ports }
    requires port { p < ports }
    ensures { result ≡ arg (unit_in cgb2 ports (bits_of_bytes body.now) at) p }
{
    let place = at + 58 + p * 132;
    let head = number_at(body, place, 4);
    if head >> 3 == 1 {
        return FIXED;
    }
    ArgFields {
        fixed: false,
        count: head % 8,
        init: words_of(body, place + 4, head % 8),
    }
}
