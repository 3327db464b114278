//! Reading the tokens of a text one after another.
ghost use Rattle.std.specs.Prelude.{◌≡◌, None, true};
ghost use Rattle.std.specs.List.{list_all};
ghost use Rattle.cg_verilog.specs.Words.{same, is_word, is_reserved, is_name, is_name_byte};
ghost use Rattle.cg_verilog.specs.Rules.{is_top, top_number};
ghost use Rattle.cg_tokens.specs.Faults.{AreLast};
ghost use Rattle.cg_tokens.specs.Tokens.{is_letter, tokens_at, tokens_of};
ghost use Rattle.std.proofs.Props.{props};

use crate::fault::Misfit;
use crate::module::{Cell, Module, Pin, Wire};
use cg_tokens::{Token, next_token, past_blanks};
use std::alloc::Global;

fn is_letter(byte: u8) -> bool
    ensures { result ≡ is_letter byte }
{
    byte.is_ascii_alphabetic() || byte == b'_'
}

fn are_name_bytes(bytes: &[u8]) -> bool
    ensures { result ≡ list_all is_name_byte bytes.now }
{
    bytes
        .iter()
        .all(|byte| is_letter(*byte) || byte.is_ascii_digit())
}

/// Checks whether `text` is a letter or `_`, and then letters, digits and `_`.
fn is_word(text: &[u8]) -> bool
    ensures { result ≡ is_word text.now }
{
    match text {
        [] => false,
        [first, rest @ ..] => is_letter(*first) && are_name_bytes(rest),
    }
}

fn is_reserved(text: &[u8]) -> bool
    ensures { result ≡ is_reserved text.now }
{
    same(text, b"module") || same(text, b"input") || same(text, b"wire") || same(text, b"endmodule")
}

fn is_name(text: &[u8]) -> bool
    ensures { result ≡ is_name text.now }
{
    is_word(text) && !is_reserved(text)
}

fn same(left: &[u8], right: &[u8]) -> bool
    ensures { result ≡ same left.now right.now }
{
    left == right
}

/// Checks whether `text` is the greatest bit of a net: a number up to 31, with no leading zero.
fn is_top(text: &[u8]) -> bool
    ensures { result ≡ is_top text.now }
{
    match text {
        [digit] => digit.is_ascii_digit(),
        [first, second] => {
            second.is_ascii_digit()
                && (*first == b'1' || *first == b'2' || (*first == b'3' && *second <= b'1'))
        }
        _ => false,
    }
}

/// Returns the number that `text` writes for a greatest bit.
fn top_number(text: &[u8]) -> u32
    requires { is_top text.now ≡ true }
    ensures { result ≡ top_number text.now }
{
    match text {
        [] => 0,
        [digit] => u32::from(*digit - b'0'),
        [first, second, ..] => 10 * u32::from(*first - b'0') + u32::from(*second - b'0'),
    }
}

/// A text, and the place after the tokens that are read.
#[derive(Clone, Copy)]
pub struct Reader<'a> {
    pub bytes: &'a [u8],
    pub at: usize,
    ghost last: { AreLast (tokens_at None bytes.now at) (tokens_of None bytes.now) } by { Prim.hlevel props },
}

impl<'a> Reader<'a> {
    ghost use Rattle.std.specs.Prelude.{◌≡◌, decimal, [], ◌∷◌, ◌++◌, ◌<◌, ◌≤◌, true, false, length, map, codes, MatchOption, IfSome, OnOk, IfOk, IfErr};
    ghost use Rattle.cg_verilog.specs.Words.{is_name};
    ghost use Rattle.std.specs.List.{AllByRecursion, flat_map};
    ghost use Rattle.cg_verilog.specs.Rules.{is_top, Exactly, Name, Top, Pins, Cells, Lines, pin_rule, wire_rule, cell_rule, pins_end, cells_end};
    ghost use Rattle.cg_verilog.specs.Module.{IsPin, pin_tokens, further_pin, IsWire, wire_tokens, IsCell, cell_tokens, title, clocks, input, header, IsModule, lines_tokens, module_tokens};
    ghost use Rattle.cg_verilog.specs.Read.{left, begins_with, Misses, pin_of, wire_of, cell_of, module_of, MissesText};
    ghost use Rattle.cg_tokens.specs.Tokens.{place_of, seen, end_of, texts, tokens_at, tokens_of};

    /// Returns a reader at the first token of `bytes`.
    pub fn new(bytes: &'a [u8]) -> Self
        ensures all { left result ≡ texts (tokens_of None bytes.now) }
        ensures bytes { result.bytes.now ≡ bytes.now }
    {
        Reader {
            bytes,
            at: past_blanks(bytes, 0),
        }
    }

    /// Cuts the next token.
    pub fn next(&self) -> Option<Token<'a>>
        ensures next { MatchOption result (left self.now ≡ []) (λ token. tokens_at None self.now.bytes.now self.now.at ≡ seen token ∷ tokens_at None self.now.bytes.now (end_of (seen token))) }
        ensures within { IfSome result (λ token. end_of (seen token) ≤ length self.now.bytes.now) }
    {
        next_token(None, self.bytes, self.at)
    }

    /// Takes `token`, which is the next, and the blanks after it.
    fn take(&mut self, token: Token<'a>)
        requires next { tokens_at None self.old.bytes.now self.old.at ≡ seen token ∷ tokens_at None self.old.bytes.now (end_of (seen token)) }
        requires within { end_of (seen token) ≤ length self.old.bytes.now }
        ensures taken { left self.old ≡ token.entry.text.now ∷ left self.new }
        ensures same { self.new.bytes ≡ self.old.bytes }
    {
        self.at = past_blanks(self.bytes, token.place + token.text.len());
    }

    /// Takes the token `text`.
    pub fn exactly(&mut self, text: &[u8]) -> Result<(), Misfit>
        ensures ok { OnOk result (left self.old ≡ text.now ∷ left self.new) }
        ensures misses { IfErr result (λ e. Misses e (Exactly text.now ∷ []) (left self.old) (left self.new)) }
        ensures same { self.new.bytes ≡ self.old.bytes }
    {
        match self.next() {
            Some(next) => {
                if !same(next.text, text) {
                    return Err(Misfit::Text);
                }
                self.take(next);
                Ok(())
            }
            None => Err(Misfit::Text),
        }
    }

    /// Takes a name.
    pub fn name(&mut self) -> Result<&'a [u8], Misfit>
        ensures ok { IfOk result (λ name. (is_name name.now ≡ true) × (left self.old ≡ name.now ∷ left self.new)) }
        ensures misses { IfErr result (λ e. Misses e (Name ∷ []) (left self.old) (left self.new)) }
        ensures same { self.new.bytes ≡ self.old.bytes }
    {
        match self.next() {
            Some(next) => {
                if !is_name(next.text) {
                    return Err(Misfit::Text);
                }
                self.take(next);
                Ok(next.text)
            }
            None => Err(Misfit::Text),
        }
    }

    /// Takes the number of the greatest bit of a net.
    #[tactic(auto, using(crate::proofs::Numbers::top_is, crate::proofs::Numbers::top_small, crate::proofs::Numbers::number_top))]
    pub fn top(&mut self) -> Result<u32, Misfit>
        ensures ok { IfOk result (λ top. (top < 32) × (is_top (decimal top) ≡ true) × (left self.old ≡ decimal top ∷ left self.new)) }
        ensures misses { IfErr result (λ e. Misses e (Top ∷ []) (left self.old) (left self.new)) }
        ensures same { self.new.bytes ≡ self.old.bytes }
    {
        match self.next() {
            Some(next) => {
                if !is_top(next.text) {
                    return Err(Misfit::Text);
                }
                self.take(next);
                Ok(top_number(next.text))
            }
            None => Err(Misfit::Text),
        }
    }

    /// Takes a pin and its net.
    pub fn pin(&mut self) -> Result<Pin<'a>, Misfit>
        ensures ok { IfOk result (λ pin. IsPin (pin_of pin) × (left self.old ≡ pin_tokens (pin_of pin) ++ left self.new)) }
        ensures misses { IfErr result (λ e. Misses e pin_rule (left self.old) (left self.new)) }
        ensures same { self.new.bytes ≡ self.old.bytes }
    {
        self.exactly(b".")?;
        let port = self.name()?;
        self.exactly(b"(")?;
        let net = self.name()?;
        self.exactly(b")")?;
        Ok(Pin { port, net })
    }

    /// Checks whether `text` is the next token.
    fn next_is(&self, text: &[u8]) -> bool
        ensures { result ≡ begins_with text.now (left self.now) }
    {
        match self.next() {
            Some(next) => same(next.text, text),
            None => false,
        }
    }

    /// Takes a further pin of a cell.
    fn further_pin(&mut self) -> Result<Pin<'a>, Misfit>
        ensures ok { IfOk result (λ pin. IsPin (pin_of pin) × (left self.old ≡ further_pin (pin_of pin) ++ left self.new)) }
        ensures misses { IfErr result (λ e. Misses e (Exactly (codes ",") ∷ pin_rule) (left self.old) (left self.new)) }
        ensures same { self.new.bytes ≡ self.old.bytes }
    {
        self.exactly(b",")?;
        self.pin()
    }

    /// Takes the further pins and the end of a cell.
    #[tactic(auto, using(crate::proofs::Steps::misses_pins, crate::proofs::Steps::misses_pins_end, crate::proofs::Steps::misses_after_pins))]
    fn further_pins(&mut self, alloc: Global) -> Result<Vec<Pin<'a>>, Misfit>
        ensures ok { IfOk result (λ pins. AllByRecursion IsPin (map pin_of pins.items) × (left self.old ≡ (flat_map further_pin (map pin_of pins.items) ++ pins_end) ++ left self.new)) }
        ensures misses { IfErr result (λ e. Misses e (Pins ∷ []) (left self.old) (left self.new)) }
        ensures same { self.new.bytes ≡ self.old.bytes }
    {
        let mut pins = Vec::new(alloc);
        while self.next_is(b",") {
            pins.push(self.further_pin()?)?;
        }
        self.exactly(b")")?;
        self.exactly(b";")?;
        Ok(pins)
    }

    /// Takes a wire.
    #[tactic(auto, using(crate::proofs::Numbers::wire_is))]
    fn wire(&mut self) -> Result<Wire<'a>, Misfit>
        ensures ok { IfOk result (λ wire. IsWire (wire_of wire) × (left self.old ≡ wire_tokens (wire_of wire) ++ left self.new)) }
        ensures misses { IfErr result (λ e. Misses e (Exactly (codes "wire") ∷ wire_rule) (left self.old) (left self.new)) }
        ensures same { self.new.bytes ≡ self.old.bytes }
    {
        self.exactly(b"wire")?;
        self.exactly(b"[")?;
        let top = self.top()?;
        self.exactly(b":")?;
        self.exactly(b"0")?;
        self.exactly(b"]")?;
        let name = self.name()?;
        self.exactly(b";")?;
        Ok(Wire {
            width: top + 1,
            name,
        })
    }

    /// Takes the wires.
    #[tactic(auto, using(crate::proofs::Steps::misses_wires))]
    fn wires(&mut self, alloc: Global) -> Result<Vec<Wire<'a>>, Misfit>
        ensures ok { IfOk result (λ wires. AllByRecursion IsWire (map wire_of wires.items) × (left self.old ≡ flat_map wire_tokens (map wire_of wires.items) ++ left self.new)) }
        ensures no_more { OnOk result (begins_with (codes "wire") (left self.new) ≡ false) }
        ensures misses { IfErr result (λ e. Misses e (Lines ∷ []) (left self.old) (left self.new)) }
        ensures same { self.new.bytes ≡ self.old.bytes }
    {
        let mut wires = Vec::new(alloc);
        while self.next_is(b"wire") {
            wires.push(self.wire()?)?;
        }
        Ok(wires)
    }

    /// Takes a cell.
    fn cell(&mut self, alloc: Global) -> Result<Cell<'a>, Misfit>
        ensures ok { IfOk result (λ cell. IsCell (cell_of cell) × (left self.old ≡ cell_tokens (cell_of cell) ++ left self.new)) }
        ensures misses { IfErr result (λ e. Misses e (Name ∷ cell_rule) (left self.old) (left self.new)) }
        ensures same { self.new.bytes ≡ self.old.bytes }
    {
        let form = self.name()?;
        let name = self.name()?;
        self.exactly(b"(")?;
        let first = self.pin()?;
        let rest = self.further_pins(alloc)?;
        Ok(Cell {
            form,
            name,
            first,
            rest,
        })
    }

    /// Takes the cells and the word after them.
    #[tactic(auto, using(crate::proofs::Steps::misses_cells, crate::proofs::Steps::misses_cells_end))]
    fn cells(&mut self, alloc: Global) -> Result<Vec<Cell<'a>>, Misfit>
        ensures ok { IfOk result (λ cells. AllByRecursion IsCell (map cell_of cells.items) × (left self.old ≡ (flat_map cell_tokens (map cell_of cells.items) ++ cells_end) ++ left self.new)) }
        ensures misses { IfErr result (λ e. Misses e (Cells ∷ []) (left self.old) (left self.new)) }
        ensures same { self.new.bytes ≡ self.old.bytes }
    {
        let mut cells = Vec::new(alloc);
        while !self.next_is(b"endmodule") {
            cells.push(self.cell(alloc)?)?;
        }
        self.exactly(b"endmodule")?;
        Ok(cells)
    }

    /// Takes the title of a module.
    fn title(&mut self) -> Result<(), Misfit>
        ensures ok { OnOk result (left self.old ≡ title ++ left self.new) }
        ensures misses { IfErr result (λ e. Misses e (map Exactly title) (left self.old) (left self.new)) }
        ensures same { self.new.bytes ≡ self.old.bytes }
    {
        self.exactly(b"module")?;
        self.exactly(b"cgra_array")
    }

    /// Takes the pins of a module.
    fn clocks(&mut self) -> Result<(), Misfit>
        ensures ok { OnOk result (left self.old ≡ clocks ++ left self.new) }
        ensures misses { IfErr result (λ e. Misses e (map Exactly clocks) (left self.old) (left self.new)) }
        ensures same { self.new.bytes ≡ self.old.bytes }
    {
        self.exactly(b"(")?;
        self.exactly(b"clk")?;
        self.exactly(b",")?;
        self.exactly(b"rst")?;
        self.exactly(b")")?;
        self.exactly(b";")
    }

    /// Takes the line of an input.
    fn input(&mut self, name: &[u8]) -> Result<(), Misfit>
        ensures ok { OnOk result (left self.old ≡ input name.now ++ left self.new) }
        ensures misses { IfErr result (λ e. Misses e (map Exactly (input name.now)) (left self.old) (left self.new)) }
        ensures same { self.new.bytes ≡ self.old.bytes }
    {
        self.exactly(b"input")?;
        self.exactly(name)?;
        self.exactly(b";")
    }

    /// Takes the three lines that begin a module.
    #[tactic(auto, using(crate::proofs::Steps::misses_front, crate::proofs::Steps::misses_back))]
    fn header(&mut self) -> Result<(), Misfit>
        ensures ok { OnOk result (left self.old ≡ header ++ left self.new) }
        ensures misses { IfErr result (λ e. Misses e (map Exactly header) (left self.old) (left self.new)) }
        ensures same { self.new.bytes ≡ self.old.bytes }
    {
        self.title()?;
        self.clocks()?;
        self.input(b"clk")?;
        self.input(b"rst")
    }

    /// Takes the lines between the header and the end.
    #[tactic(auto, using(crate::proofs::Steps::misses_lines))]
    fn lines(&mut self, alloc: Global) -> Result<Module<'a>, Misfit>
        ensures ok { IfOk result (λ m. IsModule (module_of m) × (left self.old ≡ lines_tokens (module_of m) ++ left self.new)) }
        ensures misses { IfErr result (λ e. Misses e (Lines ∷ []) (left self.old) (left self.new)) }
        ensures same { self.new.bytes ≡ self.old.bytes }
    {
        let wires = self.wires(alloc)?;
        let cells = self.cells(alloc)?;
        Ok(Module { wires, cells })
    }

    /// Takes a whole text.
    #[tactic(auto, using(crate::proofs::Steps::misses_start, crate::proofs::Steps::misses_rest, crate::proofs::Steps::misses_more))]
    pub fn module(&mut self, alloc: Global) -> Result<Module<'a>, Misfit>
        ensures ok { IfOk result (λ m. IsModule (module_of m) × (left self.old ≡ module_tokens (module_of m))) }
        ensures misses { IfErr result (λ e. MissesText e (left self.old) (left self.new)) }
        ensures same { self.new.bytes ≡ self.old.bytes }
    {
        self.header()?;
        let module = self.lines(alloc)?;
        match self.next() {
            Some(_) => Err(Misfit::Text),
            None => Ok(module),
        }
    }

    /// Returns the place of the next token, or `end` where there is none.
    pub fn place(&self, end: usize) -> usize
        ensures { result ≡ place_of end (tokens_at None self.now.bytes.now self.now.at) }
    {
        match self.next() {
            Some(next) => next.place,
            None => end,
        }
    }
}
