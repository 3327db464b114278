//! Reading the tokens of a text one by one.
ghost use Rattle.std.specs.Prelude.{◌≡◌};
ghost use Rattle.cg_tokens.specs.Faults.{AreLast};
ghost use Rattle.cg_tokens.specs.Tokens.{tokens_at, tokens_of};
ghost use Rattle.cg_loop_reader.specs.Doubled.{double};
ghost use Rattle.std.proofs.Props.{props};

use crate::fault::Misfit;
use crate::room::room_in;
use crate::uses::Use;
use crate::words::{is_name, number_of, same};
use cg_loop_syntax::Role;
use cg_tokens::{Token, next_token, past_blanks};
use std::alloc::Global;

/// The byte that is one token when doubled.
const DOUBLE: Option<u8> = Some(b'=');

/// A number, and its place in the text.
#[derive(Clone, Copy)]
pub(crate) struct Numeral {
    pub value: u32,
    pub place: usize,
}

/// A text, the position after the tokens that are read, and their uses of names and ports.
#[derive(Drop)]
pub(crate) struct Reader<'a> {
    pub bytes: &'a [u8],
    pub at: usize,
    pub uses: Vec<Use<'a>>,
    /// The position up to which the values of the text have room in memory.
    pub room: usize,
    ghost last: { AreLast (tokens_at double bytes.now at) (tokens_of double bytes.now) } by { Prim.hlevel props },
}

impl<'a> Reader<'a> {
    ghost use Rattle.std.specs.Prelude.{◌≡◌, ◌∷◌, ◌++◌, ◌≤◌, ◌<◌, [], map, true, false, length, IsTrue, IsFalse, MatchOption, IfSome, OnOk, IfOk, IfErr};
    ghost use Rattle.cg_tokens.specs.Tokens.{seen, place_of, tokens_at, tokens_of};
    ghost use Rattle.cg_loop_text_spec.specs.Rules.{Exactly, Name as NameSymbol, Digits};
    ghost use Rattle.cg_loop_text_spec.specs.Read.{begins_with};
    ghost use Rattle.cg_loop_reader.specs.declared.fault.Misfit.TheVariants.{Memory};
    ghost use Rattle.cg_loop_reader.specs.Doubled.{double};
    ghost use Rattle.cg_loop_reader.specs.Left.{left, noted, last_token, IsNext, Takes, TakesName, TakesNumber, Notes, Misses, Keeps};

    /// Returns a reader at the first token of `bytes`.
    pub fn new(alloc: Global, bytes: &'a [u8]) -> Self
        ensures all { left result ≡ tokens_of double bytes.now ++ last_token bytes.now ∷ [] }
        ensures bytes { result.bytes.now ≡ bytes.now }
        ensures none { noted result ≡ [] }
    {
        Reader {
            bytes,
            at: past_blanks(bytes, 0),
            uses: Vec::new(alloc),
            room: room_in(bytes),
        }
    }

    /// Checks whether the values of the tokens that are read have room in memory.
    pub fn has_room(&self) -> bool {
        self.at <= self.room
    }

    /// Returns the next token; `None` at the end of the text.
    pub fn next(&self) -> Option<Token<'a>>
        ensures { MatchOption result (tokens_at double self.now.bytes.now self.now.at ≡ []) (λ token. IsNext self.now token) }
    {
        next_token(DOUBLE, self.bytes, self.at)
    }

    /// Takes `token`, the next token.
    pub fn take(&mut self, token: Token<'a>)
        requires { IsNext self.old token }
        ensures taken { left self.old ≡ seen token.entry ∷ left self.new }
        ensures kept { Keeps self.old self.new }
    {
        self.at = past_blanks(self.bytes, token.place + token.text.len());
    }

    /// Returns the place of the next token, or the length of the text if there is none.
    pub fn place(&self) -> usize
        ensures { result ≡ place_of (length self.now.bytes.now) (tokens_at double self.now.bytes.now self.now.at) }
    {
        match self.next() {
            Some(next) => next.place,
            None => self.bytes.len(),
        }
    }

    /// Returns whether the next token is `text`.
    pub fn next_is(&self, text: &[u8]) -> bool
        requires { 0 < length text.now }
        ensures { result ≡ begins_with text.now (left self.now) }
    {
        match self.next() {
            Some(next) => same(next.text, text),
            None => false,
        }
    }

    /// Takes the token `text` if it is the next, and returns whether it is.
    pub fn skip(&mut self, text: &[u8]) -> bool
        requires { 0 < length text.now }
        ensures taken { IsTrue result → Takes text.now self.old self.new }
        ensures none { IsFalse result → (self.new ≡ self.old) × (begins_with text.now (left self.old) ≡ false) }
        ensures same { self.new.bytes ≡ self.old.bytes }
    {
        match self.next() {
            Some(next) => {
                if !same(next.text, text) {
                    return false;
                }
                self.take(next);
                true
            }
            None => false,
        }
    }

    /// Takes the next token, which has to be `text`.
    pub fn exactly(&mut self, text: &[u8]) -> Result<(), Misfit>
        requires { 0 < length text.now }
        ensures ok { OnOk result (Takes text.now self.old self.new) }
        ensures misses { IfErr result (λ e. Misses e (Exactly text.now ∷ []) self.old self.new) }
        ensures same { self.new.bytes ≡ self.old.bytes }
    {
        match self.next() {
            Some(next) => {
                if !same(next.text, text) {
                    return Err(Misfit::Text);
                }
                self.take(next);
                Ok(())
            }
            None => Err(Misfit::Text),
        }
    }

    /// Takes the next token, which has to be a name, and returns it.
    pub fn name(&mut self) -> Result<Token<'a>, Misfit>
        ensures ok { IfOk result (λ token. TakesName token self.old self.new) }
        ensures misses { IfErr result (λ e. Misses e (NameSymbol ∷ []) self.old self.new) }
        ensures same { self.new.bytes ≡ self.old.bytes }
    {
        match self.next() {
            Some(next) => {
                if !is_name(next.text) {
                    return Err(Misfit::Text);
                }
                self.take(next);
                Ok(next)
            }
            None => Err(Misfit::Text),
        }
    }

    /// Takes the next token, which has to be a number, and returns the number and its place.
    pub fn number(&mut self) -> Result<Numeral, Misfit>
        ensures ok { IfOk result (λ number. TakesNumber number self.old self.new) }
        ensures misses { IfErr result (λ e. Misses e (Digits ∷ []) self.old self.new) }
        ensures same { self.new.bytes ≡ self.old.bytes }
    {
        match self.next() {
            Some(next) => match number_of(next.text) {
                Some(value) => {
                    self.take(next);
                    Ok(Numeral {
                        value,
                        place: next.place,
                    })
                }
                None => Err(Misfit::Text),
            },
            None => Err(Misfit::Text),
        }
    }

    /// Records that the name of `token` is used in the role `role`.
    pub fn note(&mut self, role: Role, token: Token<'a>) -> Result<(), Misfit>
        ensures ok { OnOk result (Notes (record { role = role; name = token.entry.text.now; place = token.entry.place }) self.old self.new) }
        ensures misses { IfErr result (λ e. e ≡ Memory) }
        ensures same { self.new.bytes ≡ self.old.bytes }
    {
        self.uses.push(Use {
            role,
            name: token.text,
            place: token.place,
        })?;
        Ok(())
    }

    /// Records that a port, whose number is at `place`, is used in the role `role`.
    pub fn note_port(&mut self, role: Role, place: usize) -> Result<(), Misfit>
        ensures ok { OnOk result (Notes (record { role = role; name = []; place = place }) self.old self.new) }
        ensures misses { IfErr result (λ e. e ≡ Memory) }
        ensures same { self.new.bytes ≡ self.old.bytes }
    {
        self.uses.push(Use {
            role,
            name: b"",
            place,
        })?;
        Ok(())
    }
}
