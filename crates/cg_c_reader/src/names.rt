//! Reading single tokens.
use crate::fault::Misfit;
use crate::reader::Reader;
use crate::values::{is_hexadecimal, is_unsigned, value_of};
use crate::words::{is_cgra, is_line_end, is_name, is_number, is_word, same};
use cg_c_syntax::{Name, Named, Number};
use std::alloc::{AllocError, Global};

impl<'a> Reader<'a> {
    ghost use Rattle.std.specs.Prelude.{◌≡◌, true, IfOk, OnOk, IfErr};
    ghost use Rattle.cg_c_syntax.specs.declared.token.Kind.TheVariants.{LineEnd, Cgra};
    ghost use Rattle.cg_c_syntax.specs.Symbols.{OfKind, TheWord, Digits};
    ghost use Rattle.cg_c_syntax.specs.Words.{is_the_word, is_number, named, number_of};
    ghost use Rattle.cg_c_syntax.specs.Words as words;
    ghost use Rattle.cg_c_reader.specs.Left.{left, all, Finds, TakesName, MissesName, Misses};

    /// Returns whether the next token is the word `text`.
    pub fn next_is_word(&self, text: &[u8]) -> bool
        ensures { result ≡ is_the_word text.now (left self.now).head }
    {
        is_word(self.token.kind) && same(self.token.text, text)
    }

    /// Takes the next token, which has to be the word `text`.
    #[tactic(auto, using(crate::proofs::Single::word_reads, crate::proofs::Single::word_stops, crate::proofs::Single::word_goes_on))]
    pub fn the_word(&mut self, text: &[u8]) -> Result<(), Misfit>
        ensures ok { OnOk result (Finds (TheWord text.now) tt self.old self.new) }
        ensures misses { IfErr result (λ e. Misses e (TheWord text.now) self.old self.new) }
        ensures same { self.new.bytes ≡ self.old.bytes }
    {
        if self.next_is_word(text) {
            self.take();
            Ok(())
        } else {
            Err(Misfit::Text)
        }
    }

    /// Takes the next token, which has to be the end of a directive's line.
    pub fn line_end(&mut self) -> Result<(), Misfit>
        ensures ok { OnOk result (Finds (OfKind LineEnd) tt self.old self.new) }
        ensures misses { IfErr result (λ e. Misses e (OfKind LineEnd) self.old self.new) }
        ensures same { self.new.bytes ≡ self.old.bytes }
    {
        if is_line_end(self.token.kind) {
            self.take();
            Ok(())
        } else {
            Err(Misfit::Text)
        }
    }

    /// Takes the next token, which has to be the include of `cgra.h`.
    pub fn cgra_include(&mut self) -> Result<(), Misfit>
        ensures ok { OnOk result (Finds (OfKind Cgra) tt self.old self.new) }
        ensures misses { IfErr result (λ e. Misses e (OfKind Cgra) self.old self.new) }
        ensures same { self.new.bytes ≡ self.old.bytes }
    {
        if is_cgra(self.token.kind) {
            self.take();
            Ok(())
        } else {
            Err(Misfit::Text)
        }
    }

    /// Returns the next token, a word, as a name.
    pub fn named(&self, alloc: Global) -> Result<Named, AllocError>
        requires { words.is_word self.now.token.kind ≡ true }
        ensures { IfOk result (λ name. name ≡ named (left self.now).head) }
    {
        let text = std::str::from_utf8(self.token.text).unwrap();
        Ok(Named {
            name: Name::copy_of(alloc, text)?,
            place: self.token.place,
        })
    }

    /// Takes the next token, which has to be a name.
    pub fn name(&mut self, alloc: Global) -> Result<Named, Misfit>
        ensures ok { IfOk result (λ name. TakesName name self.old self.new) }
        ensures misses { IfErr result (λ e. MissesName e self.old self.new) }
        ensures same { self.new.bytes ≡ self.old.bytes }
    {
        if is_name(self.token.kind, self.token.text) {
            let name = self.named(alloc)?;
            self.take();
            Ok(name)
        } else {
            Err(Misfit::Text)
        }
    }
    /// Takes the next token, a number.
    pub fn numeral(&mut self) -> Number
        requires { is_number self.old.token.kind ≡ true }
        ensures value { result ≡ number_of (left self.old).head }
        ensures taken { (left self.old).more ≡ all (left self.new) }
        ensures same { self.new.bytes ≡ self.old.bytes }
    {
        let text = self.token.text;
        let number = Number {
            value: value_of(text),
            hexadecimal: is_hexadecimal(text),
            unsigned: is_unsigned(text),
            place: self.token.place,
        };
        self.take();
        number
    }

    /// Takes the next token, which has to be a number.
    pub fn number(&mut self) -> Result<Number, Misfit>
        ensures ok { IfOk result (λ number. Finds Digits number self.old self.new) }
        ensures misses { IfErr result (λ e. Misses e Digits self.old self.new) }
        ensures same { self.new.bytes ≡ self.old.bytes }
    {
        if is_number(self.token.kind) {
            Ok(self.numeral())
        } else {
            Err(Misfit::Text)
        }
    }
}
