//! Reading the tokens of a text one by one.
ghost use Rattle.std.specs.Prelude.{◌≡◌, ◌≤◌, true, length};
ghost use Rattle.std.specs.Str.{IsAscii};
ghost use Rattle.cg_c_syntax.specs.Words.{is_word};
ghost use Rattle.std.proofs.Props.{props};

use crate::fault::Misfit;
use crate::tokens::{Cursor, Token, next_token};
use crate::words::{is_mark, same};
use cg_c_syntax::Line;

/// The greatest number of tokens before an operand or a block. The tree of more could take more than a gigabyte: there
/// is no memory for it.
const MOST_TOKENS: u32 = 3_000_000;

/// A text, its next token, and the position after that.
#[derive(Drop)]
pub(crate) struct Reader<'a> {
    pub bytes: &'a [u8],
    pub token: Token<'a>,
    pub next: Cursor,
    /// The number of tokens that were taken.
    pub taken: u32,
    ghost within: { next.place ≤ length bytes.now } by { Prim.hlevel props },
    ghost ascii: { is_word token.kind ≡ true → IsAscii token.text.now } by { Prim.hlevel props },
}

impl<'a> Reader<'a> {
    ghost use Rattle.std.specs.Prelude.{◌≡◌, false, OnOk, IfErr};
    ghost use Rattle.cg_c_syntax.specs.Tokens.{tokens_of, is_last};
    ghost use Rattle.cg_c_syntax.specs.Symbols.{TheMark};
    ghost use Rattle.cg_c_syntax.specs.Words.{is_the_mark};
    ghost use Rattle.cg_c_reader.specs.Left.{left, all, Finds, TakesMark, MissesMark, Misses};

    /// Returns a reader at the first token of `bytes`.
    pub fn new(bytes: &'a [u8]) -> Self
        ensures all { all (left result) ≡ tokens_of bytes.now }
        ensures bytes { result.bytes.now ≡ bytes.now }
    {
        let start = Cursor {
            place: 0,
            line: Line::Fresh,
        };
        let cut = next_token(bytes, start);
        Reader {
            bytes,
            token: cut.token,
            next: cut.next,
            taken: 0,
        }
    }

    /// Takes the next token, which is not the last.
    pub fn take(&mut self)
        requires { is_last self.old.token.kind ≡ false }
        ensures taken { (left self.old).more ≡ all (left self.new) }
        ensures same { self.new.bytes ≡ self.old.bytes }
    {
        let cut = next_token(self.bytes, self.next);
        self.token = cut.token;
        self.next = cut.next;
        self.taken = self.taken.saturating_add(1);
    }

    /// Returns whether no operand and no block may follow the tokens that were taken.
    pub fn is_full(&self) -> bool {
        self.taken >= MOST_TOKENS
    }

    /// Returns whether the next token is the mark `text`.
    pub fn next_is(&self, text: &[u8]) -> bool
        ensures { result ≡ is_the_mark text.now (left self.now).head }
    {
        is_mark(self.token.kind) && same(self.token.text, text)
    }

    /// Takes the next token, which has to be the mark `text`.
    #[tactic(auto, using(crate::proofs::Single::mark_reads, crate::proofs::Single::mark_stops, crate::proofs::Single::mark_goes_on))]
    pub fn mark(&mut self, text: &[u8]) -> Result<(), Misfit>
        ensures ok { OnOk result (Finds (TheMark text.now) tt self.old self.new) }
        ensures takes { OnOk result (TakesMark text.now self.old self.new) }
        ensures misses { IfErr result (λ e. Misses e (TheMark text.now) self.old self.new) }
        ensures other { IfErr result (λ e. MissesMark e text.now self.old self.new) }
        ensures same { self.new.bytes ≡ self.old.bytes }
    {
        if self.next_is(text) {
            self.take();
            Ok(())
        } else {
            Err(Misfit::Text)
        }
    }
}
