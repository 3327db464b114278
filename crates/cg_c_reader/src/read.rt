//! Reading sources from bytes.
ghost use Rattle.cg_c_syntax.specs.Written.{source_of};
ghost use Rattle.cg_c_syntax.specs.Source.{IsSource};
ghost use Rattle.cg_c_reader.specs.Faults.{IsCFault};
ghost use Rattle.std.specs.Prelude.{◌≡◌, IfOk, IfErr};
ghost use Rattle.cg_c_reader.specs.Parts.{whole_of};

use crate::fault::Misfit;
use crate::places::{Position, position_of};
use crate::reader::Reader;
use crate::words::is_text_end;
use cg_c_syntax::{Global as Declaration, Kind, Loop, Named, Source, Stmt};
use std::alloc::Global;

/// Why bytes are no source.
#[derive(Debug, Drop)]
pub enum CFault {
    Memory,
    /// F1: the first token that no source goes on with, or the byte at which no token begins.
    Text(Position),
    /// F2: a construct that begins while sixty are open.
    TooDeep(Position),
}

/// The statements of a function, around its loop.
#[derive(Drop)]
struct Body {
    before: Vec<Stmt>,
    outer: Loop,
    after: Vec<Stmt>,
}

/// Reads the source that `bytes` encode.
pub fn read_c(alloc: Global, bytes: &[u8]) -> Result<Source, CFault>
    ensures ok { IfOk result (λ s. IsSource bytes.now (source_of s)) }
    ensures fault { IfErr result (λ e. IsCFault bytes.now e) }
{
    let mut reader = Reader::new(bytes);
    match reader.text(alloc) {
        Ok(source) => Ok(source),
        Err(Misfit::Memory) => Err(CFault::Memory),
        Err(Misfit::Text) => Err(CFault::Text(position_of(bytes, reader.token.place))),
        Err(Misfit::Depth(place)) => Err(CFault::TooDeep(position_of(bytes, place))),
    }
}

/// Returns the source of the declarations `globals` and the function of the name `name` with the body `body`.
fn whole_source(globals: Vec<Declaration>, name: Named, body: Body) -> Source
    ensures { source_of result ≡ whole_of globals.items name body }
{
    Source {
        globals,
        name,
        before: body.before,
        outer: body.outer,
        after: body.after,
    }
}

impl<'a> Reader<'a> {
    ghost use Rattle.std.specs.Prelude.{◌≡◌, [], IfOk, OnOk, IfErr};
    ghost use Rattle.cg_c_syntax.specs.Symbols.{File, Body as BodySymbol};
    ghost use Rattle.cg_c_syntax.specs.Source.{text};
    ghost use Rattle.cg_c_syntax.specs.Written.{source_of};
    ghost use Rattle.cg_c_reader.specs.Left.{left, Finds, ReadsAllTo, Misses, MissesAll};
    ghost use Rattle.cg_c_reader.specs.Parts.{around_of, Included, FindsHeader, MissesHeader};

    /// Reads a source and the end of the text.
    fn text(&mut self, alloc: Global) -> Result<Source, Misfit>
        ensures ok { IfOk result (λ s. ReadsAllTo text (source_of s, (tt, tt)) (left self.old) (left self.new)) }
        ensures ends { OnOk result ((left self.new).more ≡ []) }
        ensures misses { IfErr result (λ e. MissesAll e text (left self.old) (left self.new)) }
    {
        let source = self.source(alloc)?;
        if is_text_end(self.token.kind) {
            Ok(source)
        } else {
            Err(Misfit::Text)
        }
    }

    /// Reads a source.
    fn source(&mut self, alloc: Global) -> Result<Source, Misfit>
        ensures ok { IfOk result (λ s. Finds File (source_of s) self.old self.new) }
        ensures misses { IfErr result (λ e. Misses e File self.old self.new) }
        ensures same { self.new.bytes ≡ self.old.bytes }
    {
        self.includes()?;
        let mut globals = Vec::new(alloc);
        while !self.next_is_word(b"void") {
            globals.push(self.declaration(alloc)?)?;
        }
        self.take();
        let name = self.header(alloc)?;
        let body = self.body(alloc)?;
        Ok(whole_source(globals, name, body))
    }

    /// Reads the includes.
    fn includes(&mut self) -> Result<(), Misfit>
        ensures ok { OnOk result (Included (left self.old) (left self.new)) }
        ensures misses { IfErr result (λ e. Misses e File self.old self.new) }
        ensures same { self.new.bytes ≡ self.old.bytes }
    {
        match self.token.kind {
            Kind::Stdint => {
                self.take();
                self.line_end()?;
                self.cgra_include()?;
                self.line_end()?;
                Ok(())
            }
            Kind::Cgra => {
                self.take();
                self.line_end()?;
                Ok(())
            }
            _ => Err(Misfit::Text),
        }
    }

    /// Reads the function's name, its parameters and the `{`.
    fn header(&mut self, alloc: Global) -> Result<Named, Misfit>
        ensures ok { IfOk result (λ name. FindsHeader name (left self.old) (left self.new)) }
        ensures misses { IfErr result (λ e. MissesHeader e (left self.old) (left self.new)) }
        ensures same { self.new.bytes ≡ self.old.bytes }
    {
        let name = self.name(alloc)?;
        self.mark(b"(")?;
        self.the_word(b"void")?;
        self.mark(b")")?;
        self.mark(b"{")?;
        Ok(name)
    }

    /// Reads the statements of the function around its loop, up to the `}`.
    fn body(&mut self, alloc: Global) -> Result<Body, Misfit>
        ensures ok { IfOk result (λ b. Finds BodySymbol (around_of b) self.old self.new) }
        ensures misses { IfErr result (λ e. Misses e BodySymbol self.old self.new) }
        ensures same { self.new.bytes ≡ self.old.bytes }
    {
        let mut before = Vec::new(alloc);
        while !self.next_is_word(b"for") {
            before.push(self.statement(alloc, 0)?)?;
        }
        let outer = self.looped(alloc, 0)?;
        let after = self.statements(alloc, 0)?;
        Ok(Body {
            before,
            outer,
            after,
        })
    }
}
