//! Reading declarations before the function.
ghost use Rattle.std.specs.Prelude.{◌≡◌, ◌+◌, ◌∷◌, ◌==◌, IfOk};
ghost use Rattle.cg_c_syntax.specs.Grammar as grammar;
ghost use Rattle.cg_c_syntax.specs.Tree.{Inner};
ghost use Rattle.cg_c_syntax.specs.Written.{expr_of, rows_of, rows_list};

use crate::fault::Misfit;
use crate::reader::Reader;
use crate::words::{cast_by, is_define, is_number, whole};
use cg_c_syntax::{
    Array, Constant, Expr, Global as Declaration, Number, Rows, Sign, Signedness, Table,
};
use std::alloc::{AllocError, AllocFailed, Global};

/// Returns the negative of `number`.
fn negative(alloc: Global, number: Number) -> Result<Expr, AllocError>
    ensures { IfOk result (λ e. expr_of e ≡ grammar.minus number) }
{
    Ok(Expr::Sign {
        sign: Sign::Minus,
        place: number.place,
        operand: Box::new(alloc, Expr::Number(number))?,
    })
}

/// Returns whether `next` is `length` bytes behind `place`.
fn is_behind(place: usize, length: usize, next: usize) -> bool
    ensures { result ≡ (next == place + length) }
{
    next >= place && next - place == length
}

/// Returns `first` and `others` after it.
fn led(first: Expr, others: Vec<Expr>) -> Result<Vec<Expr>, AllocFailed<Expr>>
    ensures { IfOk result (λ all. all.items ≡ first ∷ others.items) }
{
    let mut all = others;
    all.insert(0, first)?;
    Ok(all)
}

/// Returns the rows `rows` in braces at `place`.
fn listed(place: usize, rows: Vec<Rows>) -> Rows
    ensures { rows_of result ≡ Inner place (rows_list rows.items) }
{
    Rows::Rows { place, rows }
}

impl<'a> Reader<'a> {
    ghost use Rattle.std.specs.Prelude.{◌≡◌, ◌+◌, ◌≤◌, ◌&&◌, nat_lt, false, codes, IfOk, IfErr};
    ghost use Rattle.cg_c_syntax.specs.Symbols.{Declaration as DeclarationSymbol, Defined, DefinedValue, Enumerator, Declarator, Tabled, Braced};
    ghost use Rattle.cg_c_syntax.specs.Words.{signedness_of, is_the_mark};
    ghost use Rattle.cg_c_syntax.specs.Grammar.{step, enumeration_step, words_step};
    ghost use Rattle.cg_c_syntax.specs.Written.{expr_of, constant_of, array_of, rows_of, table_of, global_of};
    ghost use Rattle.cg_c_reader.specs.Left.{left, Finds, Misses};
    ghost use Rattle.cg_c_syntax.specs.Tokens.{is_last};

    /// Reads a declaration.
    pub fn declaration(&mut self, alloc: Global) -> Result<Declaration, Misfit>
        ensures ok { IfOk result (λ d. Finds DeclarationSymbol (global_of d) self.old self.new) }
        ensures misses { IfErr result (λ e. Misses e DeclarationSymbol self.old self.new) }
        ensures same { self.new.bytes ≡ self.old.bytes }
    {
        if is_define(self.token.kind) {
            self.take();
            let constant = self.defined(alloc)?;
            return Ok(Declaration::Define(constant));
        }
        if self.next_is_word(b"enum") {
            return self.enumeration(alloc);
        }
        if self.next_is_word(b"static") {
            self.take();
            self.the_word(b"const")?;
            let table = self.table(alloc)?;
            return Ok(Declaration::Table(table));
        }
        if self.next_is_word(b"const") {
            self.take();
            let table = self.table(alloc)?;
            return Ok(Declaration::Table(table));
        }
        self.arrays(alloc)
    }

    /// Reads the name and the value of a `#define`, up to the end of its line.
    fn defined(&mut self, alloc: Global) -> Result<Constant, Misfit>
        ensures ok { IfOk result (λ c. Finds Defined (constant_of c) self.old self.new) }
        ensures misses { IfErr result (λ e. Misses e Defined self.old self.new) }
        ensures same { self.new.bytes ≡ self.old.bytes }
    {
        let place = self.token.place;
        let length = self.token.text.len();
        let name = self.name(alloc)?;
        let value = self.defined_value(alloc, place, length)?;
        self.line_end()?;
        Ok(Constant { name, value })
    }

    /// Reads the value of a `#define`, whose name of `length` bytes is at `place`.
    fn defined_value(&mut self, alloc: Global, place: usize, length: usize) -> Result<Expr, Misfit>
        ensures ok { IfOk result (λ e. Finds (DefinedValue (place + length)) (expr_of e) self.old self.new) }
        ensures misses { IfErr result (λ e. Misses e (DefinedValue (place + length)) self.old self.new) }
        ensures same { self.new.bytes ≡ self.old.bytes }
    {
        if is_number(self.token.kind) {
            return Ok(Expr::Number(self.numeral()));
        }
        if is_behind(place, length, self.token.place) {
            return Err(Misfit::Text);
        }
        if self.next_is(b"(") {
            self.take();
            self.mark(b"-")?;
            let number = self.number()?;
            self.mark(b")")?;
            return Ok(negative(alloc, number)?);
        }
        Err(Misfit::Text)
    }

    /// Reads an `enum`, the next token, with its names and values, up to the `;`.
    fn enumeration(&mut self, alloc: Global) -> Result<Declaration, Misfit>
        requires is { step DeclarationSymbol (left self.old).head ≡ enumeration_step }
        requires goes_on { is_last self.old.token.kind ≡ false }
        ensures ok { IfOk result (λ d. Finds DeclarationSymbol (global_of d) self.old self.new) }
        ensures misses { IfErr result (λ e. Misses e DeclarationSymbol self.old self.new) }
        ensures same { self.new.bytes ≡ self.old.bytes }
    {
        self.take();
        self.mark(b"{")?;
        let mut constants = Vec::new(alloc);
        constants.push(self.enumerator(alloc)?)?;
        while self.next_is(b",") {
            self.take();
            constants.push(self.enumerator(alloc)?)?;
        }
        self.mark(b"}")?;
        self.mark(b";")?;
        Ok(Declaration::Enumeration(constants))
    }

    /// Reads a name and its value.
    fn enumerator(&mut self, alloc: Global) -> Result<Constant, Misfit>
        ensures ok { IfOk result (λ c. Finds Enumerator (constant_of c) self.old self.new) }
        ensures misses { IfErr result (λ e. Misses e Enumerator self.old self.new) }
        ensures same { self.new.bytes ≡ self.old.bytes }
    {
        let name = self.name(alloc)?;
        self.mark(b"=")?;
        let value = self.expression(alloc, 0)?;
        Ok(Constant { name, value })
    }

    /// Reads arrays of one type, up to the `;`.
    fn arrays(&mut self, alloc: Global) -> Result<Declaration, Misfit>
        requires { step DeclarationSymbol (left self.old).head ≡ words_step (left self.old).head (signedness_of (left self.old).head) }
        ensures ok { IfOk result (λ d. Finds DeclarationSymbol (global_of d) self.old self.new) }
        ensures misses { IfErr result (λ e. Misses e DeclarationSymbol self.old self.new) }
        ensures same { self.new.bytes ≡ self.old.bytes }
    {
        let Some(signedness) = whole(cast_by(self.token.kind, self.token.text)) else {
            return Err(Misfit::Text);
        };
        self.take();
        let mut arrays = Vec::new(alloc);
        arrays.push(self.array(alloc)?)?;
        while self.next_is(b",") {
            self.take();
            arrays.push(self.array(alloc)?)?;
        }
        self.mark(b";")?;
        Ok(Declaration::Arrays { signedness, arrays })
    }

    /// Reads the name of an array and its dimensions.
    fn array(&mut self, alloc: Global) -> Result<Array, Misfit>
        ensures ok { IfOk result (λ a. Finds Declarator (array_of a) self.old self.new) }
        ensures misses { IfErr result (λ e. Misses e Declarator self.old self.new) }
        ensures same { self.new.bytes ≡ self.old.bytes }
    {
        let name = self.name(alloc)?;
        self.mark(b"[")?;
        let first = self.expression(alloc, 0)?;
        self.mark(b"]")?;
        let others = self.indices(alloc, 2, 0)?;
        let dimensions = led(first, others)?;
        Ok(Array { name, dimensions })
    }

    /// Returns whether a further dimension comes next after one and `more` others, of which there are at most two.
    fn next_is_dimension(&self, more: usize) -> bool
        ensures { result ≡ (nat_lt more 2 && is_the_mark (codes "[") (left self.now).head) }
    {
        more < 2 && self.next_is(b"[")
    }

    /// Reads a table after its `const`, up to the `;`.
    fn table(&mut self, alloc: Global) -> Result<Table, Misfit>
        ensures ok { IfOk result (λ t. Finds Tabled (table_of t) self.old self.new) }
        ensures misses { IfErr result (λ e. Misses e Tabled self.old self.new) }
        ensures same { self.new.bytes ≡ self.old.bytes }
    {
        let Some(signedness) = whole(cast_by(self.token.kind, self.token.text)) else {
            return Err(Misfit::Text);
        };
        self.take();
        let name = self.name(alloc)?;
        self.mark(b"[")?;
        let mut dimensions = Vec::new(alloc);
        dimensions.push(self.expression(alloc, 0)?)?;
        self.mark(b"]")?;
        let mut more = 0;
        while self.next_is_dimension(more) {
            self.take();
            dimensions.push(self.expression(alloc, 0)?)?;
            self.mark(b"]")?;
            more += 1;
        }
        self.mark(b"=")?;
        let rows = self.rows(alloc, more)?;
        self.mark(b";")?;
        let array = Array { name, dimensions };
        Ok(Table {
            signedness,
            array,
            rows,
        })
    }

    /// Reads the rows of one dimension and `more` others.
    #[cycle(rows)]
    fn rows(&mut self, alloc: Global, more: usize) -> Result<Rows, Misfit>
        ensures ok { IfOk result (λ r. Finds (Braced more) (rows_of r) self.old self.new) }
        ensures misses { IfErr result (λ e. Misses e (Braced more) self.old self.new) }
        ensures same { self.new.bytes ≡ self.old.bytes }
    {
        if more == 0 {
            self.values(alloc)
        } else {
            self.inner_rows(alloc, more)
        }
    }

    /// Reads the values of the last dimension of a table in their braces.
    fn values(&mut self, alloc: Global) -> Result<Rows, Misfit>
        ensures ok { IfOk result (λ r. Finds (Braced 0) (rows_of r) self.old self.new) }
        ensures misses { IfErr result (λ e. Misses e (Braced 0) self.old self.new) }
        ensures same { self.new.bytes ≡ self.old.bytes }
    {
        let place = self.token.place;
        self.mark(b"{")?;
        let mut values = Vec::new(alloc);
        values.push(self.expression(alloc, 0)?)?;
        while self.next_is(b",") {
            self.take();
            values.push(self.expression(alloc, 0)?)?;
        }
        self.mark(b"}")?;
        Ok(Rows::Values { place, values })
    }

    /// Reads rows of `more` dimensions in their braces, at least one.
    #[cycle(rows)]
    fn inner_rows(&mut self, alloc: Global, more: usize) -> Result<Rows, Misfit>
        requires { 1 ≤ more }
        ensures ok { IfOk result (λ r. Finds (Braced more) (rows_of r) self.old self.new) }
        ensures misses { IfErr result (λ e. Misses e (Braced more) self.old self.new) }
        ensures same { self.new.bytes ≡ self.old.bytes }
    {
        let place = self.token.place;
        self.mark(b"{")?;
        let mut rows = Vec::new(alloc);
        rows.push(self.rows(alloc, more - 1)?)?;
        while self.next_is(b",") {
            self.take();
            rows.push(self.rows(alloc, more - 1)?)?;
        }
        self.mark(b"}")?;
        Ok(listed(place, rows))
    }
}
