//! The values of expressions.
ghost use Rattle.std.specs.Prelude.{◌≡◌, ℕ, ◌<◌, true, false, List, length, not, nat_lt, IfOk, IfSome, drop, slice_get};
ghost use Rattle.cg_word.specs.Word.{apply_of};
ghost use Rattle.cg_word.specs.declared.op.Op.TheVariants as ops;
ghost use Rattle.cg_c_syntax.specs.declared.expression.Binary.TheVariants as binaries;
ghost use Rattle.cg_c_check.specs.Program as program;
ghost use Rattle.cg_c_check.specs.Rules as rules;
ghost use Rattle.cg_c_check.specs.Written.{expr_of, exprs_of, linked};
ghost use Rattle.cg_c_meaning.specs.Meaning.{is_settled, pick_op};
ghost use Rattle.cg_c_meaning.specs.Typed.{AreApart, IsArray, IsTypedExpr, IsTypedExprs, inputs, inputs_of};
ghost use Rattle.cg_c_values.specs.Listed.{listed};
ghost use Rattle.cg_c_values.specs.Values.{Extends, Fits, Means, Moment, Words, is_plain};
ghost use Rattle.cg_c_turn.specs.Draft.{Effect, assigned_in, draft_of};
ghost use Rattle.cg_c_turn.specs.Pieces.{AreTranslated, Chains, Enters, IsBegun, Joins, Links, Maps, Settles, wanted_of, direct_op as direct_op_of, is_direct, less_op as less_op_of, side_of as side, under as under_sign};
ghost use Rattle.cg_c_turn.specs.Stands.{ACondition, Agrees, IsFormed, TheWord, Translates};

use crate::draft::{Draft, Wanted};
use cg_c_check::{Constant, Element, Expr, Link};
use cg_c_syntax::{Binary, Cast, Pick, Sign, Signedness};
use cg_c_values::{Value, Values};
use cg_word::Op;
use std::alloc::AllocError;

/// Returns what is wanted of the operands of `op`.
fn side_of(op: Binary) -> Wanted
    ensures { result ≡ side op }
{
    match op {
        Binary::OrElse | Binary::AndThen => Wanted::ACondition,
        _ => Wanted::TheWord,
    }
}

/// Returns what is wanted of the operand of `sign`.
fn under(sign: Sign) -> Wanted
    ensures { result ≡ under_sign sign }
{
    match sign {
        Sign::Not => Wanted::ACondition,
        _ => Wanted::TheWord,
    }
}

/// Returns the operation that orders two words that are read as `reading` says.
fn less_op(reading: Signedness) -> Op
    ensures { result ≡ less_op_of reading }
{
    match reading {
        Signedness::Signed => Op::Lts,
        Signedness::Unsigned => Op::Ltu,
    }
}

/// Returns the operation that `op` is, where it reads its operands as `reading` says.
fn direct_op(op: Binary, reading: Signedness) -> Op
    ensures { result ≡ direct_op_of op reading }
{
    match op {
        Binary::Or => Op::Or,
        Binary::Xor => Op::Xor,
        Binary::And => Op::And,
        Binary::Equal => Op::Eq,
        Binary::Unequal => Op::Ne,
        Binary::Less => less_op(reading),
        Binary::ShiftLeft => Op::Shl,
        Binary::ShiftRight => match reading {
            Signedness::Signed => Op::Sar,
            Signedness::Unsigned => Op::Shr,
        },
        Binary::Sub => Op::Sub,
        Binary::Mul => Op::Mul,
        _ => Op::Add,
    }
}

/// Returns a value that serves for the word of `v`.
fn as_wanted(values: &Values, v: usize, wanted: Wanted) -> usize
    requires within { v < length (listed values.now) }
    ensures within { result < length (listed values.now) }
    ensures agrees { (x : Moment) (E : Words) → Fits (listed values.now) x E → Agrees wanted (E result) (E v) }
{
    match wanted {
        Wanted::TheWord => v,
        Wanted::ACondition => values.tested(v),
    }
}

/// Returns the value of `sign`, which isn't `!`, before an operand.
fn signed_word(values: &mut Values, sign: Sign, v: usize) -> Result<usize, AllocError>
    requires word { under_sign sign ≡ TheWord }
    requires within { v < length (listed values.now) }
    ensures kept { Extends (listed values.old) (listed values.new) }
    ensures means { IfOk result (λ r. Means (listed values.new) r (λ x E. rules.signed_word sign (E v))) }
{
    match sign {
        Sign::Minus => {
            let zero = values.constant(0)?;
            values.two(Op::Sub, zero, v)
        }
        Sign::Complement => {
            let ones = values.constant(u32::MAX)?;
            values.two(Op::Xor, v, ones)
        }
        Sign::Not | Sign::Plus => Ok(v),
    }
}

/// Returns the value of `sign` before an operand, of which was wanted what `under` says.
fn signed(values: &mut Values, sign: Sign, v: usize, wanted: Wanted) -> Result<usize, AllocError>
    requires within { v < length (listed values.now) }
    ensures { IfOk result (λ r. Maps (listed values.old) (listed values.new) (under_sign sign) v wanted r (rules.signed_word sign)) }
{
    match sign {
        Sign::Not => values.negation(v),
        Sign::Minus | Sign::Complement | Sign::Plus => {
            let word = signed_word(values, sign, v)?;
            Ok(as_wanted(values, word, wanted))
        }
    }
}

/// Returns the lowest `bits` bits of `v`, of which the first is a sign.
fn extended(values: &mut Values, bits: u32, v: usize) -> Result<usize, AllocError>
    requires bits { bits < 32 }
    requires within { v < length (listed values.now) }
    ensures kept { Extends (listed values.old) (listed values.new) }
    ensures means { IfOk result (λ r. Means (listed values.new) r (λ x E. rules.extended bits (E v))) }
{
    let count = values.constant(32 - bits)?;
    let left = values.two(Op::Shl, v, count)?;
    values.two(Op::Sar, left, count)
}

/// Returns the bits of `v` that `ones` has.
fn masked(values: &mut Values, ones: u32, v: usize) -> Result<usize, AllocError>
    requires within { v < length (listed values.now) }
    ensures kept { Extends (listed values.old) (listed values.new) }
    ensures means { IfOk result (λ r. Means (listed values.new) r (λ x E. apply_of ops.And (E v) ones 0)) }
{
    let ones = values.constant(ones)?;
    values.two(Op::And, v, ones)
}

/// Returns the value of a cast to `to`.
fn cast_word(values: &mut Values, to: Cast, v: usize) -> Result<usize, AllocError>
    requires within { v < length (listed values.now) }
    ensures kept { Extends (listed values.old) (listed values.new) }
    ensures means { IfOk result (λ r. Means (listed values.new) r (λ x E. rules.cast_word to (E v))) }
{
    match to {
        Cast::Signed | Cast::Unsigned => Ok(v),
        Cast::SignedByte => extended(values, 8, v),
        Cast::SignedHalf => extended(values, 16, v),
        Cast::UnsignedByte => masked(values, 0xFF, v),
        Cast::UnsignedHalf => masked(values, 0xFFFF, v),
    }
}

/// Returns a value that serves for that of a cast to `to`.
fn converted(values: &mut Values, to: Cast, v: usize, wanted: Wanted) -> Result<usize, AllocError>
    requires within { v < length (listed values.now) }
    ensures { IfOk result (λ r. Maps (listed values.old) (listed values.new) TheWord v wanted r (rules.cast_word to)) }
{
    let word = cast_word(values, to, v)?;
    Ok(as_wanted(values, word, wanted))
}

/// Returns the value of an operator that always evaluates both sides.
fn operated(
    values: &mut Values,
    op: Binary,
    reading: Signedness,
    first: usize,
    second: usize,
) -> Result<usize, AllocError>
    requires always { rules.is_conditional op ≡ false }
    requires first { first < length (listed values.now) }
    requires second { second < length (listed values.now) }
    ensures kept { Extends (listed values.old) (listed values.new) }
    ensures means { IfOk result (λ r. Means (listed values.new) r (λ x E. rules.two_words op reading (E first) (E second))) }
{
    match op {
        Binary::Greater => values.two(less_op(reading), second, first),
        Binary::AtMost => {
            let less = values.two(less_op(reading), second, first)?;
            values.negation(less)
        }
        Binary::AtLeast => {
            let less = values.two(less_op(reading), first, second)?;
            values.negation(less)
        }
        _ => values.two(direct_op(op, reading), first, second),
    }
}

/// Returns the value of `||` of two conditions.
fn either(
    values: &mut Values,
    first: usize,
    second: usize,
    wanted: Wanted,
) -> Result<usize, AllocError>
    requires first { first < length (listed values.now) }
    requires second { second < length (listed values.now) }
    ensures { (reading : _) → IfOk result (λ r. Joins (listed values.old) (listed values.new) binaries.OrElse reading first second wanted r) }
{
    let either = values.two(Op::Or, first, second)?;
    match wanted {
        Wanted::TheWord => values.truth(either),
        Wanted::ACondition => Ok(either),
    }
}

/// Returns the value of `&&` of two conditions.
fn both(values: &mut Values, first: usize, second: usize) -> Result<usize, AllocError>
    requires first { first < length (listed values.now) }
    requires second { second < length (listed values.now) }
    ensures { (reading wanted : _) → IfOk result (λ r. Joins (listed values.old) (listed values.new) binaries.AndThen reading first second wanted r) }
{
    let first = values.truth(first)?;
    let second = values.truth(second)?;
    values.two(Op::And, first, second)
}

/// Returns the value of an operator between two values, of which was wanted what `side_of` says.
pub(crate) fn joined(
    values: &mut Values,
    op: Binary,
    reading: Signedness,
    first: usize,
    second: usize,
    wanted: Wanted,
) -> Result<usize, AllocError>
    requires first { first < length (listed values.now) }
    requires second { second < length (listed values.now) }
    ensures { IfOk result (λ r. Joins (listed values.old) (listed values.new) op reading first second wanted r) }
{
    match op {
        Binary::OrElse => either(values, first, second, wanted),
        Binary::AndThen => both(values, first, second),
        _ => {
            let word = operated(values, op, reading, first, second)?;
            Ok(as_wanted(values, word, wanted))
        }
    }
}

/// Returns the value of the lesser or the greater of two words.
fn picked(
    values: &mut Values,
    pick: Pick,
    first: usize,
    second: usize,
    wanted: Wanted,
) -> Result<usize, AllocError>
    requires first { first < length (listed values.now) }
    requires second { second < length (listed values.now) }
    ensures kept { Extends (listed values.old) (listed values.new) }
    ensures within { IfOk result (λ r. r < length (listed values.new)) }
    ensures agrees { IfOk result (λ r. (x : Moment) (E : Words) → Fits (listed values.new) x E → Agrees wanted (E r) (apply_of (pick_op pick) (E first) (E second) 0)) }
{
    let op = match pick {
        Pick::Min => Op::Mins,
        Pick::Max => Op::Maxs,
    };
    let word = values.two(op, first, second)?;
    Ok(as_wanted(values, word, wanted))
}

/// Returns what a constant condition says; `None` for other values.
fn decided(values: &Values, condition: usize) -> Option<bool>
    requires within { condition < length (listed values.now) }
    ensures { IfSome result (λ holds. (x : Moment) (E : Words) → Fits (listed values.now) x E → nat_lt 0 (E condition) ≡ holds) }
{
    match values.number(condition) {
        Some(word) => Some(word != 0),
        None => None,
    }
}

/// Returns the word of `op` where its left side, the condition `first`, settles it in each turn; `None` if it may not.
fn settled(values: &Values, op: Binary, first: usize) -> Option<u32>
    requires within { first < length (listed values.now) }
    ensures { IfSome result (λ word. Settles (listed values.now) op first word) }
{
    match (op, decided(values, first)) {
        (Binary::OrElse, Some(true)) => Some(1),
        (Binary::AndThen, Some(false)) => Some(0),
        _ => None,
    }
}

/// Returns what is wanted of the value before the operators `rest`.
fn wanted_before(rest: &[Link], index: usize, wanted: Wanted) -> Wanted
    ensures { result ≡ wanted_of wanted (drop index rest.now) }
{
    match rest.get(index) {
        Some(link) => side_of(link.op),
        None => wanted,
    }
}

impl<'p> Draft<'p> {
    /// Translates an expression, and returns its value.
    #[cycle(expression)]
    pub fn expr(&mut self, e: &Expr, wanted: Wanted) -> Result<usize, AllocError>
        requires formed { IsFormed (draft_of self.now) }
        requires typed { IsTypedExpr (draft_of self.now).arrays true (expr_of e.now) }
        requires apart { AreApart (inputs (expr_of e.now)) }
        ensures { IfOk result (λ v. (added : List Effect) × Translates (draft_of self.old) (draft_of self.new) added (expr_of e.now) wanted v) }
    {
        match e {
            Expr::Literal(constant) => self.literal(*constant, wanted),
            Expr::Word { number, .. } => self.word(*number, wanted),
            Expr::Counter(depth) => self.counter(*depth, wanted),
            Expr::Element(element) => {
                let v = self.element(element)?;
                Ok(as_wanted(&self.values, v, wanted))
            }
            Expr::Sign { sign, operand, .. } => {
                let v = self.expr(operand, under(*sign))?;
                signed(&mut self.values, *sign, v, wanted)
            }
            Expr::Cast { to, operand } => {
                let v = self.expr(operand, Wanted::TheWord)?;
                converted(&mut self.values, *to, v, wanted)
            }
            Expr::Input(port) => self.input(*port, wanted),
            Expr::Pick {
                pick,
                first,
                second,
            } => {
                let first = self.expr(first, Wanted::TheWord)?;
                let second = self.expr(second, Wanted::TheWord)?;
                picked(&mut self.values, *pick, first, second, wanted)
            }
            Expr::Chain { first, rest } => {
                let first = self.expr(first, wanted_before(rest, 0, wanted))?;
                self.chain(rest, first, wanted)
            }
            Expr::Choice {
                condition,
                chosen,
                other,
                ..
            } => {
                let condition = self.expr(condition, Wanted::ACondition)?;
                match decided(&self.values, condition) {
                    Some(true) => self.expr(chosen, wanted),
                    Some(false) => self.expr(other, wanted),
                    None => {
                        let kept = self.enter(condition)?;
                        let chosen = self.expr(chosen, Wanted::TheWord)?;
                        self.guard = kept;
                        let kept = self.enter_other(condition)?;
                        let other = self.expr(other, Wanted::TheWord)?;
                        self.guard = kept;
                        let word = self.values.select(condition, chosen, other)?;
                        Ok(as_wanted(&self.values, word, wanted))
                    }
                }
            }
        }
    }

    /// Translates the operators and operands `rest` after a left side whose value is `first`.
    #[cycle(expression)]
    fn chain(&mut self, rest: &[Link], first: usize, wanted: Wanted) -> Result<usize, AllocError>
        requires { IsBegun (draft_of self.now) rest.now (wanted_of wanted rest.now) first }
        ensures { IfOk result (λ v. Chains (draft_of self.old) (draft_of self.new) rest.now (wanted_of wanted rest.now) first wanted v) }
    {
        let mut first = first;
        for (index, link) in rest.iter().enumerate() {
            first = self.link(link, first, wanted_before(rest, index + 1, wanted))?;
        }
        Ok(first)
    }

    /// Translates the operator of `link` and its right side, after a left side whose value is `first`.
    #[cycle(expression)]
    fn link(&mut self, link: &Link, first: usize, wanted: Wanted) -> Result<usize, AllocError>
        requires formed { IsFormed (draft_of self.now) }
        requires first { first < length (draft_of self.now).values }
        requires typed { IsTypedExpr (draft_of self.now).arrays true (expr_of link.now.operand) }
        requires apart { AreApart (inputs (expr_of link.now.operand)) }
        ensures { IfOk result (λ v. (added : List Effect) × Links (draft_of self.old) (draft_of self.new) added link.now.op link.now.reading first (expr_of link.now.operand) wanted v) }
    {
        if let Some(word) = settled(&self.values, link.op, first) {
            return self.values.constant(word);
        }
        let kept = self.enter_right(link.op, first)?;
        let second = self.expr(&link.operand, side_of(link.op))?;
        self.guard = kept;
        joined(
            &mut self.values,
            link.op,
            link.reading,
            first,
            second,
            wanted,
        )
    }

    /// Translates an element of an array, and returns the value of its word.
    #[cycle(expression)]
    fn element(&mut self, element: &Element) -> Result<usize, AllocError>
        requires formed { IsFormed (draft_of self.now) }
        requires there { IsArray (draft_of self.now).arrays element.now.array }
        requires typed { IsTypedExprs (draft_of self.now).arrays true (exprs_of element.now.indices.items) }
        requires apart { AreApart (inputs_of (exprs_of element.now.indices.items)) }
        ensures { IfOk result (λ v. (added : List Effect) × Translates (draft_of self.old) (draft_of self.new) added (program.Element element.now.array element.now.place element.now.signedness (exprs_of element.now.indices.items)) TheWord v) }
    {
        let indices = self.exprs(&element.indices)?;
        let address = self.address(element.array, &indices)?;
        self.load(element.array, address, element.place)
    }

    /// Translates expressions, and returns their values.
    #[cycle(expression)]
    pub(crate) fn exprs(&mut self, es: &[Expr]) -> Result<Vec<usize>, AllocError>
        requires formed { IsFormed (draft_of self.now) }
        requires typed { IsTypedExprs (draft_of self.now).arrays true (exprs_of es.now) }
        requires apart { AreApart (inputs_of (exprs_of es.now)) }
        ensures { IfOk result (λ vs. (added : List Effect) × AreTranslated (draft_of self.old) (draft_of self.new) added (exprs_of es.now) vs.items) }
    {
        let mut values = Vec::new(self.alloc);
        for e in es {
            let v = self.expr(e, Wanted::TheWord)?;
            values.push(v)?;
        }
        Ok(values)
    }

    /// Returns the value of a constant.
    fn literal(&mut self, constant: Constant, wanted: Wanted) -> Result<usize, AllocError>
        requires formed { IsFormed (draft_of self.now) }
        ensures { IfOk result (λ v. (added : List Effect) × Translates (draft_of self.old) (draft_of self.new) added (program.Literal constant) wanted v) }
    {
        let v = self.values.constant(constant.word)?;
        Ok(as_wanted(&self.values, v, wanted))
    }

    /// Returns the value of the word of this number at the point.
    fn word(&mut self, number: usize, wanted: Wanted) -> Result<usize, AllocError>
        requires formed { IsFormed (draft_of self.now) }
        ensures { (s : _) → IfOk result (λ v. (added : List Effect) × Translates (draft_of self.old) (draft_of self.new) added (program.Word number s) wanted v) }
    {
        match self.assigned(number) {
            Some(v) => Ok(as_wanted(&self.values, v, wanted)),
            None => {
                let v = self.values.add(Value::Carried(number))?;
                Ok(as_wanted(&self.values, v, wanted))
            }
        }
    }

    /// Returns the value that the word of this number was last assigned in this turn, if it was.
    pub(crate) fn assigned(&self, number: usize) -> Option<usize>
        ensures { result ≡ assigned_in (draft_of self.now) number }
    {
        match self.words.get(number) {
            Some(v) => *v,
            None => None,
        }
    }

    /// Returns the value of the counter of the loop that `depth` loops are around.
    fn counter(&mut self, depth: u32, wanted: Wanted) -> Result<usize, AllocError>
        requires formed { IsFormed (draft_of self.now) }
        ensures { IfOk result (λ v. (added : List Effect) × Translates (draft_of self.old) (draft_of self.new) added (program.Counter depth) wanted v) }
    {
        match self.counter_at(depth as usize) {
            Some(v) => Ok(as_wanted(&self.values, v, wanted)),
            None => {
                let v = self.values.constant(0)?;
                Ok(as_wanted(&self.values, v, wanted))
            }
        }
    }

    /// Returns the value of the counter of the loop that `depth` loops are around, if it is one of those around the point.
    fn counter_at(&self, depth: usize) -> Option<usize>
        ensures { result ≡ slice_get (draft_of self.now).counters depth }
    {
        self.counters.get(depth).copied()
    }

    /// Returns the value of the next word from a port.
    fn input(&mut self, port: u32, wanted: Wanted) -> Result<usize, AllocError>
        requires formed { IsFormed (draft_of self.now) }
        requires port { port < 16 }
        ensures { IfOk result (λ v. (added : List Effect) × Translates (draft_of self.old) (draft_of self.new) added (program.Input port) wanted v) }
    {
        let v = self.values.add(Value::Input(port))?;
        Ok(as_wanted(&self.values, v, wanted))
    }

    /// Puts the point under the condition that the value `condition` isn't 0, and returns the guard before.
    pub(crate) fn enter(&mut self, condition: usize) -> Result<Option<usize>, AllocError>
        requires formed { IsFormed (draft_of self.now) }
        requires within { condition < length (draft_of self.now).values }
        ensures before { IfOk result (λ g. g ≡ (draft_of self.old).guard) }
        ensures enters { IfOk result (λ g. Enters (draft_of self.old) (draft_of self.new) (λ E w. Agrees ACondition (E condition) w) rules.is_true) }
    {
        let kept = self.guard;
        self.guard = self.values.both(kept, condition)?;
        Ok(kept)
    }

    /// Puts the point under the condition that the value `condition` is 0, and returns the guard before.
    pub(crate) fn enter_other(&mut self, condition: usize) -> Result<Option<usize>, AllocError>
        requires formed { IsFormed (draft_of self.now) }
        requires within { condition < length (draft_of self.now).values }
        ensures before { IfOk result (λ g. g ≡ (draft_of self.old).guard) }
        ensures enters { IfOk result (λ g. Enters (draft_of self.old) (draft_of self.new) (λ E w. Agrees ACondition (E condition) w) (λ w. not (rules.is_true w))) }
    {
        let kept = self.guard;
        let other = self.values.negation(condition)?;
        self.guard = self.values.both(kept, other)?;
        Ok(kept)
    }

    /// Puts the point under the condition that the left side of `op` doesn't settle it, and returns the guard before.
    fn enter_right(&mut self, op: Binary, first: usize) -> Result<Option<usize>, AllocError>
        requires formed { IsFormed (draft_of self.now) }
        requires within { first < length (draft_of self.now).values }
        ensures before { IfOk result (λ g. g ≡ (draft_of self.old).guard) }
        ensures enters { IfOk result (λ g. Enters (draft_of self.old) (draft_of self.new) (λ E w. Agrees (side op) (E first) w) (λ w. not (is_settled op w))) }
    {
        match op {
            Binary::OrElse => self.enter_other(first),
            Binary::AndThen => self.enter(first),
            _ => Ok(self.guard),
        }
    }
}
