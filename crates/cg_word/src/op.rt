//! The operations and their properties: codes, names, arities and kinds.

/// An operation of a kernel's node or of an array's unit.
///
/// `LoadIf`, `StoreIf` and `OutputIf` are guarded: they act only where their first operand isn't 0.
#[derive(Clone, Copy, Debug, PartialEq, Eq)]
pub enum Op {
    Const,
    Iter,
    Input,
    Add,
    Sub,
    Mul,
    And,
    Or,
    Xor,
    Shl,
    Shr,
    Sar,
    Eq,
    Ne,
    Lts,
    Ltu,
    Mins,
    Maxs,
    Select,
    Load,
    Store,
    Output,
    LoadIf,
    StoreIf,
    OutputIf,
}

impl Op {
    ghost use Rattle.std.specs.Prelude.{◌≡◌, ◌<◌, ◌≤◌, ◌↔◌, Some};
    ghost use Rattle.cg_word.specs.Word.{code, name_of, arity, is_guarded, is_access, is_store, is_output, has_value, has_port, address_arg, last_arg, op_of, op_named};
    ghost use Rattle.cg_word.specs.declared.op.Op as ops;

    /// All operations, in the order of their codes.
    pub const ALL: [Op; 25] = [
        Op::Const,
        Op::Iter,
        Op::Input,
        Op::Add,
        Op::Sub,
        Op::Mul,
        Op::And,
        Op::Or,
        Op::Xor,
        Op::Shl,
        Op::Shr,
        Op::Sar,
        Op::Eq,
        Op::Ne,
        Op::Lts,
        Op::Ltu,
        Op::Mins,
        Op::Maxs,
        Op::Select,
        Op::Load,
        Op::Store,
        Op::Output,
        Op::LoadIf,
        Op::StoreIf,
        Op::OutputIf,
    ];

    /// Returns its code in bits and tables, counted from 1.
    pub fn code(self) -> u32
        ensures { result ≡ code self }
    {
        match self {
            Op::Const => 1,
            Op::Iter => 2,
            Op::Input => 3,
            Op::Add => 4,
            Op::Sub => 5,
            Op::Mul => 6,
            Op::And => 7,
            Op::Or => 8,
            Op::Xor => 9,
            Op::Shl => 10,
            Op::Shr => 11,
            Op::Sar => 12,
            Op::Eq => 13,
            Op::Ne => 14,
            Op::Lts => 15,
            Op::Ltu => 16,
            Op::Mins => 17,
            Op::Maxs => 18,
            Op::Select => 19,
            Op::Load => 20,
            Op::Store => 21,
            Op::Output => 22,
            Op::LoadIf => 23,
            Op::StoreIf => 24,
            Op::OutputIf => 25,
        }
    }

    /// Returns its name in kernel and architecture files.
    pub fn name(self) -> &'static str
        ensures { result.now ≡ name_of self }
    {
        match self {
            Op::Const => "const",
            Op::Iter => "iter",
            Op::Input => "input",
            Op::Add => "add",
            Op::Sub => "sub",
            Op::Mul => "mul",
            Op::And => "and",
            Op::Or => "or",
            Op::Xor => "xor",
            Op::Shl => "shl",
            Op::Shr => "shr",
            Op::Sar => "sar",
            Op::Eq => "eq",
            Op::Ne => "ne",
            Op::Lts => "lts",
            Op::Ltu => "ltu",
            Op::Mins => "mins",
            Op::Maxs => "maxs",
            Op::Select => "select",
            Op::Load => "load",
            Op::Store => "store",
            Op::Output => "output",
            Op::LoadIf => "loadif",
            Op::StoreIf => "storeif",
            Op::OutputIf => "outputif",
        }
    }

    /// Returns the number of its operands.
    pub fn arity(self) -> u32
        ensures count { result ≡ arity self }
        ensures few { result ≤ 3 }
    {
        match self {
            Op::Iter | Op::Input => 0,
            Op::Const | Op::Load | Op::Output => 1,
            Op::Add
            | Op::Sub
            | Op::Mul
            | Op::And
            | Op::Or
            | Op::Xor
            | Op::Shl
            | Op::Shr
            | Op::Sar
            | Op::Eq
            | Op::Ne
            | Op::Lts
            | Op::Ltu
            | Op::Mins
            | Op::Maxs
            | Op::Store
            | Op::LoadIf
            | Op::OutputIf => 2,
            Op::Select | Op::StoreIf => 3,
        }
    }

    /// Returns whether it acts only where its first operand, the guard, isn't 0.
    pub fn is_guarded(self) -> bool
        ensures { result ≡ is_guarded self }
    {
        matches!(self, Op::LoadIf | Op::StoreIf | Op::OutputIf)
    }

    /// Returns whether it accesses the scratchpad memory.
    pub fn is_access(self) -> bool
        ensures { result ≡ is_access self }
    {
        matches!(self, Op::Load | Op::Store | Op::LoadIf | Op::StoreIf)
    }

    /// Returns whether it is an access that writes.
    pub fn is_store(self) -> bool
        ensures { result ≡ is_store self }
    {
        matches!(self, Op::Store | Op::StoreIf)
    }

    /// Returns whether it appends to an output stream.
    pub fn is_output(self) -> bool
        ensures { result ≡ is_output self }
    {
        matches!(self, Op::Output | Op::OutputIf)
    }

    /// Returns whether it has a value that data edges may carry.
    pub fn has_value(self) -> bool
        ensures { result ≡ has_value self }
    {
        !matches!(self, Op::Store | Op::Output | Op::StoreIf | Op::OutputIf)
    }

    /// Returns whether it names the port of a stream.
    pub fn has_port(self) -> bool
        ensures { result ≡ has_port self }
    {
        matches!(self, Op::Input | Op::Output | Op::OutputIf)
    }

    /// Returns the number of the operand that is the address, for an access.
    pub fn address_arg(self) -> usize
        ensures place { result ≡ address_arg self }
        ensures few { result < 3 }
    {
        match self {
            Op::LoadIf | Op::StoreIf => 1,
            _ => 0,
        }
    }

    /// Returns the number of the operand that is stored or sent, for a store or an output: the last one.
    pub fn last_arg(self) -> usize
        ensures place { result ≡ last_arg self }
        ensures few { result < 3 }
    {
        match self {
            Op::Output => 0,
            Op::StoreIf => 2,
            _ => 1,
        }
    }

    /// Returns the operation with the code `number`.
    pub fn from_code(number: u32) -> Option<Op>
        ensures value { result ≡ op_of number }
        // None exactly for a code that no operation has.
        ensures exact { (op : ops.Op) → (result ≡ Some op) ↔ (code op ≡ number) }
    {
        Op::find_code(number)
    }

    #[tactic(auto, unfolding(crate::specs::Word::op_of))]
    fn find_code(number: u32) -> Option<Op>
        ensures { result ≡ op_of number }
    {
        Op::ALL.iter().copied().find(|op| op.code() == number)
    }

    /// Returns the operation with the name `name`.
    pub fn from_name(name: &str) -> Option<Op>
        ensures value { result ≡ op_named name.now }
        // None exactly for a name that no operation has.
        ensures exact { (op : ops.Op) → (result ≡ Some op) ↔ (name_of op ≡ name.now) }
    {
        Op::find_name(name)
    }

    #[tactic(auto, unfolding(crate::specs::Word::op_named))]
    fn find_name(name: &str) -> Option<Op>
        ensures { result ≡ op_named name.now }
    {
        Op::ALL.iter().copied().find(|op| op.name() == name)
    }
}
