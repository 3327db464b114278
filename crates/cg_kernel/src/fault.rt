//! Why bytes don't describe a kernel.

ghost use Rattle.std.specs.Prelude.{◌≡◌};
ghost use Rattle.cg_kernel.specs.declared.fault.KernelFault.TheVariants.{Memory};

use std::alloc::AllocError;
use std::error::Error;
use std::fmt;

/// The first place of a fault: the whole file, a node or an order edge, counted from 0.
#[derive(Clone, Copy, Debug, PartialEq, Eq)]
pub enum KernelPlace {
    File,
    Node(usize),
    Order(usize),
}

/// Why bytes don't describe a kernel. The variants after `Memory` are K1 to K16, in this order.
#[derive(Debug, Drop)]
pub enum KernelFault {
    Memory,
    NotJson,
    WrongShape(KernelPlace),
    UnknownKey(KernelPlace),
    TooLarge,
    BadName(KernelPlace),
    RepeatedName(KernelPlace),
    UnknownOp(KernelPlace),
    WrongOperandCount(KernelPlace),
    UnknownNode(KernelPlace),
    NoValue(KernelPlace),
    BackEdgeWithoutDistance(KernelPlace),
    BadDistance(KernelPlace),
    InitCount(KernelPlace),
    TwoConstants(KernelPlace),
    BadPort(KernelPlace),
    RepeatedOutputPort(KernelPlace),
}

impl KernelFault {
    /// Returns what is wrong, without its place.
    fn message(&self) -> &'static str {
        match self {
            KernelFault::Memory => "memory ran out",
            KernelFault::NotJson => "no JSON value",
            KernelFault::WrongShape(_) => "wrong shape",
            KernelFault::UnknownKey(_) => "unknown key",
            KernelFault::TooLarge => "too many nodes or order edges",
            KernelFault::BadName(_) => "bad name",
            KernelFault::RepeatedName(_) => "repeated name",
            KernelFault::UnknownOp(_) => "unknown operation",
            KernelFault::WrongOperandCount(_) => "wrong number of operands",
            KernelFault::UnknownNode(_) => "unknown node",
            KernelFault::NoValue(_) => "source without a value",
            KernelFault::BackEdgeWithoutDistance(_) => "edge of distance 0 from no earlier node",
            KernelFault::BadDistance(_) => "distance too great",
            KernelFault::InitCount(_) => "wrong number of initial words",
            KernelFault::TwoConstants(_) => "more than one constant operand",
            KernelFault::BadPort(_) => "bad port",
            KernelFault::RepeatedOutputPort(_) => "repeated output port",
        }
    }
}

impl fmt::Display for KernelFault {
    fn fmt<W: fmt::Write>(&self, f: &mut fmt::Formatter<W>) -> fmt::Result {
        f.write_str(self.message())
    }
}

impl Error for KernelFault {}

impl From<AllocError> for KernelFault {
    ghost from_gives = { λ _ fault. fault ≡ Memory };

    fn from(_error: AllocError) -> KernelFault {
        KernelFault::Memory
    }
}
