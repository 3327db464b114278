//! Why bytes are not a valid netlist.
ghost use Rattle.std.specs.Prelude.{◌≡◌, IfOk, string_bytes};
ghost use Rattle.cg_netlist_reader.specs.declared.fault.VerilogFault.TheVariants.{Memory};

use cg_model::Name;
use std::alloc::{AllocError, AllocFailed};
use std::fmt;
use thiserror::Error;

/// Why bytes are not a valid netlist. The variants after `Memory` are V1 to V3, in this order.
#[derive(Drop, Error)]
pub enum VerilogFault {
    #[error("memory ran out")]
    Memory,
    /// The text is not a module: the byte where it ceases to be the beginning of one.
    #[error("no module goes on so")]
    Text(usize),
    /// A cell's module has no form, or its pins aren't those of its form: the cell's number.
    #[error("no form has this name and these pins")]
    UnknownCell(usize),
    /// A net is declared again, or a pin's net isn't declared: its name.
    #[error("a net that is not declared once")]
    UnknownNet(Name),
}

impl fmt::Debug for VerilogFault {
    fn fmt<W: fmt::Write>(&self, f: &mut fmt::Formatter<W>) -> fmt::Result {
        write!(f, "{self}")
    }
}

impl From<AllocError> for VerilogFault {
    ghost from_gives = { λ _ fault. fault ≡ Memory };

    fn from(_error: AllocError) -> VerilogFault {
        VerilogFault::Memory
    }
}

impl<T: Drop> From<AllocFailed<T>> for VerilogFault {
    ghost from_gives = { λ _ fault. fault ≡ Memory };

    fn from(_error: AllocFailed<T>) -> VerilogFault {
        VerilogFault::Memory
    }
}
