//! Register pressure (Huff 1993): certificates that at an interval the values of a kernel need more registers than an
//! architecture has, and times that show that there is no certificate.
#![tactic(auto)]

mod certificate;
mod check;
mod counts;
mod dependence;
mod laws;
mod sums;
mod times;

pub use certificate::{Pressure, Pull, Stay, Tie};
pub use cg_recur::{Arch, Kernel};
pub use check::{check_pressure, least_stays};
pub use counts::{count_registers, most_latency};
pub use dependence::{Dependence, data_edge, order_edge};
pub use laws::{excludes, falls, loose, rises};
pub use sums::hops_at;
pub use times::{Times, all_stays, check_times};
