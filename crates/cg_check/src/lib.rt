//! The exact checker of mappings, and mappings that are legal.
#![tactic(auto)]

mod checker;
mod claims;
mod clashes;
mod edge;
mod legal;
mod model;
mod placing;
mod routing;
mod rule;
mod slots;
mod stop;
mod texts;

pub use cg_arch::Arch;
pub use cg_model::{Kernel, Mapping, Place, Route};
pub use checker::{CheckVerdict, check};
pub use clashes::all_claims;
pub use edge::{DataEdge, edge_into};
pub use legal::LegalMapping;
pub use model::{delay, leaves};
pub use placing::{is_after, stands_well};
pub use routing::is_brought;
pub use rule::{Rule, RulePlace, Violation};
pub use stop::{Cell, Sharing, Stop};
pub use texts::rule_text;
