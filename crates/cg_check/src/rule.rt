//! The rules of legal mappings, and where a mapping violates one.

/// A rule of legal mappings.
#[derive(Clone, Copy, Debug, PartialEq, Eq)]
pub enum Rule {
    /// The interval is at least 1 and at most the number of contexts.
    L1,
    /// Each node is placed on a unit that offers its operation, at a time that isn't too late.
    L2,
    /// A unit begins at most one node in each slot.
    L3,
    /// The target of an order edge begins after its source.
    L4,
    /// Each route goes along links, from the source's out to the port, and arrives in time.
    L5,
    /// Routes that meet on a resource in a slot carry one value.
    L6,
    /// Routes that meet on a resource in a slot come from one resource.
    L7,
}

impl Rule {
    ghost use Rattle.std.specs.Prelude.{◌≡◌};
    ghost use Rattle.cg_check.specs.Texts.{rule_code};

    /// Returns the code of the rule, as reports print it.
    pub fn code(self) -> &'static str
        ensures { result.now ≡ rule_code self }
    {
        match self {
            Rule::L1 => "L1",
            Rule::L2 => "L2",
            Rule::L3 => "L3",
            Rule::L4 => "L4",
            Rule::L5 => "L5",
            Rule::L6 => "L6",
            Rule::L7 => "L7",
        }
    }
}

/// The place where a mapping violates a rule. All numbers count from 0.
#[derive(Clone, Copy, Debug, PartialEq, Eq)]
pub enum RulePlace {
    /// The mapping as a whole.
    Mapping,
    /// The node of that number.
    Node(usize),
    /// The order edge of that number.
    Order(usize),
    /// An operand of a node.
    Arg {
        /// The number of the node.
        node: u32,
        /// The number of the operand.
        arg: u32,
    },
    /// A resource in a slot.
    Resource {
        /// The number of the resource.
        resource: usize,
        /// The slot.
        slot: usize,
    },
}

/// A violated rule, and the place of the violation.
#[derive(Clone, Copy, Debug, PartialEq, Eq)]
pub struct Violation {
    /// The rule.
    pub rule: Rule,
    /// The first place at which it is violated.
    pub place: RulePlace,
}
