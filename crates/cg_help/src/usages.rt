//! The words that each command takes.

use crate::numbers::Range;
use cg_model::{MOST_CONTEXTS, MOST_MOVES, MOST_TURNS};

/// A command with the words that it takes.
pub(crate) struct Usage {
    /// Its name.
    pub(crate) name: &'static str,
    /// The plain words of each of its forms, separated by single blanks.
    pub(crate) forms: &'static [&'static str],
    /// Its options.
    pub(crate) options: &'static [Choice],
}

/// An option of a command.
pub(crate) struct Choice {
    /// Its name, without the two hyphens.
    pub(crate) name: &'static str,
    /// What it takes as its value.
    pub(crate) takes: Takes,
}

/// What an option takes as its value.
#[derive(Clone, Copy)]
pub(crate) enum Takes {
    /// No value: it is a flag.
    Nothing,
    /// The name of a file.
    File,
    /// A number of this range.
    Number(Range),
}

/// The seeds of searches and trials.
pub(crate) const SEEDS: Range = Range {
    least: 0,
    most: u64::MAX,
};

/// The range of numbers of turns.
pub(crate) const TURNS: Range = Range {
    least: 0,
    most: MOST_TURNS as u64,
};

/// The options of a search.
const SEARCHING: [Choice; 4] = [
    Choice {
        name: "ii",
        takes: Takes::Number(Range {
            least: 1,
            most: MOST_CONTEXTS as u64,
        }),
    },
    Choice {
        name: "seed",
        takes: Takes::Number(SEEDS),
    },
    Choice {
        name: "moves",
        takes: Takes::Number(Range {
            least: 0,
            most: MOST_MOVES as u64,
        }),
    },
    Choice {
        name: "mapping",
        takes: Takes::File,
    },
];

/// The options of a run.
const RUNNING: [Choice; 1] = [Choice {
    name: "netlist",
    takes: Takes::File,
}];

/// The flags of a simplification.
const SIMPLIFYING: [Choice; 2] = [
    Choice {
        name: "copies",
        takes: Takes::Nothing,
    },
    Choice {
        name: "share",
        takes: Takes::Nothing,
    },
];

/// The commands in the order of their names.
pub(crate) static USAGES: [Usage; 20] = [
    Usage {
        name: "bench",
        forms: &["ARCH BITS TURNS IN OUT"],
        options: &[],
    },
    Usage {
        name: "bound",
        forms: &["ARCH KERNEL"],
        options: &[],
    },
    Usage {
        name: "check",
        forms: &["ARCH KERNEL MAPPING"],
        options: &[],
    },
    Usage {
        name: "depend",
        forms: &["KERNEL OUT"],
        options: &[],
    },
    Usage {
        name: "emit",
        forms: &["ARCH KERNEL MAPPING OUT"],
        options: &[],
    },
    Usage {
        name: "flat",
        forms: &["ARCH OUT"],
        options: &[],
    },
    Usage {
        name: "image",
        forms: &["TEXT OUT"],
        options: &[],
    },
    Usage {
        name: "loop",
        forms: &["SOURCE OUT"],
        options: &[],
    },
    Usage {
        name: "map",
        forms: &["ARCH KERNEL OUT"],
        options: &SEARCHING,
    },
    Usage {
        name: "migrate",
        forms: &["ARCH BITS OUT"],
        options: &[],
    },
    Usage {
        name: "run",
        forms: &["ARCH BITS TURNS IN OUT"],
        options: &RUNNING,
    },
    Usage {
        name: "search",
        forms: &["ARCH KERNEL OUT"],
        options: &SEARCHING,
    },
    Usage {
        name: "show",
        forms: &["ARCH KERNEL MAPPING", "ARCH KERNEL MAPPING OUT"],
        options: &[],
    },
    Usage {
        name: "simplify",
        forms: &["KERNEL OUT"],
        options: &SIMPLIFYING,
    },
    Usage {
        name: "trial",
        forms: &["SEED"],
        options: &[],
    },
    Usage {
        name: "turns",
        forms: &["KERNEL TURNS", "KERNEL TURNS IN OUT"],
        options: &[],
    },
    Usage {
        name: "verilog",
        forms: &["ARCH OUT"],
        options: &[],
    },
    Usage {
        name: "violations",
        forms: &["ARCH KERNEL MAPPING"],
        options: &[],
    },
    Usage {
        name: "why",
        forms: &["ARCH KERNEL"],
        options: &[],
    },
    Usage {
        name: "words",
        forms: &["IMAGE"],
        options: &[],
    },
];

/// Returns the command `name`, if there is one.
pub(crate) fn usage_of(name: &str) -> Option<&'static Usage> {
    USAGES.iter().find(|usage| usage.name == name)
}

impl Usage {
    /// Returns the option `name` of this command, if it takes one.
    pub(crate) fn choice(&self, name: &str) -> Option<&'static Choice> {
        self.options.iter().find(|choice| choice.name == name)
    }
}
