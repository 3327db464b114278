//! Words that other languages and tools use for operations and keys. In each table, words are separated by blanks.

use std::alloc::{AllocError, Global};

/// Keys, each with the words that other formats use for it. A word may be listed for several keys, in objects of
/// different kinds.
static KEY_WORDS: [(&'static str, &'static str); 24] = [
    ("op", "operation opcode type kind function"),
    ("name", "id label title"),
    (
        "args",
        "input operand inputs operands arguments sources value imm const",
    ),
    ("from", "source src input inputs drivers sources"),
    ("to", "target dst dest destination sink"),
    ("distance", "dist delay lag iterations"),
    ("init", "initial default start initial_value"),
    ("time", "cycle start"),
    ("unit", "pe fu tile cell resource"),
    ("ii", "interval initiation_interval"),
    ("places", "placement placements schedule"),
    ("routes", "routing edges connections"),
    ("order", "edges dependences dependencies"),
    ("nodes", "operations instructions body"),
    ("arg", "index operand argument"),
    ("path", "route hops way"),
    ("reg", "register registers"),
    ("ops", "operations functions"),
    ("latency", "delay cycles"),
    ("grid", "rows layout array"),
    ("contexts", "slots configurations depth"),
    ("port", "stream channel"),
    ("memory", "mem words memory_size scratchpad"),
    ("format", "version schema"),
];

/// Operations, each with other words for it.
static SYNONYMS: [(&'static str, &'static str); 22] = [
    ("add", "plus sum + addi iadd addition"),
    ("sub", "minus subtract - subi isub difference"),
    ("mul", "times multiply mult * muli imul product"),
    ("and", "& band bitand andi"),
    ("or", "| bor bitor ori"),
    ("xor", "^ eor bxor bitxor xori"),
    ("shl", "sll << lsl lshift slli"),
    ("shr", "srl >>> lsr lshr srli"),
    ("sar", "sra asr ashr srai"),
    ("eq", "== equal equals seq"),
    ("ne", "!= neq <> noteq"),
    ("lts", "lt slt < less"),
    ("ltu", "ult sltu"),
    ("mins", "min smin minimum"),
    ("maxs", "max smax maximum"),
    ("select", "mux sel ternary phi ?: cmov ite if"),
    (
        "const",
        "constant literal imm immediate number copy move mov route pass",
    ),
    ("input", "in recv receive pop"),
    ("output", "out send push print"),
    ("load", "read ld lw fetch"),
    ("store", "write st sw"),
    ("iter", "index i idx turn counter iteration loop"),
];

/// Words for operations that the format lacks, with the form that replaces them.
static FORMS: [(&'static str, &'static str); 14] = [
    (
        "gt sgt > greater",
        "a > b is \"lts\" with its arguments swapped, b before a (\"ltu\" for unsigned words)",
    ),
    (
        "ge gte sge >=",
        "a >= b is \"lts\" of a and b, and then \"eq\" of that and 0",
    ),
    (
        "le lte sle <=",
        "a <= b is \"lts\" of b and a, and then \"eq\" of that and 0",
    ),
    (">> rshift", "write \"sar\", or \"shr\" for unsigned words"),
    (
        "neg negate",
        "write \"sub\" with the number 0 as its first argument",
    ),
    (
        "not inv ! ~",
        "write \"eq\" with the number 0, or for a bitwise not \"xor\" with the number 4294967295",
    ),
    (
        "div divide / mod rem % modulo",
        "there is no division; \"shr\" by 1 halves a word, and \"and\" with 7 gives the remainder of a division by 8",
    ),
    (
        "abs",
        "write \"maxs\" of a and of \"sub\" with the arguments 0 and a",
    ),
    ("mac fma madd", "write \"mul\" and then \"add\""),
    ("inc ++", "write \"add\" with the number 1"),
    ("dec --", "write \"sub\" with the number 1"),
    (
        "cmp compare",
        "the comparisons are \"eq\", \"ne\", \"lts\" and \"ltu\"",
    ),
    (
        "minu umin maxu umax",
        "write \"select\" with \"ltu\" as its condition",
    ),
    (
        "fadd fsub fmul fdiv sqrt",
        "words are integers; there are no floating-point operations",
    ),
];

/// Checks whether `word` is one of `words`, which are separated by blanks.
fn is_among(word: &str, words: &str) -> bool {
    words.split(' ').any(|known| known == word)
}

/// Returns the operation that `word` means in other languages and tools, if a single operation means the same. Capitals
/// count as small letters.
pub fn operation_meant(alloc: Global, word: &str) -> Result<Option<&'static str>, AllocError> {
    let word = word.to_ascii_lowercase(alloc)?;
    for (op, words) in &SYNONYMS {
        if is_among(word.as_str(), words) {
            return Ok(Some(*op));
        }
    }
    Ok(None)
}

/// Returns how to write what `word` means in other languages and tools, if no single operation does it.
pub(crate) fn form_meant(alloc: Global, word: &str) -> Result<Option<&'static str>, AllocError> {
    let word = word.to_ascii_lowercase(alloc)?;
    for (words, form) in &FORMS {
        if is_among(word.as_str(), words) {
            return Ok(Some(*form));
        }
    }
    Ok(None)
}

/// Returns the one of `keys` that `word` means in other formats. Capitals count as small letters.
pub(crate) fn key_meant(
    alloc: Global,
    word: &str,
    keys: &[&'static str],
) -> Result<Option<&'static str>, AllocError> {
    let word = word.to_ascii_lowercase(alloc)?;
    for (key, words) in &KEY_WORDS {
        if keys.contains(key) && is_among(word.as_str(), words) {
            return Ok(Some(*key));
        }
    }
    Ok(None)
}
