//! Words of other languages in loop bodies.

/// Words that other languages write before the names of values.
const TYPES: [&str; 28] = [
    "int", "uint", "long", "short", "char", "float", "double", "bool", "unsigned", "signed",
    "size_t", "int8_t", "int16_t", "int32_t", "int64_t", "uint8_t", "uint16_t", "uint32_t",
    "uint64_t", "i32", "u32", "i64", "u64", "var", "const", "auto", "static", "mut",
];

/// Words that other languages call as functions, separated by blanks, with what to write instead.
static CALLS: [(&'static str, &'static str); 12] = [
    ("gt sgt greater", "write b < a for a > b"),
    ("ge gte sge", "write (a < b) == 0 for a >= b"),
    ("le lte sle", "write (b < a) == 0 for a <= b"),
    ("neg negate", "write 0 - a for neg(a)"),
    (
        "not inv",
        "write a == 0 for not(a), or xor(a, 4294967295) for the bitwise not",
    ),
    (
        "div divide mod rem modulo",
        "there is no division: shr(a, 1) halves a, and and(a, 7) is the remainder of a division by 8",
    ),
    ("abs", "write maxs(a, 0 - a) for abs(a)"),
    (
        "load read ld loadif",
        "an array is read by index, for example a[turn]",
    ),
    (
        "store write st storeif",
        "an array is written by index, for example a[turn] = s;",
    ),
    (
        "in input recv receive",
        "an input is written without brackets: in 0 is the word of input stream 0",
    ),
    (
        "out output outputif print printf send return",
        "an output is written out 0 = s; with the number of its stream",
    ),
    (
        "iter index i",
        "the number of the turn is just the word turn",
    ),
];

/// Checks whether `word` is a type of other languages, or another word before the name of a value.
pub(crate) fn is_type(word: &str) -> bool {
    TYPES.contains(&word)
}

/// Returns what to write instead of a call of `name`, if it is a word of other languages that has another form here.
pub(crate) fn call_hint(name: &str) -> Option<&'static str> {
    for (words, hint) in &CALLS {
        if words.split(' ').any(|word| word == name) {
            return Some(*hint);
        }
    }
    None
}
