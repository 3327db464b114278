//! Words of C that sources have not, with what to write instead.

/// Words, separated by blanks, and a hint on each of them.
pub(crate) type Hint = (&'static str, &'static str);

/// Types that no declaration has.
const TYPES: &str =
    "char short long float double bool _Bool unsigned signed size_t int64_t uint64_t int8_t int16_t uint8_t uint16_t auto register volatile struct union typedef extern inline";

/// Words before which or with which a statement begins in C.
static STATEMENTS: [Hint; 5] = [
    (
        "while do",
        "; the only loop is for, with a counter that counts up to a constant: for (int i = 0; i < 8; i++)",
    ),
    (
        "return",
        "; the function returns nothing: write the result to an array, or with out(0, x); to a stream",
    ),
    (
        "break continue goto",
        "; a loop has a fixed number of turns: choose by if, or by c ? x : y",
    ),
    ("switch case default", "; choose by if and else"),
    (
        "printf puts scanf assert malloc free memcpy memset",
        "; no functions of C's library can be called",
    ),
];

/// Checks whether `words`, separated by blanks, contain `word`.
pub(crate) fn contain(words: &str, word: &str) -> bool {
    words.split(' ').any(|other| other == word)
}

/// Returns the first of `hints` that is for `word`.
pub(crate) fn hint_for(hints: &[Hint], word: &str) -> Option<&'static str> {
    for (words, hint) in hints {
        if contain(words, word) {
            return Some(*hint);
        }
    }
    None
}

/// Checks whether `word` is a type of C that no declaration has.
pub(crate) fn is_foreign_type(word: &str) -> bool {
    !word.is_empty() && contain(TYPES, word)
}

/// Returns a hint on `word`, if a statement of C begins with it that sources have not.
pub(crate) fn statement_hint(word: &str) -> Option<&'static str> {
    hint_for(&STATEMENTS, word)
}
