//! Reserved names.
ghost use Rattle.std.specs.Prelude.{◌≡◌};
ghost use Rattle.cg_c_check.specs.Reserved as spec;

/// Returns whether no source may declare `name`.
pub(crate) fn is_reserved(name: &str) -> bool
    ensures { result ≡ spec.is_reserved name.now }
{
    let name = name.as_bytes();
    is_declaration_word(name)
        || is_statement_word(name)
        || is_word_of_c23(name)
        || is_taken(name)
        || is_kept(name)
}

/// Returns whether the texts `left` and `right` are equal.
fn same(left: &[u8], right: &[u8]) -> bool
    ensures { result ≡ spec.same left.now right.now }
{
    left == right
}

/// Returns whether `name` is a word of C11 for declarations.
#[tactic(auto, unfolding(crate::specs::Reserved::is_declaration_word))]
fn is_declaration_word(name: &[u8]) -> bool
    ensures { result ≡ spec.is_declaration_word name.now }
{
    same(name, b"auto")
        || same(name, b"char")
        || same(name, b"const")
        || same(name, b"double")
        || same(name, b"enum")
        || same(name, b"extern")
        || same(name, b"float")
        || same(name, b"inline")
        || same(name, b"int")
        || same(name, b"long")
        || same(name, b"register")
        || same(name, b"restrict")
        || same(name, b"short")
        || same(name, b"signed")
        || same(name, b"static")
        || same(name, b"struct")
        || same(name, b"typedef")
        || same(name, b"union")
        || same(name, b"unsigned")
        || same(name, b"void")
        || same(name, b"volatile")
}

/// Returns whether `name` is another word of C11.
#[tactic(auto, unfolding(crate::specs::Reserved::is_statement_word))]
fn is_statement_word(name: &[u8]) -> bool
    ensures { result ≡ spec.is_statement_word name.now }
{
    same(name, b"break")
        || same(name, b"case")
        || same(name, b"continue")
        || same(name, b"default")
        || same(name, b"do")
        || same(name, b"else")
        || same(name, b"for")
        || same(name, b"goto")
        || same(name, b"if")
        || same(name, b"return")
        || same(name, b"sizeof")
        || same(name, b"switch")
        || same(name, b"while")
}

/// Returns whether `name` is a word that C23 adds.
#[tactic(auto, unfolding(crate::specs::Reserved::is_word_of_c23))]
fn is_word_of_c23(name: &[u8]) -> bool
    ensures { result ≡ spec.is_word_of_c23 name.now }
{
    same(name, b"alignas")
        || same(name, b"alignof")
        || same(name, b"bool")
        || same(name, b"constexpr")
        || same(name, b"false")
        || same(name, b"nullptr")
        || same(name, b"static_assert")
        || same(name, b"thread_local")
        || same(name, b"true")
        || same(name, b"typeof")
        || same(name, b"typeof_unqual")
}

/// Returns whether compilers or `cgra.h` take `name`.
#[tactic(auto, unfolding(crate::specs::Reserved::is_taken))]
fn is_taken(name: &[u8]) -> bool
    ensures { result ≡ spec.is_taken name.now }
{
    same(name, b"asm")
        || same(name, b"main")
        || same(name, b"defined")
        || same(name, b"unix")
        || same(name, b"linux")
        || same(name, b"i386")
        || same(name, b"in")
        || same(name, b"out")
        || same(name, b"min")
        || same(name, b"max")
        || same(name, b"cgra_in")
        || same(name, b"cgra_out")
        || same(name, b"CGRA_H")
}

/// Returns whether `name` begins with `front`.
fn begins(front: &[u8], name: &[u8]) -> bool
    ensures { result ≡ spec.begins front.now name.now }
{
    front.len() <= name.len() && same(&name[..front.len()], front)
}

/// Returns whether `name` ends in `back`.
fn ends(back: &[u8], name: &[u8]) -> bool
    ensures { result ≡ spec.ends back.now name.now }
{
    back.len() <= name.len() && same(&name[name.len() - back.len()..], back)
}

/// Returns whether the standard keeps `name` for the language and for `stdint.h`.
#[tactic(auto, unfolding(crate::specs::Reserved::is_kept))]
fn is_kept(name: &[u8]) -> bool
    ensures { result ≡ spec.is_kept name.now }
{
    begins(b"_", name)
        || begins(b"INT", name)
        || begins(b"UINT", name)
        || begins(b"SIZE_", name)
        || begins(b"PTRDIFF_", name)
        || begins(b"SIG_", name)
        || begins(b"WCHAR_", name)
        || begins(b"WINT_", name)
        || ends(b"_t", name)
}
