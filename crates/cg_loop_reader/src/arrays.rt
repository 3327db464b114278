//! Arrays that are misplaced.
ghost use Rattle.std.specs.Prelude.{◌≡◌, ◌≤◌, ℕ, ◌&&◌, ◌||◌, nat_le, nat_lt, false, [], length, IfOk, slice_index_or};
ghost use Rattle.std.specs.List.{list_any};
ghost use Rattle.cg_loop_syntax.specs.Uses as spec;
ghost use Rattle.cg_loop_reader.specs.Numbered.{uses_of};
ghost use Rattle.cg_loop_reader.specs.Taken.{are_free, has_no_place, has_word};

use crate::numbering::NumberedUses;
use cg_loop_syntax::Role;
use cg_model::MOST_MEMORY;
use std::alloc::{AllocError, Global};

/// Allocates a memory of `count` words, none of which is taken.
fn free_words(alloc: Global, count: usize) -> Result<Vec<bool>, AllocError>
    ensures length { IfOk result (λ taken. length taken.items ≡ count) }
    ensures free { IfOk result (λ taken. (word : ℕ) → slice_index_or taken.items word false ≡ false) }
{
    vec![in alloc; false; count]
}

/// Returns whether one of `words` is taken.
fn is_taken(words: &[bool]) -> bool
    ensures { result ≡ list_any (λ word. word) words.now }
{
    words.iter().any(|word| *word)
}

/// Returns whether the words from `start` to before `end` are at least one, lie within `taken`, and are all free.
fn are_free(taken: &[bool], start: usize, end: usize) -> bool
    ensures { result ≡ are_free taken.now start end }
{
    start < end && end <= taken.len() && !is_taken(&taken[start..end])
}

/// Returns whether `role` declares an array whose words are not all free.
fn has_no_place(taken: &[bool], role: Role) -> bool
    ensures { result ≡ has_no_place taken.now role }
{
    match role {
        Role::Array { at, len } => {
            let start = at as usize;
            !are_free(taken, start, start + len as usize)
        }
        _ => false,
    }
}

/// Marks the words from `start` to before `end` as taken.
fn take_words(taken: &mut [bool], start: usize, end: usize)
    requires order { start ≤ end }
    requires within { end ≤ length taken.old }
    ensures { (word : ℕ) → slice_index_or taken.new word false ≡ (slice_index_or taken.old word false || (nat_le start word && nat_lt word end)) }
{
    taken[start..end].fill(true);
}

/// Marks the words of the array that `role` declares, which are free, as taken.
fn take(taken: &mut [bool], role: Role)
    requires { has_no_place taken.old role ≡ false }
    ensures { (word : ℕ) → slice_index_or taken.new word false ≡ (slice_index_or taken.old word false || has_word word role) }
{
    if let Role::Array { at, len } = role {
        let start = at as usize;
        take_words(taken, start, start + len as usize);
    }
}

/// Finds the first array of no word, or with words past the greatest address, or one that overlaps an earlier array.
pub(crate) fn first_misplaced(
    alloc: Global,
    numbered: &NumberedUses,
) -> Result<Option<usize>, AllocError>
    ensures { IfOk result (λ found. found ≡ spec.first_where spec.is_misplaced [] (uses_of numbered.now)) }
{
    let mut memory = free_words(alloc, MOST_MEMORY as usize)?;
    let taken = memory.as_mut_slice();
    for used in &numbered.uses {
        if has_no_place(taken, used.role) {
            return Ok(Some(used.place));
        }
        take(taken, used.role);
    }
    Ok(None)
}
