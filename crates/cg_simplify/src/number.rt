//! The numbers of nodes that stay.
ghost use Rattle.std.specs.Prelude.{◌≡◌, ◌≤◌, IfOk, length, slice_index};
ghost use Rattle.cg_model.specs.Limits.{most_nodes};
ghost use Rattle.cg_simplify.specs.Live.{AreNumbered};

use std::alloc::{AllocError, Global};

/// The nodes that stay, ascending, and the new number of each node that stays.
#[derive(Drop)]
pub(crate) struct Numbering {
    pub kept: Vec<u32>,
    pub numbers: Vec<u32>,
}

/// Numbers the nodes that `marks` marks.
pub(crate) fn renumber(alloc: Global, marks: &[bool]) -> Result<Numbering, AllocError>
    requires { length marks.now ≤ most_nodes }
    ensures { IfOk result (λ n. AreNumbered (length marks.now) marks.now n.kept.items n.numbers.items) }
{
    let mut kept = Vec::new(alloc);
    let mut numbers = Vec::new(alloc);
    for number in 0..marks.len() {
        numbers.push(kept.len() as u32)?;
        if marks[number] {
            kept.push(number as u32)?;
        }
    }
    Ok(Numbering { kept, numbers })
}

/// Returns the new number of `node`, 0 past the last.
pub(crate) fn number_of(numbers: &[u32], node: u32) -> u32
    ensures { result ≡ slice_index numbers.now node }
{
    if (node as usize) < numbers.len() {
        numbers[node as usize]
    } else {
        0
    }
}
