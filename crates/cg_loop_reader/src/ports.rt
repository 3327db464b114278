//! Ports that don't exist or are already used.
ghost use Rattle.std.specs.Prelude.{◌≡◌, ◌<◌, ℕ, ◌||◌, [], length, false, slice_index_or};
ghost use Rattle.cg_loop_syntax.specs.Uses as spec;
ghost use Rattle.cg_loop_reader.specs.Numbered.{uses_of};
ghost use Rattle.cg_loop_reader.specs.Written.{is_bad};

use crate::numbering::NumberedUses;
use cg_loop_syntax::Role;
use cg_model::{LAST_PORT, PORTS};

/// Returns whether `role` has a port that doesn't exist, or is an output to one that is already marked in `written`.
fn is_bad(role: Role, written: &[bool]) -> bool
    requires { length written.now ≡ 16 }
    ensures { result ≡ is_bad written.now role }
{
    match role {
        Role::Input(port) => port > LAST_PORT,
        Role::Output(port) => port > LAST_PORT || written[port as usize],
        _ => false,
    }
}

/// Marks the port to which an output writes in `written`.
fn write(written: &mut [bool], role: Role)
    ensures { (port : ℕ) → port < length written.old → slice_index_or written.new port false ≡ (slice_index_or written.old port false || spec.emits port role) }
{
    if let Role::Output(port) = role {
        if (port as usize) < written.len() {
            written[port as usize] = true;
        }
    }
}

/// Finds the first port that doesn't exist, or the second output to one port.
pub(crate) fn first_bad_port(numbered: &NumberedUses) -> Option<usize>
    ensures { result ≡ spec.first_where spec.is_bad_port [] (uses_of numbered.now) }
{
    let mut written = [false; PORTS];
    for used in &numbered.uses {
        if is_bad(used.role, &written) {
            return Some(used.place);
        }
        write(&mut written, used.role);
    }
    None
}
