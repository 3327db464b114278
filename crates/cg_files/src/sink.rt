//! A sink of bytes.
ghost use Rattle.std.specs.Prelude.{◌≡◌, ◌≤◌, ℕ, List, Option, OnOk, IsErrOf, is_some};
ghost use Rattle.cg_files.specs.Causes.{Rose};
ghost use Rattle.cg_files.specs.Held.{Appends, AppendsSome};

use crate::fail::SinkFail;
use std::alloc::Global;

/// A sink that takes bytes. It may reveal to contracts what it has taken.
pub trait Sink {
    ghost taken: { Self → Option (List ℕ) };

    ghost faults: { Self → ℕ };

    /// Appends `bytes`.
    fn put(&mut self, alloc: Global, bytes: &[u8]) -> Result<(), SinkFail>
        ensures ok { OnOk result (Appends (taken self.old) bytes.now (taken self.new)) }
        ensures failed { IsErrOf result SinkFail.Failed → Rose (faults self.old) (faults self.new) }
        ensures memory { IsErrOf result SinkFail.Memory → taken self.new ≡ taken self.old }
        ensures no_fault { IsErrOf result SinkFail.Memory → faults self.new ≡ faults self.old }

        // Whatever the call returns, it took a prefix of the bytes, possibly none or all.
        ensures part { AppendsSome (taken self.old) bytes.now (taken self.new) }
        ensures tells { is_some (taken self.new) ≡ is_some (taken self.old) }
        ensures count { faults self.old ≤ faults self.new };
}
