//! A store of files.
ghost use Rattle.std.specs.Prelude.{◌≡◌, ◌<◌, ◌≤◌, ◌⊎◌, ℕ, Err, length, is_some, IfOk, OnOk, IsErr, IsErrOf};
ghost use Rattle.cg_files.specs.Asked.{Names, Notes};
ghost use Rattle.cg_files.specs.Causes.{Rose};
ghost use Rattle.cg_files.specs.Held.{Held, Holds, IsMissing, IsLonger, TellsLonger, OthersStay};

use crate::fail::StoreFail;
use std::alloc::Global;

/// Files by name. It may reveal to contracts what it holds, and which names it was asked to read and to write.
pub trait Store {
    ghost held: { Self → Held };

    ghost asked: { Self → Names };

    ghost wrote: { Self → Names };

    ghost read_faults: { Self → ℕ };

    ghost write_faults: { Self → ℕ };

    /// Returns the bytes held under `name`, if they are at most `limit`.
    fn read(&mut self, alloc: Global, name: &str, limit: u64) -> Result<Vec<u8>, StoreFail>
        ensures ok { IfOk result (λ bytes. Holds (held self.old) name.now bytes.items
            × (length bytes.items ≤ limit)) }
        ensures failed { IsErrOf result StoreFail.Failed
            → Rose (read_faults self.old) (read_faults self.new)
            ⊎ IsMissing (held self.old) name.now }

        // `TooLong` is returned exactly where more bytes are held, unless memory runs out or the call fails; `Failed`
        // takes precedence.
        ensures too_long { (got : ℕ) → result ≡ Err (StoreFail.TooLong got)
            → (limit < got) × IsLonger (held self.old) name.now limit }
        ensures longer { TellsLonger (held self.old) name.now limit → IsErr result }
        ensures failed_first { (got : ℕ) → result ≡ Err (StoreFail.TooLong got)
            → read_faults self.new ≡ read_faults self.old }

        // Each call is recorded by its name, unless memory runs out, which leaves everything as it was.
        ensures noted { ¬ IsErrOf result StoreFail.Memory
            → Notes (asked self.old) name.now (asked self.new) }
        ensures unnoted { IsErrOf result StoreFail.Memory → asked self.new ≡ asked self.old }
        ensures no_fault { IsErrOf result StoreFail.Memory
            → read_faults self.new ≡ read_faults self.old }
        ensures wrote { wrote self.new ≡ wrote self.old }

        ensures held { held self.new ≡ held self.old }
        ensures reads { read_faults self.old ≤ read_faults self.new }
        ensures writes { write_faults self.new ≡ write_faults self.old };

    /// Holds exactly `bytes` under `name`.
    fn write(&mut self, alloc: Global, name: &str, bytes: &[u8]) -> Result<(), StoreFail>
        ensures ok { OnOk result (Holds (held self.new) name.now bytes.now) }
        ensures failed { IsErrOf result StoreFail.Failed
            → Rose (write_faults self.old) (write_faults self.new) }
        ensures too_long { (got : ℕ) → result ≡ Err (StoreFail.TooLong got) → ⊥ }
        ensures memory { IsErrOf result StoreFail.Memory → held self.new ≡ held self.old }

        // Each call is recorded by its name, unless memory runs out, which leaves everything as it was.
        ensures noted { ¬ IsErrOf result StoreFail.Memory
            → Notes (wrote self.old) name.now (wrote self.new) }
        ensures unnoted { IsErrOf result StoreFail.Memory → wrote self.new ≡ wrote self.old }
        ensures no_fault { IsErrOf result StoreFail.Memory
            → write_faults self.new ≡ write_faults self.old }
        ensures asked { asked self.new ≡ asked self.old }

        ensures others { OthersStay (held self.old) (held self.new) name.now }
        ensures tells { is_some (held self.new) ≡ is_some (held self.old) }
        ensures writes { write_faults self.old ≤ write_faults self.new }
        ensures reads { read_faults self.new ≡ read_faults self.old };
}
