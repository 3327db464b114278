//! A store and a sink in memory, in which selected calls fail.
ghost use Rattle.std.specs.Prelude.{◌≡◌, ◌+◌, ◌-◌, ◌^◌, ◌<◌, ◌≤◌, ◌↔◌, ◌++◌, [], ◌∷◌, min, map, string_bytes, IsTrue, OnOk, OnErr};
ghost use Rattle.cg_files.specs.Calls.{IsListed, next_call};

use crate::fail::{SinkFail, StoreFail};
use crate::sink::Sink;
use crate::store::Store;
use std::alloc::{AllocError, Global};
use std::collections::BTreeMap;

/// How many calls were counted, and the numbers of those that are to fail.
#[derive(Drop)]
struct Calls {
    made: u64,
    failing: Vec<u32>,
}

impl Calls {
    fn new(alloc: Global) -> Calls
        ensures made { result.made ≡ 0 }
        ensures failing { result.failing.items ≡ [] }
    {
        Calls {
            made: 0,
            failing: Vec::new(alloc),
        }
    }

    fn fail_at(&mut self, calls: &[u32]) -> Result<(), AllocError>
        ensures ok { OnOk result (self.new.failing.items ≡ self.old.failing.items ++ calls.now) }
        ensures err { OnErr result (self.new.failing.items ≡ self.old.failing.items) }
        ensures made { self.new.made ≡ self.old.made }
    {
        self.failing.extend_from_slice(calls)
    }

    /// Returns whether the next call is to fail.
    fn fails_next(&self) -> bool
        ensures listed { IsTrue result ↔ IsListed self.now.failing.items self.now.made }
        ensures early { IsTrue result → self.now.made + 1 < 2 ^ 32 }
    {
        let next = self.made.saturating_add(1);
        self.failing.iter().any(|number| u64::from(*number) == next)
    }

    fn count(&mut self)
        ensures made { self.new.made ≡ next_call self.old.made }
        ensures failing { self.new.failing.items ≡ self.old.failing.items }
    {
        self.made = self.made.saturating_add(1);
    }
}

/// Adds `name` to `names`, the names of the calls so far.
fn note(alloc: Global, names: &mut Vec<String>, name: &str) -> Result<(), AllocError>
    ensures ok { OnOk result
        (map string_bytes names.new.items ≡ map string_bytes names.old.items ++ name.now ∷ []) }
    ensures err { OnErr result (names.new.items ≡ names.old.items) }
{
    names.push(String::from_str(alloc, name)?)?;
    Ok(())
}

/// Files in memory. Its calls are numbered from 1, reads and writes together; a call that returns `Memory` gets no
/// number.
#[derive(Drop)]
pub struct MemStore {
    files: BTreeMap<String, Vec<u8>>,
    calls: Calls,
    asked: Vec<String>,
    wrote: Vec<String>,
    read_faults: u64,
    write_faults: u64,
    ghost few_read_faults: { read_faults ≤ min calls.made (2 ^ 32 - 1) },
    ghost few_write_faults: { write_faults ≤ min calls.made (2 ^ 32 - 1) },
}

impl MemStore {
    ghost use Rattle.std.specs.Prelude.{◌≡◌, ◌≢◌, ◌<◌, ◌≤◌, ◌↔◌, ◌++◌, ◌⊎◌, ℕ, List, [], Some, None, Err, OnOk, OnErr, IfOk, IsErrOf, IsSomeAnd, length, option_map};
    ghost use Rattle.cg_files.specs.MemStore.{files_of, calls_of, failing_of, read_faults_of, write_faults_of, asked_of, wrote_of, SameCalls, FailsNext};

    /// Returns an empty store with no calls made.
    pub fn new(alloc: Global) -> MemStore
        ensures files { files_of result ≡ (λ _. None) }
        ensures calls { calls_of result ≡ 0 }
        ensures failing { failing_of result ≡ [] }
        ensures reads { read_faults_of result ≡ 0 }
        ensures writes { write_faults_of result ≡ 0 }
        ensures asked { asked_of result ≡ [] }
        ensures wrote { wrote_of result ≡ [] }
    {
        MemStore {
            files: BTreeMap::new(alloc),
            calls: Calls::new(alloc),
            asked: Vec::new(alloc),
            wrote: Vec::new(alloc),
            read_faults: 0,
            write_faults: 0,
        }
    }

    /// Adds the numbers `calls` of calls that are to fail.
    pub fn fail_at(&mut self, calls: &[u32]) -> Result<(), AllocError>
        ensures ok { OnOk result (failing_of self.new ≡ failing_of self.old ++ calls.now) }
        ensures err { OnErr result (failing_of self.new ≡ failing_of self.old) }
        ensures files { files_of self.new ≡ files_of self.old }
        ensures calls { SameCalls self.old self.new }
    {
        self.calls.fail_at(calls)
    }

    /// Holds exactly `bytes` under `name`. This doesn't count as a call of the store.
    pub fn hold(&mut self, alloc: Global, name: &str, bytes: &[u8]) -> Result<(), AllocError>
        ensures ok { OnOk result (files_of self.new name.now ≡ Some bytes.now) }
        ensures err { OnErr result (files_of self.new ≡ files_of self.old) }
        ensures others { (other : List ℕ) → other ≢ name.now
            → files_of self.new other ≡ files_of self.old other }
        ensures failing { failing_of self.new ≡ failing_of self.old }
        ensures calls { SameCalls self.old self.new }
    {
        let key = String::from_str(alloc, name)?;
        let value = Vec::from_slice(alloc, bytes)?;
        self.files.insert(key, value)?;
        Ok(())
    }

    /// Returns the bytes held under `name`. This doesn't count as a call of the store.
    pub fn held(&self, name: &str) -> Option<&[u8]>
        ensures { option_map (λ bytes. bytes.now) result ≡ files_of self.now name.now }
    {
        self.files.get(name).map(|bytes| bytes.as_slice())
    }

    /// Returns a copy of the bytes held under `name`.
    fn copy_of(&self, alloc: Global, name: &str, limit: u64) -> Result<Vec<u8>, StoreFail>
        ensures ok { IfOk result (λ bytes. (files_of self.now name.now ≡ Some bytes.items)
            × (length bytes.items ≤ limit)) }
        ensures failed { IsErrOf result StoreFail.Failed ↔ (files_of self.now name.now ≡ None) }
        ensures too_long { (got : ℕ) → result ≡ Err (StoreFail.TooLong got)
            → (limit < got)
            × IsSomeAnd (files_of self.now name.now) (λ bytes. limit < length bytes) }
        ensures got { (got : ℕ) → result ≡ Err (StoreFail.TooLong got)
            → option_map length (files_of self.now name.now) ≡ Some got }
    {
        let Some(bytes) = self.files.get(name) else {
            return Err(StoreFail::Failed);
        };
        let len = bytes.len() as u64;
        if len > limit {
            return Err(StoreFail::TooLong(len));
        }
        Ok(Vec::from_slice(alloc, bytes)?)
    }

    /// Returns what the next read of `name` returns.
    fn answer(&self, alloc: Global, name: &str, limit: u64) -> Result<Vec<u8>, StoreFail>
        ensures ok { IfOk result (λ bytes. (files_of self.now name.now ≡ Some bytes.items)
            × (length bytes.items ≤ limit)) }
        ensures failed { IsErrOf result StoreFail.Failed
            ↔ (FailsNext self.now ⊎ (files_of self.now name.now ≡ None)) }
        ensures too_long { (got : ℕ) → result ≡ Err (StoreFail.TooLong got)
            → (limit < got)
            × IsSomeAnd (files_of self.now name.now) (λ bytes. limit < length bytes) }
        ensures got { (got : ℕ) → result ≡ Err (StoreFail.TooLong got)
            → option_map length (files_of self.now name.now) ≡ Some got }
    {
        if self.calls.fails_next() {
            return Err(StoreFail::Failed);
        }
        self.copy_of(alloc, name, limit)
    }
}

impl Store for MemStore {
    ghost use Rattle.std.specs.Prelude.{◌≡◌, ◌≢◌, ◌+◌, ◌<◌, ◌≤◌, ◌↔◌, ◌⊎◌, ◌++◌, ◌∷◌, [], ℕ, List, Some, None, Err, OnOk, OnErr, IfOk, IsErrOf, IsSomeAnd, length, option_map};
    ghost use Rattle.cg_files.specs.Calls.{next_call};
    ghost use Rattle.cg_files.specs.MemStore.{files_of, calls_of, failing_of, read_faults_of, write_faults_of, asked_of, wrote_of, FailsNext};

    ghost held = { λ store. Some (files_of store) };

    ghost asked = { λ store. Some (asked_of store) };

    ghost wrote = { λ store. Some (wrote_of store) };

    ghost read_faults = { read_faults_of };

    ghost write_faults = { write_faults_of };

    fn read(&mut self, alloc: Global, name: &str, limit: u64) -> Result<Vec<u8>, StoreFail>
        ensures ok { IfOk result (λ bytes. (files_of self.old name.now ≡ Some bytes.items)
            × (length bytes.items ≤ limit)) }
        ensures failed { IsErrOf result StoreFail.Failed
            → FailsNext self.old ⊎ (files_of self.old name.now ≡ None) }
        ensures fails { ¬ IsErrOf result StoreFail.Memory
            → (FailsNext self.old ⊎ (files_of self.old name.now ≡ None))
            → IsErrOf result StoreFail.Failed }
        ensures too_long { (got : ℕ) → result ≡ Err (StoreFail.TooLong got)
            → (limit < got)
            × IsSomeAnd (files_of self.old name.now) (λ bytes. limit < length bytes) }
        ensures got { (got : ℕ) → result ≡ Err (StoreFail.TooLong got)
            → option_map length (files_of self.old name.now) ≡ Some got }
        ensures held { files_of self.new ≡ files_of self.old }

        // A call is recorded and counted unless it returns `Memory`.
        ensures unnoted { IsErrOf result StoreFail.Memory
            → asked_of self.new ≡ asked_of self.old }
        ensures noted { ¬ IsErrOf result StoreFail.Memory
            → asked_of self.new ≡ asked_of self.old ++ name.now ∷ [] }
        ensures wrote { wrote_of self.new ≡ wrote_of self.old }
        ensures uncounted { IsErrOf result StoreFail.Memory
            → calls_of self.new ≡ calls_of self.old }
        ensures counted { ¬ IsErrOf result StoreFail.Memory
            → calls_of self.new ≡ next_call (calls_of self.old) }
        ensures failing { failing_of self.new ≡ failing_of self.old }

        // The count rises by one in listed calls, and in no others.
        ensures raised { IsErrOf result StoreFail.Failed → FailsNext self.old
            → read_faults_of self.new ≡ read_faults_of self.old + 1 }
        ensures still { ¬ FailsNext self.old
            → read_faults_of self.new ≡ read_faults_of self.old }
        ensures no_fault { IsErrOf result StoreFail.Memory
            → read_faults_of self.new ≡ read_faults_of self.old }
        ensures reads { read_faults_of self.old ≤ read_faults_of self.new }
        ensures writes { write_faults_of self.new ≡ write_faults_of self.old }
    {
        let answer = self.answer(alloc, name, limit);
        if let Err(StoreFail::Memory) = answer {
            return answer;
        }
        note(alloc, &mut self.asked, name)?;
        let fails = self.calls.fails_next();
        self.calls.count();
        if fails {
            self.read_faults += 1;
        }
        answer
    }

    fn write(&mut self, alloc: Global, name: &str, bytes: &[u8]) -> Result<(), StoreFail>
        ensures ok { OnOk result (files_of self.new name.now ≡ Some bytes.now) }
        ensures failed { IsErrOf result StoreFail.Failed → FailsNext self.old }
        ensures fails { ¬ IsErrOf result StoreFail.Memory → FailsNext self.old
            → IsErrOf result StoreFail.Failed }
        ensures too_long { (got : ℕ) → result ≡ Err (StoreFail.TooLong got) → ⊥ }
        ensures err { OnErr result (files_of self.new ≡ files_of self.old) }
        ensures others { (other : List ℕ) → other ≢ name.now
            → files_of self.new other ≡ files_of self.old other }

        // A call is recorded and counted unless it returns `Memory`.
        ensures unnoted { IsErrOf result StoreFail.Memory
            → wrote_of self.new ≡ wrote_of self.old }
        ensures noted { ¬ IsErrOf result StoreFail.Memory
            → wrote_of self.new ≡ wrote_of self.old ++ name.now ∷ [] }
        ensures asked { asked_of self.new ≡ asked_of self.old }
        ensures uncounted { IsErrOf result StoreFail.Memory
            → calls_of self.new ≡ calls_of self.old }
        ensures counted { ¬ IsErrOf result StoreFail.Memory
            → calls_of self.new ≡ next_call (calls_of self.old) }
        ensures failing { failing_of self.new ≡ failing_of self.old }

        // The count rises by one in listed calls, and in no others.
        ensures raised { IsErrOf result StoreFail.Failed
            → write_faults_of self.new ≡ write_faults_of self.old + 1 }
        ensures still { ¬ FailsNext self.old
            → write_faults_of self.new ≡ write_faults_of self.old }
        ensures no_fault { IsErrOf result StoreFail.Memory
            → write_faults_of self.new ≡ write_faults_of self.old }
        ensures writes { write_faults_of self.old ≤ write_faults_of self.new }
        ensures reads { read_faults_of self.new ≡ read_faults_of self.old }
    {
        note(alloc, &mut self.wrote, name)?;
        if self.calls.fails_next() {
            self.calls.count();
            self.write_faults += 1;
            return Err(StoreFail::Failed);
        }
        if let Err(AllocError) = self.hold(alloc, name, bytes) {
            self.wrote.pop();
            return Err(StoreFail::Memory);
        }
        self.calls.count();
        Ok(())
    }
}

/// Bytes in memory. Its calls are numbered from 1; a call that returns `Memory` gets no number.
#[derive(Drop)]
pub struct MemSink {
    bytes: Vec<u8>,
    calls: Calls,
    faults: u64,
    ghost few_faults: { faults ≤ min calls.made (2 ^ 32 - 1) },
}

impl MemSink {
    ghost use Rattle.std.specs.Prelude.{◌≡◌, ◌++◌, [], OnOk, OnErr};
    ghost use Rattle.cg_files.specs.MemSink.{taken_of, calls_of, failing_of, faults_of};

    /// Returns an empty sink with no calls made.
    pub fn new(alloc: Global) -> MemSink
        ensures taken { taken_of result ≡ [] }
        ensures calls { calls_of result ≡ 0 }
        ensures failing { failing_of result ≡ [] }
        ensures faults { faults_of result ≡ 0 }
    {
        MemSink {
            bytes: Vec::new(alloc),
            calls: Calls::new(alloc),
            faults: 0,
        }
    }

    /// Adds the numbers `calls` of calls that are to fail.
    pub fn fail_at(&mut self, calls: &[u32]) -> Result<(), AllocError>
        ensures ok { OnOk result (failing_of self.new ≡ failing_of self.old ++ calls.now) }
        ensures err { OnErr result (failing_of self.new ≡ failing_of self.old) }
        ensures taken { taken_of self.new ≡ taken_of self.old }
        ensures calls { calls_of self.new ≡ calls_of self.old }
        ensures faults { faults_of self.new ≡ faults_of self.old }
    {
        self.calls.fail_at(calls)
    }

    /// Returns the bytes taken so far.
    pub fn taken(&self) -> &[u8]
        ensures { result.now ≡ taken_of self.now }
    {
        self.bytes.as_slice()
    }
}

impl Sink for MemSink {
    ghost use Rattle.std.specs.Prelude.{◌≡◌, ◌+◌, ◌≤◌, ◌↔◌, ◌++◌, Some, if◌then◌else◌, is_ok, IsErrOf};
    ghost use Rattle.cg_files.specs.Calls.{next_call};
    ghost use Rattle.cg_files.specs.Held.{AppendsSome};
    ghost use Rattle.cg_files.specs.MemSink.{taken_of, calls_of, failing_of, faults_of, FailsNext};

    ghost taken = { λ sink. Some (taken_of sink) };

    ghost faults = { faults_of };

    fn put(&mut self, _alloc: Global, bytes: &[u8]) -> Result<(), SinkFail>
        ensures failed { IsErrOf result SinkFail.Failed ↔ FailsNext self.old }
        ensures taken { taken_of self.new
            ≡ (if is_ok result then taken_of self.old ++ bytes.now else taken_of self.old) }
        ensures part { AppendsSome (Some (taken_of self.old)) bytes.now (Some (taken_of self.new)) }

        // A call is counted unless it returns `Memory`.
        ensures uncounted { IsErrOf result SinkFail.Memory
            → calls_of self.new ≡ calls_of self.old }
        ensures counted { ¬ IsErrOf result SinkFail.Memory
            → calls_of self.new ≡ next_call (calls_of self.old) }
        ensures failing { failing_of self.new ≡ failing_of self.old }

        // The count rises by one in listed calls, and in no others.
        ensures raised { FailsNext self.old → faults_of self.new ≡ faults_of self.old + 1 }
        ensures still { ¬ FailsNext self.old → faults_of self.new ≡ faults_of self.old }
        ensures count { faults_of self.old ≤ faults_of self.new }
    {
        if self.calls.fails_next() {
            self.calls.count();
            self.faults += 1;
            return Err(SinkFail::Failed);
        }
        self.bytes.extend_from_slice(bytes)?;
        self.calls.count();
        Ok(())
    }
}
