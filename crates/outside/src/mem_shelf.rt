//! A shelf in memory, some of whose reads fail.

use crate::named_bytes::NamedBytes;
use crate::shelf::{Failed, Shelf};
use std::alloc::{AllocError, Global};
use std::collections::BTreeMap;

/// Named bytes in memory, whose reads fail where a list of their numbers says so.
///
/// Reads are numbered from 1. A read fails where its number is listed or its name is missing. Each name that was added
/// has its own count of faults, and all missing ones share one.
#[derive(Drop)]
pub struct MemShelf {
    alloc: Global,
    names: BTreeMap<String, NamedBytes>,
    failing: Vec<u64>,
    calls: u64,
    missing_faults: u64,
}

impl MemShelf {
    ghost use Rattle.std.specs.Prelude.{◌≡◌, ◌≢◌, ℕ, List, [], ◌∷◌, ◌++◌, OnOk, OnErr};
    ghost use Rattle.outside.specs.Shelf.{has_bytes, missing};
    ghost use Rattle.outside.specs.MemShelf.{known_in, reach_in, faults_in, missing_faults, call_count, failing_calls, SameName, SameCalls};

    /// A shelf without a name, of which no read fails by its number.
    pub fn new(alloc: Global) -> MemShelf
        ensures known { (n : List ℕ) → known_in result n ≡ missing }
        ensures faults { (n : List ℕ) → faults_in result n ≡ 0 }
        ensures reach { (n : List ℕ) → reach_in result n ≡ 0 }
        ensures missing { missing_faults result ≡ 0 }
        ensures failing { failing_calls result ≡ [] }
        ensures calls { call_count result ≡ 0 }
    {
        MemShelf {
            alloc,
            names: BTreeMap::new(alloc),
            failing: Vec::new(alloc),
            calls: 0,
            missing_faults: 0,
        }
    }

    /// Lists the number of a read that is to fail. An error changes nothing.
    pub fn fail(&mut self, call: u64) -> Result<(), AllocError>
        ensures ok { OnOk result (failing_calls self.new ≡ failing_calls self.old ++ call ∷ []) }
        ensures err { OnErr result (failing_calls self.new ≡ failing_calls self.old) }
        ensures names { (n : List ℕ) → SameName self.old self.new n }
        ensures calls { call_count self.new ≡ call_count self.old }
        ensures missing { missing_faults self.new ≡ missing_faults self.old }
    {
        self.failing.push(call)?;
        Ok(())
    }

    /// Gives a name its bytes, of which nothing was read yet. An error changes nothing.
    ///
    /// A missing name begins with the count of faults that all missing ones share, and another keeps its own.
    pub fn add(&mut self, name: &str, bytes: &[u8]) -> Result<(), AllocError>
        ensures known { OnOk result (known_in self.new name.now ≡ has_bytes bytes.now) }
        ensures reach { OnOk result (reach_in self.new name.now ≡ 0) }
        ensures faults { (n : List ℕ) → faults_in self.new n ≡ faults_in self.old n }
        ensures others { (n : List ℕ) → n ≢ name.now → SameName self.old self.new n }
        ensures calls { SameCalls self.old self.new }
        ensures err { OnErr result ((n : List ℕ) → SameName self.old self.new n) }
    {
        let bytes = bytes.to_vec(self.alloc)?;
        if let Some(named) = self.names.get_mut(name) {
            named.reach = 0;
            named.bytes = bytes;
            return Ok(());
        }
        let named = NamedBytes {
            bytes,
            faults: self.missing_faults,
            reach: 0,
        };
        let name = String::from_str(self.alloc, name)?;
        self.names.insert(name, named)?;
        Ok(())
    }
}

impl Shelf for MemShelf {
    ghost use Rattle.std.specs.Prelude.{◌≡◌, ◌≢◌, ◌-◌, ◌≤◌, ℕ, List, length, drop, min, IfOk, OnErr, IsErr, Ok, Contains};
    ghost use Rattle.std.proofs.Common.{rules};
    ghost use Rattle.outside.specs.Count.{Rose, next_count, faults_after};
    ghost use Rattle.outside.specs.Shelf.{Reads, reach_after, has_bytes, missing};
    ghost use Rattle.outside.specs.MemShelf.{known_in, reach_in, faults_in, missing_faults, call_count, failing_calls};

    ghost known = { known_in };

    ghost reach = { reach_in };

    ghost faults = { faults_in };

    ghost reach_within = { Prim.search rules };

    /// A read that isn't listed, of a name that was added, gives all bytes that are there and fit.
    fn read_at(&mut self, name: &str, at: u64, into: &mut [u8]) -> Result<usize, Failed>
        ensures within { IfOk result (λ count. count ≤ length into.new) }
        ensures rest { IfOk result (λ count. drop count into.new ≡ drop count into.old) }
        ensures content { Reads (known_in self.old name.now) at result into.new }
        ensures known { (n : List ℕ) → known_in self.new n ≡ known_in self.old n }
        ensures reach { (bytes : List ℕ) → known_in self.old name.now ≡ has_bytes bytes
            → reach_in self.new name.now ≡ reach_after (reach_in self.old name.now) at result }
        ensures others { (n : List ℕ) → n ≢ name.now → reach_in self.new n ≡ reach_in self.old n }
        ensures count { (n : List ℕ) → faults_in self.old n ≤ faults_in self.new n }
        ensures cause { OnErr result
            (Rose (faults_in self.old name.now) (faults_in self.new name.now)) }

        // Which answer comes.
        ensures calls { call_count self.new ≡ next_count (call_count self.old) }
        ensures failing { failing_calls self.new ≡ failing_calls self.old }
        ensures listed { Contains (failing_calls self.old) (call_count self.new) → IsErr result }
        ensures unlisted { (bytes : List ℕ) → known_in self.old name.now ≡ has_bytes bytes
            → ¬ Contains (failing_calls self.old) (call_count self.new)
            → result ≡ Ok (min (length into.old) (length bytes - at)) }

        // A failure counts once, for this name or for all missing ones.
        ensures faults { faults_in self.new name.now
            ≡ faults_after (faults_in self.old name.now) result }
        ensures other_faults { (n : List ℕ) → n ≢ name.now → known_in self.old n ≢ missing
            → faults_in self.new n ≡ faults_in self.old n }
        ensures missing { known_in self.old name.now ≢ missing
            → missing_faults self.new ≡ missing_faults self.old }
    {
        self.calls = self.calls.saturating_add(1);
        let is_listed = self.failing.contains(&self.calls);
        let Some(named) = self.names.get_mut(name) else {
            self.missing_faults = self.missing_faults.saturating_add(1);
            return Err(Failed);
        };
        if is_listed {
            named.faults = named.faults.saturating_add(1);
            return Err(Failed);
        }
        Ok(named.read(at, into))
    }
}
