//! A sink in memory, some of whose puts fail.

ghost use Rattle.std.specs.Prelude.{◌≡◌, ℕ, ◌≤◌, [], ◌∷◌, ◌++◌, take, map, OnOk, OnErr, IsErr, ◌⊎◌, None, Some};
ghost use Rattle.outside.specs.Count.{Rose, next_count, faults_after};
ghost use Rattle.outside.specs.Sink.{piece_bytes, Puts};
ghost use Rattle.outside.specs.MemSink.{SinkState, kept_count};

use crate::shelf::Failed;
use crate::sink::Sink;
use std::alloc::{AllocError, Global};
use std::marker::Model;

/// Pieces that were put, in memory. Puts fail where a list of their numbers says so.
///
/// Puts are numbered from 1. A listed one fails, and keeps a prefix of its piece of at most the listed length. Another
/// fails only out of memory, and then keeps none of its piece.
#[derive(Drop)]
pub struct MemSink {
    alloc: Global,
    pieces: Vec<Vec<u8>>,
    joined: Vec<u8>,
    failing: Vec<(u64, usize)>,
    calls: u64,
    faults: u64,
}

impl Model for MemSink {
    ghost Value = { SinkState };

    ghost view = { λ sink. record {
      pieces = map (λ piece. piece.items) sink.pieces.items;
      failing = sink.failing.items;
      calls = sink.calls;
      faults = sink.faults;
    } };

    ghost invariant = { λ sink. sink.joined.items
        ≡ piece_bytes (map (λ piece. piece.items) sink.pieces.items) };
}

impl MemSink {
    /// A sink to which nothing was put, of which no put fails by its number.
    pub fn new(alloc: Global) -> MemSink
        ensures { result ≡ record { pieces = []; failing = []; calls = 0; faults = 0 } }
    {
        MemSink {
            alloc,
            pieces: Vec::new(alloc),
            joined: Vec::new(alloc),
            failing: Vec::new(alloc),
            calls: 0,
            faults: 0,
        }
    }

    /// Lists the number of a put that is to fail, and how many of its bytes it keeps at most. The first entry of a
    /// number counts. An error changes nothing.
    pub fn fail(&mut self, call: u64, kept: usize) -> Result<(), AllocError>
        ensures ok { OnOk result
            (self.new ≡ record self.old { failing = self.old.failing ++ (call, kept) ∷ [] }) }
        ensures err { OnErr result (self.new ≡ self.old) }
    {
        self.failing.push((call, kept))?;
        Ok(())
    }

    /// All bytes written.
    pub fn bytes(&self) -> &[u8]
        ensures { result.now ≡ piece_bytes self.now.pieces }
    {
        self.joined.as_slice()
    }

    /// Adds a piece. An error changes nothing.
    fn add_piece(&mut self, piece: &[u8]) -> Result<(), AllocError>
        ensures ok { OnOk result
            (self.new ≡ record self.old { pieces = self.old.pieces ++ piece.now ∷ [] }) }
        ensures err { OnErr result (self.new ≡ self.old) }
    {
        let own = piece.to_vec(self.alloc)?;
        self.joined.reserve(piece.len())?;
        self.pieces.push(own)?;
        self.joined.extend_from_slice(piece)
    }

    /// How many bytes the current put keeps, where its number is listed.
    fn kept_count(&self) -> Option<usize>
        ensures { result ≡ kept_count self.now.failing self.now.calls }
    {
        let calls = self.calls;
        let (_, kept) = self.failing.iter().find(|entry| entry.0 == calls)?;
        Some(*kept)
    }

    /// Counts a failure.
    fn count_fault(&mut self)
        ensures { self.new ≡ record self.old { faults = next_count self.old.faults } }
    {
        self.faults = self.faults.saturating_add(1);
    }
}

impl Sink for MemSink {
    ghost pieces = { λ sink. Some sink.pieces };

    ghost faults = { λ sink. sink.faults };

    fn put(&mut self, bytes: &[u8]) -> Result<(), Failed>
        ensures pieces { Puts (Some self.old.pieces) (Some self.new.pieces) result bytes.now }
        ensures count { self.old.faults ≤ self.new.faults }
        ensures cause { OnErr result (Rose self.old.faults self.new.faults) }

        // Which answer comes, and what it keeps.
        ensures calls { self.new.calls ≡ next_count self.old.calls }
        ensures failing { self.new.failing ≡ self.old.failing }
        ensures faults { self.new.faults ≡ faults_after self.old.faults result }
        ensures unlisted { kept_count self.old.failing self.new.calls ≡ None
            → OnErr result (self.new.pieces ≡ self.old.pieces) }
        ensures listed { (kept : ℕ) → kept_count self.old.failing self.new.calls ≡ Some kept
            → IsErr result × ((self.new.pieces ≡ self.old.pieces ++ take kept bytes.now ∷ [])
            ⊎ (self.new.pieces ≡ self.old.pieces)) }
    {
        self.calls = self.calls.saturating_add(1);
        let kept = self.kept_count();
        let piece = &bytes[..bytes.len().min(kept.unwrap_or(bytes.len()))];
        if self.add_piece(piece).is_ok() && kept.is_none() {
            return Ok(());
        }
        self.count_fault();
        Err(Failed)
    }
}
