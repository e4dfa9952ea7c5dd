//! What a processor holds of an entry: the translation of a page, or the reference of a table.

ghost use Rattle.std.specs.Prelude.{◌≡◌, ◌≤◌, ◌<◌, option_map};
ghost use Rattle.paging_model.specs.Entries.{HasFrame, IsFrame};
ghost use Rattle.history_model.specs.CachedTranslations.{cache_key as key_of, held_of};

use entry_decode::join;
use history_model::caches::CacheKey;
use paging_model::entries::{Bits, Entry};
use paging_reference::walking::span;
use std::marker::Model;

/// An entry that a processor holds, with the bits that were joined down to it.
#[derive(Clone, Copy, Debug, PartialEq, Eq)]
pub struct CacheEntry {
    level: u8,
    leaf: bool,
    frame: u64,
    bits: Bits,
    key: u8,
    global: bool,
}

impl Model for CacheEntry {
    ghost use Rattle.history_reference.specs.CacheEntries.{HeldEntry, IsCacheable};

    ghost Value = { HeldEntry };

    ghost view = { λ e. record {
      level = e.level;
      held = record {
        leaf = e.leaf;
        frame = e.frame;
        bits = e.bits;
        key = e.key;
        global = e.global;
      };
    } };

    ghost invariant = { λ e. IsCacheable e.level e.frame e.key };

    ghost inverse = { λ h. record {
      level = h.level;
      leaf = h.held.leaf;
      frame = h.held.frame;
      bits = h.held.bits;
      key = h.held.key;
      global = h.held.global;
    } };
}

impl CacheEntry {
    ghost use Rattle.history_reference.specs.CacheEntries.{entry_of_level};

    /// What is held of an entry of a level under joined bits, where global pages are enabled or not.
    pub fn of_entry(
        pages_are_global: bool,
        level: u8,
        above: Bits,
        entry: Entry,
    ) -> Option<CacheEntry>
        requires least { 1 ≤ level }
        requires most { level ≤ 5 }
        requires frame { HasFrame entry }
        ensures { result
            ≡ option_map (entry_of_level level) (held_of pages_are_global above entry) }
    {
        match entry {
            Entry::Absent => None,
            Entry::Reserved => None,
            Entry::Table { frame, bits } => Some(CacheEntry {
                level,
                leaf: false,
                frame,
                bits: join(above, bits),
                key: 0,
                global: false,
            }),
            Entry::Leaf {
                frame,
                bits,
                key,
                global,
            } => Some(CacheEntry {
                level,
                leaf: true,
                frame,
                bits: join(above, bits),
                key,
                global: global && pages_are_global,
            }),
        }
    }

    /// The entry's level, 5 to 1.
    pub fn level(&self) -> u8
        ensures value { result ≡ self.now.level }
        ensures least { 1 ≤ result }
        ensures most { result ≤ 5 }
    {
        self.level
    }

    /// Whether it is the translation of a page.
    pub fn is_leaf(&self) -> bool
        ensures { result ≡ self.now.held.leaf }
    {
        self.leaf
    }

    /// The physical address of the page, or of the table.
    pub fn frame(&self) -> u64
        ensures value { result ≡ self.now.held.frame }
        ensures frame { IsFrame result }
    {
        self.frame
    }

    /// The bits that were joined down to the entry.
    pub fn bits(&self) -> Bits
        ensures { result ≡ self.now.held.bits }
    {
        self.bits
    }

    /// The page's protection key.
    pub fn key(&self) -> u8
        ensures value { result ≡ self.now.held.key }
        ensures below { result < 16 }
    {
        self.key
    }

    /// Whether it is a global translation.
    pub fn is_global(&self) -> bool
        ensures { result ≡ self.now.held.global }
    {
        self.global
    }

    /// What an invalidation tests of the entry, held under a PCID for an address.
    pub fn cache_key(&self, pcid: u16, address: u64) -> CacheKey
        ensures key { result ≡ key_of pcid self.now.level address self.now.held }
        ensures least { 1 ≤ result.level }
        ensures most { result.level ≤ 5 }
    {
        let served = span(self.level);
        CacheKey {
            pcid,
            level: self.level,
            prefix: address / served * served,
            leaf: self.leaf,
            global: self.global,
        }
    }
}
