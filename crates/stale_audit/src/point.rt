//! A processor at a point, and what it may hold under one PCID.

ghost use Rattle.std.specs.Prelude.{◌≡◌, ◌%◌, ◌&&◌, not, true};
ghost use Rattle.history_model.specs.CachedTranslations.{cache_key};
ghost use Rattle.paging_model.specs.LinearAddress.{span};
ghost use Rattle.paging_model.specs.Registers.{pge};
ghost use Rattle.past_entries.specs.Fills.{held_of_fill};
ghost use Rattle.stale_audit.specs.Facts.{settings_with as settings_with_nxe};
ghost use Rattle.stale_audit.specs.SteadyTables.{HadOneNxe};

use cache_rules::Host;
use history_model::caches::CacheKey;
use paging_model::registers::Settings;
use past_entries::Fill;
use phys_view::{Ledger, View};
use proc_regs::bit_ranges::bit;
use proc_regs::register_bits::CR4_PGE;
use std::alloc::Global;
use std::marker::Model;
use time_sets::Times;
use version_store::Store;

/// What the audit of one processor goes by, for what it may hold under one PCID.
#[derive(Drop)]
pub struct Point<'a, 'b, L: Ledger> {
    /// Takes the audit's memory.
    pub alloc: Global,
    /// The present memory.
    pub view: &'a View<'b, L>,
    /// What memory held before.
    pub store: &'a Store,
    /// The processor.
    pub host: &'a Host,
    /// Its settings.
    pub settings: Settings,
    /// The root that justifies translations.
    pub home: u64,
    /// The PCID under which translations are held.
    pub under: u16,
    /// Whether global translations alone count.
    pub only_global: bool,
    /// The present time.
    pub end: u32,
    /// When the processor was in the PCID with EFER.NXE 0, from its horizon on.
    pub nxe_clear: &'a Times,
    /// When it was in the PCID with EFER.NXE 1.
    pub nxe_set: &'a Times,
}

impl<'a, 'b, L: Ledger> Model for Point<'a, 'b, L> {
    ghost use Rattle.stale_audit.specs.Facts.{Facts};

    ghost Value = { Facts };

    ghost view = { λ point. record {
      seen = point.view.now;
      kept = point.store.now;
      host = point.host.now;
      settings = point.settings;
      home = point.home;
      under = point.under;
      only_global = point.only_global;
      end = point.end;
      nxe_clear = point.nxe_clear.now;
      nxe_set = point.nxe_set.now;
    } };
}

impl<'a, 'b, L: Ledger> Point<'a, 'b, L> {
    /// What an invalidation tests of an entry of a level, by the first address that the entry serves.
    pub(crate) fn key_of(&self, level: u8, first: u64, fill: &Fill) -> CacheKey
        requires { first % span level ≡ 0 }
        ensures level { result.level ≡ level }
        ensures key { result ≡ cache_key self.now.under level first (held_of_fill fill.now) }
    {
        CacheKey {
            pcid: self.under,
            level,
            prefix: first,
            leaf: fill.leaf,
            global: fill.global,
        }
    }

    /// Whether a translation doesn't count, since global ones alone do.
    pub(crate) fn is_left_out(&self, fill: &Fill) -> bool
        ensures { result ≡ (self.now.only_global && not fill.now.global) }
    {
        self.only_global && !fill.global
    }

    /// The settings, with NXE as given.
    pub(crate) fn settings_with(&self, nxe: bool) -> Settings
        ensures { result ≡ settings_with_nxe nxe self.now.settings }
    {
        with_nxe(&self.settings, nxe)
    }

    /// Whether NXE was what it is now at each time of the processor in the PCID.
    pub(crate) fn had_one_nxe(&self) -> bool
        ensures { result ≡ true → HadOneNxe self.now }
    {
        if self.settings.nxe {
            self.nxe_clear.is_empty()
        } else {
            self.nxe_set.is_empty()
        }
    }

    /// CR4.PGE, which has been the same since the horizon.
    pub(crate) fn pages_are_global(&self) -> bool
        ensures { result ≡ pge self.now.host.regs }
    {
        bit(self.host.regs().cr4, CR4_PGE)
    }
}

/// The settings, with NXE as given.
fn with_nxe(settings: &Settings, nxe: bool) -> Settings
    ensures { result ≡ settings_with_nxe nxe settings.now }
{
    let mut other = *settings;
    other.nxe = nxe;
    other
}
