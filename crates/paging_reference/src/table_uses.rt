//! The tables that walks come to and the pages that they end at, of given prefixes.

ghost use Rattle.std.specs.Prelude.{◌≡◌, ◌≤◌, ◌↔◌, ◌⊎◌, [], ◌∷◌, Some, IsTrue, IfSome, IfOk, OnOk};
ghost use Rattle.paging_model.specs.Counting.{IsIn};
ghost use Rattle.paging_model.specs.Entries.{IsFrame};
ghost use Rattle.paging_model.specs.TableUses.{IsPrefix, Leaf, Serves};
ghost use Rattle.paging_model.specs.declared.spaces.TableUse.{TableUse};
ghost use Rattle.paging_reference.specs.TableLists.{IsLeafAmong, IsReached, IsUseAmong, IsUseAt};

use crate::physical_memory::PhysicalMemory;
use crate::walking::{ROOT_BITS, entry_read, span, top_level, walk};
use entry_decode::join;
use paging_model::entries::Entry;
use paging_model::registers::Settings;
use paging_model::spaces::TableUse;
use paging_model::walks::Walk;
use proc_regs::canonical;
use std::alloc::{AllocError, Global};
use std::marker::Model;

/// The level of a mapped page, and its first address.
#[derive(Clone, Copy, Debug, PartialEq, Eq)]
pub struct PageLeaf {
    level: u8,
    prefix: u64,
}

impl Model for PageLeaf {
    ghost use Rattle.paging_model.specs.TableUses.{Leaf};

    ghost Value = { Leaf };

    ghost view = { λ l. record { level = l.level; prefix = l.prefix } };

    ghost inverse = { λ l. record { level = l.level; prefix = l.prefix } };
}

impl PageLeaf {
    /// The level of the entry that maps the page: 1 to 3.
    pub fn level(&self) -> u8
        ensures { result ≡ self.now.level }
    {
        self.level
    }

    /// The page's first address.
    pub fn prefix(&self) -> u64
        ensures { result ≡ self.now.prefix }
    {
        self.prefix
    }
}

/// The table of a level that the walk of an address comes to.
pub fn reached_table<M: PhysicalMemory>(
    memory: &M,
    settings: &Settings,
    root: u64,
    level: u8,
    address: u64,
) -> Option<TableUse>
    requires least { 1 ≤ level }
    requires frame { IsFrame root }
    ensures value { (table : TableUse) → (result ≡ Some table)
        ↔ IsReached (M.contents memory.now) settings.now root level address table }
    ensures frame { IfSome result (λ table. IsFrame table.frame) }
{
    let top = top_level(settings);
    if level > top {
        return None;
    }
    if level == top {
        return Some(TableUse {
            level,
            prefix: address,
            frame: root,
            bits: ROOT_BITS,
        });
    }
    let upper = reached_table(memory, settings, root, level + 1, address)?;
    let entry = entry_read(memory, settings, level + 1, address, upper.frame)?;
    let Entry::Table { frame, bits } = entry else {
        return None;
    };
    Some(TableUse {
        level,
        prefix: address,
        frame,
        bits: join(upper.bits, bits),
    })
}

/// Whether an address begins a range of canonical addresses, as long as that of an entry of a level.
pub fn is_prefix(settings: &Settings, level: u8, address: u64) -> bool
    requires least { 1 ≤ level }
    requires most { level ≤ 5 }
    ensures { IsTrue result ↔ IsPrefix settings.now level address }
{
    address % span(level) == 0 && canonical(settings.la57, address)
}

/// Whether a table of a level may serve the addresses from a prefix on.
fn serves(settings: &Settings, level: u8, prefix: u64) -> bool
    requires least { 1 ≤ level }
    requires most { level ≤ 5 }
    ensures { IsTrue result ↔ Serves settings.now level prefix }
{
    let top = top_level(settings);
    if level == top {
        return prefix == 0;
    }
    level < top && is_prefix(settings, level + 1, prefix)
}

/// The use of a table of a level that begins at a prefix.
fn use_at<M: PhysicalMemory>(
    memory: &M,
    settings: &Settings,
    root: u64,
    level: u8,
    prefix: u64,
) -> Option<TableUse>
    requires least { 1 ≤ level }
    requires most { level ≤ 5 }
    requires frame { IsFrame root }
    ensures { (table : TableUse) → (result ≡ Some table)
        ↔ IsUseAt (M.contents memory.now) settings.now root level prefix table }
{
    if !serves(settings, level, prefix) {
        return None;
    }
    reached_table(memory, settings, root, level, prefix)
}

/// The uses of tables that begin at given prefixes.
pub fn uses_among<M: PhysicalMemory>(
    alloc: Global,
    memory: &M,
    settings: &Settings,
    root: u64,
    prefixes: &[u64],
) -> Result<Vec<TableUse>, AllocError>
    requires { IsFrame root }
    ensures { IfOk result (λ list. (table : TableUse) → IsIn table list.items
        ↔ IsUseAmong (M.contents memory.now) settings.now root prefixes.now table) }
{
    let mut list = Vec::new(alloc);
    for prefix in prefixes {
        add_uses(&mut list, memory, settings, root, *prefix)?;
    }
    Ok(list)
}

/// Adds the uses that begin at a prefix, from level 1 up.
fn add_uses<M: PhysicalMemory>(
    list: &mut Vec<TableUse>,
    memory: &M,
    settings: &Settings,
    root: u64,
    prefix: u64,
) -> Result<(), AllocError>
    requires { IsFrame root }
    ensures { OnOk result ((table : TableUse) → IsIn table list.new.items
        ↔ (IsIn table list.old.items
        ⊎ IsUseAmong (M.contents memory.now) settings.now root (prefix ∷ []) table)) }
{
    for level in 1..6u8 {
        add_use(list, use_at(memory, settings, root, level, prefix))?;
    }
    Ok(())
}

/// Adds a use, where there is one.
fn add_use(list: &mut Vec<TableUse>, found: Option<TableUse>) -> Result<(), AllocError>
    ensures { OnOk result ((table : TableUse) → IsIn table list.new.items
        ↔ (IsIn table list.old.items ⊎ (found ≡ Some table))) }
{
    let Some(table) = found else {
        return Ok(());
    };
    list.push(table)?;
    Ok(())
}

/// The mapped pages, of any size, that begin at given prefixes.
pub fn leaves_among<M: PhysicalMemory>(
    alloc: Global,
    memory: &M,
    settings: &Settings,
    root: u64,
    prefixes: &[u64],
) -> Result<Vec<PageLeaf>, AllocError>
    requires { IsFrame root }
    ensures { IfOk result (λ list. (leaf : Leaf) → IsIn leaf list.items
        ↔ IsLeafAmong (M.contents memory.now) settings.now root prefixes.now leaf) }
{
    let mut list = Vec::new(alloc);
    for prefix in prefixes {
        add_leaf(&mut list, leaf_at(memory, settings, root, *prefix))?;
    }
    Ok(list)
}

/// Adds a page, where there is one.
fn add_leaf(list: &mut Vec<PageLeaf>, found: Option<PageLeaf>) -> Result<(), AllocError>
    ensures { OnOk result ((leaf : Leaf) → IsIn leaf list.new.items
        ↔ (IsIn leaf list.old.items ⊎ (found ≡ Some leaf))) }
{
    let Some(leaf) = found else {
        return Ok(());
    };
    list.push(leaf)?;
    Ok(())
}

/// The mapped page that begins at a prefix.
fn leaf_at<M: PhysicalMemory>(
    memory: &M,
    settings: &Settings,
    root: u64,
    prefix: u64,
) -> Option<PageLeaf>
    requires { IsFrame root }
    ensures { (leaf : Leaf) → (result ≡ Some leaf)
        ↔ IsLeafAmong (M.contents memory.now) settings.now root (prefix ∷ []) leaf }
{
    let Walk::Mapped(page) = walk(memory, settings, root, prefix) else {
        return None;
    };
    if !is_prefix(settings, page.level, prefix) {
        return None;
    }
    Some(PageLeaf {
        level: page.level,
        prefix,
    })
}
