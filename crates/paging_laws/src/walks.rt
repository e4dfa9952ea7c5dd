//! What the walk of an address depends on, and where it comes.

ghost use Rattle.std.specs.Prelude.{◌≡◌, ℕ, ◌<◌, ◌^◌, IsTrue};
ghost use Rattle.paging_model.specs.LinearAddress.{is_canonical};
ghost use Rattle.paging_model.specs.Memory.{Memory};
ghost use Rattle.paging_model.specs.TableUses.{IsUse, Reaches};
ghost use Rattle.paging_model.specs.Translations.{raw_target};
ghost use Rattle.paging_model.specs.Walking.{walk, walk_from};
ghost use Rattle.paging_model.specs.declared.entries.Bits.{Bits};
ghost use Rattle.paging_model.specs.declared.registers.Settings.{Settings};
ghost use Rattle.paging_model.specs.declared.spaces.TableUse.{TableUse};
ghost use Rattle.paging_laws.specs.ReadEntries.{ReadAlike, ReadAlikeAbove};
ghost use Rattle.paging_laws.specs.ServedAddresses.{IsServedBy, UseFor};

/// A walk depends on the entries that it reads and on nothing else of memory.
pub fn walks_that_read_equal_entries_are_equal()
    ensures walks { (one other : Memory) (settings : Settings) (root x : ℕ) →
        ReadAlike one other settings root x
        → walk one settings root x ≡ walk other settings root x }
    ensures pages { (one other : Memory) (settings : Settings) (root x : ℕ) →
        ReadAlike one other settings root x
        → raw_target one settings root x ≡ raw_target other settings root x }
{}

/// A use depends on the entries above it and on nothing else of memory.
pub fn uses_depend_on_the_entries_above_them()
    ensures { (one other : Memory) (settings : Settings) (root : ℕ) (table : TableUse) →
        IsUse one settings root table
        → ReadAlikeAbove table.level one other settings root table.prefix
        → IsUse other settings root table }
{}

/// A level and a prefix have one table at most, and one way to it.
pub fn prefix_has_one_use()
    ensures { (memory : Memory) (settings : Settings) (root : ℕ) (one other : TableUse) →
        IsUse memory settings root one → IsUse memory settings root other
        → one.level ≡ other.level → one.prefix ≡ other.prefix → one ≡ other }
{}

/// The walk of each address that a table serves comes to that table, with the bits that were joined above it.
pub fn table_serves_its_range()
    ensures { (memory : Memory) (settings : Settings) (root x : ℕ) (table : TableUse) →
        IsUse memory settings root table → IsServedBy settings table x
        → Reaches memory settings root table.level x table.frame table.bits }
{}

/// A walk goes on from each table that it comes to, with the bits that were joined above it.
pub fn walk_goes_on_from_each_table()
    ensures { (memory : Memory) (settings : Settings) (root x level table : ℕ) (above : Bits) →
        Reaches memory settings root level x table above
        → walk memory settings root x ≡ walk_from memory settings level x table above }
{}

/// One table at most of a level serves an address.
pub fn address_has_one_use_of_a_level()
    ensures { (memory : Memory) (settings : Settings) (root x : ℕ) (one other : TableUse) →
        IsUse memory settings root one → IsUse memory settings root other → one.level ≡ other.level
        → IsServedBy settings one x → IsServedBy settings other x → one ≡ other }
{}

/// Each table that the walk of a canonical address comes to has a use that serves the address.
pub fn each_table_of_a_walk_is_used()
    ensures { (memory : Memory) (settings : Settings) (root x level table : ℕ) (bits : Bits) →
        x < 2 ^ 64 → IsTrue (is_canonical settings.la57 x)
        → Reaches memory settings root level x table bits
        → UseFor memory settings root level x table bits }
{}
