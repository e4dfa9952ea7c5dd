//! What a walk reads of the places that a write changes.

ghost use Rattle.std.specs.Prelude.{◌≡◌, ℕ, ◌⊎◌, ◌↔◌, Bool};
ghost use Rattle.kept_laws.specs.WrittenPlaces.{AreAlikeBut, IsOutermost, IsWrittenTo, ReadsNone, ReadsNoneAbove, ReadsOne, meets};
ghost use Rattle.paging_model.specs.Memory.{Memory};
ghost use Rattle.paging_model.specs.TableUses.{IsUse};
ghost use Rattle.paging_model.specs.Translations.{raw_target};
ghost use Rattle.paging_model.specs.Walking.{walk};
ghost use Rattle.paging_model.specs.declared.entries.Bits.{Bits};
ghost use Rattle.paging_model.specs.declared.registers.Settings.{Settings};
ghost use Rattle.paging_model.specs.declared.spaces.TableUse.{TableUse};

/// A write changes no entry that it doesn't meet.
pub fn entries_outside_a_write_stay()
    ensures { (at n : ℕ) (old new : Memory) →
        IsWrittenTo at n old new → AreAlikeBut (meets at n) old new }
{}

/// A walk that reads no written place is the same before and after.
pub fn walks_that_read_nothing_written_stay()
    ensures walks { (written : ℕ → Bool) (one other : Memory) (settings : Settings)
        (root x : ℕ) → AreAlikeBut written one other → ReadsNone one written settings root x
        → walk one settings root x ≡ walk other settings root x }
    ensures pages { (written : ℕ → Bool) (one other : Memory) (settings : Settings)
        (root x : ℕ) → AreAlikeBut written one other → ReadsNone one written settings root x
        → raw_target one settings root x ≡ raw_target other settings root x }
    ensures none { (written : ℕ → Bool) (one other : Memory) (settings : Settings)
        (root x : ℕ) → AreAlikeBut written one other → ReadsNone one written settings root x
        → ReadsNone other written settings root x }
{}

/// The first written place that a walk reads is the same before and after, and so is the way to it.
pub fn first_written_place_stays()
    ensures { (written : ℕ → Bool) (one other : Memory) (settings : Settings)
        (root x level table : ℕ) (above : Bits) → AreAlikeBut written one other
        → IsOutermost one written settings root x level table above
        → IsOutermost other written settings root x level table above }
{}

/// A walk reads no written place, or there is a first one.
pub fn walk_reads_none_or_a_first()
    ensures { (written : ℕ → Bool) (memory : Memory) (settings : Settings) (root x : ℕ) →
        ReadsNone memory written settings root x ⊎ ReadsOne memory written settings root x }
{}

/// A use above which no written place is read stands before and after.
pub fn use_below_nothing_written_stays()
    ensures { (written : ℕ → Bool) (one other : Memory) (settings : Settings) (root : ℕ)
        (table : TableUse) → AreAlikeBut written one other → IsUse one settings root table
        → ReadsNoneAbove one written settings root table.prefix table.level
        → IsUse other settings root table }
{}
