//! The areas of regions.

ghost use Rattle.std.specs.Prelude.{◌≡◌, ℕ, ◌^◌, ◌<◌, OnOk, IfOk, IsTrue, All, List};
ghost use Rattle.paging_model.specs.Listings.{AreAreas, AreRegions, AreStretches, IsStretch, stretch_of_region};
ghost use Rattle.paging_model.specs.Memory.{Memory};
ghost use Rattle.paging_model.specs.Registers.{la57, root_of, settings_of};
ghost use Rattle.paging_model.specs.Translations.{granted_target};
ghost use Rattle.paging_model.specs.declared.registers.Machine.{Machine};
ghost use Rattle.paging_model.specs.declared.registers.Settings.{Settings};
ghost use Rattle.paging_model.specs.declared.spaces.Region.{Region};
ghost use Rattle.region_map.specs.Coalesced.{AreCoalesced, IsPageRange, stretches, target_at};
ghost use Rattle.area_list.specs.AreaLists.{AreAreasOf, IsGrantAdded, IsUnmappedFrom, area_stretches, area_target};
ghost use Rattle.area_list.specs.KeptGrants.{IsGrants};

use crate::appending::append;
use crate::grants::Grants;
use crate::zones::MIDDLE;
use paging_model::registers::Regs;
use paging_model::spaces::{Area, Areas, Region};
use std::alloc::{AllocError, Global};

/// The areas of the regions of a space, by ascending addresses.
///
/// It takes time by the regions and memory by the areas.
///
/// # Errors
///
/// Out of memory.
pub fn areas_of(alloc: Global, regs: &Regs, regions: &[Region]) -> Result<Areas, AllocError>
    requires coalesced { AreCoalesced (stretches regions.now) }
    requires canonical { AreStretches (la57 regs.now) (stretches regions.now) }
    requires keys { All (λ region. region.key < 16) regions.now }
    ensures listed { IfOk result (λ areas. AreAreasOf regs.now regions.now areas) }
    ensures space { (memory : Memory) (machine : Machine)
        → AreRegions memory (settings_of regs.now machine) (root_of regs.now machine) regions.now
        → IfOk result (λ areas. AreAreas memory machine regs.now areas) }
{
    let mut areas = Vec::new(alloc);
    let mut grants = Grants::new(regs);
    for region in regions {
        add_region(&mut areas, regs, &mut grants, region)?;
    }
    Ok(Areas::from_vec(areas))
}

/// The keys of the regions of a space are protection keys, as `areas_of` requires.
pub fn keys_of_a_space_are_below_16()
    ensures { (memory : Memory) (settings : Settings) (root : ℕ) (regions : List Region)
        → AreRegions memory settings root regions → All (λ region. region.key < 16) regions }
{}

/// Adds what a region grants: in two parts where it goes across 2 to the 47, since the two may be reached differently.
#[inline(always)]
fn add_region(
    areas: &mut Vec<Area>,
    regs: &Regs,
    grants: &mut Grants,
    region: &Region,
) -> Result<(), AllocError>
    requires coalesced { AreCoalesced (area_stretches areas.old.items) }
    requires grants { IsGrants regs.now grants.old }
    requires range { IsPageRange (stretch_of_region region.now) }
    requires canonical { IsStretch (la57 regs.now) (stretch_of_region region.now) }
    requires key { region.now.key < 16 }
    requires after { IsUnmappedFrom region.now.first (area_target areas.old.items) }
    ensures added { OnOk result (IsGrantAdded regs.now region.now areas.old.items areas.new.items) }
    ensures grants { IsGrants regs.now grants.new }
{
    if MIDDLE <= region.first || region.last < MIDDLE {
        return add_part(areas, regs, grants, region);
    }
    let low = Region {
        last: MIDDLE - 1,
        ..*region
    };
    let high = Region {
        first: MIDDLE,
        frame: region.frame + (MIDDLE - region.first),
        ..*region
    };
    add_part(areas, regs, grants, &low)?;
    add_part(areas, regs, grants, &high)
}

/// Adds what a region of one zone grants.
#[inline(always)]
fn add_part(
    areas: &mut Vec<Area>,
    regs: &Regs,
    grants: &mut Grants,
    part: &Region,
) -> Result<(), AllocError>
    requires coalesced { AreCoalesced (area_stretches areas.old.items) }
    requires grants { IsGrants regs.now grants.old }
    requires range { IsPageRange (stretch_of_region part.now) }
    requires canonical { IsStretch (la57 regs.now) (stretch_of_region part.now) }
    requires side { part.now.first < 2 ^ 47 → part.now.last < 2 ^ 47 }
    requires key { part.now.key < 16 }
    requires after { IsUnmappedFrom part.now.first (area_target areas.old.items) }
    ensures added { OnOk result (IsGrantAdded regs.now part.now areas.old.items areas.new.items) }
    ensures grants { IsGrants regs.now grants.new }
{
    grants.go_to(regs, part.first);
    let area = Area {
        first: part.first,
        last: part.last,
        frame: part.frame,
        rights: grants.rights(part.bits, part.key),
    };
    append(areas, area)
}
