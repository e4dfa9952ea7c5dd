//! The manual's text for one address, read word for word, beside the walk.

use super::*;
use std::test::Fail;
use test_support::fields::put;

/// The entry at an address, of memory that begins at physical address 0.
fn entry(bytes: &[u8], at: u64) -> Option<u64> {
    let bytes = bytes.get(at as usize..)?.get(..8)?;
    Some(bytes.iter().rev().fold(0, |high: u64, &low| high.wrapping_mul(256) | u64::from(low)))
}

/// "Bits 11:3 are bits 47:39 of the linear address. Bits 2:0 are all 0." So for the PML4E, and lower for each level.
fn offset_in_table(level: u8, address: u64) -> u64 {
    let lowered = match level {
        5 => address >> 45,
        4 => address >> 36,
        3 => address >> 27,
        2 => address >> 18,
        _ => address >> 9,
    };
    lowered & 0xff8
}

/// The bits of an address that stand as they are in the physical address.
fn offset(level: u8) -> u64 {
    match level {
        3 => 0x3fff_ffff,
        2 => 0x1f_ffff,
        _ => 0xfff,
    }
}

/// Whether a bit is set that is reserved where the physical width is 40.
fn is_reserved(level: u8, settings: &Settings, value: u64) -> bool {
    let large = value & 0x80 != 0
        && match level {
            5 | 4 => true,
            3 => !settings.big || value & 0x3fff_e000 != 0,
            2 => value & 0x1f_e000 != 0,
            _ => false,
        };
    large || value & 0xf_ff00_0000_0000 != 0 || (!settings.nxe && value >> 63 != 0)
}

/// The walk, level after level from the top.
fn slow_walk(bytes: &[u8], settings: &Settings, root: u64, address: u64) -> Walk {
    let mut table = root;
    let mut bits = Bits {
        write: true,
        user: true,
        xd: false,
    };
    for level in [5, 4, 3, 2, 1] {
        if level == 5 && !settings.la57 {
            continue;
        }
        let Some(value) = entry(bytes, table | offset_in_table(level, address)) else {
            return Walk::Unknown(level);
        };
        if value & 1 == 0 {
            return Walk::Absent(level);
        }
        if is_reserved(level, settings, value) {
            return Walk::Reserved(level);
        }
        bits = Bits {
            write: bits.write && value & 2 != 0,
            user: bits.user && value & 4 != 0,
            xd: bits.xd || value >> 63 != 0,
        };
        let frame = value & 0xf_ffff_ffff_f000;
        if level == 1 || value & 0x80 != 0 {
            return Walk::Mapped(Page {
                frame: ((frame & !offset(level)) | (address & offset(level))) & !0xfff,
                level,
                bits,
                key: (value >> 59 & 15) as u8,
                global: value & 0x100 != 0,
            });
        }
        table = frame;
    }
    Walk::Absent(0)
}

/// The next number of a linear congruence.
fn next(random: u64) -> u64 {
    random
        .wrapping_mul(6_364_136_223_846_793_005)
        .wrapping_add(1_442_695_040_888_963_407)
}

/// A random entry: mostly present, seldom of a large page, and often of a table in the first four pages.
fn random_entry(random: u64) -> u64 {
    const FRAMES: [u64; 16] = [
        0,
        0x1000,
        0x2000,
        0x3000,
        0,
        0x1000,
        0x2000,
        0x3000,
        0,
        0x1000,
        0x2000,
        0x3000,
        0x9000,
        0x40_0000,
        0x4000_0000,
        0x100_0000_0000,
    ];
    let frame = FRAMES[(random >> 32) as usize % 16];
    let mut flags = random >> 40 & 0x106;
    if random >> 50 & 15 != 0 {
        flags |= 1;
    }
    if random >> 54 & 3 == 0 {
        flags |= 0x80;
    }
    if random >> 57 & 3 == 0 {
        flags |= random & 0xf800_0000_0000_0000;
    }
    frame | flags
}

#[test]
fn walks_by_the_text(rt: HostRuntime) -> Result<(), Fail> {
    let mut random = 1;
    let mut mapped = [0u32, 0, 0, 0];
    for memory in 0u32..100 {
        let mut bytes = vec![in rt.alloc(); 0; SIZE]?;
        for entry in bytes.chunks_exact_mut(8) {
            random = next(random);
            put(entry, (0, 8, random_entry(random)));
        }
        let settings = settings(memory % 2 == 0, memory % 3 == 0, memory % 5 != 0);
        for _ in 0u32..16 {
            random = next(random);
            let address = random >> 3;
            let (end, _) = walk_and_steps(&rt, rt.alloc(), &bytes, &settings, 0x1000, address)?;
            let want = slow_walk(&bytes, &settings, 0x1000, address);
            assert_eq!(rt; end, want, "{address:#x} in memory {memory}");
            if let Walk::Mapped(page) = end {
                let level = page.level as usize % 4;
                mapped[level] = mapped[level].wrapping_add(1);
            }
        }
    }
    // Each size of a page was met.
    for level in 1..4 {
        assert!(rt; mapped[level] > 10, "{} of level {level}", mapped[level]);
    }
    Ok(())
}
