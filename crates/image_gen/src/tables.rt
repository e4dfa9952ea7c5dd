//! Where the tables of the core lie, and what their entries map.

ghost use Rattle.std.specs.Prelude.{◌≡◌, ◌<◌, ◌^◌};
ghost use Rattle.image_gen.specs.GeneratedTables.{open_entry, page, slot, table};

/// The bytes of a page, and of a table.
pub(crate) const PAGE_SIZE: u64 = 0x1000;

/// The physical address of the top table.
pub(crate) const ROOT: u64 = 0x1000;

/// The physical address of a table of level 1.
pub(crate) fn table(i: u32) -> u64
    ensures { result ≡ table i }
{
    0x10000 + PAGE_SIZE * u64::from(i)
}

/// The physical address of an entry of a table of level 1.
pub(crate) fn slot(i: u32, j: u32) -> u64
    ensures { result ≡ slot i j }
{
    table(i) + 8 * u64::from(j)
}

/// The physical address of the page that an entry maps in the core.
pub(crate) fn page(i: u32, j: u32) -> u64
    ensures { result ≡ page i j }
{
    0x10_0000 + PAGE_SIZE * (512 * u64::from(i) + u64::from(j))
}

/// An entry that permits every access: present, writable and a user's.
pub(crate) fn open_entry(frame: u64) -> u64
    requires { frame < 2 ^ 32 }
    ensures { result ≡ open_entry frame }
{
    frame + 7
}
