//! Which stays are asked for.

ghost use Rattle.std.specs.Prelude.{◌≡◌};
ghost use Rattle.stay_times.specs.Periods.{is_wanted as is_wanted_in};

use cache_rules::Stay;

/// Which stays are asked for: those in a PCID, and with NXE and a root where these are given.
#[derive(Clone, Copy, Debug, PartialEq, Eq)]
pub struct Wanted {
    pub pcid: u16,
    /// EFER.NXE.
    pub nxe: Option<bool>,
    /// The physical address of the top table.
    pub root: Option<u64>,
}

/// Whether a stay is one that is asked for.
pub(crate) fn is_wanted(stay: &Stay, wanted: &Wanted) -> bool
    ensures { result ≡ is_wanted_in wanted.now stay.now }
{
    stay.pcid == wanted.pcid
        && wanted.nxe.is_none_or(|nxe| nxe == stay.nxe)
        && wanted.root.is_none_or(|root| root == stay.root)
}
