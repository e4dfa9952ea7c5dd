//! The answers to events.

use crate::caches::Findings;
use paging_model::access::Rule;
use paging_model::spaces::Areas;

/// Why an access is denied: the first reason in this order. A number is the level at which the walk stopped, 5 to 1.
#[derive(Clone, Copy, Debug, PartialEq, Eq)]
pub enum Why {
    /// The pointer, or its address, isn't canonical.
    NotCanonical,
    /// The address lies in the half that LASS keeps from the access.
    Lass,
    /// A byte of an entry isn't known.
    Unknown(u8),
    /// An entry's P is 0.
    Absent(u8),
    /// An entry has a reserved bit set.
    Reserved(u8),
    /// The page is mapped, and a rule refuses the access.
    Denied(Rule),
}

/// The answer to an event.
#[derive(Debug, Drop)]
pub enum Answer {
    /// There is nothing to say.
    Nothing,
    /// The physical address of a granted access, or why it is denied.
    Asked(Result<u64, Why>),
    /// The areas of a space.
    Listed(Areas),
    /// The space has too many tables or pages to be listed.
    ListTooLarge,
    /// What a point found.
    Verdict(Findings),
}
