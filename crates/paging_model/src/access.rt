//! The kinds of access.

/// A kind of access to a linear address.
#[derive(Clone, Copy, Debug, PartialEq, Eq)]
pub enum Access {
    /// User read.
    Ur,
    /// User write.
    Uw,
    /// User instruction fetch.
    Ux,
    /// Explicit supervisor read.
    Sr,
    /// Explicit supervisor write.
    Sw,
    /// Supervisor instruction fetch.
    Sx,
    /// Implicit supervisor read, as of a descriptor table.
    Ir,
    /// Implicit supervisor write.
    Iw,
}

/// A rule that refuses an access to a mapped page. The first of them that does is the denial, in this order.
#[derive(Clone, Copy, Debug, PartialEq, Eq)]
pub enum Rule {
    /// A user access to a supervisor page.
    User,
    /// A supervisor fetch from a user page, under SMEP.
    Smep,
    /// A supervisor data access to a user page, under SMAP.
    Smap,
    /// A write to a page without R/W.
    Write,
    /// A fetch from a page with XD.
    Xd,
    /// The page's protection key.
    Key,
}

/// A rule that refuses a pointer before its address is walked.
#[derive(Clone, Copy, Debug, PartialEq, Eq)]
pub enum AimRule {
    /// The pointer, or its address, isn't canonical.
    NotCanonical,
    /// The address lies in the half that LASS keeps from the access.
    Lass,
}
