//! The indices of the register bits that paging goes by, under their names in the manual.

/// Protection enable.
pub const CR0_PE: u8 = 0;
/// Supervisor write protection.
pub const CR0_WP: u8 = 16;
/// Paging.
pub const CR0_PG: u8 = 31;

/// Linear-address masking of user pointers, of 57 bits.
pub const CR3_LAM_U57: u8 = 61;
/// Linear-address masking of user pointers, of 48 bits.
pub const CR3_LAM_U48: u8 = 62;
/// In a write to CR3: the translations of the PCID are kept.
pub const CR3_KEEP: u8 = 63;

/// Physical-address extension.
pub const CR4_PAE: u8 = 5;
/// Global pages.
pub const CR4_PGE: u8 = 7;
/// 5-level paging.
pub const CR4_LA57: u8 = 12;
/// Process-context identifiers.
pub const CR4_PCIDE: u8 = 17;
/// Supervisor-mode execution prevention.
pub const CR4_SMEP: u8 = 20;
/// Supervisor-mode access prevention.
pub const CR4_SMAP: u8 = 21;
/// Protection keys of user pages.
pub const CR4_PKE: u8 = 22;
/// Protection keys of supervisor pages.
pub const CR4_PKS: u8 = 24;
/// Linear-address space separation.
pub const CR4_LASS: u8 = 27;
/// Linear-address masking of supervisor pointers.
pub const CR4_LAM_SUP: u8 = 28;

/// IA-32e mode enable.
pub const EFER_LME: u8 = 8;
/// IA-32e mode active.
pub const EFER_LMA: u8 = 10;
/// Execute-disable enable.
pub const EFER_NXE: u8 = 11;

/// Alignment check: lets explicit supervisor data accesses pass supervisor-mode access prevention.
pub const RFLAGS_AC: u8 = 18;
