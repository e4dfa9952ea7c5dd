//! The indices of an entry's bits.

/// P: the entry is present.
pub const PRESENT: u8 = 0;
/// R/W: writes are allowed.
pub const WRITE: u8 = 1;
/// U/S: user accesses are allowed.
pub const USER: u8 = 2;
/// PS: the entry maps a large page. At level 1 this bit is PAT.
pub const PAGE_SIZE: u8 = 7;
/// G: the page is global.
pub const GLOBAL: u8 = 8;
/// The lowest bit of the frame of a table or a 4-KByte page.
pub const FRAME_LOW: u8 = 12;
/// The lowest bit of the frame of a 2-MByte page. The bits below it, down to 13, are reserved.
pub const FRAME_LOW_2_MBYTES: u8 = 21;
/// The lowest bit of the frame of a 1-GByte page. The bits below it, down to 13, are reserved.
pub const FRAME_LOW_1_GBYTE: u8 = 30;
/// The highest bit of a frame at the greatest physical width.
pub const FRAME_HIGH: u8 = 51;
/// The lowest bit of a page's protection key.
pub const KEY_LOW: u8 = 59;
/// The highest bit of a page's protection key.
pub const KEY_HIGH: u8 = 62;
/// XD: instruction fetches are refused.
pub const EXECUTE_DISABLE: u8 = 63;
