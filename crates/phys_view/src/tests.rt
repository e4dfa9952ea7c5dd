//! Views of segments that were made by hand.

mod many_pages;
mod reads;
mod writes;

use super::*;
