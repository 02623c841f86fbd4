// Archives of segment records (paper 01: drawers of cards). What they mean is in specs/.
#![tactic(auto)]

ghost use Rattle.archive_format.specs.Sized.{Sized};

mod beginning;

pub use beginning::{empty, first_edition};

// The most records that an archive holds.
pub const RECORD_LIMIT: usize = 512;

// The most bytes of a title.
pub const TITLE_LIMIT: usize = 40;

// The size of a record and the two bytes that mark an archive of them.
#[derive(Clone, Copy)]
pub struct Edition {
    pub size: usize,
    pub first: u8,
    pub second: u8,
}

// An edition whose size serves, as the calls take it. The theorems speak of every edition.
#[derive(Clone, Copy)]
pub struct SizedEdition {
    pub edition: Edition,
    pub ghost sized: { Sized edition.size },
}

// Where a title stands in its archive, and its length.
#[derive(Clone, Copy)]
pub struct TitlePart {
    pub place: usize,
    pub length: usize,
}
