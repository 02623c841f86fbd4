// The edition that is written, and the archive that the others grow from. Apart from `SizedEdition`, which their contracts name.
ghost use Rattle.std.specs.Prelude.{◌≡◌, []};
ghost use Rattle.archive_format.specs.Archive.{encode, first_edition};

use crate::{Edition, SizedEdition};

// The first edition: records of 68 bytes, mark "DR". A function, since each use of a constant would have a proof of its own that the
// size serves.
pub fn first_edition() -> SizedEdition
    ensures { result.edition ≡ first_edition }
{
    SizedEdition {
        edition: Edition {
            size: segment::SIZE,
            first: 68,
            second: 82,
        },
    }
}

// The archive with no records.
#[tactic(auto, unfolding(crate::specs::Archive::encode, crate::specs::Archive::body, crate::specs::Archive::places))]
pub fn empty() -> [u8; 6]
    ensures { result ≡ encode first_edition [] }
{
    let e = first_edition().edition;
    [0, 0, 0, 0, e.first, e.second]
}
