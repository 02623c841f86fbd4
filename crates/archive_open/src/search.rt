// Seeking a number among records. Apart from `Archive`, since its contract names the walk, whose laws speak of that struct.
ghost use Rattle.std.specs.Prelude.{◌≡◌};
ghost use Rattle.archive_format.specs.Archive.{filed_from, find_in};
ghost use Rattle.archive_format.specs.Sized.{Sized};
ghost use Rattle.archive_open.specs.Walking.{Walk};

use crate::Records;
use refusal::Refusal;

// The place of the record with a number, among so many from place 0 on; 6 where there is none. Of an archive that was read, `walk` says
// what this asks; parts, so that it asks no more.
pub fn seek(size: usize, s: &[u8], count: usize, number: u32) -> Result<usize, Refusal>
    requires { Sized size × Walk size s.now count 0 }
    ensures { result ≡ find_in size 0 (filed_from size count s.now 0) number }
{
    for (place, record) in Records::of(size, s, count) {
        if octets::word4_at(record, 0) == number {
            return Ok(place);
        }
    }
    Err(Refusal::Record)
}
