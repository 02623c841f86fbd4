// The records of an archive, one after another. Apart from `Archive`, since it names the walk, whose laws speak of that struct.
ghost use Rattle.std.specs.Prelude.{◌≡◌};
ghost use Rattle.archive_open.specs.Walking.{Walk};

use crate::next_place;

// Where the next record stands, and how many are left from there on.
#[derive(Drop)]
pub struct Records<'a> {
    pub size: usize,
    pub bytes: &'a [u8],
    pub left: usize,
    pub place: usize,
}

impl<'a> Records<'a> {
    // So many records from place 0 on. Of an archive that was read, `walk` says what going through them asks.
    pub fn of(size: usize, bytes: &'a [u8], count: usize) -> Records<'a>
        ensures { (result.size ≡ size) × (result.bytes.now ≡ bytes.now) × (result.left ≡ count) × (result.place ≡ 0) }
    {
        Records {
            size,
            bytes,
            left: count,
            place: 0,
        }
    }
}

impl<'a> Iterator for Records<'a> {
    ghost use Rattle.std.specs.Iterator.{at_most};
    ghost use Rattle.archive_open.specs.Records.{GivesRecord};

    type Item = (usize, &'a [u8]);

    ghost can_next = { λ s. Walk s.size s.bytes.now s.left s.place };

    ghost next_gives = { GivesRecord };

    ghost remaining = { λ s. at_most s.left };

    // A record's place and its bytes.
    fn next(&mut self) -> Option<(usize, &'a [u8])> {
        if self.left == 0 {
            return None;
        }
        let place = self.place;
        let record = &self.bytes[place..place + self.size];
        self.place = next_place(self.size, self.bytes, place);
        self.left -= 1;
        Some((place, record))
    }
}
