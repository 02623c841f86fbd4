// Reading archives of segment records: how many, the place of each, finding by number, titles.
// Each call answers its refusal; none asks anything of its caller.
#![tactic(auto)]

ghost use Rattle.std.specs.Prelude.{◌≡◌};
ghost use Rattle.archive_format.specs.Archive.{count_of, place_of, find_of, title_part_of, title_of, first_edition};

use archive_format::{SizedEdition, TitlePart, first_edition};
use archive_open::{Archive, place_at};
use refusal::{Refusal, need};

#[tactic(auto, unfolding(archive_format::specs::Archive::count_of), using(archive_format::specs::Reading::filed_length))]
fn count_in(e: SizedEdition, s: &[u8]) -> Result<usize, Refusal>
    ensures { result ≡ count_of e.edition s.now }
{
    let archive = Archive::open(e, s)?;
    Ok(archive.count)
}

#[tactic(auto, unfolding(archive_format::specs::Archive::place_of, refusal::specs::Refusal::need), using(crate::proofs::Answers::placing))]
fn place_in(e: SizedEdition, s: &[u8], i: usize) -> Result<usize, Refusal>
    ensures { result ≡ place_of e.edition s.now i }
{
    let archive = Archive::open(e, s)?;
    need(Refusal::Record, i < archive.count)?;
    Ok(place_at(s, archive.trailer + 2 * i))
}

#[tactic(auto, unfolding(archive_format::specs::Archive::find_of), using(archive_open::specs::Walking::walk))]
fn find_in(e: SizedEdition, s: &[u8], number: u32) -> Result<usize, Refusal>
    ensures { result ≡ find_of e.edition s.now number }
{
    let archive = Archive::open(e, s)?;
    let size = archive.sized.edition.size;
    archive_open::seek(size, archive.bytes, archive.count, number)
}

#[tactic(auto, unfolding(archive_format::specs::Archive::title_part_of), using(crate::proofs::Answers::within))]
fn title_part_in(e: SizedEdition, s: &[u8], number: u32) -> Result<TitlePart, Refusal>
    ensures { result ≡ title_part_of e.edition s.now number }
{
    let at = find_in(e, s, number)?;
    Ok(TitlePart {
        place: at + e.edition.size + 1,
        length: usize::from(s[at + e.edition.size]),
    })
}

// How many records an archive holds. This call and the three after it are one line each over the call of any edition, with a definition
// of its own.
pub fn count(archive: &[u8]) -> Result<usize, Refusal>
    ensures { result ≡ count_of first_edition archive.now }
{
    count_in(first_edition(), archive)
}

// The place of the record with an index from 0; 6 where there is none.
pub fn place(archive: &[u8], i: usize) -> Result<usize, Refusal>
    ensures { result ≡ place_of first_edition archive.now i }
{
    place_in(first_edition(), archive, i)
}

// The place of the record with a number; 6 where there is none.
pub fn find(archive: &[u8], number: u32) -> Result<usize, Refusal>
    ensures { result ≡ find_of first_edition archive.now number }
{
    find_in(first_edition(), archive, number)
}

// Where the title of the record with a number stands in the archive, and its length; finding's refusal where it refuses.
pub fn title_part(archive: &[u8], number: u32) -> Result<TitlePart, Refusal>
    ensures { result ≡ title_part_of first_edition archive.now number }
{
    title_part_in(first_edition(), archive, number)
}

// The title of the record with a number: the part of the archive that `title_part` answers, empty where it refuses.
#[tactic(auto, unfolding(archive_format::specs::Archive::title_of), using(archive_format::proofs::Finding::part_within))]
pub fn title<'a>(archive: &'a [u8], number: u32) -> &'a [u8]
    ensures { result.now ≡ title_of first_edition archive.now number }
{
    match title_part(archive, number) {
        Ok(part) => &archive[part.place..part.place + part.length],
        Err(_) => &archive[..0],
    }
}
