// Adding a record to an archive: the old archive and one record more are written to a second buffer.
#![tactic(auto)]

ghost use Rattle.std.specs.Prelude.{◌≡◌, length};
ghost use Rattle.archive_format.specs.Archive.{title_fits, first_edition};
ghost use Rattle.archive_add.specs.Adds.{Adds};

use archive_format::{RECORD_LIMIT, SizedEdition, TITLE_LIMIT, first_edition};
use archive_open::Archive;
use archive_write::{NewRecord, Parts};
use refusal::{Refusal, need};

// A title that is not too long, of bytes from 32 to 126.
fn title_fits(title: &[u8]) -> bool
    ensures { result ≡ title_fits title.now }
{
    title.len() <= TITLE_LIMIT && archive_open::printable(title)
}

// Every test stands before the first byte that is written.
#[tactic(auto, unfolding(archive_format::specs::Archive::add_of, refusal::specs::Refusal::need))]
fn add_in(e: SizedEdition, bytes: &[u8], added: NewRecord, out: &mut [u8]) -> Result<usize, Refusal>
    ensures { Adds e.edition bytes.now added.entry.bytes.now added.entry.title.now out.old result out.new }
{
    let archive = Archive::open(e, bytes)?;
    need(Refusal::Record, added.bytes.len() == e.edition.size)?;
    need(Refusal::Title, title_fits(added.title))?;
    let number = octets::word4_at(added.bytes, segment::NUMBER_AT);
    need(Refusal::Order, archive.last < number)?;
    let length = archive.trailer + e.edition.size + 1 + added.title.len() + 2 * archive.count + 8;
    need(Refusal::BufferRoom, length <= out.len())?;
    need(Refusal::Full, archive.count < RECORD_LIMIT)?;
    let parts = Parts {
        edition: e.edition,
        bytes,
        count: archive.count,
        trailer: archive.trailer,
    };
    let n = archive_write::grow(parts, added, out);
    Ok(n)
}

// Writes the archive with one record more to the buffer and returns its length; a refusal writes nothing, and bytes beyond stay.
// The record and its title one by one, as the C interface has them.
pub fn add(
    archive: &[u8],
    segment: &[u8],
    title: &[u8],
    buffer: &mut [u8],
) -> Result<usize, Refusal>
    ensures { Adds first_edition archive.now segment.now title.now buffer.old result buffer.new }
{
    let added = NewRecord {
        bytes: segment,
        title,
    };
    add_in(first_edition(), archive, added, buffer)
}
