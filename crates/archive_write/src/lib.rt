// Writing an archive with one record more into a lent buffer, part by part.
// A lower layer's function: `grow` asks of its caller that the bytes fit.
#![tactic(auto)]

ghost use Rattle.std.specs.Prelude.{◌≡◌, ◌<◌, length};
ghost use Rattle.octets.specs.Octets.{bytes2, word2_bound};
ghost use Rattle.buffer.specs.Buffer.{Wrote, WroteAt};
ghost use Rattle.archive_write.specs.Writing.{record_bytes, end_bytes, grown_by, FitsIn};

use archive_format::Edition;
use buffer::Writer;

// An archive as the format has it: its bytes, how many records, its trailer's place. No `Archive`: that one was read, and is the
// reader's, while writing asks only that the bytes fit.
#[derive(Clone, Copy)]
pub struct Parts<'a> {
    pub edition: Edition,
    pub bytes: &'a [u8],
    pub count: usize,
    pub trailer: usize,
}

// A record that is added, and its title.
#[derive(Clone, Copy)]
pub struct NewRecord<'a> {
    pub bytes: &'a [u8],
    pub title: &'a [u8],
}

// A record, its title's length and its title.
fn put_record(added: NewRecord, out: &mut Writer)
    requires { length added.title.now < 256 }
    ensures { Wrote out.old (record_bytes added.entry.bytes.now added.entry.title.now) out.new }
{
    out.put(added.bytes);
    // `as`, here and below: a length that fits a byte, a number that fits two; `try_from` would have a case that cannot be.
    out.put_byte(added.title.len() as u8);
    out.put(added.title);
}

// A number in two bytes.
fn put_word(out: &mut Writer, n: usize)
    requires { n < word2_bound }
    ensures { Wrote out.old (bytes2 n) out.new }
{
    out.put(&(n as u16).to_le_bytes());
}

// What ends a trailer after its places: the count, the trailer's own place, the mark.
fn put_end(e: Edition, out: &mut Writer, count: usize, trailer: usize)
    requires { (count < word2_bound) × (trailer < word2_bound) }
    ensures { Wrote out.old (end_bytes e count trailer) out.new }
{
    put_word(out, count);
    put_word(out, trailer);
    out.put(&[e.first, e.second]);
}

// One after another: the old records, the new one, the old places, the new one's, the end.
fn put_grown(parts: Parts, added: NewRecord, out: &mut Writer)
    requires { FitsIn parts added (length out.old.bytes.now) }
    ensures { Wrote out.old (grown_by parts.entry added.entry) out.new }
{
    out.put(&parts.bytes[..parts.trailer]);
    put_record(added, out);
    out.put(&parts.bytes[parts.trailer..parts.trailer + 2 * parts.count]);
    put_word(out, parts.trailer);
    put_end(
        parts.edition,
        out,
        parts.count + 1,
        parts.trailer + added.bytes.len() + 1 + added.title.len(),
    );
}

// Writes an archive with one record more, and hands back its length.
pub fn grow(parts: Parts, added: NewRecord, out: &mut [u8]) -> usize
    requires { FitsIn parts added (length out.old) }
    ensures { WroteAt out.old 0 (grown_by parts.entry added.entry) out.new result }
{
    // A literal: it shows the place 0 that the contract names, where a constructor hides it.
    let mut out = Writer { bytes: out, at: 0 };
    put_grown(parts, added, &mut out);
    out.at
}
