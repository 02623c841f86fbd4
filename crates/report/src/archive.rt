// The records of an archive, each worked from its own bytes in one pass, and what is printed of each: its lines or its sheet.
ghost use Rattle.std.specs.Prelude.{◌≡◌, length};
ghost use Rattle.buffer.specs.Buffer.{Wrote};
ghost use Rattle.segment.specs.Layout.{size};
ghost use Rattle.archive_format.specs.Archive.{filed_from, first_edition};
ghost use Rattle.report.specs.Report.{archive_text, input_text, records_text, segment_text};

use crate::{Form, INPUT_LIMIT};
use archive_format::first_edition;
use archive_open::{Archive, Records};
use buffer::Writer;
use propagation::LongestProfiles;
use refusal::Refusal;

fn segment_text(form: Form, text: &mut Writer, bytes: &[u8], profiles: &mut LongestProfiles)
    requires { length bytes.now ≡ size }
    ensures { Wrote text.old (segment_text form bytes.now) text.new }
{
    let number = octets::word4_at(bytes, segment::NUMBER_AT);
    let cycle = octets::word2_at(bytes, segment::CYCLE_AT);
    let mut lent = profiles.lend();
    let answer = working::work(bytes, &mut lent);
    // A match: the form is a value that the calls and the programs pass.
    match form {
        Form::Lines => report_record::record_text(text, number, cycle, answer),
        Form::Sheet => sheet_page::record_page(text, number, cycle, answer, lent.output),
    }
}

// The records of an archive of the first edition, in order. The profiles are made once for all of them.
fn records_text(form: Form, text: &mut Writer, archive: Archive)
    requires { archive.sized.edition ≡ first_edition }
    ensures { Wrote text.old (records_text form (filed_from size archive.entry.count archive.entry.bytes.now 0)) text.new }
{
    let mut profiles = LongestProfiles::new();
    for (_, bytes) in Records::of(segment::SIZE, archive.bytes, archive.count) {
        segment_text(form, text, bytes, &mut profiles);
    }
}

fn archive_text(form: Form, text: &mut Writer, archive: &[u8])
    ensures { Wrote text.old (archive_text form archive.now) text.new }
{
    match Archive::open(first_edition(), archive) {
        Ok(read) => records_text(form, text, read),
        Err(refusal) => report_lines::archive_refused_line(text, refusal.number()),
    }
}

#[tactic(auto, unfolding(crate::specs::Report::input_text))]
pub(crate) fn input_text(form: Form, text: &mut Writer, archive: &[u8])
    ensures { Wrote text.old (input_text form archive.now) text.new }
{
    if INPUT_LIMIT < archive.len() {
        report_lines::archive_refused_line(text, Refusal::Trailer.number());
    } else {
        archive_text(form, text, archive);
    }
}
