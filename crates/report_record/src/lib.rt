// The lines of one record, from its number, its cycle and what its working answered, put into a lent buffer.
// Number and cycle stay two plain numbers: each definition of a line takes them apart.
#![tactic(auto)]

ghost use Rattle.buffer.specs.Buffer.{Wrote};
ghost use Rattle.report_record.specs.Record.{record_text, worked_text};

use balance_decision::Unworked;
use buffer::Writer;
use report_lines::{access_line, blocked_line, exit_line, record_line, refused_line};
use working_outcome::Working;

// The report's line for each exit, three calls: a loop over pairs of label and figures is longer, and the access exit has its total only.
// In sheet_page the same three call the page's line: one function over both would take the line as a closure, with a clause of what it
// writes.
fn worked_text(text: &mut Writer, number: u32, cycle: u32, w: Working)
    ensures { Wrote text.old (worked_text number cycle w) text.new }
{
    record_line(text, number, cycle, w.arrival, w.rounds);
    exit_line(text, b"exit l total ", w.left);
    exit_line(text, b"exit t total ", w.through);
    exit_line(text, b"exit r total ", w.right);
    access_line(text, w.access);
    blocked_line(text, w.blocked, cycle);
}

// A match: two closures, one for each answer, cannot both hold the text.
#[tactic(auto, unfolding(crate::specs::Record::record_text))]
pub fn record_text(text: &mut Writer, number: u32, cycle: u32, answer: Result<Working, Unworked>)
    ensures { Wrote text.old (record_text number cycle answer) text.new }
{
    match answer {
        Ok(w) => worked_text(text, number, cycle, w),
        Err(u) => refused_line(text, number, u.number()),
    }
}
