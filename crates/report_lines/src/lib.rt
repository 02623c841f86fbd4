// The lines that the program prints, from plain numbers, put into a lent buffer. None of the calls asks anything of its caller.
// The exam sheet has the words of three of them, ended as its page is. A line is two calls, its words and its end: an end chosen by a
// trait or a closure would be longer. Number and cycle stay two plain numbers: each definition of a line takes them apart.
#![tactic(auto)]

ghost use Rattle.buffer.specs.Buffer.{Wrote};
ghost use Rattle.text.specs.Words.{newline};
ghost use Rattle.report_lines.specs.Lines.{access_line, archive_refused_line, blocked_line, exit_line, exit_words, record_line, record_words};
ghost use Rattle.report_lines.specs.Lines.{refused_line, refused_words};

use buffer::Writer;
use exit_figures::ExitFigures;
use text::append_field;

fn end_line(text: &mut Writer)
    ensures { Wrote text.old newline text.new }
{
    text.put_byte(b'\n');
}

// A line without its end: the exam sheet has it too, ended as its page is.
#[tactic(auto, using(buffer::proofs::Pieces::put_append), unfolding(crate::specs::Lines::record_words))]
pub fn record_words(text: &mut Writer, number: u32, cycle: u32, arrival: u32, rounds: u32)
    ensures { Wrote text.old (record_words number cycle arrival rounds) text.new }
{
    append_field(text, b"card ", u64::from(number));
    append_field(text, b" cycle ", u64::from(cycle));
    append_field(text, b" shift ", u64::from(arrival));
    append_field(text, b" rounds ", u64::from(rounds));
}

#[tactic(auto, using(buffer::proofs::Pieces::put_append), unfolding(crate::specs::Lines::exit_words))]
pub fn exit_words(text: &mut Writer, label: &[u8], f: ExitFigures)
    ensures { Wrote text.old (exit_words label.now f) text.new }
{
    append_field(text, label, f.total);
    append_field(text, b" green ", f.green);
    append_field(text, b" permille ", u64::from(f.permille));
}

#[tactic(auto, using(buffer::proofs::Pieces::put_append), unfolding(crate::specs::Lines::refused_words))]
pub fn refused_words(text: &mut Writer, number: u32, k: u32)
    ensures { Wrote text.old (refused_words number k) text.new }
{
    append_field(text, b"card ", u64::from(number));
    append_field(text, b" refused ", u64::from(k));
}

#[tactic(auto, using(buffer::proofs::Pieces::put_append), unfolding(crate::specs::Lines::record_line))]
pub fn record_line(text: &mut Writer, number: u32, cycle: u32, arrival: u32, rounds: u32)
    ensures { Wrote text.old (record_line number cycle arrival rounds) text.new }
{
    record_words(text, number, cycle, arrival, rounds);
    end_line(text);
}

// This line and a refused record's: the words and an end, one call each, with a definition of its own.
#[tactic(auto, using(buffer::proofs::Pieces::put_append), unfolding(crate::specs::Lines::exit_line))]
pub fn exit_line(text: &mut Writer, label: &[u8], f: ExitFigures)
    ensures { Wrote text.old (exit_line label.now f) text.new }
{
    exit_words(text, label, f);
    end_line(text);
}

// The access exit has its total only.
pub fn access_line(text: &mut Writer, total: u64)
    ensures { Wrote text.old (access_line total) text.new }
{
    append_field(text, b"exit a total ", total);
    end_line(text);
}

#[tactic(auto, using(buffer::proofs::Pieces::put_append), unfolding(crate::specs::Lines::blocked_line))]
pub fn blocked_line(text: &mut Writer, count: u32, cycle: u32)
    ensures { Wrote text.old (blocked_line count cycle) text.new }
{
    append_field(text, b"blocked ", u64::from(count));
    append_field(text, b" of ", u64::from(cycle));
    end_line(text);
}

#[tactic(auto, using(buffer::proofs::Pieces::put_append), unfolding(crate::specs::Lines::refused_line))]
pub fn refused_line(text: &mut Writer, number: u32, k: u32)
    ensures { Wrote text.old (refused_line number k) text.new }
{
    refused_words(text, number, k);
    end_line(text);
}

pub fn archive_refused_line(text: &mut Writer, k: u32)
    ensures { Wrote text.old (archive_refused_line k) text.new }
{
    append_field(text, b"drawer refused ", u64::from(k));
    end_line(text);
}
