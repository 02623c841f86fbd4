// The exam sheet of one record on a page, put into a lent buffer: the record's line, its pair flows, its exits and the through run.
// Number and cycle stay two plain numbers: each definition of a line takes them apart.
#![tactic(auto)]

ghost use Rattle.std.specs.Prelude.{◌+◌, ◌≤◌, ◌<◌, length};
ghost use Rattle.buffer.specs.Buffer.{Wrote};
ghost use Rattle.page.specs.Page.{line, lines};
ghost use Rattle.report_lines.specs.Lines.{exit_words, record_words};
ghost use Rattle.text.specs.Text.{columns};
ghost use Rattle.sheet_page.specs.SheetPage.{exit_lines, flow_lines, head_lines, pair_lines, pair_unit, pair_width};
ghost use Rattle.sheet_page.specs.SheetPage.{RunStands, record_page, refused_page, rows_for, worked_page};

use balance_decision::Unworked;
use buffer::Writer;
use exit_figures::ExitFigures;
use page::{end_page, line};
use report_lines::{exit_words, record_words, refused_words};
use text::append_columns;
use working_outcome::Working;

const PAIR_WIDTH: usize = 11;

const PAIR_UNIT: u32 = 1;

const FLOW_WIDTH: usize = 7;

const FLOW_UNIT: u32 = 1000;

// The steps of a row.
const ROW_STEPS: usize = 10;

// The lines above the run: the record's, four of pair flows, three of exits.
const HEAD_LINES: usize = 8;

fn record_line(text: &mut Writer, number: u32, cycle: u32, w: Working)
    ensures { Wrote text.old (line (record_words number cycle w.arrival w.rounds)) text.new }
{
    line(
        text,
        |text| record_words(text, number, cycle, w.arrival, w.rounds),
    );
}

fn exit_line(text: &mut Writer, label: &[u8], f: ExitFigures)
    ensures { Wrote text.old (line (exit_words label.now f)) text.new }
{
    line(text, |text| exit_words(text, label, f));
}

// A line of numbers in columns. Width and unit stay two plain numbers: a struct of both is taken apart by each definition of columns.
fn columns_line(text: &mut Writer, width: usize, unit: u32, numbers: &[u32])
    requires { 0 < unit }
    ensures { Wrote text.old (line (columns width unit numbers.now)) text.new }
{
    line(text, |text| append_columns(text, width, unit, numbers));
}

// A line for each entry: what it sends to each exit.
fn pair_lines(text: &mut Writer, rows: [[u32; 4]; 4])
    ensures { Wrote text.old (lines (pair_lines rows)) text.new }
{
    for row in &rows {
        columns_line(text, PAIR_WIDTH, PAIR_UNIT, row);
    }
}

// The page's line for each exit, three calls: a loop over pairs of label and figures is longer. In report_record the same three call the
// report's line: one function over both would take the line as a closure, with a clause of what it writes.
fn exit_lines(text: &mut Writer, w: Working)
    ensures { Wrote text.old (lines (exit_lines w)) text.new }
{
    exit_line(text, b"exit l total ", w.left);
    exit_line(text, b"exit t total ", w.through);
    exit_line(text, b"exit r total ", w.right);
}

// Ten steps to a row, the last perhaps shorter.
fn flow_lines(text: &mut Writer, run: &[u32])
    ensures { Wrote text.old (lines (flow_lines (rows_for (length run.now)) run.now)) text.new }
{
    for row in run.chunks(ROW_STEPS) {
        columns_line(text, FLOW_WIDTH, FLOW_UNIT, row);
    }
}

fn head_lines(text: &mut Writer, number: u32, cycle: u32, w: Working)
    ensures { Wrote text.old (lines (head_lines number cycle w)) text.new }
{
    record_line(text, number, cycle, w);
    pair_lines(text, w.pairs.into());
    exit_lines(text, w);
}

// The page of a record that has worked. One run of the output is cut by place: no loop goes over the others.
#[tactic(auto, using(crate::proofs::Lines::page_done))]
pub fn worked_page(text: &mut Writer, number: u32, cycle: u32, w: Working, output: &[u32])
    requires { cycle + cycle ≤ length output.now }
    ensures { Wrote text.old (worked_page number cycle w output.now) text.new }
{
    let one = cycle as usize;
    head_lines(text, number, cycle, w);
    flow_lines(text, &output[one..one + one]);
    end_page(text, HEAD_LINES + one.div_ceil(ROW_STEPS));
}

// The page of a refused record: its line, and blanks.
pub fn refused_page(text: &mut Writer, number: u32, k: u32)
    ensures { Wrote text.old (refused_page number k) text.new }
{
    line(text, |text| refused_words(text, number, k));
    end_page(text, 1);
}

// The page of a record by what its working answered. The output is looked at where it has worked, and is asked to hold the run there.
// A match: two closures, one for each answer, cannot both hold the text.
#[tactic(auto, unfolding(crate::specs::SheetPage::record_page))]
pub fn record_page(
    text: &mut Writer,
    number: u32,
    cycle: u32,
    answer: Result<Working, Unworked>,
    output: &[u32],
)
    requires { RunStands cycle answer output.now }
    ensures { Wrote text.old (record_page number cycle answer output.now) text.new }
{
    match answer {
        Ok(w) => worked_page(text, number, cycle, w, output),
        Err(u) => refused_page(text, number, u.number()),
    }
}
