// Lines of 72 bytes and pages of sixty lines in a lent buffer.
#![tactic(auto, using(buffer::proofs::Pieces::put_append))]

ghost use Rattle.std.specs.Prelude.{◌-◌, ℕ, List};
ghost use Rattle.std.specs.Fn.{FnOnceReturnsAtMut};
ghost use Rattle.buffer.specs.Buffer.{Wrote};
ghost use Rattle.page.specs.Page.{blank_lines, line, page_lines, Words};

use buffer::Writer;

pub const LINE_WIDTH: usize = 72;

pub const PAGE_LINES: usize = 60;

// The bytes of a page: its lines, and a newline behind each.
pub const PAGE_ROOM: usize = PAGE_LINES * (LINE_WIDTH + 1);

// A line: what the words write, and the blanks and the newline that end it.
pub fn line<F: FnOnce(&mut Writer)>(text: &mut Writer, words: F)
    requires { F.IsAlwaysCallable words }
    ensures { (x : List ℕ) → Words (FnOnceReturnsAtMut F.FnOnce words text.old tt) text.old x → Wrote text.old (line x) text.new }
{
    let from = text.at;
    words(text);
    text.put_run(
        b' ',
        LINE_WIDTH.saturating_sub(text.at.saturating_sub(from)),
    );
    text.put_byte(b'\n');
}

// So many blank lines.
fn blank_lines(text: &mut Writer, n: usize)
    ensures { Wrote text.old (blank_lines n) text.new }
{
    for _ in 0..n {
        line(text, |_| {});
    }
}

// The blank lines that a page of so many lines lacks.
pub fn end_page(text: &mut Writer, used: usize)
    ensures { Wrote text.old (blank_lines (page_lines - used)) text.new }
{
    blank_lines(text, PAGE_LINES.saturating_sub(used));
}
