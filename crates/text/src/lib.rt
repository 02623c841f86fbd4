// Numbers, labels, blanks and columns put into a lent buffer, as much of them as it has room for.
#![tactic(auto)]

ghost use Rattle.std.specs.Prelude.{◌<◌};
ghost use Rattle.buffer.specs.Buffer.{Wrote};
ghost use Rattle.text.specs.Text.{column, columns, decimal, field};

use buffer::Writer;

// The digits are made by the library `itoa`, and put here.
#[tactic(auto, using(crate::proofs::Printed::decimal_printed))]
pub fn append_decimal(text: &mut Writer, n: u64)
    ensures { Wrote text.old (decimal n) text.new }
{
    let mut digits = itoa::Buffer::new();
    text.put(digits.format(n).as_bytes());
}

// A label and a number.
#[tactic(auto, using(buffer::proofs::Pieces::put_append), unfolding(crate::specs::Text::field))]
pub fn append_field(text: &mut Writer, label: &[u8], n: u64)
    ensures { Wrote text.old (field label.now n) text.new }
{
    text.put(label);
    append_decimal(text, n);
}

// A number right-aligned in a column of so many bytes.
#[tactic(auto, using(buffer::proofs::Pieces::put_append, crate::proofs::Printed::decimal_printed), unfolding(crate::specs::Text::column))]
pub fn append_column(text: &mut Writer, width: usize, n: u64)
    ensures { Wrote text.old (column width n) text.new }
{
    let mut digits = itoa::Buffer::new();
    let digits = digits.format(n).as_bytes();
    text.put_run(b' ', width.saturating_sub(digits.len()));
    text.put(digits);
}

// Numbers one after another, each in a column of its own, in whole units. Width and unit stay two plain numbers: `append_column` takes
// the width alone, and each definition takes them apart.
pub fn append_columns(text: &mut Writer, width: usize, unit: u32, numbers: &[u32])
    requires { 0 < unit }
    ensures { Wrote text.old (columns width unit numbers.now) text.new }
{
    for n in numbers {
        append_column(text, width, u64::from(*n / unit));
    }
}
