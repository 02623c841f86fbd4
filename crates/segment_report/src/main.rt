// The product: an archive of segment records on standard input, its figures on standard output.
#![tactic(auto)]

ghost use Rattle.std.specs.Prelude.{OnOk};
ghost use Rattle.program.specs.Program.{Prints};

use report::{Form, INPUT_LIMIT, TEXT_ROOM};
use std::io;
use std::io::{Read, Write};

// The lines of the archive that is read, in a buffer that holds every text of them. Apart from `main`, so that a contract names the form.
fn print<R: Read, W: Write>(from: &mut R, to: &mut W) -> io::Result<()>
    ensures { OnOk result (Prints Form.Lines (R.remaining from.old) (R.remaining from.new) (W.contents to.old) (W.contents to.new)) }
{
    let mut input = [0u8; INPUT_LIMIT + 1];
    let mut text = [0u8; TEXT_ROOM];
    program::run(from, to, Form::Lines, &mut input, &mut text)
}

// `print` on the input and output of the process, whose handle only `main` has.
fn main(rt: HostRuntime) -> io::Result<()> {
    print(&mut rt.stdin(), &mut rt.stdout())
}
