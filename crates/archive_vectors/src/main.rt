// Compares the archive calls with the vectors of docs/VECTORS.md. A body is a kind, an archive, what is asked and what must be answered.
#![tactic(auto)]

use refusal::Refusal;
use std::io;

// What of a body is still to be read. Nothing is read beyond its end.
#[derive(Drop)]
struct Body<'a> {
    rest: &'a [u8],
}

impl<'a> Body<'a> {
    fn part(&mut self, n: usize) -> Option<&'a [u8]> {
        let (part, rest) = self.rest.split_at_checked(n)?;
        self.rest = rest;
        Some(part)
    }

    fn number(&mut self) -> Option<u32> {
        let (word, rest) = self.rest.split_first_chunk()?;
        self.rest = rest;
        Some(u32::from_le_bytes(*word))
    }

    fn length(&mut self) -> Option<usize> {
        Some(self.number()? as usize)
    }

    // A part behind its length.
    fn counted(&mut self) -> Option<&'a [u8]> {
        let n = self.length()?;
        self.part(n)
    }
}

// The answer is the number of a refusal with the value 0, or else the value.
fn answers(answer: Result<usize, Refusal>, number: u32, value: usize) -> bool {
    match answer {
        Ok(v) => (number == 0) & (v == value),
        Err(refusal) => (refusal.number() == number) & (value == 0),
    }
}

// Kind 1: number, count, places. The place after the last is refused, by `Record` where the archive reads.
fn same_read(body: &mut Body, archive: &[u8]) -> Option<bool> {
    let number = body.number()?;
    let count = body.length()?;
    for i in 0..count {
        let place = body.length()?;
        if !answers(archive_read::place(archive, i), 0, place) {
            return Some(false);
        }
    }
    let after = if number == 0 {
        Refusal::Record.number()
    } else {
        number
    };
    Some(
        answers(archive_read::count(archive), number, count)
            & answers(archive_read::place(archive, count), after, 0),
    )
}

// Kind 2: record number; number, place, title.
fn same_find(body: &mut Body, archive: &[u8]) -> Option<bool> {
    let record = body.number()?;
    let number = body.number()?;
    let place = body.length()?;
    let title = body.counted()?;
    Some(
        answers(archive_read::find(archive, record), number, place)
            & (archive_read::title(archive, record) == title),
    )
}

// Kind 3: record, title, buffer's length; number, new length, buffer.
fn same_add(body: &mut Body, archive: &[u8]) -> Option<bool> {
    let record = body.counted()?;
    let title = body.counted()?;
    let room = body.length()?;
    let number = body.number()?;
    let length = body.length()?;
    let after = body.part(room)?;
    let mut space = [0u8; 131072];
    let buffer = space.get_mut(..room)?;
    vectors::fill_bytes(buffer);
    let added = archive_add::add(archive, record, title, buffer);
    Some(answers(added, number, length) & (&*buffer == after))
}

// Whether a body's answers are the library's; none where it ends before what it must hold.
fn same_body(body: &[u8]) -> Option<bool> {
    let (kind, rest) = body.split_first()?;
    let mut body = Body { rest };
    let archive = body.counted()?;
    // A match on the byte: an enum of the kinds would be made here and matched here.
    let same = match *kind {
        1 => same_read(&mut body, archive)?,
        2 => same_find(&mut body, archive)?,
        3 => same_add(&mut body, archive)?,
        _ => false,
    };
    Some(same & body.rest.is_empty())
}

fn case_differs(body: &[u8]) -> bool {
    same_body(body) != Some(true)
}

fn main(rt: HostRuntime) -> io::Result<()> {
    let mut body = [0u8; 131072];
    vectors::run(&mut rt.stdin(), &mut rt.stdout(), &mut body, case_differs)
}
