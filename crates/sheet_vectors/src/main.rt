// Runs the sheet of a record on the vectors of docs/VECTORS.md and compares number, last sum, every byte of the page buffer and every
// number of the three profiles.
#![tactic(auto)]

use balance_decision::Unworked;
use std::io;
use vectors::Lengths;
use working_outcome::Working;

// The longest page buffer that a case lends.
const PAGE_ROOM: usize = 4500;

// The longest profiles that a case lends, beside the page buffer.
const MOST: Lengths = Lengths {
    output: 1000,
    passing: 0,
    first: 300,
    second: 300,
};

// What must be answered: number, last sum.
fn answer_differs(expected: &[u8; 12], answer: Result<Working, Unworked>) -> bool {
    let (number, sum) = match answer {
        Ok(w) => (0, w.sum),
        Err(u) => (u.number(), u.last_sum()),
    };
    (octets::word4_at(expected, 0) != number) | vectors::float_differs(expected, 4, sum)
}

// Whether a case differs; none where it ends before all of it, or its page buffer or a profile is longer than the longest. After the record
// stand the lengths, what must be answered, the page buffer and the profiles after the call.
fn compared(record: &[u8], rest: &[u8]) -> Option<bool> {
    let (lengths, rest) = rest.split_first_chunk::<16>()?;
    let (expected, rest) = rest.split_first_chunk::<12>()?;
    let t = octets::word4_at(lengths, 0) as usize;
    let (expected_page, numbers) = rest.split_at_checked(t)?;
    let lengths = Lengths {
        output: octets::word4_at(lengths, 4),
        first: octets::word4_at(lengths, 8),
        second: octets::word4_at(lengths, 12),
        ..Lengths::default()
    };
    if !lengths.within(MOST) {
        return None;
    }
    let mut space = [0u8; PAGE_ROOM];
    let page = space.get_mut(..t)?;
    vectors::fill_bytes(page);
    Some(vectors::lent_differ(lengths, numbers, |profiles, _| {
        let answer = sheet::sheet(record, page, profiles);
        answer_differs(expected, answer) | (&*page != expected_page)
    }))
}

fn main(rt: HostRuntime) -> io::Result<()> {
    let mut body = [0u8; 16384];
    vectors::run_records(&mut rt.stdin(), &mut rt.stdout(), &mut body, compared)
}
