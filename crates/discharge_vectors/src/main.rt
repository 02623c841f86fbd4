// Runs the discharge call on the vectors of docs/VECTORS.md and compares every number.
#![tactic(auto)]

use movements::Signalised;
use refusal::Refusal;
use std::io;
use vectors::Lengths;

// The longest profile that a case lends, as the output.
const MOST: Lengths = Lengths {
    output: 1000,
    passing: 0,
    first: 0,
    second: 0,
};

fn answer_differs(expected: &[u8; 16], answer: Result<Signalised<u32>, Refusal>) -> bool {
    let number = octets::word4_at(expected, 0);
    match answer {
        Ok(volumes) => {
            let told = Signalised::read(4, 4, |at| octets::word4_at(expected, at));
            (number != 0) | (volumes != told)
        }
        Err(refusal) => refusal.number() != number,
    }
}

// Whether a case differs; none where it ends before all of it, or lends a longer profile. After the record stand the profile's length,
// what must be answered, and the profile after the call, which is lent as the output alone.
fn compared(record: &[u8], rest: &[u8]) -> Option<bool> {
    let (length, rest) = rest.split_first_chunk()?;
    let (expected, numbers) = rest.split_first_chunk::<16>()?;
    let lengths = Lengths {
        output: u32::from(u16::from_le_bytes(*length)),
        ..Lengths::default()
    };
    if !lengths.within(MOST) {
        return None;
    }
    Some(vectors::lent_differ(lengths, numbers, |profiles, _| {
        answer_differs(expected, discharge::discharge(record, profiles.output))
    }))
}

fn main(rt: HostRuntime) -> io::Result<()> {
    let mut body = [0u8; 4096];
    vectors::run_records(&mut rt.stdin(), &mut rt.stdout(), &mut body, compared)
}
