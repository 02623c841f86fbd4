// Runs the working on the vectors of docs/VECTORS.md and compares the answer and every number of the three profiles.
#![tactic(auto)]

ghost use Rattle.std.specs.Prelude.{◌+◌, ◌≤◌};

use balance_decision::Unworked;
use exit_figures::ExitFigures;
use std::io;
use vectors::Lengths;
use working_outcome::Working;

// The longest profiles that a case lends.
const MOST: Lengths = Lengths {
    output: 1200,
    passing: 0,
    first: 1200,
    second: 1200,
};

fn figures_at(expected: &[u8; 156], at: usize) -> ExitFigures
    requires { at + 20 ≤ 156 }
{
    ExitFigures {
        total: octets::word8_at(expected, at),
        green: octets::word8_at(expected, at + 8),
        permille: octets::word4_at(expected, at + 16),
    }
}

fn working_differs(expected: &[u8; 156], w: Working) -> bool {
    vectors::float_differs(expected, 4, w.sum)
        | (octets::word4_at(expected, 12) != w.arrival)
        | (octets::word4_at(expected, 16) != w.rounds)
        | vectors::rows_differ(expected, 20, w.pairs.into())
        | (figures_at(expected, 84) != w.left)
        | (figures_at(expected, 104) != w.through)
        | (figures_at(expected, 124) != w.right)
        | (octets::word8_at(expected, 144) != w.access)
        | (octets::word4_at(expected, 152) != w.blocked)
}

// What must be answered: number, last sum, platoon arrival time, rounds, pair flows, three exits' figures, access total, blocked steps.
// Where the record does not work, all behind the last sum is 0.
fn answer_differs(expected: &[u8; 156], answer: Result<Working, Unworked>) -> bool {
    let number = octets::word4_at(expected, 0);
    match answer {
        Ok(w) => (number != 0) | working_differs(expected, w),
        Err(u) => {
            (number != u.number())
                | vectors::float_differs(expected, 4, u.last_sum())
                | expected[12..].iter().any(|b| *b != 0)
        }
    }
}

// Whether a case differs; none where it ends before all of it, or lends a longer profile. After the record stand the profiles' lengths,
// what must be answered, and the profiles after the call.
fn compared(record: &[u8], rest: &[u8]) -> Option<bool> {
    let (lengths, rest) = rest.split_first_chunk::<12>()?;
    let (expected, numbers) = rest.split_first_chunk::<156>()?;
    let lengths = Lengths {
        output: octets::word4_at(lengths, 0),
        first: octets::word4_at(lengths, 4),
        second: octets::word4_at(lengths, 8),
        ..Lengths::default()
    };
    if !lengths.within(MOST) {
        return None;
    }
    Some(vectors::lent_differ(lengths, numbers, |profiles, _| {
        answer_differs(expected, working::work(record, profiles))
    }))
}

fn main(rt: HostRuntime) -> io::Result<()> {
    let mut body = [0u8; 16384];
    vectors::run_records(&mut rt.stdin(), &mut rt.stdout(), &mut body, compared)
}
