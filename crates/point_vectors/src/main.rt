// Runs the working with points on the vectors of docs/VECTORS.md and compares number, counts and every number of the four profiles.
#![tactic(auto)]

ghost use Rattle.std.specs.Prelude.{◌+◌, ◌≤◌, length};

use balance_decision::Unworked;
use point_working::PointWorking;
use points::{Point, Points};
use std::io;
use vectors::Lengths;

// The longest profiles that a case lends.
const MOST: Lengths = Lengths {
    output: 1000,
    passing: 2000,
    first: 300,
    second: 300,
};

fn point_at(s: &[u8], at: usize) -> Point
    requires { at + 8 ≤ length s.now }
{
    Point {
        running: octets::word4_at(s, at),
        headway: octets::word4_at(s, at + 4),
    }
}

// The points of a case: their count, then eight places, given or not.
fn points_at(s: &[u8; 68]) -> Points {
    Points {
        count: octets::word4_at(s, 0),
        at: std::array::from_fn(|i| point_at(s, 4 + 8 * i)),
    }
}

// What must be answered: number, eight counts, 0 where the record does not work.
fn answer_differs(expected: &[u8; 36], answer: Result<PointWorking, Unworked>) -> bool {
    let number = octets::word4_at(expected, 0);
    match answer {
        Ok(w) => {
            let blocked = w.blocked;
            (number != 0) | vectors::numbers_differ(expected, 4, &blocked)
        }
        Err(u) => {
            let none = [0u32; points::POINT_ROOM];
            (number != u.number()) | vectors::numbers_differ(expected, 4, &none)
        }
    }
}

// Whether a case differs; none where it ends before all of it, or lends a longer profile. After the record stand the points, the profiles'
// lengths, what must be answered, and the profiles after the call.
fn compared(record: &[u8], rest: &[u8]) -> Option<bool> {
    let (points, rest) = rest.split_first_chunk()?;
    let (lengths, rest) = rest.split_first_chunk::<16>()?;
    let (expected, numbers) = rest.split_first_chunk()?;
    let points = points_at(points);
    let lengths = Lengths {
        output: octets::word4_at(lengths, 0),
        passing: octets::word4_at(lengths, 4),
        first: octets::word4_at(lengths, 8),
        second: octets::word4_at(lengths, 12),
    };
    if !lengths.within(MOST) {
        return None;
    }
    Some(vectors::lent_differ(lengths, numbers, |profiles, passing| {
        answer_differs(
            expected,
            point_working::work_points(record, points, profiles, passing),
        )
    }))
}

fn main(rt: HostRuntime) -> io::Result<()> {
    let mut body = [0u8; 16384];
    vectors::run_records(&mut rt.stdin(), &mut rt.stdout(), &mut body, compared)
}
