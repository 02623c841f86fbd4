// Compares balancing and pair flows with test vectors from standard input, every number by its bits.
// A body of 260 bytes has at 0 four u32 discharges, at 16 four u32 exit volumes, at 32 sixteen seeds, at 48 the number, at 52 the outcome,
// at 56 the rounds, at 60 the last sum, at 68 sixteen cells, at 196 sixteen pair flows.
#![tactic(auto)]

ghost use Rattle.std.specs.Prelude.{◌+◌, ◌≤◌};

use balance::{Balance, Settling};
use balance_decision::Unworked;
use balance_flows::FlowTable;
use movements::{Counts, PerMovement, Seeds};
use std::io;
use std::num::f64_to_bits_with_nan;

// The outcome of a case, with its number in the file.
#[derive(Clone, Copy)]
enum Outcome {
    Unsettled = 0,
    Settled = 1,
    NotRun = 2,
}

fn counts_at(s: &[u8; 260], at: usize) -> Counts
    requires { at + 16 ≤ 260 }
{
    Counts::read(at, 4, |at| octets::word4_at(s, at))
}

fn seeds_at(s: &[u8; 260], at: usize) -> Seeds
    requires { at + 16 ≤ 260 }
{
    Seeds::read(at, 4, |at| Counts::read(at, 1, |at| octets::byte_at(s, at)))
}

// A settling as it was told: its outcome, rounds, last sum and cells, which are compared by their bits.
fn settling_differs(
    s: &[u8; 260],
    outcome: Outcome,
    rounds: u32,
    sum: f64,
    cells: FlowTable,
) -> bool {
    let expected = PerMovement::read(68, 32, |at| {
        PerMovement::read(at, 8, |at| octets::word8_at(s, at))
    });
    (octets::word4_at(s, 52) != outcome as u32)
        | (octets::word4_at(s, 56) != rounds)
        | vectors::float_differs(s, 60, sum)
        | (cells.map(|row| row.map(|x| f64_to_bits_with_nan(x))) != expected)
}

fn balance_differs(s: &[u8; 260], x: Balance) -> bool {
    match x.settling {
        Settling::Settled(sum) => settling_differs(s, Outcome::Settled, x.rounds, sum, x.cells),
        Settling::Unsettled(sum) => settling_differs(s, Outcome::Unsettled, x.rounds, sum, x.cells),
    }
}

fn unworked_differs(s: &[u8; 260], u: Unworked, b: Balance) -> bool {
    match u {
        Unworked::Unsettled(sum) => balance_differs(s, b) | vectors::float_differs(s, 60, sum),
        // No rounds, no sum, no cells.
        Unworked::Refused(_) => settling_differs(s, Outcome::NotRun, 0, 0.0, FlowTable::default()),
    }
}

// Where there are no pair flows, those expected are all 0.
fn answer_differs(s: &[u8; 260], o: Counts, exits: Counts, seeds: Seeds) -> bool {
    let number = octets::word4_at(s, 48);
    let b = balance::balanced(o, exits, seeds);
    match balance_decision::decide(o, exits, seeds) {
        Ok(d) => {
            (number != 0)
                | vectors::rows_differ(s, 196, d.pairs.into())
                | balance_differs(s, b)
                | vectors::float_differs(s, 60, d.sum)
                | (d.rounds != b.rounds)
        }
        Err(u) => {
            (number != u.number())
                | vectors::rows_differ(s, 196, [[0u32; 4]; 4])
                | unworked_differs(s, u, b)
        }
    }
}

// A body of another length differs.
fn case_differs(body: &[u8]) -> bool {
    body.as_array().is_none_or(|s| answer_differs(
        s,
        counts_at(s, 0),
        counts_at(s, 16),
        seeds_at(s, 32),
    ))
}

fn main(rt: HostRuntime) -> io::Result<()> {
    let mut body = [0u8; 260];
    vectors::run(&mut rt.stdin(), &mut rt.stdout(), &mut body, case_differs)
}
