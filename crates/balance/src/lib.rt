// Balancing of discharge and exit volumes over the sixteen pairs of an entry and an exit:
// rounds of equations 30-4 to 30-7 until the adjusted origins settle.
#![tactic(auto)]

ghost use Rattle.std.specs.Prelude.{◌≡◌};
ghost use Rattle.balance.specs.Settling.{round_limit, cells_of, unsettled, closed, start, settle, balanced};

use balance_flows::{FlowTable, Flows};
use balance_round::{Balancing, Round};
use movements::{Counts, Seeds};

// The outcome with the last sum of differences reached, in the form of paper 01: unsettled is no error.
#[derive(Clone, Copy)]
pub enum Settling {
    Settled(f64),
    Unsettled(f64),
}

// `rounds` counts the rounds whose sum was reached. The cells are all 0 where unsettled.
#[derive(Clone, Copy)]
pub struct Balance {
    pub settling: Settling,
    pub rounds: u32,
    pub cells: FlowTable,
}

const ROUND_LIMIT: u32 = 200;

// A sum of differences below it settles.
const THRESHOLD: f64 = 0.01;

#[tactic(auto, unfolding(crate::specs::Settling::cells_of, crate::specs::Settling::cell_row))]
fn cells_of(origins: Flows, b: Flows, p: FlowTable) -> FlowTable
    ensures { result ≡ cells_of origins b p }
{
    origins.zip_with(p, |oa, row| b.zip_with(row, |b, seed| oa * b * seed))
}

fn unsettled(sum: f64, rounds: u32) -> Balance
    ensures { result ≡ unsettled sum rounds }
{
    Balance {
        settling: Settling::Unsettled(sum),
        rounds,
        cells: FlowTable::default(),
    }
}

// A cell that is not finite counts as unsettled.
#[tactic(auto, unfolding(crate::specs::Settling::closed))]
fn closed(cells: FlowTable, sum: f64, rounds: u32) -> Balance
    ensures { result ≡ closed cells sum rounds }
{
    if balance_flows::table_finite(cells) {
        return Balance {
            settling: Settling::Settled(sum),
            rounds,
            cells,
        };
    }
    unsettled(sum, rounds)
}

// What stands before the first round.
#[tactic(auto, unfolding(crate::specs::Settling::start))]
fn start(o: Flows) -> Round
    ensures { result ≡ start o }
{
    Round {
        origins: o,
        ..Round::default()
    }
}

#[tactic(auto, using(crate::proofs::Rounds::stopped, crate::proofs::Rounds::closes, crate::proofs::Rounds::goes, crate::proofs::Rounds::spent))]
fn settle(balancing: Balancing) -> Balance
    ensures { result ≡ settle round_limit balancing.origins balancing.destinations balancing.proportions }
{
    let mut before = start(balancing.origins);
    for n in 0..ROUND_LIMIT {
        let round = balancing.round(before.origins);
        if balancing.stops(round) {
            return unsettled(before.change, n);
        }
        if round.change < THRESHOLD {
            return closed(
                cells_of(round.origins, round.ratios, balancing.proportions),
                round.change,
                n + 1,
            );
        }
        before = round;
    }
    unsettled(before.change, ROUND_LIMIT)
}

// The settling of whole numbers: discharges in thousandths of veh/h, exit volumes in veh/h, seeds in hundredths.
#[tactic(auto, unfolding(crate::specs::Settling::balanced))]
pub fn balanced(o: Counts, exits: Counts, seeds: Seeds) -> Balance
    ensures { result ≡ balanced o exits seeds }
{
    let origins = balance_volumes::discharge_floats(o);
    let exits = balance_volumes::exit_floats(exits);
    let destinations = balance_volumes::destination_volumes(origins, exits);
    settle(Balancing {
        origins,
        destinations,
        proportions: balance_volumes::proportions(seeds),
    })
}
