// The sixteen pair flows of given discharge, exit volumes and seeds, or why there are none.
#![tactic(auto)]

ghost use Rattle.std.specs.Prelude.{◌≡◌};
ghost use Rattle.balance_decision.specs.declared.Unworked.TheVariants.{Refused};
ghost use Rattle.balance_decision.specs.Unworked.{last_sum, unworked_number};
ghost use Rattle.balance_decision.specs.Decision.{decision_of, settled_to};

use balance::{Balance, Settling};
use movements::{Counts, Seeds};
use pair_flows::PairFlows;
use refusal::{Refusal, need};

// The pair flows, with the rounds and the last sum of differences of the settling that led to them.
#[derive(Clone, Copy)]
pub struct Decision {
    pub sum: f64,
    pub rounds: u32,
    pub pairs: PairFlows,
}

// Why a working has no figures: a refusal, or 15, which tells the last sum of differences.
#[derive(Clone, Copy)]
pub enum Unworked {
    Refused(Refusal),
    Unsettled(f64),
}

impl From<Refusal> for Unworked {
    ghost from_gives = { λ refusal unworked. unworked ≡ Refused refusal };

    fn from(refusal: Refusal) -> Unworked {
        Unworked::Refused(refusal)
    }
}

impl Unworked {
    // The paper's number.
    pub fn number(self) -> u32
        ensures { result ≡ unworked_number self }
    {
        match self {
            Unworked::Refused(refusal) => refusal.number(),
            Unworked::Unsettled(_) => 15,
        }
    }

    // 0 where it tells none.
    pub fn last_sum(self) -> f64
        ensures { result ≡ last_sum self }
    {
        match self {
            Unworked::Refused(_) => 0.0,
            Unworked::Unsettled(sum) => sum,
        }
    }
}

#[tactic(auto, unfolding(crate::specs::Decision::settled_to))]
fn settled_to(o: Counts, b: Balance) -> Result<Decision, Unworked>
    ensures { result ≡ settled_to o b }
{
    let settling = b.settling;
    match settling {
        Settling::Settled(sum) => Ok(Decision {
            sum,
            rounds: b.rounds,
            pairs: PairFlows::from(balance_pairs::pair_rows(b.cells, o)),
        }),
        Settling::Unsettled(sum) => Err(Unworked::Unsettled(sum)),
    }
}

// The refusals in their order, then the settling and its pair flows.
#[tactic(auto, unfolding(crate::specs::Decision::decision_of, refusal::specs::Refusal::need))]
pub fn decide(o: Counts, exits: Counts, seeds: Seeds) -> Result<Decision, Unworked>
    ensures { result ≡ decision_of o exits seeds }
{
    need(Refusal::NoVolume, !balance_refusals::no_volume(o, exits))?;
    let unserved = balance_refusals::any_unserved_entry(o, exits, seeds)
        | balance_refusals::any_unserved_exit(o, exits, seeds);
    need(Refusal::Unserved, !unserved)?;
    settled_to(o, balance::balanced(o, exits, seeds))
}
