// One round of balancing, equations 30-4 to 30-7. Destinations are the exits, origins the entries.
#![tactic(auto)]

ghost use Rattle.std.specs.Prelude.{◌≡◌};
ghost use Rattle.balance_flows.specs.Flows.{weighted};
ghost use Rattle.balance_round.specs.Round.{destinations, factors_of, difference, change, no_quotient, any_no_quotient, round_of, stops};

use balance_flows::{FlowTable, Flows};

// What one round computes, in its order: adjusted destination volumes Da, destination adjustment factors b,
// origin adjustment factors, adjusted origin volumes Oa, and the sum of the differences of new and old Oa.
#[derive(Clone, Copy, Default)]
pub struct Round {
    pub destinations: Flows,
    pub ratios: Flows,
    pub factors: Flows,
    pub origins: Flows,
    pub change: f64,
}

// A volume or a factor of each, by its seed.
fn weighted(x: Flows, seeds: Flows) -> f64
    ensures { result ≡ weighted x seeds }
{
    balance_flows::total(x.zip_with(seeds, |x, seed| x * seed))
}

// Equation 30-4: an exit's seeds are a column.
#[tactic(auto, unfolding(crate::specs::Round::destinations))]
fn destinations_of(o: Flows, p: FlowTable) -> Flows
    ensures { result ≡ destinations o p }
{
    p.transposed().map(|column| weighted(o, column))
}

// Equation 30-6: an entry's seeds are a row.
#[tactic(auto, unfolding(crate::specs::Round::factors_of))]
fn factors_of(b: Flows, p: FlowTable) -> Flows
    ensures { result ≡ factors_of b p }
{
    p.map(|row| weighted(b, row))
}

fn difference(x: f64, y: f64) -> f64
    ensures { result ≡ difference x y }
{
    if x < y { y - x } else { x - y }
}

#[tactic(auto, unfolding(crate::specs::Round::change))]
fn change_of(new: Flows, old: Flows) -> f64
    ensures { result ≡ change new old }
{
    balance_flows::total(new.zip_with(old, difference))
}

fn no_quotient(n: f64, m: f64) -> bool
    ensures { result ≡ no_quotient n m }
{
    (0.0 < n) & (m == 0.0)
}

#[tactic(auto, unfolding(crate::specs::Round::any_no_quotient))]
fn any_no_quotient(n: Flows, m: Flows) -> bool
    ensures { result ≡ any_no_quotient n m }
{
    n.zip_with(m, no_quotient).any()
}

// What is to be balanced: what the entries discharge, what the exits take, and the seed proportions of the pairs.
#[derive(Clone, Copy)]
pub struct Balancing {
    pub origins: Flows,
    pub destinations: Flows,
    pub proportions: FlowTable,
}

impl Balancing {
    // The round that starts from the adjusted origins `old`.
    #[tactic(auto, unfolding(crate::specs::Round::round_of))]
    pub fn round(self, old: Flows) -> Round
        ensures { result ≡ round_of self.origins self.destinations self.proportions old }
    {
        let destinations = destinations_of(old, self.proportions);
        let ratios = balance_flows::quotients(self.destinations, destinations);
        let factors = factors_of(ratios, self.proportions);
        let origins = balance_flows::quotients(self.origins, factors);
        let change = change_of(origins, old);
        Round {
            destinations,
            ratios,
            factors,
            origins,
            change,
        }
    }

    // Whether a round stops before its end.
    #[tactic(auto, unfolding(crate::specs::Round::stops), using(balance_flows::proofs::Finite::is_finite_is))]
    pub fn stops(self, x: Round) -> bool
        ensures { result ≡ stops self.origins self.destinations x }
    {
        let undivided = any_no_quotient(self.destinations, x.destinations)
            | any_no_quotient(self.origins, x.factors);
        let exits = balance_flows::all_finite(x.destinations) & balance_flows::all_finite(x.ratios);
        let entries = balance_flows::all_finite(x.factors) & balance_flows::all_finite(x.origins);
        undivided | !(exits & entries & x.change.is_finite())
    }
}
