// Four floats, one for each movement in the order left, through, right, access, and what is computed with them.
// Every operation rounds once, and sums run in that order.
#![tactic(auto)]

ghost use Rattle.std.specs.Prelude.{◌≡◌};
ghost use Rattle.balance_flows.specs.Flows.{all_finite, table_finite, total, quotient, quotients};

use movements::PerMovement;

// One figure for each movement: the paper's record of floats.
pub type Flows = PerMovement<f64>;

// A row of four exits for each entry.
pub type FlowTable = PerMovement<Flows>;

#[tactic(auto, unfolding(crate::specs::Flows::all_finite), using(crate::proofs::Finite::is_finite_is))]
pub fn all_finite(x: Flows) -> bool
    ensures { result ≡ all_finite x }
{
    x.map(f64::is_finite).all()
}

// One line over `all`, with a definition of its own.
#[tactic(auto, unfolding(crate::specs::Flows::table_finite))]
pub fn table_finite(x: FlowTable) -> bool
    ensures { result ≡ table_finite x }
{
    x.map(all_finite).all()
}

pub fn total(x: Flows) -> f64
    ensures { result ≡ total x }
{
    x.left + x.through + x.right + x.access
}

fn quotient(n: f64, m: f64) -> f64
    ensures { result ≡ quotient n m }
{
    if n == 0.0 { 0.0 } else { n / m }
}

#[tactic(auto, unfolding(crate::specs::Flows::quotients))]
pub fn quotients(n: Flows, m: Flows) -> Flows
    ensures { result ≡ quotients n m }
{
    n.zip_with(m, quotient)
}
