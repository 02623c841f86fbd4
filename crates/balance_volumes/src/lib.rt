// Discharges and exit volumes as 64-bit floats of veh/h, seeds as proportions, and the exits' volumes adjusted to what is discharged.
#![tactic(auto)]

ghost use Rattle.std.specs.Prelude.{◌≡◌};
ghost use Rattle.balance_volumes.specs.Volumes.{discharge_floats, exit_floats, proportion, proportions, destination_volumes};

use balance_flows::{FlowTable, Flows};
use movements::{Counts, Seeds};

// A discharge comes in thousandths of veh/h.
#[tactic(auto, unfolding(crate::specs::Volumes::discharge_floats))]
pub fn discharge_floats(o: Counts) -> Flows
    ensures { result ≡ discharge_floats o }
{
    o.map(|volume| f64::from(volume) / 1000.0)
}

#[tactic(auto, unfolding(crate::specs::Volumes::exit_floats))]
pub fn exit_floats(exits: Counts) -> Flows
    ensures { result ≡ exit_floats exits }
{
    exits.map(f64::from)
}

fn proportion(hundredths: u32) -> f64
    ensures { result ≡ proportion hundredths }
{
    f64::from(hundredths) / 100.0
}

#[tactic(auto, unfolding(crate::specs::Volumes::proportions, crate::specs::Volumes::proportion_row))]
pub fn proportions(x: Seeds) -> FlowTable
    ensures { result ≡ proportions x }
{
    x.map(|row| row.map(proportion))
}

#[tactic(auto, unfolding(crate::specs::Volumes::destination_volumes))]
pub fn destination_volumes(o: Flows, exits: Flows) -> Flows
    ensures { result ≡ destination_volumes o exits }
{
    let discharge = balance_flows::total(o);
    let all = balance_flows::total(exits);
    exits.map(|exit| exit * discharge / all)
}
