// The pair flows of each entry: what its discharge sends to each exit.
#![tactic(auto)]

ghost use Rattle.std.specs.Prelude.{◌≡◌, ◌≤◌};
ghost use Rattle.balance_pairs.specs.Pairs.{cell_units, pair_row, pair_rows};

use balance_flows::{FlowTable, Flows};
use movements::Counts;

// The whole part of cell·1000, or what is left of the row if that is less.
#[tactic(auto, unfolding(crate::specs::Pairs::cell_units), using(crate::proofs::Limit::capped))]
fn cell_units(cell: f64, left: u32) -> u32
    ensures { (result ≡ cell_units cell left) × (result ≤ left) }
{
    std::num::saturating_f64_to_u32(cell * 1000.0).min(left)
}

fn pair_row(cells: Flows, all: u32) -> [u32; 4]
    ensures { result ≡ pair_row cells all }
{
    let left = cell_units(cells.left, all);
    let after_left = all - left;
    let right = cell_units(cells.right, after_left);
    let after_right = after_left - right;
    let access = cell_units(cells.access, after_right);
    [left, after_right - access, right, access]
}

// The sixteen numbers as paper 01 has them, a row for each entry, of what it discharges.
#[tactic(auto, unfolding(crate::specs::Pairs::pair_rows))]
pub fn pair_rows(cells: FlowTable, o: Counts) -> [[u32; 4]; 4]
    ensures { result ≡ pair_rows cells o }
{
    [
        pair_row(cells.left, o.left),
        pair_row(cells.through, o.through),
        pair_row(cells.right, o.right),
        pair_row(cells.access, o.access),
    ]
}
