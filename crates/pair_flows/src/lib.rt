// The sixteen pair flows in a struct, since they pass over the C interface as a field of an answer.
#![tactic(auto)]

ghost use Rattle.std.specs.Prelude.{◌≡◌};
ghost use Rattle.pair_flows.specs.Pairs.{pair_flows, rows_of};

// Flow units of each pair: a row of four exits for each entry.
#[repr(C)]
#[derive(Clone, Copy, Default)]
pub struct PairFlows {
    pub rows: [[u32; 4]; 4],
}

impl From<[[u32; 4]; 4]> for PairFlows {
    ghost from_gives = { λ rows x. x ≡ pair_flows rows };

    fn from(rows: [[u32; 4]; 4]) -> PairFlows {
        PairFlows { rows }
    }
}

impl From<PairFlows> for [[u32; 4]; 4] {
    ghost from_gives = { λ x rows. rows ≡ rows_of x };

    fn from(x: PairFlows) -> [[u32; 4]; 4] {
        x.rows
    }
}
