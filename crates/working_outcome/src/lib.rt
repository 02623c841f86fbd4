// What the working of a segment record answers: its figures, read from a filled output.
#![tactic(auto)]

ghost use Rattle.std.specs.Prelude.{◌≡◌};
ghost use Rattle.working_outcome.specs.Answer.{worked_of};
ghost use Rattle.working_outcome.specs.Filled.{Filled};

use balance_decision::Decision;
use exit_figures::{ExitFigures, Run};
use pair_flows::PairFlows;
use ranges::Accepted;

// The last sum of differences, platoon arrival time in steps, rounds of balancing, the sixteen pair flows, the exits' figures
// (access its total alone), and the blocked steps of the through exit.
#[derive(Clone, Copy)]
pub struct Working {
    pub sum: f64,
    pub arrival: u32,
    pub rounds: u32,
    pub pairs: PairFlows,
    pub left: ExitFigures,
    pub through: ExitFigures,
    pub right: ExitFigures,
    pub access: u64,
    pub blocked: u32,
}

// The figures of an output that was filled with what was decided.
pub fn worked(accepted: Accepted, d: Decision, output: &[u32]) -> Working
    requires { Filled accepted d.pairs.rows output.now }
    ensures { result ≡ worked_of accepted d }
{
    let s = accepted.segment;
    let c = s.cycle as usize;
    let (left, rest) = output.split_at(c);
    let (through, rest) = rest.split_at(c);
    let (right, rest) = rest.split_at(c);
    let (access, _) = rest.split_at(c);
    let left = Run { steps: left };
    let through = Run { steps: through };
    let right = Run { steps: right };
    let access = Run { steps: access };
    Working {
        sum: d.sum,
        arrival: dispersion::arrival_time(s.running),
        rounds: d.rounds,
        pairs: d.pairs,
        left: left.figures(s.downstream.left),
        through: through.figures(s.downstream.through),
        right: right.figures(s.downstream.right),
        access: access.total(),
        blocked: through.blocked_steps(s.headway),
    }
}
