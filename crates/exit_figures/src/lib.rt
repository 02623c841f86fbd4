// Figures of one exit's run: its total, what arrives on green, and the steps in which a crossing is blocked.
#![tactic(auto)]

ghost use Rattle.std.specs.Prelude.{◌≡◌, ◌<◌, ◌≤◌, length};
ghost use Rattle.limits.specs.Limits.{step_bound};
ghost use Rattle.lists.specs.Lists.{sum};
ghost use Rattle.signal.specs.Greens.{GreenFits};
ghost use Rattle.exit_figures.specs.ExitFigures.{total_bound, green_flow, permille_of, figures_of, blocked, blocked_steps};

use signal::Green;

// One vehicle, 3600000 flow units, in the 1000 ms of a step: a flow times a headway in ms that is more leaves no headway free.
const CRITICAL_PRODUCT: u64 = 3600000000;

// A run's flow units in the cycle and in its green steps, and the thousandths that arrive on green.
#[repr(C)]
#[derive(Clone, Copy, Default, PartialEq)]
pub struct ExitFigures {
    pub total: u64,
    pub green: u64,
    pub permille: u32,
}

fn permille(part: u64, whole: u64) -> u32
    requires { (part ≤ whole) × (part < total_bound) }
    ensures { result ≡ permille_of part whole }
{
    if whole == 0 {
        return 0;
    }
    // `as`, here and below: a number of 32 bits there, which is known; `try_from` would have a case that cannot be.
    (1000 * part / whole) as u32
}

// Whether a flow leaves no critical headway, in ms, in its step.
#[tactic(auto, unfolding(crate::specs::ExitFigures::blocked))]
fn is_blocked(flow: u32, headway: u32) -> bool
    ensures { result ≡ blocked flow headway }
{
    CRITICAL_PRODUCT < u64::from(flow) * u64::from(headway)
}

// What arrives in some steps.
fn total(steps: &[u32]) -> u64
    requires { length steps.now < step_bound }
    ensures sum { result ≡ sum steps.now }
    ensures small { result < total_bound }
{
    steps.iter().map(|flow| u64::from(*flow)).sum()
}

// A run: what arrives in each step of its cycle.
#[derive(Clone, Copy)]
pub struct Run<'a> {
    pub steps: &'a [u32],
    pub ghost short: { length steps.now < step_bound },
}

impl<'a> Run<'a> {
    pub fn total(self) -> u64
        ensures { result ≡ sum self.entry.steps.now }
    {
        total(self.steps)
    }

    // What arrives in the green's steps: those up to the cycle's end, then those from step 1.
    fn green_flow(self, green: Green) -> u64
        requires { GreenFits (length self.steps.now) green }
        ensures { result ≡ green_flow green self.entry.steps.now }
    {
        let place = signal::place_after(self.steps.len() as u32, green.start);
        let (again, ahead) = self.steps.split_at(place);
        let g = green.steps as usize;
        let first = g.min(ahead.len());
        total(&ahead[..first]) + total(&again[..g - first])
    }

    // The figures of a signalised exit, its run a cycle.
    pub fn figures(self, green: Green) -> ExitFigures
        requires { GreenFits (length self.steps.now) green }
        ensures { result ≡ figures_of green self.entry.steps.now }
    {
        let all = total(self.steps);
        let part = self.green_flow(green);
        ExitFigures {
            total: all,
            green: part,
            permille: permille(part, all),
        }
    }

    pub fn blocked_steps(self, headway: u32) -> u32
        ensures { result ≡ blocked_steps headway self.entry.steps.now }
    {
        self.steps
            .iter()
            .map(|flow| u32::from(is_blocked(*flow, headway)))
            .sum()
    }
}
