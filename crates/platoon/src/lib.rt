// Platoon discharge: what one signalised entry sends into the segment in each step of a cycle.
#![tactic(auto)]

ghost use Rattle.std.specs.Prelude.{◌≡◌, ◌+◌, ◌*◌, ◌/◌, ◌≤◌, ◌<◌, length, replicate};
ghost use Rattle.limits.specs.Limits.{entry_limit, flow_limit, most_arriving, step_bound};
ghost use Rattle.movements.specs.Movements.{flow_units};
ghost use Rattle.signal.specs.Greens.{GreenFits};
ghost use Rattle.signal.specs.Landing.{added};
ghost use Rattle.platoon.specs.Discharge.{cycle_bound, green_flows, profile_of, queue_of, served_of};
ghost use Rattle.platoon.specs.Serving.{ServeFits, ServedPart};

use movements::flow_units;
use signal::Green;

// The queue of a green: what waits as it starts, or goes on past the cycle's end, what arrives while it lasts, what a step can serve.
#[derive(Clone, Copy)]
pub struct Queue {
    pub waiting: u64,
    pub arriving: u64,
    pub rate: u32,
}

// One green step: what it discharges, and what waits after it.
#[derive(Clone, Copy)]
pub struct Served {
    pub flow: u32,
    pub waiting: u64,
}

// `as` here and of a run's length, since each number is one of 32 bits: `try_from` would have a case that cannot be.
#[tactic(auto, unfolding(crate::specs::Discharge::served_of))]
fn serve(queue: u64, rate: u32) -> Served
    ensures { result ≡ served_of queue rate }
{
    let flow = queue.min(u64::from(rate));
    Served {
        flow: flow as u32,
        waiting: queue - flow,
    }
}

// What has arrived on green by the end of step k of it.
fn arrived(k: u32, arriving: u64, g: u32) -> u64
    requires { (0 < g) × (k < step_bound) × (arriving ≤ cycle_bound) }
    ensures { result ≡ k * arriving / g }
{
    u64::from(k) * arriving / u64::from(g)
}

// Serves the queue of a green of g over so many of its steps as a run's part has, after those that are gone: each receives, then
// discharges into its place. A `for`: what waits and what has passed go on from step to step. Answers what waits after them.
fn serve_steps(queue: Queue, g: u32, gone: u32, part: &mut [u32]) -> u64
    requires { ServeFits queue g gone part.old }
    ensures no_more { result ≤ queue.waiting + queue.arriving }
    ensures part { ServedPart queue g gone (length part.old) part.new result }
{
    let mut waiting = queue.waiting;
    let mut passed = arrived(gone, queue.arriving, g);
    for (i, flow) in part.iter_mut().enumerate() {
        let reached = arrived(gone + i as u32 + 1, queue.arriving, g);
        let step = serve(waiting + (reached - passed), queue.rate);
        *flow = step.flow;
        waiting = step.waiting;
        passed = reached;
    }
    waiting
}

// Serves the queue over a green, into an empty cycle: up to the cycle's end from the first green step on, then from step 1.
fn release(green: Green, queue: Queue, run: &mut [u32])
    requires green_fits { (length run.old < step_bound) × GreenFits (length run.old) green }
    requires waiting_le_cycle_bound { (queue.waiting ≤ cycle_bound) × (queue.arriving ≤ cycle_bound) }
    requires run_value { run.old ≡ replicate (length run.old) 0 }
    ensures { run.new ≡ added (length run.old) green.start.0 1 (green_flows green.steps queue) run.old }
{
    let g = green.steps;
    if g == 0 {
        return;
    }
    let (again, ahead) = run.split_at_mut(signal::place_after(run.len() as u32, green.start));
    let first = g.min(ahead.len() as u32);
    let waiting = serve_steps(queue, g, 0, &mut ahead[..first as usize]);
    let queue = Queue { waiting, ..queue };
    serve_steps(queue, g, first, &mut again[..(g - first) as usize]);
}

// The queue of a cycle of c steps at a discharge volume, in thousandths of veh/h: what does not arrive on green waits when green starts.
// Three numbers stand apart here and below: an entry gives two, metering the volume, and a struct would be built for one call and taken
// apart by each definition.
#[tactic(auto, unfolding(crate::specs::Discharge::queue_of, crate::specs::Discharge::carried, crate::specs::Discharge::green_arrivals))]
fn queue_of(c: u32, saturation: u32, arriving: u32, volume: u32) -> Queue
    requires { (c < step_bound) × (saturation ≤ flow_limit) × (arriving ≤ most_arriving) × (volume ≤ flow_units entry_limit) }
    ensures { result ≡ queue_of c saturation arriving volume }
{
    let all = u64::from(volume) * u64::from(c);
    let on_green = all * u64::from(arriving) / 1000;
    Queue {
        waiting: all - on_green,
        arriving: on_green,
        rate: flow_units(saturation),
    }
}

// Writes an entry's discharge profile, at a discharge volume in thousandths of veh/h, over a run of the cycle's length.
pub fn discharge_profile(green: Green, saturation: u32, arriving: u32, volume: u32, run: &mut [u32])
    requires run_len_bound { (length run.old < step_bound) × GreenFits (length run.old) green }
    requires saturation_le_flow_limit { (saturation ≤ flow_limit) × (arriving ≤ most_arriving) × (volume ≤ flow_units entry_limit) }
    ensures { run.new ≡ profile_of (length run.old) green saturation arriving volume }
{
    run.fill(0);
    let cycle = run.len() as u32;
    let queue = queue_of(cycle, saturation, arriving, volume);
    release(green, queue, run);
}
