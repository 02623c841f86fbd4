// Filling the point profiles of an accepted segment: the flow that passes each point, and its blocked steps.
#![tactic(auto)]

ghost use Rattle.std.specs.Prelude.{◌≡◌, length};
ghost use Rattle.signal.specs.Landing.{added};
ghost use Rattle.dispersion.specs.Dispersion.{arrival_time_of, reported};
ghost use Rattle.propagation.specs.Propagation.{cycles};
ghost use Rattle.points.specs.Points.{given};
ghost use Rattle.point_flows.specs.PointFlows.{point_run, point_blocked, point_runs, point_counts};
ghost use Rattle.point_filling.specs.Steps.{PassFits, PointFits, EachFits, FillFits};

use exit_figures::Run;
use points::{Point, Points};
use ranges::Accepted;

// One entry: its discharge dispersed by the point's running time, its whole arrivals added to the point's run where they land. The
// cycles stand in an array of their own, so that the working's profiles keep the record's.
fn pass(running: u32, discharge: &[u32], run: &mut [u32])
    requires { PassFits running discharge.now run.old }
    ensures { run.new
        ≡ added (length run.old) (arrival_time_of running) 1 (reported running discharge.now cycles) run.old }
{
    let c = discharge.len();
    let cycles = propagation::CYCLES;
    let mut arrived = [0u32; limits::CYCLE_ROOM];
    dispersion::disperse_last(running, discharge, &mut arrived[0..c], cycles);
    arrivals::add_whole(&arrived[0..c], dispersion::arrival_time(running), run);
}

// One point: access begins its run, then each signalised entry's discharge passes. Its blocked steps, by its own headway.
fn fill_point(accepted: Accepted, p: Point, discharges: &[u32], run: &mut [u32]) -> u32
    requires { PointFits accepted p discharges.now run.old }
    ensures run_after { run.new ≡ point_run accepted p }
    ensures value { result ≡ point_blocked accepted p }
{
    let s = accepted.segment;
    let one = s.cycle as usize;
    run.fill(metering::access_discharge(accepted));
    for discharge in discharges[..3 * one].chunks_exact(one) {
        pass(p.running, discharge, run);
    }
    Run { steps: &run[..] }.blocked_steps(p.headway)
}

// The points given, in order; the count of one that is not given is 0. Runs are cut and counts written by place: tried as a `zip` with
// `chunks_exact_mut` and `iter_mut`, what remains is what both then hold, of which the library tells only the length.
fn fill_each(
    accepted: Accepted,
    points: Points,
    discharges: &[u32],
    out: &mut [u32],
) -> [u32; points::POINT_ROOM]
    requires { EachFits accepted points discharges.now out.old }
    ensures out_after { out.new ≡ point_runs accepted (given points) out.old }
    ensures value { result ≡ point_counts accepted (given points) }
{
    let c = accepted.segment.cycle as usize;
    let n = points.count as usize;
    let mut blocked = [0u32; points::POINT_ROOM];
    for (i, p) in points.at[0..n].iter().enumerate() {
        let at = i * c;
        blocked[i] = fill_point(accepted, *p, discharges, &mut out[at..at + c]);
    }
    blocked
}

// Fills a run for each of the points given and counts its blocked steps. Each entry's discharge is made once, for all points, and
// not at all where none is given.
pub fn fill(accepted: Accepted, points: Points, out: &mut [u32]) -> [u32; points::POINT_ROOM]
    requires { FillFits accepted points out.old }
    ensures out_after { out.new ≡ point_runs accepted (given points) out.old }
    ensures value { result ≡ point_counts accepted (given points) }
{
    if points.count == 0 {
        return [0u32; points::POINT_ROOM];
    }
    let three = 3 * accepted.segment.cycle as usize;
    let mut discharges = [0u32; limits::DISCHARGE_ROOM];
    entries::fill_profiles(accepted, &mut discharges[..three]);
    fill_each(accepted, points, &discharges[..three], out)
}
