// The working of a segment record with points along it: everything is decided first, then the four lent profiles are filled.
#![tactic(auto)]

ghost use Rattle.std.specs.Prelude.{◌≡◌};
ghost use Rattle.propagation.specs.Propagation.{Same, held};
ghost use Rattle.working.specs.Working.{by_decision, decision_for};
ghost use Rattle.point_working.specs.PointWorking.{PointWorks, accept_of, point_called, with_points};
ghost use Rattle.point_working.specs.Steps.{Accepts};

use balance_decision::Unworked;
use points::Points;
use propagation::LentProfiles;
use ranges::Accepted;
use refusal::{Refusal, need};
use working_outcome::Working;

// A working, and the blocked steps at each point; 0 for the points that are not given.
#[derive(Clone, Copy)]
pub struct PointWorking {
    pub working: Working,
    pub blocked: [u32; points::POINT_ROOM],
}

// The refusals of the record, of the points and of the lent profiles' lengths.
#[tactic(auto, unfolding(validation::specs::Accepting::accept_with, refusal::specs::Refusal::need))]
fn accept(
    bytes: &[u8],
    points: Points,
    profiles: &LentProfiles,
    passing: usize,
) -> Result<Accepted, Refusal>
    ensures { result ≡ accept_of bytes.now points (held profiles.now) passing }
{
    let accepted = validation::check(bytes)?;
    let s = accepted.segment;
    need(Refusal::PointCount, points.count <= points::MOST_POINTS)?;
    need(Refusal::PointRange, points::all_fit(s.running, points))?;
    let runs = u64::from(s.cycle) * u64::from(points.count);
    let fits = working::fits(
        s,
        profiles.output.len(),
        profiles.first.len(),
        profiles.second.len(),
    ) & (runs <= passing as u64);
    need(Refusal::ProfileRoom, fits)?;
    Ok(accepted)
}

// The working decides the volumes before it writes; where it refuses, no point is written either.
fn work_accepted(
    accepted: Accepted,
    points: Points,
    profiles: &mut LentProfiles,
    passing: &mut [u32],
) -> Result<PointWorking, Unworked>
    requires { Accepts accepted points (held profiles.old) passing.old }
    ensures same { Same profiles.old profiles.new }
    ensures worked { point_called result (held profiles.new) passing.new
        ≡ with_points accepted points (by_decision accepted (decision_for accepted) (held profiles.old)) passing.old }
{
    let working = working::work_accepted(accepted, profiles)?;
    let blocked = point_filling::fill(accepted, points, passing);
    Ok(PointWorking { working, blocked })
}

// Works a segment record with up to eight points: as `working::work`, and to the point profiles a run of C numbers for each point given,
// in order. Where it does not work, nothing is written.
pub fn work_points(
    bytes: &[u8],
    points: Points,
    profiles: &mut LentProfiles,
    passing: &mut [u32],
) -> Result<PointWorking, Unworked>
    ensures same { Same profiles.old profiles.new }
    ensures works { PointWorks bytes.now points (held profiles.old) passing.old result (held profiles.new) passing.new }
{
    let accepted = accept(bytes, points, profiles, passing.len())?;
    work_accepted(accepted, points, profiles, passing)
}
