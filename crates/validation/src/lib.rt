// The tests of a segment record: accepted, or refused by the lowest of the numbers 6 to 12.
#![tactic(auto)]

ghost use Rattle.std.specs.Prelude.{◌≡◌};
ghost use Rattle.validation.specs.Validation.{check_of};

use ranges::Accepted;
use refusal::{Refusal, need};

// The accepted segment of a record, or the lowest of the refusals 6 to 12 that its bytes meet.
#[tactic(auto, using(ranges::proofs::Ranges::tests_ranges), unfolding(crate::specs::Validation::check_of, refusal::specs::Refusal::need))]
pub fn check(bytes: &[u8]) -> Result<Accepted, Refusal>
    ensures { result ≡ check_of bytes.now }
{
    let record = bytes.as_array().ok_or(Refusal::Record)?;
    let s = segment::segment_of(record);
    need(Refusal::Cycle, ranges::cycle_fits(s))?;
    need(Refusal::RunningTime, ranges::running_fits(s))?;
    need(Refusal::Headway, ranges::headway_fits(s))?;
    need(Refusal::Volume, ranges::volumes_fit(s))?;
    need(Refusal::GreenTime, ranges::greens_fit(s))?;
    need(Refusal::SeedRow, ranges::seeds_add(s.seeds))?;
    Ok(Accepted { segment: s })
}
