// The discharge call: a segment record's three discharge profiles and volumes, or a refusal.
#![tactic(auto)]

ghost use Rattle.std.specs.Prelude.{◌≡◌, ◌*◌, ◌≤◌, length};
ghost use Rattle.entries.specs.Entries.{entry_profiles};
ghost use Rattle.discharge.specs.Discharge.{Calls, accept_of, volumes_of};

use movements::Signalised;
use ranges::Accepted;
use refusal::{Refusal, need};

// Every refusal of the call, before anything is written.
#[tactic(auto, unfolding(validation::specs::Accepting::accept_with, refusal::specs::Refusal::need))]
fn accept(bytes: &[u8], room: usize) -> Result<Accepted, Refusal>
    ensures { result ≡ accept_of bytes.now room }
{
    let accepted = validation::check(bytes)?;
    let cycle = u64::from(accepted.segment.cycle);
    need(Refusal::ProfileRoom, 3 * cycle <= room as u64)?;
    Ok(accepted)
}

#[tactic(auto, unfolding(metering::specs::Metering::discharge_volumes))]
fn write(accepted: Accepted, profile: &mut [u32]) -> Signalised<u32>
    requires { 3 * accepted.cycle ≤ length profile.old }
    ensures value { result ≡ volumes_of accepted }
    ensures profile_after { profile.new ≡ entry_profiles accepted profile.old }
{
    let o = entries::fill_profiles(accepted, profile);
    // By hand, since the access entry's volume is metered too, and not answered.
    Signalised {
        left: o.left,
        through: o.through,
        right: o.right,
    }
}

// The three discharge profiles, C numbers each, to the front of a lent profile; the three discharge volumes are answered, in thousandths of
// veh/h.
pub fn discharge(bytes: &[u8], profile: &mut [u32]) -> Result<Signalised<u32>, Refusal>
    ensures { Calls bytes.now profile.old result profile.new }
{
    let accepted = accept(bytes, profile.len())?;
    Ok(write(accepted, profile))
}
