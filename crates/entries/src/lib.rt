// The signalised entries of a segment: the discharge profile of one, and of all three.
#![tactic(auto)]

ghost use Rattle.std.specs.Prelude.{◌≡◌};
ghost use Rattle.metering.specs.Metering.{discharge_volumes};
ghost use Rattle.entries.specs.Entries.{ProfileFits, ProfilesFit, entry_profile, entry_profiles};

use movements::Counts;
use ranges::Accepted;
use segment::Entry;

// An entry's profile, from its discharge volume, over a run of the cycle's length.
#[tactic(auto, unfolding(crate::specs::Entries::entry_profile), using(crate::specs::Laws::discharge_volume_le))]
pub fn fill_profile(c: u32, e: Entry, o: u32, run: &mut [u32])
    requires { ProfileFits c e o run.old }
    ensures { run.new ≡ entry_profile c e }
{
    platoon::discharge_profile(e.green, e.saturation, e.arriving, o, run);
}

// The three profiles to the front of a lent profile: runs of the cycle's length, entries in order. Their discharge volumes are answered.
#[tactic(auto, unfolding(crate::specs::Entries::entry_profiles, metering::specs::Metering::discharge_volumes))]
pub fn fill_profiles(accepted: Accepted, profile: &mut [u32]) -> Counts
    requires { ProfilesFit accepted profile.old }
    ensures value { result ≡ discharge_volumes accepted }
    ensures profile_after { profile.new ≡ entry_profiles accepted profile.old }
{
    let s = accepted.segment;
    let o = metering::discharge_volumes(accepted);
    let c = s.cycle as usize;
    let (left, rest) = profile.split_at_mut(c);
    let (through, rest) = rest.split_at_mut(c);
    fill_profile(s.cycle, s.left, o.left, left);
    fill_profile(s.cycle, s.through, o.through, through);
    fill_profile(s.cycle, s.right, o.right, &mut rest[..c]);
    o
}
