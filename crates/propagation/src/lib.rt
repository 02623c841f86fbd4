// Filling the lent profiles of an accepted segment, once its pair flows are decided.
#![tactic(auto)]

ghost use Rattle.std.specs.Prelude.{◌≡◌};
ghost use Rattle.limits.specs.Limits.{most_cycle};
ghost use Rattle.propagation.specs.Propagation.{Same, filled_of, held, lent, longest, profiles};
ghost use Rattle.propagation.specs.Steps.{FillEntryFits, FillFits, Room, SpreadFits, entry_step, spread_step};

use limits::{CYCLE_ROOM, OUTPUT_ROOM};
use ranges::Accepted;
use segment::{Entry, Segment};

// The profiles that a working is lent: the output, and the two work profiles.
#[derive(Drop)]
pub struct LentProfiles<'a> {
    pub output: &'a mut [u32],
    pub first: &'a mut [u32],
    pub second: &'a mut [u32],
}

// Profiles that every record's cycle fits, for a caller that has none of its own.
#[derive(Drop)]
pub struct LongestProfiles {
    pub output: [u32; OUTPUT_ROOM],
    pub first: [u32; CYCLE_ROOM],
    pub second: [u32; CYCLE_ROOM],
}

impl LongestProfiles {
    // All zeros.
    #[tactic(auto, unfolding(crate::specs::Propagation::longest))]
    pub fn new() -> LongestProfiles
        ensures { profiles result.output result.first result.second ≡ longest }
    {
        LongestProfiles {
            output: [0; OUTPUT_ROOM],
            first: [0; CYCLE_ROOM],
            second: [0; CYCLE_ROOM],
        }
    }

    // The three as they stand, lent. Each by itself first: written within the struct that is handed back, the borrow's rules do not
    // cover it. What the arrays hold once the loan is over no clause can say: the language has them for one reference that is handed back,
    // and for two of a slice. So what a call wrote is read behind the loan.
    pub fn lend(&mut self) -> LentProfiles<'_>
        ensures held { held result ≡ profiles self.old.output self.old.first self.old.second }
        ensures room { Room most_cycle (held result) }
    {
        let output = &mut self.output;
        let first = &mut self.first;
        let second = &mut self.second;
        LentProfiles {
            output,
            first,
            second,
        }
    }
}

// Cycles worked from an empty segment; the last is reported.
pub const CYCLES: u32 = 65;

// Disperses a discharge over the cycles and adds what of it goes to each exit. The profiles come one by one: a part of a work profile
// is read while the output is written, which the borrow's rules do not cover behind one reference.
fn spread(
    running: u32,
    units: u32,
    row: [u32; 4],
    discharge: &[u32],
    output: &mut [u32],
    first: &mut [u32],
    second: &mut [u32],
)
    requires { SpreadFits running units row discharge.now (lent output.old first.old second.old) }
    ensures { lent output.new first.new second.new
        ≡ spread_step running units row discharge.now (lent output.old first.old second.old) }
{
    dispersion::alternate(running, discharge, first, second, CYCLES);
    let part = dispersion::last_cycle(&first[..], &second[..], CYCLES, discharge.len());
    arrivals::add_entry(part, row, units, dispersion::arrival_time(running), output);
}

// One entry that discharges o: its profile stands in an array of the longest cycle.
fn fill_entry(s: Segment, e: Entry, o: u32, row: [u32; 4], profiles: &mut LentProfiles)
    requires { FillEntryFits s.running s.cycle e o row (held profiles.old) }
    ensures same { Same profiles.old profiles.new }
    ensures filled { held profiles.new ≡ entry_step s.running s.cycle e row (held profiles.old) }
{
    let c = s.cycle as usize;
    let mut discharge = [0u32; CYCLE_ROOM];
    entries::fill_profile(s.cycle, e, o, &mut discharge[0..c]);
    spread(
        s.running,
        o,
        row,
        &discharge[0..c],
        profiles.output,
        profiles.first,
        profiles.second,
    );
}

// The whole, from the pair flows: access first, then the signalised entries in order.
// The right entry's cycles stay in the work profiles.
pub fn fill(accepted: Accepted, rows: [[u32; 4]; 4], profiles: &mut LentProfiles)
    requires { FillFits accepted rows (held profiles.old) }
    ensures same { Same profiles.old profiles.new }
    ensures filled { held profiles.new ≡ filled_of accepted rows (held profiles.old) }
{
    let s = accepted.segment;
    let o = metering::discharge_volumes(accepted);
    arrivals::begin(s.cycle as usize, rows[3], profiles.output);
    fill_entry(s, s.left, o.left, rows[0], profiles);
    fill_entry(s, s.through, o.through, rows[1], profiles);
    fill_entry(s, s.right, o.right, rows[2], profiles);
}
