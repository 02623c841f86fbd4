// Platoon dispersion along a segment, from equations 30-11 and 30-12 with steps of one second.
// Running times are in milliseconds; profiles hold one number of flow units for each step.
#![tactic(auto)]

ghost use Rattle.std.specs.Prelude.{◌≡◌, ◌≤◌, ◌<◌, length};
ghost use Rattle.limits.specs.Limits.{most_running};
ghost use Rattle.dispersion.specs.Dispersion.{divisor_of, arrival_time_of, empty_state, step_of, state_after, cycle_written};
ghost use Rattle.dispersion.specs.Dispersion.{held, work, cycles_worked, first_holds, last_part};
ghost use Rattle.dispersion.specs.Rest.{needed_of};
ghost use Rattle.dispersion.specs.Turns.{others_of, turn_worked, turns_worked};

// The numerator of the smoothing factor (N of the paper); the divisor stands under it.
const SMOOTHING: u64 = 500000;

// The segment after a step: the arrival, which is the level of the next step, and the remainder carried on.
#[derive(Clone, Copy, PartialEq)]
pub struct PlatoonState {
    pub level: u32,
    pub carry: u32,
}

// A segment before its first cycle.
const EMPTY: PlatoonState = PlatoonState { level: 0, carry: 0 };

// The profiles that take cycles by turns: the first alone, or the first and the second. A flag beside a second that may be empty: tried as
// an `Option<&mut [u32]>`, what remains is what the second then holds, which is told only in a `match` that would do nothing else.
#[derive(Clone, Copy)]
enum Turns {
    One,
    Two,
}

impl Turns {
    // How many profiles take cycles beside the first.
    fn others(self) -> u32
        ensures value { result ≡ others_of self }
        ensures others_le_1 { result ≤ 1 }
    {
        match self {
            Turns::One => 0,
            Turns::Two => 1,
        }
    }
}

// The divisor of the smoothing factor (D of the paper).
#[tactic(auto, unfolding(crate::specs::Dispersion::divisor_of))]
fn divisor(running: u32) -> u64
    ensures { result ≡ divisor_of running }
{
    657500 + 69 * u64::from(running)
}

// The platoon arrival time in steps (t' of the paper), to the nearest, halves up.
// `as` here and in a step, since each number is one of 32 bits: `try_from` would have a case that cannot be.
#[tactic(auto, unfolding(crate::specs::Dispersion::arrival_time_of))]
pub fn arrival_time(running: u32) -> u32
    ensures { result ≡ arrival_time_of running }
{
    ((862 * u64::from(running) + 435000) / 1000000) as u32
}

// A platoon on its way along a segment of that running time, in the state that its last step left, or that of an empty segment.
#[derive(Clone, Copy)]
struct Platoon {
    running: u32,
    state: PlatoonState,
    ghost within: { running ≤ most_running },
    ghost carried: { state.carry < divisor_of running },
}

impl Platoon {
    // One step.
    fn step(self, discharge: u32) -> PlatoonState
        ensures { result ≡ step_of self.running discharge self.state }
    {
        let d = divisor(self.running);
        let made = SMOOTHING * u64::from(discharge)
            + (d - SMOOTHING) * u64::from(self.state.level)
            + u64::from(self.state.carry);
        PlatoonState {
            level: (made / d) as u32,
            carry: (made % d) as u32,
        }
    }

    // One cycle: the arrivals go to the front of the profile, whose numbers beyond stay. By index: tried as a `zip` of the profile's
    // `iter_mut`, what remains is what the profile then holds, of which the library tells only the length.
    fn disperse(self, discharge: &[u32], profile: &mut [u32]) -> PlatoonState
        requires discharge_in_bounds { length discharge.now ≤ length profile.old }
        ensures value { result ≡ state_after self.running discharge.now self.state }
        ensures profile_after { profile.new ≡ cycle_written self.running discharge.now self.state profile.old }
    {
        let running = self.running;
        let mut state = self.state;
        for (i, q) in discharge.iter().enumerate() {
            let platoon = Platoon { running, state };
            state = platoon.step(*q);
            profile[i] = state.level;
        }
        state
    }

    // Cycle k, from 0, into the profile whose turn it is.
    fn work_cycle(
        self,
        discharge: &[u32],
        first: &mut [u32],
        second: &mut [u32],
        turns: Turns,
        k: u32,
    ) -> PlatoonState
        requires discharge_in_bounds { (length discharge.now ≤ length first.old) × (0 < others_of turns → length discharge.now ≤ length second.old) }
        ensures { work result first.new second.new
            ≡ turn_worked self.running discharge.now (others_of turns) k (work self.state first.old second.old) }
    {
        if k % (turns.others() + 1) == 0 {
            return self.disperse(discharge, first);
        }
        self.disperse(discharge, second)
    }

    // So many cycles from an empty segment, level and carry running on, by turns into the first profile and the second, or each into the
    // first, where the second may be empty. It ends once the segment rests, since the profiles then hold what all the cycles leave.
    fn work_cycles(
        self,
        discharge: &[u32],
        first: &mut [u32],
        second: &mut [u32],
        turns: Turns,
        cycles: u32,
    ) -> PlatoonState
        requires not_moved { self.state ≡ empty_state }
        requires discharge_in_bounds { (length discharge.now ≤ length first.old) × (0 < others_of turns → length discharge.now ≤ length second.old) }
        ensures { work result first.new second.new
            ≡ turns_worked self.running discharge.now (others_of turns) cycles first.old second.old }
    {
        let Platoon { running, mut state } = self;
        let mut needed = cycles;
        for k in 0..cycles {
            if k == needed {
                return state;
            }
            let platoon = Platoon { running, state };
            let next = platoon.work_cycle(discharge, first, second, turns, k);
            needed = cycles_needed(k + 1, turns, needed, state, next);
            state = next;
        }
        state
    }
}

// How many cycles need working once so many are. Where the last of them left the state in which it began,
// every later one is the same: as many more as other profiles are to hold it, and the rest need not be worked.
#[tactic(auto, unfolding(crate::specs::Rest::needed_of, crate::specs::Rest::same_state))]
fn cycles_needed(
    worked: u32,
    turns: Turns,
    cycles: u32,
    before: PlatoonState,
    after: PlatoonState,
) -> u32
    ensures { result ≡ needed_of worked (others_of turns) cycles before after }
{
    if worked < cycles && before == after {
        return worked + turns.others();
    }
    cycles
}

// So many cycles from an empty segment: the first, third, .. into the first profile, the second, fourth, .. into the second.
// They are lent apart, as paper 01 has them: `last_cycle` keeps a part of one, which could not be lent from a struct of both.
// The running time, here and below, is a plain number with a clause and no type: a record's and a point's are tested by refusals of their
// own, and a type would be made at every call and taken apart by each definition.
#[tactic(auto, using(crate::specs::Arrivals::divisor_pos))]
pub fn alternate(
    running: u32,
    discharge: &[u32],
    first: &mut [u32],
    second: &mut [u32],
    cycles: u32,
) -> PlatoonState
    requires running_le_most_running { running ≤ most_running }
    requires discharge_in_bounds { (length discharge.now ≤ length first.old) × (length discharge.now ≤ length second.old) }
    ensures { work result first.new second.new
        ≡ cycles_worked running discharge.now cycles first.old second.old }
{
    let platoon = Platoon {
        running,
        state: EMPTY,
    };
    platoon.work_cycles(discharge, first, second, Turns::Two, cycles)
}

// The last of so many cycles from an empty segment, each over the one before it in one profile, with no other beside it.
#[tactic(auto, using(crate::specs::Arrivals::divisor_pos))]
pub fn disperse_last(running: u32, discharge: &[u32], profile: &mut [u32], cycles: u32)
    requires running_le_most_running { running ≤ most_running }
    requires discharge_in_bounds { length discharge.now ≤ length profile.old }
    requires cycles_nonzero { 0 < cycles }
    ensures { profile.new ≡ held running discharge.now cycles profile.old }
{
    let platoon = Platoon {
        running,
        state: EMPTY,
    };
    platoon.work_cycles(discharge, profile, &mut [], Turns::One, cycles);
}

// Whether the first profile holds the last of so many cycles; otherwise the second does.
pub fn first_holds(cycles: u32) -> bool
    ensures { result ≡ first_holds cycles }
{
    cycles % 2 == 1
}

// The part that holds the last cycle: the first so many steps of the profile that `first_holds` says.
#[tactic(auto, unfolding(crate::specs::Dispersion::last_part))]
pub fn last_cycle<'a>(first: &'a [u32], second: &'a [u32], cycles: u32, steps: usize) -> &'a [u32]
    requires { (steps ≤ length first.now) × (steps ≤ length second.now) }
    ensures { result.now ≡ last_part first.now second.now cycles steps }
{
    if first_holds(cycles) {
        return &first[0..steps];
    }
    &second[0..steps]
}
