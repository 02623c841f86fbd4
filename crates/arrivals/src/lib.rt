// Arrivals at the four exits: an output of four runs, one number for each step of the cycle, exits in order.
// Access begins the runs; then each signalised entry's arrivals are added, pair by pair, where they land.
#![tactic(auto)]

ghost use Rattle.std.specs.Prelude.{◌≡◌, ◌+◌, ◌*◌, ◌≤◌, ◌<◌, ℕ, List, ◌∷◌, ◌++◌, ⊤, refl, length};
ghost use Rattle.signal.specs.Landing.{added, onto};
ghost use Rattle.pair_parts.specs.PairParts.{parts, pair_arrivals};
ghost use Rattle.pair_parts.proofs.Laws.{parts_length};
ghost use Rattle.arrivals.specs.Arrivals.{PartsFit, LandsFit, PairFits, EntryFits, begun, entry_added};

use signal::Post;

// What of each arrival is added to a run, in turn.
trait Share {
    // the parts of arrivals that are to come
    ghost parts: { Self → List ℕ → List ℕ };
    // what keeps each part within its arrival
    ghost fair: { Self → Type 0 };

    // The next arrival's part.
    fn part(&mut self, arrival: u32) -> u32
        requires { fair self.old }
        ensures fair { fair self.new }
        ensures part { (rest : List ℕ) → parts self.old (arrival ∷ rest) ≡ result ∷ parts self.new rest }
        ensures no_more { result ≤ arrival };

    // one of each
    ghost long: { (s : Self) (arrived : List ℕ) → length (parts s arrived) ≡ length arrived };
}

// All of it.
#[derive(Clone, Copy)]
struct Whole;

impl Share for Whole {
    ghost parts = { λ s arrived. arrived };

    ghost fair = { λ s. ⊤ };

    fn part(&mut self, arrival: u32) -> u32 {
        arrival
    }

    ghost long = { λ s arrived. refl };
}

// A pair's part v / w in whole numbers, with the remainder that is carried to the next.
#[derive(Clone, Copy)]
struct Pair {
    v: u32,
    w: u32,
    carry: u32,
}

impl Share for Pair {
    ghost parts = { λ s arrived. parts s.v s.w s.carry arrived };

    ghost fair = { λ s. (s.v ≤ s.w) × (s.carry < s.w) };

    // `as` here and of a run's length, since each number is one of 32 bits: `try_from` would have a case that cannot be.
    #[tactic(auto, using(pair_parts::proofs::Laws::part_le, pair_parts::proofs::Laws::rest_lt), unfolding(pair_parts::specs::PairParts::parts))]
    fn part(&mut self, arrival: u32) -> u32 {
        let whole = u64::from(arrival) * u64::from(self.v) + u64::from(self.carry);
        let by = u64::from(self.w);
        self.carry = (whole % by) as u32;
        (whole / by) as u32
    }

    ghost long = { λ s arrived. parts_length s.v s.w s.carry arrived };
}

// Arrivals one after another: the part of each is added to the number in its place of the run.
fn add_parts<S: Share>(arrived: &[u32], share: &mut S, run: &mut [u32])
    requires fits { PartsFit arrived.now run.old }
    requires fair { S.fair share.old }
    ensures fair { S.fair share.new }
    ensures added { run.new ≡ onto (S.parts share.old arrived.now) run.old }
    ensures to_come { (later : List ℕ) → S.parts share.old (arrived.now ++ later) ≡ S.parts share.old arrived.now ++ S.parts share.new later }
{
    for (i, arrival) in arrived.iter().enumerate() {
        run[i] += share.part(*arrival);
    }
}

// The part of each arrival is added to a run where its step lands: up to the cycle's end from the place where step 1's lands, then from
// the run's beginning. What left at post 0 arrives at post t. Arrivals and the time t stand apart here and below: the definition `added`
// takes each by itself, and a struct of both would only be taken apart.
fn land<S: Share + Copy>(arrived: &[u32], mut share: S, t: u32, run: &mut [u32])
    requires fits { LandsFit t arrived.now run.old }
    requires fair { S.fair share }
    ensures { run.new ≡ added (length run.old) t 1 (S.parts share arrived.now) run.old }
{
    let (again, ahead) = run.split_at_mut(signal::place_after(run.len() as u32, Post(t)));
    let (first, rest) = arrived.split_at(ahead.len());
    add_parts(first, &mut share, ahead);
    add_parts(rest, &mut share, again);
}

// One run: the parts of an entry's arrivals that go to its exit are added where their steps land, remainder carried from step to step.
fn add_pair(arrived: &[u32], v: u32, w: u32, t: u32, run: &mut [u32])
    requires { PairFits v w t arrived.now run.old }
    ensures { run.new ≡ added (length run.old) t 1 (pair_arrivals v w arrived.now) run.old }
{
    if v == 0 {
        return;
    }
    land(arrived, Pair { v, w, carry: 0 }, t, run);
}

// Arrivals are added to a run, whole, where their steps land.
pub fn add_whole(arrived: &[u32], t: u32, run: &mut [u32])
    requires { LandsFit t arrived.now run.old }
    ensures { run.new ≡ added (length run.old) t 1 arrived.now run.old }
{
    land(arrived, Whole, t, run);
}

// One entry: to each of the four runs its pair's arrivals are added. Runs are cut by place: tried as a `zip` with `chunks_exact_mut`, what
// remains is what the runs then hold, of which the library tells only the length.
pub fn add_entry(arrived: &[u32], row: [u32; 4], w: u32, t: u32, out: &mut [u32])
    requires { EntryFits w t row arrived.now out.old }
    ensures { out.new ≡ entry_added (length arrived.now) t w arrived.now row out.old }
{
    let c = arrived.len();
    for (j, v) in row.iter().enumerate() {
        let at = j * c;
        add_pair(arrived, *v, w, t, &mut out[at..at + c]);
    }
}

// Access: each of the four runs of c begins with its exit's number in every step. By place too: c may be 0, which the library's chunks
// ask that it is not.
pub fn begin(c: usize, row: [u32; 4], out: &mut [u32])
    requires { 4 * c ≤ length out.old }
    ensures { out.new ≡ begun c row out.old }
{
    for (j, v) in row.iter().enumerate() {
        let at = j * c;
        out[at..at + c].fill(*v);
    }
}
