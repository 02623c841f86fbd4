// Points along a segment at which a working is asked for the flow that passes: which are given, and their test.
#![tactic(auto)]

ghost use Rattle.std.specs.Prelude.{◌≡◌, ◌≤◌};
ghost use Rattle.points.specs.Points.{most_points, given, point_fits, all_fit};

// A working takes up to so many, and has a place for each.
pub const MOST_POINTS: u32 = 8;

pub const POINT_ROOM: usize = MOST_POINTS as usize;

// Running time from the upstream signal, and critical headway, in milliseconds.
#[repr(C)]
#[derive(Clone, Copy)]
pub struct Point {
    pub running: u32,
    pub headway: u32,
}

// The first so many of the places are given; the others are not looked at. A count beside its places, for the C interface.
#[repr(C)]
#[derive(Clone, Copy)]
pub struct Points {
    pub count: u32,
    pub at: [Point; POINT_ROOM],
}

// Whether a point lies on a segment of that running time, and its headway in the record's range.
#[tactic(auto, unfolding(crate::specs::Points::point_fits))]
fn point_fits(farthest: u32, p: Point) -> bool
    ensures { result ≡ point_fits farthest p }
{
    (limits::LEAST_RUNNING..=farthest).contains(&p.running)
        & (limits::LEAST_HEADWAY..=limits::MOST_HEADWAY).contains(&p.headway)
}

// Whether each of the points given does.
pub fn all_fit(farthest: u32, points: Points) -> bool
    requires { points.count ≤ most_points }
    ensures { result ≡ all_fit farthest (given points) }
{
    let n = points.count as usize;
    points.at[0..n].iter().all(|p| point_fits(farthest, *p))
}
