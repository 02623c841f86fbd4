// The ends of the ranges that a segment record's fields lie in, and the sizes of the arrays that follow from them.
#![tactic(auto)]

// In steps of one second.
pub const LEAST_CYCLE: u32 = 30;

pub const MOST_CYCLE: u32 = 240;

// In milliseconds.
pub const LEAST_RUNNING: u32 = 1000;

pub const MOST_RUNNING: u32 = 300000;

pub const LEAST_HEADWAY: u32 = 1000;

pub const MOST_HEADWAY: u32 = 10000;

// In veh/h: the largest volume of an entry.
pub const ENTRY_LIMIT: u32 = 6000;

// In veh/h: the largest saturation flow rate, and the largest volume of an exit.
pub const FLOW_LIMIT: u32 = 12000;

// In thousandths, the whole.
pub const MOST_ARRIVING: u32 = 1000;

// One run of the longest cycle; the three of a discharge profile; the four of an output.
pub const CYCLE_ROOM: usize = MOST_CYCLE as usize;

pub const DISCHARGE_ROOM: usize = 3 * CYCLE_ROOM;

pub const OUTPUT_ROOM: usize = 4 * CYCLE_ROOM;
