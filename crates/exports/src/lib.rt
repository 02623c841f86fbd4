// The library's calls for programs in C or Rust: a slice passes as a pointer and a length, an answer is a struct of numbers.
// `number` is the paper's number of a refusal, 0 where the call accepts; what a refusal does not tell is 0.
// A pointer is to as many numbers as its length says, aligned as their type; with length 0 it may be any, null too.
// What a call writes overlaps nothing else that it is lent. Each profile comes by itself, since the C interface has a pointer and a length
// for each. Contracts go by the names of fields and parameters, so that their order in a caller's declaration is compared by runs
// alone (reference/linked).
#![tactic(auto)]

ghost use Rattle.std.specs.Prelude.{◌≡◌, length};
ghost use Rattle.propagation.specs.Propagation.{lent};
ghost use Rattle.archive_format.specs.Archive.{add_of, count_of, find_of, place_of, first_edition, title_part_of};
ghost use Rattle.report.specs.Report.{report_of, sheets_of};
ghost use Rattle.exports.specs.Exports.{SegmentWorks, work_answer, SegmentPointWorks, point_work_answer, SegmentDischarges, SegmentSheets};
ghost use Rattle.exports.specs.Exports.{volumes_answer, value_answer, ArchiveWrites, title_answer};

use archive_format::TitlePart;
use balance_decision::Unworked;
use exit_figures::ExitFigures;
use movements::Signalised;
use pair_flows::PairFlows;
use point_working::PointWorking;
use points::Points;
use propagation::LentProfiles;
use refusal::Refusal;
use working_outcome::Working;

// The calls below are one function each over the call that each comment names, since C has a name for each.

// A working's answer: 0 and 15 tell the last sum.
#[repr(C)]
#[derive(Clone, Copy, Default)]
pub struct WorkAnswer {
    pub number: u32,
    pub rounds: u32,
    pub sum: f64,
    pub arrival: u32,
    pub blocked: u32,
    pub pairs: PairFlows,
    pub left: ExitFigures,
    pub through: ExitFigures,
    pub right: ExitFigures,
    pub access: u64,
}

// A working with points: the working's answer, and the blocked steps at each point.
#[repr(C)]
#[derive(Clone, Copy)]
pub struct PointWorkAnswer {
    pub work: WorkAnswer,
    pub blocked: [u32; points::POINT_ROOM],
}

// The three entries' discharge volumes in thousandths of veh/h.
#[repr(C)]
#[derive(Clone, Copy, Default)]
pub struct VolumesAnswer {
    pub number: u32,
    pub left: u32,
    pub through: u32,
    pub right: u32,
}

// A count, a place or a length.
#[repr(C)]
#[derive(Clone, Copy, Default)]
pub struct ValueAnswer {
    pub number: u32,
    pub value: usize,
}

// Where a title stands in its archive.
#[repr(C)]
#[derive(Clone, Copy, Default)]
pub struct TitleAnswer {
    pub number: u32,
    pub place: usize,
    pub length: usize,
}

impl From<Result<Working, Unworked>> for WorkAnswer {
    ghost from_gives = { λ answer told. told ≡ work_answer answer };

    fn from(answer: Result<Working, Unworked>) -> WorkAnswer {
        match answer {
            Ok(w) => WorkAnswer {
                number: 0,
                rounds: w.rounds,
                sum: w.sum,
                arrival: w.arrival,
                blocked: w.blocked,
                pairs: w.pairs,
                left: w.left,
                through: w.through,
                right: w.right,
                access: w.access,
            },
            Err(u) => WorkAnswer {
                number: u.number(),
                sum: u.last_sum(),
                ..WorkAnswer::default()
            },
        }
    }
}

impl From<Result<PointWorking, Unworked>> for PointWorkAnswer {
    ghost from_gives = { λ answer told. told ≡ point_work_answer answer };

    fn from(answer: Result<PointWorking, Unworked>) -> PointWorkAnswer {
        match answer {
            Ok(w) => {
                let blocked = w.blocked;
                PointWorkAnswer {
                    work: Ok(w.working).into(),
                    blocked,
                }
            }
            Err(u) => PointWorkAnswer {
                work: Err(u).into(),
                // Tried as a `default`: what remains is that eight zeros, told place by place, are the list of eight zeros.
                blocked: [0; points::POINT_ROOM],
            },
        }
    }
}

impl From<Result<Signalised<u32>, Refusal>> for VolumesAnswer {
    ghost from_gives = { λ answer told. told ≡ volumes_answer answer };

    fn from(answer: Result<Signalised<u32>, Refusal>) -> VolumesAnswer {
        match answer {
            Ok(o) => VolumesAnswer {
                number: 0,
                left: o.left,
                through: o.through,
                right: o.right,
            },
            Err(refusal) => VolumesAnswer {
                number: refusal.number(),
                ..VolumesAnswer::default()
            },
        }
    }
}

impl From<Result<usize, Refusal>> for ValueAnswer {
    ghost from_gives = { λ answer told. told ≡ value_answer answer };

    fn from(answer: Result<usize, Refusal>) -> ValueAnswer {
        match answer {
            Ok(n) => ValueAnswer {
                number: 0,
                value: n,
            },
            Err(refusal) => ValueAnswer {
                number: refusal.number(),
                ..ValueAnswer::default()
            },
        }
    }
}

impl From<Result<TitlePart, Refusal>> for TitleAnswer {
    ghost from_gives = { λ answer told. told ≡ title_answer answer };

    fn from(answer: Result<TitlePart, Refusal>) -> TitleAnswer {
        match answer {
            Ok(part) => TitleAnswer {
                number: 0,
                place: part.place,
                length: part.length,
            },
            Err(refusal) => TitleAnswer {
                number: refusal.number(),
                ..TitleAnswer::default()
            },
        }
    }
}

// `working::work`.
#[unsafe(no_mangle)]
pub extern "C" fn segment_work(
    bytes: &[u8],
    output: &mut [u32],
    first: &mut [u32],
    second: &mut [u32],
) -> WorkAnswer
    ensures { SegmentWorks bytes.now (lent output.old first.old second.old)
        result (lent output.new first.new second.new) }
{
    let mut profiles = LentProfiles {
        output,
        first,
        second,
    };
    working::work(bytes, &mut profiles).into()
}

// `point_working::work_points`; the points pass by value.
#[unsafe(no_mangle)]
pub extern "C" fn segment_work_points(
    bytes: &[u8],
    points: Points,
    output: &mut [u32],
    passing: &mut [u32],
    first: &mut [u32],
    second: &mut [u32],
) -> PointWorkAnswer
    ensures { SegmentPointWorks bytes.now points (lent output.old first.old second.old) passing.old
        result (lent output.new first.new second.new) passing.new }
{
    // The point profiles pass beside the struct: a working without points has none.
    let mut profiles = LentProfiles {
        output,
        first,
        second,
    };
    point_working::work_points(bytes, points, &mut profiles, passing).into()
}

// `sheet::sheet`: 21 where the page buffer is under 4380 bytes.
#[unsafe(no_mangle)]
pub extern "C" fn segment_sheet(
    bytes: &[u8],
    page: &mut [u8],
    output: &mut [u32],
    first: &mut [u32],
    second: &mut [u32],
) -> WorkAnswer
    ensures { SegmentSheets bytes.now (lent output.old first.old second.old) page.old
        result (lent output.new first.new second.new) page.new }
{
    let mut profiles = LentProfiles {
        output,
        first,
        second,
    };
    sheet::sheet(bytes, page, &mut profiles).into()
}

// `discharge::discharge`.
#[unsafe(no_mangle)]
pub extern "C" fn segment_discharge(bytes: &[u8], profile: &mut [u32]) -> VolumesAnswer
    ensures { SegmentDischarges bytes.now profile.old result profile.new }
{
    discharge::discharge(bytes, profile).into()
}

// `archive_read::count`.
#[unsafe(no_mangle)]
pub extern "C" fn archive_count(archive: &[u8]) -> ValueAnswer
    ensures { result ≡ value_answer (count_of first_edition archive.now) }
{
    archive_read::count(archive).into()
}

// `archive_read::place`, the index from 0.
#[unsafe(no_mangle)]
pub extern "C" fn archive_place(archive: &[u8], i: usize) -> ValueAnswer
    ensures { result ≡ value_answer (place_of first_edition archive.now i) }
{
    archive_read::place(archive, i).into()
}

// `archive_read::find`.
#[unsafe(no_mangle)]
pub extern "C" fn archive_find(archive: &[u8], number: u32) -> ValueAnswer
    ensures { result ≡ value_answer (find_of first_edition archive.now number) }
{
    archive_read::find(archive, number).into()
}

// `archive_read::title_part`; no reference is handed to C.
#[unsafe(no_mangle)]
pub extern "C" fn archive_title(archive: &[u8], number: u32) -> TitleAnswer
    ensures { result ≡ title_answer (title_part_of first_edition archive.now number) }
{
    archive_read::title_part(archive, number).into()
}

// `archive_add::add`.
#[unsafe(no_mangle)]
pub extern "C" fn archive_add(
    archive: &[u8],
    bytes: &[u8],
    title: &[u8],
    buffer: &mut [u8],
) -> ValueAnswer
    ensures { ArchiveWrites (add_of first_edition archive.now bytes.now title.now (length buffer.old))
        buffer.old result buffer.new }
{
    archive_add::add(archive, bytes, title, buffer).into()
}

// `report::report`: 17 where the buffer is under 262144 bytes.
#[unsafe(no_mangle)]
pub extern "C" fn archive_report(archive: &[u8], text: &mut [u8]) -> ValueAnswer
    ensures { ArchiveWrites (report_of archive.now (length text.old)) text.old result text.new }
{
    report::report(archive, text).into()
}

// `report::sheets`: 17 where the buffer is under 2242560 bytes.
#[unsafe(no_mangle)]
pub extern "C" fn archive_sheets(archive: &[u8], text: &mut [u8]) -> ValueAnswer
    ensures { ArchiveWrites (sheets_of archive.now (length text.old)) text.old result text.new }
{
    report::sheets(archive, text).into()
}
