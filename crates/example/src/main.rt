// The README's examples, run: a record is tested, filed with a title, found again, printed and worked.
#![tactic(auto)]

ghost use Rattle.std.specs.Prelude.{IfOk};

use archive_format::TitlePart;
use balance_decision::Unworked;
use points::{Point, Points};
use propagation::LongestProfiles;
use refusal::Refusal;
use std::io;

// The paper's record 1: cycle 60, running time 40000 ms, headway 4100 ms, 360 veh/h in by access and out through.
fn record() -> [u8; 68] {
    let mut r = [0u8; 68];
    r[0] = 1;
    r[4] = 60;
    r[6] = 64;
    r[7] = 156;
    r[10] = 4;
    r[11] = 16;
    r[36] = 104;
    r[37] = 1;
    r[40] = 104;
    r[41] = 1;
    r[49] = 30;
    r
}

// The same street with 900 veh/h on the through entry, half of them in its green of 30 steps.
fn busy() -> [u8; 68] {
    let mut r = record();
    r[20] = 132;
    r[21] = 3;
    r[22] = 8;
    r[23] = 7;
    r[25] = 30;
    r[26] = 244;
    r[27] = 1;
    r
}

// A cycle of 70: of the 900 veh/h its green of 31 steps serves 797.142, the paper's capacity.
fn metered() -> [u8; 68] {
    let mut r = busy();
    r[4] = 70;
    r[25] = 31;
    r
}

fn say(rt: &impl Print, label: &str, n: u64) -> io::Result<()> {
    println!(rt; "{label} {n}")
}

// Says something of what was answered, or the number of what refused it.
fn tell<T, E: Into<Unworked>, F: FnOnce(T) -> io::Result<()>>(
    rt: &impl Print,
    answer: Result<T, E>,
    of: F,
) -> io::Result<()>
    requires { IfOk answer (F.pre of) }
{
    match answer {
        Ok(x) => of(x),
        Err(why) => {
            let unworked: Unworked = why.into();
            say(rt, "refused", u64::from(unworked.number()))
        }
    }
}

fn tell_number(rt: &impl Print, label: &str, answer: Result<usize, Refusal>) -> io::Result<()> {
    tell(rt, answer, |n| say(rt, label, n as u64))
}

fn tell_part(rt: &impl Print, part: TitlePart) -> io::Result<()> {
    say(rt, "title at", part.place as u64)?;
    say(rt, "title of", part.length as u64)
}

fn read(rt: &impl Print, archive: &[u8]) -> io::Result<()> {
    let count = archive_read::count(archive);
    let place = archive_read::place(archive, 0);
    let found = archive_read::find(archive, 1);
    let part = archive_read::title_part(archive, 1);
    let title = archive_read::title(archive, 1);
    tell_number(rt, "records", count)?;
    tell_number(rt, "place of the first:", place)?;
    tell_number(rt, "place of record 1:", found)?;
    tell(rt, part, |part| tell_part(rt, part))?;
    rt.write_all(title)?;
    rt.write_all(b"\n")
}

// The text of an archive, or the refusal of a buffer that is too short for every text.
fn print(rt: &impl Print, archive: &[u8], text: &mut [u8]) -> io::Result<()> {
    let answer = report::report(archive, text);
    // A match: through `tell` the proof that the length lies within the buffer did not close.
    match answer {
        Ok(n) => rt.write_all(&text[..n]),
        Err(refusal) => say(rt, "refused", u64::from(refusal.number())),
    }
}

fn file(rt: &impl Print, record: &[u8]) -> io::Result<()> {
    let archive = archive_format::empty();
    let mut bigger = [0u8; 128];
    let added = archive_add::add(&archive, record, b"Elm Street", &mut bigger);
    tell_number(rt, "new length", added)?;
    read(rt, &bigger[0..87])?;
    let mut short = [0u8; 512];
    print(rt, &bigger[0..87], &mut short)?;
    let mut text = [0u8; report::TEXT_ROOM];
    print(rt, &bigger[0..87], &mut text)
}

fn check(rt: &impl Print, record: &[u8]) -> io::Result<()> {
    let answer = validation::check(record);
    tell(
        rt,
        answer,
        |accepted| say(rt, "cycle", u64::from(accepted.segment.cycle)),
    )
}

fn discharge_of(rt: &impl Print, record: &[u8]) -> io::Result<()> {
    let mut profile = [0u32; limits::DISCHARGE_ROOM];
    let answer = discharge::discharge(record, &mut profile);
    tell(
        rt,
        answer,
        |o| say(
            rt,
            "through discharges, in thousandths of veh/h:",
            u64::from(o.through),
        ),
    )
}

fn work(rt: &impl Print, record: &[u8]) -> io::Result<()> {
    let mut longest = LongestProfiles::new();
    let mut profiles = longest.lend();
    let answer = working::work(record, &mut profiles);
    tell(
        rt,
        answer,
        |w| say(rt, "permille on green", u64::from(w.through.permille)),
    )
}

// The first ten lines of a sheet.
fn print_sheet(rt: &impl Print, record: &[u8]) -> io::Result<()> {
    let mut page = [0u8; page::PAGE_ROOM];
    let mut longest = LongestProfiles::new();
    let mut profiles = longest.lend();
    let answer = sheet::sheet(record, &mut page, &mut profiles);
    tell(rt, answer, |_| rt.write_all(&page[..730]))
}

// 10 and 25 seconds from the upstream signal; places beyond the count are not looked at.
fn two_points() -> Points {
    let mut at = [Point {
        running: 0,
        headway: 0,
    }; points::POINT_ROOM];
    at[0] = Point {
        running: 10000,
        headway: 4100,
    };
    at[1] = Point {
        running: 25000,
        headway: 4100,
    };
    Points { count: 2, at }
}

fn tell_blocked(rt: &impl Print, blocked: [u32; points::POINT_ROOM]) -> io::Result<()> {
    say(rt, "blocked at the first point", u64::from(blocked[0]))?;
    say(rt, "blocked at the second", u64::from(blocked[1]))
}

fn work_points(rt: &impl Print, record: &[u8]) -> io::Result<()> {
    let mut longest = LongestProfiles::new();
    let mut profiles = longest.lend();
    let mut passing = [0u32; 2 * limits::CYCLE_ROOM];
    let answer = point_working::work_points(record, two_points(), &mut profiles, &mut passing);
    tell(rt, answer, |w| tell_blocked(rt, w.blocked))
}

fn main(rt: HostRuntime) -> io::Result<()> {
    let r = record();
    check(&rt, &r)?;
    file(&rt, &r)?;
    discharge_of(&rt, &metered())?;
    work(&rt, &r)?;
    print_sheet(&rt, &r)?;
    let b = busy();
    work_points(&rt, &b)
}
