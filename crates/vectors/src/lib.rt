// Support of the test programs: cases of a vector file from standard input, and what is said of them. docs/VECTORS.md has the format.
#![tactic(auto)]

ghost use Rattle.std.specs.Prelude.{◌≡◌, false, ◌+◌, ◌-◌, ◌*◌, ◌≤◌, ◌<◌, ◌^◌, length, take, drop, IfOk, IfSome, OnOk, MatchOption};
ghost use Rattle.std.specs.Io.KnownBytes.{Appends};
ghost use Rattle.octets.specs.Octets.{word2, word4};
ghost use Rattle.buffer.specs.Buffer.{WroteAt, next_place};
ghost use Rattle.propagation.specs.Propagation.{Same, held};
ghost use Rattle.vectors.specs.Vectors.{Adds, AsLong, Compared, IsRecordAndRest, Lendable, Patterned, Told, byte_pattern, closing_line, float_differs};
ghost use Rattle.vectors.specs.Vectors.{pattern, profile_differs, profiles_differ, rows_differ, within, words_differ};

use buffer::Writer;
use propagation::LentProfiles;
use std::io;
use std::io::{Read, Write};
use std::num::f64_to_bits_with_nan;

// Each lent profile holds the numbers from its own on.
pub const OUTPUT_FROM: u32 = 3000000000;

pub const FIRST_FROM: u32 = 3100000000;

pub const SECOND_FROM: u32 = 3200000000;

pub const PASSING_FROM: u32 = 3300000000;

// The longest profile that a case of any program lends.
pub const ROOM: usize = 2000;

// A buffer that holds every closing line.
const LINE_ROOM: usize = 64;

// The next four bytes of the input, to the front of a lent buffer, as a number.
pub fn read_word<R: Read>(input: &mut R, word: &mut [u8]) -> io::Result<u32>
    requires { 4 ≤ length word.old }
    ensures { IfOk result (λ n. n ≡ word4 word.new 0) }
{
    reading::read_full(input, &mut word[0..4])?;
    Ok(octets::word4_at(&word[..], 0))
}

// The length of the next case's body, read to the front of a buffer; none where it does not fit, or the input ends before. What is read
// no contract can say.
pub fn read_case<R: Read>(input: &mut R, body: &mut [u8]) -> io::Result<Option<usize>>
    ensures { IfOk result (λ n. IfSome n (λ n. n ≤ length body.new)) }
{
    let mut word = [0u8; 4];
    let n = read_word(input, &mut word)? as usize;
    if body.len() < n {
        return Ok(None);
    }
    let got = reading::read_full(input, &mut body[..n])?;
    Ok((got == n).then_some(n))
}

// Says that a case differs, and returns one more than the number that did before.
pub fn differing<W: Write>(output: &mut W, i: u32, before: u32) -> io::Result<u32>
    requires { before < 2 ^ 32 - 1 }
    ensures counted { IfOk result (λ n. n ≡ before + 1) }
    ensures said { OnOk result (Adds (W.contents output.old) (W.contents output.new)) }
{
    writeln!(output, "case {i} differs")?;
    Ok(before + 1)
}

// How many cases there were and how many of them differ, to the front of a lent buffer; the length is handed back.
#[tactic(auto, using(buffer::proofs::Pieces::put_append), unfolding(crate::specs::Vectors::closing_line))]
fn closing_line(line: &mut [u8], cases: u32, differing: u32) -> usize
    ensures { WroteAt line.old 0 (closing_line cases differing) line.new result }
{
    // A literal: it shows the place 0 that the contract names, where a constructor hides it.
    let mut line = Writer { bytes: line, at: 0 };
    text::append_decimal(&mut line, u64::from(cases));
    text::append_field(&mut line, b" cases, ", u64::from(differing));
    line.put(b" differs\n");
    line.at
}

// Writes the closing line, and leaves it in the lent buffer.
pub fn finish<W: Write>(
    output: &mut W,
    line: &mut [u8],
    cases: u32,
    differing: u32,
) -> io::Result<usize>
    ensures filled { WroteAt line.old 0 (closing_line cases differing) line.new (next_place line.old 0 (closing_line cases differing)) }
    ensures held { IfOk result (λ n. WroteAt line.old 0 (closing_line cases differing) line.new n) }
    ensures written { IfOk result (λ n. Appends (W.contents output.old) (W.contents output.new) (take n line.new)) }
{
    let n = closing_line(line, cases, differing);
    output.write_all(&line[..n])?;
    Ok(n)
}

// Runs the cases of a vector file, each read into a lent buffer: says which differ, and closes with how many did. One that is not read
// whole differs.
// The `main` of each test program is this call with a buffer and a comparison of its own: it holds the handle, so it stays.
pub fn run<R: Read, W: Write, F: Fn(&[u8]) -> bool>(
    input: &mut R,
    output: &mut W,
    body: &mut [u8],
    differs: F,
) -> io::Result<()>
    requires { F.IsAlwaysCallable differs }
    ensures { OnOk result (Told (W.contents output.old) (W.contents output.new)) }
{
    let mut word = [0u8; 4];
    let cases = read_word(input, &mut word)?;
    let mut count = 0;
    for i in 0..cases {
        if read_case(input, body)?.is_none_or(|n| differs(&body[..n])) {
            count = differing(output, i, count)?;
        }
    }
    let mut line = [0u8; LINE_ROOM];
    finish(output, &mut line, cases, count)?;
    Ok(())
}

// The record of a body, behind its length, and what follows it; none where the body ends before.
pub fn record_of(body: &[u8]) -> Option<(&[u8], &[u8])>
    ensures { MatchOption result (length body.now < 2 + word2 body.now 0) (λ p. IsRecordAndRest body.now p.0.now p.1.now) }
{
    if body.len() < 2 {
        return None;
    }
    body[2..].split_at_checked(octets::word2_at(body, 0) as usize)
}

// The same for bodies that begin with a record behind its length. The comparison says whether what follows differs, or none where it ends
// before all that it must hold: that differs too, and so does a body that ends within its record.
pub fn run_records<R: Read, W: Write, F: Fn(&[u8], &[u8]) -> Option<bool>>(
    input: &mut R,
    output: &mut W,
    body: &mut [u8],
    differs: F,
) -> io::Result<()>
    requires { F.IsAlwaysCallable differs }
    ensures { OnOk result (Told (W.contents output.old) (W.contents output.new)) }
{
    run(input, output, body, |body| {
        record_of(body)
            .and_then(|(record, rest)| differs(record, rest))
            .unwrap_or(true)
    })
}

// A profile as it is lent: place i holds first + i.
pub fn fill_pattern(run: &mut [u32], first: u32)
    requires { first + length run.old ≤ 2 ^ 32 }
    ensures { run.new ≡ pattern first (length run.old) }
{
    for (i, x) in run.iter_mut().enumerate() {
        // `as`: a number of 32 bits, which is known, and of 8 in `fill_bytes`; `try_from` would have a case that cannot be.
        *x = first + i as u32;
    }
}

// A buffer as it is lent: place i holds i mod 251.
pub fn fill_bytes(buffer: &mut [u8])
    ensures { buffer.new ≡ byte_pattern (length buffer.old) }
{
    for (i, x) in buffer.iter_mut().enumerate() {
        *x = (i % 251) as u8;
    }
}

// Whether some number of a run differs from the one expected, four bytes each from a place on.
pub fn numbers_differ(expected: &[u8], at: usize, run: &[u32]) -> bool
    requires { at + 4 * length run.now ≤ length expected.now }
    ensures { result ≡ words_differ expected.now at run.now }
{
    run.iter()
        .enumerate()
        .any(|(i, x)| octets::word4_at(expected, at + 4 * i) != *x)
}

// Whether a profile differs from the numbers in front; too few differ.
#[tactic(auto, unfolding(crate::specs::Vectors::profile_differs))]
pub fn profile_differs(expected: &[u8], run: &[u32]) -> bool
    ensures { result ≡ profile_differs expected.now run.now }
{
    expected.len() / 4 < run.len() || numbers_differ(expected, 0, run)
}

// What stands after so many numbers.
pub fn after<'a>(expected: &'a [u8], n: usize) -> &'a [u8]
    ensures { result.now ≡ drop (4 * n) expected.now }
{
    expected.get(n.saturating_mul(4)..).unwrap_or(&[])
}

// The profiles that a call is lent get their patterns; no point profiles where it has no points.
pub fn fill_profiles(profiles: &mut LentProfiles, passing: &mut [u32])
    requires { Lendable (held profiles.old) passing.old }
    ensures same { Same profiles.old profiles.new }
    ensures filled { Patterned (held profiles.old) passing.old (held profiles.new) passing.new }
{
    fill_pattern(profiles.output, OUTPUT_FROM);
    fill_pattern(passing, PASSING_FROM);
    fill_pattern(profiles.first, FIRST_FROM);
    fill_pattern(profiles.second, SECOND_FROM);
}

// Whether a number of theirs differs from those expected: the output's, then the points', then the two work profiles'.
#[tactic(auto, unfolding(crate::specs::Vectors::profiles_differ))]
pub fn profiles_differ(profiles: &LentProfiles, passing: &[u32], expected: &[u8]) -> bool
    ensures { result ≡ profiles_differ expected.now (held profiles.now) passing.now }
{
    let points = after(expected, profiles.output.len());
    let first = after(points, passing.len());
    let second = after(first, profiles.first.len());
    profile_differs(expected, profiles.output)
        | profile_differs(points, passing)
        | profile_differs(first, profiles.first)
        | profile_differs(second, profiles.second)
}

// The lengths of the profiles that a case lends; one that it does not lend has the length 0.
#[derive(Clone, Copy, Default)]
pub struct Lengths {
    pub output: u32,
    pub passing: u32,
    pub first: u32,
    pub second: u32,
}

impl Lengths {
    // Whether none is longer than the longest of its kind that a test program lends.
    #[tactic(auto, unfolding(crate::specs::Vectors::within))]
    pub fn within(self, most: Lengths) -> bool
        ensures { result ≡ within self most }
    {
        (self.output <= most.output)
            & (self.passing <= most.passing)
            & (self.first <= most.first)
            & (self.second <= most.second)
    }
}

// Makes a call on profiles of these lengths that hold their patterns: whether it says that its answer differs, or their numbers after it
// are not those expected, which stand one profile after another. A profile longer than the longest differs, and so does another count.
pub fn lent_differ<F: FnOnce(&mut LentProfiles, &mut [u32]) -> bool>(
    lengths: Lengths,
    expected: &[u8],
    differs: F,
) -> bool
    requires { F.IsAlwaysCallable differs }
    ensures lendable { result ≡ false → AsLong lengths expected.now }
    ensures compared { AsLong lengths expected.now → Compared (F.post differs) lengths expected.now result }
{
    let o = lengths.output as usize;
    let q = lengths.passing as usize;
    let f = lengths.first as usize;
    let s = lengths.second as usize;
    if ROOM < o || ROOM < q || ROOM < f || ROOM < s || expected.len() != 4 * (o + q + f + s) {
        return true;
    }
    let mut output = [0u32; ROOM];
    let mut passing = [0u32; ROOM];
    let mut first = [0u32; ROOM];
    let mut second = [0u32; ROOM];
    let passing = &mut passing[..q];
    let mut profiles = LentProfiles {
        output: &mut output[..o],
        first: &mut first[..f],
        second: &mut second[..s],
    };
    fill_profiles(&mut profiles, passing);
    differs(&mut profiles, passing) | profiles_differ(&profiles, passing, expected)
}

// Whether some of the sixteen pair flows differs, in rows from a place on: one line over the numbers, with a definition of its own.
pub fn rows_differ(expected: &[u8], at: usize, rows: [[u32; 4]; 4]) -> bool
    requires { at + 64 ≤ length expected.now }
    ensures { result ≡ rows_differ expected.now at rows }
{
    numbers_differ(expected, at, rows.as_flattened())
}

// Whether a float differs from the bits expected; every NaN has one pattern.
#[tactic(auto, unfolding(crate::specs::Vectors::float_differs))]
pub fn float_differs(expected: &[u8], at: usize, x: f64) -> bool
    requires { at + 8 ≤ length expected.now }
    ensures { result ≡ float_differs expected.now at x }
{
    octets::word8_at(expected, at) != f64_to_bits_with_nan(x)
}
