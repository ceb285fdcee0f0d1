// The point at a fraction of a line's length: document 01's interpolation, for every input.
// Undecided in its contracts is only the payload, sign included, of a NaN in the workspace; output bytes are
// wholly decided.
#![tactic(auto)]

ghost use Rattle.std.specs.Prelude.{◌≡◌, ◌<◌, length, Some};
ghost use Rattle.outcomes.specs.Lent.{lent_one, left_one};
ghost use Rattle.outcomes.specs.Operations.{outcome};
ghost use Rattle.interpolation.specs.Interpolation.{segment, segments_of, length_of};
ghost use Rattle.interpolation.specs.Interpolation.{parameter_of, point_on, interpolated_point};
ghost use Rattle.refusals.specs.Checks.{first_of, refused_or};
ghost use Rattle.blob.specs.Inner.{operand_of};
ghost use Rattle.interpolation.specs.Operation.{out_of_range, interpolation_checks};
ghost use Rattle.interpolation.specs.Operation.{interpolated_report, line_interpolate_point};
ghost use Rattle.interpolation.specs.Inner.{no_line_by, measuring, measured_of, stop_of, ReadyToMeasure, PointRead};

use blob::{Lent, Operand};
use gpb::POINT_BYTES;
use parts::{Class, Stored};
use primitives::Point;
use refusals::{Reason, Refusal, Side};
use workspace::{FLOATS_PER_COORDINATE, NUMBERS_PER_RUN};

// The first segment's start, and the lengths added so far.
#[derive(Clone, Copy)]
struct Measured {
    pub start: Point,
    pub total: f64,
}

// A segment, and what is walked before it.
#[derive(Clone, Copy)]
struct Stop {
    pub walked: f64,
    pub start: Point,
    pub end: Point,
}

// Whether a fraction is not within 0..1; a NaN is not.
fn out_of_range(fraction: f64) -> bool
    ensures { result ≡ out_of_range fraction }
{
    !(0.0 <= fraction && fraction <= 1.0)
}

// 14: a point or face, or no segment. Runs of one coordinate each have no segment.
fn is_no_line(o: Operand) -> bool
    ensures { result ≡ no_line_by o.coords o.runs o.others }
{
    o.coords == o.runs || 0 < o.others
}

// Every check in order; the output is its length.
#[tactic(auto, using(crate::proofs::Order::checked))]
fn check(s: &[u8], fraction: f64, lent: Lent, output: usize) -> Result<Operand, Refusal>
    ensures { result ≡ refused_or
        (first_of (interpolation_checks s.now fraction lent.floats lent.numbers output))
        (operand_of s.now) }
{
    if out_of_range(fraction) {
        return Err(Reason::FractionOutOfRange.of(Side::Neither));
    }
    let top = blob::read_header(s, Side::First)?;
    let o = blob::read_walk(s, top, Side::First)?;
    if is_no_line(o) {
        return Err(Reason::NoLine.of(Side::First));
    }
    blob::check_room(o, lent, Side::First)?;
    if output < POINT_BYTES {
        return Err(Reason::OutputTooShort.of(Side::Neither));
    }
    Ok(o)
}

// The length of the segment from a to b.
#[tactic(auto, unfolding(crate::specs::Interpolation::length_of))]
fn segment_length(a: Point, b: Point) -> f64
    ensures { result ≡ length_of (segment a b) }
{
    (b - a).norm()
}

// One more segment measured.
#[tactic(auto, unfolding(crate::specs::Inner::measuring, crate::specs::Interpolation::with_length))]
fn measure(before: Option<Measured>, a: Point, b: Point) -> Measured
    ensures { Some result ≡ measuring before (segment a b) }
{
    let m = before.unwrap_or(Measured {
        start: a,
        total: 0.0,
    });
    Measured {
        start: m.start,
        total: m.total + segment_length(a, b),
    }
}

// All segments of a workspace measured, in order; nothing where there is none.
#[tactic(auto, using(crate::proofs::Turns::measures), unfolding(crate::specs::Inner::measured_of))]
fn measure_all(line: &Stored<'_>) -> Option<Measured>
    ensures { result ≡ measured_of (segments_of line.now) }
{
    let mut measured = None;
    for run in line.runs() {
        if run.is_of(Class::Lines) {
            for (a, b) in run.points.segments() {
                measured = Some(measure(measured, a, b));
            }
        }
    }
    measured
}

// The segment where a length is reached: at the last by position, if at none before; nothing where there is no segment.
#[tactic(auto, using(crate::proofs::Turns::stops), unfolding(crate::specs::Interpolation::with_length))]
fn search_all(target: f64, line: &Stored<'_>) -> Option<Stop>
    ensures { result ≡ stop_of target (segments_of line.now) }
{
    let mut last = None;
    let mut reached = 0.0;
    for run in line.runs() {
        if run.is_of(Class::Lines) {
            for (start, end) in run.points.segments() {
                let here = Stop {
                    walked: reached,
                    start,
                    end,
                };
                reached += segment_length(start, end);
                if reached >= target {
                    return Some(here);
                }
                last = Some(here);
            }
        }
    }
    last
}

// The parameter of a point on a segment: how far along it is, as a part of the length.
fn parameter(rest: f64, whole: f64) -> f64
    ensures { result ≡ parameter_of rest whole }
{
    if whole == 0.0 {
        0.0
    } else {
        ieee754::clamp(rest / whole)
    }
}

// The point on the segment where the search stopped.
fn point_on(target: f64, walked: f64, a: Point, b: Point) -> Point
    ensures { result ≡ point_on target walked (segment a b) }
{
    a.interpolated(b, parameter(target - walked, segment_length(a, b)))
}

// The point at a fraction of the total length of a workspace's segments.
#[tactic(auto, using(crate::proofs::Passes::measured_some, crate::proofs::Passes::stop_some))]
fn point_along(fraction: f64, line: &Stored<'_>) -> Point
    requires { 0 < length (segments_of line.now) }
    ensures { interpolated_point fraction (segments_of line.now) ≡ Some result }
{
    let m = measure_all(line).unwrap();
    if m.total == 0.0 {
        return m.start;
    }
    let target = fraction * m.total;
    let stop = search_all(target, line).unwrap();
    point_on(target, stop.walked, stop.start, stop.end)
}

// The point of an accepted blob, once it is read into lent memory.
fn read_point(
    s: &[u8],
    fraction: f64,
    at: usize,
    coords: usize,
    runs: usize,
    floats: &mut [f64],
    table: &mut [u32],
) -> Point
    requires { ReadyToMeasure s.now at coords runs (length floats.old) (length table.old) }
    ensures { PointRead s.now fraction
        floats.old table.old floats.new table.new result }
{
    workspace::fill(s, at, floats, table);
    let ordinates = FLOATS_PER_COORDINATE * coords;
    let numbers = NUMBERS_PER_RUN * runs;
    let line = Stored::new(&floats[..ordinates], &table[..numbers]);
    point_along(fraction, &line)
}

// The point at a fraction of the length of a line, or of a collection's lines one after the other.
pub fn st_3d_line_interpolate_point(
    s: &[u8],
    fraction: f64,
    floats: &mut [f64],
    table: &mut [u32],
    output: &mut [u8],
) -> Result<(), Refusal>
    ensures whole_outcome { outcome (interpolated_report result) (left_one floats table) output.new
        ≡ line_interpolate_point s.now fraction (lent_one floats table) output.old }
{
    let lent = Lent {
        floats: floats.len(),
        numbers: table.len(),
    };
    let o = check(s, fraction, lent, output.len())?;
    let p = read_point(s, fraction, o.at, o.coords, o.runs, floats, table);
    gpb::write_point(output, o.srid, p);
    Ok(())
}
