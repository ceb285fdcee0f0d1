// The filling pass of the walk: ordinates and runs into lent memory, once the checking pass has refused nothing.
// Undecided in its contracts is only the payload, sign included, of a NaN in the floats.
#![tactic(auto)]

ghost use Rattle.std.specs.Prelude.{◌≡◌, ◌+◌, ◌*◌, ◌≤◌, true, length};
ghost use Rattle.std.proofs.lemmas.List.Edits.{sets};
ghost use Rattle.std.specs.Float.{binary64};
ghost use Rattle.std.specs.Float.Ieee.{of_bits};
ghost use Rattle.coords.specs.Walk.{stride, stride_of, ordinate_if, m_offset};
ghost use Rattle.coords.specs.Walk.{coordinate_at, coordinates_from, all_levels, walk_of};
ghost use Rattle.coords.specs.Parts.{walked_runs};
ghost use Rattle.coords.specs.Inner.{coordinates_runs, line_runs, rings_at_runs, members_at_runs, walk_runs};
ghost use Rattle.workspace.specs.Workspace.{floats_per_coordinate, coordinate_floats, coordinates_floats};
ghost use Rattle.workspace.specs.Workspace.{too_small_for, Room, RunsWritten};
ghost use Rattle.workspace.specs.Inner.{ReadyToFill, Filled};

use coords::{GeometryClass, WkbHeader};
use fields::{f64_at, u32_at};

// The floats of a coordinate: x, y, z, m.
pub const FLOATS_PER_COORDINATE: usize = 4;

// The numbers of a run.
pub const NUMBERS_PER_RUN: usize = 2;

// Coordinates and runs that are written, and the next position of the walk.
#[derive(Clone, Copy)]
struct Progress {
    pub coords: usize,
    pub runs: usize,
    pub next: usize,
}

// An ordinate that may be missing: 0 then.
#[tactic(auto, unfolding(coords::specs::Walk::ordinate_if, fields::specs::Fields::f64_at))]
fn ordinate_if(s: &[u8], there: bool, little: bool, at: usize) -> f64
    requires { there ≡ true → at + 8 ≤ length s.now }
    ensures { result ≡ of_bits binary64 (ordinate_if there little s.now at) }
{
    if there { f64_at(s, at, little) } else { 0.0 }
}

// How far the m of a coordinate lies from its start: after z where there is z.
#[tactic(auto, unfolding(coords::specs::Walk::m_offset))]
fn m_offset(z: bool) -> usize
    ensures { result ≡ m_offset z }
{
    if z { 24 } else { 16 }
}

// The coordinate at a position, as the i-th.
#[tactic(auto, using(crate::proofs::Laws::ordinates), unfolding(crate::specs::Workspace::coordinate_floats, coords::specs::Walk::coordinate_at, fields::specs::Fields::f64_at))]
fn put_coordinate(s: &[u8], h: WkbHeader, at: usize, floats: &mut [f64], i: usize)
    requires h_in_bounds { at + stride h ≤ length s.now }
    requires i_in_bounds { floats_per_coordinate * (i + 1) ≤ length floats.old }
    ensures { floats.new ≡ sets floats.old (floats_per_coordinate * i) (coordinate_floats (coordinate_at h s.now at)) }
{
    let k = FLOATS_PER_COORDINATE * i;
    floats[k] = f64_at(s, at, h.little);
    floats[k + 1] = f64_at(s, at + 8, h.little);
    floats[k + 2] = ordinate_if(s, h.z, h.little, at + 16);
    floats[k + 3] = ordinate_if(s, h.m, h.little, at + m_offset(h.z));
}

// n coordinates from a position on, as the i-th and on. By index: of a loop over `chunks_exact_mut` the library does
// not say what it leaves in the slice, and one that splits off the rest forgets what it wrote in the turns before.
#[inline(always)]
#[tactic(auto, using(crate::proofs::Laws::rows))]
fn put_coordinates(s: &[u8], h: WkbHeader, n: usize, at: usize, floats: &mut [f64], i: usize)
    requires h_in_bounds { at + n * stride h ≤ length s.now }
    requires n_in_bounds { floats_per_coordinate * (i + n) ≤ length floats.old }
    ensures { floats.new ≡ sets floats.old (floats_per_coordinate * i)
        (coordinates_floats (coordinates_from h s.now n at)) }
{
    let stride = coords::stride_of(h.z, h.m);
    for j in 0..n {
        put_coordinate(s, h, at + j * stride, floats, i + j);
    }
}

// A run of n coordinates. Floats and table stay two parameters: a struct of both, lent on, is built anew in each turn
// of a loop. In line, as the coordinates above, since a multipoint has a run for each point: then neither a call nor a
// loop stands beside its one coordinate.
#[inline(always)]
#[tactic(auto, using(crate::proofs::Runs::fills_run))]
fn fill_run(
    s: &[u8],
    h: WkbHeader,
    n: u32,
    p: Progress,
    floats: &mut [f64],
    table: &mut [u32],
) -> Progress
    requires { ReadyToFill (coordinates_runs h s.now n p.next) p (length floats.old) (length table.old) }
    ensures { Filled (coordinates_runs h s.now n p.next) p floats.old table.old floats.new table.new result }
{
    let count = n as usize;
    if count == 0 {
        return p;
    }
    put_coordinates(s, h, count, p.next, floats, p.coords);
    let k = NUMBERS_PER_RUN * p.runs;
    table[k] = h.kind;
    table[k + 1] = n;
    Progress {
        coords: p.coords + count,
        runs: p.runs + 1,
        next: p.next + count * coords::stride_of(h.z, h.m),
    }
}

// A count, and as many coordinates.
#[tactic(auto, using(crate::proofs::Runs::fills_line))]
fn fill_line(s: &[u8], h: WkbHeader, p: Progress, floats: &mut [f64], table: &mut [u32]) -> Progress
    requires { ReadyToFill (line_runs h s.now p.next) p (length floats.old) (length table.old) }
    ensures { Filled (line_runs h s.now p.next) p floats.old table.old floats.new table.new result }
{
    let n = u32_at(s, p.next, h.little);
    let first = Progress {
        next: p.next + 4,
        ..p
    };
    fill_run(s, h, n, first, floats, table)
}

// A count of rings, and as many rings.
#[tactic(auto, using(crate::proofs::Turns::rings_inside))]
fn fill_rings(
    s: &[u8],
    h: WkbHeader,
    p: Progress,
    floats: &mut [f64],
    table: &mut [u32],
) -> Progress
    requires { ReadyToFill (rings_at_runs h s.now p.next) p (length floats.old) (length table.old) }
    ensures { Filled (rings_at_runs h s.now p.next) p floats.old table.old floats.new table.new result }
{
    let n = u32_at(s, p.next, h.little);
    let mut place = Progress {
        next: p.next + 4,
        ..p
    };
    for _ in 0..n {
        place = fill_line(s, h, place, floats, table);
    }
    place
}

// A count of members, and as many geometries, with so many levels left. A loop of its own beside that of the rings, not
// one over a closure: the geometry reader calls the reader of member lists, and that one calls it (document 01).
#[cycle(fill_geometry_fill_members)]
#[tactic(auto, using(crate::proofs::Turns::members_inside))]
fn fill_members(
    s: &[u8],
    little: bool,
    p: Progress,
    levels: usize,
    floats: &mut [f64],
    table: &mut [u32],
) -> Progress
    requires { ReadyToFill (members_at_runs levels little s.now p.next) p (length floats.old) (length table.old) }
    ensures { Filled (members_at_runs levels little s.now p.next) p floats.old table.old floats.new table.new result }
{
    let n = u32_at(s, p.next, little);
    let mut place = Progress {
        next: p.next + 4,
        ..p
    };
    for _ in 0..n {
        place = fill_geometry(s, place, levels, floats, table);
    }
    place
}

// The geometry at the next position, with so many levels left: the checking pass has refused nothing of it.
#[cycle(fill_geometry_fill_members)]
#[tactic(auto, using(crate::proofs::Geometries::fills_content))]
fn fill_geometry(
    s: &[u8],
    p: Progress,
    levels: usize,
    floats: &mut [f64],
    table: &mut [u32],
) -> Progress
    requires { ReadyToFill (walk_runs levels s.now p.next) p (length floats.old) (length table.old) }
    ensures { Filled (walk_runs levels s.now p.next) p floats.old table.old floats.new table.new result }
{
    let h = coords::read_header(s, p.next).unwrap();
    let content = Progress { next: h.body, ..p };
    match GeometryClass::try_from(h.kind).unwrap() {
        GeometryClass::Point => fill_run(s, h, 1, content, floats, table),
        GeometryClass::Line => fill_line(s, h, content, floats, table),
        GeometryClass::Polygon => fill_rings(s, h, content, floats, table),
        GeometryClass::Collection => {
            fill_members(s, h.little, content, levels - 1, floats, table)
        }
    }
}

// Whether lent memory of these lengths is too small for so many coordinates and runs.
#[tactic(auto, using(crate::proofs::Laws::floats_short, crate::proofs::Laws::numbers_short))]
pub fn too_small(coords: usize, runs: usize, floats: usize, numbers: usize) -> bool
    ensures { result ≡ too_small_for coords runs floats numbers }
{
    floats / FLOATS_PER_COORDINATE < coords || numbers / NUMBERS_PER_RUN < runs
}

// The geometry at a position, as the top, into lent memory that has room for it.
#[tactic(auto, using(crate::proofs::Filled::room_is_ready))]
pub fn fill(s: &[u8], at: usize, floats: &mut [f64], table: &mut [u32])
    requires { Room (walk_of all_levels s.now at) (length floats.old) (length table.old) }
    ensures { RunsWritten (walked_runs (walk_of all_levels s.now at)) floats.old table.old floats.new table.new }
{
    let start = Progress {
        coords: 0,
        runs: 0,
        next: at,
    };
    fill_geometry(s, start, coords::ALL_LEVELS, floats, table);
}
