// The checking pass of the walk over a WKB geometry.
#![tactic(auto)]

ghost use Rattle.std.specs.Prelude.{◌≡◌, ◌+◌, ◌^◌, ◌<◌, ltb};
ghost use Rattle.std.specs.Option.{ok_or};
ghost use Rattle.refusals.specs.declared.Reason.TheVariants.{UnknownKind};
ghost use Rattle.coords.specs.Walk.{map_parsed, z_of, m_of, header_at, stride_of};
ghost use Rattle.coords.specs.Walk.{rings_at, geometry_class_of, all_levels, walk_of};
ghost use Rattle.coords.specs.Inner.{count_at, coordinates_runs, line_runs, members_at_runs};
ghost use Rattle.coords.specs.Parts.{rings_runs, other_if};
ghost use Rattle.coords.specs.Counts.{no_counts, joined, run_counts, counts_of};

use fields::{Flag, u32_at};
use refusals::Reason;

// What the header of a geometry says; its content starts at body.
#[derive(Clone, Copy, PartialEq, Eq, Debug)]
pub struct WkbHeader {
    pub little: bool,
    pub z: bool,
    pub m: bool,
    pub kind: u32,
    pub body: usize,
}

// What a geometry holds: one coordinate, a line's coordinates, rings of a polygon or triangle, other geometries.
#[derive(Clone, Copy, PartialEq, Eq, Debug)]
pub enum GeometryClass {
    Point,
    Line,
    Polygon,
    Collection,
}

// By the kind's number, in the match that the scope names (docs/SCOPE.md), though `fields::Kind` has the numbers too.
impl TryFrom<u32> for GeometryClass {
    type Error = Reason;

    ghost try_from_gives = { λ kind r. r ≡ ok_or (geometry_class_of kind) UnknownKind };

    #[tactic(auto, unfolding(crate::specs::Walk::geometry_class_of))]
    fn try_from(kind: u32) -> Result<GeometryClass, Reason> {
        match kind {
            1 => Ok(GeometryClass::Point),
            2 => Ok(GeometryClass::Line),
            3 | 17 => Ok(GeometryClass::Polygon),
            4..=7 | 15 | 16 => Ok(GeometryClass::Collection),
            _ => Err(Reason::UnknownKind),
        }
    }
}

// Coordinates, runs with at least one coordinate, those of them that are points or faces, and the position after what
// was read.
#[derive(Clone, Copy, PartialEq, Eq, Debug)]
pub struct Counts {
    pub coords: usize,
    pub runs: usize,
    pub others: usize,
    pub end: usize,
}

impl Counts {
    // Nothing, before a position.
    fn none(end: usize) -> Counts
        ensures { result ≡ no_counts end }
    {
        Counts {
            coords: 0,
            runs: 0,
            others: 0,
            end,
        }
    }

    // With what was read from the end on.
    fn then(self, next: Counts) -> Counts
        requires coords { self.coords + next.coords < 2 ^ 64 }
        requires runs { self.runs + next.runs < 2 ^ 64 }
        requires others { self.others + next.others < 2 ^ 64 }
        ensures { result ≡ joined self next }
    {
        Counts {
            coords: self.coords + next.coords,
            runs: self.runs + next.runs,
            others: self.others + next.others,
            end: next.end,
        }
    }
}

// The levels that are read: 0, the top, to 32.
pub const ALL_LEVELS: usize = 33;

// Whether a type says that ordinates have a z, and whether it says that they have an m. The numbers of the thousands
// stand in this one match, which makes values of them: an enum of them would be matched once more.
#[tactic(auto, unfolding(crate::specs::Walk::z_of, crate::specs::Walk::m_of))]
fn dimensions(code: u32) -> (bool, bool)
    ensures { result ≡ (z_of code, m_of code) }
{
    match fields::type_thousands(code) {
        1 => (true, false),
        2 => (false, true),
        3 => (true, true),
        _ => (
            fields::has_flag(code, Flag::Z),
            fields::has_flag(code, Flag::M),
        ),
    }
}

// Whether fewer than want bytes are left from at on.
pub fn is_short(len: usize, at: usize, want: usize) -> bool
    ensures { result ≡ ltb len (at + want) }
{
    len < want || len - want < at
}

// The header of the geometry at a position.
#[tactic(auto, unfolding(crate::specs::Walk::header_at, crate::specs::Walk::header_of_type))]
pub fn read_header(s: &[u8], at: usize) -> Result<WkbHeader, Reason>
    ensures { result ≡ header_at s.now at }
{
    if is_short(s.len(), at, 5) {
        return Err(Reason::BytesMissing);
    }
    let order = s[at];
    if 1 < order {
        return Err(Reason::ByteOrder);
    }
    let little = order == 1;
    let code = u32_at(s, at + 1, little);
    let (z, m) = dimensions(code);
    let kind = fields::type_kind(code);
    let size = if fields::has_flag(code, Flag::Srid) {
        9
    } else {
        5
    };
    if is_short(s.len(), at, size) {
        return Err(Reason::BytesMissing);
    }
    Ok(WkbHeader {
        little,
        z,
        m,
        kind,
        body: at + size,
    })
}

// The bytes of a coordinate.
#[tactic(auto, unfolding(crate::specs::Walk::stride_of))]
pub fn stride_of(z: bool, m: bool) -> usize
    ensures { result ≡ stride_of z m }
{
    match (z, m) {
        (true, true) => 32,
        (false, false) => 16,
        _ => 24,
    }
}

// 1 for the run of a point or face.
#[tactic(auto, using(crate::proofs::Classes::other_class))]
fn other_if(kind: u32) -> usize
    ensures { result ≡ other_if kind }
{
    match GeometryClass::try_from(kind) {
        Ok(GeometryClass::Point | GeometryClass::Polygon) => 1,
        _ => 0,
    }
}

// A run of n coordinates.
#[tactic(auto, using(crate::proofs::Laws::runs), unfolding(crate::specs::Walk::coordinates_at, crate::specs::Walk::map_parsed, crate::specs::Counts::run_counts))]
fn count_run(s: &[u8], h: WkbHeader, n: u32, at: usize) -> Result<Counts, Reason>
    ensures { result ≡ run_counts (coordinates_runs h s.now n at) }
{
    let count = n as usize;
    let total = count * stride_of(h.z, h.m);
    if is_short(s.len(), at, total) {
        return Err(Reason::BytesMissing);
    }
    let end = at + total;
    if count == 0 {
        return Ok(Counts::none(end));
    }
    Ok(Counts {
        coords: count,
        runs: 1,
        others: other_if(h.kind),
        end,
    })
}

// The count of a list at a position.
fn count_at(s: &[u8], little: bool, at: usize) -> Result<u32, Reason>
    ensures { result ≡ count_at little s.now at }
{
    if is_short(s.len(), at, 4) {
        return Err(Reason::BytesMissing);
    }
    Ok(u32_at(s, at, little))
}

// A count, and as many coordinates.
#[tactic(auto, using(crate::proofs::Loops::line_uncounted, crate::proofs::Loops::line_counted))]
fn count_line(s: &[u8], h: WkbHeader, at: usize) -> Result<Counts, Reason>
    ensures { result ≡ run_counts (line_runs h s.now at) }
{
    let n = count_at(s, h.little, at)?;
    count_run(s, h, n, at + 4)
}

// A count of rings, and as many rings.
#[tactic(auto, using(crate::proofs::Inside::counts_rings))]
pub fn count_rings(s: &[u8], h: WkbHeader, at: usize) -> Result<Counts, Reason>
    ensures { result ≡ run_counts (map_parsed (rings_runs h.kind) (rings_at h s.now at)) }
{
    let n = count_at(s, h.little, at)?;
    let mut all = Counts::none(at + 4);
    for _ in 0..n {
        let ring = count_line(s, h, all.end)?;
        all = all.then(ring);
    }
    Ok(all)
}

// A count of members, and as many geometries, with so many levels left. A loop of its own beside that of the rings, not
// one over a closure: the geometry reader calls the reader of member lists, and that one calls it (document 01).
#[cycle(count_geometry_count_members)]
#[tactic(auto, using(crate::proofs::Inside::counts_members))]
fn count_members(s: &[u8], little: bool, at: usize, levels: usize) -> Result<Counts, Reason>
    ensures { result ≡ run_counts (members_at_runs levels little s.now at) }
{
    let n = count_at(s, little, at)?;
    let mut all = Counts::none(at + 4);
    for _ in 0..n {
        let member = count_geometry(s, all.end, levels)?;
        all = all.then(member);
    }
    Ok(all)
}

// The geometry at a position, with so many levels left.
#[cycle(count_geometry_count_members)]
#[tactic(auto, using(crate::proofs::Classes::counts_content))]
pub fn count_geometry(s: &[u8], at: usize, levels: usize) -> Result<Counts, Reason>
    ensures { result ≡ counts_of (walk_of levels s.now at) }
{
    if levels == 0 {
        return Err(Reason::TooManyLevels);
    }
    let h = read_header(s, at)?;
    match GeometryClass::try_from(h.kind)? {
        GeometryClass::Point => count_run(s, h, 1, h.body),
        GeometryClass::Line => count_line(s, h, h.body),
        GeometryClass::Polygon => count_rings(s, h, h.body),
        GeometryClass::Collection => count_members(s, h.little, h.body, levels - 1),
    }
}

// The geometry at a position, as the top: its numbers of coordinates and runs, and its end.
pub fn count(s: &[u8], at: usize) -> Result<Counts, Reason>
    ensures { result ≡ counts_of (walk_of all_levels s.now at) }
{
    count_geometry(s, at, ALL_LEVELS)
}
