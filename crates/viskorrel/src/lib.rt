// The operations for C: one function each, over lent memory. include/viskorrel.h documents them.
// Undecided in their contracts is only the payload, sign included, of a NaN in a workspace or in an answered number;
// output bytes are wholly decided.
#![tactic(auto)]

ghost use Rattle.std.specs.Prelude.{◌≡◌, [], ℕ, ◌+◌, ◌-◌, length};
ghost use Rattle.refusals.specs.Checks.{first_of};
ghost use Rattle.blob.specs.Blob.{sizes_of};
ghost use Rattle.interpolation.specs.Operation.{line_interpolate_point};
ghost use Rattle.ieee754.specs.MinMax.{positive_zero};
ghost use Rattle.ieee754.specs.Root.{root_of};
ghost use Rattle.ieee754.specs.Digits.{digits_needed};
ghost use Rattle.surface.specs.Patches.{patch_of, list_of, next_of, Before};
ghost use Rattle.joining.specs.Joined.{joined_blob, join_checks};
ghost use Rattle.joining.specs.Promises.{JoinReads, JoinMaxDistance};
ghost use Rattle.outcomes.specs.Lent.{lent, left, lent_one, left_one};
ghost use Rattle.outcomes.specs.Operations.{distance, max_distance, within, fully_within};
ghost use Rattle.outcomes.specs.Operations.{intersects, closest_point, shortest_line, longest_line};
ghost use Rattle.outcomes.specs.ThirdProperty.{LongestOfAll, ShortestOfPoints};
ghost use Rattle.replies.specs.Replies.{reply_nothing, reply_answered, returned, returned_of};
ghost use Rattle.replies.specs.Replies.{sizes_reply, patch_reply, returned_pair, read_returned};
ghost use Rattle.replies.specs.Replies.{reply_size, returned_size, size_returned, JobReturned};
ghost use Rattle.dig_matcher.specs.Job.{hit_lists};
ghost use Rattle.replies.specs.PatchReplies.{patches_reply};

use replies::{PairReply, Reply, RootReply};
use surface::Cursor;
use workspace::{FLOATS_PER_COORDINATE, NUMBERS_PER_RUN};

// The least distance of a and b.
#[unsafe(no_mangle)]
pub extern "C" fn viskorrel_3d_distance(
    a: &[u8],
    b: &[u8],
    rule: u32,
    floats1: &mut [f64],
    table1: &mut [u32],
    floats2: &mut [f64],
    table2: &mut [u32],
) -> Reply
    ensures whole_outcome { returned result (left floats1 table1 floats2 table2) []
        ≡ returned_of (distance a.now b.now rule (lent floats1 table1 floats2 table2)) }
{
    threed_closest::st_3d_distance(a, b, rule, floats1, table1, floats2, table2).into()
}

// The greatest distance of a vertex of a from one of b.
#[unsafe(no_mangle)]
pub extern "C" fn viskorrel_3d_max_distance(
    a: &[u8],
    b: &[u8],
    floats1: &mut [f64],
    table1: &mut [u32],
    floats2: &mut [f64],
    table2: &mut [u32],
) -> Reply
    ensures whole_outcome { returned result (left floats1 table1 floats2 table2) []
        ≡ returned_of (max_distance a.now b.now (lent floats1 table1 floats2 table2)) }
{
    threed_farthest::st_3d_max_distance(a, b, floats1, table1, floats2, table2).into()
}

// Whether a and b are at most d apart.
#[unsafe(no_mangle)]
pub extern "C" fn viskorrel_3d_dwithin(
    a: &[u8],
    b: &[u8],
    d: f64,
    rule: u32,
    floats1: &mut [f64],
    table1: &mut [u32],
    floats2: &mut [f64],
    table2: &mut [u32],
) -> Reply
    ensures whole_outcome { returned result (left floats1 table1 floats2 table2) []
        ≡ returned_of (within a.now b.now d rule (lent floats1 table1 floats2 table2)) }
{
    threed_closest::st_3d_dwithin(a, b, d, rule, floats1, table1, floats2, table2).into()
}

// Whether the greatest distance of a vertex of a from one of b is at most d; no where there is none.
#[unsafe(no_mangle)]
pub extern "C" fn viskorrel_3d_dfully_within(
    a: &[u8],
    b: &[u8],
    d: f64,
    floats1: &mut [f64],
    table1: &mut [u32],
    floats2: &mut [f64],
    table2: &mut [u32],
) -> Reply
    ensures whole_outcome { returned result (left floats1 table1 floats2 table2) []
        ≡ returned_of (fully_within a.now b.now d (lent floats1 table1 floats2 table2)) }
{
    threed_farthest::st_3d_dfully_within(a, b, d, floats1, table1, floats2, table2).into()
}

// Whether the least distance is 0.
#[unsafe(no_mangle)]
pub extern "C" fn viskorrel_3d_intersects(
    a: &[u8],
    b: &[u8],
    rule: u32,
    floats1: &mut [f64],
    table1: &mut [u32],
    floats2: &mut [f64],
    table2: &mut [u32],
) -> Reply
    ensures whole_outcome { returned result (left floats1 table1 floats2 table2) []
        ≡ returned_of (intersects a.now b.now rule (lent floats1 table1 floats2 table2)) }
{
    threed_closest::st_3d_intersects(a, b, rule, floats1, table1, floats2, table2).into()
}

// The point of a that is closest to b.
#[unsafe(no_mangle)]
pub extern "C" fn viskorrel_3d_closest_point(
    a: &[u8],
    b: &[u8],
    rule: u32,
    floats1: &mut [f64],
    table1: &mut [u32],
    floats2: &mut [f64],
    table2: &mut [u32],
    output: &mut [u8],
) -> Reply
    ensures whole_outcome { returned result (left floats1 table1 floats2 table2) output.new
        ≡ returned_of (closest_point a.now b.now rule (lent floats1 table1 floats2 table2)
        output.old) }
{
    threed_closest::st_3d_closest_point(a, b, rule, floats1, table1, floats2, table2, output).into()
}

// The line from the point of a that is closest to b, to the one of b.
#[unsafe(no_mangle)]
pub extern "C" fn viskorrel_3d_shortest_line(
    a: &[u8],
    b: &[u8],
    rule: u32,
    floats1: &mut [f64],
    table1: &mut [u32],
    floats2: &mut [f64],
    table2: &mut [u32],
    output: &mut [u8],
) -> Reply
    ensures whole_outcome { returned result (left floats1 table1 floats2 table2) output.new
        ≡ returned_of (shortest_line a.now b.now rule (lent floats1 table1 floats2 table2)
        output.old) }
    ensures shortest_of_points { ShortestOfPoints reply_nothing (reply_answered positive_zero)
        a.now b.now rule (lent floats1 table1 floats2 table2) output.old
        result output.new }
{
    threed_closest::st_3d_shortest_line(a, b, rule, floats1, table1, floats2, table2, output).into()
}

// The line between the vertices that are farthest apart.
#[unsafe(no_mangle)]
pub extern "C" fn viskorrel_3d_longest_line(
    a: &[u8],
    b: &[u8],
    floats1: &mut [f64],
    table1: &mut [u32],
    floats2: &mut [f64],
    table2: &mut [u32],
    output: &mut [u8],
) -> Reply
    ensures whole_outcome { returned result (left floats1 table1 floats2 table2) output.new
        ≡ returned_of (longest_line a.now b.now (lent floats1 table1 floats2 table2)
        output.old) }
    ensures longest_of_all { LongestOfAll reply_nothing (reply_answered positive_zero)
        a.now b.now (lent floats1 table1 floats2 table2) output.old
        result output.new }
{
    threed_farthest::st_3d_longest_line(a, b, floats1, table1, floats2, table2, output).into()
}

// The point at a fraction of a line's length.
#[unsafe(no_mangle)]
pub extern "C" fn viskorrel_3d_line_interpolate_point(
    blob: &[u8],
    fraction: f64,
    floats: &mut [f64],
    table: &mut [u32],
    output: &mut [u8],
) -> Reply
    ensures whole_outcome { returned result (left_one floats table) output.new
        ≡ returned_of (line_interpolate_point blob.now fraction (lent_one floats table)
        output.old) }
{
    interpolation::st_3d_line_interpolate_point(blob, fraction, floats, table, output).into()
}

// Where patch n of a surface stands in its blob: start, then end.
#[unsafe(no_mangle)]
pub extern "C" fn viskorrel_patch(blob: &[u8], n: u64) -> PairReply
    ensures { result ≡ patch_reply (patch_of blob.now n) }
{
    surface::patch_range(blob, n).into()
}

// The lengths to lend for a blob: floats, then numbers of the table.
#[unsafe(no_mangle)]
pub extern "C" fn viskorrel_sizes(blob: &[u8]) -> PairReply
    ensures { result ≡ sizes_reply (sizes_of blob.now) }
{
    blob::blob_sizes(blob).into()
}

// A blob's coordinates and runs into lent memory: the floats filled, then the numbers of the table.
#[unsafe(no_mangle)]
pub extern "C" fn viskorrel_read(blob: &[u8], floats: &mut [f64], table: &mut [u32]) -> PairReply
    ensures whole_outcome { returned_pair result (left_one floats table)
        ≡ read_returned blob.now (lent_one floats table) }
{
    match blob::read_blob(blob, floats, table) {
        Ok(read) => PairReply::answered(
            FLOATS_PER_COORDINATE * read.coords,
            NUMBERS_PER_RUN * read.runs,
        ),
        Err(refusal) => refusal.into(),
    }
}

// Both geometries as one collection in the output: its size.
#[unsafe(no_mangle)]
pub extern "C" fn viskorrel_join(a: &[u8], b: &[u8], output: &mut [u8]) -> PairReply
    ensures whole_outcome { returned_size result output.new
        ≡ size_returned (first_of (join_checks a.now b.now (length output.old)))
        (joined_blob a.now b.now) output.old }
    ensures reads_as_both { JoinReads reply_size a.now b.now result output.new }
    ensures max_distance_of_both { JoinMaxDistance reply_size a.now b.now result
        output.new }
{
    joining::join(a, b, output).into()
}

// A job: the number of its hits, which are in the first places of the three lists, in an order that is left open. What
// it leaves in the workspaces is open too.
#[unsafe(no_mangle)]
pub extern "C" fn viskorrel_job(
    tape: &[u8],
    floats1: &mut [f64],
    table1: &mut [u32],
    floats2: &mut [f64],
    table2: &mut [u32],
    first: &mut [u16],
    second: &mut [u16],
    distances: &mut [f64],
) -> PairReply
    ensures whole_outcome { JobReturned tape.now (lent floats1 table1 floats2 table2)
        (hit_lists first.old second.old distances.old)
        (hit_lists first.new second.new distances.new) result }
{
    dig_matcher::job(
        tape, floats1, table1, floats2, table2, first, second, distances,
    )
    .into()
}

// The patches of a surface: where the first starts, then how many there are.
#[unsafe(no_mangle)]
pub extern "C" fn viskorrel_patches(blob: &[u8]) -> PairReply
    ensures value { result ≡ patches_reply (list_of blob.now) }
    ensures first { result.case ≡ 1 → Before blob.now result.first result.second 0 }
{
    surface::patch_list(blob).into()
}

// Where the next patch from a position on stands, with so many left: start, then end. It alone is scanned. C has the
// cursor's parts, and holds none.
#[unsafe(no_mangle)]
pub extern "C" fn viskorrel_next_patch(blob: &[u8], at: usize, left: usize) -> PairReply
    ensures value { result ≡ patch_reply (next_of blob.now at left) }
    ensures patch_n { (n : ℕ) → Before blob.now at left n
        → (result ≡ patch_reply (patch_of blob.now n))
        × (result.case ≡ 1 → Before blob.now result.second (left - 1) (n + 1)) }
{
    Cursor::new(blob, at, left as u64).range().into()
}

// The square root of a number, and the digits needed: the fewest of its leading binary digits whose square is the
// number.
#[unsafe(no_mangle)]
pub extern "C" fn viskorrel_root_digits(s: f64) -> RootReply
    ensures { (result.root ≡ root_of s) × (result.digits ≡ digits_needed s) }
{
    ieee754::root_and_digits(s).into()
}
