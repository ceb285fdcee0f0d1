// Two blobs joined into one: a collection of both geometries behind a GeoPackage header (document 02, 4/13).
// Output bytes are wholly decided; no workspace is lent.
#![tactic(auto)]

ghost use Rattle.std.specs.Prelude.{◌≡◌, ◌++◌, ◌+◌, ◌-◌, ◌≤◌, ltb, length, drop, None, Ok};
ghost use Rattle.std.proofs.lemmas.List.Edits.{sets};
ghost use Rattle.std.proofs.Math.Seq.{slice};
ghost use Rattle.refusals.specs.Checks.{first_of, refused_or};
ghost use Rattle.gpb.specs.Header.{geometry_start};
ghost use Rattle.coords.specs.Refusals.{walk_checks};
ghost use Rattle.blob.specs.Blob.{walk_of_blob};
ghost use Rattle.blob.specs.Written.{WrittenOutcome};
ghost use Rattle.joining.specs.Joined.{joined_blob, deepest_of, nests_too_deep};
ghost use Rattle.joining.specs.Joined.{together_checks, join_checks};
ghost use Rattle.joining.specs.Inner.{BothRead};
ghost use Rattle.joining.specs.Promises.{JoinReads, JoinMaxDistance};

use fields::{put_bytes, put_u32};
use operands::Operands;
use refusals::{Reason, Refusal, Side};

// The bytes before both geometries: the header, the collection's type and its count.
const JOIN_HEADER_BYTES: usize = 17;

// Whether a geometry, which can be walked, has a level 32 of its own: as a member of a collection it would nest past
// it.
fn reaches_last_level(s: &[u8], at: usize) -> bool
    requires at_value { at ≡ geometry_start s.now }
    requires s_value { first_of (walk_checks s.now (geometry_start s.now)) ≡ None }
    ensures { result ≡ ltb 31 (deepest_of (walk_of_blob s.now)) }
{
    coords::count_geometry(s, at, 32).is_err()
}

// Both blobs, and what was read of them: nothing refuses either.
#[derive(Clone, Copy)]
struct Both<'a> {
    a: &'a [u8],
    b: &'a [u8],
    operands: Operands,
    ghost read: { BothRead a.now b.now operands },
}

// Whether either has: the join would nest past level 32.
fn nests_too_deep(both: &Both) -> bool
    ensures { result ≡ nests_too_deep both.now.a.now both.now.b.now }
{
    reaches_last_level(both.a, both.operands.first.at)
        || reaches_last_level(both.b, both.operands.second.at)
}

// Whether fewer bytes are lent than a join of n1 and n2 bytes takes; their sum is never taken, since it may not fit.
fn too_short(lent: usize, n1: usize, n2: usize) -> bool
    ensures { result ≡ ltb lent (17 + (n1 + n2)) }
{
    lent < JOIN_HEADER_BYTES || lent - JOIN_HEADER_BYTES < n1 || lent - JOIN_HEADER_BYTES - n1 < n2
}

// 18, 19 and 16, in this order, once both blobs are in order by themselves.
#[tactic(auto, using(crate::proofs::Order::together), unfolding(crate::specs::Joined::srids_differ))]
fn check_together(both: &Both, lent: usize) -> Result<(), Refusal>
    ensures { result ≡ refused_or (first_of (together_checks both.now.a.now both.now.b.now lent)) tt }
{
    let first = both.operands.first;
    let second = both.operands.second;
    if first.srid != second.srid {
        return Err(Reason::SridsDiffer.of(Side::Neither));
    }
    if nests_too_deep(both) {
        return Err(Reason::NestsTooDeep.of(Side::Neither));
    }
    if too_short(lent, first.end - first.at, second.end - second.at) {
        return Err(Reason::OutputTooShort.of(Side::Neither));
    }
    Ok(())
}

// The bytes of s from start to end, put at a position.
fn put_part(output: &mut [u8], at: usize, s: &[u8], start: usize, end: usize)
    requires start_le_end { start ≤ end }
    requires end_in_bounds { end ≤ length s.now }
    requires start_in_bounds { at + (end - start) ≤ length output.old }
    ensures { output.new ≡ sets output.old at (slice start end s.now) }
{
    put_bytes(output, at, &s[start..end]);
}

// The joined blob in the first bytes, the rest unchanged; its size.
fn put_join(both: &Both, output: &mut [u8]) -> usize
    requires { length (joined_blob both.now.a.now both.now.b.now) ≤ length output.old }
    ensures value { result ≡ length (joined_blob both.now.a.now both.now.b.now) }
    ensures output_after { output.new ≡ joined_blob both.now.a.now both.now.b.now
        ++ drop (length (joined_blob both.now.a.now both.now.b.now)) output.old }
{
    let first = both.operands.first;
    let second = both.operands.second;
    let middle = JOIN_HEADER_BYTES + (first.end - first.at);
    gpb::put_header(output, both.operands.srid, 1007); // the type of a collection with z
    put_u32(output, 13, 2);
    put_part(output, JOIN_HEADER_BYTES, both.a, first.at, first.end);
    put_part(output, middle, both.b, second.at, second.end);
    middle + (second.end - second.at)
}

// Both geometries as one collection in the output: how many bytes it takes.
pub fn join(a: &[u8], b: &[u8], output: &mut [u8]) -> Result<usize, Refusal>
    ensures whole_outcome { WrittenOutcome
        (first_of (join_checks a.now b.now (length output.old)))
        (joined_blob a.now b.now) output.old output.new result }
    ensures reads_as_both { JoinReads Ok a.now b.now result output.new }
    ensures max_distance_of_both { JoinMaxDistance Ok a.now b.now result output.new }
{
    let operands = operands::read_both(a, b)?;
    let both = Both { a, b, operands };
    check_together(&both, output.len())?;
    Ok(put_join(&both, output))
}
