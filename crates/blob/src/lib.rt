// One blob: its header, its walk and the room lent for it, checked each for itself, by side; and the blob read whole.
// Undecided in its contracts is only the payload, sign included, of a NaN in the workspace.
#![tactic(auto)]

ghost use Rattle.std.specs.Prelude.{◌≡◌};
ghost use Rattle.std.specs.Result.{result_map_both};
ghost use Rattle.refusals.specs.Table.{sided};
ghost use Rattle.refusals.specs.Checks.{first_of, refused_or, on_side};
ghost use Rattle.refusals.specs.declared.Side.TheVariants.{First};
ghost use Rattle.gpb.specs.Header.{geometry_start, header_checks, header_checks_3d};
ghost use Rattle.coords.specs.Refusals.{walk_checks};
ghost use Rattle.blob.specs.Blob.{bytes_checks, sizes_of, BlobOutcome};
ghost use Rattle.blob.specs.Inner.{top_of, top_header_of, operand_of, room_checks};

use gpb::Header;
use refusals::{Reason, Refusal, Side};
use workspace::{FLOATS_PER_COORDINATE, NUMBERS_PER_RUN};

// Where a blob's geometry starts, and the SRID's bits.
#[derive(Clone, Copy, PartialEq, Eq, Debug)]
pub struct TopHeader {
    pub at: usize,
    pub srid: u32,
}

// Where a blob's geometry starts and ends, its coordinates and runs, those of them that are points or faces, and the
// SRID's bits.
#[derive(Clone, Copy, PartialEq, Eq, Debug)]
pub struct Operand {
    pub at: usize,
    pub end: usize,
    pub coords: usize,
    pub runs: usize,
    pub others: usize,
    pub srid: u32,
}

// The lengths of the memory lent for a blob.
#[derive(Clone, Copy, PartialEq, Eq, Debug)]
pub struct Lent {
    pub floats: usize,
    pub numbers: usize,
}

// Coordinates, runs and the SRID's bits of a blob that was read.
#[derive(Clone, Copy, PartialEq, Eq, Debug)]
pub struct BlobRead {
    pub coords: usize,
    pub runs: usize,
    pub srid: u32,
}

// What a header says, or its refusal of a side.
fn top_header(header: Result<Header, Reason>, side: Side) -> Result<TopHeader, Refusal>
    ensures { result ≡ result_map_both top_of (sided side) header }
{
    match header {
        Ok(header) => Ok(TopHeader {
            at: header.at,
            srid: header.srid,
        }),
        Err(reason) => Err(reason.of(side)),
    }
}

// The header of a side, with no Z test.
#[tactic(auto, using(refusals::proofs::Sides::map_side), unfolding(gpb::specs::Header::header_of))]
pub fn read_header(s: &[u8], side: Side) -> Result<TopHeader, Refusal>
    ensures { result ≡ refused_or (first_of (on_side side (header_checks s.now))) (top_header_of s.now) }
{
    top_header(gpb::read_header(s), side)
}

// The header of a side of a two-blob operation.
#[tactic(auto, using(refusals::proofs::Sides::map_side), unfolding(gpb::specs::Header::header_of_3d))]
pub fn read_header_3d(s: &[u8], side: Side) -> Result<TopHeader, Refusal>
    ensures { result ≡ refused_or (first_of (on_side side (header_checks_3d s.now))) (top_header_of s.now) }
{
    top_header(gpb::read_header_3d(s), side)
}

// The walk of a side, whose header is read.
#[tactic(auto, using(crate::proofs::Steps::walk_read))]
pub fn read_walk(s: &[u8], top: TopHeader, side: Side) -> Result<Operand, Refusal>
    requires { top ≡ top_header_of s.now }
    ensures { result ≡ refused_or
        (first_of (on_side side (walk_checks s.now (geometry_start s.now)))) (operand_of s.now) }
{
    match coords::count(s, top.at) {
        Err(reason) => Err(reason.of(side)), // the walk's
        Ok(counts) => Ok(Operand {
            at: top.at,
            end: counts.end,
            coords: counts.coords,
            runs: counts.runs,
            others: counts.others,
            srid: top.srid,
        }),
    }
}

// 15 of a side, by the lengths lent.
#[tactic(auto, unfolding(refusals::specs::Checks::first_of, refusals::specs::Checks::on_side))]
pub fn check_room(o: Operand, lent: Lent, side: Side) -> Result<(), Refusal>
    ensures { result ≡ refused_or (first_of (on_side side (room_checks o lent))) tt }
{
    if workspace::too_small(o.coords, o.runs, lent.floats, lent.numbers) {
        return Err(Reason::WorkspaceTooSmall.of(side));
    }
    Ok(())
}

// The header's checks, then the walk's, of the one blob there is.
#[tactic(auto, using(refusals::proofs::Sides::of_side))]
fn check_bytes(s: &[u8]) -> Result<Operand, Refusal>
    ensures { result ≡ refused_or (first_of (on_side First (bytes_checks s.now))) (operand_of s.now) }
{
    let top = read_header(s, Side::First)?;
    read_walk(s, top, Side::First)
}

// The lengths to lend for a blob: floats, and numbers of the table.
#[tactic(auto, using(crate::proofs::Outcome::sizes))]
pub fn blob_sizes(s: &[u8]) -> Result<Lent, Refusal>
    ensures { result ≡ sizes_of s.now }
{
    let o = check_bytes(s)?;
    Ok(Lent {
        floats: FLOATS_PER_COORDINATE * o.coords,
        numbers: NUMBERS_PER_RUN * o.runs,
    })
}

// A blob's coordinates and runs into lent memory.
pub fn read_blob(s: &[u8], floats: &mut [f64], table: &mut [u32]) -> Result<BlobRead, Refusal>
    ensures { BlobOutcome s.now floats.old table.old floats.new table.new result }
{
    let o = check_bytes(s)?;
    let lent = Lent {
        floats: floats.len(),
        numbers: table.len(),
    };
    check_room(o, lent, Side::First)?;
    workspace::fill(s, o.at, floats, table);
    Ok(BlobRead {
        coords: o.coords,
        runs: o.runs,
        srid: o.srid,
    })
}
