// The two blobs of an operation: checked in document 01's order, then read into lent memory.
#![tactic(auto)]

ghost use Rattle.std.specs.Prelude.{◌≡◌};
ghost use Rattle.refusals.specs.Checks.{first_of, refused_or};
ghost use Rattle.operands.specs.Operands.{lengths, both_checks, operand_checks, workspaces, filled};
ghost use Rattle.operands.specs.Inner.{operands_of, Ready};

use blob::{Lent, Operand};
use refusals::{Refusal, Side};

// Both operands, and the SRID's bits of the first.
#[derive(Clone, Copy)]
pub struct Operands {
    pub first: Operand,
    pub second: Operand,
    pub srid: u32,
}

// Headers, then walks of both sides.
#[tactic(auto, using(refusals::proofs::Sides::first_of_two), unfolding(crate::specs::Operands::both_checks))]
pub fn read_both(a: &[u8], b: &[u8]) -> Result<Operands, Refusal>
    ensures { result ≡ refused_or (first_of (both_checks a.now b.now)) (operands_of a.now b.now) }
{
    let top1 = blob::read_header_3d(a, Side::First)?;
    let top2 = blob::read_header_3d(b, Side::Second)?;
    let first = blob::read_walk(a, top1, Side::First)?;
    let second = blob::read_walk(b, top2, Side::Second)?;
    let srid = first.srid;
    Ok(Operands {
        first,
        second,
        srid,
    })
}

// Every check of both operands, by the lengths lent for each.
#[tactic(auto, using(refusals::proofs::Sides::first_of_two), unfolding(crate::specs::Operands::operand_checks, crate::specs::Operands::workspace_checks))]
pub fn check(a: &[u8], b: &[u8], lent1: Lent, lent2: Lent) -> Result<Operands, Refusal>
    ensures { result ≡ refused_or (first_of (operand_checks a.now b.now lent1 lent2)) (operands_of a.now b.now) }
{
    let o = read_both(a, b)?;
    blob::check_room(o.first, lent1, Side::First)?;
    blob::check_room(o.second, lent2, Side::Second)?;
    Ok(o)
}

// Both blobs into lent memory. Its four slices stay parameters of their own here and above: a struct of `&mut` fields
// that is handed on whole forgets what was written, or asks each contract to say that it holds the same slices.
pub fn fill(
    a: &[u8],
    b: &[u8],
    o: Operands,
    floats1: &mut [f64],
    table1: &mut [u32],
    floats2: &mut [f64],
    table2: &mut [u32],
)
    requires o_value { o ≡ operands_of a.now b.now }
    requires ready { Ready a.now b.now (lengths floats1.old table1.old) (lengths floats2.old table2.old) }
    ensures { workspaces floats1.new table1.new floats2.new table2.new
        ≡ filled a.now b.now (workspaces floats1.old table1.old floats2.old table2.old) }
{
    workspace::fill(a, o.first.at, floats1, table1);
    workspace::fill(b, o.second.at, floats2, table2);
}
