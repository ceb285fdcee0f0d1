// A recorded call, and what is expected of it.
ghost use Rattle.std.specs.Prelude.{◌≡◌, ◌↔◌, ◌*◌, ◌-◌, ◌^◌, ◌≤◌, ◌<◌, true, IfOk, length};
ghost use Rattle.outcomes.specs.Lent.{lent, left};
ghost use Rattle.replay.specs.Calls.{called, call_of, fits_in, lending, Expects, ByCursor, AsExpected};

use crate::patches::patch_by_cursor;
use crate::reply::Reply;
use blob::blob_sizes;
use ieee754::from_pattern;
use interpolation::st_3d_line_interpolate_point;
use records::{
    Held, Reader, Record, RecordError, Refused, Workspace, WorkspaceSize, holds_by_pattern, lend,
};
use std::alloc::{AllocError, Global};
use surface::patch_range;
use threed_closest::{
    st_3d_closest_point, st_3d_distance, st_3d_dwithin, st_3d_intersects, st_3d_shortest_line,
};
use threed_farthest::{st_3d_dfully_within, st_3d_longest_line, st_3d_max_distance};

// The operations, by their numbers.
#[derive(Clone, Copy, Debug, PartialEq, Eq)]
pub enum Operation {
    Distance = 0,
    MaxDistance = 1,
    DWithin = 2,
    DFullyWithin = 3,
    Intersects = 4,
    ClosestPoint = 5,
    ShortestLine = 6,
    LongestLine = 7,
    LineInterpolatePoint = 8,
    Patch = 9,
    Sizes = 10,
}

impl TryFrom<u32> for Operation {
    type Error = RecordError;

    fn try_from(number: u32) -> Result<Operation, RecordError> {
        match number {
            0 => Ok(Operation::Distance),
            1 => Ok(Operation::MaxDistance),
            2 => Ok(Operation::DWithin),
            3 => Ok(Operation::DFullyWithin),
            4 => Ok(Operation::Intersects),
            5 => Ok(Operation::ClosestPoint),
            6 => Ok(Operation::ShortestLine),
            7 => Ok(Operation::LongestLine),
            8 => Ok(Operation::LineInterpolatePoint),
            9 => Ok(Operation::Patch),
            10 => Ok(Operation::Sizes),
            _ => Err(RecordError::Unknown(number)),
        }
    }
}

// The numbers that a record begins with.
#[derive(Clone, Copy)]
struct Head {
    operation: u32,
    length_a: usize,
    length_b: usize,
    lent_output: usize,
    length_output: usize,
    lent1: WorkspaceSize,
    lent2: WorkspaceSize,
    held1: WorkspaceSize,
    held2: WorkspaceSize,
    case: u32,
    refused: Refused,
    rule: u32,
    argument: u64,
    first: u64,
    second: u64,
}

impl<'a> Record<'a> for Head {
    fn read(from: &mut Reader<'a>) -> Result<Self, RecordError> {
        Ok(Head {
            operation: from.number()?,
            length_a: from.length()?,
            length_b: from.length()?,
            lent_output: from.length()?,
            length_output: from.length()?,
            lent1: WorkspaceSize::read(from)?,
            lent2: WorkspaceSize::read(from)?,
            held1: WorkspaceSize::read(from)?,
            held2: WorkspaceSize::read(from)?,
            case: from.number()?,
            refused: Refused::read(from)?,
            rule: from.number()?,
            argument: from.number()?,
            first: from.number()?,
            second: from.number()?,
        })
    }
}

// A call on a blob, or on two; the argument is a distance's or fraction's pattern, or which patch. A number that no
// operation has, or a reply that tells no case, is kept beside the blobs, whose patches are listed all the same.
#[derive(Drop)]
pub struct Call<'a> {
    operation: Result<Operation, RecordError>,
    pub a: &'a [u8],
    pub b: &'a [u8],
    rule: u32,
    argument: u64,
    lent1: WorkspaceSize,
    lent2: WorkspaceSize,
    lent_output: usize,
    reply: Result<Reply, RecordError>,
    output: &'a [u8],
    held1: Held<'a>,
    held2: Held<'a>,
}

impl<'a> Record<'a> for Call<'a> {
    fn read(from: &mut Reader<'a>) -> Result<Self, RecordError> {
        let head = Head::read(from)?;
        let a = from.take(head.length_a)?;
        let b = from.take(head.length_b)?;
        let output = from.take(head.length_output)?;
        let held1 = Held::read(from, head.held1)?;
        let held2 = Held::read(from, head.held2)?;
        Ok(Call {
            operation: head.operation.try_into(),
            a,
            b,
            rule: head.rule,
            argument: head.argument,
            lent1: head.lent1,
            lent2: head.lent2,
            lent_output: head.lent_output,
            reply: Reply::of(head.case, head.refused, head.first, head.second),
            output,
            held1,
            held2,
        })
    }
}

// All the memory that there is, of each side and for the output. A record lends the front of it.
const ROOM: WorkspaceSize = WorkspaceSize {
    floats: 256,
    numbers: 64,
};

const OUTPUT_ROOM: usize = 128;

// Is there so much of a workspace?
fn fits(size: WorkspaceSize, floats: &[f64], table: &[u32]) -> bool
    ensures { result ≡ fits_in size floats.now table.now }
{
    size.floats <= floats.len() && size.numbers <= table.len()
}

impl Call<'_> {
    // Does the library answer, and leave memory, as expected? Not where the record tells no reply.
    pub fn is_same(&self, alloc: Global) -> Result<bool, AllocError>
        ensures { IfOk result (λ same. same ≡ true ↔ AsExpected self.now) }
    {
        let Ok(expected) = self.reply else {
            return Ok(false);
        };
        let mut one = Workspace::lend(alloc, ROOM)?;
        let mut two = Workspace::lend(alloc, ROOM)?;
        let mut output = lend(alloc, OUTPUT_ROOM)?;
        let is_answered = self.is_answered(
            expected,
            &mut one.floats,
            &mut one.table,
            &mut two.floats,
            &mut two.table,
            &mut output,
        );
        Ok(is_answered && self.is_same_by_cursor(expected))
    }

    // Does the library, lent the front of this memory, answer and leave all of it as expected?
    fn is_answered(
        &self,
        expected: Reply,
        floats1: &mut [f64],
        table1: &mut [u32],
        floats2: &mut [f64],
        table2: &mut [u32],
        output: &mut [u8],
    ) -> bool
        ensures { result ≡ true ↔ Expects self.now expected
            (lending self.now.operation self.now (lent floats1 table1 floats2 table2) output.old) }
    {
        let reply = self.reply_by_front(floats1, table1, floats2, table2, output);
        reply == expected
            && self.held1.is_in_by_pattern(floats1, table1)
            && self.held2.is_in_by_pattern(floats2, table2)
            && holds_by_pattern(output, self.output)
    }

    // The library's reply, lent the front of this memory, as much of it as the record says.
    fn reply_by_front(
        &self,
        floats1: &mut [f64],
        table1: &mut [u32],
        floats2: &mut [f64],
        table2: &mut [u32],
        output: &mut [u8],
    ) -> Reply
        ensures { called result (left floats1 table1 floats2 table2) output.new
            ≡ lending self.now.operation self.now (lent floats1 table1 floats2 table2) output.old }
    {
        let (size1, size2, bytes) = (self.lent1, self.lent2, self.lent_output);
        let has_room = fits(size1, floats1, table1)
            && fits(size2, floats2, table2)
            && bytes <= output.len();
        match self.operation {
            Ok(operation) if has_room => self.reply_with(
                operation,
                &mut floats1[..size1.floats],
                &mut table1[..size1.numbers],
                &mut floats2[..size2.floats],
                &mut table2[..size2.numbers],
                &mut output[..bytes],
            ),
            _ => Reply::Unknown,
        }
    }

    // The library's reply, with these workspaces and this output.
    fn reply_with(
        &self,
        operation: Operation,
        floats1: &mut [f64],
        table1: &mut [u32],
        floats2: &mut [f64],
        table2: &mut [u32],
        output: &mut [u8],
    ) -> Reply
        ensures { called result (left floats1 table1 floats2 table2) output.new
            ≡ call_of operation self.now (lent floats1 table1 floats2 table2) output.old }
    {
        let (a, b, rule) = (self.a, self.b, self.rule);
        let d = from_pattern(self.argument);
        match operation {
            Operation::Distance => {
                st_3d_distance(a, b, rule, floats1, table1, floats2, table2).into()
            }
            Operation::MaxDistance => {
                st_3d_max_distance(a, b, floats1, table1, floats2, table2).into()
            }
            Operation::DWithin => {
                st_3d_dwithin(a, b, d, rule, floats1, table1, floats2, table2).into()
            }
            Operation::DFullyWithin => {
                st_3d_dfully_within(a, b, d, floats1, table1, floats2, table2).into()
            }
            Operation::Intersects => {
                st_3d_intersects(a, b, rule, floats1, table1, floats2, table2).into()
            }
            Operation::ClosestPoint => {
                st_3d_closest_point(a, b, rule, floats1, table1, floats2, table2, output).into()
            }
            Operation::ShortestLine => {
                st_3d_shortest_line(a, b, rule, floats1, table1, floats2, table2, output).into()
            }
            Operation::LongestLine => {
                st_3d_longest_line(a, b, floats1, table1, floats2, table2, output).into()
            }
            Operation::LineInterpolatePoint => {
                st_3d_line_interpolate_point(a, d, floats1, table1, output).into()
            }
            Operation::Patch => patch_range(a, self.argument).into(),
            Operation::Sizes => blob_sizes(a).into(),
        }
    }

    // Does the cursor answer as expected, if a patch is asked for?
    fn is_same_by_cursor(&self, expected: Reply) -> bool
        ensures { result ≡ true ↔ ByCursor self.now expected }
    {
        match self.operation {
            Ok(Operation::Patch) => {
                Reply::from(patch_by_cursor(self.a, self.argument)) == expected
            }
            _ => true,
        }
    }
}
