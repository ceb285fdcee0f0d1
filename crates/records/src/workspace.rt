// The workspace of a blob: floats, and a table of numbers.
ghost use Rattle.std.specs.Prelude.{◌≡◌, ◌-◌, ◌*◌, ◌≤◌, ◌&&◌, IfOk, true};
ghost use Rattle.std.specs.Prelude.{length, take, drop, replicate};
ghost use Rattle.fields.specs.Fields.{u32_at};
ghost use Rattle.records.specs.Lent.{floats_hold_by_pattern, numbers_hold_by_pattern};

use crate::lent::{Lent, holds_by_pattern, lend};
use crate::reader::{Reader, Record, RecordError};
use std::alloc::{AllocError, Global};

// How many floats and how many numbers.
#[derive(Clone, Copy, Debug, PartialEq, Eq)]
pub struct WorkspaceSize {
    pub floats: usize,
    pub numbers: usize,
}

impl WorkspaceSize {
    pub const NONE: WorkspaceSize = WorkspaceSize {
        floats: 0,
        numbers: 0,
    };
}

impl<'a> Record<'a> for WorkspaceSize {
    fn read(from: &mut Reader<'a>) -> Result<Self, RecordError>
        ensures taken { length from.new ≤ length from.old - 1 }
        ensures value { IfOk result (λ w. (w.floats ≡ u32_at true (take 4 from.old) 0)
            × (w.numbers ≡ u32_at true (take 4 (drop 4 from.old)) 0)) }
    {
        let floats = from.length()?;
        let numbers = from.length()?;
        Ok(WorkspaceSize { floats, numbers })
    }
}

// The bytes of the floats and of the numbers that a workspace begins with after a call.
#[derive(Clone, Copy)]
pub struct Held<'a> {
    pub floats: &'a [u8],
    pub table: &'a [u8],
}

impl<'a> Held<'a> {
    pub fn read(from: &mut Reader<'a>, size: WorkspaceSize) -> Result<Held<'a>, RecordError>
        ensures taken { length from.new ≤ length from.old }
        ensures floats { IfOk result (λ h. h.floats.now ≡ take (8 * size.floats) from.old) }
        ensures table { IfOk result (λ h. h.table.now
            ≡ take (4 * size.numbers) (drop (8 * size.floats) from.old)) }
    {
        let floats = from.take_numbers::<f64>(size.floats)?;
        let table = from.take_numbers::<u32>(size.numbers)?;
        Ok(Held { floats, table })
    }

    // Does a workspace begin with this, each number by its pattern, and keep its marks after it?
    pub fn is_in_by_pattern(&self, floats: &[f64], table: &[u32]) -> bool
        ensures { result ≡ (floats_hold_by_pattern floats.now self.now.floats.now
            && numbers_hold_by_pattern table.now self.now.table.now) }
    {
        holds_by_pattern(floats, self.floats) && holds_by_pattern(table, self.table)
    }
}

#[derive(Drop)]
pub struct Workspace {
    pub floats: Vec<f64>,
    pub table: Vec<u32>,
}

impl Workspace {
    // A workspace of marks.
    pub fn lend(alloc: Global, size: WorkspaceSize) -> Result<Workspace, AllocError>
        ensures floats { IfOk result (λ w. w.floats.items ≡ replicate size.floats ⟦<f64 as Lent>⟧.MARK) }
        ensures table { IfOk result (λ w. w.table.items ≡ replicate size.numbers ⟦<u32 as Lent>⟧.MARK) }
    {
        let floats = lend(alloc, size.floats)?;
        let table = lend(alloc, size.numbers)?;
        Ok(Workspace { floats, table })
    }
}
