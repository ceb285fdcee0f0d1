// Reads each record of data/blobs, a little-endian u32 length and a blob's bytes, and prints a line for each: its
// number, what reading it gives, how many places of the workspace changed that must not, the lengths that are to be
// lent for it, and what reading gives with a workspace of just these lengths, and of one place less.
#![tactic(auto)]

ghost use Rattle.std.specs.Prelude.{◌-◌, ◌≤◌, length};

use blob::{BlobRead, Lent, blob_sizes, read_blob};
use ieee754::to_pattern;
use records::{Reader, Record, RecordError, Records, Workspace, WorkspaceSize, changed, read_file};
use refusals::Refusal;
use std::alloc::{AllocError, Global};
use std::{fs, io};
use workspace::{FLOATS_PER_COORDINATE, NUMBERS_PER_RUN};

// Room for a whole file.
const ROOM: u64 = 262144;

// More workspace than a sample is to need.
const AMPLE: WorkspaceSize = WorkspaceSize {
    floats: 192,
    numbers: 32,
};

// A blob's bytes.
#[derive(Drop)]
struct Sample<'a>(&'a [u8]);

impl<'a> Record<'a> for Sample<'a> {
    fn read(from: &mut Reader<'a>) -> Result<Self, RecordError> {
        let length = from.length()?;
        Ok(Sample(from.take(length)?))
    }
}

// A read of a blob, and the workspace after it.
#[derive(Drop)]
struct Reading {
    found: Result<BlobRead, Refusal>,
    workspace: Workspace,
}

impl Reading {
    // A read with a workspace of this size.
    fn of(alloc: Global, blob: &[u8], size: WorkspaceSize) -> Result<Reading, AllocError> {
        let mut workspace = Workspace::lend(alloc, size)?;
        let found = read_blob(blob, &mut workspace.floats, &mut workspace.table);
        Ok(Reading { found, workspace })
    }

    // The places that the read may have changed.
    fn used(&self) -> WorkspaceSize {
        match self.found {
            Ok(BlobRead { coords, runs, .. }) => WorkspaceSize {
                floats: FLOATS_PER_COORDINATE.saturating_mul(coords),
                numbers: NUMBERS_PER_RUN.saturating_mul(runs),
            },
            Err(_) => WorkspaceSize::NONE,
        }
    }

    // How many other places of the floats and of the table changed.
    fn print_changed(&self, rt: &impl Print) -> io::Result<()> {
        let used = self.used();
        let floats = changed(&self.workspace.floats, used.floats);
        let numbers = changed(&self.workspace.table, used.numbers);
        print!(rt; " changed {floats} {numbers}")
    }

    // What an accepted read left in the workspace.
    fn print_used(&self, rt: &impl Print) -> io::Result<()> {
        let used = self.used();
        print!(rt; "; table")?;
        for number in self.workspace.table.iter().take(used.numbers) {
            print!(rt; " {number}")?;
        }
        print!(rt; "; floats")?;
        for float in self.workspace.floats.iter().take(used.floats) {
            print_float(rt, *float)?;
        }
        Ok(())
    }
}

// A float's pattern. A NaN has a form of its own, since which of its patterns a read leaves is open.
fn print_float(rt: &impl Print, float: f64) -> io::Result<()> {
    if float.is_nan() {
        print!(rt; " NaN")
    } else {
        print!(rt; " {:016x}", to_pattern(float))
    }
}

// What a read with ample workspace gives.
fn print_read(rt: &(impl Print + AllocGlobal), blob: &[u8]) -> io::Result<()> {
    let reading = Reading::of(rt.alloc(), blob, AMPLE)?;
    match reading.found {
        Ok(BlobRead { coords, runs, srid }) => {
            print!(rt; "srid {} coords {coords} runs {runs}", srid.cast_signed())?;
            reading.print_changed(rt)?;
            reading.print_used(rt)
        }
        Err(refusal) => {
            print!(rt; "{refusal}")?;
            reading.print_changed(rt)
        }
    }
}

// Whether a read with just this much workspace is accepted. Nothing, where that is more than there is.
fn print_outcome(
    rt: &(impl Print + AllocGlobal),
    blob: &[u8],
    size: WorkspaceSize,
) -> io::Result<()> {
    if size.floats > AMPLE.floats || size.numbers > AMPLE.numbers {
        return Ok(());
    }
    let reading = Reading::of(rt.alloc(), blob, size)?;
    match reading.found {
        Ok(_) => print!(rt; "read")?,
        Err(refusal) => print!(rt; "{refusal}")?,
    }
    reading.print_changed(rt)
}

// Reads with the lengths that are to be lent, and with one less of each. Where these are refused, nothing is lent.
fn print_by_sizes(rt: &(impl Print + AllocGlobal), blob: &[u8]) -> io::Result<()> {
    let sizes = blob_sizes(blob).map(|Lent { floats, numbers }| WorkspaceSize { floats, numbers });
    match sizes {
        Ok(WorkspaceSize { floats, numbers }) => print!(rt; "; sizes {floats} {numbers}")?,
        Err(refusal) => print!(rt; "; sizes {refusal}")?,
    }
    let size = sizes.unwrap_or(WorkspaceSize::NONE);
    print!(rt; "; exact ")?;
    print_outcome(rt, blob, size)?;
    if let Some(floats) = size.floats.checked_sub(1) {
        print!(rt; "; float short ")?;
        print_outcome(rt, blob, WorkspaceSize { floats, ..size })?;
    }
    if let Some(numbers) = size.numbers.checked_sub(1) {
        print!(rt; "; number short ")?;
        print_outcome(rt, blob, WorkspaceSize { numbers, ..size })?;
    }
    Ok(())
}

fn main(rt: HostRuntime) -> io::Result<()> {
    let Some(blobs) = read_file(&rt, "blobs", ROOM)? else {
        return Ok(());
    };
    for (number, sample) in Records::<Sample>::new(&blobs).enumerate() {
        let Ok(Sample(blob)) = sample else {
            break; // cut off
        };
        print!(rt; "{number} ")?;
        print_read(&rt, blob)?;
        print_by_sizes(&rt, blob)?;
        println!(rt)?;
    }
    Ok(())
}
