// Joins the two blobs of each record of data/calls (document 02, 4/13), and prints how many records there are and how
// many differ, after a line for each that does. tools/joins/README.md gives a record's layout.
#![tactic(auto)]

ghost use Rattle.std.specs.Prelude.{◌≤◌, ◌-◌, length};

use joining::join;
use records::{
    Outcome, Reader, Record, RecordError, Records, Refused, Tally, holds_by_pattern, lend,
    outcome_if_lent, read_file, report,
};
use std::alloc::{AllocError, Global};
use std::io;

// Room for a whole file.
const ROOM: u64 = 1048576;

// The output of which a call is lent the first bytes.
const OUTPUT: usize = 1024;

// Two blobs, the length of the output that is lent, and what is expected: the size of the join, and what is written. No
// outcome: more is lent than there is.
#[derive(Drop)]
struct Call<'a> {
    a: &'a [u8],
    b: &'a [u8],
    lent: usize,
    outcome: Option<Outcome>,
    written: &'a [u8],
}

impl<'a> Record<'a> for Call<'a> {
    fn read(from: &mut Reader<'a>) -> Result<Self, RecordError> {
        let length_a = from.length()?;
        let length_b = from.length()?;
        let lent = from.length()?;
        let case = from.number()?;
        let refused = Refused::read(from)?;
        let size = from.length()?;
        let a = from.take(length_a)?;
        let b = from.take(length_b)?;
        let written = from.take(size)?;
        Ok(Call {
            a,
            b,
            lent,
            outcome: outcome_if_lent(case, refused, size)?,
            written,
        })
    }
}

impl Call<'_> {
    // Does the join answer, and leave the output, as expected?
    fn is_same(&self, alloc: Global) -> Result<bool, AllocError> {
        let mut output: Vec<u8> = lend(alloc, OUTPUT)?;
        let outcome = match output.split_at_mut_checked(self.lent) {
            Some((lent, _)) => Some(join(self.a, self.b, lent).map_err(Refused::from)),
            None => None,
        };
        Ok(outcome == self.outcome && holds_by_pattern(&output, self.written))
    }
}

fn main(rt: HostRuntime) -> io::Result<()> {
    let Some(calls) = read_file(&rt, "calls", ROOM)? else {
        return Ok(());
    };
    let mut same = Vec::new(rt.alloc());
    for call in Records::<Call>::new(&calls) {
        same.push(call.map_or(Ok(false), |call| call.is_same(rt.alloc()))?)?;
    }
    report(&rt, "", &same)?;
    println!(rt; "{}", Tally::of(&same))?;
    Ok(())
}
