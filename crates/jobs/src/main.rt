// Runs the job of each record of data/calls (document 02, 5/13), and prints how many records there are and how many
// differ, after a line for each that does. tools/jobs/README.md gives a record's layout. The order of the hits is open,
// so they are compared in order of their numbers and patterns.
#![tactic(auto)]

ghost use Rattle.std.specs.Prelude.{◌*◌, ◌-◌, ◌≤◌, ◌<◌, length};

use dig_matcher::job;
use ieee754::to_pattern;
use records::{
    Outcome, Reader, Record, RecordError, Records, Refused, Tally, Workspace, WorkspaceSize,
    changed, lend, outcome_if_lent, read_file, report,
};
use std::alloc::{AllocError, Global};
use std::io;

// Room for a whole file.
const ROOM: u64 = 1048576;

// The memory of which a job is lent the first places: each side's workspace, and each list.
const WORKSPACE: WorkspaceSize = WorkspaceSize {
    floats: 256,
    numbers: 64,
};

const LISTS: ListSizes = ListSizes {
    first: 64,
    second: 64,
    distances: 64,
};

// Two numbers, and the pattern of the distance.
#[derive(Clone, Copy, PartialEq, Eq, PartialOrd, Ord)]
struct Hit {
    first: u32,
    second: u32,
    pattern: u64,
}

impl Hit {
    // The bytes that a record has of a hit.
    const SIZE: usize = 16;
}

impl<'a> Record<'a> for Hit {
    fn read(from: &mut Reader<'a>) -> Result<Self, RecordError> {
        let first = from.number()?;
        let second = from.number()?;
        let pattern = from.number()?;
        Ok(Hit {
            first,
            second,
            pattern,
        })
    }
}

// The lists that a job writes its hits into, and how long each of them is.
#[derive(Drop)]
struct Lists {
    first: Vec<u16>,
    second: Vec<u16>,
    distances: Vec<f64>,
}

#[derive(Clone, Copy)]
struct ListSizes {
    first: usize,
    second: usize,
    distances: usize,
}

impl<'a> Record<'a> for ListSizes {
    fn read(from: &mut Reader<'a>) -> Result<Self, RecordError> {
        let first = from.length()?;
        let second = from.length()?;
        let distances = from.length()?;
        Ok(ListSizes {
            first,
            second,
            distances,
        })
    }
}

impl Lists {
    fn lend(alloc: Global, sizes: ListSizes) -> Result<Lists, AllocError> {
        Ok(Lists {
            first: lend(alloc, sizes.first)?,
            second: lend(alloc, sizes.second)?,
            distances: lend(alloc, sizes.distances)?,
        })
    }

    // The hits in the first n places, in order.
    fn sorted(&self, alloc: Global, n: usize) -> Result<Vec<Hit>, AllocError> {
        let mut hits: Vec<Hit> = self
            .first
            .iter()
            .zip(self.second.iter())
            .zip(self.distances.iter())
            .take(n)
            .map(|((first, second), distance)| Hit {
                first: u32::from(*first),
                second: u32::from(*second),
                pattern: to_pattern(*distance),
            })
            .collect(alloc)?;
        hits.sort_unstable();
        Ok(hits)
    }

    // Do all places keep their marks, from place n on?
    fn kept(&self, n: usize) -> bool {
        changed(&self.first, n) == 0
            && changed(&self.second, n) == 0
            && changed(&self.distances, n) == 0
    }
}

// A tape, what is lent for it, and what is expected: the number of hits, and the hits. No outcome: more is lent than
// there is.
#[derive(Drop)]
struct Call<'a> {
    tape: &'a [u8],
    lent1: WorkspaceSize,
    lent2: WorkspaceSize,
    lists: ListSizes,
    outcome: Option<Outcome>,
    hits: &'a [u8],
}

impl<'a> Record<'a> for Call<'a> {
    fn read(from: &mut Reader<'a>) -> Result<Self, RecordError> {
        let length = from.length()?;
        let lent1 = WorkspaceSize::read(from)?;
        let lent2 = WorkspaceSize::read(from)?;
        let lists = ListSizes::read(from)?;
        let case = from.number()?;
        let refused = Refused::read(from)?;
        let count = from.length()?;
        let tape = from.take(length)?;
        let hits = from.take(Hit::SIZE * count)?;
        Ok(Call {
            tape,
            lent1,
            lent2,
            lists,
            outcome: outcome_if_lent(case, refused, count)?,
            hits,
        })
    }
}

impl Call<'_> {
    // The hits that are expected, in order.
    fn sorted(&self, alloc: Global) -> Result<Vec<Hit>, AllocError> {
        let mut hits: Vec<Hit> = Records::<Hit>::new(self.hits)
            .filter_map(Result::ok)
            .collect(alloc)?;
        hits.sort_unstable();
        Ok(hits)
    }

    // What the job answers, lent the first places of this memory; none where there are fewer than the record lends.
    fn answer(
        &self,
        one: &mut Workspace,
        two: &mut Workspace,
        lists: &mut Lists,
    ) -> Option<Outcome> {
        let (floats1, _) = one.floats.split_at_mut_checked(self.lent1.floats)?;
        let (table1, _) = one.table.split_at_mut_checked(self.lent1.numbers)?;
        let (floats2, _) = two.floats.split_at_mut_checked(self.lent2.floats)?;
        let (table2, _) = two.table.split_at_mut_checked(self.lent2.numbers)?;
        let (first, _) = lists.first.split_at_mut_checked(self.lists.first)?;
        let (second, _) = lists.second.split_at_mut_checked(self.lists.second)?;
        let (distances, _) = lists.distances.split_at_mut_checked(self.lists.distances)?;
        let answer = job(
            self.tape, floats1, table1, floats2, table2, first, second, distances,
        );
        Some(answer.map_err(Refused::from))
    }

    // Does the job answer, and leave the lists, as expected?
    fn is_same(&self, alloc: Global) -> Result<bool, AllocError> {
        let mut one = Workspace::lend(alloc, WORKSPACE)?;
        let mut two = Workspace::lend(alloc, WORKSPACE)?;
        let mut lists = Lists::lend(alloc, LISTS)?;
        if self.answer(&mut one, &mut two, &mut lists) != self.outcome {
            return Ok(false);
        }
        let expected = self.sorted(alloc)?;
        let found = lists.sorted(alloc, expected.len())?;
        Ok(found == expected && lists.kept(expected.len()))
    }
}

fn main(rt: HostRuntime) -> io::Result<()> {
    let Some(calls) = read_file(&rt, "calls", ROOM)? else {
        return Ok(());
    };
    let mut same = Vec::new(rt.alloc());
    for call in Records::<Call>::new(&calls) {
        same.push(call.map_or(Ok(false), |call| call.is_same(rt.alloc()))?)?;
    }
    report(&rt, "", &same)?;
    println!(rt; "{}", Tally::of(&same))?;
    Ok(())
}
