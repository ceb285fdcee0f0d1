// Replays the records of data/, calls with the answers that are expected of them, and prints for each file how many
// records it has and how many of them differ, after a line for each that does; then how many patches the cursor lists
// of the surfaces in it, and how many of these differ from the patches by number. data/README.md gives a record's
// layout.
#![tactic(auto)]

mod call;
mod patches;
mod reply;

use call::Call;
use patches::compare;
use records::{Records, Tally, read_file, report};
use std::io;
use std::rt::Files;

const FILES: [&str; 13] = [
    "distance",
    "max_distance",
    "dwithin",
    "dfully_within",
    "intersects",
    "closest_point",
    "shortest_line",
    "longest_line",
    "line_interpolate_point",
    "patch",
    "sizes",
    "fixtures",
    "rules",
];

// Room for a whole file.
const ROOM: u64 = 262144;

fn replay(rt: &(impl Files + Print + Eprint + AllocGlobal), name: &str) -> io::Result<()> {
    let Some(calls) = read_file(rt, name, ROOM)? else {
        return Ok(());
    };
    let mut same = Vec::new(rt.alloc());
    let mut patches = Vec::new(rt.alloc());
    for call in Records::<Call>::new(&calls) {
        let Ok(call) = call else {
            same.push(false)?;
            continue; // cut off
        };
        same.push(call.is_same(rt.alloc())?)?;
        compare(call.a, &mut patches)?;
        compare(call.b, &mut patches)?;
    }
    report(rt, format_args!("{name}: "), &same)?;
    let records = Tally::of(&same);
    let Tally { total, differing } = Tally::of(&patches);
    println!(rt; "{name}: {records}; {total} patches by the cursor, {differing} differing")?;
    Ok(())
}

fn main(rt: HostRuntime) -> io::Result<()> {
    for name in FILES {
        replay(&rt, name)?;
    }
    Ok(())
}
