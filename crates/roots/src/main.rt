// Takes the root of each number of data/numbers, with the digits needed and alone, and prints how many records there
// are and how many differ, after a line for each that does. A record is three little-endian numbers of 64 bits: the
// pattern of a number, the pattern of its root, and the digits (document 02, 2/13). A NaN is 7FF8000000000000.
#![tactic(auto)]

ghost use Rattle.std.specs.Prelude.{◌≤◌, ◌-◌, length};

use ieee754::{root, root_and_digits, to_pattern};
use records::{Reader, Record, RecordError, Records, Tally, read_file};
use std::{fmt, fs, io};

// Room for a whole file.
const ROOM: u64 = 262144;

// What there is of a number: the pattern of its root and the digits, and the pattern of the root that is taken alone.
#[derive(Clone, Copy, PartialEq, Eq)]
struct Root {
    root: u64,
    digits: u64,
    alone: u64,
}

impl Root {
    fn of(s: f64) -> Root {
        let found = root_and_digits(s);
        Root {
            root: to_pattern(found.root),
            digits: u64::from(found.digits),
            alone: to_pattern(root(s)),
        }
    }
}

impl fmt::Display for Root {
    fn fmt<W: fmt::Write>(&self, f: &mut fmt::Formatter<W>) -> fmt::Result {
        let Root {
            root,
            digits,
            alone,
        } = *self;
        write!(
            f,
            "root {root:016x}, digits {digits}, root alone {alone:016x}"
        )
    }
}

// A number, and what is expected of it.
#[derive(Clone, Copy)]
struct Expected {
    number: f64,
    root: Root,
}

impl<'a> Record<'a> for Expected {
    fn read(from: &mut Reader<'a>) -> Result<Self, RecordError> {
        let number = from.number()?;
        let root = from.number()?;
        let digits = from.number()?;
        Ok(Expected {
            number,
            root: Root {
                root,
                digits,
                alone: root,
            },
        })
    }
}

fn main(rt: HostRuntime) -> io::Result<()> {
    let Some(numbers) = read_file(&rt, "numbers", ROOM)? else {
        return Ok(());
    };
    let mut same = Vec::new(rt.alloc());
    for (number, expected) in Records::<Expected>::new(&numbers).enumerate() {
        let Ok(expected) = expected else {
            break; // cut off
        };
        let found = Root::of(expected.number);
        if found != expected.root {
            println!(rt; "record {number} differs: {found}")?;
        }
        same.push(found == expected.root)?;
    }
    println!(rt; "{}", Tally::of(&same))?;
    Ok(())
}
