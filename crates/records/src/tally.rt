// The report of how many records differ from what is expected.
ghost use Rattle.std.specs.Prelude.{◌≡◌, not, length, count_by};

use std::{fmt, io};

// How many there are, and how many of them differ.
#[derive(Clone, Copy, Debug, PartialEq, Eq)]
pub struct Tally {
    pub total: usize,
    pub differing: usize,
}

impl Tally {
    // The tally of records, each of which is the same as expected or not.
    pub fn of(same: &[bool]) -> Tally
        ensures total { result.total ≡ length same.now }
        ensures differing { result.differing ≡ count_by not same.now }
    {
        Tally {
            total: same.len(),
            differing: same.iter().filter(|same| !**same).count(),
        }
    }
}

impl fmt::Display for Tally {
    fn fmt<W: fmt::Write>(&self, f: &mut fmt::Formatter<W>) -> fmt::Result {
        let Tally { total, differing } = *self;
        write!(f, "{total} records, {differing} differing")
    }
}

// A line for each record that differs, after what the line begins with. It only prints, so no clause says anything.
pub fn report(rt: &impl Print, start: impl fmt::Display + Drop, same: &[bool]) -> io::Result<()> {
    for (number, same) in same.iter().enumerate() {
        if !*same {
            println!(rt; "{start}record {number} differs")?;
        }
    }
    Ok(())
}
