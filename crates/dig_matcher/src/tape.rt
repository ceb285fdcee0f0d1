// A tape's commands, read one by one from its bytes.
ghost use Rattle.std.specs.Prelude.{◌∷◌};
ghost use Rattle.dig_matcher.specs.Inner.{Reads};

use fields::{f64_at, u32_at};

// A command: a blob to be loaded under a number, a tolerance, two numbers to be matched, or the end.
#[derive(Clone, Copy)]
pub enum Step<'a> {
    Load { number: u8, blob: &'a [u8] },
    Tolerance(f64),
    Pair { first: u8, second: u8 },
    End,
}

// 01: a number, a length, and as many bytes.
#[tactic(auto, using(crate::proofs::TapeLaws::loads), unfolding(crate::specs::Inner::Reads))]
fn read_load(operands: &[u8]) -> Option<(Step<'_>, &[u8])>
    ensures { Reads (1 ∷ operands.now) result }
{
    let [number, _, _, _, _, rest @ ..] = operands else {
        return None;
    };
    let (blob, rest) = rest.split_at_checked(u32_at(operands, 1, true) as usize)?;
    Some((
        Step::Load {
            number: *number,
            blob,
        },
        rest,
    ))
}

// 02: a float.
#[tactic(auto, using(crate::proofs::TapeLaws::tolerances), unfolding(crate::specs::Inner::Reads))]
fn read_tolerance(operands: &[u8]) -> Option<(Step<'_>, &[u8])>
    ensures { Reads (2 ∷ operands.now) result }
{
    let (limit, rest) = operands.split_at_checked(8)?;
    Some((Step::Tolerance(f64_at(limit, 0, true)), rest))
}

// 03: two numbers.
#[tactic(auto, using(crate::proofs::TapeLaws::pairs), unfolding(crate::specs::Inner::Reads))]
fn read_pair(operands: &[u8]) -> Option<(Step<'_>, &[u8])>
    ensures { Reads (3 ∷ operands.now) result }
{
    let [first, second, rest @ ..] = operands else {
        return None;
    };
    Some((
        Step::Pair {
            first: *first,
            second: *second,
        },
        rest,
    ))
}

// A tape's first command, and what is left of the tape after it; none where the tape breaks there, or ends before 04.
// The commands' numbers stand in this one match, which makes values of them: as an enum they would be matched twice.
#[tactic(auto, using(crate::proofs::TapeLaws::commands), unfolding(crate::specs::Inner::Reads))]
pub fn read_command(tape: &[u8]) -> Option<(Step<'_>, &[u8])>
    ensures { Reads tape.now result }
{
    let (command, operands) = tape.split_first()?;
    match *command {
        1 => read_load(operands),
        2 => read_tolerance(operands),
        3 => read_pair(operands),
        4 => Some((Step::End, operands)),
        _ => None,
    }
}
