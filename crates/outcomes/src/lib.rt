// What the 3D measures between two blobs answer: document 01's operations as definitions (specs/Operations), for every
// input, and laws of them; and the last step of an operation, whichever pair it swept for: it answers by that pair (the
// functions over Swept).
#![tactic(auto)]

ghost use Rattle.std.specs.Prelude.{◌≡◌, length};
ghost use Rattle.std.specs.Float.Ieee.{le, eq};
ghost use Rattle.ieee754.specs.MinMax.{positive_zero};
ghost use Rattle.gpb.specs.Written.{point_bytes, line_bytes};
ghost use Rattle.outcomes.specs.Answers.{decision_report, written_report};
ghost use Rattle.outcomes.specs.Operations.{blob_value, line_after, point_after};
ghost use Rattle.outcomes.specs.Inner.{answer_of_swept, decided_report, found_in, swept_of, swept_output, swept_report};
ghost use Rattle.outcomes.specs.Inner.{HasRoom};

use primitives::Witness;
use refusals::Refusal;

// A number (may be NaN), none, or a refusal: the scope names these three cases, which each operation takes apart, so
// this is no Result.
#[derive(Clone, Copy)]
pub enum Answer {
    Measured(f64),
    Nothing,
    Refused(Refusal),
}

// Yes or no, or a refusal.
pub type Decision = Result<bool, Refusal>;

// What an accepted operation that writes a blob left in the output.
#[derive(Clone, Copy, PartialEq, Eq, Debug)]
pub enum Written {
    Blob,
    Nothing,
}

// The same, or a refusal.
pub type WrittenBlob = Result<Written, Refusal>;

// The pair that a sweep over both blobs found, with the SRID of side 1.
#[derive(Clone, Copy)]
pub struct Swept {
    pub witness: Witness,
    pub srid: u32,
}

// What a sweep found, with the SRID of side 1.
pub fn with_srid(found: Option<Witness>, srid: u32) -> Option<Swept>
    ensures { result ≡ swept_of srid found }
{
    found.map(|witness| Swept { witness, srid })
}

// The distance of the pair, or none.
impl From<Result<Option<Swept>, Refusal>> for Answer {
    ghost from_gives = { λ pair answer. answer ≡ answer_of_swept pair };

    fn from(pair: Result<Option<Swept>, Refusal>) -> Answer {
        match pair {
            Ok(Some(swept)) => Answer::Measured(swept.witness.d),
            Ok(None) => Answer::Nothing,
            Err(refusal) => Answer::Refused(refusal),
        }
    }
}

// Each operation takes the three cases apart itself: the form that the scope names.
impl Answer {
    // Whether the distance is at most d; no where there is none.
    pub fn within(self, d: f64) -> Decision
        ensures { decision_report result ≡ decided_report (λ m. le m d) self }
    {
        match self {
            Answer::Measured(m) => Ok(m <= d),
            Answer::Nothing => Ok(false), // no distance: not within
            Answer::Refused(refusal) => Err(refusal),
        }
    }

    // Whether the distance is 0; no where there is none.
    pub fn touching(self) -> Decision
        ensures { decision_report result ≡ decided_report (λ m. eq m positive_zero) self }
    {
        match self {
            Answer::Measured(m) => Ok(m == 0.0),
            Answer::Nothing => Ok(false), // no distance: not touching
            Answer::Refused(refusal) => Err(refusal),
        }
    }
}

// The line of the pair, from side 1's point to side 2's. `write_point` mirrors it: one function of both would take what
// is written as a closure, with a clause of its own, for the four lines of a body.
pub fn write_line(pair: Result<Option<Swept>, Refusal>, output: &mut [u8]) -> WrittenBlob
    requires { HasRoom line_bytes (length output.old) (found_in pair) }
    ensures told { written_report result ≡ swept_report blob_value pair }
    ensures left { output.new ≡ swept_output line_after (found_in pair) output.old }
{
    let Some(Swept { witness, srid }) = pair? else {
        return Ok(Written::Nothing); // no pair: no line
    };
    gpb::write_line(output, srid, witness.a, witness.b);
    Ok(Written::Blob)
}

// Side 1's point of the pair.
pub fn write_point(pair: Result<Option<Swept>, Refusal>, output: &mut [u8]) -> WrittenBlob
    requires { HasRoom point_bytes (length output.old) (found_in pair) }
    ensures told { written_report result ≡ swept_report blob_value pair }
    ensures left { output.new ≡ swept_output point_after (found_in pair) output.old }
{
    let Some(swept) = pair? else {
        return Ok(Written::Nothing); // no pair: no point
    };
    gpb::write_point(output, swept.srid, swept.witness.a);
    Ok(Written::Blob)
}
