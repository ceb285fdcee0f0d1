// A refusal in a record's numbers.
ghost use Rattle.std.specs.Prelude.{◌≡◌, ◌-◌, ◌≤◌, ◌⊎◌, length, take, drop, true, None, Some, IfOk, IfErr};
ghost use Rattle.fields.specs.Fields.{u32_at};
ghost use Rattle.refusals.specs.Table.{number_of, number_of_side};

use crate::reader::{Reader, Record, RecordError};
use refusals::Refusal;

#[derive(Clone, Copy, Debug, PartialEq, Eq)]
pub struct Refused {
    pub number: u32,
    pub side: u32,
}

impl Refused {
    // What stands beside an answer that is no refusal.
    pub const NONE: Refused = Refused { number: 0, side: 0 };
}

impl From<Refusal> for Refused {
    ghost from_gives = { λ refusal r. (r.number ≡ number_of refusal.reason)
        × (r.side ≡ number_of_side refusal.side) };

    fn from(refusal: Refusal) -> Refused {
        Refused {
            number: refusal.reason.number(),
            side: refusal.side.number(),
        }
    }
}

impl<'a> Record<'a> for Refused {
    fn read(from: &mut Reader<'a>) -> Result<Self, RecordError>
        ensures taken { length from.new ≤ length from.old - 1 }
        ensures value { IfOk result (λ r. (r.number ≡ u32_at true (take 4 from.old) 0)
            × (r.side ≡ u32_at true (take 4 (drop 4 from.old)) 0)) }
    {
        let number = from.number()?;
        let side = from.number()?;
        Ok(Refused { number, side })
    }
}

// What a call answers that has a size to tell, or a refusal.
pub type Outcome = Result<usize, Refused>;

// The outcome that a record's numbers tell: 1 that there is a size, 2 that there is a refusal. Records of two numbers
// and four cases are read by the program `replay`.
pub fn outcome_of(case: u32, refused: Refused, size: usize) -> Result<Outcome, RecordError>
    ensures size { case ≡ 1 → refused ≡ Refused.NONE → result ≡ Ok (Ok size) }
    ensures refusal { case ≡ 2 → size ≡ 0 → result ≡ Ok (Err refused) }
    ensures known { IfOk result (λ o. (case ≡ 1) × (refused ≡ Refused.NONE) × (o ≡ Ok size)
        ⊎ (case ≡ 2) × (size ≡ 0) × (o ≡ Err refused)) }
    ensures unknown { IfErr result (λ e. e ≡ RecordError.Unknown case) }
{
    match case {
        1 if refused == Refused::NONE => Ok(Ok(size)),
        2 if size == 0 => Ok(Err(refused)),
        _ => Err(RecordError::Unknown(case)),
    }
}

// The outcome that a record's numbers tell, or none: 3 that the record lends more than there is, so that nothing is
// called.
pub fn outcome_if_lent(
    case: u32,
    refused: Refused,
    size: usize,
) -> Result<Option<Outcome>, RecordError>
    ensures size { case ≡ 1 → refused ≡ Refused.NONE → result ≡ Ok (Some (Ok size)) }
    ensures refusal { case ≡ 2 → size ≡ 0 → result ≡ Ok (Some (Err refused)) }
    ensures not_lent { case ≡ 3 → refused ≡ Refused.NONE → size ≡ 0 → result ≡ Ok None }
    ensures known { IfOk result (λ o. (case ≡ 1) × (refused ≡ Refused.NONE) × (o ≡ Some (Ok size))
        ⊎ (case ≡ 2) × (size ≡ 0) × (o ≡ Some (Err refused))
        ⊎ (case ≡ 3) × (refused ≡ Refused.NONE) × (size ≡ 0) × (o ≡ None)) }
    ensures unknown { IfErr result (λ e. e ≡ RecordError.Unknown case) }
{
    match case {
        3 if refused == Refused::NONE && size == 0 => Ok(None),
        _ => Ok(Some(outcome_of(case, refused, size)?)),
    }
}
