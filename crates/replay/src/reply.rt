// What a call answers, whatever the operation.
ghost use Rattle.std.specs.Prelude.{◌≡◌, IfOk, IfErr};
ghost use Rattle.outcomes.specs.Answers.{answer_report, decision_report, written_report};
ghost use Rattle.interpolation.specs.Operation.{interpolated_report};
ghost use Rattle.replay.specs.Calls.{told, told_patch, told_sizes, Tells};

use blob::Lent;
use ieee754::to_pattern;
use outcomes::{Answer, Written};
use records::{RecordError, Refused};
use refusals::Refusal;
use surface::{Part, PatchError};

// The five cases of a record. No operation has all of them, so this is none of the library's results.
#[derive(Clone, Copy, Debug, PartialEq, Eq)]
pub enum Reply {
    // There is nothing, or no.
    Nothing,
    // Yes, or a blob that was written; a distance's pattern; a part's start and end; or the lengths to lend. Numbers
    // that are not told are 0.
    Answered(u64, u64),
    Refused(Refused),
    NoSurface,
    // No operation has the record's number, or it lends more than there is: nothing is called.
    Unknown,
}

impl Reply {
    // Yes, or a blob that was written.
    const YES: Reply = Reply::Answered(0, 0);

    // The reply that a record's numbers tell. Of cases 1 and 2 `records::outcome_of` reads one number, not two: a form
    // for both would be longer than these two lines.
    pub fn of(case: u32, refused: Refused, first: u64, second: u64) -> Result<Reply, RecordError>
        ensures nothing { case ≡ 0 → refused ≡ Refused.NONE → first ≡ 0 → second ≡ 0
            → result ≡ Ok Reply.Nothing }
        ensures answered { case ≡ 1 → refused ≡ Refused.NONE → result ≡ Ok (Reply.Answered first second) }
        ensures refused { case ≡ 2 → first ≡ 0 → second ≡ 0 → result ≡ Ok (Reply.Refused refused) }
        ensures no_surface { case ≡ 3 → refused ≡ Refused.NONE → first ≡ 0 → second ≡ 0
            → result ≡ Ok Reply.NoSurface }
        ensures unknown_call { case ≡ 4 → refused ≡ Refused.NONE → first ≡ 0 → second ≡ 0
            → result ≡ Ok Reply.Unknown }
        ensures known { IfOk result (λ reply. Tells reply case refused first second) }
        ensures unknown { IfErr result (λ e. e ≡ RecordError.Unknown case) }
    {
        let no_refusal = refused == Refused::NONE;
        let no_answer = first == 0 && second == 0;
        match case {
            0 if no_refusal && no_answer => Ok(Reply::Nothing),
            1 if no_refusal => Ok(Reply::Answered(first, second)),
            2 if no_answer => Ok(Reply::Refused(refused)),
            3 if no_refusal && no_answer => Ok(Reply::NoSurface),
            4 if no_refusal && no_answer => Ok(Reply::Unknown),
            _ => Err(RecordError::Unknown(case)),
        }
    }
}

impl From<Answer> for Reply {
    ghost from_gives = { λ answer reply. reply ≡ told (answer_report answer) };

    fn from(answer: Answer) -> Reply {
        match answer {
            Answer::Measured(d) => Reply::Answered(to_pattern(d), 0),
            Answer::Nothing => Reply::Nothing,
            Answer::Refused(refusal) => Reply::Refused(refusal.into()),
        }
    }
}

// Whether it is so.
impl From<Result<bool, Refusal>> for Reply {
    ghost from_gives = { λ decision reply. reply ≡ told (decision_report decision) };

    fn from(decision: Result<bool, Refusal>) -> Reply {
        match decision {
            Ok(true) => Reply::YES,
            Ok(false) => Reply::Nothing,
            Err(refusal) => Reply::Refused(refusal.into()),
        }
    }
}

impl From<Result<Written, Refusal>> for Reply {
    ghost from_gives = { λ written reply. reply ≡ told (written_report written) };

    fn from(written: Result<Written, Refusal>) -> Reply {
        match written {
            Ok(Written::Blob) => Reply::YES,
            Ok(Written::Nothing) => Reply::Nothing,
            Err(refusal) => Reply::Refused(refusal.into()),
        }
    }
}

// A point that is written.
impl From<Result<(), Refusal>> for Reply {
    ghost from_gives = { λ point reply. reply ≡ told (interpolated_report point) };

    fn from(point: Result<(), Refusal>) -> Reply {
        match point {
            Ok(()) => Reply::YES,
            Err(refusal) => Reply::Refused(refusal.into()),
        }
    }
}

impl From<Result<Lent, Refusal>> for Reply {
    ghost from_gives = { λ sizes reply. reply ≡ told_sizes sizes };

    fn from(sizes: Result<Lent, Refusal>) -> Reply {
        match sizes {
            Ok(Lent { floats, numbers }) => Reply::Answered(floats as u64, numbers as u64),
            Err(refusal) => Reply::Refused(refusal.into()),
        }
    }
}

impl From<Result<Option<Part>, PatchError>> for Reply {
    ghost from_gives = { λ patch reply. reply ≡ told_patch patch };

    fn from(patch: Result<Option<Part>, PatchError>) -> Reply {
        match patch {
            Ok(Some(Part { start, end })) => Reply::Answered(start as u64, end as u64),
            Ok(None) => Reply::Nothing,
            Err(PatchError::NoSurface) => Reply::NoSurface,
            Err(PatchError::Refused(refusal)) => Reply::Refused(refusal.into()),
        }
    }
}
