// What C reads of an answer: a case, the number and side of a refusal, and a number or two; a root and its digits.
// Undecided in its contracts is only the payload, sign included, of a NaN in an answered number.
#![tactic(auto)]

ghost use Rattle.std.specs.Prelude.{◌≡◌};
ghost use Rattle.interpolation.specs.Operation.{interpolated_report};
ghost use Rattle.outcomes.specs.Answers.{answer_report, decision_report, written_report};
ghost use Rattle.replies.specs.Replies.{reply_nothing, reply_answered, reply_refusal, reply_of};
ghost use Rattle.replies.specs.Replies.{case_number, pair_of, pair_refusal};
ghost use Rattle.replies.specs.Replies.{sizes_reply, error_reply, patch_reply, size_reply};
ghost use Rattle.replies.specs.PatchReplies.{patches_reply};

use blob::Lent;
use ieee754::RootAndDigits;
use outcomes::{Answer, Decision, Written, WrittenBlob};
use refusals::Refusal;
use surface::{Part, PatchError, PatchList};

// What an operation returns: a case, the number and side of a refusal, a number.
#[repr(C)]
#[derive(Clone, Copy)]
pub struct Reply {
    pub case: u32,
    pub number: u32,
    pub side: u32,
    pub value: f64,
}

// What is returned where two numbers answer.
#[repr(C)]
#[derive(Clone, Copy)]
pub struct PairReply {
    pub case: u32,
    pub number: u32,
    pub side: u32,
    pub first: usize,
    pub second: usize,
}

// What is returned of a root: itself, and the digits needed.
#[repr(C)]
#[derive(Clone, Copy)]
pub struct RootReply {
    pub root: f64,
    pub digits: u32,
}

// The cases, as C reads them: nothing, or no; a number, yes, a blob in the output, or two numbers; a refusal, whose
// number and side say why; a patch was asked of a blob that is no surface.
#[derive(Clone, Copy, PartialEq, Eq, Debug)]
enum Case {
    Nothing = 0,
    Answered = 1,
    Refused = 2,
    NoSurface = 3,
}

// The numbers of two of them, for callers that read a reply.
pub const ANSWERED: u32 = Case::Answered as u32;

pub const NO_SURFACE: u32 = Case::NoSurface as u32;

const _: () = prove!(ANSWERED == 1);

const _: () = prove!(NO_SURFACE == 3);

impl Reply {
    // There is no answer, or no is the answer.
    fn nothing() -> Reply
        ensures { result ≡ reply_nothing }
    {
        Reply {
            case: Case::Nothing as u32,
            number: 0,
            side: 0,
            value: 0.0,
        }
    }

    // There is an answer: its number, or 0.
    fn answered(value: f64) -> Reply
        ensures { result ≡ reply_answered value }
    {
        Reply {
            case: ANSWERED,
            number: 0,
            side: 0,
            value,
        }
    }
}

// A refused call.
impl From<Refusal> for Reply {
    ghost from_gives = { λ refusal reply. reply ≡ reply_refusal refusal };

    fn from(refusal: Refusal) -> Reply {
        Reply {
            case: Case::Refused as u32,
            number: refusal.reason.number(),
            side: refusal.side.number(),
            value: 0.0,
        }
    }
}

// A distance.
impl From<Answer> for Reply {
    ghost from_gives = { λ answer reply. reply ≡ reply_of (answer_report answer) };

    fn from(answer: Answer) -> Reply {
        match answer {
            Answer::Measured(d) => Reply::answered(d),
            Answer::Nothing => Reply::nothing(),
            Answer::Refused(refusal) => refusal.into(),
        }
    }
}

// A question.
impl From<Decision> for Reply {
    ghost from_gives = { λ decision reply. reply ≡ reply_of (decision_report decision) };

    fn from(decision: Decision) -> Reply {
        match decision {
            Ok(true) => Reply::answered(0.0),
            Ok(false) => Reply::nothing(),
            Err(refusal) => refusal.into(),
        }
    }
}

// A blob that was asked for.
impl From<WrittenBlob> for Reply {
    ghost from_gives = { λ written reply. reply ≡ reply_of (written_report written) };

    fn from(written: WrittenBlob) -> Reply {
        match written {
            Ok(Written::Blob) => Reply::answered(0.0),
            Ok(Written::Nothing) => Reply::nothing(),
            Err(refusal) => refusal.into(),
        }
    }
}

// An interpolated point.
impl From<Result<(), Refusal>> for Reply {
    ghost from_gives = { λ interpolated reply. reply ≡ reply_of (interpolated_report interpolated) };

    fn from(interpolated: Result<(), Refusal>) -> Reply {
        match interpolated {
            Ok(()) => Reply::answered(0.0),
            Err(refusal) => refusal.into(),
        }
    }
}

impl PairReply {
    // A case that is no refusal, with two numbers.
    fn of(case: Case, first: usize, second: usize) -> PairReply
        ensures { result ≡ pair_of (case_number case) first second }
    {
        PairReply {
            case: case as u32,
            number: 0,
            side: 0,
            first,
            second,
        }
    }

    // Two numbers that answer.
    pub fn answered(first: usize, second: usize) -> PairReply
        ensures { result ≡ pair_of 1 first second }
    {
        PairReply::of(Case::Answered, first, second)
    }
}

// A refused call.
impl From<Refusal> for PairReply {
    ghost from_gives = { λ refusal reply. reply ≡ pair_refusal refusal };

    fn from(refusal: Refusal) -> PairReply {
        PairReply {
            case: Case::Refused as u32,
            number: refusal.reason.number(),
            side: refusal.side.number(),
            first: 0,
            second: 0,
        }
    }
}

// No patch: the blob is no surface, or refused.
impl From<PatchError> for PairReply {
    ghost from_gives = { λ error reply. reply ≡ error_reply error };

    fn from(error: PatchError) -> PairReply {
        match error {
            PatchError::NoSurface => PairReply::of(Case::NoSurface, 0, 0),
            PatchError::Refused(refusal) => refusal.into(),
        }
    }
}

// A patch: where it starts and ends.
impl From<Result<Option<Part>, PatchError>> for PairReply {
    ghost from_gives = { λ patch reply. reply ≡ patch_reply patch };

    fn from(patch: Result<Option<Part>, PatchError>) -> PairReply {
        match patch {
            Ok(Some(Part { start, end })) => PairReply::answered(start, end),
            Ok(None) => PairReply::of(Case::Nothing, 0, 0),
            Err(error) => error.into(),
        }
    }
}

// The patches of a surface: where the first starts, and how many there are.
impl From<Result<PatchList, PatchError>> for PairReply {
    ghost from_gives = { λ patches reply. reply ≡ patches_reply patches };

    fn from(patches: Result<PatchList, PatchError>) -> PairReply {
        match patches {
            Ok(PatchList { first, count }) => PairReply::answered(first, count as usize),
            Err(error) => error.into(),
        }
    }
}

// The lengths to lend for a blob: floats, then numbers.
impl From<Result<Lent, Refusal>> for PairReply {
    ghost from_gives = { λ sizes reply. reply ≡ sizes_reply sizes };

    fn from(sizes: Result<Lent, Refusal>) -> PairReply {
        match sizes {
            Ok(Lent { floats, numbers }) => PairReply::answered(floats, numbers),
            Err(refusal) => refusal.into(),
        }
    }
}

// One number that answers: the size of a blob that was written, or how many hits a job has.
impl From<Result<usize, Refusal>> for PairReply {
    ghost from_gives = { λ size reply. reply ≡ size_reply size };

    fn from(size: Result<usize, Refusal>) -> PairReply {
        match size {
            Ok(n) => PairReply::answered(n, 0),
            Err(refusal) => refusal.into(),
        }
    }
}

// A root that was asked for with its digits.
impl From<RootAndDigits> for RootReply {
    ghost from_gives = { λ found reply. (reply.root ≡ found.root) × (reply.digits ≡ found.digits) };

    fn from(found: RootAndDigits) -> RootReply {
        RootReply {
            root: found.root,
            digits: found.digits,
        }
    }
}
