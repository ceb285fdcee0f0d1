// A dig matcher: a job is a tape of commands, which load blobs, set a tolerance and match blobs by their 3D distance,
// and its answer is a list of hits (document 02, 5/13). It knows the measuring crates by their contracts only.
// Undecided in its contracts are the order of the hits and what a job leaves in the workspaces, refused or not.
//
// 1. `tape`: the commands, read one by one from the tape's bytes.
// 2. A run goes through the commands from hit to hit (`Run`). Blobs stay where they are in the tape.
// 3. Nothing may be written before the whole tape is accepted, so hits are first kept in an array of the matcher's own.
//    Where it holds all of them they are copied; else a second run writes them where they belong (`job`).
#![tactic(auto)]

mod tape;

ghost use Rattle.std.specs.Prelude.{◌≡◌, ℕ, None, [], min, length, get_or};
ghost use Rattle.outcomes.specs.Answers.{answer_report};
ghost use Rattle.outcomes.specs.Lent.{lent};
ghost use Rattle.dig_matcher.specs.Job.{going, start_of_job, loaded_with, hit_lists, JobOutcome};
ghost use Rattle.dig_matcher.specs.Inner.{blob_of, loaded_in, job_at, reported_match, match_of};
ghost use Rattle.dig_matcher.specs.Inner.{run_from, stored, with_hit, GivesNext, KeptOutcome, StoredBy};

use outcomes::Answer;
use refusals::{Reason, Refusal, Side};
use tape::{Step, read_command};
use threed_closest::st_3d_distance;

// Two numbers, and how far apart their blobs are.
#[derive(Clone, Copy, PartialEq, Debug)]
pub struct Hit {
    pub first: u16,
    pub second: u16,
    pub apart: f64,
}

// The hits that are kept before the tape is known to be accepted.
const KEPT: usize = 4096;

// The numbers that blobs can be loaded under.
const NUMBERS: usize = 256;

// How far apart two blobs are, if that is within a limit. The answer's cases are taken apart here too, as the scope has
// it of an operation.
#[tactic(auto, unfolding(crate::specs::Inner::reported_match))]
fn match_by(answer: Answer, limit: f64) -> Result<Option<f64>, Refusal>
    ensures { result ≡ reported_match limit (answer_report answer) }
{
    match answer {
        Answer::Refused(refusal) => Err(refusal),
        Answer::Nothing => Ok(None), // no distance: not within
        Answer::Measured(d) => if d <= limit { Ok(Some(d)) } else { Ok(None) },
    }
}

// The blobs of two numbers, if they are loaded: their distance by rule 1, if it is within the limit.
fn match_pair(
    first: Option<&[u8]>,
    second: Option<&[u8]>,
    limit: f64,
    floats1: &mut [f64],
    table1: &mut [u32],
    floats2: &mut [f64],
    table2: &mut [u32],
) -> Result<Option<f64>, Refusal>
    ensures { result ≡ match_of (lent floats1 table1 floats2 table2) limit
        (blob_of first.entry) (blob_of second.entry) }
{
    match (first, second) {
        (Some(_), Some(_)) if limit < 0.0 => Err(Reason::ToleranceBelowZero.of(Side::Neither)),
        (Some(a), Some(b)) => {
            let answer = st_3d_distance(a, b, 1, floats1, table1, floats2, table2);
            match_by(answer, limit)
        }
        _ => Err(Reason::NoSuchBlob.of(Side::Neither)),
    }
}

// How many hits three lists hold: as many as the shortest.
fn places_in(first: usize, second: usize, distances: usize) -> usize
    ensures { result ≡ min first (min second distances) }
{
    first.min(second.min(distances))
}

// A hit, as the one after k others; where a list has no place for it, nothing.
fn put_hit(first: &mut [u16], second: &mut [u16], distances: &mut [f64], k: usize, hit: Hit)
    ensures { hit_lists first.new second.new distances.new
        ≡ with_hit k hit (hit_lists first.old second.old distances.old) }
{
    if places_in(first.len(), second.len(), distances.len()) <= k {
        return;
    }
    first[k] = hit.first;
    second[k] = hit.second;
    distances[k] = hit.apart;
}

// The hits that were kept, into the first places of the lists.
fn put_hits(first: &mut [u16], second: &mut [u16], distances: &mut [f64], hits: &[Hit])
    ensures { hit_lists first.new second.new distances.new
        ≡ stored (hit_lists first.old second.old distances.old) hits.now }
{
    for (k, hit) in hits.iter().enumerate() {
        put_hit(first, second, distances, k, *hit);
    }
}

// No blob is loaded. A function of its own, so that no proof looks into an array of this length.
fn no_blobs<'a>() -> [Option<&'a [u8]>; NUMBERS]
    ensures { loaded_in result ≡ (λ (n : ℕ). None) }
{
    [None; NUMBERS]
}

// No hit is kept. Of its own for the same reason.
fn no_hits() -> [Hit; KEPT]
    ensures { length result ≡ 4096 }
{
    [Hit {
        first: 0,
        second: 0,
        apart: 0.0,
    }; KEPT]
}

// A blob under a number, whatever was there.
fn load<'a>(blobs: &mut [Option<&'a [u8]>; NUMBERS], number: u8, blob: &'a [u8])
    ensures { loaded_in blobs.new ≡ loaded_with number blob.now (loaded_in blobs.old) }
{
    blobs[number as usize] = Some(blob);
}

// A run through a tape: the blob of each number, if one is loaded; the tolerance; and what is left of the tape.
#[derive(Drop)]
struct Run<'a> {
    blobs: [Option<&'a [u8]>; NUMBERS],
    limit: f64,
    rest: &'a [u8],
}

impl<'a> Run<'a> {
    fn start(tape: &'a [u8]) -> Run<'a>
        ensures job { job_at result [] ≡ start_of_job }
        ensures rest { result.rest.now ≡ tape.now }
    {
        Run {
            blobs: no_blobs(),
            limit: 0.0,
            rest: tape,
        }
    }

    // The commands up to the next hit, or to the tape's end.
    fn next_hit(
        &mut self,
        floats1: &mut [f64],
        table1: &mut [u32],
        floats2: &mut [f64],
        table2: &mut [u32],
    ) -> Result<Option<Hit>, Refusal>
        ensures { GivesNext (lent floats1 table1 floats2 table2) self.old self.new result }
    {
        while let Some((step, rest)) = read_command(self.rest) {
            self.rest = rest;
            match step {
                Step::End => {
                    return Ok(None);
                }
                Step::Load { number, blob } => {
                    load(&mut self.blobs, number, blob);
                }
                Step::Tolerance(limit) => {
                    self.limit = limit;
                }
                Step::Pair { first, second } => {
                    let a = self.blobs[first as usize];
                    let b = self.blobs[second as usize];
                    let matched = match_pair(a, b, self.limit, floats1, table1, floats2, table2)?;
                    if let Some(apart) = matched {
                        return Ok(Some(Hit {
                            first: u16::from(first),
                            second: u16::from(second),
                            apart,
                        }));
                    }
                }
            }
        }
        // 20: an unknown command, or the tape ends before 04 or inside a command.
        Err(Reason::BrokenTape.of(Side::Neither))
    }
}

// The number of a tape's hits; the array gets as many of the first as it holds.
fn keep_hits(
    tape: &[u8],
    floats1: &mut [f64],
    table1: &mut [u32],
    floats2: &mut [f64],
    table2: &mut [u32],
    kept: &mut [Hit],
) -> Result<usize, Refusal>
    ensures { KeptOutcome (run_from (lent floats1 table1 floats2 table2) (going start_of_job) tape.now)
        kept.old kept.new result }
{
    let mut run = Run::start(tape);
    let mut hits: usize = 0;
    while let Some(hit) = run.next_hit(floats1, table1, floats2, table2)? {
        if hits < kept.len() {
            kept[hits] = hit;
        }
        hits += 1;
    }
    Ok(hits)
}

// The hits of a tape that is accepted, where they belong. The loop of `keep_hits` again: that one hands a refusal on
// and keeps what fits, and this one meets neither; one loop for both would take a closure that borrows three lists.
fn write_hits(
    tape: &[u8],
    floats1: &mut [f64],
    table1: &mut [u32],
    floats2: &mut [f64],
    table2: &mut [u32],
    first: &mut [u16],
    second: &mut [u16],
    distances: &mut [f64],
)
    ensures { StoredBy (run_from (lent floats1 table1 floats2 table2) (going start_of_job) tape.now)
        (hit_lists first.old second.old distances.old)
        (hit_lists first.new second.new distances.new) }
{
    let mut run = Run::start(tape);
    let mut hits: usize = 0;
    while let Ok(Some(hit)) = run.next_hit(floats1, table1, floats2, table2) {
        put_hit(first, second, distances, hits, hit);
        hits += 1;
    }
}

// A job: the number of its hits, which are in the first places of the three lists.
pub fn job(
    tape: &[u8],
    floats1: &mut [f64],
    table1: &mut [u32],
    floats2: &mut [f64],
    table2: &mut [u32],
    first: &mut [u16],
    second: &mut [u16],
    distances: &mut [f64],
) -> Result<usize, Refusal>
    ensures whole_outcome { JobOutcome tape.now (lent floats1 table1 floats2 table2)
        (hit_lists first.old second.old distances.old)
        (hit_lists first.new second.new distances.new) result }
{
    let mut kept = no_hits();
    let hits = keep_hits(tape, floats1, table1, floats2, table2, &mut kept)?;
    if places_in(first.len(), second.len(), distances.len()) < hits {
        return Err(Reason::ListsTooShort.of(Side::Neither));
    }
    if hits <= KEPT {
        put_hits(first, second, distances, &kept[..hits]);
    } else {
        write_hits(
            tape, floats1, table1, floats2, table2, first, second, distances,
        );
    }
    Ok(hits)
}
