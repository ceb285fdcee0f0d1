// 3D measures by the farthest pair of vertices of two blobs: document 01's max distance, fully within and longest
// line, for every input.
// Undecided in its contracts is only the payload, sign included, of a NaN in a workspace or in an answered number;
// output bytes are wholly decided.
#![tactic(auto)]

ghost use Rattle.std.specs.Prelude.{◌≡◌, []};
ghost use Rattle.outcomes.specs.Lent.{lent, left};
ghost use Rattle.outcomes.specs.Answers.{nothing, blob, answering, answer_report, decision_report, written_report};
ghost use Rattle.outcomes.specs.Operations.{outcome, farthest_pair, max_distance, fully_within, longest_line};
ghost use Rattle.outcomes.specs.Inner.{PairSwept};
ghost use Rattle.outcomes.specs.ThirdProperty.{LongestOfAll};
ghost use Rattle.reading.specs.Inner.{first_asked};

use gpb::LINE_BYTES;
use outcomes::{Answer, Decision, Swept, WrittenBlob};
use parts::Stored;
use reading::Asked;
use refusals::Refusal;

// The farthest pair of the vertices of two blobs, once they are read into lent memory.
fn farthest_pair(
    a: &[u8],
    b: &[u8],
    asked: Asked,
    floats1: &mut [f64],
    table1: &mut [u32],
    floats2: &mut [f64],
    table2: &mut [u32],
) -> Result<Option<Swept>, Refusal>
    ensures { PairSwept (first_asked asked a.now b.now (lent floats1 table1 floats2 table2))
        (farthest_pair a.now b.now) a.now b.now
        (lent floats1 table1 floats2 table2) (left floats1 table1 floats2 table2) result }
{
    let read = reading::read_both(a, b, asked, floats1, table1, floats2, table2)?;
    let first = Stored::new(floats1, &table1[..read.numbers1]);
    let second = Stored::new(floats2, &table2[..read.numbers2]);
    let found = farthest::farthest(&first, &second);
    Ok(outcomes::with_srid(found, read.srid))
}

// The greatest distance of a vertex of side 1 from one of side 2.
pub fn st_3d_max_distance(
    a: &[u8],
    b: &[u8],
    floats1: &mut [f64],
    table1: &mut [u32],
    floats2: &mut [f64],
    table2: &mut [u32],
) -> Answer
    ensures whole_outcome { outcome (answer_report result) (left floats1 table1 floats2 table2) []
        ≡ max_distance a.now b.now (lent floats1 table1 floats2 table2) }
{
    Answer::from(farthest_pair(a, b, Asked::Distance, floats1, table1, floats2, table2))
}

// Whether the greatest distance of a vertex of side 1 from one of side 2 is at most d; no where there is none.
pub fn st_3d_dfully_within(
    a: &[u8],
    b: &[u8],
    d: f64,
    floats1: &mut [f64],
    table1: &mut [u32],
    floats2: &mut [f64],
    table2: &mut [u32],
) -> Decision
    ensures whole_outcome { outcome (decision_report result) (left floats1 table1 floats2 table2) []
        ≡ fully_within a.now b.now d (lent floats1 table1 floats2 table2) }
{
    let answer = Answer::from(farthest_pair(
        a,
        b,
        Asked::Within(d),
        floats1,
        table1,
        floats2,
        table2,
    ));
    answer.within(d)
}

// The line between the farthest pair, from side 1's vertex to side 2's.
pub fn st_3d_longest_line(
    a: &[u8],
    b: &[u8],
    floats1: &mut [f64],
    table1: &mut [u32],
    floats2: &mut [f64],
    table2: &mut [u32],
    output: &mut [u8],
) -> WrittenBlob
    ensures whole_outcome { outcome (written_report result) (left floats1 table1 floats2 table2) output.new
        ≡ longest_line a.now b.now (lent floats1 table1 floats2 table2) output.old }
    ensures longest_of_all { LongestOfAll (answering nothing) (answering blob)
        a.now b.now (lent floats1 table1 floats2 table2) output.old
        (written_report result) output.new }
{
    let asked = Asked::Bytes {
        lent: output.len(),
        needed: LINE_BYTES,
    };
    let pair = farthest_pair(a, b, asked, floats1, table1, floats2, table2);
    outcomes::write_line(pair, output)
}
