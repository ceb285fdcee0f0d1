// 3D measures by the closest pair of points, segments and triangles of two blobs: document 01's distance, within,
// intersects, closest point and shortest line, for every input, by pair rule 1 or 2 (document 02, 3/13).
// Undecided in its contracts is only the payload, sign included, of a NaN in a workspace or in an answered number;
// output bytes are wholly decided.
#![tactic(auto)]

ghost use Rattle.std.specs.Prelude.{◌≡◌, []};
ghost use Rattle.items.specs.Items.{items_of};
ghost use Rattle.outcomes.specs.Lent.{lent, left};
ghost use Rattle.outcomes.specs.Answers.{nothing, blob, answering, answer_report, decision_report, written_report};
ghost use Rattle.outcomes.specs.Operations.{outcome, closest_by_rule, closest_pair, distance, within, intersects};
ghost use Rattle.outcomes.specs.Operations.{closest_point, shortest_line};
ghost use Rattle.outcomes.specs.Inner.{PairSwept};
ghost use Rattle.outcomes.specs.ThirdProperty.{ShortestOfPoints};
ghost use Rattle.reading.specs.Inner.{first_by_rule};

use gpb::{LINE_BYTES, POINT_BYTES};
use outcomes::{Answer, Decision, Swept, WrittenBlob};
use parts::Stored;
use primitives::Witness;
use reading::{Asked, Question};
use refusals::Refusal;

// The closest pair of what two workspaces hold, by a rule: where no side has a face rule 2 is rule 1, whose sweep is
// the faster one. It is called from this place alone, so that the compiler puts it here.
fn sweep(rule: u32, a: &Stored<'_>, b: &Stored<'_>, stop_at_zero: bool) -> Option<Witness>
    ensures { result ≡ closest_by_rule rule (items_of a.now) (items_of b.now) }
{
    let (table1, _) = a.runs().slices();
    let (table2, _) = b.runs().slices();
    if rule == 2 && closest_rule2::any_face(table1, table2) {
        return closest_rule2::closest(a, b, stop_at_zero);
    }
    closest::closest(a, b, stop_at_zero)
}

// The closest pair of the items of two blobs, once they are read into lent memory. Nothing is less than 0, so the
// sweep may stop there.
fn closest_pair(
    a: &[u8],
    b: &[u8],
    question: Question,
    floats1: &mut [f64],
    table1: &mut [u32],
    floats2: &mut [f64],
    table2: &mut [u32],
    stop_at_zero: bool,
) -> Result<Option<Swept>, Refusal>
    ensures { PairSwept (first_by_rule question a.now b.now (lent floats1 table1 floats2 table2))
        (closest_pair question.rule a.now b.now)
        a.now b.now (lent floats1 table1 floats2 table2) (left floats1 table1 floats2 table2) result }
{
    let read = reading::read_by_rule(a, b, question, floats1, table1, floats2, table2)?;
    let first = Stored::new(floats1, &table1[..read.numbers1]);
    let second = Stored::new(floats2, &table2[..read.numbers2]);
    let found = sweep(question.rule, &first, &second, stop_at_zero);
    Ok(outcomes::with_srid(found, read.srid))
}

// The least distance of an item of side 1 from one of side 2.
pub fn st_3d_distance(
    a: &[u8],
    b: &[u8],
    rule: u32,
    floats1: &mut [f64],
    table1: &mut [u32],
    floats2: &mut [f64],
    table2: &mut [u32],
) -> Answer
    ensures whole_outcome { outcome (answer_report result) (left floats1 table1 floats2 table2) []
        ≡ distance a.now b.now rule (lent floats1 table1 floats2 table2) }
{
    let question = Question {
        asked: Asked::Distance,
        rule,
    };
    Answer::from(closest_pair(a, b, question, floats1, table1, floats2, table2, false))
}

// Whether the distance is at most d; no where there is none.
pub fn st_3d_dwithin(
    a: &[u8],
    b: &[u8],
    d: f64,
    rule: u32,
    floats1: &mut [f64],
    table1: &mut [u32],
    floats2: &mut [f64],
    table2: &mut [u32],
) -> Decision
    ensures whole_outcome { outcome (decision_report result) (left floats1 table1 floats2 table2) []
        ≡ within a.now b.now d rule (lent floats1 table1 floats2 table2) }
{
    let question = Question {
        asked: Asked::Within(d),
        rule,
    };
    let answer = Answer::from(closest_pair(
        a, b, question, floats1, table1, floats2, table2, false,
    ));
    answer.within(d)
}

// Whether the distance is 0; no where there is none.
pub fn st_3d_intersects(
    a: &[u8],
    b: &[u8],
    rule: u32,
    floats1: &mut [f64],
    table1: &mut [u32],
    floats2: &mut [f64],
    table2: &mut [u32],
) -> Decision
    ensures whole_outcome { outcome (decision_report result) (left floats1 table1 floats2 table2) []
        ≡ intersects a.now b.now rule (lent floats1 table1 floats2 table2) }
{
    let question = Question {
        asked: Asked::Distance,
        rule,
    };
    let answer = Answer::from(closest_pair(a, b, question, floats1, table1, floats2, table2, true));
    answer.touching()
}

// Side 1's point of the closest pair.
pub fn st_3d_closest_point(
    a: &[u8],
    b: &[u8],
    rule: u32,
    floats1: &mut [f64],
    table1: &mut [u32],
    floats2: &mut [f64],
    table2: &mut [u32],
    output: &mut [u8],
) -> WrittenBlob
    ensures whole_outcome { outcome (written_report result) (left floats1 table1 floats2 table2) output.new
        ≡ closest_point a.now b.now rule (lent floats1 table1 floats2 table2) output.old }
{
    let asked = Asked::Bytes {
        lent: output.len(),
        needed: POINT_BYTES,
    };
    let question = Question { asked, rule };
    let pair = closest_pair(a, b, question, floats1, table1, floats2, table2, false);
    outcomes::write_point(pair, output)
}

// The line between the closest pair, from side 1's point to side 2's.
pub fn st_3d_shortest_line(
    a: &[u8],
    b: &[u8],
    rule: u32,
    floats1: &mut [f64],
    table1: &mut [u32],
    floats2: &mut [f64],
    table2: &mut [u32],
    output: &mut [u8],
) -> WrittenBlob
    ensures whole_outcome { outcome (written_report result) (left floats1 table1 floats2 table2) output.new
        ≡ shortest_line a.now b.now rule (lent floats1 table1 floats2 table2) output.old }
    ensures shortest_of_points { ShortestOfPoints (answering nothing) (answering blob)
        a.now b.now rule (lent floats1 table1 floats2 table2) output.old
        (written_report result) output.new }
{
    let asked = Asked::Bytes {
        lent: output.len(),
        needed: LINE_BYTES,
    };
    let question = Question { asked, rule };
    let pair = closest_pair(a, b, question, floats1, table1, floats2, table2, false);
    outcomes::write_line(pair, output)
}
