// Pair rule 2: a segment against a triangle first tries a crossing (document 02, 3/13). A crossing's distance is 0, so
// that nothing after it in the pair changes the best: where there is one, it is offered alone, and where there is none,
// the pair is measured as by rule 1.
#![tactic(auto)]

ghost use Rattle.std.specs.Prelude.{◌≡◌};
ghost use Rattle.measures.specs.InnerOffers.{offered_all};
ghost use Rattle.crossings.specs.Crossings.{side_of, opposite_sides, counts_as_crossing, crossing};
ghost use Rattle.crossings.specs.Crossings.{edge_crossings, triangle_crossings, candidates_by_rule2};
ghost use Rattle.crossings.specs.InnerCrossings.{crossing_by, offered_by, first_only, crossings_of};

use extremes::{BestSoFar, Closest};
use items::Item;
use measures::{Follows, Triangle};
use primitives::{Point, UnrootedWitness, Witness};

// On which side of the plane through a with the normal n the point p lies: above 0 where n points, below 0 on the
// other.
#[tactic(auto, unfolding(crate::specs::Crossings::side_of))]
fn side(p: Point, a: Point, n: Point) -> f64
    ensures { result ≡ side_of p a n }
{
    (p - a).dot(n)
}

// Whether one side is above 0 and the other below.
#[tactic(auto, using(measures::proofs::Literals::zero), unfolding(crate::specs::Crossings::opposite_sides))]
fn opposite(start: f64, end: f64) -> bool
    ensures { result ≡ opposite_sides start end }
{
    (start > 0.0 && end < 0.0) || (start < 0.0 && end > 0.0)
}

// Whether the point x of a segment counts as a crossing of t: the normal n has a squared length above 0, x lies inside
// t, and its distance to itself is 0.
#[tactic(auto, using(measures::proofs::Literals::zero), unfolding(crate::specs::Crossings::counts_as_crossing))]
fn counts(t: Triangle, n: Point, x: Point) -> bool
    ensures { result ≡ counts_as_crossing t n x }
{
    n.dot(n) > 0.0 && t.contains(x, n) && Witness::between(x, x).d == 0.0
}

// The crossing of the segment s e with the triangle t, whose normal is n. start and end are the sides of s and e: the
// caller computes each once.
#[tactic(auto, unfolding(crate::specs::InnerCrossings::crossing_by))]
fn segment_by_sides(
    s: Point,
    e: Point,
    start: f64,
    end: f64,
    t: Triangle,
    n: Point,
) -> Option<Point>
    ensures { result ≡ crossing_by s e start end t n }
{
    if opposite(start, end) {
        let x = s.interpolated(e, start / (start - end));
        if counts(t, n, x) {
            return Some(x);
        }
    }
    None
}

// The crossing of the segment s e with the triangle t.
#[tactic(auto, unfolding(crate::specs::InnerCrossings::crossing_by, crate::specs::InnerCrossings::offered_by, crate::specs::Crossings::crossing, crate::specs::Crossings::crosses, crate::specs::Crossings::crossing_point))]
pub fn segment_through(s: Point, e: Point, t: Triangle) -> Option<Point>
    ensures { offered_by result ≡ crossing s e t }
{
    let Triangle { a, .. } = t;
    let n = t.normal();
    segment_by_sides(s, e, side(s, a, n), side(e, a, n), t, n)
}

// The first crossing of an edge of t, in the order ab, bc, ca, with the triangle u. Two edges share each vertex, so its
// side is computed once. Each try returns: closures for `or_else` would hold points and sides in memory, and this would
// take twice the time.
#[tactic(auto, using(crate::proofs::Firsts::crossing_given, crate::proofs::Firsts::single_first, crate::proofs::Firsts::found_first, crate::proofs::Firsts::none_passed), unfolding(crate::specs::Crossings::edge_crossings))]
pub fn edges_through(t: Triangle, u: Triangle) -> Option<Point>
    ensures { offered_by result ≡ first_only (edge_crossings t u) }
{
    let Triangle { a, b, c } = t;
    let Triangle { a: corner, .. } = u;
    let n = u.normal();
    let at_a = side(a, corner, n);
    let at_b = side(b, corner, n);
    if let Some(x) = segment_by_sides(a, b, at_a, at_b, u, n) {
        return Some(x);
    }
    let at_c = side(c, corner, n);
    if let Some(x) = segment_by_sides(b, c, at_b, at_c, u, n) {
        return Some(x);
    }
    segment_by_sides(c, a, at_c, at_a, u, n)
}

// The first crossing of two triangles: t's edges with u, then u's with t.
pub fn triangles_through(t: Triangle, u: Triangle) -> Option<Point>
    ensures { offered_by result ≡ first_only (triangle_crossings t u) }
{
    edges_through(t, u).or_else(|| edges_through(u, t))
}

// The first crossing of an item of A with an item of B: one of them is a triangle, and the other is no point.
#[tactic(auto, using(crate::proofs::Firsts::single_first), unfolding(crate::specs::InnerCrossings::crossings_of, crate::specs::InnerCrossings::first_only, crate::specs::InnerCrossings::offered_by))]
pub fn crossing_between(a: Item, b: Item) -> Option<Point>
    ensures { offered_by result ≡ first_only (crossings_of a b) }
{
    // One match within the other, as in `Item::offer`: a match of both would copy the two items first.
    match a {
        Item::Point(_) => None,
        Item::Segment(s, e) => match b {
            Item::Triangle(u) => segment_through(s, e, u),
            _ => None,
        },
        Item::Triangle(t) => match b {
            Item::Point(_) => None,
            Item::Segment(s, e) => segment_through(s, e, t),
            Item::Triangle(u) => triangles_through(t, u),
        },
    }
}

// The candidates by rule 2 of an item of A with an item of B, offered in order. A crossing ends the pair.
#[tactic(auto, using(crate::proofs::Tried::none_found))]
pub fn offer(best: &mut BestSoFar<Closest>, a: Item, b: Item)
    ensures { best.new ≡ offered_all best.old (candidates_by_rule2 a b) }
{
    match crossing_between(a, b) {
        Some(x) => best.offer(UnrootedWitness::between(x, x)),
        None => a.offer(best, b, Follows::NEITHER),
    }
}
