// Items of the closest sweep, by value, and what two of them offer.
#![tactic(auto)]

mod boxed;
mod walk;

ghost use Rattle.std.specs.Prelude.{◌≡◌, true};
ghost use Rattle.extremes.specs.Sweeps.{shorter, taking};
ghost use Rattle.measures.specs.Measures.{point_triangle};
ghost use Rattle.measures.specs.InnerOffers.{offered_all, flipped_if, AllSettled};
ghost use Rattle.items.specs.declared.Item.{Item as AnItem};
ghost use Rattle.items.specs.declared.Item.TheVariants.{Point as point, Segment as segment, Triangle as triangle};
ghost use Rattle.items.specs.Items.{box_of_item};
ghost use Rattle.items.specs.Candidates.{candidates_of};
ghost use Rattle.items.specs.InnerRepeats.{first_after, first_before, second_after, second_before, NextOfRun, HandsOn};

pub use boxed::Boxed;
use extremes::{BestSoFar, Closest};
use measures::{Follows, Triangle};
use primitives::{Aabb, Point, UnrootedWitness};
pub use walk::Items;

// What the closest sweep pairs off.
#[derive(Clone, Copy)]
pub enum Item {
    Point(Point),
    Segment(Point, Point),
    Triangle(Triangle),
}

// The start of a segment with a triangle, unless it was measured before.
fn segment_start(best: &mut BestSoFar<Closest>, s: Point, t: Triangle, flip: bool, again: bool)
    requires { again ≡ true → taking shorter best.old (flipped_if flip (point_triangle s t)) ≡ best.old }
    ensures { best.new ≡ taking shorter best.old (flipped_if flip (point_triangle s t)) }
{
    if again {
        return;
    }
    measures::pt_tri(best, s, t, flip);
}

// A segment of A with a triangle of B.
#[tactic(auto, unfolding(crate::specs::Candidates::candidates_of, crate::specs::InnerRepeats::first_before, measures::specs::InnerOffers::AllSettled))]
fn segment_triangle(best: &mut BestSoFar<Closest>, s: Point, e: Point, t: Triangle, follows: bool)
    requires { follows ≡ true → AllSettled best.old (first_before (segment s e) (triangle t)) }
    ensures { best.new ≡ offered_all best.old (candidates_of (segment s e) (triangle t)) }
{
    segment_start(best, s, t, false, follows);
    measures::pt_tri(best, e, t, false);
    measures::seg_edges(best, s, e, t, false);
}

// A triangle of A with a segment of B: the one above, mirrored. One function of both would turn every measure by a
// flag.
#[tactic(auto, unfolding(crate::specs::Candidates::candidates_of, crate::specs::InnerRepeats::second_before, measures::specs::InnerOffers::AllSettled))]
fn triangle_segment(best: &mut BestSoFar<Closest>, t: Triangle, s: Point, e: Point, follows: bool)
    requires { follows ≡ true → AllSettled best.old (second_before (triangle t) (segment s e)) }
    ensures { best.new ≡ offered_all best.old (candidates_of (triangle t) (segment s e)) }
{
    let Triangle { a, b, c } = t;
    segment_start(best, s, t, true, follows);
    measures::pt_tri(best, e, t, true);
    best.offer(measures::seg_seg(a, b, s, e));
    best.offer(measures::seg_seg(b, c, s, e));
    best.offer(measures::seg_seg(c, a, s, e));
}

// A point of A with an item of B.
#[tactic(auto, unfolding(crate::specs::Candidates::candidates_of))]
fn with_point(best: &mut BestSoFar<Closest>, p: Point, other: Item)
    ensures { best.new ≡ offered_all best.old (candidates_of (point p) other) }
{
    match other {
        Item::Point(q) => best.offer(UnrootedWitness::between(p, q)),
        Item::Segment(u, v) => best.offer(measures::pt_seg(p, u, v)),
        Item::Triangle(u) => measures::pt_tri(best, p, u, false),
    }
}

// A segment of A with an item of B.
#[tactic(auto, unfolding(crate::specs::Candidates::candidates_of))]
fn with_segment(best: &mut BestSoFar<Closest>, s: Point, e: Point, other: Item, follows: bool)
    requires { follows ≡ true → AllSettled best.old (first_before (segment s e) other) }
    ensures { best.new ≡ offered_all best.old (candidates_of (segment s e) other) }
{
    match other {
        Item::Point(q) => best.offer(measures::pt_seg(q, s, e).flipped()),
        Item::Segment(u, v) => best.offer(measures::seg_seg(s, e, u, v)),
        Item::Triangle(u) => segment_triangle(best, s, e, u, follows),
    }
}

// A triangle of A with an item of B.
#[tactic(auto, unfolding(crate::specs::Candidates::candidates_of, crate::specs::InnerRepeats::first_before, crate::specs::InnerRepeats::second_before))]
fn with_triangle(best: &mut BestSoFar<Closest>, t: Triangle, other: Item, follows: Follows)
    requires { HandsOn (triangle t) other follows best.old }
    ensures { best.new ≡ offered_all best.old (candidates_of (triangle t) other) }
{
    match other {
        Item::Point(q) => measures::pt_tri(best, q, t, true),
        Item::Segment(u, v) => triangle_segment(best, t, u, v, follows.second),
        Item::Triangle(u) => measures::tri_tri(best, t, u, follows),
    }
}

impl Item {
    #[inline(always)]
    #[tactic(auto, using(extremes::proofs::Repeats::union_with_point), unfolding(crate::specs::Items::box_of_item))]
    pub fn bounds(self) -> Aabb
        ensures { result ≡ box_of_item self }
    {
        match self {
            Item::Point(p) => Aabb::point(p),
            Item::Segment(a, b) => Aabb::point(a).add(b),
            Item::Triangle(t) => Aabb::point(t.a).add(t.b).add(t.c),
        }
    }

    // Whether it has what the next of a run shares with the item before it, bit for bit: a segment's end, a triangle's
    // first and last vertex.
    #[tactic(auto, using(crate::proofs::Turns::following))]
    pub fn follows(self, before: Item) -> bool
        ensures run { result ≡ true → NextOfRun before self }
        ensures first { result ≡ true → (b : AnItem) → first_after before b ≡ first_before self b }
        ensures second { result ≡ true → (a : AnItem) → second_after a before ≡ second_before a self }
    {
        match (self, before) {
            (Item::Segment(s, _), Item::Segment(_, e)) => s.same_bits(e),
            (Item::Triangle(t), Item::Triangle(u)) => t.a.same_bits(u.a) && t.b.same_bits(u.c),
            _ => false,
        }
    }

    // The candidates of an item of A with an item of B, offered in order, less those that the item before either
    // offered, where that one was measured and this one follows it.
    // One match within the other: a match of both would copy the two items first.
    pub fn offer(self, best: &mut BestSoFar<Closest>, other: Item, follows: Follows)
        requires { HandsOn self other follows best.old }
        ensures { best.new ≡ offered_all best.old (candidates_of self other) }
    {
        match self {
            Item::Point(p) => with_point(best, p, other),
            Item::Segment(s, e) => with_segment(best, s, e, other, follows.first),
            Item::Triangle(t) => with_triangle(best, t, other, follows),
        }
    }
}
