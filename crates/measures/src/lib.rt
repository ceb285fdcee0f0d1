// The pair measures: point, segment and triangle against each other. A sum of squares that can't beat the best so far
// needs no root, so `pt_seg` and `seg_seg` give their witness with the root not taken, and `pt_tri` and `tri_tri` offer
// theirs to the best, one by one.
#![tactic(auto)]

ghost use Rattle.std.specs.Prelude.{◌≡◌, true, [], ◌∷◌};
ghost use Rattle.primitives.specs.declared.Witness.{Witness};
ghost use Rattle.primitives.specs.Vectors.{dot_of};
ghost use Rattle.primitives.specs.Unrooted.{StandsFor};
ghost use Rattle.extremes.specs.Sweeps.{shorter, taking};
ghost use Rattle.measures.specs.Measures.{foot_parameter, point_segment, first_parameter, parameters_of};
ghost use Rattle.measures.specs.Measures.{segment_segment, normal_of, foot_of, inner_side};
ghost use Rattle.measures.specs.Measures.{inside_triangle, inner_foot, point_edges, point_triangle};
ghost use Rattle.measures.specs.Measures.{triangle_triangle};
ghost use Rattle.measures.specs.InnerOffers.{offered_all, AllSettled, flipped_if, edge_witnesses};
ghost use Rattle.measures.specs.InnerOffers.{first_two, vertex_witnesses, Spared};

use extremes::{BestSoFar, Closest};
use primitives::{Point, UnrootedWitness};

// Where the foot of the perpendicular from p lies on the segment, within 0..1.
#[tactic(auto, using(crate::proofs::Literals::zero), unfolding(crate::specs::Measures::foot_parameter, primitives::specs::Vectors::squared_distance))]
fn foot_parameter(p: Point, a: Point, b: Point) -> f64
    ensures { result ≡ foot_parameter p a b }
{
    let ab = b - a;
    let len_sq = ab.dot(ab);
    if len_sq == 0.0 {
        return 0.0;
    }
    ieee754::clamp((p - a).dot(ab) / len_sq)
}

// A point and a segment.
#[tactic(auto, unfolding(crate::specs::Measures::point_segment))]
pub fn pt_seg(p: Point, a: Point, b: Point) -> UnrootedWitness
    ensures { StandsFor result (point_segment p a b) }
{
    UnrootedWitness::between(p, a.interpolated(b, foot_parameter(p, a, b)))
}

// The parameters of two segments' nearest points.
#[derive(Clone, Copy)]
pub struct Parameters {
    pub s: f64,
    pub t: f64,
}

// The parameter of the first segment; parallel segments take the start.
#[tactic(auto, using(crate::proofs::Literals::zero), unfolding(crate::specs::Measures::first_parameter))]
fn first_parameter(a: f64, b: f64, c: f64, e: f64, f: f64) -> f64
    ensures { result ≡ first_parameter a b c e f }
{
    let determinant = a * e - b * b;
    if determinant != 0.0 {
        return ieee754::clamp((b * f - c * e) / determinant);
    }
    0.0
}

// Solves for both parameters: a second one outside 0..1 is moved to its end, and the first solved again.
#[tactic(auto, using(crate::proofs::Literals::zero, crate::proofs::Literals::one_is), unfolding(crate::specs::Measures::parameters_of, crate::specs::Measures::within_second))]
fn solve(a: f64, b: f64, c: f64, e: f64, f: f64) -> Parameters
    ensures { result ≡ parameters_of a b c e f }
{
    let s = first_parameter(a, b, c, e, f);
    let t = (b * s + f) / e;
    if t < 0.0 {
        return Parameters {
            s: ieee754::clamp(-c / a),
            t: 0.0,
        };
    }
    if t > 1.0 {
        return Parameters {
            s: ieee754::clamp((b - c) / a),
            t: 1.0,
        };
    }
    Parameters { s, t }
}

// The parameters of two segments with the directions d1 and d2 of squared lengths a and e, r between their starts.
fn nearest_parameters(d1: Point, a: f64, d2: Point, e: f64, r: Point) -> Parameters
    ensures { result ≡ parameters_of a (dot_of d1 d2) (dot_of d1 r) e (dot_of d2 r) }
{
    solve(a, d1.dot(d2), d1.dot(r), e, d2.dot(r))
}

// Two segments; a squared length of at most 2^-52 is taken as a point.
#[tactic(auto, using(crate::proofs::Literals::epsilon_is), unfolding(crate::specs::Measures::segment_segment, crate::specs::Measures::long_segments, crate::specs::Measures::nearest_parameters, crate::specs::Measures::at_parameters, primitives::specs::Vectors::squared_distance))]
pub fn seg_seg(p1: Point, q1: Point, p2: Point, q2: Point) -> UnrootedWitness
    ensures { StandsFor result (segment_segment p1 q1 p2 q2) }
{
    let d1 = q1 - p1;
    let d2 = q2 - p2;
    let a = d1.dot(d1);
    let e = d2.dot(d2);
    if a <= f64::EPSILON {
        if e <= f64::EPSILON {
            return UnrootedWitness::between(p1, p2);
        }
        return pt_seg(p1, p2, q2);
    }
    if e <= f64::EPSILON {
        return pt_seg(p2, p1, q1).flipped();
    }
    let k = nearest_parameters(d1, a, d2, e, p1 - p2);
    UnrootedWitness::between(p1.interpolated(q1, k.s), p2.interpolated(q2, k.t))
}

// The foot of the perpendicular from p to the plane through a with the normal n.
#[tactic(auto, unfolding(crate::specs::Measures::foot_of, crate::specs::Measures::back_along))]
pub fn foot(p: Point, a: Point, n: Point) -> Point
    ensures { result ≡ foot_of p a n }
{
    let k = (p - a).dot(n) / n.dot(n);
    Point {
        x: p.x - k * n.x,
        y: p.y - k * n.y,
        z: p.z - k * n.z,
    }
}

// Whether x lies on the inner side of the edge from u to v of a triangle with the normal n, or on it.
#[tactic(auto, using(crate::proofs::Literals::zero), unfolding(crate::specs::Measures::inner_side))]
fn inner_side(u: Point, v: Point, x: Point, n: Point) -> bool
    ensures { result ≡ inner_side u v x n }
{
    (v - u).cross(x - u).dot(n) >= 0.0
}

// A filled triangle.
#[derive(Clone, Copy)]
pub struct Triangle {
    pub a: Point,
    pub b: Point,
    pub c: Point,
}

impl Triangle {
    #[tactic(auto, unfolding(crate::specs::Measures::normal_of))]
    pub fn normal(self) -> Point
        ensures { result ≡ normal_of self }
    {
        let Triangle { a, b, c } = self;
        (b - a).cross(c - a)
    }

    // Whether the point x of its plane lies inside, the normal being n. Since `crossings` calls it too, it is a call in
    // rule 1's sweep without the hint.
    #[inline(always)]
    #[tactic(auto, unfolding(crate::specs::Measures::inside_triangle))]
    pub fn contains(self, x: Point, n: Point) -> bool
        ensures { result ≡ inside_triangle self x n }
    {
        let Triangle { a, b, c } = self;
        inner_side(a, b, x, n) && inner_side(b, c, x, n) && inner_side(c, a, x, n)
    }

    // The foot of the perpendicular from p to its plane, where it lies inside; none where the normal's squared length
    // is not above 0.
    #[tactic(auto, using(crate::proofs::Literals::zero), unfolding(crate::specs::Measures::inner_foot, crate::specs::Measures::foot_inside))]
    pub fn inner_foot(self, p: Point) -> Option<Point>
        ensures { result ≡ inner_foot p self }
    {
        let Triangle { a, .. } = self;
        let n = self.normal();
        let x = foot(p, a, n);
        if n.dot(n) > 0.0 && self.contains(x, n) {
            Some(x)
        } else {
            None
        }
    }

    // Whether its last vertex has the bits of its first.
    fn ends_at_start(self) -> bool
        ensures { result ≡ true → self.a ≡ self.c }
    {
        let Triangle { a, c, .. } = self;
        a.same_bits(c)
    }
}

// The same sum, its points exchanged where that is asked for.
fn turned(s: UnrootedWitness, flip: bool) -> UnrootedWitness
    ensures { (w : Witness) → StandsFor s w → StandsFor result (flipped_if flip w) }
{
    if flip { s.flipped() } else { s }
}

// A point and the nearest of a triangle's edges, edge by edge; the first is kept where its distance is NaN.
#[tactic(auto, using(crate::proofs::BestWitness::stands_distance, crate::proofs::NearestEdge::edges_leave, crate::proofs::NearestEdge::edges_offered, crate::proofs::NearestEdge::first_kept, crate::proofs::Literals::zero))]
fn pt_edges(best: &mut BestSoFar<Closest>, p: Point, t: Triangle, flip: bool)
    ensures { best.new ≡ taking shorter best.old (flipped_if flip (point_edges p t)) }
{
    let Triangle { a, b, c } = t;
    let x = pt_seg(p, a, b);
    let y = pt_seg(p, b, c);
    let z = pt_seg(p, c, a);
    if best.excludes(x.sum) && best.excludes(y.sum) && best.excludes(z.sum) {
        return;
    }
    best.offer(turned(x, flip));
    if x.sum >= 0.0 {
        best.offer(turned(y, flip));
        best.offer(turned(z, flip));
    }
}

// A point and a filled triangle: the foot where it lies inside, else the nearest edge.
#[tactic(auto, using(crate::proofs::NearestEdge::foot_measured, crate::proofs::NearestEdge::edges_measured))]
pub fn pt_tri(best: &mut BestSoFar<Closest>, p: Point, t: Triangle, flip: bool)
    ensures { best.new ≡ taking shorter best.old (flipped_if flip (point_triangle p t)) }
{
    match t.inner_foot(p) {
        Some(foot) => best.offer(turned(UnrootedWitness::between(p, foot), flip)),
        None => pt_edges(best, p, t, flip),
    }
}

// The segment p q against the edges of a triangle; a best of distance 0 stays. Where the edge b c was measured before,
// it is spared.
#[tactic(auto, using(crate::proofs::TwoTriangles::zero_edges, crate::proofs::BestWitness::stands_distance, crate::proofs::Settled::stays, crate::proofs::NotBelowZero::segment_segment_lem))]
pub fn seg_edges(best: &mut BestSoFar<Closest>, p: Point, q: Point, t: Triangle, closes: bool)
    requires { closes ≡ true → taking shorter best.old (segment_segment p q t.b t.c) ≡ best.old }
    ensures { best.new ≡ offered_all best.old (edge_witnesses p q t) }
{
    let Triangle { a, b, c } = t;
    if best.is_zero() {
        return;
    }
    let x = seg_seg(p, q, a, b);
    let z = seg_seg(p, q, c, a);
    if closes {
        if best.excludes(x.sum) && best.excludes(z.sum) {
            return;
        }
        best.offer(x);
        best.offer(z);
        return;
    }
    let y = seg_seg(p, q, b, c);
    if best.excludes(x.sum) && best.excludes(y.sum) && best.excludes(z.sum) {
        return;
    }
    best.offer(x);
    best.offer(y);
    best.offer(z);
}

// The first two vertices of a triangle against another, unless they were measured before.
#[tactic(auto, unfolding(crate::specs::InnerOffers::AllSettled))]
fn first_two(best: &mut BestSoFar<Closest>, t: Triangle, other: Triangle, flip: bool, again: bool)
    requires { again ≡ true → AllSettled best.old (first_two flip t other) }
    ensures { best.new ≡ offered_all best.old (first_two flip t other) }
{
    let Triangle { a, b, .. } = t;
    if again {
        return;
    }
    pt_tri(best, a, other, flip);
    pt_tri(best, b, other, flip);
}

// Each vertex of a triangle against another; a best of distance 0 stays. Where a and b were measured before, they are
// spared, and so is c where it is a.
#[tactic(auto, using(crate::proofs::TwoTriangles::zero_vertices, crate::proofs::Settled::again_later, crate::proofs::TwoTriangles::vertices_distant))]
fn vertices(best: &mut BestSoFar<Closest>, t: Triangle, other: Triangle, flip: bool, again: bool)
    requires { again ≡ true → AllSettled best.old (first_two flip t other) }
    ensures { best.new ≡ offered_all best.old (vertex_witnesses flip t other) }
{
    let Triangle { c, .. } = t;
    if best.is_zero() {
        return;
    }
    first_two(best, t, other, flip, again);
    if t.ends_at_start() {
        return;
    }
    pt_tri(best, c, other, flip);
}

// Whether a triangle follows a measured one in its fan and ends a closed ring: its last vertex is its first.
fn closes_ring(t: Triangle, follows: bool) -> bool
    ensures { result ≡ true → (follows ≡ true) × (t.a ≡ t.c) }
{
    follows && t.ends_at_start()
}

// Which of the two items of a pair follows one of its run that was measured: what it shares with that one is settled.
#[derive(Clone, Copy)]
pub struct Follows {
    pub first: bool,
    pub second: bool,
}

impl Follows {
    pub const NEITHER: Follows = Follows {
        first: false,
        second: false,
    };
}

// The edge b c of t against the edges of u, unless t follows a measured triangle and ends a closed ring.
fn middle_edge(
    best: &mut BestSoFar<Closest>,
    t: Triangle,
    u: Triangle,
    t_closes: bool,
    u_closes: bool,
)
    requires t_closes { t_closes ≡ true → offered_all best.old (edge_witnesses t.b t.c u) ≡ best.old }
    requires u_closes { u_closes ≡ true → taking shorter best.old (segment_segment t.b t.c u.b u.c) ≡ best.old }
    ensures { best.new ≡ offered_all best.old (edge_witnesses t.b t.c u) }
{
    let Triangle { b, c, .. } = t;
    if t_closes {
        return;
    }
    seg_edges(best, b, c, u, u_closes);
}

// Two filled triangles: +infinity, each pair of edges, then the vertices of each against the other. What each shares
// with the one before it in its fan is spared where it follows that one.
pub fn tri_tri(best: &mut BestSoFar<Closest>, t: Triangle, u: Triangle, follows: Follows)
    requires { Spared t u follows best.old }
    ensures { best.new ≡ taking shorter best.old (triangle_triangle t u) }
{
    let Triangle { a, b, c } = t;
    let infinity = UnrootedWitness {
        sum: f64::INFINITY,
        a,
        b: u.a,
    };
    let t_closes = closes_ring(t, follows.first);
    let u_closes = closes_ring(u, follows.second);
    best.offer(infinity);
    seg_edges(best, a, b, u, u_closes);
    middle_edge(best, t, u, t_closes, u_closes);
    seg_edges(best, c, a, u, u_closes);
    vertices(best, t, u, false, follows.first);
    vertices(best, u, t, true, follows.second);
}
