// The farthest sweep: a vertex of side 1 and one of side 2 that are farthest apart, by plain loops over the runs of two
// workspaces.
//
// 1. The box of all vertices of side 2 is made (`bounds`).
// 2. Each vertex of side 1 meets each vertex of side 2 (`visit`). Both go class by class, points, lines, faces, and in
//    a class run by run (`VertexRuns`). The first pair is taken, a later one only if strictly longer.
// 3. Left out, since no answer changes by it (laws in proofs/ and in extremes):
//    - a vertex of side 1 whose greatest squared gap to the box, times 1 + 2^-49 for what rounding may take, is at most
//      the best's square (`no_farther`; Unskipped), and every vertex once the best is NaN, since nothing is longer than
//      NaN (`visit`; NanStays);
//    - the root of a sum of squares that is no greater than the best's, whose root is no greater either (`visit`);
//    - what the definition meets twice: each inner vertex of a line, the end of one segment and the start of the next
//      (VerticesOnce);
//    - the runs before the first of a class, and so classes that do not occur (`ClassRuns::of`).
#![tactic(auto)]

ghost use Rattle.std.specs.Prelude.{◌≡◌, [], ◌∷◌, length};
ghost use Rattle.std.specs.Iterator.{YieldsFirstBy, item_count};
ghost use mathlib.Core.List.{flatten};
ghost use Rattle.coords.specs.Parts.{vertices_of};
ghost use Rattle.extremes.specs.Farthest.{farthest_from, farthest_of};
ghost use Rattle.farthest.specs.Inner.{has_vertices, class_runs, runs_once, empty_box, box_with, swept};

use extremes::{BestSoFar, Farthest};
use parts::{Class, Points, Run, Runs, Stored};
use primitives::{Aabb, Point, UnrootedWitness, Witness};
use std::marker::Model;

// Whether a run's points are vertices of a class. A line of one point has none.
#[tactic(auto, unfolding(crate::specs::Inner::has_vertices, parts::specs::Classes::is_of))]
fn has_vertices(run: &Run<'_>, class: Class) -> bool
    ensures { result ≡ has_vertices class run.now.kind (length run.now.points) }
{
    run.is_of(class) && (class != Class::Lines || run.points.len() >= 2)
}

// The runs of a class, from its first on.
#[derive(Drop)]
struct ClassRuns<'a> {
    class: Class,
    runs: Runs<'a>,
}

impl<'a> Model for ClassRuns<'a> {
    ghost use Rattle.std.specs.Prelude.{List};
    ghost use Rattle.primitives.specs.declared.Point.{Point};
    ghost use Rattle.farthest.specs.Inner.{class_runs};

    ghost Value = { List (List Point) };

    ghost view = { λ s. class_runs s.class s.runs };
}

impl<'a> ClassRuns<'a> {
    // Those of a workspace. What is before the first is passed over here once, and not at each vertex of the other
    // side.
    #[tactic(auto, using(crate::proofs::RunTurns::run_turns))]
    fn of(stored: &Stored<'a>, class: Class) -> ClassRuns<'a>
        ensures { result ≡ class_runs class stored.now }
    {
        let mut runs = stored.runs();
        let mut left = runs.again();
        while let Some(run) = left.next() {
            if has_vertices(&run, class) {
                return ClassRuns { class, runs };
            }
            runs = left.again();
        }
        ClassRuns { class, runs }
    }

    // The same runs, to be walked again; no `Clone`, as of `parts::Runs`.
    fn again(&self) -> ClassRuns<'a>
        ensures { result ≡ self.now }
    {
        ClassRuns {
            class: self.class,
            runs: self.runs.again(),
        }
    }
}

impl<'a> Iterator for ClassRuns<'a> {
    type Item = Points<'a>;

    ghost next_gives = { YieldsFirstBy (λ points. points) (λ s. s) };

    ghost remaining = { item_count (λ s. s) };

    #[tactic(auto, using(crate::proofs::RunTurns::run_turns))]
    fn next(&mut self) -> Option<Points<'a>> {
        while let Some(run) = self.runs.next() {
            if has_vertices(&run, self.class) {
                return Some(run.points);
            }
        }
        None
    }
}

// The runs whose points are the vertices of a side: points, then lines, then faces.
#[derive(Drop)]
struct VertexRuns<'a> {
    points: ClassRuns<'a>,
    lines: ClassRuns<'a>,
    faces: ClassRuns<'a>,
}

impl<'a> Model for VertexRuns<'a> {
    ghost use Rattle.std.specs.Prelude.{List, ◌++◌};
    ghost use Rattle.primitives.specs.declared.Point.{Point};

    ghost Value = { List (List Point) };

    ghost view = { λ s. s.points ++ (s.lines ++ s.faces) };
}

impl<'a> VertexRuns<'a> {
    #[tactic(auto, unfolding(crate::specs::Inner::runs_once))]
    fn of(stored: &Stored<'a>) -> VertexRuns<'a>
        ensures { result ≡ runs_once stored.now }
    {
        VertexRuns {
            points: ClassRuns::of(stored, Class::Points),
            lines: ClassRuns::of(stored, Class::Lines),
            faces: ClassRuns::of(stored, Class::Faces),
        }
    }

    // The same runs, to be walked again; no `Clone`, as of `parts::Runs`.
    fn again(&self) -> VertexRuns<'a>
        ensures { result ≡ self.now }
    {
        VertexRuns {
            points: self.points.again(),
            lines: self.lines.again(),
            faces: self.faces.again(),
        }
    }

    // The box of all vertices; of none, the box of NaNs, which every point replaces.
    #[tactic(auto, using(crate::proofs::Folds::box_turns), unfolding(crate::specs::Inner::empty_box))]
    fn bounds(&self) -> Aabb
        ensures { result ≡ box_with empty_box (flatten self.now) }
    {
        let nan = Point {
            x: f64::NAN,
            y: f64::NAN,
            z: f64::NAN,
        };
        let mut bounds = Aabb { lo: nan, hi: nan };
        for points in self.again() {
            for p in points {
                bounds = bounds.add(p);
            }
        }
        bounds
    }
}

impl<'a> Iterator for VertexRuns<'a> {
    type Item = Points<'a>;

    ghost next_gives = { YieldsFirstBy (λ points. points) (λ s. s) };

    ghost remaining = { item_count (λ s. s) };

    fn next(&mut self) -> Option<Points<'a>> {
        if let Some(points) = self.points.next() {
            return Some(points);
        }
        if let Some(points) = self.lines.next() {
            return Some(points);
        }
        self.faces.next()
    }
}

// A vertex of side 1 against those of a class of side 2. No root is taken where the sum of squares is no greater than
// the best pair's. Class by class: the walk through all three costs more at each run than its points do, where they are
// few.
#[tactic(auto, using(crate::proofs::Folds::from_turns))]
fn against_class(best: &mut BestSoFar<Farthest>, p: Point, runs: ClassRuns<'_>)
    ensures { best.new ≡ farthest_from (flatten runs.entry) best.old p }
{
    for points in runs {
        for q in points {
            let pair = UnrootedWitness::between(p, q);
            if !best.excludes(pair.sum) {
                best.offer(pair);
            }
        }
    }
}

// One vertex of side 1 against side 2, unless it is skipped: no vertex in the box is farther from p than the best pair
// is apart. Nothing is longer than NaN, so a NaN best stays.
#[tactic(auto, using(crate::proofs::Visits::visits, crate::proofs::Folds::from_classes))]
fn visit(best: &mut BestSoFar<Farthest>, p: Point, others: &VertexRuns<'_>, around: Aabb)
    ensures { best.new ≡ swept around (flatten others.now) best.old (p ∷ []) }
{
    if best.is_nan() {
        return;
    }
    if best.no_farther(Aabb::point(p).max_dist_sq(around)) {
        return;
    }
    against_class(best, p, others.points.again());
    against_class(best, p, others.lines.again());
    against_class(best, p, others.faces.again());
}

// The farthest pair of a vertex of side 1 and one of side 2, if both have one.
#[tactic(auto, using(crate::proofs::Folds::swept_turns, crate::proofs::VerticesOnce::farthest_by_runs))]
pub fn farthest(a: &Stored<'_>, b: &Stored<'_>) -> Option<Witness>
    ensures { result ≡ farthest_of (vertices_of a.now) (vertices_of b.now) }
{
    let others = VertexRuns::of(b);
    let around = others.bounds();
    let mut best = BestSoFar::none();
    for points in VertexRuns::of(a) {
        for p in points {
            visit(&mut best, p, &others, around);
        }
    }
    best.witness()
}
