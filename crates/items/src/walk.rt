// The items of a side, one after the other: points before segments before triangles, in a class run by run, in a run
// item by item. A walk holds slices of what it has left, so that it can be copied, and taken up again where a copy was.

ghost use Rattle.std.specs.Prelude.{◌≡◌, [], MatchOption, IfSome, ◌<◌, ◌^◌, length};
ghost use Rattle.std.specs.Iterator.{YieldsFirst, item_count};
ghost use Rattle.parts.specs.Stored.{stored_runs, Laid, laid_prop};
ghost use Rattle.items.specs.Items.{items_of};

use crate::Item;
use measures::Triangle;
use parts::{Class, Points, Stored};
use primitives::Point;

const ORIGIN: Point = Point {
    x: 0.0,
    y: 0.0,
    z: 0.0,
};

// The items of a class that are left: those of a run, then those of the runs after it.
#[derive(Clone, Copy)]
struct ClassItems<'a> {
    class: Class,
    // Of a face: its first point.
    hub: Point,
    // Of the run, from the next item's first point on; of a face, from its second.
    points: &'a [f64],
    // Of the runs after it.
    table: &'a [u32],
    floats: &'a [f64],
    ghost laid: { Laid table.now floats.now } by { laid_prop table.now floats.now },
}

impl<'a> ClassItems<'a> {
    ghost use Rattle.std.specs.Prelude.{true, false};
    ghost use Rattle.items.specs.Inner.{class_items, run_left, runs_left, later_run_items, class_items_left};

    // Those of all runs.
    #[tactic(auto, using(crate::proofs::Left::run_none), unfolding(crate::specs::Inner::class_items_left, parts::specs::Slices::points_in))]
    fn of(class: Class, table: &'a [u32], floats: &'a [f64]) -> ClassItems<'a>
        requires { Laid table.now floats.now }
        ensures left { class_items_left result ≡ class_items class (stored_runs table.now floats.now) }
        ensures class { result.class ≡ class }
    {
        ClassItems {
            class,
            hub: ORIGIN,
            points: &[],
            table,
            floats,
        }
    }

    // The next item of the run, if one is left.
    #[inline(always)]
    #[tactic(auto, using(crate::proofs::Left::run_turns))]
    fn next_of_run(&mut self) -> Option<Item>
        ensures run { YieldsFirst (λ s. run_left s) self.old result self.new }
        ensures runs { runs_left self.new ≡ runs_left self.old }
        ensures class { self.new.class ≡ self.old.class }
    {
        let mut points = Points::of(self.points);
        let p = points.next()?;
        let item = match self.class {
            Class::Points => Item::Point(p),
            Class::Lines => Item::Segment(p, points.first()?),
            Class::Faces => Item::Triangle(Triangle {
                a: self.hub,
                b: p,
                c: points.first()?,
            }),
        };
        self.points = points.floats();
        Some(item)
    }

    // Those of the next run of the class and of the runs after it, if there is one.
    #[inline(always)]
    #[tactic(auto, using(crate::proofs::Left::class_turns), unfolding(crate::specs::Inner::class_items_left))]
    fn next_run(&self) -> Option<ClassItems<'a>>
        ensures left { MatchOption result (later_run_items self.now ≡ []) (λ t. later_run_items self.now ≡ class_items_left t) }
        ensures fewer { IfSome result (λ t. length (runs_left t) < length (runs_left self.now)) }
        ensures class { IfSome result (λ t. t.class ≡ self.now.class) }
    {
        let class = self.class;
        let mut runs = Stored::new(self.floats, self.table).runs();
        while let Some(run) = runs.next() {
            if run.is_of(class) {
                let (table, floats) = runs.slices();
                let mut points = run.points;
                let hub = match class {
                    Class::Faces => points.next().unwrap_or(ORIGIN),
                    _ => ORIGIN,
                };
                return Some(ClassItems {
                    class,
                    hub,
                    points: points.floats(),
                    table,
                    floats,
                });
            }
        }
        None
    }

    // Whether the run has an item left.
    #[inline(always)]
    fn run_has_next(&self) -> bool
        ensures none { result ≡ false → run_left self.now ≡ [] }
        ensures some { result ≡ true → 0 < length (run_left self.now) }
    {
        let mut ahead = *self;
        ahead.next_of_run().is_some()
    }

    // Goes on to the run that has the next item; whether there is one.
    #[tactic(auto, unfolding(crate::specs::Inner::class_items_left))]
    fn reach_next(&mut self) -> bool
        ensures left { class_items_left self.new ≡ class_items_left self.old }
        ensures none { result ≡ false → class_items_left self.new ≡ [] }
        ensures some { result ≡ true → 0 < length (class_items_left self.new) }
        ensures class { self.new.class ≡ self.old.class }
    {
        while !self.run_has_next() {
            match self.next_run() {
                Some(next) => *self = next,
                None => return false,
            }
        }
        true
    }
}

impl<'a> Iterator for ClassItems<'a> {
    ghost use Rattle.items.specs.Inner.{class_items_left};

    type Item = Item;

    ghost next_gives = { λ s r t. YieldsFirst (λ s. class_items_left s) s r t × (t.class ≡ s.class) };

    ghost remaining = { item_count (λ s. class_items_left s) };

    #[inline(always)]
    #[tactic(auto, unfolding(crate::specs::Inner::class_items_left))]
    fn next(&mut self) -> Option<Item> {
        loop {
            if let Some(item) = self.next_of_run() {
                return Some(item);
            }
            *self = self.next_run()?;
        }
    }
}

// The runs of a side from its first of a class on.
#[derive(Clone, Copy)]
struct LaterRuns<'a> {
    table: &'a [u32],
    floats: &'a [f64],
    ghost laid: { Laid table.now floats.now } by { laid_prop table.now floats.now },
}

impl<'a> LaterRuns<'a> {
    ghost use Rattle.items.specs.Inner.{class_items, runs_from};

    // No runs.
    #[tactic(auto, unfolding(parts::specs::Stored::stored_runs, parts::specs::Stored::point_count, parts::specs::Stored::Laid))]
    fn none() -> LaterRuns<'a>
        ensures { runs_from result ≡ [] }
    {
        LaterRuns {
            table: &[],
            floats: &[],
        }
    }

    // Those of a side: what is before the first is passed over here once, and not by each walk that comes to the class.
    #[tactic(auto, using(crate::proofs::Left::class_turns))]
    fn of(class: Class, side: &Stored<'a>) -> LaterRuns<'a>
        ensures { class_items class (runs_from result) ≡ class_items class side.now }
    {
        let mut runs = side.runs();
        let mut left = runs.again();
        while let Some(run) = left.next() {
            if class.holds(run.kind) {
                break;
            }
            runs = left.again();
        }
        let from = runs.slices();
        LaterRuns {
            table: from.0,
            floats: from.1,
        }
    }
}

// All items of a side that are left: points, then segments, then triangles.
#[derive(Clone, Copy)]
pub struct Items<'a> {
    left: ClassItems<'a>,
    // For the classes after.
    lines: LaterRuns<'a>,
    faces: LaterRuns<'a>,
}

impl<'a> Items<'a> {
    ghost use Rattle.std.specs.Prelude.{true, false};
    ghost use Rattle.items.specs.Inner.{class_items, items_left};

    // Those of a side.
    #[tactic(auto, using(crate::proofs::Left::all_left, crate::proofs::Counts::items_counted), unfolding(crate::specs::Inner::items_left))]
    pub fn of(side: &Stored<'a>) -> Items<'a>
        ensures left { items_left result ≡ items_of side.now }
        ensures few { length (items_of side.now) < 2 ^ 62 }
    {
        let (table, floats) = side.runs().slices();
        Items {
            left: ClassItems::of(Class::Points, table, floats),
            lines: LaterRuns::of(Class::Lines, side),
            faces: LaterRuns::of(Class::Faces, side),
        }
    }

    // Those of a class of a side.
    #[tactic(auto, using(crate::proofs::Left::class_left), unfolding(crate::specs::Inner::items_left))]
    pub fn of_class(class: Class, side: &Stored<'a>) -> Items<'a>
        ensures { items_left result ≡ class_items class side.now }
    {
        let runs = LaterRuns::of(class, side);
        Items {
            left: ClassItems::of(class, runs.table, runs.floats),
            lines: LaterRuns::none(),
            faces: LaterRuns::none(),
        }
    }

    // Goes on to the run that has the next item, so that a walk that is taken up there need not look for it again;
    // whether there is one.
    #[tactic(auto, unfolding(crate::specs::Inner::items_left, crate::specs::Inner::later_class_items))]
    pub fn reach_next(&mut self) -> bool
        ensures left { items_left self.new ≡ items_left self.old }
        ensures none { result ≡ false → items_left self.new ≡ [] }
        ensures some { result ≡ true → 0 < length (items_left self.new) }
    {
        while !self.left.reach_next() {
            let (lines, faces) = (self.lines, self.faces);
            self.left = match self.left.class {
                Class::Points => ClassItems::of(Class::Lines, lines.table, lines.floats),
                Class::Lines => ClassItems::of(Class::Faces, faces.table, faces.floats),
                Class::Faces => return false,
            };
        }
        true
    }
}

impl<'a> Iterator for Items<'a> {
    ghost use Rattle.items.specs.Inner.{items_left};

    type Item = Item;

    ghost next_gives = { YieldsFirst (λ s. items_left s) };

    ghost remaining = { item_count (λ s. items_left s) };

    #[inline(always)]
    #[tactic(auto, unfolding(crate::specs::Inner::items_left, crate::specs::Inner::later_class_items))]
    fn next(&mut self) -> Option<Item> {
        loop {
            if let Some(item) = self.left.next() {
                return Some(item);
            }
            let (next, runs) = match self.left.class {
                Class::Points => (Class::Lines, self.lines),
                Class::Lines => (Class::Faces, self.faces),
                Class::Faces => return None,
            };
            self.left = ClassItems::of(next, runs.table, runs.floats);
        }
    }
}
