// What a workspace holds: runs, by kind, and their points.
#![tactic(auto)]

ghost use Rattle.std.specs.Prelude.{◌≡◌, ◌+◌, ◌*◌, ◌≤◌, ◌<◌, length, slice_get};
ghost use Rattle.std.specs.Iterator.{YieldsFirst, YieldsFirstBy, item_count};
ghost use Rattle.coords.specs.Parts.{run};
ghost use Rattle.parts.specs.Stored.{stored_runs, Laid};
ghost use Rattle.parts.specs.Slices.{points_in, segments_in};
ghost use Rattle.parts.specs.Classes.{is_of};
ghost use Rattle.parts.specs.Stretches.{is_with, points_while, runs_after};

use primitives::Point;
use std::marker::Model;
use workspace::FLOATS_PER_COORDINATE;

// The classes of runs, in the order in which the sweeps go through them.
#[derive(Clone, Copy, PartialEq, Eq, Debug)]
pub enum Class {
    Points,
    Lines,
    Faces,
}

impl Class {
    // Whether a run of that kind is of the class: each ring of a polygon or triangle is a face, and a collection's runs
    // have their members' kinds. By the kind's number, without the table of kinds: it is asked for each run.
    #[inline(always)]
    #[tactic(auto, unfolding(crate::specs::Classes::is_of))]
    pub fn holds(self, kind: u32) -> bool
        ensures { result ≡ is_of self kind }
    {
        match self {
            Class::Points => kind == 1,
            Class::Lines => kind == 2,
            Class::Faces => kind == 3 || kind == 17,
        }
    }
}

// The points that floats hold, one after the other.
#[derive(Drop)]
pub struct Points<'a> {
    floats: &'a [f64],
}

impl<'a> Model for Points<'a> {
    ghost use Rattle.std.specs.Prelude.{List};
    ghost use Rattle.primitives.specs.declared.Point.{Point};
    ghost use Rattle.parts.specs.Slices.{points_in};

    ghost Value = { List Point };

    ghost view = { λ s. points_in s.floats.now };
}

impl<'a> Points<'a> {
    // Those of floats.
    pub fn of(floats: &'a [f64]) -> Points<'a>
        ensures { result ≡ points_in floats.now }
    {
        Points { floats }
    }

    // The floats of those that are left.
    pub fn floats(&self) -> &'a [f64]
        ensures { points_in result.now ≡ self.now }
    {
        self.floats // those that are left
    }

    // The next one, if any is left.
    #[tactic(auto, using(crate::proofs::Slices::first_short, crate::proofs::Slices::first_more))]
    pub fn first(&self) -> Option<Point>
        ensures { result ≡ slice_get self.now 0 }
    {
        match self.floats {
            [x, y, z, _, ..] => Some(Point {
                x: *x,
                y: *y,
                z: *z,
            }),
            _ => None,
        }
    }

    // How many are left.
    pub fn len(&self) -> usize
        ensures { result ≡ length self.now }
    {
        self.floats.len() / FLOATS_PER_COORDINATE
    }

    // The segments of a line through the points.
    pub fn segments(self) -> Segments<'a>
        ensures { result ≡ segments_in self.entry }
    {
        Segments { points: self }
    }
}

impl<'a> Iterator for Points<'a> {
    type Item = Point;

    ghost next_gives = { YieldsFirst (λ s. s) };

    ghost remaining = { item_count (λ s. s) };

    #[tactic(auto, using(crate::proofs::Slices::points_short, crate::proofs::Slices::points_more))]
    fn next(&mut self) -> Option<Point> {
        match self.floats {
            [x, y, z, _, rest @ ..] => {
                let p = Point {
                    x: *x,
                    y: *y,
                    z: *z,
                };
                self.floats = rest;
                Some(p)
            }
            _ => None,
        }
    }
}

// The segments of a line: each point with the next.
#[derive(Drop)]
pub struct Segments<'a> {
    points: Points<'a>,
}

impl<'a> Model for Segments<'a> {
    ghost use Rattle.std.specs.Prelude.{List};
    ghost use Rattle.primitives.specs.declared.Point.{Point};
    ghost use Rattle.parts.specs.Slices.{segments_in};

    ghost Value = { List (Point × Point) };

    ghost view = { λ s. segments_in s.points };
}

impl<'a> Iterator for Segments<'a> {
    type Item = (Point, Point);

    ghost next_gives = { YieldsFirst (λ s. s) };

    ghost remaining = { item_count (λ s. s) };

    #[tactic(auto, using(crate::proofs::Slices::segment_turns))]
    fn next(&mut self) -> Option<(Point, Point)> {
        let start = self.points.next()?;
        let end = self.points.first()?;
        Some((start, end))
    }
}

// A run: the kind of the geometry that it belongs to, and its points.
#[derive(Drop)]
pub struct Run<'a> {
    pub kind: u32,
    pub points: Points<'a>,
}

impl<'a> Run<'a> {
    // Whether it is a run of that class.
    pub fn is_of(&self, class: Class) -> bool
        ensures { result ≡ is_of class self.now.kind }
    {
        class.holds(self.kind)
    }
}

// The runs of a workspace that are left to be walked.
#[derive(Drop)]
pub struct Runs<'a> {
    table: &'a [u32],
    floats: &'a [f64],
}

impl<'a> Model for Runs<'a> {
    ghost use Rattle.std.specs.Prelude.{List};
    ghost use Rattle.coords.specs.Parts.{Run as StoredRun};
    ghost use Rattle.primitives.specs.declared.Point.{Point};
    ghost use Rattle.parts.specs.Stored.{stored_runs, Laid};

    ghost Value = { List (StoredRun Point) };

    ghost view = { λ s. stored_runs s.table.now s.floats.now };

    ghost invariant = { λ s. Laid s.table.now s.floats.now };
}

impl<'a> Runs<'a> {
    // The same runs, to be walked again. No `Clone`: std's may fail, for want of memory, and this can't.
    pub fn again(&self) -> Runs<'a>
        ensures { result ≡ self.now }
    {
        Runs {
            table: self.table,
            floats: self.floats,
        }
    }

    // The table and the floats of the runs that are left.
    pub fn slices(&self) -> (&'a [u32], &'a [f64])
        ensures value { stored_runs result.0.now result.1.now ≡ self.now }
        ensures laid { Laid result.0.now result.1.now }
    {
        (self.table, self.floats)
    }

    // The points of the runs that come next, as long as they are of the class and have so many points at least. Their
    // floats follow each other, and so they are taken at once.
    #[tactic(auto, using(crate::proofs::Stretches::stretch_turns))]
    pub fn next_points(&mut self, class: Class, least: usize) -> Points<'a>
        ensures points { result ≡ points_while (is_with class least) self.old }
        ensures runs { self.new ≡ runs_after (is_with class least) self.old }
    {
        let mut table = self.table;
        let mut count = 0; // of points
        while let [kind, n, others @ ..] = table {
            if !class.holds(*kind) {
                break;
            }
            if (*n as usize) < least {
                break;
            }
            count += *n as usize;
            table = others;
        }
        let (points, after) = self.floats.split_at(FLOATS_PER_COORDINATE * count);
        self.table = table;
        self.floats = after;
        Points::of(points)
    }
}

impl<'a> Iterator for Runs<'a> {
    type Item = Run<'a>;

    ghost next_gives = { YieldsFirstBy (λ r. run r.kind r.points) (λ s. s) };

    ghost remaining = { item_count (λ s. s) };

    #[tactic(auto, using(crate::proofs::Slices::run_turns))]
    fn next(&mut self) -> Option<Run<'a>> {
        match self.table {
            [kind, count, table @ ..] => {
                let length = FLOATS_PER_COORDINATE * (*count as usize);
                let (floats, others) = self.floats.split_at(length);
                self.table = table;
                self.floats = others;
                Some(Run {
                    kind: *kind,
                    points: Points::of(floats),
                })
            }
            _ => None,
        }
    }
}

// A workspace that was filled: kind and count of each run, and the floats of its coordinates.
#[derive(Drop)]
pub struct Stored<'a> {
    runs: Runs<'a>,
}

impl<'a> Model for Stored<'a> {
    ghost use Rattle.std.specs.Prelude.{List};
    ghost use Rattle.coords.specs.Parts.{Run as StoredRun};
    ghost use Rattle.primitives.specs.declared.Point.{Point};

    ghost Value = { List (StoredRun Point) };

    ghost view = { λ s. s.runs };
}

impl<'a> Stored<'a> {
    pub fn new(floats: &'a [f64], table: &'a [u32]) -> Stored<'a>
        requires { Laid table.now floats.now }
        ensures { result ≡ stored_runs table.now floats.now }
    {
        Stored {
            runs: Runs { table, floats },
        }
    }

    // Its runs, in walk order.
    pub fn runs(&self) -> Runs<'a>
        ensures { result ≡ self.now }
    {
        self.runs.again()
    }
}
