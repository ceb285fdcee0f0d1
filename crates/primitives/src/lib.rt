// Points, witnesses and boxes, by value.
#![tactic(auto)]

ghost use Rattle.std.specs.Prelude.{◌≡◌, true};
ghost use Rattle.primitives.specs.declared.Witness.{Witness};
ghost use Rattle.primitives.specs.Vectors.{difference_of, dot_of, cross_of, interpolated_of};
ghost use Rattle.primitives.specs.Vectors.{norm_of, squared_distance, least_of, greatest_of};
ghost use Rattle.primitives.specs.Witnesses.{between_of, smaller_of, flipped_of};
ghost use Rattle.primitives.specs.Unrooted.{rooted_of, StandsFor};
ghost use Rattle.primitives.specs.Boxes.{box_of_point, add_point, union_of, squared};
ghost use Rattle.primitives.specs.Boxes.{least_gap, greatest_gap, least_squared_gap, greatest_squared_gap};

use std::ops::Sub;

// Whether two floats have the same bits.
fn same_bits(x: f64, y: f64) -> bool
    ensures { result ≡ true → x ≡ y }
{
    ieee754::to_pattern(x) == ieee754::to_pattern(y)
}

// A point, or a vector.
#[derive(Clone, Copy)]
pub struct Point {
    pub x: f64,
    pub y: f64,
    pub z: f64,
}

impl Sub for Point {
    type Output = Point;

    ghost sub_gives = { λ a b r. r ≡ difference_of a b };

    #[tactic(auto, unfolding(crate::specs::Vectors::difference_of))]
    fn sub(self, other: Point) -> Point {
        Point {
            x: self.x - other.x,
            y: self.y - other.y,
            z: self.z - other.z,
        }
    }
}

impl Point {
    #[tactic(auto, unfolding(crate::specs::Vectors::dot_of))]
    pub fn dot(self, other: Point) -> f64
        ensures { result ≡ dot_of self other }
    {
        self.x * other.x + self.y * other.y + self.z * other.z
    }

    #[tactic(auto, unfolding(crate::specs::Vectors::cross_of))]
    pub fn cross(self, other: Point) -> Point
        ensures { result ≡ cross_of self other }
    {
        Point {
            x: self.y * other.z - self.z * other.y,
            y: self.z * other.x - self.x * other.z,
            z: self.x * other.y - self.y * other.x,
        }
    }

    // self + t * (other - self)
    #[tactic(auto, unfolding(crate::specs::Vectors::interpolated_of))]
    pub fn interpolated(self, other: Point, t: f64) -> Point
        ensures { result ≡ interpolated_of self other t }
    {
        Point {
            x: self.x + t * (other.x - self.x),
            y: self.y + t * (other.y - self.y),
            z: self.z + t * (other.z - self.z),
        }
    }

    // The length of a vector.
    #[tactic(auto, unfolding(crate::specs::Vectors::norm_of))]
    pub fn norm(self) -> f64
        ensures { result ≡ norm_of self }
    {
        ieee754::root(self.dot(self))
    }

    // The squared distance of two points.
    #[tactic(auto, unfolding(crate::specs::Vectors::squared_distance))]
    pub fn dist_sq(self, other: Point) -> f64
        ensures { result ≡ squared_distance self other }
    {
        let v = self - other;
        v.dot(v)
    }

    // Whether the two have the same bits, all NaN taken as one. This is not `==`: NaN is no equal of itself, and 0.0
    // equals -0.0.
    pub fn same_bits(self, other: Point) -> bool
        ensures { result ≡ true → self ≡ other }
    {
        same_bits(self.x, other.x) && same_bits(self.y, other.y) && same_bits(self.z, other.z)
    }

    // The lesser ordinate on each axis.
    pub fn min(self, other: Point) -> Point
        ensures { result ≡ least_of self other }
    {
        Point {
            x: ieee754::minimum(self.x, other.x),
            y: ieee754::minimum(self.y, other.y),
            z: ieee754::minimum(self.z, other.z),
        }
    }

    // The greater ordinate on each axis.
    pub fn max(self, other: Point) -> Point
        ensures { result ≡ greatest_of self other }
    {
        Point {
            x: ieee754::maximum(self.x, other.x),
            y: ieee754::maximum(self.y, other.y),
            z: ieee754::maximum(self.z, other.z),
        }
    }
}

// A distance with its two points.
#[derive(Clone, Copy)]
pub struct Witness {
    pub d: f64,
    pub a: Point,
    pub b: Point,
}

impl Witness {
    // The distance of two points.
    #[tactic(auto, unfolding(crate::specs::Witnesses::between_of, crate::specs::Witnesses::witness_of))]
    pub fn between(a: Point, b: Point) -> Witness
        ensures { result ≡ between_of a b }
    {
        Witness {
            d: ieee754::root(a.dist_sq(b)),
            a,
            b,
        }
    }

    // The smaller of two: the second only if strictly less.
    #[tactic(auto, unfolding(crate::specs::Witnesses::smaller_of))]
    pub fn min(self, other: Witness) -> Witness
        ensures { result ≡ smaller_of self other }
    {
        if other.d < self.d { other } else { self }
    }

    // The same distance, its points exchanged.
    #[tactic(auto, unfolding(crate::specs::Witnesses::flipped_of, crate::specs::Witnesses::witness_of))]
    pub fn flipped(self) -> Witness
        ensures { result ≡ flipped_of self }
    {
        let Witness { d, a, b } = self;
        Witness { d, a: b, b: a }
    }
}

// Two points with the sum of squares of their distance: a witness whose root is not taken.
#[derive(Clone, Copy)]
pub struct UnrootedWitness {
    pub sum: f64,
    pub a: Point,
    pub b: Point,
}

impl UnrootedWitness {
    // Two points.
    pub fn between(a: Point, b: Point) -> UnrootedWitness
        ensures { StandsFor result (between_of a b) }
    {
        UnrootedWitness {
            sum: a.dist_sq(b),
            a,
            b,
        }
    }

    // The same sum, its points exchanged.
    pub fn flipped(self) -> UnrootedWitness
        ensures rooted { rooted_of result ≡ flipped_of (rooted_of self) }
        ensures stands { (w : Witness) → StandsFor self w → StandsFor result (flipped_of w) }
    {
        let Witness { d, a, b } = Witness {
            d: self.sum,
            a: self.a,
            b: self.b,
        }
        .flipped();
        UnrootedWitness { sum: d, a, b }
    }

    // The witness, its root taken.
    #[tactic(auto, unfolding(crate::specs::Unrooted::rooted_of, crate::specs::Witnesses::witness_of))]
    pub fn rooted(self) -> Witness
        ensures { result ≡ rooted_of self }
    {
        Witness {
            d: ieee754::root(self.sum),
            a: self.a,
            b: self.b,
        }
    }
}

// The least gap of two ranges on one axis, up to the sign of a zero.
fn least_gap(lo: f64, hi: f64, other_lo: f64, other_hi: f64) -> f64
    ensures { squared result ≡ squared (least_gap lo hi other_lo other_hi) }
{
    let below = lo - other_hi;
    let above = other_lo - hi;
    let least = if below > 0.0 { below } else { 0.0 };
    if above > least { above } else { least }
}

// The greatest gap of two ranges on one axis.
#[tactic(auto, unfolding(crate::specs::Boxes::greatest_gap))]
fn greatest_gap(lo: f64, hi: f64, other_lo: f64, other_hi: f64) -> f64
    ensures { result ≡ greatest_gap lo hi other_lo other_hi }
{
    ieee754::maximum(
        ieee754::absolute(hi - other_lo),
        ieee754::absolute(other_hi - lo),
    )
}

// A box, by its corners of least and of greatest ordinates.
#[derive(Clone, Copy)]
pub struct Aabb {
    pub lo: Point,
    pub hi: Point,
}

impl Aabb {
    // The box of one point.
    #[tactic(auto, unfolding(crate::specs::Boxes::box_of_point))]
    pub fn point(p: Point) -> Aabb
        ensures { result ≡ box_of_point p }
    {
        Aabb { lo: p, hi: p }
    }

    // The box with one more point in it.
    #[tactic(auto, unfolding(crate::specs::Boxes::add_point))]
    pub fn add(self, p: Point) -> Aabb
        ensures { result ≡ add_point self p }
    {
        Aabb {
            lo: self.lo.min(p),
            hi: self.hi.max(p),
        }
    }

    // The box with another's two corners added.
    #[tactic(auto, unfolding(crate::specs::Boxes::union_of))]
    pub fn union(self, other: Aabb) -> Aabb
        ensures { result ≡ union_of self other }
    {
        self.add(other.lo).add(other.hi)
    }

    // The squared distance that no pair of points, one from each box, goes below.
    #[tactic(auto, unfolding(crate::specs::Boxes::least_squared_gap))]
    pub fn min_dist_sq(self, other: Aabb) -> f64
        ensures { result ≡ least_squared_gap self other }
    {
        let x = least_gap(self.lo.x, self.hi.x, other.lo.x, other.hi.x);
        let y = least_gap(self.lo.y, self.hi.y, other.lo.y, other.hi.y);
        let z = least_gap(self.lo.z, self.hi.z, other.lo.z, other.hi.z);
        x * x + y * y + z * z
    }

    // The squared distance that no such pair exceeds.
    #[tactic(auto, unfolding(crate::specs::Boxes::greatest_squared_gap))]
    pub fn max_dist_sq(self, other: Aabb) -> f64
        ensures { result ≡ greatest_squared_gap self other }
    {
        let x = greatest_gap(self.lo.x, self.hi.x, other.lo.x, other.hi.x);
        let y = greatest_gap(self.lo.y, self.hi.y, other.lo.y, other.hi.y);
        let z = greatest_gap(self.lo.z, self.hi.z, other.lo.z, other.hi.z);
        x * x + y * y + z * z
    }
}
