// A box that covers others, grown box by box.
// `lower` and `upper` are one test, mirrored in each comparison and in its infinity: one function of both would take
// the two tests and the infinity too, and its calls would read worse than these two.

ghost use Rattle.std.specs.Prelude.{◌≡◌};
ghost use Rattle.blocks.specs.Cover.{lower_of, upper_of, cover_of, empty_cover};

use primitives::{Aabb, Point};

// The lower of two ends; -infinity if one of them is NaN.
fn lower(k: f64, m: f64) -> f64
    ensures { result ≡ lower_of k m }
{
    if k <= m {
        k
    } else if m < k {
        m
    } else {
        f64::NEG_INFINITY
    }
}

// The upper of two ends; +infinity if one of them is NaN.
fn upper(k: f64, m: f64) -> f64
    ensures { result ≡ upper_of k m }
{
    if m <= k {
        k
    } else if k < m {
        m
    } else {
        f64::INFINITY
    }
}

// A box that covers m, and all that k covers.
#[tactic(auto, unfolding(crate::specs::Cover::cover_of))]
pub fn cover(k: Aabb, m: Aabb) -> Aabb
    ensures { result ≡ cover_of k m }
{
    Aabb {
        lo: Point {
            x: lower(k.lo.x, m.lo.x),
            y: lower(k.lo.y, m.lo.y),
            z: lower(k.lo.z, m.lo.z),
        },
        hi: Point {
            x: upper(k.hi.x, m.hi.x),
            y: upper(k.hi.y, m.hi.y),
            z: upper(k.hi.z, m.hi.z),
        },
    }
}

// A cover to start from, with no box under it.
pub fn empty_cover() -> Aabb
    ensures { result ≡ empty_cover }
{
    let lo = f64::INFINITY;
    let hi = f64::NEG_INFINITY;
    Aabb {
        lo: Point {
            x: lo,
            y: lo,
            z: lo,
        },
        hi: Point {
            x: hi,
            y: hi,
            z: hi,
        },
    }
}
