// The closest sweep: the items of A in order, each with the items of B in order, points before segments before
// triangles; what is skipped and when it ends is told in `against`. Where A is one point (`from_one_point`) each item
// of B is looked at once, so no box of it is kept, and one point with one point needs no box at all. Else B has an
// index, made once: of its items where there are at most 16 (`listing`), of blocks where there are more (`sweep_blocks`).
#![tactic(auto)]

ghost use Rattle.std.specs.Prelude.{◌≡◌, ◌⊎◌, None, [], ◌∷◌, ◌+◌, ◌*◌, ◌≤◌, length, IfSome};
ghost use Rattle.items.specs.Items.{items_of};
ghost use Rattle.items.specs.declared.Item.TheVariants.{Point as point};
ghost use Rattle.items.specs.Closest.{with_each, sweep_of, closest_of};
ghost use Rattle.listing.specs.Listing.{most_listed};
ghost use Rattle.blocks.specs.Blocks.{most_rows_by_class};
ghost use Rattle.against.specs.Indexed.{indexed_items, listed_rows};

use against::{Before, Index, Target};
use blocks::Block;
use extremes::{BestSoFar, Closest};
use items::{Boxed, Item, Items};
use listing::LISTED;
use parts::{Class, Stored};
use primitives::{Aabb, Point, UnrootedWitness, Witness};

const ORIGIN: Point = Point {
    x: 0.0,
    y: 0.0,
    z: 0.0,
};

// All items of A, each with all items of B.
#[tactic(auto, using(against::proofs::Folds::sweep_turns))]
fn sweep_all(target: &Target<'_, '_>, side: &Stored<'_>) -> BestSoFar<Closest>
    requires { length (listed_rows target.now.index) ≤ most_listed }
    ensures { result ≡ sweep_of target.now.all (indexed_items target.now.index) None (items_of side.now) }
{
    let mut best = BestSoFar::none();
    let mut before = Before {
        item: None,
        met: [false; 16],
    };
    for item in Items::of(side) {
        if against::ends(target.stop, best.best()) {
            return best;
        }
        against::with_all(&mut best, target, &Boxed::new(item), &mut before);
    }
    best
}

// The sweep where B has many items, so many, in that box: its index is of blocks, for which there are these rows.
// That so many are B's items is asked here and below: the list found it, and the cut needs it.
fn sweep_blocks<'b>(
    stop: bool,
    count: usize,
    all: Aabb,
    a: &Stored<'_>,
    b: &Stored<'b>,
    rows: &mut [Block<'b>],
) -> BestSoFar<Closest>
    requires count { count ≡ length (items_of b.now) }
    requires room { (most_rows_by_class ≤ length rows.old) ⊎ (count + 16 ≤ 8 * length rows.old) }
    ensures { result ≡ sweep_of all (items_of b.now) None (items_of a.now) }
{
    let cut = blocks::cut_by_class(count, b, rows);
    let index = Index::Blocks(&rows[..cut]);
    sweep_all(&Target { index, all, stop }, a)
}

// The same where B has at most 128 items, which need no more rows than 18. A function of its own, as is the one for
// more: what a function keeps is filled when it begins, whatever it does then.
#[inline(never)]
fn sweep_some(
    stop: bool,
    count: usize,
    all: Aabb,
    a: &Stored<'_>,
    b: &Stored<'_>,
) -> BestSoFar<Closest>
    requires few { count ≤ 128 }
    requires count { count ≡ length (items_of b.now) }
    ensures { result ≡ sweep_of all (items_of b.now) None (items_of a.now) }
{
    let mut rows = [Block::none(Items::of(b)); 18];
    sweep_blocks(stop, count, all, a, b, &mut rows)
}

// The same with rows enough for any number.
#[inline(never)]
fn sweep_many(
    stop: bool,
    count: usize,
    all: Aabb,
    a: &Stored<'_>,
    b: &Stored<'_>,
) -> BestSoFar<Closest>
    requires { count ≡ length (items_of b.now) }
    ensures { result ≡ sweep_of all (items_of b.now) None (items_of a.now) }
{
    let mut rows = [Block::none(Items::of(b)); 130];
    sweep_blocks(stop, count, all, a, b, &mut rows)
}

// All items of A, each with all items of B, whose index is of single items if they are few.
#[tactic(auto, using(crate::proofs::Listed::listed_some, crate::proofs::Listed::listed_nothing))]
fn from_all(stop: bool, a: &Stored<'_>, b: &Stored<'_>) -> BestSoFar<Closest>
    ensures { result ≡ closest_of (items_of a.now) (items_of b.now) }
{
    let none = Boxed::new(Item::Point(ORIGIN));
    let mut rows = [none; 16];
    let list = listing::list_all(b, &mut rows);
    match list.all {
        None => BestSoFar::none(),
        Some(all) => {
            let count = list.count;
            if LISTED < count {
                if count <= 128 {
                    return sweep_some(stop, count, all, a, b);
                }
                return sweep_many(stop, count, all, a, b);
            }
            let index = Index::Listed(&rows[..count]);
            sweep_all(&Target { index, all, stop }, a)
        }
    }
}

// The point of a side that is one point and nothing else.
#[tactic(auto, using(crate::proofs::OnePoint::only_item))]
fn only_point(side: &Stored<'_>) -> Option<Point>
    ensures { IfSome result (λ p. items_of side.now ≡ point p ∷ []) }
{
    let mut runs = side.runs();
    let run = runs.next()?;
    match runs.next() {
        None if run.is_of(Class::Points) && run.points.len() == 1 => run.points.first(),
        _ => None,
    }
}

// One point with all items of B: no box of B is needed.
#[tactic(auto, using(crate::proofs::OnePoint::one_with_one, crate::proofs::OnePoint::all_taken))]
fn from_one_point(stop: bool, p: Point, b: &Stored<'_>) -> BestSoFar<Closest>
    ensures { result ≡ with_each (point p) None (items_of b.now) }
{
    let mut best = BestSoFar::none();
    match only_point(b) {
        Some(q) => best.offer(UnrootedWitness::between(p, q)),
        None => {
            let probe = Boxed::new(Item::Point(p));
            against::with_span(&mut best, stop, &probe, Items::of(b), usize::MAX);
        }
    }
    best
}

// The closest pair of points of two workspaces' items. Stopping at 0 changes no answer.
#[tactic(auto, using(crate::proofs::OnePoint::from_one))]
pub fn closest(a: &Stored<'_>, b: &Stored<'_>, stop_at_zero: bool) -> Option<Witness>
    ensures { result ≡ closest_of (items_of a.now) (items_of b.now) }
{
    if let Some(p) = only_point(a) {
        return from_one_point(stop_at_zero, p, b).witness();
    }
    from_all(stop_at_zero, a, b).witness()
}
