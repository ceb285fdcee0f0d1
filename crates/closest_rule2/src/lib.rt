// The closest sweep by pair rule 2 (document 02, 3/13), in its plain form: two workspaces, and no index of either.
//
// 1. Where neither side has a face (`any_face`) nothing is crossed, and callers take rule 1's sweep, which is the
//    faster one.
// 2. Side 2 is looked through once for the box of all its items (`from_all`). Without an item there is no pair.
// 3. Each item of side 1 meets each item of side 2 (`visit`), both in order: points, segments, triangles.
// 4. An item of side 1 is skipped against the box of all of side 2, and a pair by its two boxes (`visit`): what is
//    skipped is not offered, which document 01 has so. Any other pair offers its candidates by rule 2. On TINs the box
//    of side 2's item costs most; it is made of the item, which is needed anyway if the pair is not skipped.
// 5. A best of NaN or 0 is never replaced: at NaN the rest is passed over, and at 0 where that is asked for.
#![tactic(auto)]

ghost use Rattle.std.specs.Prelude.{◌≡◌, ◌||◌, List, Float, None};
ghost use Rattle.parts.specs.Stored.{stored_runs};
ghost use Rattle.items.specs.Items.{items_of};
ghost use Rattle.items.specs.Inner.{items_left};
ghost use Rattle.crossings.specs.Closest.{sweep_by_rule2, closest_by_rule2};
ghost use Rattle.closest_rule2.specs.Inner.{met_by_rule2, has_face, table_has_face};

use extremes::{BestSoFar, Closest};
use items::{Boxed, Item, Items};
use parts::{Class, Stored};
use primitives::{Aabb, Point, Witness};

const ORIGIN: Point = Point {
    x: 0.0,
    y: 0.0,
    z: 0.0,
};

// What the items of side 1 are swept against: side 2's items, and the box of all of them; whether the sweep stops at
// distance 0.
#[derive(Clone, Copy)]
pub struct Reach<'s> {
    pub items: Items<'s>,
    pub all: Aabb,
    pub stop: bool,
}

// An item of side 1 with all items of side 2, unless it is skipped against the box of all of them.
#[tactic(auto, using(crate::proofs::Folds::each_turns), unfolding(crossings::specs::Closest::with_item_by_rule2))]
fn visit(best: &mut BestSoFar<Closest>, reach: &Reach<'_>, item: Item)
    ensures { best.new ≡ met_by_rule2 reach.now.all (items_left reach.now.items) best.old item }
{
    let a = Boxed::new(item);
    if best.no_closer(a.bounds.min_dist_sq(reach.all)) {
        return;
    }
    for b in reach.items {
        if against::ends(reach.stop, best.best()) {
            return;
        }
        if !best.no_closer(a.bounds.min_dist_sq(b.bounds())) {
            crossings::offer(best, item, b);
        }
    }
}

// Each item of side 1, with all items of side 2. The loop of `closest` with another step: one loop over a trait for both
// steps was longer than the two.
#[tactic(auto, using(crate::proofs::Folds::sweep_turns))]
fn sweep_all(reach: &Reach<'_>, side: &Stored<'_>) -> BestSoFar<Closest>
    ensures { result ≡ sweep_by_rule2 reach.now.all (items_left reach.now.items) None (items_of side.now) }
{
    let mut best = BestSoFar::none();
    for item in Items::of(side) {
        if against::ends(reach.stop, best.best()) {
            return best;
        }
        visit(&mut best, reach, item);
    }
    best
}

// The closest pair by rule 2 of all items, with the box of those of side 2.
#[tactic(auto, using(crate::proofs::Listed::listed_some, crate::proofs::Listed::listed_nothing))]
fn from_all(stop: bool, a: &Stored<'_>, b: &Stored<'_>) -> BestSoFar<Closest>
    ensures { result ≡ closest_by_rule2 (items_of a.now) (items_of b.now) }
{
    let none = Boxed::new(Item::Point(ORIGIN));
    let mut rows = [none; 16];
    match listing::list_all(b, &mut rows).all {
        None => BestSoFar::none(),
        Some(all) => {
            let items = Items::of(b);
            sweep_all(&Reach { items, all, stop }, a)
        }
    }
}

// Whether a table has a run that is a face.
#[tactic(auto, using(crate::proofs::WithoutFaces::table_turns), unfolding(parts::specs::Classes::is_of))]
fn has_face(table: &[u32]) -> bool
    ensures { result ≡ table_has_face table.now }
{
    let mut left = table;
    while let [kind, _, others @ ..] = left {
        if Class::Faces.holds(*kind) {
            return true;
        }
        left = others;
    }
    false
}

// Whether a side has a face, by the tables of the two; the points don't matter. Where none has, rule 2 finds what rule 1
// does.
#[tactic(auto, using(crate::proofs::WithoutFaces::stored_face))]
pub fn any_face(table1: &[u32], table2: &[u32]) -> bool
    ensures tables { result ≡ (table_has_face table1.now || table_has_face table2.now) }
    ensures sides { (floats1 floats2 : List Float)
        → result ≡ (has_face (stored_runs table1.now floats1) || has_face (stored_runs table2.now floats2)) }
{
    has_face(table1) || has_face(table2)
}

// The closest pair of points of two workspaces' items by rule 2. Stopping at 0 changes no answer.
pub fn closest(a: &Stored<'_>, b: &Stored<'_>, stop_at_zero: bool) -> Option<Witness>
    ensures { result ≡ closest_by_rule2 (items_of a.now) (items_of b.now) }
{
    from_all(stop_at_zero, a, b).witness()
}
