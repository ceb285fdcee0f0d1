// The items of a side, listed once: how many, the box of all, and of few items each one with its box.
#![tactic(auto)]

ghost use Rattle.std.specs.Prelude.{◌≡◌, ◌≤◌, ◌<◌, length, slice_set};
ghost use Rattle.items.specs.Items.{items_of};
ghost use Rattle.listing.specs.Listing.{most_listed, Lists};
ghost use Rattle.listing.specs.Inner.{union_with};

use items::{Boxed, Items};
use parts::Stored;
use primitives::Aabb;

// At most so many items are listed each with its box.
pub const LISTED: usize = 16;

// How many items there are, and the box of all.
#[derive(Clone, Copy)]
pub struct Listing {
    pub count: usize,
    pub all: Option<Aabb>,
}

// The box of some items, if there is one, with one more box in it.
fn unite(all: Option<Aabb>, b: Aabb) -> Aabb
    ensures { result ≡ union_with all b }
{
    match all {
        Some(all) => all.union(b),
        None => b,
    }
}

// A row as the k-th, if it is one of those that are listed.
fn store(rows: &mut [Boxed], k: usize, row: Boxed)
    requires { most_listed ≤ length rows.old }
    ensures listed { k < most_listed → rows.new ≡ slice_set rows.old k row }
    ensures others { most_listed ≤ k → rows.new ≡ rows.old }
{
    if k < LISTED {
        rows[k] = row;
    }
}

// All items of a side in order; if they are at most 16, each in a row.
pub fn list_all(side: &Stored<'_>, rows: &mut [Boxed]) -> Listing
    requires { most_listed ≤ length rows.old }
    ensures { Lists result (items_of side.now) rows.new }
{
    let mut seen = Listing {
        count: 0,
        all: None,
    };
    for item in Items::of(side) {
        let row = Boxed::new(item);
        store(rows, seen.count, row);
        seen = Listing {
            count: seen.count + 1,
            all: Some(unite(seen.all, row.bounds)),
        };
    }
    seen
}
