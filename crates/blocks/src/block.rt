// Some items of a side that follow each other, by where they begin, and a box that covers them.

ghost use Rattle.std.specs.Prelude.{◌≡◌, take};
ghost use Rattle.std.specs.List.{All};
ghost use Rattle.items.specs.Items.{box_of_item};
ghost use Rattle.items.specs.Fitting.{BoxFits};
ghost use Rattle.items.specs.Inner.{items_left};
ghost use Rattle.blocks.specs.Cover.{cover_of_items};

use crate::cover::{cover, empty_cover};
use items::Items;
use primitives::Aabb;

// The next so many items, or all that are left, and how many these are: a walk that asked for one more would look for
// it through all runs.
#[derive(Clone, Copy)]
pub struct Block<'a> {
    pub bounds: Aabb,
    pub first: Items<'a>,
    pub size: usize,
    pub count: usize,
    ghost counted: { take count (items_left first) ≡ take size (items_left first) },
    ghost cover: { bounds ≡ cover_of_items (take size (items_left first)) },
    ghost fitting: { All (λ i. BoxFits (box_of_item i)) (take size (items_left first)) },
}

impl<'a> Block<'a> {
    ghost use Rattle.std.specs.Prelude.{◌≡◌, [], take, drop};
    ghost use Rattle.items.specs.Inner.{items_left};
    ghost use Rattle.blocks.specs.Blocks.{block_items};

    // A block of no item, to fill an array with.
    pub fn none(first: Items<'a>) -> Block<'a>
        ensures { block_items result ≡ [] }
    {
        Block {
            bounds: empty_cover(),
            first,
            size: 0,
            count: 0,
        }
    }

    // The next so many items of a side, which are passed over.
    pub fn next_of(items: &mut Items<'a>, size: usize) -> Block<'a>
        ensures items { block_items result ≡ take size (items_left items.old) }
        ensures left { items_left items.new ≡ drop size (items_left items.old) }
        ensures size { result.size ≡ size }
    {
        items.reach_next();
        let first = *items;
        let mut bounds = empty_cover();
        let mut count = 0;
        for _ in 0..size {
            match items.next() {
                Some(item) => {
                    bounds = cover(bounds, item.bounds());
                    count += 1;
                }
                None => break,
            }
        }
        Block {
            bounds,
            first,
            size,
            count,
        }
    }
}
