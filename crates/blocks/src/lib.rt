// Many items in blocks: all items of a side in order, so many to a block, each block with a box that covers it. What is
// skipped against that box would be skipped against each item's own (`block_passed`). The sweep takes each class by
// itself, which may end with a block of fewer (`cut_by_class`): the box of a side's last points with its first lines
// would cover next to all of it. `cut` makes blocks of all items as they follow each other, which are no more than 128.
#![tactic(auto)]

mod block;
mod cover;
mod in_order;

ghost use Rattle.std.specs.Prelude.{◌≡◌, ◌⊎◌, ◌+◌, ◌*◌, ◌/◌, ◌≤◌, ◌<◌, ◌++◌, length, take};
ghost use Rattle.std.specs.List.{flat_map, All};
ghost use Rattle.items.specs.Items.{items_of};
ghost use Rattle.items.specs.Inner.{class_items};
ghost use Rattle.blocks.specs.Blocks.{most_full, most_rows_by_class, block_items};

pub use block::Block;
pub use in_order::cut;
use items::Items;
use parts::{Class, Stored};

// So many full blocks hold more than all items of a side.
const BLOCKS: usize = 128;

// The items of a class of a side in blocks of a size, as the rows from start on; where these end.
fn cut_class<'a>(
    class: Class,
    size: usize,
    side: &Stored<'a>,
    rows: &mut [Block<'a>],
    start: usize,
) -> usize
    requires size { 0 < size }
    requires within { start ≤ length rows.old }
    requires room { start * size + length (class_items class side.now) ≤ length rows.old * size }
    requires sizes { All (λ b. b.size ≡ size) (take start rows.old) }
    ensures few { result * size < start * size + length (class_items class side.now) + size }
    ensures within_2 { result ≤ length rows.new }
    ensures items { flat_map block_items (take result rows.new)
        ≡ flat_map block_items (take start rows.old) ++ class_items class side.now }
    ensures sizes_2 { All (λ b. b.size ≡ size) (take result rows.new) }
{
    let mut items = Items::of_class(class, side);
    let mut count = start;
    while items.reach_next() {
        rows[count] = Block::next_of(&mut items, size);
        count += 1;
    }
    count
}

// All items of a side, total of them, in blocks of one size, class by class; how many these are. A block has 8 items or
// more, but for the last of a class, so that few items need fewer rows.
pub fn cut_by_class<'a>(total: usize, side: &Stored<'a>, rows: &mut [Block<'a>]) -> usize
    requires all { total ≡ length (items_of side.now) }
    requires room { (most_rows_by_class ≤ length rows.old) ⊎ (total + 16 ≤ 8 * length rows.old) }
    ensures few { result ≤ most_rows_by_class }
    ensures within { result ≤ length rows.old }
    ensures items { flat_map block_items (take result rows.new) ≡ items_of side.now }
    ensures lt_size { All (λ b. 1 < b.size) (take result rows.new) }
    ensures same_size { All (λ b. b.size ≡ total / most_full + 8) (take result rows.new) }
{
    let size = total / BLOCKS + 8;
    let points = cut_class(Class::Points, size, side, rows, 0);
    let lines = cut_class(Class::Lines, size, side, rows, points);
    cut_class(Class::Faces, size, side, rows, lines)
}
