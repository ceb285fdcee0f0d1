// All items of a side as they follow each other, whatever their class, in as few blocks of a size as hold them.
ghost use Rattle.std.specs.Prelude.{◌≡◌, ◌⊎◌, ◌+◌, ◌*◌, ◌/◌, ◌≤◌, ◌<◌, length, take};
ghost use Rattle.std.specs.List.{flat_map, All};
ghost use Rattle.items.specs.Items.{items_of};
ghost use Rattle.blocks.specs.Blocks.{most_full, most_rows, block_items};

use crate::BLOCKS;
use crate::block::Block;
use items::Items;
use parts::Stored;

// All items of a side, total of them, in blocks of one size; how many these are. A block has 8 items or more, but for
// the last, so that few items need fewer rows.
pub fn cut<'a>(total: usize, side: &Stored<'a>, rows: &mut [Block<'a>]) -> usize
    requires all { total ≡ length (items_of side.now) }
    requires room { (most_rows ≤ length rows.old) ⊎ (total ≤ 8 * length rows.old) }
    ensures few { result ≤ most_rows }
    ensures within { result ≤ length rows.old }
    ensures items { flat_map block_items (take result rows.new) ≡ items_of side.now }
    ensures lt_size { All (λ b. 1 < b.size) (take result rows.new) }
    ensures same_size { All (λ b. b.size ≡ total / most_full + 8) (take result rows.new) }
{
    let size = total / BLOCKS + 8;
    let count = total.div_ceil(size);
    let mut items = Items::of(side);
    for row in rows[..count].iter_mut() {
        *row = Block::next_of(&mut items, size);
    }
    count
}

#[cfg(test)]
mod tests {
    use super::*;
    use crate::cut_by_class;

    // Three points, and a line of three vertices: five items, of two classes.
    const TABLE: [u32; 8] = [1, 1, 1, 1, 1, 1, 2, 3];

    const FLOATS: [f64; 24] = [
        0.0, 0.0, 0.0, 0.0, 1.0, 0.0, 0.0, 0.0, 2.0, 0.0, 0.0, 0.0, 5.0, 0.0, 0.0, 0.0, 6.0, 0.0,
        0.0, 0.0, 7.0, 0.0, 0.0, 0.0,
    ];

    #[test]
    #[tactic(auto, unfolding(parts::specs::Stored::Laid, parts::specs::Stored::point_count))]
    fn a_block_of_two_classes(rt: HostRuntime) {
        let side = Stored::new(&FLOATS, &TABLE);
        let total = Items::of(&side).count();
        assert_eq!(rt; total, 5);
        let none = Block::none(Items::of(&side));
        let mut row = [none; 1];
        let count = cut(total, &side, &mut row);
        assert_eq!(rt; count, 1);
        for block in &row[..count] {
            assert_eq!(rt; block.count, 5);
            assert_eq!(rt; block.bounds.hi.x, 7.0);
        }
        assert_eq!(rt; cut_by_class(total, &side, &mut [none; 3]), 2);
    }
}
