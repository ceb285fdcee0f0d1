// An item with its box, which is made once: items are skipped by their boxes many times.

ghost use Rattle.std.specs.Prelude.{◌≡◌};
ghost use Rattle.items.specs.Items.{box_of_item};
ghost use Rattle.items.specs.Fitting.{BoxFits};

use crate::Item;
use primitives::Aabb;

#[derive(Clone, Copy)]
pub struct Boxed {
    pub item: Item,
    pub bounds: Aabb,
    ghost boxed: { bounds ≡ box_of_item item },
    ghost fitting: { BoxFits bounds },
}

impl Boxed {
    #[inline(always)]
    pub fn new(item: Item) -> Self
        ensures { result.item ≡ item }
    {
        Boxed {
            item,
            bounds: item.bounds(),
        }
    }
}
