// One item of A against all items of B, by B's index: rows of a box and an item or items, in B's order (`Index`). An
// item of A is skipped against the box of all of B, then a pair by its two boxes (`no_closer`): a skipped pair is not
// offered, which document 01 has so. A best of distance NaN is never replaced, so what follows may be passed over
// (`ends`); nor is one of 0, and the sweep stops there where it is asked to.
// - At most 16 items (`with_list`): a row for each. Two items that follow each other in a run share candidates; what
//   the pair before offered is not offered again (`Before`, `Item::follows`).
// - More (`with_blocks`): a row for each block of items. A block is skipped as one pair is; the others are walked
//   (`with_span`).
#![tactic(auto)]

ghost use Rattle.std.specs.Prelude.{◌≡◌, true, ◌&&◌, cond, ◌≤◌, List, length, take, None, Some, IfSome};
ghost use Rattle.std.specs.List.{flat_map};
ghost use Rattle.primitives.specs.Boxes.{least_squared_gap};
ghost use Rattle.extremes.specs.BestSoFar.{BestFits, found_of, at_zero, Lasts};
ghost use Rattle.extremes.specs.ClosestSweep.{no_closer};
ghost use Rattle.measures.specs.InnerOffers.{AllSettled};
ghost use Rattle.items.specs.Items.{box_of_item};
ghost use Rattle.items.specs.Inner.{items_left};
ghost use Rattle.items.specs.InnerRepeats.{first_before, first_after, second_after};
ghost use Rattle.items.specs.Closest.{with_each};
ghost use Rattle.listing.specs.Listing.{most_listed};
ghost use Rattle.blocks.specs.Blocks.{block_items};
ghost use Rattle.against.specs.Indexed.{indexed_items, listed_rows, items_in};
ghost use Rattle.against.specs.Known.{met, Known, Left};
ghost use Rattle.std.specs.declared.option.Option.{Option};
ghost use Rattle.primitives.specs.declared.Witness.{Witness};
ghost use Rattle.items.specs.declared.boxed.Boxed.{Boxed};

use blocks::Block;
use extremes::{Best, BestSoFar, Closest};
use items::{Boxed, Item, Items};
use measures::Follows;
use primitives::Aabb;

// The index of a side: its items, or blocks of them.
#[derive(Clone, Copy)]
pub enum Index<'i, 's> {
    Listed(&'i [Boxed]),
    Blocks(&'i [Block<'s>]),
}

// What the items of A are swept against: B's index, and the box of B's items; whether the sweep stops at distance 0.
#[derive(Clone, Copy)]
pub struct Target<'i, 's> {
    pub index: Index<'i, 's>,
    pub all: Aabb,
    pub stop: bool,
}

// Whether the sweep may stop: at 0, where that is asked for.
fn stops(stop_at_zero: bool, best: &Best) -> bool
    ensures value { result ≡ (stop_at_zero && at_zero (found_of best.now.witness)) }
    ensures zero { result ≡ true → at_zero (found_of best.now.witness) ≡ true }
{
    stop_at_zero && best.is_zero()
}

// Whether the rest of the sweep may be passed over: at NaN, which stays since nothing is less, and where the sweep may
// stop.
pub fn ends(stop_at_zero: bool, best: &Best) -> bool
    ensures { result ≡ true → Lasts (found_of best.now.witness) }
{
    best.is_nan() || stops(stop_at_zero, best)
}

// An item of A with the next item of B, unless their boxes are no closer than the best; whether it was measured with
// it. known: the item before a was measured with b; last: the item of B before, if a is a triangle that was measured
// with it, and then b, if it was.
#[inline(always)]
#[tactic(auto, using(crate::proofs::Known::measured), unfolding(items::specs::Closest::with_item))]
fn with_next(
    best: &mut BestSoFar<Closest>,
    a: &Boxed,
    b: &Boxed,
    known: bool,
    last: &mut Option<Item>,
) -> bool
    requires known { known ≡ true → AllSettled best.old (first_before a.now.item b.now.item) }
    requires last { IfSome last.old (λ before. AllSettled best.old (second_after a.now.item before)) }
    ensures value { best.new ≡ met a.now.item best.old b.now.item }
    ensures known_2 { result ≡ true → AllSettled best.new (first_after a.now.item b.now.item) }
    ensures last_2 { IfSome last.new (λ before. AllSettled best.new (second_after a.now.item before)) }
    ensures fits { BestFits best.old }
{
    if best.no_closer(a.bounds.min_dist_sq(b.bounds)) {
        *last = None;
        return false;
    }
    let follows = Follows {
        first: known,
        second: match *last {
            Some(before) => b.item.follows(before),
            None => false,
        },
    };
    a.item.offer(best, b.item, follows);
    // What two items of B share is spared with a triangle of A only, so no other keeps b.
    *last = match a.item {
        Item::Triangle(_) => Some(b.item),
        _ => None,
    };
    true
}

// An item with so many items of those that are left of B, or with all of them.
#[tactic(auto, using(crate::proofs::Folds::span_turns))]
pub fn with_span(
    best: &mut BestSoFar<Closest>,
    stop: bool,
    a: &Boxed,
    items: Items<'_>,
    count: usize,
)
    ensures { best.new ≡ with_each a.now.item best.old (take count (items_left items.entry)) }
{
    let mut last = None;
    for b in items.take(count) {
        if stops(stop, best.best()) {
            return;
        }
        with_next(best, a, &Boxed::new(b), false, &mut last);
    }
}

// An item with a block of B, unless the block's box is no closer.
#[tactic(auto, using(blocks::proofs::Blocks::block_passed))]
fn with_block(best: &mut BestSoFar<Closest>, stop: bool, a: &Boxed, block: &Block<'_>)
    ensures { best.new ≡ with_each a.now.item best.old (block_items block.now) }
{
    if best.no_closer(a.bounds.min_dist_sq(block.bounds)) {
        return;
    }
    with_span(best, stop, a, block.first, block.count);
}

// An item with blocks of B.
#[tactic(auto, using(crate::proofs::Folds::block_turns))]
fn with_blocks(best: &mut BestSoFar<Closest>, stop: bool, a: &Boxed, blocks: &[Block<'_>])
    ensures { best.new ≡ with_each a.now.item best.old (flat_map block_items blocks.now) }
{
    for block in blocks {
        if stops(stop, best.best()) {
            return;
        }
        with_block(best, stop, a, block);
    }
}

// An item with the listed items; known: which of them the item before was measured with, and then this one.
#[tactic(auto, using(crate::proofs::Folds::row_turns, crate::proofs::Known::walk))]
fn with_list(
    best: &mut BestSoFar<Closest>,
    stop: bool,
    a: &Boxed,
    rows: &[Boxed],
    known: &mut [bool; 16],
)
    requires few { length rows.now ≤ most_listed }
    requires known { Known (first_before a.now.item) best.old known.old rows.now }
    ensures value { best.new ≡ with_each a.now.item best.old (items_in rows.now) }
    ensures known_2 { Known (first_after a.now.item) best.new known.new rows.now }
{
    let mut last = None;
    for (k, row) in rows.iter().enumerate() {
        if stops(stop, best.best()) {
            return;
        }
        known[k] = with_next(best, a, row, known[k], &mut last);
    }
}

// What the item of A before leaves: that item, if it met B's listed items, and which of them it was measured with.
#[derive(Clone, Copy)]
pub struct Before {
    pub item: Option<Item>,
    pub met: [bool; 16],
}

impl Before {
    // The next item: what it shares with the one before is known, if it follows that one.
    #[tactic(auto, using(crate::proofs::Known::nothing_known, crate::proofs::Known::handed_on))]
    fn go_on(&mut self, item: Item)
        ensures same { self.new.item ≡ Some item }
        ensures known { (best : Option Witness) (rows : List Boxed)
            → Left best self.old rows → Known (first_before item) best self.new.met rows }
    {
        let follows = match self.item {
            Some(before) => item.follows(before),
            None => false,
        };
        if !follows {
            self.met = [false; 16];
        }
        self.item = Some(item);
    }
}

// An item of A with all items of B, unless it is skipped against the box of all of them.
pub fn with_all(
    best: &mut BestSoFar<Closest>,
    target: &Target<'_, '_>,
    a: &Boxed,
    before: &mut Before,
)
    requires few { length (listed_rows target.now.index) ≤ most_listed }
    requires left { Left best.old before.old (listed_rows target.now.index) }
    ensures value { best.new ≡ cond (no_closer best.old (least_squared_gap (box_of_item a.now.item) target.now.all))
        best.old
        (with_each a.now.item best.old (indexed_items target.now.index)) }
    ensures left_2 { Left best.new before.new (listed_rows target.now.index) }
{
    if best.no_closer(a.bounds.min_dist_sq(target.all)) {
        before.item = None;
        return;
    }
    match target.index {
        Index::Listed(rows) => {
            before.go_on(a.item);
            with_list(best, target.stop, a, rows, &mut before.met);
        }
        Index::Blocks(blocks) => with_blocks(best, target.stop, a, blocks),
    }
}
