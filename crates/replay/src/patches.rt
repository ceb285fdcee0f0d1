// A surface's patches by the cursor, beside those by number.
ghost use Rattle.std.specs.Prelude.{◌≡◌, ◌+◌, ◌-◌, ◌^◌, ◌<◌, true, length, take};
ghost use Rattle.std.specs.Prelude.{Some, Ok, IfOk, IfErr};
ghost use Rattle.surface.specs.Cursors.{next_by, patch_by, bytes_by};
ghost use Rattle.surface.specs.Patches.{bytes_of, patch_of, next_of, list_of};

use std::alloc::AllocError;
use surface::{Cursor, Part, PatchError, patch_list, patch_range};

// Patch n of a blob, by the cursor: the patch of that number.
#[tactic(auto, using(crate::proofs::Numbered::nothing_after))]
pub fn patch_by_cursor(blob: &[u8], n: u64) -> Result<Option<Part>, PatchError>
    ensures { result ≡ patch_of blob.now n }
{
    let list = patch_list(blob)?;
    let mut cursor = Cursor::new(blob, list.first, list.count);
    for k in 0..n {
        match cursor.range()? {
            Some(part) => cursor = cursor.after(part.end),
            None => return Ok(None),
        }
    }
    cursor.range()
}

// The bytes of patch n by its number; none where there is no such patch.
#[tactic(auto, using(crate::proofs::Numbered::in_blob), unfolding(surface::specs::Patches::bytes_of))]
fn bytes_by_number(blob: &[u8], n: u64) -> &[u8]
    ensures { result.now ≡ bytes_of blob.now (patch_of blob.now n) }
{
    match patch_range(blob, n) {
        Ok(Some(part)) => &blob[part.start..part.end],
        _ => &[],
    }
}

// Where the next patch ends; where there is none, where the cursor stands.
fn end_of(cursor: Cursor<'_>) -> usize
    ensures { (p : Part) → next_by cursor.entry ≡ Ok (Some p) → result ≡ p.end }
{
    match cursor.range() {
        Ok(Some(part)) => part.end,
        _ => cursor.at,
    }
}

// Is patch n, before which the cursor stands, and the one after it, the same by the cursor and by number?
fn is_same(cursor: Cursor<'_>, n: u64) -> bool
    requires { n + 1 < 2 ^ 64 }
    ensures some { result ≡ true → 0 < length (bytes_by cursor.entry (next_by cursor.entry)) }
    ensures here { result ≡ true → bytes_by cursor.entry (next_by cursor.entry)
        ≡ bytes_by cursor.entry (patch_by cursor.entry n) }
    ensures after { result ≡ true → (p : Part) → next_by cursor.entry ≡ Ok (Some p)
        → bytes_by cursor.entry (next_of cursor.entry.blob.now p.end (cursor.entry.left - 1))
        ≡ bytes_by cursor.entry (patch_by cursor.entry (n + 1)) }
{
    let here = cursor.patch();
    let after = cursor.after(end_of(cursor)).patch();
    !here.is_empty()
        && here == bytes_by_number(cursor.blob, n)
        && after == bytes_by_number(cursor.blob, n + 1)
}

// Appends for each patch of a blob, if it is a surface, whether it is the same by the cursor and by number.
pub fn compare(blob: &[u8], same: &mut Vec<bool>) -> Result<(), AllocError>
    ensures kept { take (length same.old.items) same.new.items ≡ same.old.items }
    ensures each_patch { IfOk (list_of blob.now) (λ list. IfOk result (λ done.
        length same.new.items ≡ length same.old.items + list.count)) }
    ensures no_patches { IfErr (list_of blob.now) (λ e. same.new.items ≡ same.old.items) }
{
    let Ok(list) = patch_list(blob) else {
        return Ok(());
    };
    let mut cursor = Cursor::new(blob, list.first, list.count);
    for n in 0..list.count {
        same.push(is_same(cursor, n))?;
        cursor = cursor.after(end_of(cursor));
    }
    Ok(())
}
