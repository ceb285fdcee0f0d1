// The patches of a surface: where each stands in its blob, and its bytes as a part of the blob.
#![tactic(auto)]

ghost use Rattle.std.specs.Prelude.{◌≡◌, [], ◌∷◌, ℕ, ◌+◌, ◌-◌, length};
ghost use Rattle.coords.specs.Walk.{header_at, times};
ghost use Rattle.surface.specs.Patches.{patch_at, patches_from, surface_kind, part, refusal_of};
ghost use Rattle.surface.specs.Patches.{patch_in, patch_of, bytes_of, listed, list_in, list_of, next_of};
ghost use Rattle.surface.specs.Cursors.{next_by, patch_by, bytes_by, StandsBefore};
ghost use Rattle.surface.specs.Inner.{scan_end, count_from};

use fields::Kind;
use refusals::{Reason, Refusal, Side};

// The part of a blob from a start up to an end.
#[derive(Clone, Copy, PartialEq, Eq, Debug)]
pub struct Part {
    pub start: usize,
    pub end: usize,
}

// Where the first patch starts and how many there are.
#[derive(Clone, Copy, PartialEq, Eq, Debug)]
pub struct PatchList {
    pub first: usize,
    pub count: u64,
}

// Why no patch is told.
#[derive(Clone, Copy, PartialEq, Eq, Debug)]
pub enum PatchError {
    NoSurface,
    Refused(Refusal),
}

// There is one blob: refusals are side 1's.
impl From<Reason> for PatchError {
    ghost from_gives = { λ reason error. error ≡ refusal_of reason };

    fn from(reason: Reason) -> PatchError {
        PatchError::Refused(reason.of(Side::First))
    }
}

// A surface by the kind of its geometry, and where the geometry starts.
#[derive(Clone, Copy, PartialEq, Eq, Debug)]
enum Surface {
    Collection(usize),
    Triangle(usize),
}

// The surface of a blob, if it is one.
#[tactic(auto, using(crate::proofs::SurfaceKinds::is_none), unfolding(crate::specs::Patches::surface_kind, crate::specs::Patches::kind_by_header, crate::specs::Patches::kind_by_number))]
fn surface_kind(s: &[u8]) -> Option<Surface>
    ensures { result ≡ surface_kind s.now }
{
    let h = gpb::read_header(s).ok()?;
    match Kind::try_from(fields::type_kind(h.code)) {
        Ok(Kind::PolyhedralSurface) => Some(Surface::Collection(h.at)),
        Ok(Kind::Tin) => Some(Surface::Collection(h.at)),
        Ok(Kind::Triangle) => Some(Surface::Triangle(h.at)),
        _ => None,
    }
}

// The end of the patch at a position.
#[tactic(auto, using(crate::proofs::Scans::counts), unfolding(crate::specs::Patches::patch_at, crate::specs::Patches::patch_from, crate::specs::Inner::scan_end))]
fn scan_patch(s: &[u8], at: usize) -> Result<usize, Reason>
    ensures { result ≡ scan_end (patch_at s.now at) }
{
    let h = coords::read_header(s, at)?;
    let counts = coords::count_rings(s, h, h.body)?;
    Ok(counts.end)
}

// The end of so many patches from a position on.
#[tactic(auto, using(crate::proofs::Scans::scans))]
fn scan_patches(s: &[u8], count: u64, at: usize) -> Result<usize, Reason>
    ensures { result ≡ scan_end (times ◌∷◌ [] (patch_at s.now) count at) }
{
    let mut next = at;
    for _ in 0..count {
        next = scan_patch(s, next)?;
    }
    Ok(next)
}

// Patch n of so many from a position on; every one is scanned, once.
#[tactic(auto, using(crate::proofs::InRow::ranges))]
fn range_in(s: &[u8], count: u64, n: u64, at: usize) -> Result<Option<Part>, PatchError>
    ensures { result ≡ patch_in n (times ◌∷◌ [] (patch_at s.now) count at) }
{
    if count <= n {
        scan_patches(s, count, at)?;
        return Ok(None);
    }
    let start = scan_patches(s, n, at)?;
    let end = scan_patch(s, start)?;
    scan_patches(s, count - n - 1, end)?;
    Ok(Some(Part { start, end }))
}

// The count of a collection's patches, and where the first starts.
#[tactic(auto, unfolding(crate::specs::Inner::count_from))]
fn count_patches(s: &[u8], at: usize) -> Result<PatchList, Reason>
    ensures { result ≡ count_from s.now (header_at s.now at) }
{
    let h = coords::read_header(s, at)?;
    let body = h.body;
    if coords::is_short(s.len(), body, 4) {
        return Err(Reason::BytesMissing);
    }
    let count = fields::u32_at(s, body, h.little);
    Ok(PatchList {
        first: body + 4,
        count: u64::from(count),
    })
}

// Patch n of the collection at a position.
#[tactic(auto, using(crate::proofs::InRow::collections), unfolding(crate::specs::Patches::patch_in))]
fn range_of_collection(s: &[u8], at: usize, n: u64) -> Result<Option<Part>, PatchError>
    ensures { result ≡ patch_in n (patches_from s.now (header_at s.now at)) }
{
    let patches = count_patches(s, at)?;
    range_in(s, patches.count, n, patches.first)
}

// Where patch n of a blob stands, 0-based.
#[tactic(auto, using(crate::proofs::InRow::only), unfolding(crate::specs::Patches::patch_of, crate::specs::Patches::surface_of, crate::specs::Patches::surface_by_kind, crate::specs::Patches::patch_of_surface))]
pub fn patch_range(s: &[u8], n: u64) -> Result<Option<Part>, PatchError>
    ensures { result ≡ patch_of s.now n }
{
    match surface_kind(s) {
        None => Err(PatchError::NoSurface),
        Some(Surface::Collection(at)) => range_of_collection(s, at, n),
        Some(Surface::Triangle(at)) => {
            if n == 0 {
                Ok(Some(to_end(s, at)))
            } else {
                Ok(None)
            }
        }
    }
}

// The part from a start to the blob's end.
fn to_end(s: &[u8], start: usize) -> Part
    ensures { (result.start ≡ start) × (result.end ≡ length s.now) }
{
    let end = s.len();
    Part { start, end }
}

// The patches of the collection at a position; every one is scanned.
#[tactic(auto, using(crate::proofs::InRow::lists), unfolding(crate::specs::Patches::list_in))]
fn list_of_collection(s: &[u8], at: usize) -> Result<PatchList, PatchError>
    ensures { result ≡ list_in (patches_from s.now (header_at s.now at)) }
{
    let patches = count_patches(s, at)?;
    scan_patches(s, patches.count, patches.first)?;
    Ok(patches)
}

// The patches of a blob.
#[tactic(auto, unfolding(crate::specs::Patches::list_of, crate::specs::Patches::surface_of, crate::specs::Patches::surface_by_kind, crate::specs::Patches::list_of_surface, crate::specs::Patches::list_in, crate::specs::Patches::first_start))]
pub fn patch_list(s: &[u8]) -> Result<PatchList, PatchError>
    ensures { result ≡ list_of s.now }
{
    match surface_kind(s) {
        None => Err(PatchError::NoSurface),
        Some(Surface::Collection(at)) => list_of_collection(s, at),
        Some(Surface::Triangle(at)) => Ok(PatchList {
            first: at,
            count: 1,
        }),
    }
}

// Where the next patch from a position on stands, with so many left.
#[tactic(auto, using(crate::proofs::InRow::steps), unfolding(crate::specs::Patches::next_of, crate::specs::Patches::next_by_kind))]
fn next_range(s: &[u8], at: usize, left: u64) -> Result<Option<Part>, PatchError>
    ensures { result ≡ next_of s.now at left }
{
    if left == 0 {
        return Ok(None);
    }
    match surface_kind(s) {
        None => Err(PatchError::NoSurface),
        Some(Surface::Triangle(start)) => Ok(Some(to_end(s, start))),
        Some(Surface::Collection(start)) => {
            let end = scan_patch(s, at)?;
            Ok(Some(Part { start: at, end }))
        }
    }
}

// The bytes of that patch, as a part of the blob; empty where there is none.
#[tactic(auto, using(crate::proofs::Bounds::next_in_blob), unfolding(crate::specs::Patches::bytes_of))]
fn next_bytes(s: &[u8], at: usize, left: u64) -> &[u8]
    ensures { result.now ≡ bytes_of s.now (next_of s.now at left) }
{
    match next_range(s, at, left) {
        Ok(Some(Part { start, end })) => &s[start..end],
        Ok(None) => &s[..0],
        Err(_) => &s[..0],
    }
}

// A surface's blob, where its next patch starts, and how many are left from there on.
#[derive(Clone, Copy)]
pub struct Cursor<'a> {
    pub blob: &'a [u8],
    pub at: usize,
    pub left: u64,
}

// From the start and the count of `patch_list` on, `patch` hands back patch 0, and after the end that `next` tells
// patch 1, and so on: each step scans one patch.
impl<'a> Cursor<'a> {
    // The cursor at a position; at a list's start, before patch 0.
    pub fn new(blob: &'a [u8], at: usize, left: u64) -> Cursor<'a>
        ensures made { (result.blob ≡ blob.entry) × (result.at ≡ at) × (result.left ≡ left) }
        ensures first { list_of blob.now ≡ listed at left → StandsBefore result 0 }
    {
        Cursor { blob, at, left }
    }

    // Where the next patch stands: patch n, before which the cursor stands.
    pub fn range(self) -> Result<Option<Part>, PatchError>
        ensures next { result ≡ next_by self.entry }
        ensures patch_n { (n : ℕ) → StandsBefore self.entry n → result ≡ patch_by self.entry n }
    {
        next_range(self.blob, self.at, self.left)
    }

    // The bytes of the next patch: of patch n, before which the cursor stands. Empty where `range` tells no part.
    pub fn patch(self) -> &'a [u8]
        ensures next { result.now ≡ bytes_by self.entry (next_by self.entry) }
        ensures patch_n { (n : ℕ) → StandsBefore self.entry n
            → result.now ≡ bytes_by self.entry (patch_by self.entry n) }
    {
        next_bytes(self.blob, self.at, self.left)
    }

    // The cursor after a patch that ends there: after patch n, before patch n + 1.
    pub fn after(self, end: usize) -> Cursor<'a>
        ensures made { (result.blob ≡ self.entry.blob) × (result.at ≡ end)
            × (result.left ≡ self.entry.left - 1) }
        ensures one_on { (n start : ℕ) → StandsBefore self.entry n
            → patch_by self.entry n ≡ part start end → StandsBefore result (n + 1) }
    {
        Cursor {
            blob: self.blob,
            at: end,
            left: self.left.saturating_sub(1),
        }
    }
}
