// The memory that a call is lent: what it holds before, and whether it holds what is expected afterwards.
ghost use Rattle.std.specs.Prelude.{◌≡◌, ◌==◌, Bool, not, IfOk, length, drop, count_by, replicate};
ghost use Rattle.records.specs.Lent.{is_next, holds_by_pattern, same_float};
ghost use Rattle.records.specs.declared.lent.TheConstants.{FLOAT_MARK, NUMBER_MARK};

use crate::number::ByPattern;
use crate::reader::Reader;
use ieee754::to_pattern;
use std::alloc::{AllocError, Global};

// What memory is lent of. It holds marks before a call, so that what a call writes shows.
pub trait Lent: Copy {
    ghost MARK: { Self };

    ghost is: { Self → Self → Bool };

    // No record expects this number.
    const MARK: Self;

    fn is(self, other: Self) -> bool
        ensures { result ≡ is self other };

    ghost copies: { (x y : Self) → Self.is_clone x y → y ≡ x };
}

// A block for each type, written out: the repository has no macro of its own.
impl Lent for u8 {
    ghost MARK = { 165 };

    ghost is = { λ x y. x == y };

    ghost copies = { λ x y e. e };

    const MARK: u8 = 165;

    fn is(self, other: u8) -> bool {
        self == other
    }
}

impl Lent for u16 {
    ghost MARK = { 42405 };

    ghost is = { λ x y. x == y };

    ghost copies = { λ x y e. e };

    const MARK: u16 = 42405;

    fn is(self, other: u16) -> bool {
        self == other
    }
}

const NUMBER_MARK: u32 = 4123456789;

impl Lent for u32 {
    ghost MARK = { NUMBER_MARK };

    ghost is = { λ x y. x == y };

    ghost copies = { λ x y e. e };

    const MARK: u32 = NUMBER_MARK;

    fn is(self, other: u32) -> bool {
        self == other
    }
}

const FLOAT_MARK: f64 = 123456789.125;

// Floats are the same by their patterns, so that a NaN is one, and -0 is not 0.
impl Lent for f64 {
    ghost MARK = { FLOAT_MARK };

    ghost is = { same_float };

    ghost copies = { λ x y e. e };

    const MARK: f64 = FLOAT_MARK;

    fn is(self, other: f64) -> bool {
        to_pattern(self) == to_pattern(other)
    }
}

// As many marks, for a call to write over.
pub fn lend<T: Lent>(alloc: Global, n: usize) -> Result<Vec<T>, AllocError>
    ensures { IfOk result (λ v. v.items ≡ replicate n T.MARK) }
{
    vec![in alloc; T::MARK; n]
}

// How many places have lost their marks, from a place on.
pub fn changed<T: Lent>(memory: &[T], from: usize) -> usize
    ensures { result ≡ count_by (λ x. not (T.is x T.MARK)) (drop from memory.now) }
{
    memory.iter().skip(from).filter(|x| !x.is(T::MARK)).count()
}

// Is it the next number, or a mark where none is left?
fn is_next<T: Lent + ByPattern>(x: T, held: &mut Reader) -> bool
    ensures value { result ≡ is_next T.is T.is_at T.Lent.MARK T.SIZE x held.old }
    ensures rest { held.new ≡ drop T.SIZE held.old }
{
    match held.take(T::SIZE) {
        Ok(bytes) => x.is_at(bytes),
        Err(_) => x.is(T::MARK),
    }
}

// Does memory begin with the numbers of these bytes, each by its pattern, and keep its marks after them?
pub fn holds_by_pattern<T: Lent + ByPattern>(memory: &[T], held: &[u8]) -> bool
    ensures { result ≡ holds_by_pattern T.is T.is_at T.Lent.MARK T.SIZE memory.now held.now }
{
    let mut left = Reader::new(held);
    for x in memory {
        if !is_next(*x, &mut left) {
            return false;
        }
    }
    left.is_empty()
}
