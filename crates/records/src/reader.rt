// Records that stand one after another, with no padding.
ghost use Rattle.std.specs.Prelude.{◌≡◌, ◌↔◌, ◌==◌, ◌-◌, ◌*◌, ◌^◌, ◌≤◌, ◌<◌};
ghost use Rattle.std.specs.Prelude.{ℕ, true, List, [], length, take, drop, IsOk, IsNone, IfOk, IfErr};
ghost use Rattle.std.specs.Iterator.{at_most};
ghost use Rattle.fields.specs.Fields.{u32_at};

use crate::number::Number;
use std::error::Error;
use std::fmt;
use std::marker::{Model, PhantomData};

// Why bytes are no record.
#[derive(Clone, Copy, Debug, PartialEq, Eq)]
pub enum RecordError {
    // They end before the record does.
    CutOff,
    // A number that stands for nothing.
    Unknown(u32),
}

impl fmt::Display for RecordError {
    fn fmt<W: fmt::Write>(&self, f: &mut fmt::Formatter<W>) -> fmt::Result {
        match self {
            RecordError::CutOff => write!(f, "the record is cut off"),
            RecordError::Unknown(number) => write!(f, "nothing has the number {number}"),
        }
    }
}

impl Error for RecordError {}

// Bytes that are read from the front. A clause sees those that are left.
#[derive(Drop)]
pub struct Reader<'a> {
    rest: &'a [u8],
}

impl<'a> Model for Reader<'a> {
    ghost Value = { List ℕ };

    ghost view = { λ r. r.rest.now };
}

impl<'a> Reader<'a> {
    pub fn new(bytes: &'a [u8]) -> Self
        ensures { result ≡ bytes.now }
    {
        Reader { rest: bytes }
    }

    pub fn is_empty(&self) -> bool
        ensures { result ≡ (length self.now == 0) }
    {
        self.rest.is_empty()
    }

    // The next n bytes. Where there are fewer, none is left.
    pub fn take(&mut self, n: usize) -> Result<&'a [u8], RecordError>
        ensures enough { IsOk result ↔ (n ≤ length self.old) }
        ensures bytes { IfOk result (λ s. s.now ≡ take n self.old) }
        ensures cut_off { IfErr result (λ e. e ≡ RecordError.CutOff) }
        ensures rest { self.new ≡ drop n self.old }
        ensures len { length self.new ≡ length self.old - n }
    {
        match self.rest.split_at_checked(n) {
            Some((front, rest)) => {
                self.rest = rest;
                Ok(front)
            }
            None => {
                self.rest = &[];
                Err(RecordError::CutOff)
            }
        }
    }

    // The next number. Where there are fewer bytes than it has, none is left.
    pub fn number<N: Number>(&mut self) -> Result<N, RecordError>
        ensures enough { IsOk result ↔ (N.SIZE ≤ length self.old) }
        ensures value { IfOk result (λ n. n ≡ N.value (take N.SIZE self.old)) }
        ensures cut_off { IfErr result (λ e. e ≡ RecordError.CutOff) }
        ensures rest { self.new ≡ drop N.SIZE self.old }
        ensures len { length self.new ≡ length self.old - N.SIZE }
    {
        self.take(N::SIZE).map(|bytes| N::from_bytes(bytes))
    }

    // The bytes of the next n numbers. Where there are fewer, none is left.
    pub fn take_numbers<N: Number>(&mut self, n: usize) -> Result<&'a [u8], RecordError>
        ensures enough { IsOk result ↔ (N.SIZE * n ≤ length self.old) }
        ensures bytes { IfOk result (λ s. s.now ≡ take (N.SIZE * n) self.old) }
        ensures cut_off { IfErr result (λ e. e ≡ RecordError.CutOff) }
        ensures rest { self.new ≡ drop (N.SIZE * n) self.old }
        ensures len { length self.new ≡ length self.old - N.SIZE * n }
    {
        self.take(N::SIZE.saturating_mul(n))
    }

    // The next number, a u32, as a length.
    pub fn length(&mut self) -> Result<usize, RecordError>
        ensures enough { IsOk result ↔ (4 ≤ length self.old) }
        ensures value { IfOk result (λ n. n ≡ u32_at true (take 4 self.old) 0) }
        ensures fits { IfOk result (λ n. n < 2 ^ 32) }
        ensures cut_off { IfErr result (λ e. e ≡ RecordError.CutOff) }
        ensures rest { self.new ≡ drop 4 self.old }
        ensures len { length self.new ≡ length self.old - 4 }
    {
        self.number().map(|n: u32| n as usize)
    }
}

// What is read from the bytes of a file, or of another record.
pub trait Record<'a>: Sized {
    // At least one byte is taken, where there is one.
    fn read(from: &mut Reader<'a>) -> Result<Self, RecordError>
        ensures { length from.new ≤ length from.old - 1 };
}

// The records of a file's bytes, to their end: one that is cut off is the last. A clause sees the bytes that are left.
#[derive(Drop)]
pub struct Records<'a, R> {
    rest: Reader<'a>,
    of: PhantomData<R>,
}

impl<'a, R> Model for Records<'a, R> {
    ghost Value = { List ℕ };

    ghost view = { λ r. r.rest };
}

impl<'a, R: Record<'a>> Records<'a, R> {
    pub fn new(bytes: &'a [u8]) -> Self
        ensures { result ≡ bytes.now }
    {
        Records {
            rest: Reader::new(bytes),
            of: PhantomData,
        }
    }
}

impl<'a, R: Record<'a>> Iterator for Records<'a, R> {
    type Item = Result<R, RecordError>;

    ghost next_gives = { λ s r t. (IsNone r ↔ (s ≡ [])) × (length t ≤ length s - 1) };

    ghost remaining = { λ s. at_most (length s) };

    fn next(&mut self) -> Option<Result<R, RecordError>> {
        if self.rest.is_empty() {
            return None;
        }
        Some(R::read(&mut self.rest))
    }
}
