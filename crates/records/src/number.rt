// The numbers of a record, which are little-endian.
ghost use Rattle.std.specs.Prelude.{◌≡◌, ℕ, ◌≤◌, ◌==◌, Bool, List, true, length, slice_index};
ghost use Rattle.fields.specs.Fields.{u32_at, u64_at, f64_at};
ghost use Rattle.records.specs.Lent.{pattern_at};

use ieee754::to_pattern;

// A number that so many bytes hold.
pub trait Number: Copy {
    ghost SIZE: { ℕ };

    ghost value: { List ℕ → Self };

    const SIZE: usize;

    // The number that bytes begin with.
    fn from_bytes(bytes: &[u8]) -> Self
        requires { SIZE ≤ length bytes.now }
        ensures { result ≡ value bytes.now };
}

// A number that is looked for in bytes by their pattern: of a NaN one alone stands in a record.
pub trait ByPattern: Number {
    ghost is_at: { Self → List ℕ → Bool };

    // Whether bytes begin with it.
    fn is_at(self, bytes: &[u8]) -> bool
        requires { Self.SIZE ≤ length bytes.now }
        ensures { result ≡ is_at self bytes.now };
}

// A block for each type, written out: the repository has no macro of its own.
impl Number for u8 {
    ghost SIZE = { 1 };

    ghost value = { λ s. slice_index s 0 };

    const SIZE: usize = 1;

    fn from_bytes(bytes: &[u8]) -> u8 {
        bytes[0]
    }
}

impl ByPattern for u8 {
    ghost is_at = { λ x s. x == slice_index s 0 };

    fn is_at(self, bytes: &[u8]) -> bool {
        self == u8::from_bytes(bytes)
    }
}

impl Number for u32 {
    ghost SIZE = { 4 };

    ghost value = { λ s. u32_at true s 0 };

    const SIZE: usize = 4;

    fn from_bytes(bytes: &[u8]) -> u32 {
        fields::u32_at(bytes, 0, true)
    }
}

impl ByPattern for u32 {
    ghost is_at = { λ x s. x == u32_at true s 0 };

    fn is_at(self, bytes: &[u8]) -> bool {
        self == u32::from_bytes(bytes)
    }
}

impl Number for u64 {
    ghost SIZE = { 8 };

    ghost value = { λ s. u64_at true s 0 };

    const SIZE: usize = 8;

    fn from_bytes(bytes: &[u8]) -> u64 {
        fields::u64_at(bytes, 0, true)
    }
}

impl ByPattern for u64 {
    ghost is_at = { λ x s. x == u64_at true s 0 };

    fn is_at(self, bytes: &[u8]) -> bool {
        self == u64::from_bytes(bytes)
    }
}

// The f64 of a pattern.
impl Number for f64 {
    ghost SIZE = { 8 };

    ghost value = { λ s. f64_at true s 0 };

    const SIZE: usize = 8;

    fn from_bytes(bytes: &[u8]) -> f64 {
        fields::f64_at(bytes, 0, true)
    }
}

impl ByPattern for f64 {
    ghost is_at = { pattern_at };

    fn is_at(self, bytes: &[u8]) -> bool {
        to_pattern(self) == u64::from_bytes(bytes)
    }
}
