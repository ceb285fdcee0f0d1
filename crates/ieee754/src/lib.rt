// The square root of an f64, rounded once, from its bits; minimum, maximum, clamp, absolute value; and bit patterns.
#![tactic(auto)]

ghost use Rattle.std.specs.Prelude.{◌≡◌, ℕ, ◌+◌, ◌*◌, ◌^◌, ◌≤◌, ◌<◌, T};
ghost use Rattle.std.specs.Float.{binary64};
ghost use Rattle.std.specs.Float.Ieee.{of_bits, to_bits};
ghost use Rattle.std.specs.Float.Ieee.Positive.{positive};
ghost use Rattle.ieee754.specs.MinMax.{minimum_of, maximum_of, clamp_of, absolute_of};
ghost use Rattle.ieee754.specs.Root.{root_of, IsRoot};
ghost use Rattle.ieee754.specs.Digits.{digits_needed};
ghost use Rattle.ieee754.specs.InnerRoot.{RootDigits, DigitTurns, trial_of};
ghost use Rattle.ieee754.specs.InnerRoot.{PositiveFinite, Normalized, EvenExponent};
ghost use Rattle.ieee754.specs.InnerRoot.{units_of_pattern, root_pattern, rounded_root};

// A significand's binary digits.
const DIGITS: u32 = f64::MANTISSA_DIGITS;

// A significand's first digit, which a normal number's pattern leaves out: its fraction field is below it, the exponent
// field above.
const FIRST_DIGIT: u64 = 1 << 52;

// Half of a significand's digits, for a square in u64.
const HALF: u64 = 1 << 27;

// The exponent fields of 1/2 and of 1.
const EXPONENT_OF_HALF: u64 = 1022 << 52;

const EXPONENT_OF_ONE: u64 = 1023 << 52;

// From it half a number's pattern is taken for a first guess at 1 / sqrt.
const GUESS_FROM: u64 = 0x5fe6_eb50_c7b5_37a9;

// The pattern of infinity: each greater one, but for the sign, is a NaN's.
const INFINITY_PATTERN: u64 = 0x7ff0_0000_0000_0000;

const NAN_PATTERN: u64 = 0x7ff8_0000_0000_0000;

const SIGN: u64 = 1 << 63;

// The pattern of a positive finite number.
#[derive(Clone, Copy)]
struct Positive {
    bits: u64,
    ghost finite: { PositiveFinite bits },
}

// A number's significand of 53 binary digits, or twice that.
#[derive(Clone, Copy)]
struct Significand {
    digits: u64,
    ghost few: { digits < 2 ^ 54 },
}

// A significand, and the exponent of what it is multiplied by.
#[derive(Clone, Copy)]
struct Scaled {
    significand: Significand,
    exponent: u64,
}

// A whole root and its remainder.
#[derive(Clone, Copy)]
struct IntegerRoot {
    digits: u64,
    remainder: u64,
}

// A whole root, and how many of its digits were looked for.
#[derive(Clone, Copy)]
struct CountedRoot {
    root: IntegerRoot,
    turns: u32,
}

// The whole root of m * 2^52, digit by digit, and the remainder. It ends once nothing remains: the remainder is 0 and
// no 1 of the radicand is left, so that all further digits are 0.
fn root_digits(m: Significand) -> CountedRoot
    ensures root { RootDigits m.digits result.root.digits result.root.remainder }
    ensures turns { DigitTurns m.digits result.root.digits result.turns }
{
    let mut q = 0u64;
    let mut rest = 0u64;
    let mut radicand = m.digits;
    for turns in 0..DIGITS {
        if rest == 0 && radicand == 0 {
            let root = IntegerRoot {
                digits: q << (DIGITS - turns),
                remainder: 0,
            };
            return CountedRoot { root, turns };
        }
        rest = rest * 4 + radicand / FIRST_DIGIT;
        radicand = radicand % FIRST_DIGIT * 4;
        let t = q * 4 + 1;
        q = q * 2;
        if t <= rest {
            rest = rest - t;
            q = q + 1;
        }
    }
    let root = IntegerRoot {
        digits: q,
        remainder: rest,
    };
    CountedRoot {
        root,
        turns: DIGITS,
    }
}

// Tries q as the whole root of m * 2^52, exactly: the remainder if it is. The square goes by halves of 27 binary
// digits.
fn try_root(m: Significand, q: u64) -> Option<u64>
    requires { q < 2 ^ 53 }
    ensures { result ≡ trial_of m.digits q }
{
    let a = q / HALF;
    let b = q % HALF;
    let ab = a * b * 2;
    let aa = a * a;
    let bb = b * b;
    let hi = aa + ab / HALF;
    let lo = ab % HALF * HALF + bb;
    let top = m.digits / 4;
    if top < hi || 8 <= top - hi {
        return None;
    }
    let left = (top - hi) * (4 * FIRST_DIGIT) + m.digits % 4 * FIRST_DIGIT;
    if left < lo || 2 * q < left - lo {
        return None;
    }
    Some(left - lo)
}

// A guess at the whole root of m * 2^52, by Newton's method on floats. It is a hint only: `try_root` checks it exactly,
// and where it fails `root_digits` answers. So nothing is promised of it but its range.
#[tactic(auto, using(crate::proofs::RootCases::guesses))]
fn guess_root(m: Significand) -> u64
    ensures { (2 ^ 52 ≤ result) × (result < 2 ^ 53) }
{
    let b = if m.digits < 2 * FIRST_DIGIT {
        m.digits + EXPONENT_OF_HALF
    } else {
        m.digits / 2 + EXPONENT_OF_ONE
    };
    let x = f64::from_bits(b);
    let mut y = f64::from_bits(GUESS_FROM - b / 2);
    let h = x * 0.5;
    y = y * (1.5 - h * y * y);
    y = y * (1.5 - h * y * y);
    y = y * (1.5 - h * y * y);
    let mut z = x * y;
    z = z + 0.5 * y * (x - z * z);
    if z >= 1.0 {
        return z.to_bits() % FIRST_DIGIT + FIRST_DIGIT;
    }
    FIRST_DIGIT
}

// The whole root of m * 2^52 and the remainder: the guess or one less, if a trial says so, else digit by digit.
#[tactic(auto, using(crate::proofs::TrialSquare::root_of_trial))]
fn integer_root(m: Significand) -> IntegerRoot
    ensures { RootDigits m.digits result.digits result.remainder }
{
    let digits = guess_root(m);
    if let Some(remainder) = try_root(m, digits) {
        return IntegerRoot { digits, remainder };
    }
    let digits = digits - 1;
    if let Some(remainder) = try_root(m, digits) {
        return IntegerRoot { digits, remainder };
    }
    root_digits(m).root
}

// The number of pattern b is digits * 2^(exponent - 52) units of 2^-1074. A subnormal number is shifted left.
#[tactic(auto, using(crate::proofs::Normalization::normal_is_normalized))]
fn normalized(b: Positive) -> Scaled
    ensures { Normalized b.bits result.significand.digits result.exponent }
{
    let x = b.bits / FIRST_DIGIT;
    let fraction = b.bits % FIRST_DIGIT;
    if x == 0 {
        let shift = fraction.leading_zeros() - FIRST_DIGIT.leading_zeros();
        let digits = fraction << shift;
        Scaled {
            significand: Significand { digits },
            exponent: 52 - shift as u64,
        }
    } else {
        let digits = fraction + FIRST_DIGIT;
        Scaled {
            significand: Significand { digits },
            exponent: x + 51,
        }
    }
}

// The number of pattern b as digits * 2^52 times an even power of two, whose root has the exponent.
#[tactic(auto, using(crate::proofs::Normalization::either_exponent))]
fn radicand_of(b: Positive) -> Scaled
    ensures { EvenExponent b.bits result.significand.digits result.exponent }
{
    let n = normalized(b);
    let g = n.exponent + 1022;
    let digits = n.significand.digits << (g % 2);
    Scaled {
        significand: Significand { digits },
        exponent: g / 2 - 26,
    }
}

// The pattern of a root's 53 digits and exponent: up exactly if the remainder is above the whole root.
#[tactic(auto, using(crate::proofs::Normalization::rounded_above, crate::proofs::Normalization::rounded_else))]
fn rounded(exponent: u64, root: IntegerRoot) -> u64
    requires { (exponent ≤ 1600) × (root.digits < 2 ^ 53) }
    ensures { result ≡ exponent * 2 ^ 52 + rounded_root root.digits root.remainder }
{
    if root.digits < root.remainder {
        exponent * FIRST_DIGIT + (root.digits + 1)
    } else {
        exponent * FIRST_DIGIT + root.digits
    }
}

// The pattern of the root of the number of pattern b.
fn root_pattern(b: Positive) -> u64
    ensures { (result ≡ root_pattern (units_of_pattern b.bits)) × (result < 2047 * 2 ^ 52) }
{
    let n = radicand_of(b);
    rounded(n.exponent, integer_root(n.significand))
}

// The square root, rounded once to the nearest: for every s, and of a positive finite s in document 01's own words.
#[tactic(auto, using(crate::proofs::RootCases::finds))]
pub fn root(s: f64) -> f64
    ensures of_every { result ≡ root_of s }
    ensures of_positive { T (positive s) → IsRoot s result }
{
    if 0.0 < s && s < f64::INFINITY {
        let bits = s.to_bits();
        f64::from_bits(root_pattern(Positive { bits }))
    } else if s < 0.0 {
        f64::NAN
    } else {
        s
    }
}

// A square root, and the digits needed.
#[derive(Clone, Copy)]
pub struct RootAndDigits {
    pub root: f64,
    pub digits: u32,
}

// The root of the number of pattern b by the digit loop, whose count of turns is that of the digits.
fn root_by_digits(b: Positive) -> RootAndDigits
    ensures root { result.root ≡ of_bits binary64 (root_pattern (units_of_pattern b.bits)) }
    ensures digits { result.digits ≡ digits_needed (of_bits binary64 b.bits) }
{
    let n = radicand_of(b);
    let d = root_digits(n.significand);
    RootAndDigits {
        root: f64::from_bits(rounded(n.exponent, d.root)),
        digits: d.turns,
    }
}

// The square root, as `root` gives it, and the digits needed: of a positive finite s the fewest leading binary digits
// of the root whose square is s, 53 if there are none; of every other s 0.
#[tactic(auto, using(crate::proofs::RootCases::pattern_from_tests))]
pub fn root_and_digits(s: f64) -> RootAndDigits
    ensures root { result.root ≡ root_of s }
    ensures digits { result.digits ≡ digits_needed s }
{
    if 0.0 < s && s < f64::INFINITY {
        let bits = s.to_bits();
        root_by_digits(Positive { bits })
    } else {
        RootAndDigits {
            root: root(s),
            digits: 0,
        }
    }
}

// The smaller of two. A NaN operand is dropped, and of equal operands the first is given. `maximum` mirrors it: one
// function for both would take the order as an argument, and be longer than the two lines.
pub fn minimum(a: f64, b: f64) -> f64
    ensures { result ≡ minimum_of a b }
{
    if a.is_nan() || b < a { b } else { a }
}

// The larger of two, by the same rule.
pub fn maximum(x: f64, y: f64) -> f64
    ensures { result ≡ maximum_of x y }
{
    if x.is_nan() || x < y { y } else { x }
}

// x with its sign bit cleared.
#[tactic(auto, using(crate::proofs::MinMaxCases::absolute_is))]
pub fn absolute(x: f64) -> f64
    ensures { result ≡ absolute_of x }
{
    x.abs()
}

// x within 0..1. A NaN and -0 stay.
pub fn clamp(x: f64) -> f64
    ensures { result ≡ clamp_of x }
{
    x.clamp(0.0, 1.0)
}

// The number of a bit pattern; a NaN for each NaN's pattern, at which from_bits is undefined.
#[tactic(auto, using(crate::proofs::Patterns::nan_read, std::proofs::lemmas::Float::not_nan_f64_bits))]
pub fn from_pattern(bits: u64) -> f64
    ensures { result ≡ of_bits binary64 bits }
{
    if INFINITY_PATTERN < bits % SIGN {
        f64::NAN
    } else {
        f64::from_bits(bits)
    }
}

// The bit pattern of a number; 7FF8000000000000 hexadecimal for a NaN, at which to_bits is undefined.
#[tactic(auto, using(crate::proofs::Patterns::nan_written))]
pub fn to_pattern(x: f64) -> u64
    ensures { result ≡ to_bits binary64 x }
{
    if x.is_nan() { NAN_PATTERN } else { x.to_bits() }
}
