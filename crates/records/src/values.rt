// Lent memory beside the bytes of a record by value: a NaN is the NaN, whatever its pattern in the record. The test
// programs ask by pattern (lent).
ghost use Rattle.std.specs.Prelude.{◌≡◌, ◌&&◌, drop};
ghost use Rattle.records.specs.Lent.{first_or_mark, holds_of, floats_hold, numbers_hold};

use crate::lent::Lent;
use crate::number::Number;
use crate::reader::Reader;
use crate::workspace::Held;

// The next number, or a mark where none is left.
fn next_or_mark<T: Lent + Number>(held: &mut Reader) -> T
    ensures value { result ≡ first_or_mark T.Lent.MARK T.SIZE T.value held.old }
    ensures rest { held.new ≡ drop T.SIZE held.old }
{
    held.number().unwrap_or(T::MARK)
}

// Does memory begin with the numbers of these bytes, and keep its marks after them?
pub fn holds<T: Lent + Number>(memory: &[T], held: &[u8]) -> bool
    ensures { result ≡ holds_of T.is T.Lent.MARK T.SIZE T.value memory.now held.now }
{
    let mut left = Reader::new(held);
    for x in memory {
        if !x.is(next_or_mark(&mut left)) {
            return false;
        }
    }
    left.is_empty()
}

impl Held<'_> {
    // Does a workspace begin with this, and keep its marks after it?
    pub fn is_in(&self, floats: &[f64], table: &[u32]) -> bool
        ensures { result ≡ (floats_hold floats.now self.now.floats.now
            && numbers_hold table.now self.now.table.now) }
    {
        holds(floats, self.floats) && holds(table, self.table)
    }
}

#[cfg(test)]
mod tests {
    use super::*;
    use crate::lent::holds_by_pattern;

    // A NaN of another pattern than the one that stands in a record.
    const OTHER_NAN: [u8; 8] = [1, 0, 0, 0, 0, 0, 248, 127];

    #[test]
    fn bytes_and_marks(rt: HostRuntime) {
        assert!(rt;
            holds::<u8>(&[7, 8, 165, 165], &[7, 8]),
            "marks after the bytes"
        );
        assert!(rt; holds::<u8>(&[], &[]), "nothing");
        assert!(rt; !holds::<u8>(&[7, 8, 165], &[7, 9]), "another byte");
        assert!(rt; !holds::<u8>(&[7, 8, 0], &[7, 8]), "a mark lost");
        assert!(rt;
            !holds::<u8>(&[7, 8], &[7, 8, 165]),
            "more bytes than memory"
        );
    }

    #[test]
    fn numbers_little_endian(rt: HostRuntime) {
        assert!(rt; holds::<u32>(&[513, 4123456789], &[1, 2, 0, 0]), "513");
        assert!(rt;
            !holds::<u32>(&[513, 4123456789], &[0, 0, 2, 1]),
            "big-endian"
        );
    }

    #[test]
    fn nan_of_any_pattern(rt: HostRuntime) {
        let floats: [f64; 2] = [0.0 / 0.0, 123456789.125];
        assert!(rt; holds(&floats, &OTHER_NAN), "by value");
        assert!(rt; !holds_by_pattern(&floats, &OTHER_NAN), "by pattern");
        assert!(rt; !holds(&floats, &[0, 0, 0, 0, 0, 0, 240, 127]), "infinity");
    }

    #[test]
    fn workspace(rt: HostRuntime) {
        let held = Held {
            floats: &OTHER_NAN,
            table: &[3, 0, 0, 0],
        };
        assert!(rt; held.is_in(&[0.0 / 0.0], &[3, 4123456789]), "both");
        assert!(rt; !held.is_in(&[1.0], &[3]), "another float");
        assert!(rt; !held.is_in(&[0.0 / 0.0], &[4]), "another number");
        assert!(rt; !held.is_in_by_pattern(&[0.0 / 0.0], &[3]), "by pattern");
    }

    // It has what every number has, and no more.
    #[derive(Clone, Copy)]
    struct Level {
        of: u8,
    }

    impl Number for Level {
        ghost SIZE = { 1 };

        ghost value = { λ s. record { of = ⟦<u8 as Number>⟧.value s } };

        const SIZE: usize = 1;

        fn from_bytes(bytes: &[u8]) -> Level {
            Level {
                of: u8::from_bytes(bytes),
            }
        }
    }

    #[test]
    fn number_of_another_type(rt: HostRuntime) {
        let mut bytes = Reader::new(&[9, 8, 7, 6]);
        let level: Option<Level> = bytes.number().ok();
        assert_eq!(rt; level.map(|l| l.of), Some(9));
        assert_eq!(rt; bytes.take_numbers::<Level>(2).map(|s| s.len()), Ok(2));
        assert_eq!(rt; bytes.number::<u8>(), Ok(6));
        assert!(rt; bytes.take_numbers::<Level>(1).is_err());
    }
}
