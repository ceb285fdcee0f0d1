// Both blobs of an operation read into lent memory, in the order of the refusals: a tolerance below 0 first, then a
// rule number that is none, then the operands' refusals, then an output that is too short.
#![tactic(auto)]

ghost use Rattle.std.specs.Prelude.{◌≡◌, ◌++◌, not, ◌||◌, eqb};
ghost use Rattle.refusals.specs.Checks.{first_of, refused_or};
ghost use Rattle.operands.specs.Operands.{lengths, operand_checks, filled};
ghost use Rattle.operands.specs.Inner.{operands_of, Ready};
ghost use Rattle.outcomes.specs.Lent.{lent, left};
ghost use Rattle.outcomes.specs.Operations.{rule_checks};
ghost use Rattle.reading.specs.Inner.{asked_checks, below_zero, too_short};
ghost use Rattle.reading.specs.Inner.{first_asked, first_by_rule, both_read, ReadBoth};

use blob::Lent;
use operands::Operands;
use refusals::{Reason, Refusal, Side};
use workspace::NUMBERS_PER_RUN;

// What an operation asks for, and so what it refuses besides the operands: a tolerance below 0, or an output that is
// too short.
#[derive(Clone, Copy)]
pub enum Asked {
    Distance,
    Within(f64),
    Bytes { lent: usize, needed: usize },
}

impl Asked {
    // 1, which comes first: a tolerance below 0.
    fn below_zero(self) -> bool
        ensures { result ≡ below_zero self }
    {
        match self {
            Asked::Within(d) => d < 0.0,
            Asked::Distance | Asked::Bytes { .. } => false,
        }
    }

    // 16, which comes last: an output of fewer bytes than are needed.
    fn too_short(self) -> bool
        ensures { result ≡ too_short self }
    {
        match self {
            Asked::Bytes { lent, needed } => lent < needed,
            Asked::Distance | Asked::Within(_) => false,
        }
    }
}

// The same by a rule, of an operation that has one: a number other than 1 or 2 is refused too. The rule stays C's
// number, as the definitions have it: it is looked at here, and once more where the sweep is chosen.
#[derive(Clone, Copy)]
pub struct Question {
    pub asked: Asked,
    pub rule: u32,
}

impl Question {
    // 17, which comes after 1: a rule number other than 1 or 2.
    fn names_no_rule(self) -> bool
        ensures { result ≡ not (eqb self.rule 1 || eqb self.rule 2) }
    {
        !matches!(self.rule, 1 | 2)
    }
}

// How many numbers of each table were written, and the SRID of side 1.
#[derive(Clone, Copy)]
pub struct BothRead {
    pub numbers1: usize,
    pub numbers2: usize,
    pub srid: u32,
}

// Every check of an operation, by the lengths lent: 1, the operands', 16.
#[tactic(auto, using(crate::proofs::Steps::asked_first))]
fn check(a: &[u8], b: &[u8], asked: Asked, lent1: Lent, lent2: Lent) -> Result<Operands, Refusal>
    ensures { result ≡ refused_or (first_of (asked_checks asked (operand_checks a.now b.now lent1 lent2)))
        (operands_of a.now b.now) }
{
    if asked.below_zero() {
        return Err(Reason::ToleranceBelowZero.of(Side::Neither));
    }
    let o = operands::check(a, b, lent1, lent2)?;
    if asked.too_short() {
        return Err(Reason::OutputTooShort.of(Side::Neither));
    }
    Ok(o)
}

// The same for an operation that has a rule: 17 comes after 1, and before anything of the blobs.
#[tactic(auto, using(crate::proofs::Steps::asked_first, outcomes::proofs::Rules::rule_before))]
fn check_by_rule(
    a: &[u8],
    b: &[u8],
    question: Question,
    lent1: Lent,
    lent2: Lent,
) -> Result<Operands, Refusal>
    ensures { result ≡ refused_or (first_of (asked_checks question.asked
        (rule_checks question.rule ++ operand_checks a.now b.now lent1 lent2))) (operands_of a.now b.now) }
{
    if question.asked.below_zero() {
        return Err(Reason::ToleranceBelowZero.of(Side::Neither)); // before 17
    }
    if question.names_no_rule() {
        return Err(Reason::UnknownRule.of(Side::Neither));
    }
    check(a, b, question.asked, lent1, lent2)
}

// Both blobs into lent memory, once nothing is refused.
fn store(
    a: &[u8],
    b: &[u8],
    o: Operands,
    floats1: &mut [f64],
    table1: &mut [u32],
    floats2: &mut [f64],
    table2: &mut [u32],
) -> BothRead
    requires o_value { o ≡ operands_of a.now b.now }
    requires ready { Ready a.now b.now (lengths floats1.old table1.old) (lengths floats2.old table2.old) }
    ensures answer { result ≡ both_read a.now b.now }
    ensures memory { left floats1 table1 floats2 table2 ≡ filled a.now b.now (lent floats1 table1 floats2 table2) }
{
    operands::fill(a, b, o, floats1, table1, floats2, table2);
    BothRead {
        numbers1: NUMBERS_PER_RUN * o.first.runs,
        numbers2: NUMBERS_PER_RUN * o.second.runs,
        srid: o.srid,
    }
}

// The lengths of memory lent for a side.
fn lengths(floats: &[f64], table: &[u32]) -> Lent
    ensures { result ≡ lengths floats.now table.now }
{
    Lent {
        floats: floats.len(),
        numbers: table.len(),
    }
}

// Both blobs checked, and read into lent memory.
pub fn read_both(
    a: &[u8],
    b: &[u8],
    asked: Asked,
    floats1: &mut [f64],
    table1: &mut [u32],
    floats2: &mut [f64],
    table2: &mut [u32],
) -> Result<BothRead, Refusal>
    ensures { ReadBoth (first_asked asked a.now b.now (lent floats1 table1 floats2 table2))
        a.now b.now
        (lent floats1 table1 floats2 table2) (left floats1 table1 floats2 table2) result }
{
    let lent1 = lengths(floats1, table1);
    let lent2 = lengths(floats2, table2);
    let o = check(a, b, asked, lent1, lent2)?;
    Ok(store(a, b, o, floats1, table1, floats2, table2))
}

// The same by a rule. It differs in its check alone, and shares the steps: with an `Option` of a rule for both, an
// operation that has none would say so, and promise to refuse what it is never asked.
pub fn read_by_rule(
    a: &[u8],
    b: &[u8],
    question: Question,
    floats1: &mut [f64],
    table1: &mut [u32],
    floats2: &mut [f64],
    table2: &mut [u32],
) -> Result<BothRead, Refusal>
    ensures { ReadBoth (first_by_rule question a.now b.now
        (lent floats1 table1 floats2 table2)) a.now b.now
        (lent floats1 table1 floats2 table2) (left floats1 table1 floats2 table2) result }
{
    let lent1 = lengths(floats1, table1);
    let lent2 = lengths(floats2, table2);
    let o = check_by_rule(a, b, question, lent1, lent2)?;
    Ok(store(a, b, o, floats1, table1, floats2, table2))
}
