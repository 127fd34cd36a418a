ghost use Rattle.std.specs.Prelude.{◌≡◌};
ghost use Rattle.lq_filter.specs.Reading as Spec;
ghost use Rattle.lq_filter.specs.Tests.{asks_for_pattern};

use crate::check::{Check, Comparison, Property};
use crate::operator::Operator;
use crate::pattern::Pattern;
use lq_records::Text;
use lq_schema::{Col, ColKind, kind};
use lq_text::{read_i64, trim_end};
use std::alloc::{AllocError, Global};
use std::cmp::Ordering;

/// A test of a row: what one of its cells has to be.
#[derive(Drop)]
pub struct Test {
    /// The column whose cell is tested.
    pub column: Col,
    /// What is asked of the cell's value.
    pub check: Check,
}

/// Why a test isn't read.
#[derive(Drop)]
pub enum TestErr {
    /// There is no such operator.
    Operator,
    /// The operator isn't one of the column's kind, or not with this value.
    NotAllowed,
    /// The value isn't a number, and the column has numbers.
    NotNumber,
    /// The value isn't a pattern.
    BadPattern,
    /// Memory ran out.
    Memory,
}

impl From<AllocError> for TestErr {
    ghost use Rattle.std.specs.Prelude.{◌≡◌};
    ghost use Rattle.lq_filter.specs.declared.read.TestErr.TheVariants.{Memory};

    ghost from_gives = { λ _ error. error ≡ Memory };

    fn from(_: AllocError) -> TestErr {
        TestErr::Memory
    }
}

impl Test {
    /// The test of a column, by the word of an operator and the value after it. A number's value
    /// loses the blanks at its end; any other is taken as it stands. The errors, the first that
    /// holds: `Operator` where the word is no operator; `NotAllowed` where the operator isn't one
    /// for the kind of the column, or where `=` or `!=` has a value on a list; `NotNumber` where
    /// the column has numbers and the value is no signed number of 64 bits; `BadPattern` where the
    /// operator takes a pattern and the value is none. Besides, memory may run out.
    pub fn read(alloc: Global, c: Col, op: &str, value: &str) -> Result<Test, TestErr>
        ensures { Spec.Gives result (Spec.test_read c op.now value.now) }
    {
        let Some(operator) = Operator::of(op) else {
            return Err(TestErr::Operator);
        };
        match kind_check(alloc, kind(c), operator, value) {
            Ok(check) => Ok(Test { column: c, check }),
            Err(error) => Err(error),
        }
    }

    /// Whether the test looks for a pattern.
    pub fn has_pattern(&self) -> bool
        ensures { result ≡ asks_for_pattern self.now.check.property }
    {
        matches!(&self.check.property, Property::Matches(_))
    }
}

/// What an operator asks of the cells of a column of a kind.
fn kind_check(
    alloc: Global,
    kind: ColKind,
    operator: Operator,
    value: &str,
) -> Result<Check, TestErr>
    ensures { Spec.Gives result (Spec.kind_check kind operator value.now) }
{
    match kind {
        ColKind::Int => number_check(operator, value),
        ColKind::Str => text_check(alloc, operator, value),
        ColKind::List | ColKind::Nums | ColKind::Pairs => list_check(alloc, operator, value),
    }
}

fn number_check(operator: Operator, value: &str) -> Result<Check, TestErr>
    ensures { Spec.Gives result (Spec.number_check operator value.now) }
{
    match operator {
        Operator::Equal => number_comparison(false, Ordering::Equal, value),
        Operator::NotEqual => number_comparison(true, Ordering::Equal, value),
        Operator::Less => number_comparison(false, Ordering::Less, value),
        Operator::GreaterOrEqual => number_comparison(true, Ordering::Less, value),
        Operator::Greater => number_comparison(false, Ordering::Greater, value),
        Operator::LessOrEqual => number_comparison(true, Ordering::Greater, value),
        _ => Err(TestErr::NotAllowed),
    }
}

fn text_check(alloc: Global, operator: Operator, value: &str) -> Result<Check, TestErr>
    ensures { Spec.Gives result (Spec.text_check operator value.now) }
{
    match operator {
        Operator::Equal => text_comparison(alloc, false, Ordering::Equal, value),
        Operator::NotEqual => text_comparison(alloc, true, Ordering::Equal, value),
        Operator::Less => text_comparison(alloc, false, Ordering::Less, value),
        Operator::GreaterOrEqual => text_comparison(alloc, true, Ordering::Less, value),
        Operator::Greater => text_comparison(alloc, false, Ordering::Greater, value),
        Operator::LessOrEqual => text_comparison(alloc, true, Ordering::Greater, value),
        Operator::EqualNoCase => nocase_comparison(alloc, false, value),
        Operator::NotEqualNoCase => nocase_comparison(alloc, true, value),
        Operator::Matches => pattern_match(alloc, false, false, value),
        Operator::NotMatches => pattern_match(alloc, true, false, value),
        Operator::MatchesNoCase => pattern_match(alloc, false, true, value),
        Operator::NotMatchesNoCase => pattern_match(alloc, true, true, value),
    }
}

fn list_check(alloc: Global, operator: Operator, value: &str) -> Result<Check, TestErr>
    ensures { Spec.Gives result (Spec.list_check operator value.now) }
{
    match operator {
        Operator::Equal => emptiness(false, value),
        Operator::NotEqual => emptiness(true, value),
        Operator::GreaterOrEqual => containment(alloc, false, value),
        Operator::Less => containment(alloc, true, value),
        Operator::LessOrEqual => nocase_comparison(alloc, false, value),
        Operator::Greater => nocase_comparison(alloc, true, value),
        Operator::Matches => pattern_match(alloc, false, false, value),
        Operator::NotMatches => pattern_match(alloc, true, false, value),
        Operator::MatchesNoCase => pattern_match(alloc, false, true, value),
        Operator::NotMatchesNoCase => pattern_match(alloc, true, true, value),
        Operator::EqualNoCase | Operator::NotEqualNoCase => Err(TestErr::NotAllowed),
    }
}

fn number_comparison(negated: bool, ordering: Ordering, value: &str) -> Result<Check, TestErr>
    ensures { Spec.Gives result (Spec.number_comparison negated ordering value.now) }
{
    match read_i64(trim_end(value.as_bytes())) {
        Some(number) => Ok(compares(negated, Comparison::Number(ordering, number))),
        None => Err(TestErr::NotNumber),
    }
}

fn text_comparison(
    alloc: Global,
    negated: bool,
    ordering: Ordering,
    value: &str,
) -> Result<Check, TestErr>
    ensures { Spec.Gives result (Spec.text_comparison negated ordering value.now) }
{
    let operand = Text::new(alloc, value)?;
    Ok(compares(negated, Comparison::Text(ordering, operand)))
}

fn nocase_comparison(alloc: Global, negated: bool, value: &str) -> Result<Check, TestErr>
    ensures { Spec.Gives result (Spec.nocase_comparison negated value.now) }
{
    let operand = Text::new(alloc, value)?;
    Ok(compares(negated, Comparison::EqualNoCase(operand)))
}

fn containment(alloc: Global, negated: bool, value: &str) -> Result<Check, TestErr>
    ensures { Spec.Gives result (Spec.containment negated value.now) }
{
    let operand = Text::new(alloc, value)?;
    Ok(compares(negated, Comparison::Contains(operand)))
}

fn emptiness(negated: bool, value: &str) -> Result<Check, TestErr>
    ensures { Spec.Gives result (Spec.emptiness negated value.now) }
{
    if value.is_empty() {
        Ok(compares(negated, Comparison::IsEmpty))
    } else {
        Err(TestErr::NotAllowed)
    }
}

fn compares(negated: bool, comparison: Comparison) -> Check
    ensures { result ≡ record { negated = negated; property = Property.Compares comparison } }
{
    Check {
        negated,
        property: Property::Compares(comparison),
    }
}

fn pattern_match(alloc: Global, negated: bool, folded: bool, value: &str) -> Result<Check, TestErr>
    ensures { Spec.Gives result (Spec.pattern_match negated folded value.now) }
{
    match Pattern::new(alloc, value, folded)? {
        Some(pattern) => Ok(Check {
            negated,
            property: Property::Matches(pattern),
        }),
        None => Err(TestErr::BadPattern),
    }
}
