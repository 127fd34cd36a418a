//! Aggregates of numbers that no table has: those below 0, and the greatest.

use lq_records::Items;
use lq_schema::Val;
use lq_stats::{Groups, StatCell, StatKind, StatLine, StatsSpec};
use std::alloc::{AllocError, Global};
use std::test::Fail;

/// The most numbers of a case.
const MOST: usize = 10;

/// The greatest size that a number may have.
const SIZE: u128 = 18_446_744_073_709_551_616;

/// Numbers, and their sum, the least, the greatest and the average.
const CASES: &[(&[i128], &str)] = &[
    (&[], "0;0;0;0.000000;"),
    (&[-5], "-5;-5;-5;-5.000000;"),
    (&[7], "7;7;7;7.000000;"),
    (&[-1, -2], "-3;-2;-1;-1.500000;"),
    (&[0, -1, 0], "-1;-1;0;-0.333333;"),
    (&[-2, 0, 0], "-2;-2;0;-0.666667;"),
    (&[3, -7, 2], "-2;-7;3;-0.666667;"),
    (
        &[18_446_744_073_709_551_616, 18_446_744_073_709_551_616],
        "36893488147419103232;18446744073709551616;18446744073709551616;\
         18446744073709551616.000000;",
    ),
    (
        &[18_446_744_073_709_551_615, 0],
        "18446744073709551615;0;18446744073709551615;9223372036854775807.500000;",
    ),
    (
        &[-18_446_744_073_709_551_616, 1],
        "-18446744073709551615;-18446744073709551616;1;-9223372036854775807.500000;",
    ),
    (
        &[-18_446_744_073_709_551_616, 18_446_744_073_709_551_616],
        "0;-18446744073709551616;18446744073709551616;0.000000;",
    ),
];

/// The aggregates of some numbers. More than ten of them, or a larger one, find no memory.
fn aggregates_of(alloc: Global, numbers: &[i128]) -> Result<Items<StatLine>, AllocError> {
    let kinds = [StatKind::Sum, StatKind::Min, StatKind::Max, StatKind::Avg];
    let spec = StatsSpec {
        keys: 0,
        entries: Items::from_vec(Vec::from_slice(alloc, &kinds)?),
    };
    let mut groups = Groups::new(alloc, &spec)?;
    if numbers.len() > MOST {
        return Err(AllocError);
    }
    for number in numbers {
        if number.unsigned_abs() > SIZE {
            return Err(AllocError);
        }
        let cell = StatCell::Number(*number);
        groups.take(&[cell, cell, cell, cell])?;
    }
    groups.lines()
}

/// The values of the lines, each with `;` after it.
fn text_of(alloc: Global, lines: &[StatLine]) -> Result<String, AllocError> {
    let mut text = String::new(alloc);
    for line in lines {
        push_values(alloc, &mut text, line.values.as_slice())?;
    }
    Ok(text)
}

fn push_values(alloc: Global, text: &mut String, values: &[Val<'_>]) -> Result<(), AllocError> {
    for value in values {
        match value {
            Val::Int(number) => text.push_str(number.to_string(alloc)?.as_str())?,
            Val::Micro(micro) => text.push_str(micro.to_string(alloc)?.as_str())?,
            _ => text.push_str("no number")?,
        }
        text.push_str(";")?;
    }
    Ok(())
}

#[test]
fn aggregates_of_numbers_below_zero_and_of_the_greatest(rt: HostRuntime) -> Result<(), Fail> {
    for (numbers, expected) in CASES {
        let lines = aggregates_of(rt.alloc(), *numbers)?;
        let text = text_of(rt.alloc(), lines.as_slice())?;
        assert_eq!(rt; text.as_str(), *expected);
    }
    Ok(())
}
