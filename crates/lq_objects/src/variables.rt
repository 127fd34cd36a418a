ghost use Rattle.std.specs.Prelude.{◌≡◌, ◌<◌, IfOk, IfSome, OnOk, bytes_eq, length};
ghost use Rattle.std.specs.List.{position};
ghost use Rattle.indexmap.specs.IndexMap.{insert_entry};
ghost use Rattle.lq_objects.specs.Objects.{custom_variables, variable_of};

use crate::directive::{is_variable, value_of};
use crate::line::Line;
use crate::texts::Texts;
use indexmap::IndexMap;
use lq_records::{Items, Text};
use std::alloc::{AllocError, Global};

/// The most variables of a block that are gone over one by one, where a name is there before. Most
/// blocks have one or two.
const FEW: usize = 8;

/// The custom variables of a block: each name once, where it first comes, with its last value.
pub(crate) fn custom_variables(
    texts: &Texts,
    lines: &[Line<'_>],
) -> Result<Items<(Text, Text)>, AllocError>
    ensures { IfOk result (λ variables. variables ≡ custom_variables lines.now) }
{
    let count = lines.iter().filter(|line| is_variable(line.text())).count();
    if count <= FEW {
        few_variables(texts, lines, count)
    } else {
        pairs(texts.alloc(), values_by_name(texts, lines)?)
    }
}

/// The same, where an index of the names would cost more than going over them.
fn few_variables(
    texts: &Texts,
    lines: &[Line<'_>],
    count: usize,
) -> Result<Items<(Text, Text)>, AllocError>
    ensures { IfOk result (λ variables. variables ≡ custom_variables lines.now) }
{
    let mut variables = Vec::with_capacity(texts.alloc(), count)?;
    for line in lines {
        if is_variable(line.text()) {
            put_few(&mut variables, variable_of(texts, line)?)?;
        }
    }
    Ok(Items::from_vec(variables))
}

/// Gives a variable a value, at the end where its name is new.
fn put_few(variables: &mut Vec<(Text, Text)>, variable: (Text, Text)) -> Result<(), AllocError>
    ensures { OnOk result (variables.new.items
        ≡ insert_entry bytes_eq variables.old.items variable.0 variable.1) }
{
    match place_among(variables, &variable.0) {
        Some(place) => variables[place].1 = variable.1,
        None => variables.push(variable)?,
    }
    Ok(())
}

/// The place of the variable with a name.
fn place_among(variables: &[(Text, Text)], name: &Text) -> Option<usize>
    ensures value { result ≡ position (λ variable. bytes_eq name.now variable.0) variables.now }
    ensures within { IfSome result (λ place. place < length variables.now) }
{
    variables.iter().position(|variable| *name == variable.0)
}

/// The last value of each variable, by its name.
fn values_by_name(texts: &Texts, lines: &[Line<'_>]) -> Result<IndexMap<Text, Text>, AllocError>
    ensures { IfOk result (λ values. values.entries ≡ custom_variables lines.now) }
{
    let mut values = IndexMap::new(texts.alloc());
    for line in lines {
        if is_variable(line.text()) {
            put(&mut values, variable_of(texts, line)?)?;
        }
    }
    Ok(values)
}

/// Gives a variable a value, at the end where its name is new.
fn put(values: &mut IndexMap<Text, Text>, variable: (Text, Text)) -> Result<(), AllocError>
    ensures { OnOk result (values.new.entries
        ≡ insert_entry bytes_eq values.old.entries variable.0 variable.1) }
{
    match values.insert(variable.0, variable.1) {
        Ok(_) => Ok(()),
        Err(_) => Err(AllocError),
    }
}

/// The name and the value that a variable's line says.
fn variable_of(texts: &Texts, line: &Line<'_>) -> Result<(Text, Text), AllocError>
    ensures { IfOk result (λ variable. variable ≡ variable_of line.now) }
{
    let word = line.word();
    let name = texts.text(word)?;
    let value = texts.text(value_of(word, line.text()))?;
    Ok((name, value))
}

/// The entries of a map as a list, in order.
fn pairs(alloc: Global, values: IndexMap<Text, Text>) -> Result<Items<(Text, Text)>, AllocError>
    ensures { IfOk result (λ pairs. pairs ≡ values.entries) }
{
    let mut pairs = Vec::with_capacity(alloc, values.len())?;
    for (name, value) in values {
        pairs.push((name, value))?;
    }
    Ok(Items::from_vec(pairs))
}
