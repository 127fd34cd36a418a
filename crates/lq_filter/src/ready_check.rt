ghost use Rattle.std.specs.Prelude.{◌≡◌, ℕ, IfOk, IfSome, List, map, true};
ghost use Rattle.std.specs.Fmt.{decimal};
ghost use Rattle.std.specs.List.{list_any};
ghost use Rattle.std.specs.Option.{IsSome};
ghost use Rattle.std.specs.declared.cmp.Ordering.TheVariants.{Equal};
ghost use Rattle.lq_schema.specs.Value.{Number, Words, meaning_of};
ghost use Rattle.lq_filter.specs.Patterns.{is_found};
ghost use Rattle.lq_filter.specs.Ready.{check_of_element, check_of_number, check_of_text};
ghost use Rattle.lq_filter.specs.Ready.{property_of};
ghost use Rattle.lq_filter.specs.Tests.{has_property, is_met, is_of_number, list_has, negated_if};
ghost use Rattle.lq_filter.specs.Tests.{number_has, pair_element, text_has};
ghost use Rattle.lq_filter.specs.declared.check.Comparison.TheVariants as by;
ghost use Rattle.lq_filter.specs.declared.check.Property.TheVariants.{Compares};

use crate::check::{Check, Comparison, Property};
use crate::element_check::ElementCheck;
use crate::number_check::NumberCheck;
use crate::pattern::ReadyPattern;
use crate::text_check::TextCheck;
use lq_records::{Memory, Text};
use lq_schema::Val;
use std::alloc::Global;
use std::cmp::Ordering;
use std::marker::Model;

/// A check with the matcher that it searches with, which serves for any number of values. Contracts
/// see it as the check.
#[derive(Drop)]
pub struct ReadyCheck<'c> {
    negated: bool,
    property: ReadyProperty<'c>,
}

/// A property with the matcher that it is looked for with.
#[derive(Drop)]
pub enum ReadyProperty<'c> {
    /// The value compares so with another one.
    Compares(&'c Comparison),
    /// The pattern is found in the text, or in an element of the list.
    Matches(ReadyPattern<'c>),
}

impl<'c> Model for ReadyCheck<'c> {
    ghost use Rattle.lq_filter.specs.Ready.{check_of};
    ghost use Rattle.lq_filter.specs.declared.check.Check.{Check};

    ghost Value = { Check };

    ghost view = { λ ready. check_of ready.negated ready.property };
}

impl Check {
    /// The check made ready. The only error is out of memory.
    pub fn ready(&self, alloc: Global) -> Result<ReadyCheck<'_>, Memory>
        ensures { IfOk result (λ ready. ready ≡ self.now) }
    {
        let property = self.property.ready(alloc)?;
        Ok(ReadyCheck {
            negated: self.negated,
            property,
        })
    }
}

impl Property {
    fn ready(&self, alloc: Global) -> Result<ReadyProperty<'_>, Memory>
        ensures { IfOk result (λ ready. property_of ready ≡ self.now) }
    {
        match self {
            Property::Compares(comparison) => Ok(ReadyProperty::Compares(comparison)),
            Property::Matches(pattern) => Ok(ReadyProperty::Matches(pattern.ready(alloc)?)),
        }
    }
}

impl<'c> ReadyCheck<'c> {
    /// Whether a value is as the check asks. The only error is out of memory, which a list of
    /// numbers or of services may want.
    pub fn is_met(&mut self, alloc: Global, value: &Val<'_>) -> Result<bool, Memory>
        ensures met { IfOk result (λ met. met ≡ is_met self.old (meaning_of value.now)) }
        ensures same { self.new ≡ self.old }
    {
        let holds = self.property.holds_for(alloc, value)?;
        Ok(holds != self.negated)
    }

    /// Whether the check asks for a number.
    #[inline]
    pub fn is_of_number(&self) -> bool
        ensures { result ≡ is_of_number self.now.property }
    {
        matches!(
            &self.property,
            ReadyProperty::Compares(Comparison::Number(_, _))
        )
    }

    /// What the check asks of a number, None for any other check.
    pub fn of_number(&self) -> Option<NumberCheck>
        ensures asked { IfSome result (λ check. self.now ≡ check_of_number check) }
        ensures given { is_of_number self.now.property ≡ true → IsSome result }
    {
        match &self.property {
            ReadyProperty::Compares(Comparison::Number(ordering, operand)) => Some(NumberCheck {
                negated: self.negated,
                ordering: *ordering,
                operand: *operand,
            }),
            _ => None,
        }
    }

    /// The text that the check asks for, None for any other check, as one of the order of texts.
    pub fn of_text(&self) -> Option<TextCheck<'c>>
        ensures asked { IfSome result (λ check. self.now ≡ check_of_text check) }
        ensures given { (text : List ℕ) → self.now.property ≡ Compares (by.Text Equal text)
            → IsSome result }
    {
        match &self.property {
            ReadyProperty::Compares(Comparison::Text(Ordering::Equal, text)) => Some(TextCheck {
                negated: self.negated,
                operand: text.as_str(),
            }),
            _ => None,
        }
    }

    /// The element that the check asks for in a list, None for any other check.
    pub fn of_element(&self) -> Option<ElementCheck<'c>>
        ensures asked { IfSome result (λ check. self.now ≡ check_of_element check) }
        ensures given { (element : List ℕ) → self.now.property ≡ Compares (by.Contains element)
            → IsSome result }
    {
        match &self.property {
            ReadyProperty::Compares(Comparison::Contains(element)) => Some(ElementCheck {
                negated: self.negated,
                element: element.as_str(),
            }),
            _ => None,
        }
    }

    /// The text that a list is asked to have as an element, None for any other check.
    #[inline]
    pub fn element(&self) -> Option<&'c str>
        ensures asked { IfSome result
            (λ element. self.now.property ≡ Compares (by.Contains element.now)) }
        ensures given { (element : List ℕ) → self.now.property ≡ Compares (by.Contains element)
            → IsSome result }
    {
        match &self.property {
            ReadyProperty::Compares(Comparison::Contains(element)) => Some(element.as_str()),
            _ => None,
        }
    }

    /// Whether a number is as the check asks.
    #[inline]
    pub fn is_met_by_number(&self, number: i128) -> bool
        ensures { result ≡ is_met self.now (Number number) }
    {
        self.property.holds_for_number(number) != self.negated
    }

    /// Whether a list is as the check asks, by whether it has the element that is asked for.
    #[inline]
    pub fn is_met_by_found(&self, found: bool) -> bool
        ensures { result ≡ negated_if self.now.negated found }
    {
        found != self.negated
    }

    /// Whether a text is as the check asks.
    pub fn is_met_by_text(&mut self, text: &str) -> bool
        ensures met { result ≡ is_met self.old (Words text.now) }
        ensures same { self.new ≡ self.old }
    {
        self.property.holds_for_text(text) != self.negated
    }
}

impl ReadyProperty<'_> {
    /// Whether a value has the property.
    fn holds_for(&mut self, alloc: Global, value: &Val<'_>) -> Result<bool, Memory>
        ensures holds { IfOk result
            (λ holds. holds ≡ has_property (property_of self.old) (meaning_of value.now)) }
        ensures same { property_of self.new ≡ property_of self.old }
    {
        match value {
            Val::Int(number) => Ok(self.holds_for_number(*number)),
            Val::Micro(_) => Ok(false),
            Val::Str(text) => Ok(self.holds_for_text(text)),
            Val::Own(text) => Ok(self.holds_for_text(text.as_str())),
            Val::List(texts) => Ok(self.holds_for_list(texts.as_slice())),
            Val::Nums(numbers) => {
                let elements = number_texts(alloc, numbers.as_slice())?;
                Ok(self.holds_for_list(elements.as_slice()))
            }
            Val::Pairs(pairs) => {
                let elements = pair_texts(alloc, pairs.as_slice())?;
                Ok(self.holds_for_list(elements.as_slice()))
            }
        }
    }

    #[inline]
    fn holds_for_number(&self, number: i128) -> bool
        ensures { result ≡ number_has (property_of self.now) number }
    {
        match self {
            ReadyProperty::Compares(comparison) => comparison.holds_for_number(number),
            ReadyProperty::Matches(_) => false,
        }
    }

    fn holds_for_text(&mut self, text: &str) -> bool
        ensures holds { result ≡ text_has (property_of self.old) text.now }
        ensures same { property_of self.new ≡ property_of self.old }
    {
        match self {
            ReadyProperty::Compares(comparison) => comparison.holds_for_text(text),
            ReadyProperty::Matches(pattern) => pattern.is_found(text),
        }
    }

    fn holds_for_list(&mut self, elements: &[Text]) -> bool
        ensures holds { result ≡ list_has (property_of self.old) elements.now }
        ensures same { property_of self.new ≡ property_of self.old }
    {
        match self {
            ReadyProperty::Compares(comparison) => comparison.holds_for_list(elements),
            ReadyProperty::Matches(pattern) => is_found_in(pattern, elements),
        }
    }
}

/// Whether the pattern is found in an element.
fn is_found_in(pattern: &mut ReadyPattern<'_>, elements: &[Text]) -> bool
    ensures found { result ≡ list_any (is_found pattern.old) elements.now }
    ensures same { pattern.new ≡ pattern.old }
{
    for element in elements {
        if pattern.is_found(element.as_str()) {
            return true;
        }
    }
    false
}

/// The decimal text of each number.
fn number_texts(alloc: Global, numbers: &[u64]) -> Result<Vec<Text>, Memory>
    ensures { IfOk result (λ texts. texts.items ≡ map decimal numbers.now) }
{
    let mut texts = Vec::with_capacity(alloc, numbers.len())?;
    for number in numbers {
        texts.push(Text::from_string(number.to_string(alloc)?)?)?;
    }
    Ok(texts)
}

/// The text of each service: its host's name, `|` and its description.
fn pair_texts(alloc: Global, pairs: &[(Text, Text)]) -> Result<Vec<Text>, Memory>
    ensures { IfOk result (λ texts. texts.items ≡ map pair_element pairs.now) }
{
    let mut texts = Vec::with_capacity(alloc, pairs.len())?;
    for (host, description) in pairs {
        texts.push(pair_element(alloc, host, description)?)?;
    }
    Ok(texts)
}

fn pair_element(alloc: Global, host: &Text, description: &Text) -> Result<Text, Memory>
    ensures { IfOk result (λ text. text ≡ pair_element (host.now, description.now)) }
{
    let mut text = String::from_str(alloc, host.as_str())?;
    text.push('|')?;
    text.push_str(description.as_str())?;
    Text::from_string(text)
}
