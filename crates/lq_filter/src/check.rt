ghost use Rattle.std.specs.Prelude.{◌≡◌, bytes_eq};
ghost use Rattle.std.specs.List.{list_any};
ghost use Rattle.std.specs.Str.{str_eq_ignore_ascii_case};
ghost use Rattle.lq_filter.specs.Tests.{list_compares, number_compares, text_compares};

use crate::pattern::Pattern;
use lq_records::Text;
use lq_text::eq_nocase;
use std::cmp::Ordering;

/// What a test asks of the value of a cell.
#[derive(Drop)]
pub struct Check {
    /// Whether the property has to be absent.
    pub negated: bool,
    /// What is asked.
    pub property: Property,
}

/// What a value may have.
pub enum Property {
    /// It compares so with another value.
    Compares(Comparison),
    /// The pattern is found in the text, or in an element of the list.
    Matches(Pattern),
}

// Written by hand: where one is dropped a proof then meets a call, and not each of the forms.
impl Drop for Property {
    fn drop(self) {
        match self {
            Property::Compares(_comparison) => {}
            Property::Matches(_pattern) => {}
        }
    }
}

/// How a value compares with another one.
pub enum Comparison {
    /// The number is equal to this one, less or greater.
    Number(Ordering, i64),
    /// The text is equal to this one, or before or after it in the order of bytes.
    Text(Ordering, Text),
    /// The text, or an element of the list, is this one where ASCII letters count the same in both
    /// cases.
    EqualNoCase(Text),
    /// An element of the list is this text.
    Contains(Text),
    /// The list has no element.
    IsEmpty,
}

// Written by hand: where one is dropped a proof then meets a call, and not each of the forms.
impl Drop for Comparison {
    fn drop(self) {
        match self {
            Comparison::Number(_, _) | Comparison::IsEmpty => {}
            Comparison::Text(_, _text) => {}
            Comparison::EqualNoCase(_text) => {}
            Comparison::Contains(_text) => {}
        }
    }
}

impl Comparison {
    /// Whether a number compares so.
    #[inline]
    pub fn holds_for_number(&self, number: i128) -> bool
        ensures { result ≡ number_compares self.now number }
    {
        match self {
            Comparison::Number(Ordering::Equal, operand) => number == i128::from(*operand),
            Comparison::Number(Ordering::Less, operand) => number < i128::from(*operand),
            Comparison::Number(Ordering::Greater, operand) => number > i128::from(*operand),
            _ => false,
        }
    }

    /// Whether a text compares so.
    pub fn holds_for_text(&self, text: &str) -> bool
        ensures { result ≡ text_compares self.now text.now }
    {
        match self {
            Comparison::Text(Ordering::Equal, operand) => text == operand.as_str(),
            Comparison::Text(Ordering::Less, operand) => text.cmp(operand.as_str()).is_lt(),
            Comparison::Text(Ordering::Greater, operand) => text.cmp(operand.as_str()).is_gt(),
            Comparison::EqualNoCase(operand) => eq_nocase(text, operand.as_str()),
            _ => false,
        }
    }

    /// Whether a list with these elements compares so.
    pub fn holds_for_list(&self, elements: &[Text]) -> bool
        ensures { result ≡ list_compares self.now elements.now }
    {
        match self {
            Comparison::EqualNoCase(operand) => contains_nocase(elements, operand.as_str()),
            Comparison::Contains(operand) => contains(elements, operand.as_str()),
            Comparison::IsEmpty => elements.is_empty(),
            _ => false,
        }
    }
}

fn contains(elements: &[Text], operand: &str) -> bool
    ensures { result ≡ list_any (λ element. bytes_eq element operand.now) elements.now }
{
    elements.iter().any(|element| element.as_str() == operand)
}

fn contains_nocase(elements: &[Text], operand: &str) -> bool
    ensures { result
        ≡ list_any (λ element. str_eq_ignore_ascii_case element operand.now) elements.now }
{
    elements
        .iter()
        .any(|element| eq_nocase(element.as_str(), operand))
}
