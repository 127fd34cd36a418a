ghost use Rattle.std.specs.Prelude.{◌≡◌, [], IfOk, OnOk};
ghost use Rattle.std.specs.List.{before_first};
ghost use Rattle.std.specs.Option.{option_copied, unwrap_or};
ghost use Rattle.lq_commands.specs.Fields as Spec;
ghost use Rattle.lq_commands.specs.Reading.{GivesValue};

use lq_records::{Base, HostId, Memory, ServiceId, Text};
use lq_text::read_u64;
use std::alloc::{AllocError, Global};
use std::marker::Model;

/// Why a field gives no value.
#[derive(Drop)]
pub(crate) enum FieldErr {
    /// The field is missing, no number, out of its range, or names nothing that is known.
    Faulty,
    /// Out of memory.
    Memory,
}

impl From<AllocError> for FieldErr {
    ghost use Rattle.lq_commands.specs.declared.field.FieldErr.TheVariants.{Memory};

    ghost from_gives = { λ _ e. e ≡ Memory };

    fn from(_: AllocError) -> Self {
        FieldErr::Memory
    }
}

/// The most digits that a start or an end is written with. One of 13 digits is faulty, even if its
/// first ones are zeros.
const MOST_SECOND_DIGITS: usize = 12;

/// The fields of a command that are still to be read, in turn. The first of all is its word.
#[derive(Drop)]
pub(crate) struct Fields<'a> {
    alloc: Global,
    /// Whose hosts and services they name.
    base: &'a Base,
    /// The text from the next field on. None after the last one.
    rest: Option<&'a str>,
}

impl<'a> Model for Fields<'a> {
    ghost use Rattle.std.specs.Option.{option_copied};
    ghost use Rattle.lq_commands.specs.Fields.{Fields};

    ghost Value = { Fields };

    ghost view = { λ fields. record {
      base = fields.base.now;
      rest = option_copied fields.rest;
    } };
}

impl<'a> Fields<'a> {
    /// All fields of a command's text.
    pub(crate) fn of(alloc: Global, base: &'a Base, text: &'a str) -> Self
        ensures { result ≡ Spec.all_fields base.now text.now }
    {
        Fields {
            alloc,
            base,
            rest: Some(text),
        }
    }

    /// Takes the next field, which ends at its `;`. None where none is left.
    #[tactic(auto, unfolding(crate::specs::Fields::field))]
    pub(crate) fn next(&mut self) -> Option<&'a str>
        ensures value { option_copied result ≡ Spec.field self.old }
        ensures rest { self.new ≡ Spec.later self.old }
    {
        let (field, later) = split_field(self.rest?);
        self.rest = later;
        Some(field)
    }

    /// Takes a field that is a number.
    #[tactic(auto, unfolding(crate::specs::Fields::number_in))]
    pub(crate) fn number(&mut self) -> Result<u64, FieldErr>
        ensures value { GivesValue result (Spec.number_in self.old) }
        ensures rest { self.new ≡ Spec.later self.old }
    {
        let digits = self.next().ok_or(FieldErr::Faulty)?;
        number(digits).ok_or(FieldErr::Faulty)
    }

    /// Takes a field that is a second, counted from the beginning of 1970, of at most 12 digits.
    #[tactic(auto, unfolding(crate::specs::Fields::second_in))]
    pub(crate) fn second(&mut self) -> Result<u64, FieldErr>
        ensures value { GivesValue result (Spec.second_in self.old) }
        ensures rest { self.new ≡ Spec.later self.old }
    {
        let digits = self.next().ok_or(FieldErr::Faulty)?;
        second(digits).ok_or(FieldErr::Faulty)
    }

    /// Takes a field that is a text.
    pub(crate) fn text(&mut self) -> Result<Text, FieldErr>
        ensures value { GivesValue result (Spec.field self.old) }
        ensures rest { self.new ≡ Spec.later self.old }
    {
        let field = self.next().ok_or(FieldErr::Faulty)?;
        Ok(Text::new(self.alloc, field)?)
    }

    /// The text of all fields that are left, with their semicolons: a last field that is a text.
    pub(crate) fn last_text(&self) -> Result<Text, FieldErr>
        ensures { GivesValue result self.now.rest }
    {
        let rest = self.rest.ok_or(FieldErr::Faulty)?;
        Ok(Text::new(self.alloc, rest)?)
    }

    /// As `last_text`, but empty where no field is left.
    pub(crate) fn last_text_or_empty(&self) -> Result<Text, Memory>
        ensures { IfOk result (λ text. text ≡ unwrap_or self.now.rest []) }
    {
        match self.rest {
            Some(rest) => Text::new(self.alloc, rest),
            None => Ok(Text::empty()),
        }
    }

    /// Takes a field that names a host.
    #[tactic(auto, unfolding(crate::specs::Fields::host_in))]
    pub(crate) fn host(&mut self) -> Result<HostId, FieldErr>
        ensures value { GivesValue result (Spec.host_in self.old) }
        ensures rest { self.new ≡ Spec.later self.old }
    {
        let name = self.next().ok_or(FieldErr::Faulty)?;
        self.base.hosts.find(name).ok_or(FieldErr::Faulty)
    }

    /// Takes two fields that name a service: its host's name and its description.
    #[tactic(auto, unfolding(crate::specs::Fields::service_in))]
    pub(crate) fn service(&mut self) -> Result<ServiceId, FieldErr>
        ensures value { GivesValue result (Spec.service_in self.old) }
        ensures rest { OnOk result (self.new ≡ Spec.fields_after 2 self.old) }
    {
        let host = self.next().ok_or(FieldErr::Faulty)?;
        let description = self.next().ok_or(FieldErr::Faulty)?;
        self.base
            .services
            .find(host, description)
            .ok_or(FieldErr::Faulty)
    }
}

/// A text up to its first `;`, and what follows that `;`, None where there is none.
#[tactic(auto, unfolding(crate::specs::Fields::after_semicolon))]
fn split_field(text: &str) -> (&str, Option<&str>)
    ensures field { result.0.now ≡ before_first Spec.is_semicolon text.now }
    ensures later { option_copied result.1 ≡ Spec.after_semicolon text.now }
{
    match text.split_once(';') {
        Some((field, later)) => (field, Some(later)),
        None => (text, None),
    }
}

/// The number that digits say.
#[tactic(auto, using(crate::proofs::FieldLemmas::number_read))]
fn number(digits: &str) -> Option<u64>
    ensures { result ≡ Spec.number digits.now }
{
    read_u64(digits.as_bytes())
}

/// The second that digits say.
#[tactic(auto, unfolding(crate::specs::Fields::second))]
fn second(digits: &str) -> Option<u64>
    ensures { result ≡ Spec.second digits.now }
{
    if digits.len() <= MOST_SECOND_DIGITS {
        number(digits)
    } else {
        None
    }
}
