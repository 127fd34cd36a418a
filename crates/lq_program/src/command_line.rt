ghost use Rattle.std.specs.Prelude.{◌≡◌, ◌⊎◌, ◌∷◌, ℕ, List, Some, [], map, string_bytes, IfErr};
ghost use Rattle.std.specs.List.{before_first, after_first};
ghost use Rattle.std.specs.Option.{option_and_then, option_copied, option_map};
ghost use Rattle.lq_program.specs.CommandLine as Spec;
ghost use Rattle.lq_program.specs.Words.{given_before, given_by_values, given_with, later_line};
ghost use Rattle.lq_program.specs.Words.{wanted_by, work_by};

use crate::fault::Fault;
use lq_records::Rules;
use lq_text::read_u64;
use std::env;
use std::io::ErrorKind;
use std::rt::Env;

/// What the words of a command line ask.
#[derive(Clone, Copy)]
pub enum Subcommand<'a> {
    /// `ask`: to serve a connection.
    Ask(Asked<'a>),
    /// `load`: to run the workload of a number.
    Load(u64),
}

/// The greatest number of a workload.
const MOST_LOAD: u64 = 1_000_000;

/// What `ask` asks.
#[derive(Clone, Copy)]
pub struct Asked<'a> {
    /// The path of the object file.
    pub path: &'a str,
    /// The path of the log, where one is to be read.
    pub log: Option<&'a str>,
    /// By which rules contacts see services and groups.
    pub rules: Rules,
}

/// An option of the command line.
#[derive(Clone, Copy)]
pub enum Choice {
    /// `--log FILE`.
    Log,
    /// `--service-auth loose` or `strict`.
    ServiceAuth,
    /// `--group-auth loose` or `strict`.
    GroupAuth,
}

/// What the next word is.
#[derive(Clone, Copy)]
enum Awaited {
    /// An option or a value.
    Any,
    /// The value of an option.
    Value(Choice),
    /// A value: `--` has ended the options.
    Operand,
}

/// What the words after the command say: the one value that stands by itself, and the value of each
/// option that stands.
#[derive(Clone, Copy)]
struct Values<'a> {
    operand: &'a str,
    log: Option<&'a str>,
    service_auth: Option<&'a str>,
    group_auth: Option<&'a str>,
}

impl<'a> Values<'a> {
    /// What `ask` asks by them, None where the value of an option isn't one that it takes.
    fn asked_work(self) -> Option<Asked<'a>>
        ensures { option_map wanted_by result ≡ Spec.wanted_of (given_by_values self.entry) }
    {
        Some(Asked {
            path: self.operand,
            log: self.log,
            rules: Rules {
                service_strict: rule(false, self.service_auth)?,
                group_strict: rule(true, self.group_auth)?,
            },
        })
    }

    /// The number of the workload that `load` runs by them, None where it isn't one or an option
    /// stands.
    fn load_number(self) -> Option<u64>
        ensures { result ≡ Spec.load_of (given_by_values self.entry) }
    {
        if self.log.is_none() && self.service_auth.is_none() && self.group_auth.is_none() {
            load_number(self.operand)
        } else {
            None
        }
    }
}

/// The number of a workload, 0 to 1,000,000 in decimal digits.
fn load_number(digits: &str) -> Option<u64>
    ensures { result ≡ Spec.number_up_to 1000000 digits.now }
{
    let number = read_u64(digits.as_bytes())?;
    if number <= MOST_LOAD {
        Some(number)
    } else {
        None
    }
}

/// What the words so far say.
#[derive(Clone, Copy)]
struct Said<'a> {
    operand: Option<&'a str>,
    log: Option<&'a str>,
    service_auth: Option<&'a str>,
    group_auth: Option<&'a str>,
    awaited: Awaited,
}

impl<'a> Said<'a> {
    /// The same with one more word, None where it stands where it may not.
    fn with_word(self, word: &'a str) -> Option<Self>
        ensures { (words : List (List ℕ)) → option_and_then (λ said. given_with said words) result
            ≡ given_with self.entry (word.now ∷ words) }
    {
        match self.awaited {
            Awaited::Any => self.with_any(word),
            Awaited::Value(choice) if is_value(word) => self.with_value(choice, word),
            Awaited::Value(_) => None,
            Awaited::Operand => self.with_operand(word),
        }
    }

    /// A word that may be an option or a value.
    fn with_any(self, word: &'a str) -> Option<Self>
        requires { self.awaited ≡ Awaited.Any }
        ensures { (words : List (List ℕ)) → option_and_then (λ said. given_with said words) result
            ≡ given_before self.entry (Spec.line_of (word.now ∷ words)) }
    {
        if word == "--" {
            Some(self.with_awaited(Awaited::Operand))
        } else if is_value(word) {
            self.with_operand(word)
        } else {
            match choice_named(word) {
                Some(choice) => Some(self.with_awaited(Awaited::Value(choice))),
                None => self.with_option_and_value(word),
            }
        }
    }

    fn with_awaited(self, awaited: Awaited) -> Self
        ensures { (words : List (List ℕ)) → given_with result words
            ≡ given_before self.entry (later_line awaited words) }
    {
        Said { awaited, ..self }
    }

    /// One value stands by itself.
    fn with_operand(self, word: &'a str) -> Option<Self>
        ensures { (words : List (List ℕ)) → option_and_then (λ said. given_with said words) result
            ≡ given_before self.entry
            (option_map (Spec.with_operand word.now) (later_line self.entry.awaited words)) }
    {
        match self.operand {
            Some(_) => None,
            None => Some(Said {
                operand: Some(word),
                ..self
            }),
        }
    }

    /// An option with its value in one word.
    fn with_option_and_value(self, word: &'a str) -> Option<Self>
        ensures { (words : List (List ℕ)) → option_and_then (λ said. given_with said words) result
            ≡ given_before self.entry
            (option_and_then (Spec.with_option_and_value word.now) (Spec.line_of words)) }
    {
        match choice_named(before_equals(word)) {
            Some(choice) => self.with_value(choice, after_equals(word)),
            None => None,
        }
    }

    /// Each option stands once.
    fn with_value(self, choice: Choice, value: &'a str) -> Option<Self>
        ensures { (words : List (List ℕ)) → option_and_then (λ said. given_with said words) result
            ≡ given_before self.entry
            (option_map (Spec.with_value choice value.now) (Spec.line_of words)) }
    {
        let awaited = Awaited::Any;
        match choice {
            Choice::Log if self.log.is_none() => Some(Said {
                log: Some(value),
                awaited,
                ..self
            }),
            Choice::ServiceAuth if self.service_auth.is_none() => Some(Said {
                service_auth: Some(value),
                awaited,
                ..self
            }),
            Choice::GroupAuth if self.group_auth.is_none() => Some(Said {
                group_auth: Some(value),
                awaited,
                ..self
            }),
            Choice::Log | Choice::ServiceAuth | Choice::GroupAuth => None,
        }
    }

    /// What the words give, None where an option's value is missing or no value stands by itself.
    fn given_values(self) -> Option<Values<'a>>
        ensures { option_map given_by_values result ≡ given_with self.entry [] }
    {
        match self.awaited {
            Awaited::Value(_) => None,
            Awaited::Any | Awaited::Operand => self.given_by_all(),
        }
    }

    fn given_by_all(self) -> Option<Values<'a>>
        ensures { option_map given_by_values result
            ≡ given_before self.entry (Some (Spec.only_operands [])) }
    {
        Some(Values {
            operand: self.operand?,
            log: self.log,
            service_auth: self.service_auth,
            group_auth: self.group_auth,
        })
    }
}

/// What the words ask. None where they are outside this grammar:
///
/// - `ask OBJECTS`, and among what follows `ask` at most once each `--log FILE`, `--service-auth
///   strict` or `loose`, and `--group-auth strict` or `loose`;
/// - `load N`, where N is 0 to 1,000,000 in decimal digits, and no option.
///
/// The value of an option stands after `=` or as a word of its own. After `--` no option stands. A
/// value that begins with `-`, and isn't `-` alone, has to stand after `=` or `--`.
#[tactic(auto, unfolding(crate::specs::CommandLine::asked_words))]
pub fn asked_words(words: &[String]) -> Option<Subcommand<'_>>
    ensures { option_map work_by result ≡ Spec.asked_words (map string_bytes words.now) }
{
    let (command, rest) = words.split_first()?;
    match command.as_str() {
        "ask" => Some(Subcommand::Ask(given_by(rest)?.asked_work()?)),
        "load" => Some(Subcommand::Load(given_by(rest)?.load_number()?)),
        _ => None,
    }
}

/// What the words after the command give.
fn given_by(words: &[String]) -> Option<Values<'_>>
    ensures { option_map given_by_values result ≡ Spec.given_by (map string_bytes words.now) }
{
    let nothing = Said {
        operand: None,
        log: None,
        service_auth: None,
        group_auth: None,
        awaited: Awaited::Any,
    };
    said_after(nothing, words)?.given_values()
}

/// What words say after others.
fn said_after<'a>(before: Said<'a>, words: &'a [String]) -> Option<Said<'a>>
    ensures { option_and_then (λ said. given_with said []) result
        ≡ given_with before.entry (map string_bytes words.now) }
{
    let mut said = before;
    for word in words {
        said = said.with_word(word.as_str())?;
    }
    Some(said)
}

/// Whether a word may be a value where it stands by itself and no `--` is before it.
fn is_value(word: &str) -> bool
    ensures { result ≡ Spec.is_value word.now }
{
    word == "-" || word.as_bytes().first() != Some(&b'-')
}

/// The option with a name.
fn choice_named(name: &str) -> Option<Choice>
    ensures { result ≡ Spec.choice_named name.now }
{
    match name {
        "--log" => Some(Choice::Log),
        "--service-auth" => Some(Choice::ServiceAuth),
        "--group-auth" => Some(Choice::GroupAuth),
        _ => None,
    }
}

/// What stands before the first `=`, all where there is none.
fn before_equals(word: &str) -> &str
    ensures { result.now ≡ before_first Spec.is_equals word.now }
{
    match word.split_once('=') {
        Some((name, _)) => name,
        None => word,
    }
}

/// What stands after the first `=`, nothing where there is none.
fn after_equals(word: &str) -> &str
    ensures { result.now ≡ after_first Spec.is_equals word.now }
{
    match word.split_once('=') {
        Some((_, value)) => value,
        None => "",
    }
}

/// Whether a rule is strict, by the value of its option where one is given.
fn rule(usually: bool, value: Option<&str>) -> Option<bool>
    ensures { result ≡ Spec.rule usually (option_copied value.entry) }
{
    match value {
        Some(value) => strictness_of(value),
        None => Some(usually),
    }
}

/// Whether a rule is strict.
fn strictness_of(word: &str) -> Option<bool>
    ensures { result ≡ Spec.strictness_of word.now }
{
    match word {
        "strict" => Some(true),
        "loose" => Some(false),
        _ => None,
    }
}

/// The words of the command line after the program's name. Words that aren't UTF-8 are outside the
/// grammar.
pub fn words<R: Env + AllocGlobal>(rt: &R) -> Result<Vec<String>, Fault<'static>>
    ensures { IfErr result (λ fault. (fault ≡ Fault.Usage) ⊎ (fault ≡ Fault.Memory)) }
{
    let words = match env::args(rt) {
        Ok(words) => words,
        Err(error) if error.kind() == ErrorKind::OutOfMemory => return Err(Fault::Memory),
        Err(_) => return Err(Fault::Usage),
    };
    match words.skip(1).collect(rt.alloc()) {
        Ok(words) => Ok(words),
        Err(_) => Err(Fault::Memory),
    }
}
