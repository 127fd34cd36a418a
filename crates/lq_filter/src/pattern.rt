ghost use Rattle.std.specs.Prelude.{◌≡◌, ◌==◌, true, IfOk};
ghost use Rattle.std.specs.List.{list_any};
ghost use Rattle.lq_filter.specs.Patterns.{is_found, is_plain_pattern, pattern_of, pattern_text};

use lq_records::Memory;
use regex::{Error, Matcher, Regex, RegexBuilder};
use std::alloc::{AllocError, Global};
use std::marker::Model;

/// The most bytes that the text of a pattern may have. A longer one is no pattern.
const MOST_BYTES: usize = 200;

/// A pattern that is searched in texts. Contracts see it as its text, and whether letters match in
/// either case.
#[derive(Drop)]
pub struct Pattern {
    folded: bool,
    /// It stands apart, since it takes some two thousand bytes.
    regex: Box<Regex>,
}

impl Model for Pattern {
    ghost use Rattle.regex.specs.Strings.{regex_source};
    ghost use Rattle.lq_filter.specs.Patterns.{PatternText, pattern_text};
    ghost use Rattle.lq_filter.specs.Compiled.{IsCompiled};

    ghost Value = { PatternText };

    ghost view = { λ pattern. pattern_text pattern.folded (regex_source pattern.regex.value) };

    ghost invariant = { λ pattern. IsCompiled pattern.folded pattern.regex.value };
}

impl Pattern {
    /// The pattern of a text; where `folded`, letters match in either case. None exactly where the
    /// text has more than 200 bytes or a `{`, or where the grammar of `regex` reads no pattern in
    /// it, or one that nests more than 250 deep. The only error is out of memory, which is also
    /// given where the compiled pattern would pass the size limit of `regex`.
    pub fn new(alloc: Global, source: &str, folded: bool) -> Result<Option<Self>, Memory>
        ensures { IfOk result (λ pattern. pattern ≡ pattern_of folded source.now) }
    {
        if !is_plain_pattern(source) {
            return Ok(None);
        }
        compile(alloc, source, folded)
    }

    /// The pattern with a matcher of its own, which searches one text after the other. The only
    /// error is out of memory.
    pub fn ready(&self, alloc: Global) -> Result<ReadyPattern<'_>, Memory>
        ensures { IfOk result (λ ready. ready ≡ self.now) }
    {
        // A matcher keeps caches of 40 MB and more, by its library's own account. So it is made
        // once for all rows of a query.
        let matcher = self.regex.matcher(alloc)?;
        Ok(ReadyPattern {
            pattern: self,
            matcher: Box::new(alloc, matcher)?,
        })
    }
}

/// Whether a text is within the limits of a pattern.
fn is_plain_pattern(source: &str) -> bool
    ensures { result ≡ is_plain_pattern source.now }
{
    source.len() <= MOST_BYTES && !has_brace(source.as_bytes())
}

fn has_brace(source: &[u8]) -> bool
    ensures { result ≡ list_any (λ byte. byte == 123) source.now }
{
    source.iter().any(|byte| *byte == b'{')
}

/// The pattern of a text that is within the limits.
fn compile(alloc: Global, source: &str, folded: bool) -> Result<Option<Pattern>, Memory>
    requires { is_plain_pattern source.now ≡ true }
    ensures { IfOk result (λ pattern. pattern ≡ pattern_of folded source.now) }
{
    match RegexBuilder::new(source)
        .case_insensitive(folded)
        .build(alloc)
    {
        Ok(regex) => Ok(Some(Pattern {
            folded,
            regex: Box::new(alloc, regex)?,
        })),
        Err(Error::Syntax(_)) => Ok(None),
        Err(_) => Err(AllocError),
    }
}

/// A pattern with the matcher that searches for it. Contracts see it as the pattern.
#[derive(Drop)]
pub struct ReadyPattern<'p> {
    pattern: &'p Pattern,
    matcher: Box<Matcher<'p>>,
}

impl<'p> Model for ReadyPattern<'p> {
    ghost use Rattle.lq_filter.specs.Patterns.{PatternText};
    ghost use Rattle.lq_filter.specs.Compiled.{IsMatcherOf};

    ghost Value = { PatternText };

    ghost view = { λ ready. ready.pattern.now };

    ghost invariant = { λ ready. IsMatcherOf ready.pattern.now ready.matcher.value };
}

impl ReadyPattern<'_> {
    /// Whether the pattern is found somewhere in a text.
    pub fn is_found(&mut self, text: &str) -> bool
        ensures found { result ≡ is_found self.old text.now }
        ensures same { self.new ≡ self.old }
    {
        self.matcher.is_match(text)
    }
}
