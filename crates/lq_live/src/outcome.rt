ghost use Rattle.std.specs.Prelude.{◌≡◌, ◌&&◌, if◌then◌else◌, IfOk};
ghost use Rattle.std.specs.List.{before_first, after_first};
ghost use Rattle.lq_live.specs.Results.{ends_acknowledgement, is_bar, is_first_or_new, is_ok};
ghost use Rattle.lq_live.specs.Results.{status_after, type_number};
ghost use Rattle.lq_live.specs.StepEdits.{attempt_of};

use lq_events::Status;
use lq_records::{Memory, Text};
use std::alloc::Global;

/// Whether a state is hard, and the number of the check attempt that found it.
#[derive(Clone, Copy)]
pub(crate) struct CheckAttempt {
    pub(crate) hard: bool,
    pub(crate) number: u32,
}

/// The texts of a status.
#[derive(Drop)]
pub(crate) struct StatusTexts {
    pub(crate) plugin_output: Text,
    pub(crate) perf_data: Text,
}

/// What is recorded of a check result.
#[derive(Clone, Copy)]
pub(crate) struct Outcome<'a> {
    /// When it came.
    pub(crate) second: u64,
    pub(crate) attempt: CheckAttempt,
    pub(crate) state: i64,
    /// All that the check said.
    pub(crate) output: &'a str,
}

impl Outcome<'_> {
    /// The status after the result, by the one before it. The only error is out of memory.
    #[tactic(auto, unfolding(crate::specs::Results::status_after))]
    pub(crate) fn status_after(self, alloc: Global, old: &Status) -> Result<Status, Memory>
        ensures { IfOk result (λ status. status ≡ status_after self.entry.second
            (attempt_of self.entry.attempt) self.entry.state self.entry.output.now old.now) }
    {
        let texts = StatusTexts {
            plugin_output: Text::new(alloc, before_bar(self.output))?,
            perf_data: Text::new(alloc, after_bar(self.output))?,
        };
        Ok(self.status_with(old, texts))
    }

    /// The same status with other texts.
    pub(crate) fn status_with(self, old: &Status, texts: StatusTexts) -> Status
        ensures { result ≡ record (status_after self.entry.second
            (attempt_of self.entry.attempt) self.entry.state self.entry.output.now old.now) {
              plugin_output = texts.plugin_output;
              perf_data = texts.perf_data;
            } }
    {
        let ok = is_ok(self.state);
        let ends = ends_acknowledgement(self.state, old);
        let changed = changes_state(self.state, old);
        let hard_changed = changes_hard(self.attempt, self.state, old);
        let numbers = StatusNumbers {
            state_type: flag_if(ok, 1, type_number(self.attempt.hard)),
            current_attempt: attempt_if(ok, 1, self.attempt.number),
            last_check: self.second,
            last_state_change: second_if(changed, self.second, old.last_state_change),
            last_hard_state_change: second_if(
                hard_changed,
                self.second,
                old.last_hard_state_change,
            ),
            acknowledged: flag_if(ends, 0, old.acknowledged),
            acknowledgement_type: flag_if(ends, 0, old.acknowledgement_type),
        };
        self.status_of(old, numbers, texts)
    }

    /// The status of a checked object, by its numbers and its texts.
    fn status_of(self, old: &Status, numbers: StatusNumbers, texts: StatusTexts) -> Status
        ensures { result ≡ record {
          state = self.entry.state;
          state_type = numbers.state_type;
          has_been_checked = 1;
          current_attempt = numbers.current_attempt;
          last_check = numbers.last_check;
          last_state_change = numbers.last_state_change;
          last_hard_state_change = numbers.last_hard_state_change;
          last_hard_state =
              if self.entry.attempt.hard then self.entry.state else old.now.last_hard_state;
          plugin_output = texts.plugin_output;
          perf_data = texts.perf_data;
          acknowledged = numbers.acknowledged;
          acknowledgement_type = numbers.acknowledgement_type;
          notifications_enabled = old.now.notifications_enabled;
        } }
    {
        let last_hard_state = if self.attempt.hard {
            self.state
        } else {
            old.last_hard_state
        };
        Status {
            state: self.state,
            state_type: numbers.state_type,
            has_been_checked: 1,
            current_attempt: numbers.current_attempt,
            last_check: numbers.last_check,
            last_state_change: numbers.last_state_change,
            last_hard_state_change: numbers.last_hard_state_change,
            last_hard_state,
            plugin_output: texts.plugin_output,
            perf_data: texts.perf_data,
            acknowledged: numbers.acknowledged,
            acknowledgement_type: numbers.acknowledgement_type,
            notifications_enabled: old.notifications_enabled,
        }
    }
}

/// The numbers without a sign that a result changes in a status.
#[derive(Clone, Copy)]
struct StatusNumbers {
    state_type: u8,
    current_attempt: u32,
    last_check: u64,
    last_state_change: u64,
    last_hard_state_change: u64,
    acknowledged: u8,
    acknowledgement_type: u8,
}

/// What stands before the first `|`.
pub(crate) fn before_bar(output: &str) -> &str
    ensures { result.now ≡ before_first is_bar output.now }
{
    match output.split_once('|') {
        Some((front, _)) => front,
        None => output,
    }
}

/// What stands after the first `|`.
pub(crate) fn after_bar(output: &str) -> &str
    ensures { result.now ≡ after_first is_bar output.now }
{
    match output.split_once('|') {
        Some((_, rest)) => rest,
        None => "",
    }
}

fn is_ok(state: i64) -> bool
    ensures { result ≡ is_ok state }
{
    state == 0
}

pub(crate) fn type_number(hard: bool) -> u8
    ensures { result ≡ type_number hard }
{
    u8::from(hard)
}

pub(crate) fn ends_acknowledgement(new: i64, old: &Status) -> bool
    ensures { result ≡ ends_acknowledgement new old.now }
{
    old.acknowledged != 0 && (new == 0 || (old.acknowledgement_type == 1 && new != old.state))
}

/// Whether the state becomes another.
fn changes_state(new: i64, old: &Status) -> bool
    ensures { result ≡ is_first_or_new new old.now.state old.now }
{
    old.has_been_checked == 0 || new != old.state
}

/// Whether the last hard state becomes another.
fn changes_hard(attempt: CheckAttempt, new: i64, old: &Status) -> bool
    ensures { result ≡ (attempt.hard && is_first_or_new new old.now.last_hard_state old.now) }
{
    attempt.hard && (old.has_been_checked == 0 || new != old.last_hard_state)
}

/// One of two seconds.
fn second_if(first: bool, a: u64, b: u64) -> u64
    ensures { result ≡ if first then a else b }
{
    if first { a } else { b }
}

fn flag_if(first: bool, a: u8, b: u8) -> u8
    ensures { result ≡ if first then a else b }
{
    if first { a } else { b }
}

fn attempt_if(first: bool, a: u32, b: u32) -> u32
    ensures { result ≡ if first then a else b }
{
    if first { a } else { b }
}
