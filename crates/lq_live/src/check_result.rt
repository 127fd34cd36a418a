ghost use Rattle.std.specs.Prelude.{◌≡◌, ◌≤◌, ◌++◌, ◌&&◌, pos, true, if◌then◌else◌, IfOk, OnOk};
ghost use Rattle.std.specs.Arc.{arc_value};
ghost use Rattle.std.specs.List.{before_first};
ghost use Rattle.lq_live.specs.Downtimes.{only_if};
ghost use Rattle.lq_live.specs.Effects.{alert_line};
ghost use Rattle.lq_live.specs.Kept.{state_at};
ghost use Rattle.lq_live.specs.Results.{check_attempt, differs, ends_acknowledgement, hard_at};
ghost use Rattle.lq_live.specs.Results.{most_attempts, most_code, service_attempt};
ghost use Rattle.lq_live.specs.State.{line_names, names_of, object_status};
ghost use Rattle.lq_live.specs.StepEdits.{Adds, attempt_of, check_edits, effect_in, is_of_checks};
ghost use Rattle.lq_live.specs.StepEdits.{known_edits, result_edits};
ghost use Rattle.lq_live.specs.declared.edit.Edit.TheVariants as edit;

use crate::context::StepContext;
use crate::edit::Edit;
use crate::names::ObjectNames;
use crate::outcome::{CheckAttempt, Outcome, before_bar, ends_acknowledgement, type_number};
use lq_events::{Act, LogEntry, Status};
use lq_log::{Form, make_line};
use lq_records::{Base, Memory, Object, ServiceId, Text};

/// A check result as a command gives it.
#[derive(Clone, Copy)]
struct PassiveCheck<'a> {
    object: Object,
    code: u64,
    output: &'a str,
}

/// A check result of an object that the base holds.
#[derive(Clone, Copy)]
struct CheckResult<'a> {
    object: Object,
    name: ObjectNames<'a>,
    state: i64,
    attempt: CheckAttempt,
    output: &'a str,
}

impl<'a> CheckResult<'a> {
    /// What is recorded of it at a second.
    fn outcome(self, second: u64) -> Outcome<'a>
        ensures second { result.second ≡ second }
        ensures attempt { attempt_of result.attempt ≡ attempt_of self.entry.attempt }
        ensures state { result.state ≡ self.entry.state }
        ensures output { result.output.now ≡ self.entry.output.now }
    {
        Outcome {
            second,
            attempt: self.attempt,
            state: self.state,
            output: self.output,
        }
    }
}

impl<'a> StepContext<'a> {
    /// Adds the edits of a command that gives a check result.
    pub(crate) fn push_checks(self, edits: &mut Vec<Edit>, act: &Act) -> Result<(), Memory>
        requires { is_of_checks act.now ≡ true }
        ensures { OnOk result (Adds edits.old.items edits.new.items
            (effect_in self.entry.second self.entry.live.now act.now)) }
    {
        match act {
            Act::ProcessHostCheckResult { host, code, output } => {
                let check = PassiveCheck {
                    object: Object::Host(*host),
                    code: *code,
                    output: output.as_str(),
                };
                self.push_check(edits, check)
            }
            Act::ProcessServiceCheckResult {
                service,
                code,
                output,
            } => {
                let check = PassiveCheck {
                    object: Object::Service(*service),
                    code: *code,
                    output: output.as_str(),
                };
                self.push_check(edits, check)
            }
            _ => Ok(()),
        }
    }

    fn push_check(self, edits: &mut Vec<Edit>, check: PassiveCheck<'_>) -> Result<(), Memory>
        ensures { OnOk result (Adds edits.old.items edits.new.items (check_edits
            check.entry.object check.entry.code check.entry.output.now
            (state_at self.entry.second self.entry.live.now))) }
    {
        if check.code > most_code(check.object) {
            return Ok(());
        }
        self.push_result(edits, check)
    }

    /// Adds the edits of a result whose code the object can have.
    fn push_result(self, edits: &mut Vec<Edit>, check: PassiveCheck<'_>) -> Result<(), Memory>
        requires { check.code ≤ 3 }
        ensures { OnOk result (Adds edits.old.items edits.new.items (result_edits
            self.entry.second (arc_value self.entry.live.now.base) check.entry.object
            (pos check.entry.code) check.entry.output.now
            (names_of (arc_value self.entry.live.now.base) check.entry.object)
            (object_status (state_at self.entry.second self.entry.live.now) check.entry.object))) }
    {
        let Some(name) = self.name_of(check.object) else {
            return Ok(());
        };
        let Some(old) = self.status_of(check.object) else {
            return Ok(());
        };
        let state = check.code as i64;
        let result = CheckResult {
            object: check.object,
            name,
            state,
            attempt: check_attempt(&self.live.base, check.object, state, old),
            output: check.output,
        };
        self.push_known(edits, result, old)
    }

    /// Adds the edits of a result, by the status before it.
    #[tactic(auto, using(std::proofs::Common::append_assoc))]
    fn push_known(
        self,
        edits: &mut Vec<Edit>,
        check: CheckResult<'_>,
        old: &Status,
    ) -> Result<(), Memory>
        ensures { OnOk result (Adds edits.old.items edits.new.items (known_edits
            self.entry.second check.entry.object
            (line_names check.entry.name.host.now check.entry.name.service.now)
            (attempt_of check.entry.attempt) check.entry.state check.entry.output.now old.now)) }
    {
        self.push_alert(edits, check, old)?;
        push_end(edits, check, old)?;
        let status = check.outcome(self.second).status_after(self.alloc, old)?;
        edits.push(Edit::SetStatus(check.object, status))?;
        Ok(())
    }

    /// The alert line, where state, type or attempt differ from before.
    fn push_alert(
        self,
        edits: &mut Vec<Edit>,
        check: CheckResult<'_>,
        old: &Status,
    ) -> Result<(), Memory>
        ensures { OnOk result (Adds edits.old.items edits.new.items (only_if
            (differs (attempt_of check.entry.attempt) check.entry.state old.now)
            (edit.Line (alert_line self.entry.second
            (line_names check.entry.name.host.now check.entry.name.service.now)
            (attempt_of check.entry.attempt) check.entry.state check.entry.output.now)))) }
    {
        if !differs(check.attempt, check.state, old) {
            return Ok(());
        }
        edits.push(Edit::Line(self.alert_line(check)?))?;
        Ok(())
    }

    #[tactic(auto, unfolding(crate::specs::Effects::alert_line))]
    fn alert_line(self, check: CheckResult<'_>) -> Result<LogEntry, Memory>
        ensures { IfOk result (λ entry. entry ≡ alert_line self.entry.second
            (line_names check.entry.name.host.now check.entry.name.service.now)
            (attempt_of check.entry.attempt) check.entry.state check.entry.output.now) }
    {
        let form = Form::Alert {
            host: check.name.host.clone()?,
            service: Text::new(self.alloc, check.name.service)?,
            state: check.state,
            hard: check.attempt.hard,
            attempt: check.attempt.number,
            output: Text::new(self.alloc, before_bar(check.output))?,
        };
        make_line(self.alloc, self.second, &form)
    }
}

/// The end of the acknowledgement, where it ends.
/// Where it doesn't end no comment can go, so the comments aren't walked.
fn push_end(edits: &mut Vec<Edit>, check: CheckResult<'_>, old: &Status) -> Result<(), Memory>
    ensures { OnOk result (Adds edits.old.items edits.new.items (only_if
        (ends_acknowledgement check.entry.state old.now)
        (edit.EndAcknowledgement check.entry.object))) }
{
    if !ends_acknowledgement(check.state, old) {
        return Ok(());
    }
    edits.push(Edit::EndAcknowledgement(check.object))?;
    Ok(())
}

fn hard_at(number: u32) -> CheckAttempt
    ensures { attempt_of result ≡ hard_at number }
{
    CheckAttempt { hard: true, number }
}

fn check_attempt(base: &Base, object: Object, new: i64, old: &Status) -> CheckAttempt
    ensures { attempt_of result ≡ check_attempt base.now object new old.now }
{
    match object {
        Object::Host(_) => hard_at(1),
        Object::Service(id) => service_attempt(most_attempts(base, id), new, old),
    }
}

/// Type and attempt of a service's result, by its largest number of attempts.
fn service_attempt(most: u32, new: i64, old: &Status) -> CheckAttempt
    ensures { attempt_of result ≡ service_attempt most new old.now }
{
    let raised = u64::from(old.current_attempt) + 1;
    let capped = raised.min(u64::from(most)) as u32;
    let soft = old.state_type == 0;
    if new == 0 {
        if old.state != 0 && soft {
            return CheckAttempt {
                hard: false,
                number: capped,
            };
        }
        return hard_at(1);
    }
    if old.state == 0 {
        return CheckAttempt {
            hard: most == 1,
            number: 1,
        };
    }
    if soft {
        return CheckAttempt {
            hard: u64::from(most) <= raised,
            number: capped,
        };
    }
    hard_at(old.current_attempt)
}

fn differs(attempt: CheckAttempt, new: i64, old: &Status) -> bool
    ensures { result ≡ differs (attempt_of attempt) new old.now }
{
    !(new == old.state
        && type_number(attempt.hard) == old.state_type
        && attempt.number == old.current_attempt)
}

fn most_attempts(base: &Base, id: ServiceId) -> u32
    ensures { result ≡ most_attempts base.now id.0 }
{
    match base.services.as_slice().get(id.0 as usize) {
        Some(service) => service.fields.max_check_attempts,
        None => 1,
    }
}

fn most_code(object: Object) -> u64
    ensures value { result ≡ most_code object }
    ensures small { result ≤ 3 }
{
    match object {
        Object::Host(_) => 2,
        Object::Service(_) => 3,
    }
}
