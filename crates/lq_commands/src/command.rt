ghost use Rattle.std.specs.Prelude.{◌≡◌, IfOk};
ghost use Rattle.lq_commands.specs.Commands as Spec;
ghost use Rattle.lq_commands.specs.Reading.{GivesValue};

use crate::field::{FieldErr, Fields};
use crate::form::{AcknowledgementFields, CheckResultFields, CommentFields, DowntimeFields};
use lq_events::Act;
use lq_records::{Base, Memory, Object, ObjectKind};
use std::alloc::{AllocError, Global};

/// What a command does. One with an unknown word or a faulty field does nothing.
#[tactic(auto, unfolding(crate::specs::Commands::act_of))]
pub(crate) fn act_of(alloc: Global, base: &Base, text: &str) -> Result<Act, Memory>
    ensures { IfOk result (λ act. act ≡ Spec.act_of base.now text.now) }
{
    let mut fields = Fields::of(alloc, base, text);
    match act_in(&mut fields) {
        Ok(act) => Ok(act),
        Err(FieldErr::Faulty) => Ok(Act::Unknown),
        Err(FieldErr::Memory) => Err(AllocError),
    }
}

/// What a command does, by its fields, of which the first is its word.
#[tactic(auto, unfolding(crate::specs::Commands::act_in))]
fn act_in(fields: &mut Fields) -> Result<Act, FieldErr>
    ensures { GivesValue result (Spec.act_in fields.old) }
{
    let word = fields.next().ok_or(FieldErr::Faulty)?;
    act_by(word, fields)
}

/// What a command does, by its word and the fields after it.
#[tactic(auto, unfolding(crate::specs::Commands::act_by, crate::specs::Commands::short_act_by))]
fn act_by(word: &str, rest: &mut Fields) -> Result<Act, FieldErr>
    ensures { GivesValue result (Spec.act_by word.now rest.old) }
{
    use ObjectKind::{Host, Service};
    match word {
        "PROCESS_HOST_CHECK_RESULT" => check_result(Host, rest),
        "PROCESS_SERVICE_CHECK_RESULT" => check_result(Service, rest),
        "ADD_HOST_COMMENT" => comment(Host, rest),
        "ADD_SVC_COMMENT" => comment(Service, rest),
        "ACKNOWLEDGE_HOST_PROBLEM" => acknowledgement(Host, rest),
        "ACKNOWLEDGE_SVC_PROBLEM" => acknowledgement(Service, rest),
        "SCHEDULE_HOST_DOWNTIME" => downtime(Host, rest),
        "SCHEDULE_SVC_DOWNTIME" => downtime(Service, rest),
        _ => short_act_by(word, rest),
    }
}

/// What a command does that reads no more than a number or the name of an object, by its word and
/// the fields after it.
#[tactic(auto, unfolding(crate::specs::Commands::short_act_by))]
fn short_act_by(word: &str, rest: &mut Fields) -> Result<Act, FieldErr>
    ensures { GivesValue result (Spec.short_act_by word.now rest.old) }
{
    Ok(match word {
        "DEL_HOST_COMMENT" => Act::DelHostComment { id: rest.number()? },
        "DEL_SVC_COMMENT" => Act::DelSvcComment { id: rest.number()? },
        "REMOVE_HOST_ACKNOWLEDGEMENT" => Act::RemoveHostAcknowledgement { host: rest.host()? },
        "REMOVE_SVC_ACKNOWLEDGEMENT" => Act::RemoveSvcAcknowledgement {
            service: rest.service()?,
        },
        "DEL_HOST_DOWNTIME" => Act::DelHostDowntime { id: rest.number()? },
        "DEL_SVC_DOWNTIME" => Act::DelSvcDowntime { id: rest.number()? },
        "ENABLE_HOST_NOTIFICATIONS" => Act::EnableHostNotifications { host: rest.host()? },
        "ENABLE_SVC_NOTIFICATIONS" => Act::EnableSvcNotifications {
            service: rest.service()?,
        },
        "DISABLE_HOST_NOTIFICATIONS" => Act::DisableHostNotifications { host: rest.host()? },
        "DISABLE_SVC_NOTIFICATIONS" => Act::DisableSvcNotifications {
            service: rest.service()?,
        },
        "ENABLE_NOTIFICATIONS" => Act::EnableNotifications,
        "DISABLE_NOTIFICATIONS" => Act::DisableNotifications,
        _ => return Err(FieldErr::Faulty),
    })
}

#[tactic(auto, unfolding(crate::specs::Commands::check_result))]
fn check_result(kind: ObjectKind, fields: &mut Fields) -> Result<Act, FieldErr>
    ensures { GivesValue result (Spec.check_result kind fields.old) }
{
    let object = fields.object(kind)?;
    let found = fields.check_result(kind)?;
    Ok(check_result_act(object, found))
}

#[tactic(auto, unfolding(crate::specs::Commands::comment))]
fn comment(kind: ObjectKind, fields: &mut Fields) -> Result<Act, FieldErr>
    ensures { GivesValue result (Spec.comment kind fields.old) }
{
    let object = fields.object(kind)?;
    let comment = fields.comment()?;
    Ok(comment_act(object, comment))
}

#[tactic(auto, unfolding(crate::specs::Commands::acknowledgement))]
fn acknowledgement(kind: ObjectKind, fields: &mut Fields) -> Result<Act, FieldErr>
    ensures { GivesValue result (Spec.acknowledgement kind fields.old) }
{
    let object = fields.object(kind)?;
    let given = fields.acknowledgement()?;
    Ok(acknowledgement_act(object, given))
}

#[tactic(auto, unfolding(crate::specs::Commands::downtime))]
fn downtime(kind: ObjectKind, fields: &mut Fields) -> Result<Act, FieldErr>
    ensures { GivesValue result (Spec.downtime kind fields.old) }
{
    let object = fields.object(kind)?;
    let downtime = fields.downtime()?;
    Ok(downtime_act(object, downtime))
}

fn check_result_act(object: Object, found: CheckResultFields) -> Act
    ensures { result ≡ Spec.check_result_act object found }
{
    let CheckResultFields { code, output } = found;
    match object {
        Object::Host(host) => Act::ProcessHostCheckResult { host, code, output },
        Object::Service(service) => Act::ProcessServiceCheckResult {
            service,
            code,
            output,
        },
    }
}

fn comment_act(object: Object, comment: CommentFields) -> Act
    ensures { result ≡ Spec.comment_act object comment }
{
    let CommentFields {
        persistent,
        author,
        text,
    } = comment;
    match object {
        Object::Host(host) => Act::AddHostComment {
            host,
            persistent,
            author,
            text,
        },
        Object::Service(service) => Act::AddSvcComment {
            service,
            persistent,
            author,
            text,
        },
    }
}

fn acknowledgement_act(object: Object, given: AcknowledgementFields) -> Act
    ensures { result ≡ Spec.acknowledgement_act object given }
{
    let AcknowledgementFields {
        sticky,
        notify,
        comment,
    } = given;
    let CommentFields {
        persistent,
        author,
        text,
    } = comment;
    match object {
        Object::Host(host) => Act::AcknowledgeHostProblem {
            host,
            sticky,
            notify,
            persistent,
            author,
            text,
        },
        Object::Service(service) => Act::AcknowledgeSvcProblem {
            service,
            sticky,
            notify,
            persistent,
            author,
            text,
        },
    }
}

fn downtime_act(object: Object, downtime: DowntimeFields) -> Act
    ensures { result ≡ Spec.downtime_act object downtime }
{
    let DowntimeFields {
        start,
        end,
        fixed,
        trigger_id,
        duration,
        author,
        text,
    } = downtime;
    match object {
        Object::Host(host) => Act::ScheduleHostDowntime {
            host,
            start,
            end,
            fixed,
            trigger_id,
            duration,
            author,
            text,
        },
        Object::Service(service) => Act::ScheduleSvcDowntime {
            service,
            start,
            end,
            fixed,
            trigger_id,
            duration,
            author,
            text,
        },
    }
}
