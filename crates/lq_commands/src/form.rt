ghost use Rattle.std.specs.Prelude.{◌≡◌, OnOk};
ghost use Rattle.lq_commands.specs.Fields.{later};
ghost use Rattle.lq_commands.specs.Forms.{acknowledgement_in, after_object, check_result_in};
ghost use Rattle.lq_commands.specs.Forms.{code_in, comment_in, downtime_in, most_code_of_kind};
ghost use Rattle.lq_commands.specs.Forms.{object_in};
ghost use Rattle.lq_commands.specs.Reading.{GivesValue};

use crate::field::{FieldErr, Fields};
use lq_records::{Object, ObjectKind, Text};

/// `code;output`
#[derive(Drop)]
pub(crate) struct CheckResultFields {
    pub(crate) code: u64,
    pub(crate) output: Text,
}

/// `persistent;author;text`
#[derive(Drop)]
pub(crate) struct CommentFields {
    pub(crate) persistent: u64,
    pub(crate) author: Text,
    pub(crate) text: Text,
}

/// `sticky;notify;persistent;author;text`
#[derive(Drop)]
pub(crate) struct AcknowledgementFields {
    pub(crate) sticky: u64,
    pub(crate) notify: u64,
    pub(crate) comment: CommentFields,
}

/// `start;end;fixed;trigger_id;duration;author;text`. The start and the end are seconds counted
/// from the beginning of 1970, the duration is in seconds.
#[derive(Drop)]
pub(crate) struct DowntimeFields {
    pub(crate) start: u64,
    pub(crate) end: u64,
    pub(crate) fixed: u64,
    pub(crate) trigger_id: u64,
    pub(crate) duration: u64,
    pub(crate) author: Text,
    pub(crate) text: Text,
}

impl<'a> Fields<'a> {
    /// Takes the fields that name a host or a service.
    #[tactic(auto, unfolding(crate::specs::Forms::object_in))]
    pub(crate) fn object(&mut self, kind: ObjectKind) -> Result<Object, FieldErr>
        ensures value { GivesValue result (object_in kind self.old) }
        ensures rest { OnOk result (self.new ≡ after_object kind self.old) }
    {
        match kind {
            ObjectKind::Host => Ok(Object::Host(self.host()?)),
            ObjectKind::Service => Ok(Object::Service(self.service()?)),
        }
    }

    /// Takes the code of a check's result.
    #[tactic(auto, unfolding(crate::specs::Forms::code_in))]
    fn code(&mut self, kind: ObjectKind) -> Result<u64, FieldErr>
        ensures value { GivesValue result (code_in kind self.old) }
        ensures rest { OnOk result (self.new ≡ later self.old) }
    {
        let code = self.number()?;
        if code <= most_code_of_kind(kind) {
            Ok(code)
        } else {
            Err(FieldErr::Faulty)
        }
    }

    /// Takes a check's result, whose output is empty where it is missing.
    #[tactic(auto, unfolding(crate::specs::Forms::check_result_in))]
    pub(crate) fn check_result(&mut self, kind: ObjectKind) -> Result<CheckResultFields, FieldErr>
        ensures { GivesValue result (check_result_in kind self.old) }
    {
        let code = self.code(kind)?;
        let output = self.last_text_or_empty()?;
        Ok(CheckResultFields { code, output })
    }

    /// Takes the fields of a comment.
    #[tactic(auto, unfolding(crate::specs::Forms::comment_in))]
    pub(crate) fn comment(&mut self) -> Result<CommentFields, FieldErr>
        ensures { GivesValue result (comment_in self.old) }
    {
        let persistent = self.number()?;
        let author = self.text()?;
        let text = self.last_text()?;
        Ok(CommentFields {
            persistent,
            author,
            text,
        })
    }

    /// Takes the fields of an acknowledgement.
    #[tactic(auto, unfolding(crate::specs::Forms::acknowledgement_in))]
    pub(crate) fn acknowledgement(&mut self) -> Result<AcknowledgementFields, FieldErr>
        ensures { GivesValue result (acknowledgement_in self.old) }
    {
        let sticky = self.number()?;
        let notify = self.number()?;
        let comment = self.comment()?;
        Ok(AcknowledgementFields {
            sticky,
            notify,
            comment,
        })
    }

    /// Takes the fields of a downtime.
    #[tactic(auto, unfolding(crate::specs::Forms::downtime_in))]
    pub(crate) fn downtime(&mut self) -> Result<DowntimeFields, FieldErr>
        ensures { GivesValue result (downtime_in self.old) }
    {
        let start = self.second()?;
        let end = self.second()?;
        let fixed = self.number()?;
        let trigger_id = self.number()?;
        let duration = self.number()?;
        let author = self.text()?;
        let text = self.last_text()?;
        Ok(DowntimeFields {
            start,
            end,
            fixed,
            trigger_id,
            duration,
            author,
            text,
        })
    }
}

/// The largest code of a check's result: 0 to 2 are a host's states, 0 to 3 a service's. A larger
/// one is faulty.
fn most_code_of_kind(kind: ObjectKind) -> u64
    ensures { result ≡ most_code_of_kind kind }
{
    match kind {
        ObjectKind::Host => 2,
        ObjectKind::Service => 3,
    }
}
