ghost use Rattle.std.specs.Prelude.{◌≡◌, ◌++◌, true, IfOk, OnOk};
ghost use Rattle.lq_live.specs.Effects.{comment_of_fields, comment_of};
ghost use Rattle.lq_live.specs.Kept.{state_at};
ghost use Rattle.lq_live.specs.StepEdits.{Adds, acknowledge_edits, acknowledge_edits_in};
ghost use Rattle.lq_live.specs.StepEdits.{comment_edits, effect_in, is_of_acknowledgements};
ghost use Rattle.lq_live.specs.StepEdits.{is_of_comments, remove_acknowledgement_edits};

use crate::comments::{ACKNOWLEDGEMENT_COMMENT, USER_COMMENT};
use crate::context::StepContext;
use crate::edit::Edit;
use crate::effect::push;
use lq_events::{Act, Comment};
use lq_records::{Memory, Object, ObjectKind, Text};

/// A comment as a command gives it. It is persistent where the number isn't 0.
#[derive(Clone, Copy)]
struct NewComment<'a> {
    persistent: u64,
    author: &'a str,
    text: &'a str,
}

/// An acknowledgement as a command gives it: sticky where the number is 2.
#[derive(Clone, Copy)]
struct Acknowledgement<'a> {
    sticky: u64,
    comment: NewComment<'a>,
}

fn new_comment<'a>(persistent: u64, author: &'a Text, text: &'a Text) -> NewComment<'a>
    ensures persistent { result.persistent ≡ persistent }
    ensures author { result.author.now ≡ author.now }
    ensures text { result.text.now ≡ text.now }
{
    NewComment {
        persistent,
        author: author.as_str(),
        text: text.as_str(),
    }
}

impl<'a> StepContext<'a> {
    /// Adds the edits of a command on comments.
    pub(crate) fn push_comments(self, edits: &mut Vec<Edit>, act: &Act) -> Result<(), Memory>
        requires { is_of_comments act.now ≡ true }
        ensures { OnOk result (Adds edits.old.items edits.new.items
            (effect_in self.entry.second self.entry.live.now act.now)) }
    {
        match act {
            Act::AddHostComment {
                host,
                persistent,
                author,
                text,
            } => {
                let comment = new_comment(*persistent, author, text);
                self.add_comment(edits, Object::Host(*host), comment)
            }
            Act::AddSvcComment {
                service,
                persistent,
                author,
                text,
            } => {
                let comment = new_comment(*persistent, author, text);
                self.add_comment(edits, Object::Service(*service), comment)
            }
            Act::DelHostComment { id } => {
                let kind = ObjectKind::Host;
                push(edits, Edit::RemoveComment { kind, id: *id })
            }
            Act::DelSvcComment { id } => {
                let kind = ObjectKind::Service;
                push(edits, Edit::RemoveComment { kind, id: *id })
            }
            _ => Ok(()),
        }
    }

    fn add_comment(
        self,
        edits: &mut Vec<Edit>,
        object: Object,
        comment: NewComment<'_>,
    ) -> Result<(), Memory>
        ensures { OnOk result (Adds edits.old.items edits.new.items (comment_edits object
            (comment_of_fields comment.entry.persistent comment.entry.author.now
            comment.entry.text.now)
            (state_at self.entry.second self.entry.live.now))) }
    {
        if !self.holds_object(object) {
            return Ok(());
        }
        let comment = self.comment_of(USER_COMMENT, object, comment)?;
        push(edits, Edit::AddComment(comment))
    }

    /// Adds the edits of a command on acknowledgements.
    pub(crate) fn push_acknowledgements(
        self,
        edits: &mut Vec<Edit>,
        act: &Act,
    ) -> Result<(), Memory>
        requires { is_of_acknowledgements act.now ≡ true }
        ensures { OnOk result (Adds edits.old.items edits.new.items
            (effect_in self.entry.second self.entry.live.now act.now)) }
    {
        match act {
            Act::AcknowledgeHostProblem {
                host,
                sticky,
                notify: _,
                persistent,
                author,
                text,
            } => {
                let acknowledgement = Acknowledgement {
                    sticky: *sticky,
                    comment: new_comment(*persistent, author, text),
                };
                self.acknowledge(edits, Object::Host(*host), acknowledgement)
            }
            Act::AcknowledgeSvcProblem {
                service,
                sticky,
                notify: _,
                persistent,
                author,
                text,
            } => {
                let acknowledgement = Acknowledgement {
                    sticky: *sticky,
                    comment: new_comment(*persistent, author, text),
                };
                self.acknowledge(edits, Object::Service(*service), acknowledgement)
            }
            Act::RemoveHostAcknowledgement { host } => {
                self.remove_acknowledgement(edits, Object::Host(*host))
            }
            Act::RemoveSvcAcknowledgement { service } => {
                self.remove_acknowledgement(edits, Object::Service(*service))
            }
            _ => Ok(()),
        }
    }

    fn acknowledge(
        self,
        edits: &mut Vec<Edit>,
        object: Object,
        given: Acknowledgement<'_>,
    ) -> Result<(), Memory>
        ensures { OnOk result (Adds edits.old.items edits.new.items (acknowledge_edits object
            given.entry.sticky (comment_of_fields given.entry.comment.persistent
            given.entry.comment.author.now given.entry.comment.text.now)
            (state_at self.entry.second self.entry.live.now))) }
    {
        let Some(old) = self.status_of(object) else {
            return Ok(());
        };
        if old.state == 0 {
            return Ok(());
        }
        let kind = if given.sticky == 2 { 2 } else { 1 };
        edits.push(Edit::SetAcknowledgement(object, kind))?;
        let comment = self.comment_of(ACKNOWLEDGEMENT_COMMENT, object, given.comment)?;
        edits.push(Edit::AddComment(comment))?;
        Ok(())
    }

    fn remove_acknowledgement(self, edits: &mut Vec<Edit>, object: Object) -> Result<(), Memory>
        ensures { OnOk result (Adds edits.old.items edits.new.items (remove_acknowledgement_edits
            object (state_at self.entry.second self.entry.live.now))) }
    {
        if !self.holds_object(object) {
            return Ok(());
        }
        edits.push(Edit::SetAcknowledgement(object, 0))?;
        edits.push(Edit::EndAcknowledgement(object))?;
        Ok(())
    }

    /// The comment of an entry type that somebody makes on an object.
    fn comment_of(
        self,
        entry_type: u8,
        object: Object,
        comment: NewComment<'_>,
    ) -> Result<Comment, Memory>
        ensures { IfOk result (λ made. made ≡ comment_of entry_type object
            (comment_of_fields comment.entry.persistent comment.entry.author.now
            comment.entry.text.now)
            (state_at self.entry.second self.entry.live.now)) }
    {
        let author = Text::new(self.alloc, comment.author)?;
        let text = Text::new(self.alloc, comment.text)?;
        Ok(Comment {
            id: self.live.next_comment,
            object,
            author,
            text,
            time: self.second,
            entry_type,
            persistent: u8::from(comment.persistent != 0),
        })
    }
}
