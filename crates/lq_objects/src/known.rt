ghost use Rattle.std.specs.Prelude.{◌≡◌, ◌==◌, ◌&&◌, ◌∷◌, [], find, slice_index};
ghost use Rattle.lq_objects.specs.Blocks.{is_named};
ghost use Rattle.lq_objects.specs.Needed.{directive_word, directives, known_directive};
ghost use Rattle.lq_objects.specs.declared.known.Directive.TheVariants.{CheckCommand, CheckPeriod};
ghost use Rattle.lq_objects.specs.declared.known.Directive.TheVariants.{CommandLine, CommandName};
ghost use Rattle.lq_objects.specs.declared.known.Directive.TheVariants.{ContactGroupName};
ghost use Rattle.lq_objects.specs.declared.known.Directive.TheVariants.{ContactGroups, ContactName};
ghost use Rattle.lq_objects.specs.declared.known.Directive.TheVariants.{Contacts, Notes, NotesUrl};
ghost use Rattle.lq_objects.specs.declared.known.Directive.TheVariants.{NotificationPeriod};
ghost use Rattle.lq_objects.specs.declared.known.Directive.TheVariants.{NotificationsEnabled};

use crate::line::is_named;

/// A directive that says something of an object of some kind.
#[derive(Clone, Copy, PartialEq, Eq)]
pub(crate) enum Directive {
    ActionUrl,
    Address,
    Alias,
    CheckCommand,
    CheckPeriod,
    CommandLine,
    CommandName,
    ContactGroups,
    ContactName,
    Contacts,
    ContactGroupName,
    DisplayName,
    Email,
    HostName,
    HostNotificationPeriod,
    HostGroupName,
    IconImage,
    MaxCheckAttempts,
    Members,
    Notes,
    NotesUrl,
    NotificationPeriod,
    NotificationsEnabled,
    Pager,
    Parents,
    Register,
    ServiceDescription,
    ServiceNotificationPeriod,
    ServiceGroupName,
    TimePeriodName,
    Use,
}

impl Directive {
    /// The directive that a text is, where it is a known one.
    pub(crate) fn of_text(text: &[u8]) -> Option<Self>
        ensures { result ≡ known_directive text.now }
    {
        match text.first() {
            Some(first) => told_by(*first, text),
            None => None,
        }
    }

    /// The word at the front of its lines.
    #[inline(always)]
    pub(crate) fn word(self) -> &'static [u8]
        ensures { result.now ≡ directive_word self }
    {
        match self {
            Directive::ActionUrl => b"action_url".as_slice(),
            Directive::Address => b"address".as_slice(),
            Directive::Alias => b"alias".as_slice(),
            Directive::CheckCommand => b"check_command".as_slice(),
            Directive::CheckPeriod => b"check_period".as_slice(),
            Directive::CommandLine => b"command_line".as_slice(),
            Directive::CommandName => b"command_name".as_slice(),
            Directive::ContactGroups => b"contact_groups".as_slice(),
            Directive::ContactName => b"contact_name".as_slice(),
            Directive::Contacts => b"contacts".as_slice(),
            Directive::ContactGroupName => b"contactgroup_name".as_slice(),
            Directive::DisplayName => b"display_name".as_slice(),
            Directive::Email => b"email".as_slice(),
            Directive::HostName => b"host_name".as_slice(),
            Directive::HostNotificationPeriod => b"host_notification_period".as_slice(),
            Directive::HostGroupName => b"hostgroup_name".as_slice(),
            Directive::IconImage => b"icon_image".as_slice(),
            Directive::MaxCheckAttempts => b"max_check_attempts".as_slice(),
            Directive::Members => b"members".as_slice(),
            Directive::Notes => b"notes".as_slice(),
            Directive::NotesUrl => b"notes_url".as_slice(),
            Directive::NotificationPeriod => b"notification_period".as_slice(),
            Directive::NotificationsEnabled => b"notifications_enabled".as_slice(),
            Directive::Pager => b"pager".as_slice(),
            Directive::Parents => b"parents".as_slice(),
            Directive::Register => b"register".as_slice(),
            Directive::ServiceDescription => b"service_description".as_slice(),
            Directive::ServiceNotificationPeriod => b"service_notification_period".as_slice(),
            Directive::ServiceGroupName => b"servicegroup_name".as_slice(),
            Directive::TimePeriodName => b"timeperiod_name".as_slice(),
            Directive::Use => b"use".as_slice(),
        }
    }
}

/// The directive that a text with a first byte is. The byte leaves eight of the 31 at most.
#[tactic(auto, unfolding(crate::specs::Needed::directives))]
fn told_by(first: u8, text: &[u8]) -> Option<Directive>
    ensures { result ≡ find (λ one. (first == slice_index (directive_word one) 0)
        && is_named (directive_word one) text.now) directives }
{
    match first {
        b'a' => one_of_three(
            text,
            Directive::ActionUrl,
            Directive::Address,
            Directive::Alias,
        ),
        b'c' => with_c(text),
        b'd' => one(text, Directive::DisplayName),
        b'e' => one(text, Directive::Email),
        b'h' => one_of_three(
            text,
            Directive::HostName,
            Directive::HostNotificationPeriod,
            Directive::HostGroupName,
        ),
        b'i' => one(text, Directive::IconImage),
        b'm' => one_of_two(text, Directive::MaxCheckAttempts, Directive::Members),
        b'n' => with_n(text),
        b'p' => one_of_two(text, Directive::Pager, Directive::Parents),
        b'r' => one(text, Directive::Register),
        b's' => one_of_three(
            text,
            Directive::ServiceDescription,
            Directive::ServiceNotificationPeriod,
            Directive::ServiceGroupName,
        ),
        b't' => one(text, Directive::TimePeriodName),
        b'u' => one(text, Directive::Use),
        _ => None,
    }
}

/// The directive with a `c` at the front that a text is.
#[inline(always)]
fn with_c(text: &[u8]) -> Option<Directive>
    ensures { result ≡ find (λ one. is_named (directive_word one) text.now)
        (CheckCommand ∷ CheckPeriod ∷ CommandLine ∷ CommandName ∷ ContactGroups ∷ ContactName
        ∷ Contacts ∷ ContactGroupName ∷ []) }
{
    if is_named(Directive::CheckCommand.word(), text) {
        return Some(Directive::CheckCommand);
    }
    if is_named(Directive::CheckPeriod.word(), text) {
        return Some(Directive::CheckPeriod);
    }
    if is_named(Directive::CommandLine.word(), text) {
        return Some(Directive::CommandLine);
    }
    if is_named(Directive::CommandName.word(), text) {
        return Some(Directive::CommandName);
    }
    if is_named(Directive::ContactGroups.word(), text) {
        return Some(Directive::ContactGroups);
    }
    one_of_three(
        text,
        Directive::ContactName,
        Directive::Contacts,
        Directive::ContactGroupName,
    )
}

/// The directive with an `n` at the front that a text is.
#[inline(always)]
fn with_n(text: &[u8]) -> Option<Directive>
    ensures { result ≡ find (λ one. is_named (directive_word one) text.now)
        (Notes ∷ NotesUrl ∷ NotificationPeriod ∷ NotificationsEnabled ∷ []) }
{
    if is_named(Directive::Notes.word(), text) {
        return Some(Directive::Notes);
    }
    one_of_three(
        text,
        Directive::NotesUrl,
        Directive::NotificationPeriod,
        Directive::NotificationsEnabled,
    )
}

/// The first of three directives that a text is.
#[inline(always)]
fn one_of_three(
    text: &[u8],
    first: Directive,
    second: Directive,
    third: Directive,
) -> Option<Directive>
    ensures { result ≡ find (λ one. is_named (directive_word one) text.now)
        (first ∷ second ∷ third ∷ []) }
{
    if is_named(first.word(), text) {
        Some(first)
    } else {
        one_of_two(text, second, third)
    }
}

/// The first of two directives that a text is.
#[inline(always)]
fn one_of_two(text: &[u8], first: Directive, second: Directive) -> Option<Directive>
    ensures { result ≡ find (λ one. is_named (directive_word one) text.now)
        (first ∷ second ∷ []) }
{
    if is_named(first.word(), text) {
        Some(first)
    } else {
        one(text, second)
    }
}

/// A directive, where a text is it.
#[inline(always)]
fn one(text: &[u8], known: Directive) -> Option<Directive>
    ensures { result ≡ find (λ one. is_named (directive_word one) text.now) (known ∷ []) }
{
    if is_named(known.word(), text) {
        Some(known)
    } else {
        None
    }
}
