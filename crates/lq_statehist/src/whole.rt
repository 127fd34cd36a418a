ghost use Rattle.std.specs.Prelude.{◌≡◌, ◌≤◌, ◌<◌, ◌+◌, ◌^◌, ◌++◌, ◌∷◌, [], Err, IfOk, OnOk};
ghost use Rattle.std.specs.Prelude.{length, map, filter};
ghost use Rattle.std.specs.List.{AllByRecursion, enumerate_from};
ghost use Rattle.lq_auth.specs.Rights.{sees_object};
ghost use Rattle.lq_log.specs.Book.{InOrder};
ghost use Rattle.lq_records.specs.Sound.{IsSound};
ghost use Rattle.lq_statehist.specs.History.{history};
ghost use Rattle.lq_statehist.specs.Notes.{lines_below, notes_of};
ghost use Rattle.lq_statehist.specs.Pass.{subject_of_lines};
ghost use Rattle.lq_statehist.specs.Slices.{histories, host_subject, most_slices, seen_subjects};
ghost use Rattle.lq_statehist.specs.Slices.{service_subject, slices_of};
ghost use Rattle.lq_statehist.specs.Sorted.{AreSorted, IsHosted, below};
ghost use Rattle.lq_statehist.specs.declared.slice.HistErr.TheVariants.{TooMany};

use crate::notes::Notes;
use crate::pass::history;
use crate::slice::{HistErr, Slice};
use crate::span::Span;
use crate::subject::Subject;
use lq_auth::View;
use lq_live::Live;
use lq_records::{Base, Host, HostId, Memory, Object, Service, ServiceId};
use lq_steps::Steps;
use std::alloc::Global;
use std::sync::ledger::Ledger;

/// The history that the log tells of the objects that a query sees, from a second up to before
/// another, counted from the beginning of 1970: hosts, then services, in the order of the base, and
/// of each its slices in the order of time. They follow one another from the first second up to
/// before the last; at each second of a slice the log tells the same, and no two neighbours tell
/// the same. There are none where `until` isn't later than `from`. Each line before `until` is read
/// once, and one more; that is one step each. `TooMany` exactly where there would be more than
/// 1,000,000 slices, unless memory runs out.
pub fn slices<G: Ledger>(
    alloc: Global,
    live: &Live,
    view: &View,
    from: u64,
    until: u64,
    steps: &mut Steps<G>,
) -> Result<Vec<Slice>, HistErr>
    ensures all { IfOk result (λ slices. slices.items
        ≡ slices_of live.now.state.base view.now live.now.state.log from until) }
    ensures few { IfOk result (λ slices. length slices.items ≤ most_slices) }
    ensures many { result ≡ Err TooMany → most_slices
        < length (slices_of live.now.state.base view.now live.now.state.log from until) }
    ensures cost { steps.new ≤ steps.old + lines_below until live.now.state.log + 1 }
{
    let notes = Notes::before(alloc, live.base(), live.log(), until, steps)?;
    let subjects = seen_subjects(alloc, live.base(), view)?;
    histories(alloc, live, &notes, &subjects, Span { from, until })
}

/// The histories of objects, by what the log says.
fn histories<'a>(
    alloc: Global,
    live: &Live,
    notes: &Notes<'a>,
    subjects: &[Subject<'a>],
    span: Span,
) -> Result<Vec<Slice>, HistErr>
    requires sorted { AreSorted notes.now live.now.state.base
        (below span.until (notes_of live.now.state.base live.now.state.log)) }
    requires order { InOrder live.now.state.log }
    requires hosted { AllByRecursion (IsHosted live.now.state.base)
        (map subject_of_lines subjects.now) }
    ensures all { IfOk result (λ slices. slices.items
        ≡ histories live.now.state.base live.now.state.log span.from span.until
        (map subject_of_lines subjects.now)) }
    ensures few { IfOk result (λ slices. length slices.items ≤ most_slices) }
    ensures many { result ≡ Err TooMany → most_slices
        < length (histories live.now.state.base live.now.state.log span.from span.until
        (map subject_of_lines subjects.now)) }
{
    let mut slices = Vec::new(alloc);
    for about in subjects {
        match tell(&mut slices, live, notes, about, span) {
            Ok(()) => {}
            Err(error) => return Err(error),
        }
    }
    Ok(slices)
}

/// Adds the history of an object.
fn tell<'a>(
    slices: &mut Vec<Slice>,
    live: &Live,
    notes: &Notes<'a>,
    about: &Subject<'a>,
    span: Span,
) -> Result<(), HistErr>
    requires sorted { AreSorted notes.now live.now.state.base
        (below span.until (notes_of live.now.state.base live.now.state.log)) }
    requires order { InOrder live.now.state.log }
    requires hosted { IsHosted live.now.state.base (subject_of_lines about.now) }
    ensures ok { OnOk result (slices.new.items ≡ slices.old.items
        ++ history (subject_of_lines about.now) (notes_of live.now.state.base live.now.state.log)
        span.from span.until) }
    ensures many { result ≡ Err TooMany → most_slices < length (slices.old.items
        ++ history (subject_of_lines about.now) (notes_of live.now.state.base live.now.state.log)
        span.from span.until) }
    ensures most { OnOk result (length slices.old.items ≤ most_slices
        → length slices.new.items ≤ most_slices) }
{
    let near = notes.near(about)?;
    history(slices, about, &near, span)
}

/// The objects that a query sees: hosts, then services, in the order of the base.
fn seen_subjects<'a>(alloc: Global, base: &'a Base, view: &View) -> Result<Vec<Subject<'a>>, Memory>
    requires { IsSound base.now }
    ensures seen { IfOk result (λ subjects.
        map subject_of_lines subjects.items ≡ seen_subjects base.now view.now) }
    ensures hosted { IfOk result (λ subjects.
        AllByRecursion (IsHosted base.now) (map subject_of_lines subjects.items)) }
{
    let mut subjects = Vec::new(alloc);
    push_hosts(&mut subjects, view, base.hosts.as_slice())?;
    push_services(&mut subjects, view, base.services.as_slice())?;
    Ok(subjects)
}

fn push_hosts<'a>(
    subjects: &mut Vec<Subject<'a>>,
    view: &View,
    hosts: &'a [Host],
) -> Result<(), Memory>
    requires few { length hosts.now < 2 ^ 32 }
    ensures { OnOk result (map subject_of_lines subjects.new.items
        ≡ map subject_of_lines subjects.old.items
        ++ filter (λ about. sees_object view.now about.object)
        (map host_subject (enumerate_from 0 hosts.now))) }
{
    for (place, host) in hosts.iter().enumerate() {
        let id = HostId(place as u32);
        let about = Subject {
            object: Object::Host(id),
            host: id,
            period: host.fields.notification_period.as_str(),
        };
        push_seen(subjects, view, about)?;
    }
    Ok(())
}

fn push_services<'a>(
    subjects: &mut Vec<Subject<'a>>,
    view: &View,
    services: &'a [Service],
) -> Result<(), Memory>
    requires few { length services.now < 2 ^ 32 }
    ensures { OnOk result (map subject_of_lines subjects.new.items
        ≡ map subject_of_lines subjects.old.items
        ++ filter (λ about. sees_object view.now about.object)
        (map service_subject (enumerate_from 0 services.now))) }
{
    for (place, service) in services.iter().enumerate() {
        let about = Subject {
            object: Object::Service(ServiceId(place as u32)),
            host: service.host,
            period: service.fields.notification_period.as_str(),
        };
        push_seen(subjects, view, about)?;
    }
    Ok(())
}

/// Adds an object where it is seen.
fn push_seen<'a>(
    subjects: &mut Vec<Subject<'a>>,
    view: &View,
    about: Subject<'a>,
) -> Result<(), Memory>
    ensures { OnOk result (map subject_of_lines subjects.new.items
        ≡ map subject_of_lines subjects.old.items
        ++ filter (λ other. sees_object view.now other.object)
        (subject_of_lines about.entry ∷ [])) }
{
    if view.sees_object(about.object) {
        subjects.push(about)?;
    }
    Ok(())
}
