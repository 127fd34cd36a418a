ghost use Rattle.std.specs.Prelude.{◌≡◌, map};
ghost use Rattle.std.specs.List.{slice_get};
ghost use Rattle.std.specs.Option.{option_copied, option_map};
ghost use Rattle.lq_live.specs.Effects.{holds_object};
ghost use Rattle.lq_live.specs.State.{line_names, host_in_line, names_of};

use lq_records::{Base, Object, Service, Text};

/// How a line names an object: its host, and its description where it is a service.
#[derive(Clone, Copy)]
pub(crate) struct ObjectNames<'a> {
    pub(crate) host: &'a Text,
    pub(crate) service: &'a str,
}

/// The name of an object. None where the base doesn't hold it.
pub(crate) fn names_of<'a>(base: &'a Base, object: Object) -> Option<ObjectNames<'a>>
    ensures { option_map (λ name. line_names name.host.now name.service.now) result
        ≡ names_of base.now object }
{
    match object {
        Object::Host(id) => host_names(base, id.0 as usize, ""),
        Object::Service(id) => {
            let service = base.services.as_slice().get(id.0 as usize)?;
            service_names(base, service)
        }
    }
}

fn service_names<'a>(base: &'a Base, service: &'a Service) -> Option<ObjectNames<'a>>
    ensures { option_map (λ name. line_names name.host.now name.service.now) result
        ≡ option_map (λ host. line_names host service.now.service_description)
        (host_in_line base.now service.now.host.0) }
{
    host_names(
        base,
        service.host.0 as usize,
        service.service_description.as_str(),
    )
}

fn host_names<'a>(base: &'a Base, place: usize, description: &'a str) -> Option<ObjectNames<'a>>
    ensures { option_map (λ name. line_names name.host.now name.service.now) result
        ≡ option_map (λ host. line_names host description.now) (host_in_line base.now place) }
{
    let host = base.hosts.as_slice().get(place)?;
    Some(ObjectNames {
        host: &host.host_name,
        service: description,
    })
}

/// Whether the base holds an object.
pub(crate) fn holds_object(base: &Base, object: Object) -> bool
    ensures { result ≡ holds_object base.now object }
{
    match object {
        Object::Host(id) => (id.0 as usize) < base.hosts.len(),
        Object::Service(id) => (id.0 as usize) < base.services.len(),
    }
}
