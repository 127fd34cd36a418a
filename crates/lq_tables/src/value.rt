ghost use Rattle.std.specs.Prelude.{◌≡◌};
ghost use Rattle.lq_schema.specs.Value.{Number};
ghost use Rattle.lq_tables.specs.Parts.{service_flag};

use lq_records::{Object, ObjectKind};

/// 1 for a service, 0 for a host.
pub(crate) fn service_flag(object: Object) -> i128
    ensures { Number result ≡ service_flag object }
{
    match object.kind() {
        ObjectKind::Host => 0,
        ObjectKind::Service => 1,
    }
}
