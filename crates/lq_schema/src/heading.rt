ghost use Rattle.std.specs.Prelude.{◌≡◌};
ghost use Rattle.lq_schema.specs.Heading.{heading};

use crate::columns::ColKind;
use std::marker::Model;

/// The name of a column on its subject, and what its values are.
#[derive(Drop)]
pub(crate) struct Heading {
    name: &'static str,
    kind: ColKind,
}

impl Model for Heading {
    ghost use Rattle.lq_schema.specs.Heading.{Heading, heading};

    ghost Value = { Heading };

    ghost view = { λ h. heading h.name.now h.kind };
}

impl Heading {
    pub(crate) fn new(name: &'static str, kind: ColKind) -> Self
        ensures { result ≡ heading name.now kind }
    {
        Heading { name, kind }
    }

    pub(crate) fn name(&self) -> &'static str
        ensures { result.now ≡ self.now.name }
    {
        self.name
    }

    pub(crate) fn kind(&self) -> ColKind
        ensures { result ≡ self.now.kind }
    {
        self.kind
    }
}
