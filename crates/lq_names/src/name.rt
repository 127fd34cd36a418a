ghost use Rattle.std.specs.Prelude.{◌≡◌};
ghost use Rattle.lq_names.specs.Names.{single};

use lq_records::Text;
use std::marker::Model;

/// A name. A service's has two parts: its host's name and its description. Any other has an empty
/// second part. Contracts see both parts as their bytes.
#[derive(Drop)]
pub struct ObjectName {
    parts: (Text, Text),
}

impl Model for ObjectName {
    ghost use Rattle.lq_names.specs.Names.{ObjectName};

    ghost Value = { ObjectName };

    ghost view = { λ name. record { first = name.parts.0; second = name.parts.1 } };
}

impl ObjectName {
    /// A name of two parts. It takes no memory.
    pub fn new(first: Text, second: Text) -> Self
        ensures { result ≡ record { first = first; second = second } }
    {
        ObjectName {
            parts: (first, second),
        }
    }

    /// A name of one part. It takes no memory.
    pub fn single(first: Text) -> Self
        ensures { result ≡ single first }
    {
        ObjectName {
            parts: (first, Text::empty()),
        }
    }

    /// The first part.
    pub fn first(&self) -> &str
        ensures { result.now ≡ self.now.first }
    {
        self.parts.0.as_str()
    }

    /// The second part, empty where the name has one alone.
    pub fn second(&self) -> &str
        ensures { result.now ≡ self.now.second }
    {
        self.parts.1.as_str()
    }

    pub(crate) fn parts(&self) -> &(Text, Text)
        ensures first { result.now.0 ≡ self.now.first }
        ensures second { result.now.1 ≡ self.now.second }
    {
        &self.parts
    }

    pub(crate) fn into_parts(self) -> (Text, Text)
        ensures first { result.0 ≡ self.first }
        ensures second { result.1 ≡ self.second }
    {
        self.parts
    }
}
