use crate::text::Text;
use indexmap::Equivalent;

/// A name that is looked for, in its two parts.
#[derive(Clone, Copy, PartialEq, Eq, Hash)]
pub(crate) struct NameQuery<'a> {
    pub(crate) first: &'a str,
    pub(crate) second: &'a str,
}

impl Equivalent<(Text, Text)> for NameQuery<'_> {
    ghost use Rattle.std.proofs.Common.{◌∙◌, ap};
    ghost use Rattle.std.proofs.lemmas.Bool.{and_parts};
    ghost use Rattle.std.proofs.lemmas.Slice.Eq.{bytes_eq-Decides};
    ghost use Rattle.std.specs.Hash as fed;
    ghost use Rattle.std.specs.Prelude.{◌&&◌, ◌++◌, bytes_eq};

    ghost equivalent = { λ q k. bytes_eq q.first.now k.0 && bytes_eq q.second.now k.1 };

    ghost respects_hash = { λ q k same.
        let parts = and_parts (bytes_eq q.first.now k.0) (bytes_eq q.second.now k.1) same in
        ap (λ first. fed.str first ++ fed.str q.second.now)
        ((bytes_eq-Decides q.first.now k.0).0 parts.0)
        ∙ ap (λ second. fed.str k.0 ++ fed.str second)
        ((bytes_eq-Decides q.second.now k.1).0 parts.1) };

    ghost respects_eq = { λ q x y same.
        let parts = and_parts (bytes_eq q.first.now x.0) (bytes_eq q.second.now x.1) same in
        ap (λ first. bytes_eq first y.0 && bytes_eq q.second.now y.1)
        ((bytes_eq-Decides q.first.now x.0).0 parts.0)
        ∙ ap (λ second. bytes_eq x.0 y.0 && bytes_eq second y.1)
        ((bytes_eq-Decides q.second.now x.1).0 parts.1) };

    fn equivalent(&self, key: &(Text, Text)) -> bool {
        self.first == key.0.as_str() && self.second == key.1.as_str()
    }
}

impl Equivalent<Text> for &str {
    ghost use Rattle.std.proofs.Common.{ap};
    ghost use Rattle.std.proofs.lemmas.Cmp.{nat_list_eq_equiv};
    ghost use Rattle.std.proofs.lemmas.Slice.Eq.{bytes_eq-Decides};
    ghost use Rattle.std.specs.Hash as fed;
    ghost use Rattle.std.specs.Prelude.{bytes_eq};

    ghost equivalent = { λ q k. bytes_eq q.now k };

    ghost respects_hash = { λ q k same. ap fed.str ((bytes_eq-Decides q.now k).0 same) };

    ghost respects_eq = { λ q x y. nat_list_eq_equiv.congr q.now x y };

    fn equivalent(&self, key: &Text) -> bool {
        *self == key.as_str()
    }
}
