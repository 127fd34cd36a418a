ghost use Rattle.std.specs.Prelude.{◌≡◌};
ghost use Rattle.std.specs.Str.{str_eq_ignore_ascii_case};

/// Whether two texts are equal where ASCII letters count the same in both cases. All other
/// characters have to be the same.
pub fn eq_nocase(a: &str, b: &str) -> bool
    ensures { result ≡ str_eq_ignore_ascii_case a.now b.now }
{
    a.eq_ignore_ascii_case(b)
}
