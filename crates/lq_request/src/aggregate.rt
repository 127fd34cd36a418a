ghost use Rattle.std.specs.Prelude.{◌≡◌, ◌≢◌, IfSome, map};
ghost use Rattle.std.specs.List.{AllByRecursion};
ghost use Rattle.std.specs.Str.{IsUtf8};
ghost use Rattle.lq_request.specs.Stats.{aggregate_of, first_aggregate, stat_kind_of};

use crate::words::as_text;
use lq_stats::StatKind;

/// What a `Stats` line may ask of a column's numbers.
#[derive(Clone, Copy)]
pub enum Aggregate {
    /// `sum`.
    Sum,
    /// `min`.
    Min,
    /// `max`.
    Max,
    /// `avg`.
    Avg,
    /// `std`, which isn't supported.
    Std,
    /// `suminv`, which isn't supported.
    SumInv,
    /// `avginv`, which isn't supported.
    AvgInv,
}

impl Aggregate {
    /// The aggregate that a word names.
    fn of(word: &str) -> Option<Self>
        ensures { result ≡ aggregate_of word.now }
    {
        match word {
            "sum" => Some(Aggregate::Sum),
            "min" => Some(Aggregate::Min),
            "max" => Some(Aggregate::Max),
            "avg" => Some(Aggregate::Avg),
            "std" => Some(Aggregate::Std),
            "suminv" => Some(Aggregate::SumInv),
            "avginv" => Some(Aggregate::AvgInv),
            _ => None,
        }
    }

    /// The statistics that give it. None where it isn't supported.
    pub fn kind(self) -> Option<StatKind>
        ensures kind { result ≡ stat_kind_of self }
        ensures no_count { IfSome result (λ kind. kind ≢ StatKind.Count) }
    {
        match self {
            Aggregate::Sum => Some(StatKind::Sum),
            Aggregate::Min => Some(StatKind::Min),
            Aggregate::Max => Some(StatKind::Max),
            Aggregate::Avg => Some(StatKind::Avg),
            Aggregate::Std | Aggregate::SumInv | Aggregate::AvgInv => None,
        }
    }

    /// The aggregate that the first of some words names.
    pub fn first(words: &[&[u8]]) -> Option<Self>
        requires { AllByRecursion IsUtf8 (map (λ word. word.now) words.now) }
        ensures { result ≡ first_aggregate (map (λ word. word.now) words.now) }
    {
        let (word, _) = words.split_first()?;
        Aggregate::of(as_text(word))
    }
}
