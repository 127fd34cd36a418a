ghost use Rattle.std.specs.Prelude.{◌≡◌};
ghost use Rattle.lq_filter.specs.Reading.{operator_of};

/// How a test compares a cell's value with the value after the operator. What an operator says
/// goes by the kind of the column.
#[derive(Clone, Copy)]
pub enum Operator {
    /// `=`
    Equal,
    /// `!=`
    NotEqual,
    /// `~`
    Matches,
    /// `!~`
    NotMatches,
    /// `=~`
    EqualNoCase,
    /// `!=~`
    NotEqualNoCase,
    /// `~~`
    MatchesNoCase,
    /// `!~~`
    NotMatchesNoCase,
    /// `<`
    Less,
    /// `>=`
    GreaterOrEqual,
    /// `>`
    Greater,
    /// `<=`
    LessOrEqual,
}

impl Operator {
    /// The operator that a word writes. None where it writes none.
    pub fn of(word: &str) -> Option<Operator>
        ensures { result ≡ operator_of word.now }
    {
        match word {
            "=" => Some(Operator::Equal),
            "!=" => Some(Operator::NotEqual),
            "~" => Some(Operator::Matches),
            "!~" => Some(Operator::NotMatches),
            "=~" => Some(Operator::EqualNoCase),
            "!=~" => Some(Operator::NotEqualNoCase),
            "~~" => Some(Operator::MatchesNoCase),
            "!~~" => Some(Operator::NotMatchesNoCase),
            "<" => Some(Operator::Less),
            ">=" => Some(Operator::GreaterOrEqual),
            ">" => Some(Operator::Greater),
            "<=" => Some(Operator::LessOrEqual),
            _ => None,
        }
    }
}
