/// The format of a reply's body. By default it is `csv`.
#[derive(Clone, Copy, Default)]
pub enum Format {
    /// `csv`: separators of one byte, and nothing quoted.
    #[default]
    Csv,
    /// `CSV`: the fields and lines of RFC 4180.
    Quoted,
    /// `json`: a list of lists.
    Json,
}

/// The separators of the format `csv`, each one byte. No other format has them.
#[derive(Clone, Copy)]
pub struct Separators {
    /// What ends a line.
    pub row: u8,
    /// What stands between cells.
    pub column: u8,
    /// What stands between the items of a list.
    pub list: u8,
    /// What stands between a service's host and its description.
    pub pair: u8,
}

impl Default for Separators {
    ghost use Rattle.std.specs.Prelude.{◌≡◌};
    ghost use Rattle.lq_records.specs.Formats.{usual_separators};

    ghost is_default = { λ separators. separators ≡ usual_separators };

    /// A line feed, `;`, `,` and `|`.
    fn default() -> Separators {
        Separators {
            row: b'\n',
            column: b';',
            list: b',',
            pair: b'|',
        }
    }
}
