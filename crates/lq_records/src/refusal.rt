use crate::text::Text;

/// Why a message isn't answered as a query.
#[derive(Drop)]
pub struct Refusal {
    /// The code of the reply, from 100 to 999.
    pub code: u16,
    /// The text of the reply, without a line feed at its end.
    pub text: Text,
}
