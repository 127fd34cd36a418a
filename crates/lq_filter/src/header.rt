use crate::read::Test;

/// What one line of a query adds to its filter.
pub enum Header {
    /// `Filter`: a test.
    Test(Test),
    /// `And`, `Or`: the last filters become one.
    Join(Join),
    /// `Negate`: the last filter becomes its opposite.
    Negate,
}

// Written by hand: where one is dropped a proof then meets a call, and not each of the forms.
impl Drop for Header {
    fn drop(self) {
        match self {
            Header::Test(_test) => {}
            Header::Join(_) | Header::Negate => {}
        }
    }
}

/// How filters become one.
#[derive(Clone, Copy)]
pub struct Join {
    /// How many.
    pub count: usize,
    /// Whether one of them is enough, as with `Or`; else all have to hold, as with `And`.
    pub any: bool,
}
