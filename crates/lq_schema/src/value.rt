use lq_records::{Items, Micro, Text};

/// The value of a cell. Single texts are borrowed, lists are copies.
pub enum Val<'a> {
    /// A whole number.
    Int(i128),
    /// A number in millionths. No cell of a table has one.
    Micro(Micro),
    /// A text that the data holds.
    Str(&'a str),
    /// Texts, in order.
    List(Items<Text>),
    /// Numbers, in order.
    Nums(Items<u64>),
    /// Services, in order, each as its host's name and its description.
    Pairs(Items<(Text, Text)>),
    /// A text of its own.
    Own(Text),
}

// Written by hand: where one is dropped a proof then meets a call, and not each of the forms.
impl Drop for Val<'_> {
    fn drop(self) {
        match self {
            Val::Int(_) | Val::Micro(_) | Val::Str(_) => {}
            Val::List(_texts) => {}
            Val::Nums(_numbers) => {}
            Val::Pairs(_pairs) => {}
            Val::Own(_text) => {}
        }
    }
}
