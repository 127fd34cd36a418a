ghost use Rattle.std.specs.Prelude.{◌≡◌, IfOk};
ghost use Rattle.lq_schema.specs.Value.{meaning_of};
ghost use Rattle.lq_stats.specs.Keys.{cell_value};

use lq_records::{Items, Memory, Micro, Text};
use lq_schema::Val;
use std::alloc::Global;

/// A value in the key of a group. Equal ones are equal values.
#[derive(PartialEq, Eq, Hash)]
pub enum KeyCell {
    /// A whole number.
    Int(i128),
    /// A number of millionths.
    Micro(i128),
    /// A text.
    Text(Text),
    /// Texts, in order.
    List(Items<Text>),
    /// Numbers, in order.
    Nums(Items<u64>),
    /// Pairs of texts, in order.
    Pairs(Items<(Text, Text)>),
}

// Written by hand: where one is dropped a proof then meets a call, and not each of the forms.
impl Drop for KeyCell {
    fn drop(self) {
        match self {
            KeyCell::Int(_) | KeyCell::Micro(_) => {}
            KeyCell::Text(_text) => {}
            KeyCell::List(_texts) => {}
            KeyCell::Nums(_numbers) => {}
            KeyCell::Pairs(_pairs) => {}
        }
    }
}

impl KeyCell {
    /// A copy of a value. The only error is out of memory.
    pub fn new(alloc: Global, value: &Val<'_>) -> Result<KeyCell, Memory>
        ensures { IfOk result (λ cell. cell_value cell ≡ meaning_of value.now) }
    {
        Ok(match value {
            Val::Int(number) => KeyCell::Int(*number),
            Val::Micro(micro) => KeyCell::Micro(micro.millionths),
            Val::Str(text) => KeyCell::Text(Text::new(alloc, text)?),
            Val::List(texts) => KeyCell::List(texts_of(alloc, texts.as_slice())?),
            Val::Nums(numbers) => KeyCell::Nums(numbers_of(alloc, numbers.as_slice())?),
            Val::Pairs(pairs) => KeyCell::Pairs(pairs_of(alloc, pairs.as_slice())?),
            Val::Own(text) => KeyCell::Text(text.clone()?),
        })
    }

    /// The value, whose text is `Val::Own`. The only error is out of memory.
    pub fn to_value(&self, alloc: Global) -> Result<Val<'static>, Memory>
        ensures { IfOk result (λ value. meaning_of value ≡ cell_value self.now) }
    {
        Ok(match self {
            KeyCell::Int(number) => Val::Int(*number),
            KeyCell::Micro(millionths) => Val::Micro(Micro {
                millionths: *millionths,
            }),
            KeyCell::Text(text) => Val::Own(text.clone()?),
            KeyCell::List(texts) => Val::List(texts_of(alloc, texts.as_slice())?),
            KeyCell::Nums(numbers) => Val::Nums(numbers_of(alloc, numbers.as_slice())?),
            KeyCell::Pairs(pairs) => Val::Pairs(pairs_of(alloc, pairs.as_slice())?),
        })
    }
}

fn texts_of(alloc: Global, texts: &[Text]) -> Result<Items<Text>, Memory>
    ensures { IfOk result (λ copy. copy ≡ texts.now) }
{
    let mut copy = Items::default();
    for text in texts {
        copy.push(alloc, text.clone()?)?;
    }
    Ok(copy)
}

fn numbers_of(alloc: Global, numbers: &[u64]) -> Result<Items<u64>, Memory>
    ensures { IfOk result (λ copy. copy ≡ numbers.now) }
{
    Ok(Items::from_vec(Vec::from_slice(alloc, numbers)?))
}

fn pairs_of(alloc: Global, pairs: &[(Text, Text)]) -> Result<Items<(Text, Text)>, Memory>
    ensures { IfOk result (λ copy. copy ≡ pairs.now) }
{
    let mut copy = Items::default();
    for pair in pairs {
        copy.push(alloc, (pair.0.clone()?, pair.1.clone()?))?;
    }
    Ok(copy)
}
