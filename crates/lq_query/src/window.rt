ghost use Rattle.std.specs.Prelude.{◌≡◌, IfOk};
ghost use Rattle.lq_query.specs.Answer.{window_of};

use lq_live::Live;
use lq_records::{Items, Memory, Text};
use lq_request::Request;
use lq_schema::Names;
use lq_tables::Window;
use std::alloc::Global;

/// What a query says of its rows at a state: where it names no end, the interval ends at the
/// present second. The only error is out of memory.
pub fn window_of(alloc: Global, live: &Live, request: &Request) -> Result<Window, Memory>
    ensures { IfOk result (λ window. window ≡ window_of request.now live.now.state) }
{
    Ok(Window {
        from: request.from,
        until: request.until.unwrap_or(live.now()),
        names: copy_of_names(alloc, &request.names)?,
    })
}

fn copy_of_names(alloc: Global, names: &Names) -> Result<Names, Memory>
    ensures { IfOk result (λ copy. copy ≡ names.now) }
{
    Ok(Names {
        own: copy_of_texts(alloc, names.own.as_slice())?,
        host: copy_of_texts(alloc, names.host.as_slice())?,
        service: copy_of_texts(alloc, names.service.as_slice())?,
    })
}

/// The same texts, which share their bytes with these. None take no memory.
fn copy_of_texts(alloc: Global, texts: &[Text]) -> Result<Items<Text>, Memory>
    ensures { IfOk result (λ copy. copy ≡ texts.now) }
{
    let mut copy = Items::default();
    for text in texts {
        copy.push(alloc, copy_of_text(text)?)?;
    }
    Ok(copy)
}

fn copy_of_text(text: &Text) -> Result<Text, Memory>
    ensures { IfOk result (λ copy. copy ≡ text.now) }
{
    text.clone()
}
