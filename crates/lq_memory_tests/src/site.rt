//! The object files and the states of these tests.

ghost use Rattle.std.specs.Prelude.{IfOk, IfSome};
ghost use Rattle.lq_records.specs.Sound.{IsSound};

use lq_live::Live;
use lq_log::LogBook;
use lq_objects::{ObjectsErr, read_objects};
use lq_query::answer;
use lq_records::{Base, Rules};
use lq_request::{ReadErr, Request, read_request};
use std::alloc::{AllocError, Global};
use std::test::Fail;

/// How many hosts a large site has, and how many contacts. It has one service more.
pub(crate) const COUNT: usize = 1_000;

/// A host and a service, which is troubled for good at its third result.
pub(crate) const SMALL: &[u8] = b"define host {
 host_name web1
 }
define service {
 host_name web1
 service_description http
 max_check_attempts 3
 }
";

/// Adds the numbers from 0 on, each after a front and before a back.
fn push_numbers(
    file: &mut String,
    alloc: Global,
    front: &str,
    back: &str,
) -> Result<(), AllocError> {
    for number in 0..COUNT {
        let number = number.to_string(alloc)?;
        file.push_str(front)?;
        file.push_str(number.as_str())?;
        file.push_str(back)?;
    }
    Ok(())
}

/// A large site: hosts `h0`, `h1` and so on, and a group of all of them; services `s0`, `s1` and
/// so on of the host `h0`; contacts `c0`, `c1` and so on, and a service `all` of the host `h1`
/// with all of them.
pub(crate) fn large(alloc: Global) -> Result<String, AllocError> {
    let mut file = String::new(alloc);
    push_numbers(&mut file, alloc, "define host {\nhost_name h", "\n}\n")?;
    let service = "define service {\nhost_name h0\nservice_description s";
    push_numbers(&mut file, alloc, service, "\n}\n")?;
    push_numbers(
        &mut file,
        alloc,
        "define contact {\ncontact_name c",
        "\n}\n",
    )?;
    file.push_str("define hostgroup {\nhostgroup_name all\nmembers ")?;
    push_numbers(&mut file, alloc, "h", ",")?;
    file.push_str("\n}\ndefine service {\nhost_name h1\nservice_description all\ncontacts ")?;
    push_numbers(&mut file, alloc, "c", ",")?;
    file.push_str("\n}\n")?;
    Ok(file)
}

/// The base of an object file without a fault, or None where there is one.
pub(crate) fn base_of(alloc: Global, objects: &[u8]) -> Result<Option<Base>, AllocError>
    ensures { IfOk result (λ base. IfSome base IsSound) }
{
    match read_objects(alloc, objects, Rules::default()) {
        Ok(base) => Ok(Some(base)),
        Err(ObjectsErr::Memory(error)) => Err(error),
        Err(ObjectsErr::At { .. }) => Ok(None),
    }
}

/// The opening state of an object file. It is in a box, so that how its many parts are dropped is
/// proved once.
pub(crate) fn live_of(alloc: Global, objects: &[u8]) -> Result<Box<Live>, Fail> {
    let base = base_of(alloc, objects)?.ok_or("the object file is refused")?;
    let live = Live::open(alloc, base, LogBook::empty(alloc))?;
    Ok(Box::new(alloc, live)?)
}

/// What a query asks, or None where it is refused.
pub(crate) fn request_of(
    alloc: Global,
    live: &Live,
    query: &[u8],
) -> Result<Option<Request>, AllocError> {
    match read_request(alloc, query, live.base()) {
        Ok(request) => Ok(Some(request)),
        Err(ReadErr::Memory) => Err(AllocError),
        Err(ReadErr::Refused { .. }) => Ok(None),
    }
}

/// Whether the reply to a query is a text.
pub(crate) fn is_reply(
    alloc: Global,
    live: &Live,
    query: &[u8],
    text: &str,
) -> Result<bool, AllocError> {
    let Some(request) = request_of(alloc, live, query)? else {
        return Ok(false);
    };
    is_answer(alloc, live, &request, text)
}

/// Whether a query, which may ask for statistics, is answered by a text.
pub(crate) fn is_answered(
    alloc: Global,
    live: &Live,
    query: &[u8],
    text: &str,
) -> Result<bool, AllocError> {
    match read_request(alloc, query, live.base()) {
        Ok(request) => {
            let reply = answer(alloc, live, &request)?;
            Ok(reply.code == 200 && reply.bytes.as_slice() == text.as_bytes())
        },
        Err(ReadErr::Memory) => Err(AllocError),
        Err(ReadErr::Refused { .. }) => Ok(false),
    }
}

/// Whether the answer to a request that shows columns, and no statistics, is a text.
pub(crate) fn is_answer(
    alloc: Global,
    live: &Live,
    request: &Request,
    text: &str,
) -> Result<bool, AllocError> {
    if request.columns.is_empty() || !request.stats.is_empty() {
        return Ok(false);
    }
    let reply = answer(alloc, live, request)?;
    Ok(reply.code == 200 && reply.bytes.as_slice() == text.as_bytes())
}
