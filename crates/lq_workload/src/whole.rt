ghost use Rattle.std.specs.Prelude.{◌≡◌, IfOk, string_bytes};
ghost use Rattle.lq_workload.specs.Accepted.{IsAccepted};
ghost use Rattle.lq_workload.specs.Objects.{objects_text};
ghost use Rattle.lq_workload.specs.Workload.{log_text, stream_text};

use crate::check::Checks;
use crate::generator::Generator;
use crate::log::log;
use crate::objects::objects;
use crate::stream::stream;
use std::alloc::{AllocError, Global};

/// When the first result of a check may come, in seconds.
const BEGIN: u64 = 1_000;

/// What a server is given.
#[derive(Drop)]
pub struct Workload {
    /// An object file of 5 contacts, 100 hosts, 1,000 services and 10 groups of hosts.
    pub objects: String,
    /// A log of 2,000 alerts of the services.
    pub log: String,
    /// 50 external commands, each the result of a check of a service, and then 20 queries, which
    /// keep the connection.
    pub stream: String,
}

impl Workload {
    /// The workload of a number, which decides all of it. The only error is out of memory.
    #[tactic(auto, unfolding(crate::specs::Workload::log_text, crate::specs::Workload::stream_text))]
    pub fn generate(alloc: Global, number: u64) -> Result<Self, AllocError>
        ensures objects { IfOk result
            (λ workload. string_bytes workload.objects ≡ objects_text number) }
        ensures log { IfOk result (λ workload. string_bytes workload.log ≡ log_text number) }
        ensures stream { IfOk result
            (λ workload. string_bytes workload.stream ≡ stream_text number) }

        // What reads an object file or a log doesn't refuse it.
        ensures accepted { IsAccepted number }
    {
        let mut generator = Generator { number };
        let objects = objects(alloc, &mut generator)?;
        let mut checks = Checks {
            generator,
            second: BEGIN,
        };
        let log = log(alloc, &mut checks)?;
        let stream = stream(alloc, checks)?;
        Ok(Workload {
            objects,
            log,
            stream,
        })
    }
}
