ghost use Rattle.std.specs.Prelude.{◌≡◌, ◌++◌, ◌≤◌, IfOk, OnOk, string_bytes};
ghost use Rattle.lq_workload.specs.Draws.{after_draws};
ghost use Rattle.lq_workload.specs.Checks.{after_checks, command_line};
ghost use Rattle.lq_workload.specs.Queries.{four_queries, history_query, hosts_query, log_query};
ghost use Rattle.lq_workload.specs.Queries.{queries_text, services_query};
ghost use Rattle.lq_workload.specs.Workload.{commands_text, messages_text};

use crate::check::{Check, Checks};
use crate::generator::Generator;
use crate::objects::{CONTACTS, HOSTS};
use std::alloc::{AllocError, Global};
use std::fmt::Write;

/// How many external commands the stream has.
const COMMANDS: u64 = 50;

/// How often the four kinds of queries come.
const TURNS: u64 = 5;

/// The text of a stream: an external command for each of the next results of checks, and then the
/// queries.
pub(crate) fn stream(alloc: Global, mut checks: Checks) -> Result<String, AllocError>
    requires { checks.second ≤ 59000 }
    ensures { IfOk result (λ text. string_bytes text ≡ messages_text checks) }
{
    let mut text = String::new(alloc);
    push_commands(&mut text, &mut checks)?;
    push_queries(&mut text, &mut checks.generator)?;
    Ok(text)
}

#[tactic(auto, using(crate::proofs::Steps::steps))]
fn push_commands(text: &mut String, checks: &mut Checks) -> Result<(), AllocError>
    requires { checks.old.second ≤ 59000 }
    ensures text { OnOk result
        (string_bytes text.new ≡ string_bytes text.old ++ commands_text checks.old) }
    ensures after { OnOk result (checks.new ≡ after_checks 50 checks.old) }
{
    for place in 0..COMMANDS {
        push_command(text, checks.next(), place)?;
    }
    Ok(())
}

#[tactic(auto, unfolding(crate::specs::Checks::command_line))]
fn push_command(text: &mut String, check: Check, place: u64) -> Result<(), AllocError>
    ensures { OnOk result
        (string_bytes text.new ≡ string_bytes text.old ++ command_line check place) }
{
    let Check {
        second,
        host,
        service,
        state,
    } = check;
    write!(
        text,
        "COMMAND [{second}] PROCESS_SERVICE_CHECK_RESULT;h{host};s{service};{state};m{place}\n",
    )
}

#[tactic(auto, using(crate::proofs::Steps::steps))]
fn push_queries(text: &mut String, generator: &mut Generator) -> Result<(), AllocError>
    ensures { OnOk result
        (string_bytes text.new ≡ string_bytes text.old ++ queries_text generator.old.number) }
{
    for turn in 0..TURNS {
        push_four_queries(text, generator)?;
    }
    Ok(())
}

/// Adds a query of each kind.
#[tactic(auto, unfolding(crate::specs::Draws::after_draws))]
fn push_four_queries(text: &mut String, generator: &mut Generator) -> Result<(), AllocError>
    ensures text { OnOk result
        (string_bytes text.new ≡ string_bytes text.old ++ four_queries generator.old.number) }
    ensures drawn { OnOk result (generator.new.number ≡ after_draws 3 generator.old.number) }
{
    push_services_query(text)?;
    push_hosts_query(text, generator.draw(CONTACTS))?;
    push_log_query(text, 1_000 + generator.draw(30_000))?;
    push_history_query(text, generator.draw(HOSTS))
}

#[tactic(auto, unfolding(crate::specs::Queries::services_query))]
fn push_services_query(text: &mut String) -> Result<(), AllocError>
    ensures { OnOk result (string_bytes text.new ≡ string_bytes text.old ++ services_query) }
{
    text.push_str("GET services\nColumns: state\nStats: state >= 0\nKeepAlive: on\n\n")
}

#[tactic(auto, unfolding(crate::specs::Queries::hosts_query))]
fn push_hosts_query(text: &mut String, contact: u64) -> Result<(), AllocError>
    ensures { OnOk result (string_bytes text.new ≡ string_bytes text.old ++ hosts_query contact) }
{
    write!(
        text,
        "GET hosts\nColumns: name num_services_crit\nAuthUser: c{contact}\nKeepAlive: on\n\n",
    )
}

#[tactic(auto, unfolding(crate::specs::Queries::log_query))]
fn push_log_query(text: &mut String, second: u64) -> Result<(), AllocError>
    ensures { OnOk result (string_bytes text.new ≡ string_bytes text.old ++ log_query second) }
{
    write!(
        text,
        "GET log\nColumns: time message\nFilter: time >= {second}\nLimit: 10\nKeepAlive: on\n\n",
    )
}

#[tactic(auto, unfolding(crate::specs::Queries::history_query))]
fn push_history_query(text: &mut String, host: u64) -> Result<(), AllocError>
    ensures { OnOk result (string_bytes text.new ≡ string_bytes text.old ++ history_query host) }
{
    write!(
        text,
        "GET statehist\nColumns: state\nStats: sum duration\nFilter: time >= 1000\n\
         Filter: host_name = h{host}\nKeepAlive: on\n\n",
    )
}
