ghost use Rattle.std.specs.Prelude.{◌≡◌, ◌++◌, ◌≤◌, IfOk, OnOk, string_bytes};
ghost use Rattle.lq_workload.specs.Checks.{after_checks, check_alert_line};
ghost use Rattle.lq_workload.specs.Workload.{alerts_text};

use crate::check::{Check, Checks};
use std::alloc::{AllocError, Global};
use std::fmt::Write;

/// How many lines the log has.
const LINES: u64 = 2_000;

/// The text of a log: a line for each of the next results of checks.
pub(crate) fn log(alloc: Global, checks: &mut Checks) -> Result<String, AllocError>
    requires { checks.old.second ≤ 1000 }
    ensures text { IfOk result (λ text. string_bytes text ≡ alerts_text checks.old) }
    ensures after { OnOk result (checks.new ≡ after_checks 2000 checks.old) }
    ensures soon { OnOk result (checks.new.second ≤ 59000) }
{
    let mut text = String::new(alloc);
    push_alerts(&mut text, checks)?;
    Ok(text)
}

#[tactic(auto, using(crate::proofs::Steps::steps))]
fn push_alerts(text: &mut String, checks: &mut Checks) -> Result<(), AllocError>
    requires { checks.old.second ≤ 1000 }
    ensures text { OnOk result
        (string_bytes text.new ≡ string_bytes text.old ++ alerts_text checks.old) }
    ensures after { OnOk result (checks.new ≡ after_checks 2000 checks.old) }
    ensures soon { OnOk result (checks.new.second ≤ 59000) }
{
    for place in 0..LINES {
        push_alert(text, checks.next(), place)?;
    }
    Ok(())
}

#[tactic(auto, unfolding(crate::specs::Checks::check_alert_line))]
fn push_alert(text: &mut String, check: Check, place: u64) -> Result<(), AllocError>
    ensures { OnOk result
        (string_bytes text.new ≡ string_bytes text.old ++ check_alert_line check place) }
{
    let Check {
        second,
        host,
        service,
        ..
    } = check;
    let state = check.state_name();
    write!(
        text,
        "[{second}] SERVICE ALERT: h{host};s{service};{state};HARD;1;n{place}\n",
    )
}
