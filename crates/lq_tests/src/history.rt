//! The histories of hosts and services, as the library tells them.

ghost use Rattle.std.specs.Prelude.{◌≡◌, ◌<◌};

use crate::fixture::{Site, assert_same};
use lq_auth::View;
use lq_records::{HostId, Object, ServiceId};
use lq_statehist::{Slice, slices};
use lq_steps::Steps;
use std::alloc::{AllocError, Global};
use std::marker::Brand;
use std::process::Abort;
use std::sync::ledger::{Blank, Ledger};
use std::test::Fail;

/// web1 with http and disk, whose host has a time period, and web2 with ping.
const OBJECTS: &[u8] = b"define contact {
 contact_name bert
 }
define host {
 host_name web1
 notification_period always
 }
define host {
 host_name web2
 contacts bert
 }
define service {
 host_name web1
 service_description http
 }
define service {
 host_name web1
 service_description disk
 contacts bert
 }
define service {
 host_name web2
 service_description ping
 }
";

const LOG: &[u8] = b"[99] SERVICE FLAPPING ALERT: web1;disk;STARTED;x
[100] HOST DOWNTIME ALERT: web1;STARTED;w
[150] SERVICE ALERT: web1;disk;WARNING;HARD;1;a
[150] SERVICE ALERT: web1;disk;CRITICAL;HARD;1;b
[180] HOST DOWNTIME ALERT: web1;STOPPED;w
[185] HOST ALERT: web2;DOWN;SOFT;1;away
[190] TIMEPERIOD TRANSITION: always;1;0
[195] SERVICE ALERT: web1;disk;CRITICAL;HARD;1;b
[200] SERVICE ALERT: web1;disk;OK;HARD;1;c
";

/// Who asks for which seconds.
#[derive(Clone, Copy)]
struct Asked<'a> {
    user: Option<&'a str>,
    from: u64,
    until: u64,
}

impl Asked<'_> {
    /// The slices as text, one a line.
    fn told<G: Ledger>(&self, alloc: Global, site: &Site, blank: Blank) -> Result<String, Fail>
        requires name { blank.name ≡ G.name }
        requires parts { blank.parts ≡ G.parts }
        requires some { 0 < blank.parts }
    {
        let view = View::of(alloc, site.live.base(), self.user)?;
        let mut steps = Steps::<G>::new(blank);
        let mut text = String::new(alloc);
        match slices(alloc, &site.live, &view, self.from, self.until, &mut steps) {
            Ok(slices) => push_slices(alloc, &mut text, &slices)?,
            Err(_) => return Err(Fail::new("no history")),
        }
        Ok(text)
    }

    fn assert_told<R: Abort + AllocGlobal>(
        &self,
        rt: &R,
        site: &Site,
        expected: &str,
    ) -> Result<(), Fail> {
        let found = self.told::<Brand>(rt.alloc(), site, Blank::new(1))?;
        assert_same(rt, found.as_str(), expected, &self.from);
        Ok(())
    }
}

fn push_slices(alloc: Global, text: &mut String, slices: &[Slice]) -> Result<(), AllocError> {
    for slice in slices {
        push_slice(alloc, text, slice)?;
    }
    Ok(())
}

/// Adds an object, the seconds, the state, the place of its line, and what else is told.
fn push_slice(alloc: Global, text: &mut String, slice: &Slice) -> Result<(), AllocError> {
    let (kind, place) = match slice.object {
        Object::Host(HostId(place)) => ("host", place),
        Object::Service(ServiceId(place)) => ("service", place),
    };
    let (from, until, state) = (slice.from, slice.until, slice.state);
    let line = slice.line.unwrap_or(99);
    text.push_str(&format!(in alloc; "{kind} {place} {from} {until} {state} {line}")?)?;
    let flags = [
        ("; down", slice.host_down),
        ("; downtime", slice.in_downtime),
        ("; host downtime", slice.in_host_downtime),
        ("; flapping", slice.is_flapping),
        ("; outside", !slice.in_period),
    ];
    for (name, is) in &flags {
        if *is {
            text.push_str(*name)?;
        }
    }
    text.push_str("\n")
}

const ALL: &str = "host 0 90 100 -1 99
host 0 100 180 -1 99; downtime; host downtime
host 0 180 190 -1 99
host 0 190 210 -1 99; outside
host 1 90 185 -1 99
host 1 185 210 1 5; down
service 0 90 100 -1 99
service 0 100 180 -1 99; host downtime
service 0 180 210 -1 99
service 1 90 99 -1 99
service 1 99 100 -1 99; flapping
service 1 100 150 -1 99; host downtime; flapping
service 1 150 180 2 3; host downtime; flapping
service 1 180 200 2 3; flapping
service 1 200 210 0 8; flapping
service 2 90 185 -1 99
service 2 185 210 -1 99; down
";

const OF_BERT: &str = "host 1 195 200 1 5; down
service 1 195 200 2 7; flapping
service 2 195 200 -1 99; down
";

#[test]
fn histories_are_told_of_what_is_seen(rt: HostRuntime) -> Result<(), Fail> {
    let site = Site::after_log(rt.alloc(), OBJECTS, LOG)?;
    let all = Asked {
        user: None,
        from: 90,
        until: 210,
    };
    all.assert_told(&rt, &site, ALL)?;
    let of_bert = Asked {
        user: Some("bert"),
        from: 195,
        until: 200,
    };
    of_bert.assert_told(&rt, &site, OF_BERT)?;
    let nothing = Asked {
        user: None,
        from: 100,
        until: 100,
    };
    nothing.assert_told(&rt, &site, "")
}
