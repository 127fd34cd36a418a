//! The objects of a small site, and the ways to play commands on it and to ask it.

ghost use Rattle.std.specs.Prelude.{All, IfOk};
ghost use Rattle.lq_records.specs.Sound.{IsSound};
ghost use Rattle.lq_request.specs.Reading.{ShowsCells};
ghost use Rattle.lq_request.specs.Stats.{IsStat};

use lq_commands::{Order, read_command};
use lq_events::{Act, Update};
use lq_live::Live;
use lq_log::LogBook;
use lq_objects::read_objects;
use lq_query::answer;
use lq_records::{Base, Rules, Text, clean_text};
use lq_request::{Request, read_request};
use std::alloc::{AllocError, Global};
use std::fmt::Debug;
use std::process::Abort;
use std::test::Fail;

/// web1 with http and disk, and web2 below it with ping. web1 and http have a value of their own
/// for each directive.
pub(crate) const SITE: &[u8] = b"define timeperiod {
 timeperiod_name always
 alias Always
 }
define timeperiod {
 timeperiod_name days
 }
define command {
 command_name look
 command_line look -x $HOSTADDRESS$;1
 }
define contact {
 contact_name anna
 alias Anna A.
 email anna@site.example
 pager 12
 host_notification_period always
 service_notification_period days
 }
define contact {
 contact_name bert
 }
define contact {
 contact_name carl
 }
define contactgroup {
 contactgroup_name ops
 alias Operators
 members anna,carl
 }
define contactgroup {
 contactgroup_name all
 members carl,bert
 }
define contactgroup {
 contactgroup_name nobody
 }
define host {
 host_name web1
 alias Web One
 address 10.0.0.1
 display_name First
 check_command look!3
 check_period always
 notification_period days
 max_check_attempts 3
 contacts bert,anna
 contact_groups all,ops
 notes Mind it
 notes_url /notes
 action_url /do
 icon_image a.png
 _SITE north
 __RACK r2
 _A
 }
define host {
 host_name web2
 parents web1
 notifications_enabled 0
 }
define service {
 host_name web1
 service_description http
 display_name Pages
 check_command fetch!5
 check_period days
 notification_period always
 max_check_attempts 3
 contacts carl
 contact_groups ops
 notes Read it
 notes_url /read
 action_url /act
 icon_image b.png
 _PORT 80
 __KIND
 }
define service {
 host_name web2
 service_description ping
 max_check_attempts 4
 notifications_enabled 0
 contact_groups nobody
 }
define service {
 host_name web1
 service_description disk
 }
define hostgroup {
 hostgroup_name web
 alias Web
 members web2,web1
 notes Both
 notes_url /web
 action_url /all
 }
define hostgroup {
 hostgroup_name second
 members web2
 }
define hostgroup {
 hostgroup_name first
 members web1
 }
define hostgroup {
 hostgroup_name empty
 }
define servicegroup {
 servicegroup_name sg
 alias Some
 members web2,ping,web1,http
 notes Two of them
 notes_url /some
 action_url /sum
 }
define servicegroup {
 servicegroup_name rest
 members web1,disk,web2,ping
 }
define servicegroup {
 servicegroup_name void
 }
";

/// The base whose objects commands name, and the state that the commands change.
#[derive(Drop)]
pub(crate) struct Site {
    pub named: Base,
    pub live: Live,
}

/// Compares a text with the expected one.
pub(crate) fn assert_same(rt: &impl Abort, found: &str, expected: &str, case: &impl Debug) {
    assert_eq!(rt; found, expected, "at {case:?}");
}

/// Adds texts to a text.
pub(crate) fn push_all(text: &mut String, parts: &[&str]) -> Result<(), AllocError> {
    for part in parts {
        text.push_str(*part)?;
    }
    Ok(())
}

/// The base of an object file, which is without a fault, under the usual rules.
pub(crate) fn base_of(alloc: Global, objects: &[u8]) -> Result<Base, Fail>
    ensures { IfOk result IsSound }
{
    base_under(alloc, objects, Rules::default())
}

/// The same under any rules.
fn base_under(alloc: Global, objects: &[u8], rules: Rules) -> Result<Base, Fail>
    ensures { IfOk result IsSound }
{
    match read_objects(alloc, objects, rules) {
        Ok(base) => Ok(base),
        Err(_) => Err(Fail::new("the object file is refused")),
    }
}

/// The opening state of an object file under rules.
fn live_under(alloc: Global, objects: &[u8], rules: Rules) -> Result<Live, Fail> {
    let base = base_under(alloc, objects, rules)?;
    Ok(Live::open(alloc, base, LogBook::empty(alloc))?)
}

/// The opening state of an object file and a log, which is without a fault.
fn live_after(alloc: Global, objects: &[u8], log: &[u8]) -> Result<Live, Fail> {
    let base = base_of(alloc, objects)?;
    match LogBook::read(alloc, log) {
        Ok(log) => Ok(Live::open(alloc, base, log)?),
        Err(_) => Err(Fail::new("the log is refused")),
    }
}

/// The site of an object file, on which commands are played, and what queries are answered then.
pub(crate) fn asked(
    alloc: Global,
    objects: &[u8],
    commands: &str,
    queries: &str,
) -> Result<Text, Fail> {
    let mut site = Site::open(alloc, objects, objects)?;
    site.play_and_ask(alloc, commands, queries)
}

impl Site {
    /// The site of an object file, whose commands name the objects of another one. It is in a box,
    /// so that how its many parts are dropped is proved once.
    pub(crate) fn open(alloc: Global, named: &[u8], objects: &[u8]) -> Result<Box<Self>, Fail> {
        let named = base_of(alloc, named)?;
        let live = live_under(alloc, objects, Rules::default())?;
        Ok(Box::new(alloc, Site { named, live })?)
    }

    /// The site of an object file under rules.
    pub(crate) fn under(alloc: Global, objects: &[u8], rules: Rules) -> Result<Box<Self>, Fail> {
        let named = base_of(alloc, objects)?;
        let live = live_under(alloc, objects, rules)?;
        Ok(Box::new(alloc, Site { named, live })?)
    }

    /// The site of an object file as a log left it.
    pub(crate) fn after_log(alloc: Global, objects: &[u8], log: &[u8]) -> Result<Box<Self>, Fail> {
        let named = base_of(alloc, objects)?;
        let live = live_after(alloc, objects, log)?;
        Ok(Box::new(alloc, Site { named, live })?)
    }

    /// Plays commands, one a line.
    pub(crate) fn play(&mut self, alloc: Global, commands: &str) -> Result<(), Fail> {
        for line in commands.split('\n') {
            if !line.is_empty() {
                self.play_line(alloc, line)?;
            }
        }
        Ok(())
    }

    fn play_line(&mut self, alloc: Global, line: &str) -> Result<(), Fail> {
        match read_command(alloc, &self.named, line.as_bytes()) {
            Ok(Order { time, text, act }) => Ok(self.apply(time, text, act)?),
            Err(_) => Err(Fail::new("a command without a second")),
        }
    }

    /// Applies an act.
    pub(crate) fn apply(&mut self, time: u64, text: Text, act: Act) -> Result<(), AllocError> {
        let update = Update {
            origin: 0,
            seq: 0,
            time,
            text,
            act,
        };
        self.live.apply(&update)
    }

    /// What queries are answered, one after another. An empty line stands between two.
    pub(crate) fn ask(&self, alloc: Global, queries: &str) -> Result<Text, Fail> {
        let mut replies = Vec::new(alloc);
        for query in queries.split("\n\n") {
            self.push_reply(alloc, &mut replies, query.as_bytes())?;
        }
        Ok(clean_text(alloc, &replies)?)
    }

    fn push_reply(&self, alloc: Global, replies: &mut Vec<u8>, query: &[u8]) -> Result<(), Fail> {
        match read_request(alloc, query, self.live.base()) {
            Ok(request) => Ok(self.push_answer(alloc, replies, &request)?),
            Err(_) => Err(Fail::new("a query is refused")),
        }
    }

    fn push_answer(
        &self,
        alloc: Global,
        replies: &mut Vec<u8>,
        request: &Request,
    ) -> Result<(), AllocError>
        requires cells { ShowsCells request.now }
        requires stats { All IsStat request.now.stats }
    {
        let reply = answer(alloc, &self.live, request)?;
        if reply.code != 200 {
            return replies.extend_from_slice(b"too large");
        }
        replies.extend_from_slice(reply.bytes.as_slice())
    }

    /// Plays commands, and gives what queries are answered then.
    fn play_and_ask(&mut self, alloc: Global, commands: &str, queries: &str) -> Result<Text, Fail> {
        self.play(alloc, commands)?;
        self.ask(alloc, queries)
    }

    /// Plays commands, and compares how many lines they write, and what queries are answered then.
    pub(crate) fn assert_step<R: Abort + AllocGlobal>(
        &mut self,
        rt: &R,
        queries: &str,
        (commands, lines, expected): Step<'_>,
    ) -> Result<(), Fail> {
        let before = self.live.log().len();
        let replies = self.play_and_ask(rt.alloc(), commands, queries)?;
        let written = self.live.log().len().saturating_sub(before);
        assert!(rt; written == lines, "{written} lines of {commands}");
        assert_same(rt, replies.as_str(), expected, &commands);
        Ok(())
    }

    fn assert_steps<R: Abort + AllocGlobal>(
        &mut self,
        rt: &R,
        queries: &str,
        steps: &[Step<'_>],
    ) -> Result<(), Fail> {
        for step in steps {
            self.assert_step(rt, queries, *step)?;
        }
        Ok(())
    }
}

/// Commands, how many lines they write into the log, and what queries are answered after them.
pub(crate) type Step<'a> = (&'a str, usize, &'a str);

/// Plays steps on a site, and compares what each leaves.
pub(crate) fn assert_steps<R: Abort + AllocGlobal>(
    rt: &R,
    objects: &[u8],
    queries: &str,
    steps: &[Step<'_>],
) -> Result<(), Fail> {
    let mut site = Site::open(rt.alloc(), objects, objects)?;
    site.assert_steps(rt, queries, steps)
}

/// Compares what queries are answered after commands.
pub(crate) fn assert_replies<R: Abort + AllocGlobal>(
    rt: &R,
    objects: &[u8],
    commands: &str,
    cases: &[(&str, &str)],
) -> Result<(), Fail> {
    for (queries, expected) in cases {
        let replies = asked(rt.alloc(), objects, commands, *queries)?;
        assert_same(rt, replies.as_str(), *expected, queries);
    }
    Ok(())
}

/// The front of some queries, and the end of each with what it is answered.
pub(crate) type Asked<'a> = (&'a str, &'a [(&'a str, &'a str)]);

fn assert_each<R: Abort + AllocGlobal>(
    rt: &R,
    site: &Site,
    (front, cases): Asked<'_>,
) -> Result<(), Fail> {
    for (end, expected) in cases {
        let query = format!(in rt.alloc(); "{front}{end}")?;
        let replies = site.ask(rt.alloc(), query.as_str())?;
        assert_same(rt, replies.as_str(), *expected, &query.as_str());
    }
    Ok(())
}

/// Compares what queries are answered after commands.
pub(crate) fn assert_asked<R: Abort + AllocGlobal>(
    rt: &R,
    objects: &[u8],
    commands: &str,
    queries: &[Asked<'_>],
) -> Result<(), Fail> {
    let site = Site::open(rt.alloc(), objects, objects)?;
    assert_site(rt, site, commands, queries)
}

/// Compares what queries on a site are answered after commands.
pub(crate) fn assert_site<R: Abort + AllocGlobal>(
    rt: &R,
    site: Box<Site>,
    commands: &str,
    queries: &[Asked<'_>],
) -> Result<(), Fail> {
    let mut site = site;
    site.play(rt.alloc(), commands)?;
    for asked in queries {
        assert_each(rt, &site, *asked)?;
    }
    Ok(())
}
