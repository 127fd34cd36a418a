//! The steps of a state.

use crate::scarce::{Call, Scarce, assert_late, is_late, successes};
use crate::site::{COUNT, SMALL, base_of, is_reply, large, live_of};
use lq_commands::read_command;
use lq_events::Update;
use lq_live::Live;
use lq_log::LogBook;
use lq_records::Text;
use std::alloc::{AllocError, Global};
use std::process::Abort;
use std::test::Fail;

/// A command that is played again and again, a second later each time.
struct Played<'a> {
    command: &'a str,
    /// How many lines its plays write beside those of the command.
    lines: usize,
    query: &'a str,
    /// What stands before the second in the last row of what the query is answered. None where
    /// there is a row for each play, with the play's number.
    row: Option<&'a str>,
}

const PLAYED: &[Played<'static>] = &[
    Played {
        command: "[0] ADD_HOST_COMMENT;web1;1;anna;why",
        lines: 0,
        query: "GET comments\nColumns: id entry_time",
        row: None,
    },
    Played {
        command: "[0] SCHEDULE_HOST_DOWNTIME;web1;0;999999999999;1;0;60;anna;why",
        lines: 1,
        query: "GET downtimes\nColumns: id entry_time",
        row: None,
    },
    Played {
        command: "[0] PROCESS_SERVICE_CHECK_RESULT;web1;http;2;bad|t=2",
        lines: 3,
        query: "GET services\nColumns: plugin_output perf_data state current_attempt last_check",
        row: Some("bad;t=2;2;3"),
    },
];

/// The rows after a number of plays, the first of which is at the second 101.
fn rows_after(alloc: Global, row: Option<&str>, plays: usize) -> Result<String, AllocError> {
    if let Some(row) = row {
        return format!(in alloc; "{row};{}\n", plays.saturating_add(100));
    }
    let mut rows = String::new(alloc);
    for play in 0..plays {
        let number = play.saturating_add(1);
        let row = format!(in alloc; "{number};{}\n", number.saturating_add(100))?;
        rows.push_str(row.as_str())?;
    }
    Ok(rows)
}

/// The update of a command on the small site, at the second 100.
fn update_of(alloc: Global, command: &str) -> Result<Update, Fail> {
    let base = base_of(alloc, SMALL)?.ok_or("the object file is refused")?;
    let order = read_command(alloc, &base, command.as_bytes())
        .ok()
        .ok_or("no command")?;
    Ok(Update {
        origin: 0,
        seq: 0,
        time: 100,
        text: order.text,
        act: order.act,
    })
}

/// The state of the small site, and an update that it takes again and again, a second later each
/// time.
#[derive(Drop)]
struct Playing {
    live: Box<Live>,
    update: Update,
}

impl Playing {
    /// It is in a box, so that how its many parts are dropped is proved once.
    fn new(alloc: Global, command: &str) -> Result<Box<Self>, Fail> {
        let live = live_of(alloc, SMALL)?;
        let update = update_of(alloc, command)?;
        Ok(Box::new(alloc, Playing { live, update })?)
    }

    /// Compares the state with what so many plays lead to.
    fn assert_plays<R: Abort + AllocGlobal>(
        &self,
        rt: &R,
        played: &Played<'_>,
        plays: usize,
    ) -> Result<(), Fail> {
        let live = &*self.live;
        let command = played.command;
        let second = plays.saturating_add(100) as u64;
        assert!(rt; live.count() == plays as u64, "{plays} of {command}");
        assert!(rt; live.now() == second, "{plays} of {command}");
        assert!(rt; live.log().last_time() == second, "{plays} of {command}");
        let lines = plays.saturating_add(played.lines);
        assert!(rt; live.log().len() == lines, "{plays} of {command}");
        let rows = rows_after(rt.alloc(), played.row, plays)?;
        let is_same = is_reply(rt.alloc(), live, played.query.as_bytes(), rows.as_str())?;
        assert!(rt; is_same, "{plays} of {command}");
        Ok(())
    }

    /// Plays until no memory is found, and then the same update with ample memory.
    fn assert_played<R: Abort + AllocGlobal>(
        &mut self,
        rt: &R,
        played: &Played<'_>,
    ) -> Result<(), Fail> {
        let plays = successes(rt.alloc(), 200, self)?;
        assert!(rt; is_late(plays), "{plays}");
        self.assert_plays(rt, played, plays)?;
        self.live.apply(&self.update)?;
        self.assert_plays(rt, played, plays.saturating_add(1))
    }
}

impl Call for Playing {
    fn make(&mut self, _alloc: Global) -> Result<bool, AllocError> {
        self.update.time = self.update.time.saturating_add(1);
        self.live.apply(&self.update)?;
        Ok(true)
    }
}

#[test]
fn a_step_that_finds_no_memory_leaves_all_as_it_was(rt: HostRuntime) -> Result<(), Fail> {
    for played in PLAYED {
        let mut playing = Playing::new(rt.alloc(), played.command)?;
        playing.assert_played(&rt, played)?;
    }
    Ok(())
}

/// A copy of a state is it after as many updates, and has as many lines and comments.
#[derive(Clone, Copy)]
struct Copied<'a>(&'a Live);

impl Call for Copied<'_> {
    fn make(&mut self, _alloc: Global) -> Result<bool, AllocError> {
        let live = self.0;
        let copy = live.copy()?;
        Ok(
            copy.count() == live.count()
                && copy.now() == live.now()
                && copy.log().len() == live.log().len()
                && copy.comments().len() == live.comments().len()
                && copy.host_statuses().len() == live.host_statuses().len(),
        )
    }
}

fn assert_copied<R: Abort + AllocGlobal>(rt: &R, playing: &mut Playing) -> Result<(), Fail> {
    for _ in 0..1_000 {
        playing.make(rt.alloc())?;
    }
    assert_late(rt, "Live::copy", 40, &mut Copied(&playing.live))?;
    playing.assert_plays(rt, &PLAYED[0], 1_000)
}

#[test]
fn a_copy_wants_memory_for_all_lines_and_comments(rt: HostRuntime) -> Result<(), Fail> {
    let mut playing = Playing::new(rt.alloc(), PLAYED[0].command)?;
    assert_copied(&rt, &mut playing)
}

/// Whether the state of a large site opens in some pieces of room.
fn opens(alloc: Global, objects: &str, pieces: usize) -> Result<bool, AllocError> {
    let Some(base) = base_of(alloc, objects.as_bytes())? else {
        return Ok(false);
    };
    let mut scarce = Scarce::new(alloc)?;
    scarce.give(pieces);
    let live = Live::open(alloc, base, LogBook::empty(alloc));
    drop(scarce);
    match live {
        Ok(live) => Ok(live.service_statuses().len() == COUNT + 1),
        Err(_) => Ok(false),
    }
}

/// The least room in which the state of a large site opens, in steps of 16 pieces.
fn least_room(alloc: Global, objects: &str) -> Result<usize, AllocError> {
    for step in 0..20usize {
        if opens(alloc, objects, 16 * step)? {
            return Ok(16 * step);
        }
    }
    Ok(0)
}

#[test]
fn a_state_wants_memory_for_all_statuses(rt: HostRuntime) -> Result<(), Fail> {
    let objects = large(rt.alloc())?;
    let pieces = least_room(rt.alloc(), objects.as_str())?;
    assert!(rt; pieces > 32, "{pieces}");
    let live = live_of(rt.alloc(), objects.as_bytes())?;
    assert!(rt; live.host_statuses().len() == COUNT);
    Ok(())
}
