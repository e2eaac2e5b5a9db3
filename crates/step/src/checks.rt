// The checks, in their order: the first that holds refuses the call.

ghost use Rattle.std.specs.Prelude.{◌≡◌, false, ◌≤◌, ◌<◌, length, drop};
ghost use Rattle.record.specs.LinkRecord.{slot_of, found};
ghost use Rattle.unit.specs.Checks.{passed};
ghost use Rattle.event.specs.Frame.{head_octets};
ghost use Rattle.event.specs.EventRecord.{reading_of};
ghost use Rattle.step.specs.Step.{bad_table, records, record_at, idle, checks};
ghost use Rattle.step.specs.Plan.{Planned};

use crate::{ROOM, Refusal};
use link::{Link, Said};
use record::RECORD;
use table6::events;

// The record of link k.
fn slot_at(t: &[u8], k: usize) -> Option<Link>
    requires { k < records t.now }
    ensures { found result ≡ slot_of (record_at t.now k) }
{
    let start = RECORD * k;
    let end = start + RECORD;
    record::read_link(&t[start..end])
}

// Check 7: the expiry of a timer that is not marked running.
fn idle(l: Link, code: u8) -> bool
    ensures { result ≡ idle l code }
{
    ((code == events::T1_EXPIRED) && !l.t1)
        || ((code == events::T2_EXPIRED) && !l.t2)
        || ((code == events::T3_EXPIRED) && !l.t3)
}

// What a step that no check refuses comes to: the link, its record after the event, and what is said of it.
#[derive(Clone, Copy)]
pub struct Plan {
    pub link: u16,
    pub next: Link,
    pub said: Said,
}

// Checks 5 to 9, of an event that fits. It is read where it is used, behind the record: so it is looked at once, and little is held meanwhile.
fn link_plan(t: &[u8], e: &[u8], room: usize) -> Result<Plan, Refusal>
    requires { (head_octets ≤ length e.now) × (reading_of e.now ≡ passed) × (bad_table t.now ≡ false) }
    ensures { Planned (drop 9 (checks t.now e.now room)) t.now e.now result }
{
    let k = event::link(e);
    if t.len() <= RECORD * k as usize {
        return Err(Refusal::Link);
    }
    let l = slot_at(t, k as usize).ok_or(Refusal::Record)?;
    if idle(l, e[4]) {
        return Err(Refusal::Timer);
    }
    let turn = link::step_plain(l, event::event(e));
    let said = turn.said.ok_or(Refusal::Cell)?;
    if room < ROOM {
        return Err(Refusal::Room);
    }
    Ok(Plan {
        link: k,
        next: turn.link,
        said,
    })
}

// All checks but the first, of a table that has passed it.
pub fn planned(t: &[u8], e: &[u8], room: usize) -> Result<Plan, Refusal>
    requires { bad_table t.now ≡ false }
    ensures { Planned (drop 1 (checks t.now e.now room)) t.now e.now result }
{
    event::read_event(e)?;
    link_plan(t, e, room)
}
