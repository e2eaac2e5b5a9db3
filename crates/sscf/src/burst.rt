// A burst: events end to end, by their single calls one after the other.

ghost use Rattle.std.specs.Prelude.{◌≡◌, false, ◌≤◌, ltb, length};
ghost use Rattle.event.specs.EndToEnd.{frames};
ghost use Rattle.step.specs.Step.{bad_table};
ghost use Rattle.sscf.specs.Burst.{singly, bursting, broken_at, came};

use crate::BurstAnswer;
use event::{HEAD, front};
use step::{ROOM, Refusal, step};

// How many sound frames stand before the first broken one.
fn frames(events: &[u8]) -> usize
    ensures { result ≡ length (frames events.now) }
{
    let mut at = 0;
    let mut n = 0;
    while let Some(size) = front(&events[at..]) {
        at += size;
        n += 1;
    }
    n
}

// Whether a list is too short for them. One with a place for every twelve octets never is, and then they are not counted: a walk from frame to frame waits at each for
// the length that tells where the next begins (D88).
#[tactic(auto, using(crate::proofs::Singles::few_frames))]
pub fn short_list(places: usize, events: &[u8]) -> bool
    ensures { result ≡ ltb places (length (frames events.now)) }
{
    if events.len() / HEAD <= places {
        return false;
    }
    places < frames(events)
}

// What is told of the place where a burst has stopped. Both are asked at once: the compiler then keeps no constants for the answer's first two numbers (D88).
fn broken(rest: &[u8]) -> u32
    ensures { result ≡ broken_at rest.now }
{
    let next = front(rest);
    if !rest.is_empty() & next.is_none() {
        Refusal::Frame.number()
    } else {
        0
    }
}

// Makes the calls of the sound frames, as long as there is room, and lists their refusals. No `for` over the frames: the output is gone
// through at a pace of its own, and the room in it is asked before each frame.
pub fn run(table: &mut [u8], events: &[u8], out: &mut [u8], list: &mut [u32]) -> BurstAnswer
    requires { (bad_table table.old ≡ false) × (length (frames events.now) ≤ length list.old) }
    ensures { bursting result table.new out.new list.new ≡ came (singly (frames events.now) table.old out.old) table.old events.now out.old list.old }
{
    let mut taken = 0;
    let mut at = 0;
    let mut put = 0;
    let mut count = 0;
    while ROOM <= out.len() - put
        && let Some(size) = front(&events[at..])
    {
        let end = at + size;
        let told = step(table, &events[at..end], &mut out[put..]);
        list[taken] = told.refusal();
        put += told.octets() as usize;
        count += told.signals() as usize;
        taken += 1;
        at = end;
    }
    BurstAnswer {
        refusal: 0,
        broken: broken(&events[at..]),
        taken,
        at,
        octets: put,
        signals: count,
    }
}
