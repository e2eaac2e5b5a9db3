// The calls for C hosts: a fresh table, one event for one link of a table, a burst of events, and which version this is.
#![tactic(auto)]

mod burst;

ghost use Rattle.std.specs.Prelude.{◌≡◌, ◌%◌, length};
ghost use Rattle.record.specs.LinkRecord.{record_octets};
ghost use Rattle.step.specs.Checks.{number, place};
ghost use Rattle.step.specs.Step.{records, answering, step_call};
ghost use Rattle.sscf.specs.Burst.{burst_answered, bursting, burst_call};
ghost use Rattle.sscf.specs.Fresh.{copies, fresh_answered, making, fresh_call};
ghost use Rattle.sscf.specs.Version.{version};

use event::Fault;
use octet::put_at;
use record::RECORD;
use step::{Answer, Refusal, bad_table};

// One event for one link.
#[tactic(auto, unfolding(step::specs::Step::step_call))]
pub fn sscf_step(table: &mut [u8], event: &[u8], out: &mut [u8]) -> Answer
    ensures { answering result table.new out.new ≡ step_call table.old event.now out.old }
{
    if bad_table(&table[..]) {
        return Refusal::Table.into();
    }
    step::step(table, event, out).into()
}

// What a burst answers: 0 or the refusal; 2 if a broken frame ended it, else 0; the events that got a number, the octets of the events up to where it stopped, the
// octets written and the signals counted.
#[repr(C)]
#[derive(Clone, Copy)]
pub struct BurstAnswer {
    pub refusal: u32,
    pub broken: u32,
    pub taken: usize,
    pub at: usize,
    pub octets: usize,
    pub signals: usize,
}

impl From<Refusal> for BurstAnswer {
    ghost from_gives = { λ r a. a ≡ burst_answered (number r) 0 0 0 0 0 };

    fn from(r: Refusal) -> BurstAnswer {
        BurstAnswer {
            refusal: r.number(),
            broken: 0,
            taken: 0,
            at: 0,
            octets: 0,
            signals: 0,
        }
    }
}

// Events end to end, as their single calls one after the other.
#[tactic(auto, unfolding(crate::specs::Burst::burst_call))]
pub fn sscf_burst(
    table: &mut [u8],
    events: &[u8],
    out: &mut [u8],
    refusals: &mut [u32],
) -> BurstAnswer
    ensures { bursting result table.new out.new refusals.new ≡ burst_call table.old events.now out.old refusals.old }
{
    if bad_table(&table[..]) {
        return Refusal::Table.into();
    }
    if burst::short_list(refusals.len(), events) {
        return Refusal::List.into();
    }
    burst::run(table, events, out, refusals)
}

// Writes a record over all of a table, as often as it has place, from its end on: so the compiler leaves the loop as it is (D92).
// A `for` over `chunks_exact_mut` was tried: 81 octets more of flash (limit: 4,150 in all, tests/size).
fn fill(table: &mut [u8], r: &[u8; RECORD])
    requires { length table.old % record_octets ≡ 0 }
    ensures { table.new ≡ copies (records table.old) r.now }
{
    let mut at = table.len();
    while 0 < at {
        at -= RECORD;
        put_at(table, at, r);
    }
}

// What the fresh-table maker answers: 0 or the refusal, and its place.
#[repr(C)]
#[derive(Clone, Copy)]
pub struct FreshAnswer {
    pub refusal: u32,
    pub place: u32,
}

impl From<Refusal> for FreshAnswer {
    ghost from_gives = { λ r a. a ≡ fresh_answered (number r) (place r) };

    fn from(r: Refusal) -> FreshAnswer {
        FreshAnswer {
            refusal: r.number(),
            place: r.place(),
        }
    }
}

// Where n1 stands in a record.
const N1: u8 = 14;

// A table of fresh links, with n1 proving units each.
#[tactic(auto, unfolding(crate::specs::Fresh::fresh_call))]
pub fn sscf_fresh(table: &mut [u8], n1: u16) -> FreshAnswer
    ensures { making result table.new ≡ fresh_call table.old n1 }
{
    if bad_table(&table[..]) {
        return Refusal::Table.into();
    }
    if n1 == 0 {
        return Refusal::Field(Fault::OutOfRange(N1)).into();
    }
    let packed = record::pack(link::fresh(n1));
    fill(table, &packed);
    FreshAnswer {
        refusal: 0,
        place: 0,
    }
}

// The version, 0.7.0.
pub fn sscf_version() -> u32
    ensures { result ≡ version }
{
    7000
}
