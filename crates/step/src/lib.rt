// One event for one link of a good table: what the single call and the burst have in common. It has two callers and stays a function of its own, so its code is in
// the archive once; and it answers by one number, since one number comes back in a register (D88).
#![tactic(auto)]

mod checks;

ghost use Rattle.std.specs.Prelude.{◌≡◌, true, false, ◌≤◌, length};
ghost use Rattle.link.specs.Stored.{Noted};
ghost use Rattle.record.specs.LinkRecord.{record_octets, link_of, well_formed, octets_of};
ghost use Rattle.event.specs.Frame.{head_octets, number_at};
ghost use Rattle.step.specs.Checks.{number, place, refusal_of};
ghost use Rattle.step.specs.Step.{bad_table, answered, answering, step_call};
ghost use Rattle.step.specs.Plan.{told_by};

use checks::Plan;
use event::{Fault, Unread};
use link::{Link, Said};
use record::RECORD;
use signal::put_all;

#[derive(Clone, Copy, PartialEq, Eq)]
pub enum Refusal {
    Table,
    Frame,
    Code,
    Field(Fault),
    Link,
    Record,
    Timer,
    Cell,
    Room,
    List,
}

impl Refusal {
    pub fn number(self) -> u32
        ensures { result ≡ number self }
    {
        match self {
            Refusal::Table => 1,
            Refusal::Frame => 2,
            Refusal::Code => 3,
            Refusal::Field(fault) => fault.number(),
            Refusal::Link => 5,
            Refusal::Record => 6,
            Refusal::Timer => 7,
            Refusal::Cell => 8,
            Refusal::Room => 9,
            Refusal::List => 13,
        }
    }

    // Where the first field at fault begins; 0 where no field is named.
    pub fn place(self) -> u32
        ensures { result ≡ place self }
    {
        match self {
            Refusal::Field(fault) => fault.place(),
            _ => 0,
        }
    }
}

impl From<Unread> for Refusal {
    ghost from_gives = { λ u r. r ≡ refusal_of u };

    fn from(u: Unread) -> Refusal {
        match u {
            Unread::BadFrame => Refusal::Frame,
            Unread::UnknownCode => Refusal::Code,
            Unread::Misfit(fault) => Refusal::Field(fault),
        }
    }
}

// The least octets of an output.
pub const ROOM: usize = 4240;

// What check 1 makes of the longest table, 256 records: 20 octets and 4 for each.
const LONGEST: usize = 6144;

// Whoever has a table that passed says so by this very test, and not by a type: C lends the table for one call, and it is tested once.
// Check 1, by one multiplication and two comparisons (D97): of a length of at most 6,144 the low half of the product is 4 for each whole record and more than
// 2^32 / 20 for each octet left over.
pub fn bad_table(t: &[u8]) -> bool
    ensures { result ≡ bad_table t.now }
{
    let y = t.len() % 4294967296 * 214748365 % 4294967296 + t.len();
    (y == 0) | (LONGEST < y)
}

// What the step answers: 0 or the refusal, the octets written, the signals counted, and the refusal's place.
#[repr(C)]
#[derive(Clone, Copy)]
pub struct Answer {
    pub refusal: u32,
    pub octets: u32,
    pub signals: u32,
    pub place: u32,
}

impl From<Refusal> for Answer {
    ghost from_gives = { λ r a. a ≡ answered (number r) 0 0 (place r) };

    fn from(r: Refusal) -> Answer {
        Answer {
            refusal: r.number(),
            octets: 0,
            signals: 0,
            place: r.place(),
        }
    }
}

// An answer as one number, since one number comes back in a register (D88): refusal, signals, octets and place, sixteen bits each, so that two of the four come out of
// it by one mask (D92).
#[derive(Clone, Copy)]
pub struct Told {
    pub number: u64,
}

const SIGNALS: u64 = 65536;

const OCTETS: u64 = 4294967296;

const PLACE: u64 = 281474976710656;

impl Told {
    pub fn refusal(self) -> u32
        ensures { result ≡ (told_by self.number).refusal }
    {
        (self.number % SIGNALS) as u32
    }

    pub fn octets(self) -> u32
        ensures { result ≡ (told_by self.number).octets }
    {
        (self.number / OCTETS % SIGNALS) as u32
    }

    pub fn signals(self) -> u32
        ensures { result ≡ (told_by self.number).signals }
    {
        (self.number / SIGNALS % SIGNALS) as u32
    }

    pub fn place(self) -> u32
        ensures { result ≡ (told_by self.number).place }
    {
        (self.number / PLACE) as u32
    }
}

impl From<Told> for Answer {
    ghost from_gives = { λ t a. a ≡ told_by t.number };

    fn from(told: Told) -> Answer {
        Answer {
            refusal: told.refusal(),
            octets: told.octets(),
            signals: told.signals(),
            place: told.place(),
        }
    }
}

// Writes a link over its record, lent as a part of the table. A function of its own: an array lent straight from a part gives back nothing that a proof can cite.
fn rewrite(r: &mut [u8], next: Link, said: Said, e: &[u8])
    requires { (length r.old ≡ record_octets) × (head_octets ≤ length e.now) × (well_formed r.old ≡ true) × Noted (link_of r.old) (number_at e.now) next said.noted said.sent }
    ensures { r.new ≡ octets_of next }
{
    record::rewrite(r.as_mut_array().unwrap(), next, said.noted, said.sent, e);
}

// All checks but the first, and what Table 6 gives.
pub fn step(table: &mut [u8], event: &[u8], out: &mut [u8]) -> Told
    requires { bad_table table.old ≡ false }
    ensures { answering (told_by result.number) table.new out.new ≡ step_call table.old event.now out.old }
{
    // Its place and length once for all: else they are read anew behind each write.
    let e = &event[..];
    match checks::planned(&table[..], e, out.len()) {
        Err(r) => Told {
            number: r.place() as u64 * PLACE + r.number() as u64,
        },
        Ok(Plan { link, next, said }) => {
            let start = RECORD * link as usize;
            let end = start + RECORD;
            // The record first: fewer values are held while the signals are written.
            rewrite(&mut table[start..end], next, said, e);
            let left = table[start..end].as_array::<RECORD>().unwrap();
            let octets = put_all(out, said.words, said.count, left, e) as u64;
            Told {
                number: octets * OCTETS + said.count as u64 * SIGNALS,
            }
        }
    }
}
