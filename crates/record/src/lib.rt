// The link record of 2026-07: twenty octets, and back.
#![tactic(auto)]

ghost use Rattle.std.specs.Prelude.{◌≡◌, true, ◌+◌, ◌*◌, ◌≤◌, length};
ghost use Rattle.octet.specs.Octets.{at, bit};
ghost use Rattle.link.specs.Signal.{num};
ghost use Rattle.link.specs.Stored.{Noted};
ghost use Rattle.record.specs.LinkRecord.{state_code, state_at, mps_at, ups_at, octets_of, link_of, well_formed, slot_of, found};
ghost use Rattle.record.specs.Decoded.{bsnt_formed, rest_formed, noted_in};

use link::{Bsnt, Link, Note, Num};
use octet::{marked, wide};
use table6::State;
use unit::{Mps, Ups};

// The octets of a link's record.
pub const RECORD: usize = 20;

// The mark of a link's record.
const LN: [u8; 2] = *b"LN";

// The INS flag and LPO in one octet, and the timers that run in one, a bit for each.
fn flags(ins: bool, lpo: bool) -> u8
    ensures { result ≡ bit ins + 2 * bit lpo }
{
    u8::from(ins) + 2 * u8::from(lpo)
}

fn timers(t1: bool, t2: bool, t3: bool) -> u8
    ensures { result ≡ bit t1 + 2 * bit t2 + 4 * bit t3 }
{
    u8::from(t1) + 2 * u8::from(t2) + 4 * u8::from(t3)
}

fn state_code(s: State) -> u8
    ensures { result ≡ state_code s }
{
    s as u8
}

// MPS and UPS of octets that are known to be well-formed.
pub fn mps_at(code: u8) -> Mps
    ensures { result ≡ mps_at code }
{
    Mps::try_from(code).unwrap_or(Mps::Emergency)
}

// Two arms: made of a `TryFrom` it would be no shorter.
pub fn ups_at(code: u8) -> Ups
    ensures { result ≡ ups_at code }
{
    match code {
        0 => Ups::Normal,
        _ => Ups::Emergency,
    }
}

// The twenty octets of a link's record.
#[tactic(auto, unfolding(crate::specs::LinkRecord::octets_of))]
pub fn pack(l: Link) -> [u8; RECORD]
    ensures { result ≡ octets_of l }
{
    let [c1_high, c1_low] = l.c1.to_be_bytes();
    let [n1_high, n1_low] = l.n1.to_be_bytes();
    [
        LN[0],
        LN[1],
        state_code(l.state),
        flags(l.ins, l.lpo),
        l.mps.code(),
        l.ups.code(),
        timers(l.t1, l.t2, l.t3),
        u8::from(l.bsnt.known),
        l.bsnt.num.a,
        l.bsnt.num.b,
        l.bsnt.num.c,
        0,
        c1_high,
        c1_low,
        n1_high,
        n1_low,
        u8::from(l.congested),
        l.last,
        0,
        0,
    ]
}

// Whether BSNT is well-formed, with octet 11 behind it: its number and the zero as one number, of which the compiler reads the four octets at once, at most
// 16,777,215 where BSNT is known and 0 where it is not.
fn bsnt_formed(r: &[u8; RECORD]) -> bool
    ensures { result ≡ bsnt_formed r.now }
{
    (r[7] <= 1) && (u32::from_le_bytes([r[8], r[9], r[10], r[11]]) <= 16777215 * u32::from(r[7]))
}

// Whether all is well-formed but state and MPS. Two octets of which it is asked whether they are 0 are one number, the first the lower, as the machine reads them;
// the order of the tests is the one that is fastest (D97).
#[tactic(auto, unfolding(crate::specs::Decoded::rest_formed))]
fn rest_formed(r: &[u8; RECORD]) -> bool
    ensures { result ≡ rest_formed r.now }
{
    marked(r, &LN)
        && (wide(r[15], r[14]) != 0)
        && (r[3] <= 3)
        && (r[6] <= 7)
        && bsnt_formed(r)
        && (r[5] <= 1)
        && (r[16] <= 1)
        && unit::none_or_status(r[17])
        && (wide(r[19], r[18]) == 0)
}

#[tactic(auto, unfolding(crate::specs::LinkRecord::link_of))]
fn unpack(r: &[u8; RECORD], state: State, mps: Mps) -> Link
    requires { (state ≡ state_at (at r.now 2)) × (mps ≡ mps_at (at r.now 4)) }
    ensures { result ≡ link_of r.now }
{
    Link {
        state,
        ins: r[3] % 2 == 1,
        lpo: r[3] / 2 % 2 == 1,
        mps,
        ups: ups_at(r[5]),
        t1: r[6] % 2 == 1,
        t2: r[6] / 2 % 2 == 1,
        t3: r[6] / 4 % 2 == 1,
        bsnt: Bsnt {
            known: r[7] == 1,
            num: Num {
                a: r[8],
                b: r[9],
                c: r[10],
            },
        },
        c1: wide(r[12], r[13]),
        n1: wide(r[14], r[15]),
        congested: r[16] % 2 == 1,
        last: r[17],
    }
}

// What octets are as a link's record: a link, or none, being ill-formed. State and MPS are decoded and tested at once.
#[tactic(auto, using(crate::proofs::LinkRecord::reading))]
pub fn read_link(r: &[u8]) -> Option<Link>
    ensures { found result ≡ slot_of r.now }
{
    let r: &[u8; RECORD] = r.try_into().ok()?;
    let state = State::try_from(r[2]).ok()?;
    let mps = Mps::try_from(r[4]).ok()?;
    if rest_formed(r) {
        Some(unpack(r, state, mps))
    } else {
        None
    }
}

// BSNT and the congested flag in a record, by what is noted of a step. A `match` was tried: 21 octets more of the step's flash (limit: 4,150 in all).
fn note(r: &mut [u8; RECORD], noted: Note, e: &[u8])
    requires { 9 ≤ length e.now }
    ensures { r.new ≡ noted_in noted r.old e.now }
{
    if noted == Note::Number {
        r[7] = 1;
        r[8] = e[6];
        r[9] = e[7];
        r[10] = e[8];
        return;
    }
    if noted == Note::Forgotten {
        r[7] = 0;
        r[8] = 0;
        r[9] = 0;
        r[10] = 0;
        return;
    }
    if noted != Note::Nothing {
        r[16] = u8::from(noted == Note::Congested);
    }
}

// Writes a link over the record that a step found, of an event in these octets. What no step alters, and what it notes that it did not, is left as it is: so it is
// not held from the reading on (D97).
pub fn rewrite(r: &mut [u8; RECORD], l: Link, noted: Note, sent: u8, e: &[u8])
    requires { (9 ≤ length e.now) × (well_formed r.old ≡ true) × Noted (link_of r.old) (num (at e.now 6) (at e.now 7) (at e.now 8)) l noted sent }
    ensures { r.new ≡ octets_of l }
{
    r[2] = state_code(l.state);
    r[3] = flags(l.ins, l.lpo);
    r[4] = l.mps.code();
    r[5] = l.ups.code();
    r[6] = timers(l.t1, l.t2, l.t3);
    [r[12], r[13]] = l.c1.to_be_bytes();
    note(r, noted, e);
    if sent != 0 {
        r[17] = link::field_sent(sent);
    }
}
