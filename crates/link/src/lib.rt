// One link: an event and a link's record give the next record and the signals, as Table 6 says. By value, and on a record that is lent.
#![tactic(auto)]

ghost use Rattle.std.specs.Prelude.{◌≡◌, cond, ◌-◌, ◌≤◌, ◌<◌};
ghost use Rattle.table6.specs.Summary.{over};
ghost use Rattle.table6.specs.Stored.{bit_of, timers_after, flags_after, ups_after, sent_by, field_sent, last_op, word_count, SoundNumber};
ghost use Rattle.link.specs.Effect.{with_bsnt, with_mps, with_ups, with_c1, with_congested, taken};
ghost use Rattle.link.specs.Fresh.{fresh_link};
ghost use Rattle.link.specs.Lent.{Turned};
ghost use Rattle.link.specs.Step.{named, step_of};
ghost use Rattle.link.specs.Stored.{data_row_of, t3_row_of, view_of, facts_of, arrived_of, risen_of, applied_of, noted_of};

use table6::{Does, Facts, State, effects, rows};
use unit::{Arrived, Mps, Status, Ups};

// A number of 24 bits, its highest octet first; or the three values of a REPORT.
#[derive(Clone, Copy)]
pub struct Num {
    pub a: u8,
    pub b: u8,
    pub c: u8,
}

// The number of the latest data indication since the latest connection came up. Where none is known it is not retrievable, and 0. A flag beside the number, and no
// `Option`: `step_plain` and `record::pack` take a link whose unknown number is not 0, and `Unpacked` reads it back.
#[derive(Clone, Copy)]
pub struct Bsnt {
    pub known: bool,
    pub num: Num,
}

// A link's record: state, the INS flag, LPO, MPS, UPS, the timers that run, BSNT, C1 and n1; whether the link is congested, and the field of the last release that
// was sent, 0 before the first. That field is an octet, and no `Option` of a status: `record::pack` takes any octet there, and `Unpacked` reads it back.
#[derive(Clone, Copy)]
pub struct Link {
    pub state: State,
    pub ins: bool,
    pub lpo: bool,
    pub mps: Mps,
    pub ups: Ups,
    pub t1: bool,
    pub t2: bool,
    pub t3: bool,
    pub bsnt: Bsnt,
    pub c1: u16,
    pub n1: u16,
    pub congested: bool,
    pub last: u8,
}

// A link before its first event.
pub fn fresh(n1: u16) -> Link
    ensures { result ≡ fresh_link n1 }
{
    Link {
        state: State::S111,
        ins: false,
        lpo: false,
        mps: Mps::Neutral,
        ups: Ups::Normal,
        t1: false,
        t2: false,
        t3: false,
        bsnt: Bsnt {
            known: false,
            num: ZERO,
        },
        c1: 0,
        n1,
        congested: false,
        last: 0,
    }
}

// An event with what it carries. Its message stays where it is.
#[derive(Clone, Copy)]
pub enum Event {
    Message,
    Emergency,
    EmergencyCeases,
    Stop,
    Start,
    RetrieveBsnt,
    Retrieval(Num),
    FlushBuffers,
    Continue,
    EstablishIndication(u8),
    EstablishConfirm(u8),
    ReleaseIndication { field: u8, source: u8 },
    ReleaseConfirm,
    Data(Arrived, Num),
    Resync,
    Recover,
    UnitData,
    Retrieve { len: u16 },
    RetrieveComplete,
    ProvingUnsuccessful,
    Release,
    Outage,
    Recovered,
    ForceProving,
    ForceEmergency,
    ClearForceModes,
    Congestion(u8),
    CongestionCeased,
    T1,
    T2,
    T3,
}

// The message that goes with a signal: none, a unit, or the event's own.
#[derive(Clone, Copy)]
pub enum Carries {
    Nothing,
    Unit(Status),
    Message,
}

// A signal, as the definitions have it. No code makes one: a step says words, and `signal` writes the octets of each.
#[derive(Clone, Copy)]
pub struct Signal {
    pub code: u8,
    pub param: u8,
    pub num: Num,
    pub carries: Carries,
}

const ZERO: Num = Num { a: 0, b: 0, c: 0 };

// An event as Table 6 meets it: its row, and the parameter, the number, the source of a release and the length of a message that it brings. The number is there
// for the definitions: BSNT takes it from the event, and a signal from the event's octets.
// Read by these names; a tuple, so that `view_of` has a line an event (D63).
#[derive(Clone, Copy)]
pub struct View(pub u8, pub u8, pub Num, pub u8, pub u16);

fn data_row(a: Arrived) -> u8
    ensures { result ≡ data_row_of a }
{
    match a {
        Arrived::INS => rows::DATA_INS,
        Arrived::NM => rows::DATA_NM,
        Arrived::Other(_) => rows::DATA_OTHER,
        Arrived::Short => rows::DATA_OTHER,
        Arrived::Long => rows::DATA_LONG,
    }
}

fn t3_row(c1: u16) -> u8
    ensures { result ≡ t3_row_of c1 }
{
    if c1 == 0 {
        rows::T3_EXPIRES_C1_0
    } else {
        rows::T3_EXPIRES
    }
}

fn view_of(e: Event, c1: u16) -> View
    ensures { result ≡ view_of e c1 }
{
    match e {
        Event::Message => View(rows::MESSAGE_FOR_TRANSMISSION, 0, ZERO, 0, 0),
        Event::Emergency => View(rows::EMERGENCY, 0, ZERO, 0, 0),
        Event::EmergencyCeases => View(rows::EMERGENCY_CEASES, 0, ZERO, 0, 0),
        Event::Stop => View(rows::STOP, 0, ZERO, 0, 0),
        Event::Start => View(rows::START, 0, ZERO, 0, 0),
        Event::RetrieveBsnt => View(rows::RETRIEVE_BSNT, 0, ZERO, 0, 0),
        Event::Retrieval(n) => View(rows::RETRIEVAL_REQUEST_AND_FSNC, 0, n, 0, 0),
        Event::FlushBuffers => View(rows::FLUSH_BUFFERS, 0, ZERO, 0, 0),
        Event::Continue => View(rows::CONTINUE, 0, ZERO, 0, 0),
        Event::EstablishIndication(p) => View(rows::ESTABLISH_INDICATION, p, ZERO, 0, 0),
        Event::EstablishConfirm(p) => View(rows::ESTABLISH_CONFIRM, p, ZERO, 0, 0),
        Event::ReleaseIndication { field, source } => View(
            rows::RELEASE_INDICATION,
            field,
            ZERO,
            source,
            0,
        ),
        Event::ReleaseConfirm => View(rows::RELEASE_CONFIRM, 0, ZERO, 0, 0),
        Event::Data(a, n) => View(data_row(a), 0, n, 0, 0),
        Event::Resync => View(rows::RESYNC, 0, ZERO, 0, 0),
        Event::Recover => View(rows::RECOVER, 0, ZERO, 0, 0),
        Event::UnitData => View(rows::UNITDATA, 0, ZERO, 0, 0),
        Event::Retrieve { len } => View(rows::RETRIEVE, 0, ZERO, 0, len),
        Event::RetrieveComplete => View(rows::RETRIEVE_COMPLETE, 0, ZERO, 0, 0),
        Event::ProvingUnsuccessful => View(rows::PROVING_UNSUCCESSFUL, 0, ZERO, 0, 0),
        Event::Release => View(rows::RELEASE, 0, ZERO, 0, 0),
        Event::Outage => View(rows::OUTAGE, 0, ZERO, 0, 0),
        Event::Recovered => View(rows::RECOVERED, 0, ZERO, 0, 0),
        Event::ForceProving => View(rows::FORCE_PROVING, 0, ZERO, 0, 0),
        Event::ForceEmergency => View(rows::FORCE_EMERGENCY, 0, ZERO, 0, 0),
        Event::ClearForceModes => View(rows::CLEAR_FORCE_MODES, 0, ZERO, 0, 0),
        Event::Congestion(p) => View(rows::CONGESTION, p, ZERO, 0, 0),
        Event::CongestionCeased => View(rows::CONGESTION_CEASED, 0, ZERO, 0, 0),
        Event::T1 => View(rows::T1_EXPIRES, 0, ZERO, 0, 0),
        Event::T2 => View(rows::T2_EXPIRES, 0, ZERO, 0, 0),
        Event::T3 => View(t3_row(c1), 0, ZERO, 0, 0),
    }
}

// A field that asks for proving one way or the other.
fn em_or_nm(field: u8) -> bool
    ensures { result ≡ named field }
{
    field == Status::EM as u8 || field == Status::NM as u8
}

fn facts_of(l: Link, v: View) -> Facts
    ensures { result ≡ facts_of l v }
{
    let View(_, param, _, source, len) = v;
    Facts {
        lpo: l.lpo,
        ins: l.ins,
        uu: em_or_nm(param),
        user: source == 0,
        bsnt: l.bsnt.known,
        long: 4 < len,
    }
}

// What an event does to the link by itself, in whatever state it is accepted. The order of the arms decides where the code lies, and with it some time (D63).
fn arrived(e: Event, l: Link) -> Link
    ensures { result ≡ arrived_of (view_of e l.c1) l }
{
    match e {
        Event::T3 => Link {
            c1: l.c1.saturating_sub(1),
            ..l
        },
        Event::ClearForceModes => Link {
            mps: Mps::Neutral,
            ..l
        },
        Event::ForceEmergency => Link {
            mps: Mps::Emergency,
            ..l
        },
        Event::ForceProving => Link {
            mps: Mps::Normal,
            ..l
        },
        Event::Data(_, num) => Link {
            bsnt: Bsnt { known: true, num },
            ..l
        },
        Event::EmergencyCeases => Link {
            ups: Ups::Normal,
            ..l
        },
        Event::Emergency => Link {
            ups: Ups::Emergency,
            ..l
        },
        Event::Congestion(_) => Link {
            congested: true,
            ..l
        },
        Event::CongestionCeased => Link {
            congested: false,
            ..l
        },
        _ => l,
    }
}

// The timers that run after the number of a cell, as bits, T1 lowest.
fn timers_after(n: u64, l: Link) -> u8
    ensures { result ≡ timers_after n l.t1 l.t2 l.t3 }
{
    let kept = (n / 64 % 8) as u8;
    let set = (n / 512 % 8) as u8;
    ((u8::from(l.t1) + 2 * u8::from(l.t2) + 4 * u8::from(l.t3)) & kept) + set
}

// The INS flag and LPO after it, as bits.
fn flags_after(n: u64, l: Link) -> u8
    ensures { result ≡ flags_after n l.ins l.lpo }
{
    let kept = (n / 4096 % 4) as u8;
    let set = (n / 16384 % 4) as u8;
    ((u8::from(l.ins) + 2 * u8::from(l.lpo)) & kept) + set
}

fn ups_after(n: u64, old: Ups) -> Ups
    ensures { result ≡ ups_after n old }
{
    match old.code() & (n / 65536 % 2) as u8 {
        0 => Ups::Normal,
        _ => Ups::Emergency,
    }
}

// The record with a connection that comes up, with the peer's field: C1 is decided, and BSNT is not retrievable any more. The INS flag is the cell's.
fn risen(field: u8, l: Link) -> Link
    ensures { result ≡ risen_of field l }
{
    Link {
        bsnt: Bsnt {
            known: false,
            num: ZERO,
        },
        c1: unit::generate_n1(l.mps, l.ups, field, l.n1),
        ..l
    }
}

// Which field of a release the number of a cell sends: 0 for none, else one of six. Three of its bits, and no `Option`: `field_sent` and `record::rewrite` take every
// number below 8.
fn sent(n: u64) -> u8
    ensures { result ≡ sent_by n }
{
    (n / effects::SENDS % 8) as u8
}

// The field itself, a status of clause 10.
pub fn field_sent(sent: u8) -> u8
    requires { sent < 8 }
    ensures { result ≡ field_sent sent }
{
    if sent < 3 { sent } else { sent + 4 }
}

// The last field after it.
fn last_after(n: u64, old: u8) -> u8
    ensures { result ≡ over (last_op n) old }
{
    let s = sent(n);
    if s == 0 { old } else { field_sent(s) }
}

// The record after what a cell does to it, by the masks of its number.
fn applied(n: u64, l: Link) -> Link
    requires { SoundNumber n }
    ensures { result ≡ applied_of n l }
{
    let timers = timers_after(n, l);
    let flags = flags_after(n, l);
    Link {
        state: table6::state_after(n, l.state),
        ins: flags % 2 == 1,
        lpo: flags / 2 % 2 == 1,
        ups: ups_after(n, l.ups),
        t1: timers % 2 == 1,
        t2: timers / 2 % 2 == 1,
        t3: timers / 4 % 2 == 1,
        last: last_after(n, l.last),
        ..l
    }
}

// How many signals a number says.
fn count(n: u64) -> u8
    ensures { result ≡ word_count n }
{
    (n / effects::SAYS % 16) as u8
}

// What is noted of a step, for a writer that leaves the rest of a record as it is: of BSNT and of the congested flag, neither; the event's number is BSNT; BSNT is
// forgotten; the flag is cleared; it is set.
#[derive(Clone, Copy, PartialEq, Eq)]
pub enum Note {
    Nothing,
    Number,
    Forgotten,
    Ceased,
    Congested,
}

// What is noted of an event by itself.
fn noted(e: Event) -> Note
    ensures { result ≡ noted_of e }
{
    match e {
        Event::Data(_, _) => Note::Number,
        Event::Congestion(_) => Note::Congested,
        Event::CongestionCeased => Note::Ceased,
        _ => Note::Nothing,
    }
}

// What is answered of a legal event: the words of its signals, as effects.rt of table6 has them, and how many they are, what is noted, and which
// field of a release was sent. What the signals carry is taken where they are written, from the event's octets and from the record that is left: no cell alters
// what its signals take.
#[derive(Clone, Copy)]
pub struct Said {
    pub words: u64,
    pub count: u8,
    pub noted: Note,
    pub sent: u8,
}

// A record after an event, and what is answered: none of an illegal one.
#[derive(Clone, Copy)]
pub struct Turn {
    pub link: Link,
    pub said: Option<Said>,
}

// A record before its cell, and what is noted so far.
#[derive(Clone, Copy)]
struct Begun {
    link: Link,
    noted: Note,
}

fn raised(up: bool, field: u8, noted: Note, l: Link) -> Begun
    ensures { (result.link ≡ cond up (risen_of field l) l) × (result.noted ≡ cond up Note.Forgotten noted) }
{
    if up {
        return Begun {
            link: risen(field, l),
            noted: Note::Forgotten,
        };
    }
    Begun { link: l, noted }
}

// One event for one link, by value. An illegal event leaves the record as it was.
fn step(l: Link, e: Event) -> Turn
    ensures { Turned l e (step_of l e) result.link result.said }
{
    let v = view_of(e, l.c1);
    let a = arrived(e, l);
    let f = facts_of(a, v);
    let note = noted(e);
    let View(row, param, _, _, _) = v;
    match table6::cell(row, l.state, f, l.congested) {
        None => Turn {
            link: l,
            said: None,
        },
        Some(Does { number, words, up }) => {
            let k = raised(up, param, note, a);
            Turn {
                link: applied(number, k.link),
                said: Some(Said {
                    words,
                    count: count(number),
                    noted: k.noted,
                    sent: sent(number),
                }),
            }
        }
    }
}

// The same for a record that is lent, and altered there.
fn step_lent(l: &mut Link, e: Event) -> Option<Said>
    ensures { Turned l.old e (step_of l.old e) l.new result }
{
    let t = step(*l, e);
    *l = t.link;
    t.said
}

// The same with plain parameters: a copy is lent, so that no caller of this walks its code by hand.
pub fn step_plain(l: Link, e: Event) -> Turn
    ensures { Turned l e (step_of l e) result.link result.said }
{
    let mut link = l;
    let said = step_lent(&mut link, e);
    Turn { link, said }
}
