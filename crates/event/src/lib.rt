// The event record of document 01: twelve octets and a message, read as an event.
#![tactic(auto)]

ghost use Rattle.std.specs.Prelude.{◌≡◌, cond, not, ◌||◌, ◌+◌, ◌≤◌, Some, None, eqb, leb, length};
ghost use Rattle.unit.specs.Checks.{first};
ghost use Rattle.unit.specs.Unit.{none_or_status};
ghost use Rattle.table6.specs.EventCodes.{ESTABLISH-indication, ESTABLISH-confirm, RELEASE-indication};
ghost use Rattle.event.specs.declared.Look.{Look};
ghost use Rattle.event.specs.Frame.{head_octets, link_at, code_at, param_at, number_at, length_at, message_of};
ghost use Rattle.event.specs.EndToEnd.{sound};
ghost use Rattle.event.specs.Fields.{fault_number, fault_place, is_zero, parameter_field, number_field, length_field, not_carried, out_of_range, field_checks};
ghost use Rattle.event.specs.EventRecord.{framed, event_of, fields_in, reading, fields_of, reading_of};
ghost use Rattle.event.specs.Look.{Seen, faulty};

use link::{Event, Num};
use octet::{marked, wide};
use table6::events;

// The octets of a record before its message, and the most of a message. That a record has as many as its head is asked by clauses, in other crates too, and not by a type:
// `message`, `event` and `link` take every slice that has them, be its frame sound or broken.
pub const HEAD: usize = 12;

pub const MESSAGE: u16 = 4096;

// The octets of the longest record: head and message.
const LONGEST: usize = 4108;

// The mark of an event.
const EV: [u8; 2] = *b"EV";

// At least twelve octets, the mark, octet 9 zero, and a length, at most 4,096, that is that of what follows. It is left at the first that fails (D63).
#[tactic(auto, using(crate::proofs::Frame::too_short, crate::proofs::Frame::too_long, crate::proofs::Frame::framed_by))]
fn framed(e: &[u8]) -> bool
    ensures { result ≡ framed e.now }
{
    if (e.len() < HEAD) | (LONGEST < e.len()) {
        return false;
    }
    let len = (e.len() - HEAD) as u16;
    (wide(e[10], e[11]) == len) && marked(e, &EV) && (e[9] == 0)
}

// Of events end to end: the octets of the one at the front, by its own length, and none if its frame is broken.
#[tactic(auto, using(crate::proofs::EndToEnd::broken))]
pub fn front(es: &[u8]) -> Option<usize>
    ensures { result ≡ cond (sound es.now) (Some (head_octets + length_at es.now)) None }
{
    if es.len() < HEAD {
        return None;
    }
    let end = HEAD + usize::from(wide(es[10], es[11]));
    if es.len() < end {
        return None;
    }
    if framed(&es[..end]) {
        return Some(end);
    }
    None
}

// The message, a part of the caller's own octets.
pub fn message(e: &[u8]) -> &[u8]
    requires { head_octets ≤ length e.now }
    ensures { result.now ≡ message_of e.now }
{
    &e[HEAD..]
}

// The number of a record.
fn number(e: &[u8]) -> Num
    requires { head_octets ≤ length e.now }
    ensures { result ≡ number_at e.now }
{
    Num {
        a: e[6],
        b: e[7],
        c: e[8],
    }
}

// The event that a record with a known code holds. Each arm reads what it carries: what is read before the match is held through all of the step.
#[tactic(auto, unfolding(crate::specs::EventRecord::coded_at))]
pub fn event(e: &[u8]) -> Event
    requires { head_octets ≤ length e.now }
    ensures { result ≡ event_of e.now }
{
    match e[4] {
        events::MESSAGE_FOR_TRANSMISSION => Event::Message,
        events::EMERGENCY => Event::Emergency,
        events::EMERGENCY_CEASES => Event::EmergencyCeases,
        events::STOP => Event::Stop,
        events::START => Event::Start,
        events::RETRIEVE_BSNT => Event::RetrieveBsnt,
        events::RETRIEVAL_REQUEST_AND_FSNC => Event::Retrieval(number(e)),
        events::FLUSH_BUFFERS => Event::FlushBuffers,
        events::CONTINUE => Event::Continue,
        events::ESTABLISH_INDICATION => Event::EstablishIndication(e[5]),
        events::ESTABLISH_CONFIRM => Event::EstablishConfirm(e[5]),
        events::RELEASE_INDICATION => Event::ReleaseIndication {
            field: e[5],
            source: e[8],
        },
        events::RELEASE_CONFIRM => Event::ReleaseConfirm,
        events::DATA_INDICATION => {
            // The number first: behind the branches of `read` it would be read three times over.
            let n = number(e);
            Event::Data(unit::read(message(e)), n)
        }
        events::RESYNC_INDICATION => Event::Resync,
        events::RECOVER_INDICATION => Event::Recover,
        events::UNITDATA_INDICATION => Event::UnitData,
        events::RETRIEVE_INDICATION => Event::Retrieve {
            len: wide(e[10], e[11]),
        },
        events::RETRIEVE_COMPLETE_INDICATION => Event::RetrieveComplete,
        events::PROVING_UNSUCCESSFUL => Event::ProvingUnsuccessful,
        events::RELEASE => Event::Release,
        events::OUTAGE => Event::Outage,
        events::RECOVERED => Event::Recovered,
        events::FORCE_PROVING => Event::ForceProving,
        events::FORCE_EMERGENCY => Event::ForceEmergency,
        events::CLEAR_FORCE_MODES => Event::ClearForceModes,
        events::CONGESTION => Event::Congestion(e[5]),
        events::CONGESTION_CEASED => Event::CongestionCeased,
        events::T1_EXPIRED => Event::T1,
        events::T2_EXPIRED => Event::T2,
        events::T3_EXPIRED => Event::T3,
        _ => Event::Continue,
    }
}

// The number of the link that a record names.
pub fn link(e: &[u8]) -> u16
    requires { head_octets ≤ length e.now }
    ensures { result ≡ link_at e.now }
{
    wide(e[2], e[3])
}

// A field of a peer that is neither none nor one of the nine.
fn bad_field(field: u8) -> bool
    ensures { result ≡ not (none_or_status field) }
{
    !unit::none_or_status(field)
}

// What is wrong with a field, with the place of its first octet.
#[derive(Clone, Copy, PartialEq, Eq)]
pub enum Fault {
    NotCarried(u8),
    OutOfRange(u8),
    Short(u8),
}

impl Fault {
    pub fn number(self) -> u32
        ensures { result ≡ fault_number self }
    {
        match self {
            Fault::NotCarried(_) => 10,
            Fault::OutOfRange(_) => 11,
            Fault::Short(_) => 12,
        }
    }

    pub fn place(self) -> u32
        ensures { result ≡ fault_place self }
    {
        let (Fault::NotCarried(place) | Fault::OutOfRange(place) | Fault::Short(place)) = self;
        u32::from(place)
    }
}

// Why octets are no event record that fits its code: the first of the checks 2, 3, 10, 11 and 12 that refuses them.
#[derive(Clone, Copy, PartialEq, Eq)]
pub enum Unread {
    BadFrame,
    UnknownCode,
    Misfit(Fault),
}

// Where the fields begin.
const PARAMETER: u8 = 5;

const NUMBER: u8 = 6;

const LENGTH: u8 = 10;

// A code with a status field. `matches!` here and in two tests below was tried: 72 octets more of the step's flash (limit: 4,150 in all).
fn has_field(code: u8) -> bool
    ensures { result ≡ eqb code ESTABLISH-indication || eqb code ESTABLISH-confirm || eqb code RELEASE-indication }
{
    (code == events::ESTABLISH_INDICATION)
        | (code == events::ESTABLISH_CONFIRM)
        | (code == events::RELEASE_INDICATION)
}

// What a look by the code can tell: that there is none such, that all fits, or that the fields are to be looked at one by one.
#[derive(Clone, Copy)]
enum Look {
    Unknown,
    Fits,
    Closer,
}

// What one test of all fields tells.
fn glance(fits: bool) -> Look
    ensures { result ≡ cond fits Look.Fits Look.Closer }
{
    if fits { Look::Fits } else { Look::Closer }
}

// Octets that are a head and a message as long as the head says: what a sound frame gives, and all that the tests of its fields need.
#[derive(Clone, Copy)]
struct Whole<'a> {
    octets: &'a [u8],
    ghost headed: { head_octets ≤ length octets.now },
    ghost followed: { head_octets + length_at octets.now ≡ length octets.now },
}

impl Whole<'_> {
    // A message.
    fn lengthy(self) -> bool
        ensures { result ≡ leb 1 (length_at self.entry.octets.now) }
    {
        HEAD < self.octets.len()
    }

    // A message of at least five octets.
    fn long_enough(self) -> bool
        ensures { result ≡ leb 5 (length_at self.entry.octets.now) }
    {
        HEAD + 5 <= self.octets.len()
    }

    // A number that is not 0.
    fn numbered(self) -> bool
        ensures { result ≡ not (is_zero (number_at self.entry.octets.now)) }
    {
        let e = self.octets;
        !((e[6] == 0) & (e[7] == 0) & (e[8] == 0))
    }

    // Of each field: whether it is set with a code that does not carry it. Three tests and three more below, not one: each asks a field of its own kind of other codes, so one
    // function would only choose between six bodies.
    #[tactic(auto, using(crate::proofs::Fields::parameter_not_carried))]
    fn parameter_not_carried(self) -> bool
        ensures { result ≡ not_carried (code_at self.entry.octets.now) (parameter_field (param_at self.entry.octets.now)) }
    {
        let code = self.octets[4];
        !(has_field(code) | (code == events::CONGESTION)) & (1 <= self.octets[5])
    }

    fn number_not_carried(self) -> bool
        ensures { result ≡ not_carried (code_at self.entry.octets.now) (number_field (number_at self.entry.octets.now)) }
    {
        let code = self.octets[4];
        !((code == events::RETRIEVAL_REQUEST_AND_FSNC)
            | (code == events::RELEASE_INDICATION)
            | (code == events::DATA_INDICATION))
            & self.numbered()
    }

    #[tactic(auto, using(crate::proofs::Fields::length_not_carried))]
    fn length_not_carried(self) -> bool
        ensures { result ≡ not_carried (code_at self.entry.octets.now) (length_field (length_at self.entry.octets.now)) }
    {
        let code = self.octets[4];
        !((code == events::MESSAGE_FOR_TRANSMISSION)
            | (code == events::DATA_INDICATION)
            | (code == events::UNITDATA_INDICATION)
            | (code == events::RETRIEVE_INDICATION))
            & self.lengthy()
    }

    // And whether it is out of its range with one that does.
    #[tactic(auto, using(crate::proofs::Fields::level_out_of_range, crate::proofs::Fields::status_out_of_range))]
    fn parameter_out_of_range(self) -> bool
        ensures { result ≡ out_of_range (code_at self.entry.octets.now) (parameter_field (param_at self.entry.octets.now)) }
    {
        let e = self.octets;
        if e[4] == events::CONGESTION {
            return !(e[5] <= 3);
        }
        has_field(e[4]) & bad_field(e[5])
    }

    fn number_out_of_range(self) -> bool
        ensures { result ≡ out_of_range (code_at self.entry.octets.now) (number_field (number_at self.entry.octets.now)) }
    {
        let e = self.octets;
        let source = (e[6] == 0) & (e[7] == 0) & (e[8] <= 1);
        (e[4] == events::RELEASE_INDICATION) & !source
    }

    #[tactic(auto, using(crate::proofs::Fields::length_out_of_range))]
    fn length_out_of_range(self) -> bool
        ensures { result ≡ out_of_range (code_at self.entry.octets.now) (length_field (length_at self.entry.octets.now)) }
    {
        (self.octets[4] == events::MESSAGE_FOR_TRANSMISSION) & !self.long_enough()
    }

    // Checks 10, 11 and 12, field by field.
    fn field_by_field(self) -> Result<(), Fault>
        ensures { faulty result ≡ first (field_checks (code_at self.entry.octets.now) (fields_in self.entry.octets.now)) }
    {
        if self.parameter_not_carried() {
            return Err(Fault::NotCarried(PARAMETER));
        }
        if self.number_not_carried() {
            return Err(Fault::NotCarried(NUMBER));
        }
        if self.length_not_carried() {
            return Err(Fault::NotCarried(LENGTH));
        }
        if self.parameter_out_of_range() {
            return Err(Fault::OutOfRange(PARAMETER));
        }
        if self.number_out_of_range() {
            return Err(Fault::OutOfRange(NUMBER));
        }
        if self.length_out_of_range() {
            return Err(Fault::Short(LENGTH));
        }
        Ok(())
    }

    // Of a code that carries nothing.
    fn bare(self) -> Look
        ensures { result ≡ cond (not (leb 1 (length_at self.entry.octets.now) || not (is_zero (number_at self.entry.octets.now)) || leb 1 (param_at self.entry.octets.now))) Look.Fits Look.Closer }
    {
        glance(!(self.lengthy() | self.numbered() | (1 <= self.octets[5])))
    }

    // Of a code with a status field, and no number but 0.
    fn established(self) -> Look
        ensures { result ≡ cond (not (leb 1 (length_at self.entry.octets.now) || not (is_zero (number_at self.entry.octets.now)) || not (none_or_status (param_at self.entry.octets.now)))) Look.Fits Look.Closer }
    {
        glance(!(self.lengthy() | self.numbered() | bad_field(self.octets[5])))
    }

    // The codes, and of each in one test whether all fits: so that nothing else is asked, and nothing held meanwhile (D92). Of releases those by SSCOP are left.
    // An arm for all codes that are looked at alike was tried: 83 octets more of the step's flash (limit: 4,150 in all).
    #[tactic(auto, unfolding(crate::specs::EventRecord::coded_at, crate::specs::Fields::not_carried, crate::specs::Fields::out_of_range))]
    fn at_once(self) -> Look
        ensures { Seen self.entry.octets.now result }
    {
        let e = self.octets;
        match e[4] {
            events::MESSAGE_FOR_TRANSMISSION => glance(
                !(self.numbered() | (1 <= e[5]) | !self.long_enough()),
            ),
            events::EMERGENCY => self.bare(),
            events::EMERGENCY_CEASES => self.bare(),
            events::STOP => self.bare(),
            events::START => self.bare(),
            events::RETRIEVE_BSNT => self.bare(),
            events::RETRIEVAL_REQUEST_AND_FSNC => glance(!(self.lengthy() | (1 <= e[5]))),
            events::FLUSH_BUFFERS => self.bare(),
            events::CONTINUE => self.bare(),
            events::ESTABLISH_INDICATION => self.established(),
            events::ESTABLISH_CONFIRM => self.established(),
            events::RELEASE_INDICATION => self.established(),
            events::RELEASE_CONFIRM => self.bare(),
            events::DATA_INDICATION => glance(!(1 <= e[5])),
            events::RESYNC_INDICATION => self.bare(),
            events::RECOVER_INDICATION => self.bare(),
            events::UNITDATA_INDICATION => glance(!(self.numbered() | (1 <= e[5]))),
            events::RETRIEVE_INDICATION => glance(!(self.numbered() | (1 <= e[5]))),
            events::RETRIEVE_COMPLETE_INDICATION => self.bare(),
            events::PROVING_UNSUCCESSFUL => self.bare(),
            events::RELEASE => self.bare(),
            events::OUTAGE => self.bare(),
            events::RECOVERED => self.bare(),
            events::FORCE_PROVING => self.bare(),
            events::FORCE_EMERGENCY => self.bare(),
            events::CLEAR_FORCE_MODES => self.bare(),
            events::CONGESTION => glance(!(self.lengthy() | self.numbered() | !(e[5] <= 3))),
            events::CONGESTION_CEASED => self.bare(),
            events::T1_EXPIRED => self.bare(),
            events::T2_EXPIRED => self.bare(),
            events::T3_EXPIRED => self.bare(),
            _ => Look::Unknown,
        }
    }

    // Checks 3, 10, 11 and 12.
    #[tactic(auto, using(crate::proofs::EventRecord::fields_unknown, crate::proofs::EventRecord::fields_fit))]
    fn checked(self) -> Result<(), Unread>
        ensures { reading result ≡ fields_of self.entry.octets.now }
    {
        match self.at_once() {
            Look::Unknown => Err(Unread::UnknownCode),
            Look::Fits => Ok(()),
            Look::Closer => self.field_by_field().map_err(Unread::Misfit),
        }
    }
}

#[tactic(auto, using(crate::proofs::Frame::sound), unfolding(crate::specs::EventRecord::reading_of))]
pub fn read_event(e: &[u8]) -> Result<(), Unread>
    ensures { reading result ≡ reading_of e.now }
{
    if framed(e) {
        Whole { octets: e }.checked()
    } else {
        Err(Unread::BadFrame)
    }
}
