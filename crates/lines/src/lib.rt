// The lines of document 01's trace, as text in a buffer.
#![tactic(auto)]

mod text;

ghost use Rattle.std.specs.Prelude.{◌≡◌, ◌+◌, ◌*◌, ◌≤◌, length};
ghost use Rattle.record.specs.LinkRecord.{found};
ghost use Rattle.event.specs.Frame.{head_octets};
ghost use Rattle.lines.specs.Text.{Added, HasRoom, Adds};
ghost use Rattle.lines.specs.Lines.{first_record, shown, event_line, message_text, signal_line, state_name, slot_text, link_line};

use event::{HEAD, message};
use link::Link;
use table6::State;
use text::Line;

// The refusal of an event whose frame is broken, in document 01's number, which is what the step answers to C.
pub const BAD_FRAME: u32 = 2;

const SPACE: u8 = b' ';

const NEWLINE: u8 = b'\n';

const DOT: u8 = b'.';

// A number of an event, 0 where its frame is broken.
fn shown_as(refusal: u32, n: u16) -> u16
    ensures { result ≡ shown refusal n }
{
    if refusal == BAD_FRAME { 0 } else { n }
}

// The line of an event whose record begins the octets e, and of what the step answered.
pub fn event_line(text: &mut [u8], ordinal: u64, e: &[u8], refusal: u32, signals: u32) -> usize
    requires { (head_octets ≤ length e.now) × (128 ≤ length text.old) }
    ensures { Added (event_line ordinal e.now refusal signals) text.old 0 result text.new × (result ≤ 128) }
{
    let link = shown_as(refusal, event::link(e));
    let code = shown_as(refusal, e[4] as u16);
    let mut line = Line::new(text);
    line.add(b"E ");
    line.number(ordinal, SPACE);
    line.number(link as u64, SPACE);
    line.number(code as u64, SPACE);
    line.number(refusal as u64, SPACE);
    line.number(signals as u64, NEWLINE);
    line.at
}

// How long the record is that begins some octets, if they hold one. Not `front` of `event`: that asks for an event's mark and a sound frame, and these are signals, written by
// `sscf`.
pub fn first_record(octets: &[u8]) -> Option<usize>
    ensures { result ≡ first_record octets.now }
{
    if octets.len() < HEAD {
        return None;
    }
    let n = HEAD + octet::wide(octets[10], octets[11]) as usize;
    if octets.len() < n { None } else { Some(n) }
}

// Adds a message in hexadecimal, or "-" where there is none.
#[tactic(auto, using(crate::proofs::Texts::some_message, crate::proofs::Texts::hexadecimal_length))]
fn add_message(line: &mut Line, m: &[u8])
    requires { HasRoom line.old (2 * length m.now + 1) }
    ensures { Adds (message_text m.now) line.old line.new × (line.new.at ≤ line.old.at + 2 * length m.now + 1) }
{
    if m.is_empty() {
        line.add(b"-");
    } else {
        line.hexadecimal(m);
    }
}

// The line of a signal's record.
pub fn signal_line(text: &mut [u8], r: &[u8]) -> usize
    requires { (head_octets ≤ length r.now) × (128 + 2 * length r.now ≤ length text.old) }
    ensures { Added (signal_line r.now) text.old 0 result text.new × (result ≤ 128 + 2 * length r.now) }
{
    let mut line = Line::new(text);
    line.add(b"S ");
    line.number(r[4] as u64, SPACE);
    line.number(r[5] as u64, SPACE);
    line.number(r[6] as u64, DOT);
    line.number(r[7] as u64, DOT);
    line.number(r[8] as u64, SPACE);
    add_message(&mut line, message(r));
    line.add(b"\n");
    line.at
}

// A state as it is printed.
fn name(s: State) -> &'static [u8]
    ensures { (result.now ≡ state_name s) × (length result.now ≤ 6) }
{
    match s {
        State::S111 => b"1/1/1",
        State::S141 => b"1/4/1",
        State::S212 => b"2/1/2",
        State::S222 => b"2/2/2",
        State::S242 => b"2/4/2",
        State::S2103 => b"2/10/3",
        State::S2104 => b"2/10/4",
        State::S3105 => b"3/10/5",
    }
}

// Adds a link's state and C1, or what stands for an ill-formed record.
fn add_slot(line: &mut Line, slot: Option<Link>)
    requires { HasRoom line.old 32 }
    ensures { Adds (slot_text (found slot)) line.old line.new × (line.new.at ≤ line.old.at + 32) }
{
    match slot {
        None => line.add(b"? 0\n"),
        Some(l) => {
            line.add(name(l.state));
            line.add(b" ");
            line.number(l.c1 as u64, NEWLINE);
        }
    }
}

// The line of link k, whose record is r.
pub fn link_line(text: &mut [u8], k: u16, r: &[u8]) -> usize
    requires { 64 ≤ length text.old }
    ensures { Added (link_line k r.now) text.old 0 result text.new × (result ≤ 64) }
{
    let mut line = Line::new(text);
    line.add(b"L ");
    line.number(k as u64, SPACE);
    add_slot(&mut line, record::read_link(r));
    line.at
}
