// The signal record of document 01: twelve octets and the message that goes with the signal, one record behind the other.
#![tactic(auto)]

mod report;
mod source;

ghost use Rattle.std.specs.Prelude.{◌≡◌, ◌++◌, ◌+◌, ◌*◌, ◌≤◌, cond, ltb, length, drop, set};
ghost use Rattle.unit.specs.Unit.{code, unit_of};
ghost use Rattle.unit.specs.Proving.{table8};
ghost use Rattle.table6.specs.Stored.{word_at};
ghost use Rattle.link.specs.Kept.{brought};
ghost use Rattle.link.specs.Stored.{meant_by, signals_of};
ghost use Rattle.octet.specs.Octets.{over, put_at};
ghost use Rattle.record.specs.LinkRecord.{link_of};
ghost use Rattle.event.specs.Frame.{head_octets, message_octets, link_at, length_at, message_of};
ghost use Rattle.signal.specs.SignalRecord.{body_of, signal_octets, joined, Put};
ghost use Rattle.signal.specs.Source.{brought_by};
ghost use Rattle.signal.specs.Writing.{given, Whole, front_of, from_code, PutCode, fixed_words, fixed_at, carrying_at, Ran, Halts};

use event::HEAD;
use link::Num;
use octet::{put, put_at, wide};
use record::RECORD;
use report::{ALN, ANS, CC, CD, INS, LR, NONE, OOS, PDUT, PE, RR, SR, SREC, SSCOP_UU, UDR};
use source::Source;
use table6::{effects, signals};
// Without `signals::` before them an arm of these, which has a unit's code too, takes one line.
use table6::signals::{ESTABLISH_REQUEST, ESTABLISH_RESPONSE, RELEASE_REQUEST};
use unit::Status;

// The mark of a signal.
const SG: [u8; 2] = *b"SG";

// The octet of a signal that is its code, behind the mark and the link's number.
const CODE: usize = 4;

// The two octets of its length, before the message.
const LENGTH: usize = 10;

// The octets of a unit.
const UNIT: u8 = 4;

// Octets 4 to 11 of a signal that is known beforehand: code, parameter, number, zero, length. The compiler stores eight constants at once; so what a signal
// carries is stored after them, by itself. Each of these signals has an arm of its own, so that where w is known to be one, nothing is tested.
#[tactic(auto, unfolding(crate::specs::Writing::fixed_at))]
fn fixed(w: u64) -> [u8; 8]
    ensures { result ≡ fixed_at w }
{
    match w {
        effects::CONGESTION_CEASED => [signals::CONGESTION_CEASED, 0, 0, 0, 0, 0, 0, 0],
        effects::IN => [signals::IN_SERVICE, 0, 0, 0, 0, 0, 0, 0],
        effects::OUT => [signals::OUT_OF_SERVICE, 0, 0, 0, 0, 0, 0, 0],
        effects::RETRIEVAL_COMPLETE => [signals::RETRIEVAL_COMPLETE, 0, 0, 0, 0, 0, 0, 0],
        effects::BSNT_NOT_RETRIEVABLE => [signals::BSNT_NOT_RETRIEVABLE, 0, 0, 0, 0, 0, 0, 0],
        effects::RELEASE_OOS => [RELEASE_REQUEST, Status::OOS as u8, 0, 0, 0, 0, 0, 0],
        effects::RELEASE_PO => [RELEASE_REQUEST, Status::PO as u8, 0, 0, 0, 0, 0, 0],
        effects::RELEASE_ANS => [RELEASE_REQUEST, Status::ANS as u8, 0, 0, 0, 0, 0, 0],
        effects::RELEASE_MI => [RELEASE_REQUEST, Status::MI as u8, 0, 0, 0, 0, 0, 0],
        effects::RELEASE_PE => [RELEASE_REQUEST, Status::PE as u8, 0, 0, 0, 0, 0, 0],
        effects::RELEASE_PNS => [RELEASE_REQUEST, Status::PNS as u8, 0, 0, 0, 0, 0, 0],
        effects::RECOVER_RESPONSE => [signals::RECOVER_RESPONSE, 0, 0, 0, 0, 0, 0, 0],
        effects::PROVE => [signals::START_PROVING, 0, 0, 0, 0, 0, 0, 0],
        effects::STOP => [signals::STOP_PROVING, 0, 0, 0, 0, 0, 0, 0],
        effects::REPORT_CC => [signals::REPORT, 0, NONE, NONE, CC, 0, 0, 0],
        effects::REPORT_CD => [signals::REPORT, 0, NONE, NONE, CD, 0, 0, 0],
        effects::REPORT_SREC => [signals::REPORT, 0, NONE, NONE, SREC, 0, 0, 0],
        effects::REPORT_UDR => [signals::REPORT, 0, NONE, NONE, UDR, 0, 0, 0],
        effects::REPORT_PDUT => [signals::REPORT, 0, NONE, NONE, PDUT, 0, 0, 0],
        effects::REPORT_OOS => [signals::REPORT, 0, NONE, OOS, NONE, 0, 0, 0],
        effects::REPORT_OOS_ANS => [signals::REPORT, 0, NONE, OOS, ANS, 0, 0, 0],
        effects::REPORT_INS => [signals::REPORT, 0, NONE, INS, NONE, 0, 0, 0],
        effects::REPORT_ALN => [signals::REPORT, 0, NONE, ALN, NONE, 0, 0, 0],
        effects::REPORT_LR_CD => [signals::REPORT, 0, LR, NONE, CD, 0, 0, 0],
        effects::REPORT_LR_PE => [signals::REPORT, 0, LR, NONE, PE, 0, 0, 0],
        effects::REPORT_LR_OOS => [signals::REPORT, 0, LR, OOS, NONE, 0, 0, 0],
        effects::REPORT_LR_OOS_ANS => [signals::REPORT, 0, LR, OOS, ANS, 0, 0, 0],
        effects::REPORT_LR_OOS_PE => [signals::REPORT, 0, LR, OOS, PE, 0, 0, 0],
        effects::REPORT_SR => [signals::REPORT, 0, SR, NONE, NONE, 0, 0, 0],
        effects::REPORT_SR_OOS => [signals::REPORT, 0, SR, OOS, NONE, 0, 0, 0],
        effects::RESET_T1 => [signals::RESET_T1, 0, 0, 0, 0, 0, 0, 0],
        effects::RESET_T2 => [signals::RESET_T2, 0, 0, 0, 0, 0, 0, 0],
        effects::RESET_T3 => [signals::RESET_T3, 0, 0, 0, 0, 0, 0, 0],
        effects::SET_T1 => [signals::SET_T1, 0, 0, 0, 0, 0, 0, 0],
        effects::SET_T2 => [signals::SET_T2, 0, 0, 0, 0, 0, 0, 0],
        effects::SET_T3 => [signals::SET_T3, 0, 0, 0, 0, 0, 0, 0],
        _ => [signals::START_PROVING, 0, 0, 0, 0, 0, 0, 0],
    }
}

// The same of a signal that carries something, before that is stored. The last arm is that of DATA, and of any word past it.
#[tactic(auto, unfolding(unit::specs::Proving::table8, unit::specs::Unit::unit_of))]
fn carrying(w: u64) -> [u8; 8]
    requires { fixed_words ≤ w }
    ensures { result ≡ carrying_at w }
{
    match w {
        effects::BSNT => [signals::BSNT, 0, 0, 0, 0, 0, 0, 0],
        effects::RETRIEVE_REQUEST => [signals::RETRIEVE_REQUEST, 0, 0, 0, 0, 0, 0, 0],
        effects::LINK_CONGESTED => [signals::LINK_CONGESTED, 0, 0, 0, 0, 0, 0, 0],
        effects::REPORT_RR_UU => [signals::REPORT, 0, RR, NONE, SSCOP_UU, 0, 0, 0],
        effects::ESTABLISH_REQUEST => [ESTABLISH_REQUEST, Status::NM as u8, 0, 0, 0, 0, 0, 0],
        effects::ESTABLISH_RESPONSE => [ESTABLISH_RESPONSE, Status::NM as u8, 0, 0, 0, 0, 0, 0],
        effects::UNIT_NM => [signals::DATA_REQUEST, 0, 0, 0, 0, 0, 0, UNIT],
        effects::UNIT_INS => [signals::DATA_REQUEST, 0, 0, 0, 0, 0, 0, UNIT],
        effects::RECEIVED_MESSAGE => [signals::RECEIVED_MESSAGE, 0, 0, 0, 0, 0, 0, 0],
        effects::RETRIEVED_MESSAGES => [signals::RETRIEVED_MESSAGES, 0, 0, 0, 0, 0, 0, 0],
        _ => [signals::DATA_REQUEST, 0, 0, 0, 0, 0, 0, 0],
    }
}

// Stores a parameter in a signal whose octets are there, and answers the signal's length.
fn with_param(out: &mut [u8], param: u8) -> usize
    requires { head_octets ≤ length out.old }
    ensures { (result ≡ head_octets) × (out.new ≡ set out.old 5 param) }
{
    out[5] = param;
    HEAD
}

// The same with a number.
fn with_number(out: &mut [u8], num: Num) -> usize
    requires { head_octets ≤ length out.old }
    ensures { (result ≡ head_octets) × (out.new ≡ set (set (set out.old 6 num.a) 7 num.b) 8 num.c) }
{
    out[6] = num.a;
    out[7] = num.b;
    out[8] = num.c;
    HEAD
}

// The same with a unit behind them.
fn with_unit(out: &mut [u8], s: Status) -> usize
    requires { head_octets + length (unit_of s) ≤ length out.old }
    ensures { (result ≡ head_octets + length (unit_of s)) × (out.new ≡ put_at out.old head_octets (unit_of s)) }
{
    let unit = unit::write(s);
    put_at(out, HEAD, &unit);
    HEAD + UNIT as usize
}

// The same with the event's length and message. They go by way of an array of this function's own, as long as the longest of both, which overlaps neither: so the
// compiler makes one block copy of the two.
fn with_message(out: &mut [u8], e: &[u8]) -> usize
    requires { Whole e.now × (length e.now ≤ length out.old) }
    ensures { (result ≡ length e.now) × (out.new ≡ put_at out.old 10 (drop 10 e.now)) }
{
    let end = HEAD + wide(e[10], e[11]) as usize;
    let mut held = [0u8; 4098];
    put(&mut held, &e[LENGTH..end]);
    put_at(out, LENGTH, &held[..end - LENGTH]);
    end
}

// The field that Table 8 offers to the peer, by MPS and UPS in a link's record.
#[tactic(auto, unfolding(record::specs::LinkRecord::link_of))]
fn offered(left: &[u8; RECORD]) -> u8
    ensures { result ≡ code (table8 (link_of left.now).mps (link_of left.now).ups) }
{
    unit::sscop_uu(record::mps_at(left[4]), record::ups_at(left[5])).code()
}

// The unit of a word that sends one: the two are written by one code, which takes less flash.
fn unit_in(w: u64) -> Status
    ensures { result ≡ cond (ltb w 43) Status.NM Status.INS }
{
    if effects::UNIT_INS <= w {
        return Status::INS;
    }
    Status::NM
}

// Writes a signal that carries something from octet 4 on, and answers its length. What it carries is told by ranges of words.
fn put_carrying(out: &mut [u8], w: u64, source: Source) -> usize
    requires { (fixed_words ≤ w) × (head_octets + length (body_of (meant_by (brought_by source) (word_at w)).carries (message_of source.event.now)) ≤ length out.old) }
    ensures { PutCode (from_code (message_of source.entry.event.now) (meant_by (brought_by source.entry) (word_at w))) out.old result out.new }
{
    let Source { left, event } = source;
    let eight = carrying(w);
    put_at(out, CODE, &eight);
    if effects::RECEIVED_MESSAGE <= w {
        return with_message(out, event);
    }
    if effects::UNIT_NM <= w {
        return with_unit(out, unit_in(w));
    }
    if effects::ESTABLISH_REQUEST <= w {
        return with_param(out, offered(left));
    }
    if effects::LINK_CONGESTED <= w {
        return with_param(out, event[5]);
    }
    // The octets are chosen first and read behind that, by one code: 65 octets of flash less.
    let (from, at) = if effects::RETRIEVE_REQUEST <= w {
        (event, 6)
    } else {
        (&left[..], 8)
    };
    with_number(
        out,
        Num {
            a: from[at],
            b: from[at + 1],
            c: from[at + 2],
        },
    )
}

// The mark and the link's number, which is in the event's octets as in a signal's.
fn front_of(e: &[u8]) -> [u8; 4]
    requires { head_octets ≤ length e.now }
    ensures { result ≡ front_of e.now }
{
    [SG[0], SG[1], e[2], e[3]]
}

// Writes a signal that is known beforehand over the front of out.
#[tactic(auto, using(octet::proofs::Over::behind))]
fn put_known(out: &mut [u8], front: [u8; 4], w: u64)
    requires { head_octets ≤ length out.old }
    ensures { out.new ≡ over (front ++ fixed_at w) out.old }
{
    put(out, &front);
    let eight = fixed(w);
    put_at(out, CODE, &eight);
}

// Writes one that carries something, and answers its length.
fn put_other(out: &mut [u8], front: [u8; 4], w: u64, source: Source) -> usize
    requires { (fixed_words ≤ w) × (front ≡ front_of source.event.now) × (head_octets + length (body_of (meant_by (brought_by source) (word_at w)).carries (message_of source.event.now)) ≤ length out.old) }
    ensures { Put (signal_octets (link_at source.entry.event.now) (message_of source.entry.event.now) (meant_by (brought_by source.entry) (word_at w))) out.old result out.new }
{
    put(out, &front);
    put_carrying(out, w, source)
}

// How far the writer is: the octets that are written, the words that are left, the lowest next, and how many they are.
#[derive(Clone, Copy)]
struct Run {
    at: usize,
    rest: u64,
    left: u8,
}

// Writes signals one behind the other up to one that carries something, or to the end. That one stands outside the loop: inside it
// cost 15 to 25 instructions more in a call with signals (D63). No `for`: words are taken from a number's lowest octet on, and it may stop before the last.
fn put_run(out: &mut [u8], front: [u8; 4], run: Run) -> Run
    requires { (length front ≡ 4) × (run.at + head_octets * run.left ≤ length out.old) }
    ensures { Ran front run out.old result out.new × Halts result }
{
    let mut at = run.at;
    let mut rest = run.rest;
    let mut left = run.left;
    while 0 < left && rest % 256 < effects::CARRYING {
        put_known(&mut out[at..], front, rest % 256);
        at += HEAD;
        rest = rest / 256;
        left -= 1;
    }
    Run { at, rest, left }
}

// Writes what a step says over the front of out, by its words and the link's record as it is left, one record behind the other, and answers the length of it all. No
// step says two signals that carry something: so there is no loop around the one, and what it takes is made ready for it alone.
pub fn put_all(out: &mut [u8], words: u64, count: u8, left: &[u8; RECORD], e: &[u8]) -> usize
    requires { (head_octets ≤ length e.now) × (length_at e.now ≡ length (message_of e.now)) × (length (message_of e.now) ≤ message_octets) × (brought (signals_of count words (given (link_of left.now) e.now)) ≤ 1) × (length (joined (link_at e.now) (message_of e.now) (signals_of count words (given (link_of left.now) e.now))) ≤ length out.old) }
    ensures { Put (joined (link_at e.now) (message_of e.now) (signals_of count words (given (link_of left.now) e.now))) out.old result out.new }
{
    let front = front_of(e);
    let first = put_run(
        out,
        front,
        Run {
            at: 0,
            rest: words,
            left: count,
        },
    );
    let at = first.at;
    if first.left == 0 {
        return at;
    }
    let m = put_other(
        &mut out[at..],
        front,
        first.rest % 256,
        Source { left, event: e },
    );
    let last = put_run(
        out,
        front,
        Run {
            at: at + m,
            rest: first.rest / 256,
            left: first.left - 1,
        },
    );
    last.at
}
