// What each code of Table 6 does, as one number: what becomes of a link, and which signals it emits, in their order.
ghost use Rattle.std.specs.Prelude.{◌≡◌, cond, ◌&&◌};
ghost use Rattle.table6.specs.Stored.{number_at, seldom_asks, ask_at, picked, leading, gone_on, met_of};

use crate::{Does, Facts, cells};

// The number, from its lowest bit: the next state (bits 0 to 2); a mask that keeps the state, or none of it (3 to 5); of T1, T2 and T3 those that are kept
// as they are (6 to 8) and those that run (9 to 11); the same of the INS flag and LPO (12, 13 and 14, 15); whether UPS is kept or becomes Normal (16); which field
// of a release is sent (17 to 19); how many signals (20 to 23), and each in an octet (from 24 on). So state, timers, flags and UPS are altered by masks, with no
// branch. Numbers and no enums: told apart field by field the step took 30 instructions more (D63).
const TO_111: u64 = 0;

const TO_141: u64 = 1;

const TO_212: u64 = 2;

const TO_222: u64 = 3;

const TO_242: u64 = 4;

const TO_2103: u64 = 5;

const TO_2104: u64 = 6;

const TO_3105: u64 = 7;

// What is kept: the state, the timers, the INS flag, LPO and UPS.
const STATE: u64 = 7 * 8;

const T1: u64 = 64;

const T2: u64 = 128;

const T3: u64 = 256;

const INS: u64 = 4096;

const LPO: u64 = 8192;

const UPS: u64 = 65536;

// What becomes 1.
const T1_RUNS: u64 = 512;

const T2_RUNS: u64 = 1024;

const T3_RUNS: u64 = 2048;

const INS_1: u64 = 16384;

const LPO_1: u64 = 32768;

// A signal more, and the places of the signals.
pub const SAYS: u64 = 1048576;

// A release is sent: with which of these fields.
pub const SENDS: u64 = 131072;

const SENDS_OOS: u64 = SENDS;

const SENDS_PO: u64 = 2 * SENDS;

const SENDS_ANS: u64 = 3 * SENDS;

const SENDS_MI: u64 = 4 * SENDS;

const SENDS_PE: u64 = 5 * SENDS;

const SENDS_PNS: u64 = 6 * SENDS;

pub const FIRST: u64 = 16777216;

const SECOND: u64 = 256 * FIRST;

const THIRD: u64 = 256 * SECOND;

const FOURTH: u64 = 256 * THIRD;

const FIFTH: u64 = 256 * FOURTH;

// What many cells share. Nothing is altered.
const KEPT: u64 = STATE + T1 + T2 + T3 + INS + LPO + UPS;

// The connection is released, and what the user wished is forgotten with it.
const RELEASED: u64 = KEPT - STATE + TO_141 - UPS;

// There is no connection, and the link is out of service.
const OUT_OF_SERVICE: u64 = KEPT - STATE + TO_111 - UPS;

// The connection is released while it is aligned or proved: another try follows.
const ABANDONED: u64 = KEPT - STATE + TO_242;

// The next try waits for T1.
const AWAITS: u64 = KEPT - STATE + TO_212 - T1 + T1_RUNS;

// A connection came up, and is proved.
const PROVES: u64 = KEPT - STATE + TO_2103 - INS - T3 + T3_RUNS;

// The signals that the table uses. First those that are known beforehand.
pub const CONGESTION_CEASED: u64 = 0;

pub const IN: u64 = 1;

pub const OUT: u64 = 2;

pub const RETRIEVAL_COMPLETE: u64 = 3;

pub const BSNT_NOT_RETRIEVABLE: u64 = 4;

pub const RELEASE_OOS: u64 = 5;

pub const RELEASE_PO: u64 = 6;

pub const RELEASE_ANS: u64 = 7;

pub const RELEASE_MI: u64 = 8;

pub const RELEASE_PE: u64 = 9;

pub const RELEASE_PNS: u64 = 10;

pub const RECOVER_RESPONSE: u64 = 11;

pub const PROVE: u64 = 12;

pub const STOP: u64 = 13;

pub const REPORT_CC: u64 = 14;

pub const REPORT_CD: u64 = 15;

pub const REPORT_SREC: u64 = 16;

pub const REPORT_UDR: u64 = 17;

pub const REPORT_PDUT: u64 = 18;

pub const REPORT_OOS: u64 = 19;

pub const REPORT_OOS_ANS: u64 = 20;

pub const REPORT_INS: u64 = 21;

pub const REPORT_ALN: u64 = 22;

pub const REPORT_LR_CD: u64 = 23;

pub const REPORT_LR_PE: u64 = 24;

pub const REPORT_LR_OOS: u64 = 25;

pub const REPORT_LR_OOS_ANS: u64 = 26;

pub const REPORT_LR_OOS_PE: u64 = 27;

pub const REPORT_SR: u64 = 28;

pub const REPORT_SR_OOS: u64 = 29;

pub const RESET_T1: u64 = 30;

pub const RESET_T2: u64 = 31;

pub const RESET_T3: u64 = 32;

pub const SET_T1: u64 = 33;

pub const SET_T2: u64 = 34;

pub const SET_T3: u64 = 35;

// From here on a signal carries something, in pairs that carry alike: a number, the event's parameter, what Table 8 offers, a unit; the last three a message.
pub const CARRYING: u64 = 36;

pub const BSNT: u64 = 36;

pub const RETRIEVE_REQUEST: u64 = 37;

pub const LINK_CONGESTED: u64 = 38;

pub const REPORT_RR_UU: u64 = 39;

pub const ESTABLISH_REQUEST: u64 = 40;

pub const ESTABLISH_RESPONSE: u64 = 41;

pub const UNIT_NM: u64 = 42;

pub const UNIT_INS: u64 = 43;

pub const RECEIVED_MESSAGE: u64 = 44;

pub const RETRIEVED_MESSAGES: u64 = 45;

pub const DATA: u64 = 46;

// What each code does.
const MESSG: u64 = KEPT + 2 * SAYS + DATA * FIRST + REPORT_PDUT * SECOND;

const STOP3: u64 = OUT_OF_SERVICE - T1 - T2
    + 3 * SAYS
    + REPORT_OOS * FIRST
    + RESET_T1 * SECOND
    + RESET_T2 * THIRD;

const STOP4: u64 = RELEASED - T2
    + 3 * SAYS
    + SENDS_OOS
    + RELEASE_OOS * FIRST
    + REPORT_OOS * SECOND
    + RESET_T2 * THIRD;

const STOP5: u64 = RELEASED - T2 + 2 * SAYS + REPORT_OOS * FIRST + RESET_T2 * SECOND;

const STOP6: u64 = RELEASED - T2 - T3
    + 5 * SAYS
    + SENDS_OOS
    + RELEASE_OOS * FIRST
    + REPORT_LR_OOS * SECOND
    + STOP * THIRD
    + RESET_T2 * FOURTH
    + RESET_T3 * FIFTH;

const STOP7: u64 = RELEASED - T2
    + 3 * SAYS
    + SENDS_OOS
    + RELEASE_OOS * FIRST
    + REPORT_LR_OOS * SECOND
    + RESET_T2 * THIRD;

const STOP8: u64 = RELEASED + 2 * SAYS + SENDS_OOS + RELEASE_OOS * FIRST + REPORT_LR_OOS * SECOND;

const START: u64 = KEPT - STATE + TO_222 - T2
    + T2_RUNS
    + 3 * SAYS
    + ESTABLISH_REQUEST * FIRST
    + REPORT_ALN * SECOND
    + SET_T2 * THIRD;

const FSNC_: u64 = KEPT + SAYS + RETRIEVE_REQUEST * FIRST;

const ALONE: u64 = KEPT;

const RCNF2: u64 = KEPT - STATE + TO_111;

const RCNF5: u64 = AWAITS + SAYS + SET_T1 * FIRST;

const INS_6: u64 = KEPT - INS + INS_1;

const INS_7: u64 = KEPT - STATE + TO_3105 - T2
    + 3 * SAYS
    + IN * FIRST
    + REPORT_INS * SECOND
    + RESET_T2 * THIRD;

const LONG7: u64 = ABANDONED + 2 * SAYS + SENDS_PE + RELEASE_PE * FIRST + REPORT_LR_PE * SECOND;

const LONG8: u64 = KEPT + SAYS + RECEIVED_MESSAGE * FIRST;

const PERR6: u64 = ABANDONED - T3
    + 4 * SAYS
    + REPORT_LR_PE * FIRST
    + SENDS_PE
    + RELEASE_PE * SECOND
    + STOP * THIRD
    + RESET_T3 * FOURTH;

const RSYN7: u64 = ABANDONED + 2 * SAYS + REPORT_LR_PE * FIRST + SENDS_PE + RELEASE_PE * SECOND;

const PERR8: u64 = RELEASED
    + 3 * SAYS
    + SENDS_PE
    + RELEASE_PE * FIRST
    + OUT * SECOND
    + REPORT_LR_OOS_PE * THIRD;

const RECOV: u64 = KEPT + 2 * SAYS + RECOVER_RESPONSE * FIRST + REPORT_SREC * SECOND;

const UDATA: u64 = KEPT + SAYS + REPORT_UDR * FIRST;

const RCOMP: u64 = KEPT + SAYS + RETRIEVAL_COMPLETE * FIRST;

const PFAIL: u64 = ABANDONED - T3 + 2 * SAYS + SENDS_PNS + RELEASE_PNS * FIRST + RESET_T3 * SECOND;

const MREL3: u64 = OUT_OF_SERVICE - T1 - T2
    + 3 * SAYS
    + OUT * FIRST
    + RESET_T1 * SECOND
    + RESET_T2 * THIRD;

const MREL4: u64 = RELEASED - T2
    + 3 * SAYS
    + SENDS_MI
    + RELEASE_MI * FIRST
    + OUT * SECOND
    + RESET_T2 * THIRD;

const MREL5: u64 = RELEASED - T2 + 2 * SAYS + OUT * FIRST + RESET_T2 * SECOND;

const MREL6: u64 = RELEASED - T2 - T3
    + 4 * SAYS
    + SENDS_MI
    + RELEASE_MI * FIRST
    + OUT * SECOND
    + RESET_T2 * THIRD
    + RESET_T3 * FOURTH;

const MREL8: u64 = RELEASED + 2 * SAYS + SENDS_MI + RELEASE_MI * FIRST + OUT * SECOND;

const OUTG_: u64 = KEPT - LPO + LPO_1;

const OUTG7: u64 = RELEASED - T2 - LPO
    + LPO_1
    + 3 * SAYS
    + SENDS_PO
    + RELEASE_PO * FIRST
    + OUT * SECOND
    + RESET_T2 * THIRD;

const OUTG8: u64 = RELEASED - LPO + LPO_1 + 2 * SAYS + SENDS_PO + RELEASE_PO * FIRST + OUT * SECOND;

const RCVRD: u64 = KEPT - LPO;

const CONG6: u64 = ABANDONED - T3
    + 4 * SAYS
    + SENDS_PNS
    + RELEASE_PNS * FIRST
    + REPORT_LR_CD * SECOND
    + STOP * THIRD
    + RESET_T3 * FOURTH;

const CONG_: u64 = KEPT + 2 * SAYS + LINK_CONGESTED * FIRST + REPORT_CD * SECOND;

const CEAS5: u64 = KEPT + SAYS + REPORT_CC * FIRST;

const CEAS_: u64 = KEPT + 2 * SAYS + CONGESTION_CEASED * FIRST + REPORT_CC * SECOND;

const T1EX3: u64 = KEPT - STATE + TO_222 - T1 + SAYS + ESTABLISH_REQUEST * FIRST;

const T2EX3: u64 = OUT_OF_SERVICE - T1 - T2
    + 3 * SAYS
    + OUT * FIRST
    + REPORT_LR_OOS_ANS * SECOND
    + RESET_T1 * THIRD;

const T2EX4: u64 = RELEASED - T2
    + 3 * SAYS
    + SENDS_ANS
    + RELEASE_ANS * FIRST
    + OUT * SECOND
    + REPORT_LR_OOS_ANS * THIRD;

const T2EX5: u64 = RELEASED - T2 + 2 * SAYS + OUT * FIRST + REPORT_OOS_ANS * SECOND;

const T2EX6: u64 = RELEASED - T2 - T3
    + 5 * SAYS
    + REPORT_LR_OOS_ANS * FIRST
    + STOP * SECOND
    + OUT * THIRD
    + SENDS_ANS
    + RELEASE_ANS * FOURTH
    + RESET_T3 * FIFTH;

const T2EX7: u64 = RELEASED - T2
    + 3 * SAYS
    + REPORT_LR_OOS_ANS * FIRST
    + OUT * SECOND
    + SENDS_ANS
    + RELEASE_ANS * THIRD;

const T3PRV: u64 = KEPT - T3 + T3_RUNS + 2 * SAYS + UNIT_NM * FIRST + SET_T3 * SECOND;

const BSNT_: u64 = KEPT + SAYS + BSNT * FIRST;

const BSNTN: u64 = KEPT + SAYS + BSNT_NOT_RETRIEVABLE * FIRST;

const EIND1: u64 = KEPT + SAYS + SENDS_PO + RELEASE_PO * FIRST;

const EIN1A: u64 = KEPT + SAYS + SENDS_OOS + RELEASE_OOS * FIRST;

const RETRV: u64 = KEPT + SAYS + RETRIEVED_MESSAGES * FIRST;

const RETRN: u64 = KEPT;

const RIND_: u64 = AWAITS + 2 * SAYS + REPORT_RR_UU * FIRST + SET_T1 * SECOND;

const RINDS: u64 = AWAITS + 2 * SAYS + REPORT_SR * FIRST + SET_T1 * SECOND;

const RIND6: u64 = AWAITS - T3
    + 4 * SAYS
    + REPORT_RR_UU * FIRST
    + STOP * SECOND
    + RESET_T3 * THIRD
    + SET_T1 * FOURTH;

const RIN6S: u64 = AWAITS - T3
    + 4 * SAYS
    + REPORT_SR * FIRST
    + STOP * SECOND
    + RESET_T3 * THIRD
    + SET_T1 * FOURTH;

const RIND8: u64 = OUT_OF_SERVICE + 2 * SAYS + OUT * FIRST + REPORT_RR_UU * SECOND;

const RIN8S: u64 = OUT_OF_SERVICE + 2 * SAYS + OUT * FIRST + REPORT_SR_OOS * SECOND;

const ECNF4: u64 = PROVES + 2 * SAYS + PROVE * FIRST + SET_T3 * SECOND;

const ECN4N: u64 = ABANDONED - INS
    + 2 * SAYS
    + SENDS_PE
    + RELEASE_PE * FIRST
    + REPORT_LR_PE * SECOND;

const EIND3: u64 = PROVES - T1
    + 4 * SAYS
    + ESTABLISH_RESPONSE * FIRST
    + PROVE * SECOND
    + RESET_T1 * THIRD
    + SET_T3 * FOURTH;

const EIN3N: u64 = KEPT + 2 * SAYS + SENDS_PE + RELEASE_PE * FIRST + REPORT_LR_PE * SECOND;

const T3END: u64 = RELEASED - T2 - T3
    + 5 * SAYS
    + SENDS_PO
    + RELEASE_PO * FIRST
    + OUT * SECOND
    + REPORT_LR_OOS * THIRD
    + STOP * FOURTH
    + RESET_T2 * FIFTH;

const T3INS: u64 = KEPT - STATE + TO_3105 - T2 - T3
    + 5 * SAYS
    + STOP * FIRST
    + UNIT_INS * SECOND
    + REPORT_INS * THIRD
    + IN * FOURTH
    + RESET_T2 * FIFTH;

const T3RDY: u64 = KEPT - STATE + TO_2104 - T3 + 2 * SAYS + STOP * FIRST + UNIT_INS * SECOND;

// What ECNF4 and EIND3 do where they lead to 2/10/3 on a congested link: congestion there follows at once (2026-07), and gives the connection up. The signals of both
// are more than a number has place for: the words stand by themselves, those of CONG6 behind the first ones.
const CONFIRMED: u64 = ABANDONED - INS - T3 + SENDS_PNS + 6 * SAYS;

const CONFIRMED_WORDS: u64 = ECNF4 / FIRST + CONG6 / FIRST * 65536;

const INDICATED: u64 = ABANDONED - INS - T3 - T1 + SENDS_PNS + 8 * SAYS;

const INDICATED_WORDS: u64 = EIND3 / FIRST + CONG6 / FIRST * 4294967296;

// No cell has the last code. Its number counts more signals than any other: else the compiler would write the loop over them out turn by turn (D63).
const NO_CELL: u64 = 15 * SAYS;

// The number of a code, which is below 64. All arms are constants: the compiler makes a table of it, with no jump, and since all 64 are there no test.
#[tactic(auto, unfolding(crate::specs::Stored::number_at))]
fn number(code: u8) -> u64
    ensures { result ≡ number_at code }
{
    match code {
        cells::ILLEG => 0,
        cells::MESSG => MESSG,
        cells::STOP3 => STOP3,
        cells::STOP4 => STOP4,
        cells::STOP5 => STOP5,
        cells::STOP6 => STOP6,
        cells::STOP7 => STOP7,
        cells::STOP8 => STOP8,
        cells::START => START,
        cells::FSNC_ => FSNC_,
        cells::ALONE => ALONE,
        cells::RCNF2 => RCNF2,
        cells::RCNF5 => RCNF5,
        cells::INS_6 => INS_6,
        cells::INS_7 => INS_7,
        cells::LONG7 => LONG7,
        cells::LONG8 => LONG8,
        cells::PERR6 => PERR6,
        cells::RSYN7 => RSYN7,
        cells::PERR8 => PERR8,
        cells::RECOV => RECOV,
        cells::UDATA => UDATA,
        cells::RCOMP => RCOMP,
        cells::PFAIL => PFAIL,
        cells::MREL3 => MREL3,
        cells::MREL4 => MREL4,
        cells::MREL5 => MREL5,
        cells::MREL6 => MREL6,
        cells::MREL8 => MREL8,
        cells::OUTG_ => OUTG_,
        cells::OUTG7 => OUTG7,
        cells::OUTG8 => OUTG8,
        cells::RCVRD => RCVRD,
        cells::CONG6 => CONG6,
        cells::CONG_ => CONG_,
        cells::CEAS5 => CEAS5,
        cells::CEAS_ => CEAS_,
        cells::T1EX3 => T1EX3,
        cells::T2EX3 => T2EX3,
        cells::T2EX4 => T2EX4,
        cells::T2EX5 => T2EX5,
        cells::T2EX6 => T2EX6,
        cells::T2EX7 => T2EX7,
        cells::T3PRV => T3PRV,
        cells::BSNT_ => BSNT_,
        cells::BSNTN => BSNTN,
        cells::EIND1 => EIND1,
        cells::EIN1A => EIN1A,
        cells::RETRV => RETRV,
        cells::RETRN => RETRN,
        cells::RIND_ => RIND_,
        cells::RINDS => RINDS,
        cells::RIND6 => RIND6,
        cells::RIN6S => RIN6S,
        cells::RIND8 => RIND8,
        cells::RIN8S => RIN8S,
        cells::ECNF4 => ECNF4,
        cells::ECN4N => ECN4N,
        cells::EIND3 => EIND3,
        cells::EIN3N => EIN3N,
        cells::T3END => T3END,
        cells::T3INS => T3INS,
        cells::T3RDY => T3RDY,
        63 => NO_CELL,
        _ => 0,
    }
}

// How far an alternative is from the first: the first if the condition holds.
fn or_next(holds: bool) -> u16
    ensures { result ≡ cond holds 0 1 }
{
    u16::from(!holds)
}

// The same at the end of proving, which asks for LPO and for the INS flag.
fn ended(f: Facts) -> u16
    ensures { result ≡ cond f.lpo 0 (cond f.ins 1 2) }
{
    if f.lpo {
        0
    } else if f.ins {
        1
    } else {
        2
    }
}

// The code of an alternative, which is a code and at most 2, and whether a connection comes up with it.
#[derive(Clone, Copy)]
struct Alternative(u16, bool);

// Of the codes that ask for BSNT, for LPO alone, or for a message's length.
fn seldom(code: u8, f: Facts) -> Alternative
    ensures { result ≡ picked f (seldom_asks code) }
{
    if code < cells::EIND1 {
        return Alternative(code as u16 + or_next(f.bsnt), false);
    }
    if code < cells::RETRV {
        return Alternative(code as u16 + or_next(f.lpo), false);
    }
    Alternative(code as u16 + or_next(f.long), false)
}

// What the facts choose of a code's alternatives. The codes are told apart by ranges of more than one each: a code that is known by itself the compiler
// would follow through the table of numbers, and make a jump of it.
#[tactic(auto, unfolding(crate::specs::Stored::ask_at))]
fn chosen(code: u8, f: Facts) -> Alternative
    ensures { result ≡ picked f (ask_at code) }
{
    if code < cells::BSNT_ {
        return Alternative(code as u16, false);
    }
    if cells::T3END <= code {
        return Alternative(code as u16 + ended(f), false);
    }
    if cells::EIND3 <= code {
        return Alternative(code as u16 + or_next(f.uu), f.uu);
    }
    if cells::ECNF4 <= code {
        return Alternative(code as u16 + or_next(f.uu), true);
    }
    if cells::RIND_ <= code {
        return Alternative(code as u16 + or_next(f.user), false);
    }
    seldom(code, f)
}

// The same of a code that leads to 2/10/3 on a congested link.
fn gone_on(code: u8) -> Does
    ensures { result ≡ gone_on code }
{
    if code < cells::EIND3 {
        return Does {
            number: CONFIRMED,
            words: CONFIRMED_WORDS,
            up: true,
        };
    }
    Does {
        number: INDICATED,
        words: INDICATED_WORDS,
        up: true,
    }
}

// Whether it does: the link is congested, which it seldom is, and the peer's field is EM or NM.
fn goes_on(code: u8, f: Facts, congested: bool) -> bool
    ensures { result ≡ (congested && (f.uu && leading code)) }
{
    if congested {
        return f.uu & ((cells::ECNF4 <= code) & (code < cells::T3END));
    }
    false
}

// What a code does to the link, and its signals, where the cell asks a condition by what the facts say.
#[tactic(auto, unfolding(crate::specs::Stored::met_of))]
pub(crate) fn does(code: u8, f: Facts, congested: bool) -> Option<Does>
    ensures { result ≡ met_of code f congested }
{
    if code == cells::ILLEG {
        return None;
    }
    if goes_on(code, f, congested) {
        return Some(gone_on(code));
    }
    let Alternative(c, up) = chosen(code, f);
    let n = number((c % 64) as u8);
    Some(Does {
        number: n,
        words: n / FIRST,
        up,
    })
}
