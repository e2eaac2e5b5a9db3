// Table 6 as one constant: a code for each cell. What a code does stands in effects.rt.
ghost use Rattle.std.specs.Prelude.{◌≡◌};
ghost use Rattle.table6.specs.Stored.{code_at, place, row_of, state_at};

use crate::{State, rows};

// Codes of what a cell does: the event, and document 01's code of the state where it does one thing here and another there. What an event does in
// whatever state it is accepted is no part of it. Numbers and no enum: document 01 names the form, a const table of cell codes, and the alternatives of a condition are
// found by adding to a code.
pub const ILLEG: u8 = 0; // Illegal

pub const MESSG: u8 = 1; // MESSAGE_FOR_TRANSMISSION

pub const STOP3: u8 = 2;

pub const STOP4: u8 = 3;

pub const STOP5: u8 = 4;

pub const STOP6: u8 = 5;

pub const STOP7: u8 = 6;

pub const STOP8: u8 = 7;

pub const START: u8 = 8;

pub const FSNC_: u8 = 9; // RETRIEVAL_REQUEST_AND_FSNC

pub const ALONE: u8 = 10; // what the event does by itself, and nothing else

pub const RCNF2: u8 = 11; // RELEASE-confirm

pub const RCNF5: u8 = 12;

pub const INS_6: u8 = 13; // DATA, an INS unit

pub const INS_7: u8 = 14;

pub const LONG7: u8 = 15; // DATA of more than four octets

pub const LONG8: u8 = 16;

pub const PERR6: u8 = 17; // a protocol error: RESYNC, RECOVER, DATA of more than four octets

pub const RSYN7: u8 = 18; // RESYNC

pub const PERR8: u8 = 19; // RESYNC, DATA with an INS or an NM unit

pub const RECOV: u8 = 20;

pub const UDATA: u8 = 21; // UNITDATA

pub const RCOMP: u8 = 22; // RETRIEVE_COMPLETE

pub const PFAIL: u8 = 23; // PROVING_UNSUCCESSFUL

pub const MREL3: u8 = 24; // management's RELEASE

pub const MREL4: u8 = 25; // in 7 too

pub const MREL5: u8 = 26;

pub const MREL6: u8 = 27;

pub const MREL8: u8 = 28;

pub const OUTG_: u8 = 29; // LOCAL_PROCESSOR_OUTAGE

pub const OUTG7: u8 = 30;

pub const OUTG8: u8 = 31;

pub const RCVRD: u8 = 32; // LOCAL_PROCESSOR_RECOVERED

pub const CONG6: u8 = 33; // congestion

pub const CONG_: u8 = 34;

pub const CEAS5: u8 = 35; // congestion ceased

pub const CEAS_: u8 = 36;

pub const T1EX3: u8 = 37; // T1 expires

pub const T2EX3: u8 = 38; // T2 expires

pub const T2EX4: u8 = 39;

pub const T2EX5: u8 = 40;

pub const T2EX6: u8 = 41;

pub const T2EX7: u8 = 42;

pub const T3PRV: u8 = 43; // T3 expires, C1 > 0

// From here on a cell asks a condition. Its alternatives have neighbouring codes, the first of them in the table.
pub const BSNT_: u8 = 44; // RETRIEVE_BSNT

pub const BSNTN: u8 = 45; // not retrievable

pub const EIND1: u8 = 46; // ESTABLISH-indication, LPO is 1

pub const EIN1A: u8 = 47; // LPO is 0

pub const RETRV: u8 = 48; // RETRIEVE-indication, of more than four octets

pub const RETRN: u8 = 49; // of four octets at most

pub const RIND_: u8 = 50; // RELEASE-indication, from the user

pub const RINDS: u8 = 51; // from SSCOP

pub const RIND6: u8 = 52; // from the user

pub const RIN6S: u8 = 53; // from SSCOP

pub const RIND8: u8 = 54; // from the user

pub const RIN8S: u8 = 55; // from SSCOP

pub const ECNF4: u8 = 56; // ESTABLISH-confirm, with EM or NM

pub const ECN4N: u8 = 57; // with another field

pub const EIND3: u8 = 58; // ESTABLISH-indication, with EM or NM

pub const EIN3N: u8 = 59; // with another field

pub const T3END: u8 = 60; // T3 expires, C1 = 0, LPO is 1

pub const T3INS: u8 = 61; // LPO is 0, the INS flag 1

pub const T3RDY: u8 = 62; // both are 0

// Rows by states, with document 01's codes of the states above them.
const TABLE_6: [[u8; 8]; 35] = [
    // 1      2      3      4      5      6      7      8
    // 1/1/1  1/4/1  2/1/2  2/2/2  2/4/2  2/10/3 2/10/4 3/10/5
    [ILLEG, ILLEG, ILLEG, ILLEG, ILLEG, ILLEG, ILLEG, MESSG], // AAL-MESSAGE_FOR_TRANSMISSION-request
    [ALONE, ALONE, ALONE, ALONE, ALONE, ALONE, ALONE, ILLEG], // AAL-EMERGENCY-request
    [ALONE, ALONE, ALONE, ALONE, ALONE, ALONE, ALONE, ILLEG], // AAL-EMERGENCY_CEASES-request
    [ILLEG, ILLEG, STOP3, STOP4, STOP5, STOP6, STOP7, STOP8], // AAL-STOP-request
    [START, START, ILLEG, ILLEG, ILLEG, ILLEG, ILLEG, ILLEG], // AAL-START-request
    [BSNT_, BSNT_, ILLEG, ILLEG, ILLEG, ILLEG, ILLEG, ILLEG], // AAL-RETRIEVE_BSNT-request
    [FSNC_, FSNC_, ILLEG, ILLEG, ILLEG, ILLEG, ILLEG, ILLEG], // AAL-RETRIEVAL_REQUEST_AND_FSNC-request
    [ALONE, ALONE, ALONE, ALONE, ALONE, ALONE, ALONE, ALONE], // AAL-FLUSH_BUFFERS-request
    [ALONE, ALONE, ALONE, ALONE, ALONE, ALONE, ALONE, ALONE], // AAL-CONTINUE-request
    [EIND1, ILLEG, EIND3, ILLEG, ILLEG, ILLEG, ILLEG, ILLEG], // AA-ESTABLISH-indication
    [ILLEG, ILLEG, ILLEG, ECNF4, ILLEG, ILLEG, ILLEG, ILLEG], // AA-ESTABLISH-confirm
    [ILLEG, ILLEG, ILLEG, RIND_, ILLEG, RIND6, RIND_, RIND8], // AA-RELEASE-indication
    [ILLEG, RCNF2, ILLEG, ILLEG, RCNF5, ILLEG, ILLEG, ILLEG], // AA-RELEASE-confirm
    [ILLEG, ILLEG, ILLEG, ILLEG, ILLEG, INS_6, INS_7, PERR8], // AA-DATA-indication, INS unit
    [ILLEG, ILLEG, ILLEG, ILLEG, ILLEG, ALONE, ALONE, PERR8], // AA-DATA-indication, NM unit
    [ILLEG, ILLEG, ILLEG, ILLEG, ILLEG, ALONE, ALONE, ALONE], // AA-DATA-indication, other unit or short
    [ILLEG, ILLEG, ILLEG, ILLEG, ILLEG, PERR6, LONG7, LONG8], // AA-DATA-indication, long message
    [ILLEG, ILLEG, ILLEG, ILLEG, ILLEG, PERR6, RSYN7, PERR8], // AA-RESYNC-indication
    [ILLEG, ILLEG, ILLEG, ILLEG, ILLEG, PERR6, RECOV, RECOV], // AA-RECOVER-indication
    [UDATA, UDATA, UDATA, UDATA, UDATA, UDATA, UDATA, UDATA], // AA-UNITDATA-indication
    [RETRV, RETRV, ILLEG, ILLEG, ILLEG, ILLEG, ILLEG, ILLEG], // AA-RETRIEVE-indication
    [RCOMP, RCOMP, ILLEG, ILLEG, ILLEG, ILLEG, ILLEG, ILLEG], // AA-RETRIEVE_COMPLETE-indication
    [ILLEG, ILLEG, ILLEG, ILLEG, ILLEG, PFAIL, ILLEG, ILLEG], // MAAL-PROVING_UNSUCCESSFUL-response
    [ALONE, ALONE, MREL3, MREL4, MREL5, MREL6, MREL4, MREL8], // MAAL-RELEASE-request
    [OUTG_, OUTG_, OUTG_, OUTG_, OUTG_, OUTG_, OUTG7, OUTG8], // MAAL-LOCAL_PROCESSOR_OUTAGE-request
    [RCVRD, RCVRD, RCVRD, RCVRD, RCVRD, RCVRD, ILLEG, ILLEG], // MAAL-LOCAL_PROCESSOR_RECOVERED-request
    [ALONE, ALONE, ALONE, ALONE, ALONE, ALONE, ALONE, ALONE], // MAAL-FORCE_PROVING-request
    [ALONE, ALONE, ALONE, ALONE, ALONE, ALONE, ALONE, ALONE], // MAAL-FORCE_EMERGENCY-request
    [ALONE, ALONE, ALONE, ALONE, ALONE, ALONE, ALONE, ALONE], // MAAL-CLEAR_FORCE_MODES-request
    [ALONE, ALONE, ALONE, ALONE, ALONE, CONG6, CONG_, CONG_], // Local Congestion
    [ALONE, ALONE, ALONE, ALONE, CEAS5, ILLEG, CEAS_, CEAS_], // Local Congestion Ceased
    [ILLEG, ILLEG, T1EX3, ILLEG, ILLEG, ILLEG, ILLEG, ILLEG], // T1 expires
    [ILLEG, ILLEG, T2EX3, T2EX4, T2EX5, T2EX6, T2EX7, ILLEG], // T2 expires
    [ILLEG, ILLEG, ILLEG, ILLEG, ILLEG, T3PRV, ILLEG, ILLEG], // T3 expires and C1 > 0
    [ILLEG, ILLEG, ILLEG, ILLEG, ILLEG, T3END, ILLEG, ILLEG], // T3 expires and C1 = 0
];

pub fn column(s: State) -> usize
    ensures { result ≡ place s }
{
    s as usize - 1
}

// The state of a column.
pub fn state_at(column: u8) -> State
    ensures { result ≡ state_at column }
{
    State::try_from(column % 8 + 1).unwrap_or(State::S3105)
}

// The only place that reads the table. It is read at constant indices, so that it costs nothing: the compiler keeps of it the row of each arm. At an index
// that varies it would be built on the stack at each read.
#[tactic(auto, unfolding(crate::specs::Stored::row_of))]
fn row_of(row: u8) -> [u8; 8]
    ensures { result ≡ row_of row }
{
    let table = TABLE_6;
    match row {
        rows::MESSAGE_FOR_TRANSMISSION => table[0],
        rows::EMERGENCY => table[1],
        rows::EMERGENCY_CEASES => table[2],
        rows::STOP => table[3],
        rows::START => table[4],
        rows::RETRIEVE_BSNT => table[5],
        rows::RETRIEVAL_REQUEST_AND_FSNC => table[6],
        rows::FLUSH_BUFFERS => table[7],
        rows::CONTINUE => table[8],
        rows::ESTABLISH_INDICATION => table[9],
        rows::ESTABLISH_CONFIRM => table[10],
        rows::RELEASE_INDICATION => table[11],
        rows::RELEASE_CONFIRM => table[12],
        rows::DATA_INS => table[13],
        rows::DATA_NM => table[14],
        rows::DATA_OTHER => table[15],
        rows::DATA_LONG => table[16],
        rows::RESYNC => table[17],
        rows::RECOVER => table[18],
        rows::UNITDATA => table[19],
        rows::RETRIEVE => table[20],
        rows::RETRIEVE_COMPLETE => table[21],
        rows::PROVING_UNSUCCESSFUL => table[22],
        rows::RELEASE => table[23],
        rows::OUTAGE => table[24],
        rows::RECOVERED => table[25],
        rows::FORCE_PROVING => table[26],
        rows::FORCE_EMERGENCY => table[27],
        rows::CLEAR_FORCE_MODES => table[28],
        rows::CONGESTION => table[29],
        rows::CONGESTION_CEASED => table[30],
        rows::T1_EXPIRES => table[31],
        rows::T2_EXPIRES => table[32],
        rows::T3_EXPIRES => table[33],
        rows::T3_EXPIRES_C1_0 => table[34],
        _ => [ILLEG; 8],
    }
}

// The code of a cell.
#[tactic(auto, unfolding(crate::specs::Stored::code_at))]
pub fn code_at(row: u8, s: State) -> u8
    ensures { result ≡ code_at row s }
{
    let cells = row_of(row);
    cells[column(s)]
}
