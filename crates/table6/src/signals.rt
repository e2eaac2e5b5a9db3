// Document 01's codes of the signals. Numbers and no enum: each is octet 4 of a signal's record, which C reads.
// They stand in arrays of octets alone, where an enum would be cast at each of some fifty places.

// To the user.
pub const RECEIVED_MESSAGE: u8 = 1;

pub const LINK_CONGESTED: u8 = 2;

pub const CONGESTION_CEASED: u8 = 3;

pub const IN_SERVICE: u8 = 4;

pub const OUT_OF_SERVICE: u8 = 5;

pub const RETRIEVED_MESSAGES: u8 = 6;

pub const RETRIEVAL_COMPLETE: u8 = 7;

pub const BSNT: u8 = 8;

pub const BSNT_NOT_RETRIEVABLE: u8 = 9;

// To SSCOP.
pub const ESTABLISH_REQUEST: u8 = 16;

pub const ESTABLISH_RESPONSE: u8 = 17;

pub const RELEASE_REQUEST: u8 = 18;

pub const DATA_REQUEST: u8 = 19;

pub const RECOVER_RESPONSE: u8 = 20;

pub const RETRIEVE_REQUEST: u8 = 21;

// To layer management.
pub const START_PROVING: u8 = 32;

pub const STOP_PROVING: u8 = 33;

pub const REPORT: u8 = 34;

// Timer orders.
pub const SET_T1: u8 = 48;

pub const SET_T2: u8 = 49;

pub const SET_T3: u8 = 50;

pub const RESET_T1: u8 = 56;

pub const RESET_T2: u8 = 57;

pub const RESET_T3: u8 = 58;
