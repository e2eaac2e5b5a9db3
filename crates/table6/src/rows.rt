// The rows of Table 6, numbered in the order of document 01's event codes: DATA has four, T3 two. Numbers and no enum: `cell` answers for every octet, a row that the
// table doesn't have being Illegal.
pub const MESSAGE_FOR_TRANSMISSION: u8 = 0;

pub const EMERGENCY: u8 = 1;

pub const EMERGENCY_CEASES: u8 = 2;

pub const STOP: u8 = 3;

pub const START: u8 = 4;

pub const RETRIEVE_BSNT: u8 = 5;

pub const RETRIEVAL_REQUEST_AND_FSNC: u8 = 6;

pub const FLUSH_BUFFERS: u8 = 7;

pub const CONTINUE: u8 = 8;

pub const ESTABLISH_INDICATION: u8 = 9;

pub const ESTABLISH_CONFIRM: u8 = 10;

pub const RELEASE_INDICATION: u8 = 11;

pub const RELEASE_CONFIRM: u8 = 12;

pub const DATA_INS: u8 = 13;

pub const DATA_NM: u8 = 14;

pub const DATA_OTHER: u8 = 15;

pub const DATA_LONG: u8 = 16;

pub const RESYNC: u8 = 17;

pub const RECOVER: u8 = 18;

pub const UNITDATA: u8 = 19;

pub const RETRIEVE: u8 = 20;

pub const RETRIEVE_COMPLETE: u8 = 21;

pub const PROVING_UNSUCCESSFUL: u8 = 22;

pub const RELEASE: u8 = 23;

pub const OUTAGE: u8 = 24;

pub const RECOVERED: u8 = 25;

pub const FORCE_PROVING: u8 = 26;

pub const FORCE_EMERGENCY: u8 = 27;

pub const CLEAR_FORCE_MODES: u8 = 28;

pub const CONGESTION: u8 = 29;

pub const CONGESTION_CEASED: u8 = 30;

pub const T1_EXPIRES: u8 = 31;

pub const T2_EXPIRES: u8 = 32;

pub const T3_EXPIRES: u8 = 33;

pub const T3_EXPIRES_C1_0: u8 = 34;
