// Document 01's codes of the events. Numbers and no enum: each is octet 4 of an event's record, which C writes.
// `Event` of `link` is the enum; one of codes between the two would be made and matched at once.

// From the user.
pub const MESSAGE_FOR_TRANSMISSION: u8 = 1;

pub const EMERGENCY: u8 = 2;

pub const EMERGENCY_CEASES: u8 = 3;

pub const STOP: u8 = 4;

pub const START: u8 = 5;

pub const RETRIEVE_BSNT: u8 = 6;

pub const RETRIEVAL_REQUEST_AND_FSNC: u8 = 7;

pub const FLUSH_BUFFERS: u8 = 8;

pub const CONTINUE: u8 = 9;

// From SSCOP.
pub const ESTABLISH_INDICATION: u8 = 16;

pub const ESTABLISH_CONFIRM: u8 = 17;

pub const RELEASE_INDICATION: u8 = 18;

pub const RELEASE_CONFIRM: u8 = 19;

pub const DATA_INDICATION: u8 = 20;

pub const RESYNC_INDICATION: u8 = 21;

pub const RECOVER_INDICATION: u8 = 22;

pub const UNITDATA_INDICATION: u8 = 23;

pub const RETRIEVE_INDICATION: u8 = 24;

pub const RETRIEVE_COMPLETE_INDICATION: u8 = 25;

// From layer management.
pub const PROVING_UNSUCCESSFUL: u8 = 32;

pub const RELEASE: u8 = 33;

pub const OUTAGE: u8 = 34;

pub const RECOVERED: u8 = 35;

pub const FORCE_PROVING: u8 = 36;

pub const FORCE_EMERGENCY: u8 = 37;

pub const CLEAR_FORCE_MODES: u8 = 38;

pub const CONGESTION: u8 = 39;

pub const CONGESTION_CEASED: u8 = 40;

// Timers.
pub const T1_EXPIRED: u8 = 48;

pub const T2_EXPIRED: u8 = 49;

pub const T3_EXPIRED: u8 = 50;
