// The values of a REPORT, as document 01 and docs/CODES.md number them. Numbers and no enums: they are octets 6 to 8 of a signal's record, which C reads.
// They stand in arrays of octets alone, where an enum would be cast at each place.

// "-", in place of any of the three.
pub const NONE: u8 = 0;

// The first.
pub const LR: u8 = 1;

pub const RR: u8 = 2;

pub const SR: u8 = 3;

// The second.
pub const OOS: u8 = 1;

pub const INS: u8 = 2;

pub const ALN: u8 = 3;

// The third.
pub const ANS: u8 = 1;

pub const CC: u8 = 2;

pub const CD: u8 = 3;

pub const PE: u8 = 4;

pub const SREC: u8 = 5;

pub const UDR: u8 = 6;

pub const PDUT: u8 = 7;

pub const SSCOP_UU: u8 = 8;
