// Clause 10 of Q.2140 and its Tables 7 and 8: the four-octet units that two peers exchange, and how many of them prove a link.
#![tactic(auto)]

ghost use Rattle.std.specs.Prelude.{◌≡◌};
ghost use Rattle.unit.specs.Unit.{none_or_status, code, unit_of, arrived};
ghost use Rattle.unit.specs.Named.{Names, MpsNamed};
ghost use Rattle.unit.specs.Proving.{mps_code, ups_code, asked, table7, table8};

// What a peer says of itself in a unit, each with the code that clause 10 lists.
#[derive(Clone, Copy, PartialEq, Eq)]
pub enum Status {
    OOS = 1,
    PO = 2,
    INS = 3,
    NM = 4,
    EM = 5,
    ANS = 7,
    MI = 8,
    PE = 9,
    PNS = 10,
}

impl Status {
    // The status as clause 10 codes it.
    pub fn code(self) -> u8
        ensures { result ≡ code self }
    {
        self as u8
    }
}

const INS: u8 = Status::INS as u8;

const NM: u8 = Status::NM as u8;

const EM: u8 = Status::EM as u8;

// A code that stands for none of what is asked for.
#[derive(Clone, Copy, PartialEq, Eq)]
pub struct Unnamed;

// Reads a status field.
impl TryFrom<u8> for Status {
    type Error = Unnamed;

    ghost try_from_gives = { Names };

    #[tactic(auto, unfolding(crate::specs::Unit::decoded))]
    fn try_from(field: u8) -> Result<Self, Unnamed> {
        match field {
            1 => Ok(Status::OOS),
            2 => Ok(Status::PO),
            3 => Ok(Status::INS),
            4 => Ok(Status::NM),
            5 => Ok(Status::EM),
            7 => Ok(Status::ANS),
            8 => Ok(Status::MI),
            9 => Ok(Status::PE),
            10 => Ok(Status::PNS),
            _ => Err(Unnamed),
        }
    }
}

// Whether a field is one of the nine, or none, 0.
pub fn none_or_status(field: u8) -> bool
    ensures { result ≡ none_or_status field }
{
    field == 0 || Status::try_from(field).is_ok()
}

// Writes a unit.
#[tactic(auto, unfolding(crate::specs::Unit::unit_of))]
pub fn write(status: Status) -> [u8; 4]
    ensures { result ≡ unit_of status }
{
    [0, 0, 0, status.code()]
}

// What a message from the peer is: the proving unit, the INS unit, another unit with its status field, or no unit, being too short or too long.
#[derive(Clone, Copy)]
pub enum Arrived {
    NM,
    INS,
    Other(u8),
    Short,
    Long,
}

// Reads a message that arrived, a long one with one test. The reserved octets are not looked at.
#[tactic(auto, using(crate::proofs::Unit::by_length), unfolding(crate::specs::Unit::kind))]
pub fn read(message: &[u8]) -> Arrived
    ensures { result ≡ arrived message.now }
{
    if 4 < message.len() {
        return Arrived::Long;
    }
    if message.len() < 4 {
        return Arrived::Short;
    }
    let status = message[3];
    match status {
        NM => Arrived::NM,
        INS => Arrived::INS,
        _ => Arrived::Other(status),
    }
}

// Management_Proving_Status: what layer management forces.
#[derive(Clone, Copy)]
pub enum Mps {
    Neutral = 0,
    Normal = 1,
    Emergency = 2,
}

impl Mps {
    pub fn code(self) -> u8
        ensures { result ≡ mps_code self }
    {
        self as u8
    }
}

impl TryFrom<u8> for Mps {
    type Error = Unnamed;

    ghost try_from_gives = { MpsNamed };

    fn try_from(code: u8) -> Result<Self, Unnamed> {
        match code {
            0 => Ok(Mps::Neutral),
            1 => Ok(Mps::Normal),
            2 => Ok(Mps::Emergency),
            _ => Err(Unnamed),
        }
    }
}

// User_Proving_Status: what the user wishes.
#[derive(Clone, Copy)]
pub enum Ups {
    Normal = 0,
    Emergency = 1,
}

impl Ups {
    pub fn code(self) -> u8
        ensures { result ≡ ups_code self }
    {
        self as u8
    }
}

// Table 7, by MPS, UPS and what the peer asks for: 1 where n1 proving units are sent, 0 where none is.
const TABLE_7: [u8; 12] = [1, 0, 0, 0, 1, 1, 1, 1, 0, 0, 0, 0];

#[tactic(auto, unfolding(crate::specs::Proving::asked))]
fn asks(field: u8) -> Ups
    ensures { result ≡ asked field }
{
    if field == EM {
        Ups::Emergency
    } else {
        Ups::Normal
    }
}

// The number of proving units to be sent on a connection that comes up with the peer's field.
#[tactic(auto, using(crate::proofs::Proving::by_entry))]
pub fn generate_n1(mps: Mps, ups: Ups, field: u8, n1: u16) -> u16
    ensures { result ≡ table7 mps ups (asked field) n1 }
{
    let i = mps.code() as usize * 4 + ups.code() as usize * 2 + asks(field).code() as usize;
    if TABLE_7[i] == 1 { n1 } else { 0 }
}

// The field that goes to the peer with an AA-ESTABLISH-request or -response.
#[tactic(auto, unfolding(crate::specs::Proving::table8))]
pub fn sscop_uu(mps: Mps, ups: Ups) -> Status
    ensures { result ≡ table8 mps ups }
{
    match (mps, ups) {
        (Mps::Emergency, _) => Status::EM,
        (Mps::Normal, _) => Status::NM,
        (Mps::Neutral, Ups::Normal) => Status::NM,
        (Mps::Neutral, Ups::Emergency) => Status::EM,
    }
}
