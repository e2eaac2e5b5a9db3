// Table 6 of Q.2140: what the cell of an event and a state does, as a constant table with what its codes stand for.
#![tactic(auto)]

mod cells;
pub mod effects;
pub mod events;
pub mod rows;
pub mod signals;

ghost use Rattle.std.specs.Prelude.{◌≡◌};
ghost use Rattle.table6.specs.States.{StateNamed};
ghost use Rattle.table6.specs.Stored.{met_as, met, goes_on, Sound, state_after};

use unit::Unnamed;

// The states of Q.2140: S2103 is 2/10/3, and so on, each with document 01's code.
#[derive(Clone, Copy, PartialEq, Eq)]
pub enum State {
    S111 = 1,
    S141 = 2,
    S212 = 3,
    S222 = 4,
    S242 = 5,
    S2103 = 6,
    S2104 = 7,
    S3105 = 8,
}

impl TryFrom<u8> for State {
    type Error = Unnamed;

    ghost try_from_gives = { StateNamed };

    fn try_from(code: u8) -> Result<Self, Unnamed> {
        match code {
            1 => Ok(State::S111),
            2 => Ok(State::S141),
            3 => Ok(State::S212),
            4 => Ok(State::S222),
            5 => Ok(State::S242),
            6 => Ok(State::S2103),
            7 => Ok(State::S2104),
            8 => Ok(State::S3105),
            _ => Err(Unnamed),
        }
    }
}

// What the conditions of a cell ask.
#[derive(Clone, Copy)]
pub struct Facts {
    // LPO is 1.
    pub lpo: bool,
    // The INS flag is 1.
    pub ins: bool,
    // The peer's SSCOP-UU is EM or NM.
    pub uu: bool,
    // The far user released, and not SSCOP.
    pub user: bool,
    // BSNT is available.
    pub bsnt: bool,
    // The message has more than four octets.
    pub long: bool,
}

// What an event does where it is legal: to the link, as a number of effects.rt; the words of its signals; and whether a connection comes up.
#[derive(Clone, Copy)]
pub struct Does {
    pub number: u64,
    pub words: u64,
    pub up: bool,
}

// The cell of a row and a state under these facts, and where it leads to 2/10/3 on a congested link, congestion there behind it. A row that the table doesn't
// have is illegal, and so is a cell that says so: the answer is None.
pub fn cell(row: u8, state: State, facts: Facts, congested: bool) -> Option<Does>
    ensures { (met_as row state result ≡ goes_on congested state (met row state facts)) × Sound result }
{
    effects::does(cells::code_at(row, state), facts, congested)
}

// The state after the number of a cell.
pub fn state_after(n: u64, s: State) -> State
    ensures { result ≡ state_after n s }
{
    let kept = (n / 8 % 8) as u8;
    let to = (n % 8) as u8;
    cells::state_at((cells::column(s) as u8 & kept) + to)
}
