// Q.2210's changeover messages with extended signals, XCO and XCA, written and read for C hosts: nine octets each.
#![tactic(auto)]

ghost use Rattle.std.specs.Prelude.{◌≡◌, ◌||◌, eqb, length, drop};
ghost use Rattle.unit.specs.Checks.{first, number_of};
ghost use Rattle.changeover.specs.Figure3.{octets_of, message_of};
ghost use Rattle.changeover.specs.Calls.{XCO, XCA, message_octets, too_wide, checks, answered, nothing, writing, write_call, read_call};
ghost use Rattle.changeover.specs.Checked.{too_wide_behind, refusal_number, verdict_of};

// The octets of a message.
const MESSAGE: usize = 9;

// The two headings: H1 is 3 or 4, H0 is 1. They stay numbers, not an enum: each is octet 6 of a message and a field of C's struct, which may hold any other.
const XCO: u8 = 0x31;

const XCA: u8 = 0x41;

// What stands for C in a refusal's place where there is none.
const ACCEPTED: u32 = 0;

// The refusals, in the order of their checks, with the numbers that C sees.
#[derive(Clone, Copy, PartialEq, Eq, Debug)]
enum Refusal {
    Length = 1,
    Heading = 2,
    Service = 3,
    Field = 4,
}

// A changeover message: sub-service field, service indicator, point codes of destination and origin, signalling link code, heading, number.
#[repr(C)]
#[derive(Clone, Copy, Default)]
pub struct Changeover {
    pub ssf: u8,
    pub si: u8,
    pub dpc: u16,
    pub opc: u16,
    pub slc: u8,
    pub heading: u8,
    pub number: u32,
}

// What the reader answers: 0 or the refusal, and the message.
#[repr(C)]
#[derive(Clone, Copy)]
pub struct Answer {
    pub refusal: u32,
    pub message: Changeover,
}

// A refusal, with no message.
impl From<Refusal> for Answer {
    ghost from_gives = { λ r a. a ≡ answered (refusal_number r) nothing };

    fn from(refusal: Refusal) -> Answer {
        Answer {
            refusal: refusal as u32,
            message: Changeover::default(),
        }
    }
}

// Whether a heading is one of the two. `matches!` was tried: 24 octets of stack for a write (limit: 16).
fn headed(heading: u8) -> bool
    ensures { result ≡ (eqb heading XCO || eqb heading XCA) }
{
    heading == XCO || heading == XCA
}

// Whether a field behind octet 1 has more bits than figure 3 has for it. `||` here, or `&&` in `sound`, was tried: 24 octets of stack for a write (limit: 16).
fn too_wide_behind(m: Changeover) -> bool
    ensures { result ≡ too_wide_behind m }
{
    (16383 < m.dpc) | (16383 < m.opc) | (15 < m.slc) | (16777215 < m.number)
}

// Whether any field has.
fn too_wide(m: Changeover) -> bool
    ensures { result ≡ too_wide m }
{
    15 < m.ssf || too_wide_behind(m)
}

// The checks behind that of the length.
fn checked(m: Changeover) -> Result<(), Refusal>
    ensures { verdict_of result ≡ first (drop 1 (checks message_octets m)) }
{
    if !headed(m.heading) {
        return Err(Refusal::Heading);
    }
    if m.si != 0 {
        return Err(Refusal::Service);
    }
    if too_wide(m) {
        return Err(Refusal::Field);
    }
    Ok(())
}

// Whether none of them refuses, asked in the order that costs least. SSF and SI stand side by side in memory, and one comparison does for both.
fn sound(m: Changeover) -> bool
    ensures { result ≡ eqb (number_of (first (drop 1 (checks message_octets m)))) 0 }
{
    if 15 < u16::from_le_bytes([m.ssf, m.si]) {
        return false;
    }
    !too_wide_behind(m) & headed(m.heading)
}

// The nine octets of a message. OPC goes on where DPC ends, in octet 3. One number for octets 2 to 5 was tried: 24 octets of stack for a write (limit: 16).
#[tactic(auto, using(crate::proofs::Figure3::packed_codes, crate::proofs::Calls::fits))]
fn pack(m: Changeover) -> [u8; MESSAGE]
    requires { number_of (first (drop 1 (checks message_octets m))) ≡ 0 }
    ensures { result ≡ octets_of m }
{
    let codes = m.dpc as u32 / 256 + m.opc as u32 * 64 + m.slc as u32 * 1048576;
    let [octet_2, _] = m.dpc.to_le_bytes();
    let [octet_3, octet_4, octet_5, _] = codes.to_le_bytes();
    let [octet_7, octet_8, octet_9, _] = m.number.to_le_bytes();
    [
        m.ssf * 16 + m.si,
        octet_2,
        octet_3,
        octet_4,
        octet_5,
        m.heading,
        octet_7,
        octet_8,
        octet_9,
    ]
}

// The message of nine octets.
#[tactic(auto, using(crate::proofs::Figure3::unpacked))]
fn unpack(r: &[u8; MESSAGE]) -> Changeover
    ensures { result ≡ message_of r.now }
{
    let label = u32::from_le_bytes([r[1], r[2], r[3], r[4]]);
    Changeover {
        ssf: r[0] / 16,
        si: r[0] % 16,
        dpc: (label % 16384) as u16,
        opc: (label / 16384 % 16384) as u16,
        slc: (label / 268435456) as u8,
        heading: r[5],
        number: u32::from_le_bytes([r[6], r[7], r[8], 0]),
    }
}

// Writes a message, or refuses it.
#[tactic(auto, using(crate::proofs::Calls::write_other, crate::proofs::Calls::write_nine, crate::proofs::Calls::write_put))]
fn write(out: &mut [u8], message: Changeover) -> Result<(), Refusal>
    ensures { writing (number_of (verdict_of result)) out.new ≡ write_call out.old message }
{
    let Some(out) = out.as_mut_array() else {
        return Err(Refusal::Length);
    };
    if !sound(message) {
        // `checked(message)?;` was tried: 32 octets of stack (limit: 16).
        return checked(message);
    }
    *out = pack(message);
    Ok(())
}

// Writes a message.
pub fn sscf_changeover_write(out: &mut [u8], message: Changeover) -> u32
    ensures { writing result out.new ≡ write_call out.old message }
{
    match write(out, message) {
        Ok(()) => ACCEPTED,
        Err(refusal) => refusal as u32,
    }
}

// Reads nine octets. A function in between that answers a `Result`, by `?`, was tried: 42 instructions where this takes 31 (limit: 2 in 100 more).
#[tactic(auto, using(crate::proofs::Calls::read_other, crate::proofs::Calls::read_nine))]
pub fn sscf_changeover_read(octets: &[u8]) -> Answer
    ensures { result ≡ read_call octets.now }
{
    let Some(octets) = octets.as_array() else {
        return Refusal::Length.into();
    };
    let message = unpack(octets);
    if let Err(refusal) = checked(message) {
        return refusal.into();
    }
    Answer {
        refusal: ACCEPTED,
        message,
    }
}
