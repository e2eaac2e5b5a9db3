// Document 01's trace: a table and events from standard input, and on standard output what each event comes to. Only reading and writing are here: what an event does
// comes from `sscf`, and what is written of it from `lines`.
#![tactic(auto)]

ghost use Rattle.std.specs.Prelude.{◌≤◌, length, IfOk, IfSome};

use event::{HEAD, MESSAGE};
use record::RECORD;
use std::io;
use std::io::{Print, Read};
use step::ROOM;

// The octets of the largest table, 256 records; of the longest event; and of the longest line, that of a signal.
const TABLE: usize = 256 * RECORD;

const EVENT: usize = HEAD + MESSAGE as usize;

const TEXT: usize = 128 + 2 * ROOM;

// An event, and the signals that it gives. A line of text is apart from them: in one struct the compiler does not know that a message and the text that is made of it
// lie in different places, and takes an octet at a time, where it takes eight.
#[derive(Drop)]
struct Buffers {
    event: [u8; EVENT],
    out: [u8; ROOM],
}

// Reads until buf is full or the input ends. Answers how many octets came. No `for`: each reading brings as many as there are.
fn read_full(rt: &HostRuntime, buf: &mut [u8]) -> io::Result<usize>
    ensures { IfOk result (λ n. n ≤ length buf.new) }
{
    let mut input = rt.stdin();
    let mut done = 0;
    while done < buf.len() {
        let n = input.read(&mut buf[done..])?;
        if n == 0 {
            break;
        }
        done += n;
    }
    Ok(done)
}

// Reads the count of links and their records. Answers the octets of the table, none for a bad count or a short table.
fn read_table(rt: &HostRuntime, table: &mut [u8; TABLE]) -> io::Result<Option<usize>>
    ensures { IfOk result (λ o. IfSome o (λ n. n ≤ TABLE)) }
{
    let mut count = [0u8; 2];
    if read_full(rt, &mut count)? < 2 {
        return Ok(None);
    }
    let octets = octet::wide(count[0], count[1]) as usize * RECORD;
    if octets == 0 || TABLE < octets {
        return Ok(None);
    }
    let came = read_full(rt, &mut table[..octets])?;
    Ok(if came < octets { None } else { Some(octets) })
}

// Reads an event, as many octets of message as it says and 4,096 at most. Answers how many octets came, none at the end.
fn read_event(rt: &HostRuntime, event: &mut [u8; EVENT]) -> io::Result<Option<usize>>
    ensures { IfOk result (λ o. IfSome o (λ n. n ≤ EVENT)) }
{
    let got = read_full(rt, &mut event[..HEAD])?;
    if got == 0 {
        return Ok(None);
    }
    let len = octet::wide(event[10], event[11]);
    if got < HEAD || MESSAGE < len {
        return Ok(Some(got));
    }
    let end = HEAD + len as usize;
    let came = read_full(rt, &mut event[HEAD..end])?;
    Ok(Some(HEAD + came))
}

// Prints the signals that stand one behind the other in out.
fn print_signals(
    rt: &HostRuntime,
    text: &mut [u8; TEXT],
    out: &[u8; ROOM],
    signals: u32,
) -> io::Result<()> {
    let mut rest = &out[..];
    for _ in 0..signals {
        let Some(n) = lines::first_record(rest) else {
            break;
        };
        let k = lines::signal_line(text, &rest[..n]);
        rt.write_all(&text[..k])?;
        rest = &rest[n..];
    }
    Ok(())
}

// One event: the step and its lines. Answers whether there may be another.
fn one_event(
    rt: &HostRuntime,
    ordinal: u64,
    table: &mut [u8],
    b: &mut Buffers,
    text: &mut [u8; TEXT],
) -> io::Result<bool> {
    let Some(n) = read_event(rt, &mut b.event)? else {
        return Ok(false);
    };
    let answer = sscf::sscf_step(table, &b.event[..n], &mut b.out);
    let k = lines::event_line(text, ordinal, &b.event, answer.refusal, answer.signals);
    rt.write_all(&text[..k])?;
    print_signals(rt, text, &b.out, answer.signals)?;
    Ok(answer.refusal != lines::BAD_FRAME)
}

// Nothing says that the events end, and a proved loop must: it counts up to a number that no run reaches.
fn all_events(
    rt: &HostRuntime,
    table: &mut [u8],
    b: &mut Buffers,
    text: &mut [u8; TEXT],
) -> io::Result<()> {
    for ordinal in 1..u64::MAX {
        if !one_event(rt, ordinal, table, b, text)? {
            break;
        }
    }
    Ok(())
}

fn print_links(rt: &HostRuntime, table: &[u8], text: &mut [u8; TEXT]) -> io::Result<()>
    requires { length table.now ≤ TABLE }
{
    for (k, record) in table.chunks_exact(RECORD).enumerate() {
        let n = lines::link_line(text, k as u16, record);
        rt.write_all(&text[..n])?;
    }
    Ok(())
}

// The events, then the links.
fn traced(rt: &HostRuntime, table: &mut [u8]) -> io::Result<()>
    requires { length table.old ≤ TABLE }
{
    let mut b = Buffers {
        event: [0; EVENT],
        out: [0; ROOM],
    };
    let mut text = [0; TEXT];
    all_events(rt, table, &mut b, &mut text)?;
    print_links(rt, table, &mut text)
}

fn main(rt: HostRuntime) -> io::Result<()> {
    let mut table = [0u8; TABLE];
    let Some(octets) = read_table(&rt, &mut table)? else {
        return rt.write_all(b"T 1\n");
    };
    traced(&rt, &mut table[..octets])
}
