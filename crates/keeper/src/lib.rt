// The keeper of deadlines for C hosts: for each link those of T1, T2 and T3 in a lent list. It follows the timer orders of the step and names what is due.
#![tactic(auto)]

ghost use Rattle.std.specs.Prelude.{◌≡◌, false, not, ◌+◌, ◌-◌, ◌*◌, ◌<◌, ◌≤◌, [], ◌∷◌, ltb, length, slice_index};
ghost use Rattle.unit.specs.Checks.{first, ◌if◌};
ghost use Rattle.keeper.specs.Deadlines.{order_of, followed};
ghost use Rattle.keeper.specs.Calls.{REFUSED-TIME, bad_lists, bad_periods, no_order, past_all, list_checks, due_checks, order_checks, keeping, fresh_call, order_call, DueCall};
ghost use Rattle.keeper.specs.Searched.{verdict, period_set, bound_of, LeastOf, Sought};

use table6::{events, signals};

// A deadline of all ones does not run.
const IDLE: u64 = 18446744073709551615;

// The most links, and the timers of each.
const LINKS: usize = 256;

const TIMERS: usize = 3;

// In milliseconds: Table 5's T1 and T2, and the longest period of a T3.
const T1_PERIOD: u64 = 5000;

const T2_PERIOD: u64 = 30000;

const T3_LONGEST: u64 = 60000;

// The refusals, in the order of their checks, as C sees them, and what stands in their place.
#[derive(Clone, Copy, Debug, PartialEq, Eq)]
enum Refusal {
    Lists = 1,
    Period = 2,
    Order = 3,
    Time = 4,
    Deadline = 5,
}

const ACCEPTED: u32 = 0;

// What is answered to the question what is due: 0 or the refusal, the code of the event to hand in, 0 where nothing is due, and its link.
#[repr(C)]
#[derive(Clone, Copy)]
pub struct DueAnswer {
    pub refusal: u32,
    pub expired: u32,
    pub link: u32,
}

const NOTHING_DUE: DueAnswer = DueAnswer {
    refusal: ACCEPTED,
    expired: 0,
    link: 0,
};

// Whether a signal's code is a timer order.
fn is_order(code: u8) -> bool
    ensures { result ≡ not (no_order (order_of code)) }
{
    matches!(
        code,
        signals::SET_T1
            | signals::SET_T2
            | signals::SET_T3
            | signals::RESET_T1
            | signals::RESET_T2
            | signals::RESET_T3
    )
}

// How long the timer runs that an order sets; t3 is its link's own period.
fn period(code: u8, t3: u64) -> u64
    ensures { result ≡ period_set code t3 }
{
    match code {
        signals::SET_T1 => T1_PERIOD,
        signals::SET_T2 => T2_PERIOD,
        _ => t3,
    }
}

// Whether an order would set a deadline that reaches or passes all ones.
fn past_all(code: u8, t3: u64, time: u64) -> bool
    requires { no_order (order_of code) ≡ false }
    ensures { result ≡ past_all (order_of code) t3 time }
{
    (code < signals::RESET_T1) & (IDLE - time <= period(code, t3))
}

// Whether the lists are not of 3n + 1 and n numbers, n from 1 to 256.
fn bad_lists(count: usize, links: usize) -> bool
    ensures { result ≡ bad_lists count links }
{
    !(1..=LINKS).contains(&links) || count != TIMERS * links + 1
}

fn bad_periods(periods: &[u64]) -> bool
    ensures { result ≡ bad_periods periods.now }
{
    periods.iter().any(|x| !(1..=T3_LONGEST).contains(x))
}

// The checks of the lists, with which an order and a question begin. The two lists are lent by C, and document 01 names their form; a struct of both made each clause
// longer.
fn lists_checked(deadlines: &[u64], periods: &[u64]) -> Result<(), Refusal>
    ensures { verdict result ≡ first (list_checks deadlines.now periods.now) }
{
    if bad_lists(deadlines.len(), periods.len()) {
        return Err(Refusal::Lists);
    }
    if bad_periods(periods) {
        return Err(Refusal::Period);
    }
    Ok(())
}

// The check of the time, against the last one given, which stands at the list's end.
fn time_checked(deadlines: &[u64], time: u64) -> Result<(), Refusal>
    requires { 1 ≤ length deadlines.now }
    ensures { verdict result ≡ first ((REFUSED-TIME if ltb time (slice_index deadlines.now (length deadlines.now - 1))) ∷ []) }
{
    if time < deadlines[deadlines.len() - 1] {
        return Err(Refusal::Time);
    }
    Ok(())
}

// All checks of an order.
fn order_checked(
    deadlines: &[u64],
    periods: &[u64],
    link: usize,
    code: u8,
    time: u64,
) -> Result<(), Refusal>
    ensures { verdict result ≡ first (order_checks deadlines.now periods.now link code time) }
{
    lists_checked(deadlines, periods)?;
    if periods.len() <= link || !is_order(code) {
        return Err(Refusal::Order);
    }
    time_checked(deadlines, time)?;
    if past_all(code, periods[link], time) {
        return Err(Refusal::Deadline);
    }
    Ok(())
}

// Does what an order says to a link's deadlines. The codes of both kinds begin at a multiple of eight, T1 first.
fn follow(deadlines: &mut [u64], link: usize, code: u8, t3: u64, time: u64)
    requires { (3 * link + 3 ≤ length deadlines.old) × (no_order (order_of code) ≡ false) × (past_all (order_of code) t3 time ≡ false) }
    ensures { deadlines.new ≡ followed (order_of code) deadlines.old link t3 time }
{
    let at = TIMERS * link + (code % 8) as usize;
    deadlines[at] = if code < signals::RESET_T1 {
        time + period(code, t3)
    } else {
        IDLE
    };
}

// A set or a reset order for a link, at a time.
#[tactic(auto, unfolding(crate::specs::Calls::order_call))]
pub fn sscf_deadlines_order(
    deadlines: &mut [u64],
    periods: &[u64],
    link: u16,
    code: u8,
    time: u64,
) -> u32
    ensures { keeping result deadlines.new ≡ order_call deadlines.old periods.now link code time }
{
    let at = link as usize;
    if let Err(refusal) = order_checked(&deadlines[..], periods, at, code, time) {
        return refusal as u32;
    }
    follow(deadlines, at, code, periods[at], time);
    let last = deadlines.len() - 1;
    deadlines[last] = time;
    ACCEPTED
}

// All checks of a question.
fn due_checked(deadlines: &[u64], periods: &[u64], time: u64) -> Result<(), Refusal>
    ensures { verdict result ≡ first (due_checks deadlines.now periods.now time) }
{
    lists_checked(deadlines, periods)?;
    time_checked(deadlines, time)
}

// Due is what is below this: at or before the time, and all ones never.
fn bound(time: u64) -> u64
    ensures { result ≡ bound_of time }
{
    time.saturating_add(1)
}

// A deadline, and its place among its link's three.
#[derive(Clone, Copy)]
struct Least {
    place: usize,
    deadline: u64,
}

// The least of a link's three, and of equal ones the first.
fn least_of(t1: u64, t2: u64, t3: u64) -> Least
    ensures { LeastOf t1 t2 t3 result.place result.deadline }
{
    let mut place = 0;
    let mut deadline = t1;
    if t2 < deadline {
        place = 1;
        deadline = t2;
    }
    if t3 < deadline {
        place = 2;
        deadline = t3;
    }
    Least { place, deadline }
}

// The place of the least of n links' deadlines that is below a bound, and of equal ones of the first. Each is looked at once, a link's three by one test: which
// of them is asked only where one is less than what was found so far (D96).
// A loop that keeps an `Option` was tried: 15 instructions a link where this takes 12, and 14 over `chunks_exact` and `enumerate`. The issue of 2026-06 wants no row of the
// bench above 1.1 of the second machine's time.
fn first_below(deadlines: &[u64], links: usize, bound: u64) -> Option<usize>
    requires { 3 * links ≤ length deadlines.now }
    ensures { Sought deadlines.now (3 * links) bound result }
{
    let none = deadlines.len();
    let mut found = none;
    let mut least = bound;
    for link in 0..links {
        let i = TIMERS * link;
        let t1 = deadlines[i];
        let t2 = deadlines[i + 1];
        let t3 = deadlines[i + 2];
        if (t1 < least) | (t2 < least) | (t3 < least) {
            let l = least_of(t1, t2, t3);
            least = l.deadline;
            found = i + l.place;
        }
    }
    (found < none).then_some(found)
}

// Names the earliest timer that is due at a time, and marks it not running.
#[tactic(auto, using(crate::proofs::Due::none_told, crate::proofs::Due::found_told), unfolding(crate::specs::Calls::DueCall))]
pub fn sscf_deadlines_due(deadlines: &mut [u64], periods: &[u64], time: u64) -> DueAnswer
    ensures { DueCall deadlines.old periods.now time result deadlines.new }
{
    if let Err(refusal) = due_checked(&deadlines[..], periods, time) {
        return DueAnswer {
            refusal: refusal as u32,
            ..NOTHING_DUE
        };
    }
    let last = deadlines.len() - 1;
    let Some(place) = first_below(&deadlines[..], periods.len(), bound(time)) else {
        deadlines[last] = time;
        return NOTHING_DUE;
    };
    deadlines[place] = IDLE;
    deadlines[last] = time;
    DueAnswer {
        refusal: ACCEPTED,
        expired: events::T1_EXPIRED as u32 + (place % TIMERS) as u32,
        link: (place / TIMERS) as u32,
    }
}

// A list in which no timer runs, with a last time of 0.
#[tactic(auto, unfolding(crate::specs::Calls::fresh_call))]
pub fn sscf_deadlines_fresh(deadlines: &mut [u64]) -> u32
    ensures { keeping result deadlines.new ≡ fresh_call deadlines.old }
{
    if bad_lists(deadlines.len(), deadlines.len() / TIMERS) {
        return Refusal::Lists as u32;
    }
    let last = deadlines.len() - 1;
    deadlines[last] = 0;
    // `fill` was tried: 40 octets of stack (limit: 24).
    for deadline in &mut deadlines[..last] {
        *deadline = IDLE;
    }
    ACCEPTED
}
