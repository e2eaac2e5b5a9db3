// The calls of `keeper` for C hosts, each with its clauses: a list of deadlines made, orders followed, and what is due named.
// Twins of those of `keeper`, since C needs an object in which each stands under its own name.
#![tactic(auto)]

ghost use Rattle.std.specs.Prelude.{◌≡◌};
ghost use Rattle.keeper.specs.Calls.{keeping, fresh_call, order_call, DueCall};

use keeper::DueAnswer;

// A set or a reset order for a link, at a time.
#[unsafe(no_mangle)]
pub extern "C" fn sscf_deadlines_order(
    deadlines: &mut [u64],
    periods: &[u64],
    link: u16,
    code: u8,
    time: u64,
) -> u32
    ensures { keeping result deadlines.new ≡ order_call deadlines.old periods.now link code time }
{
    keeper::sscf_deadlines_order(deadlines, periods, link, code, time)
}

// Names the earliest timer that is due at a time, and marks it not running.
#[unsafe(no_mangle)]
pub extern "C" fn sscf_deadlines_due(deadlines: &mut [u64], periods: &[u64], time: u64) -> DueAnswer
    ensures { DueCall deadlines.old periods.now time result deadlines.new }
{
    keeper::sscf_deadlines_due(deadlines, periods, time)
}

// A list in which no timer runs, with a last time of 0.
#[unsafe(no_mangle)]
pub extern "C" fn sscf_deadlines_fresh(deadlines: &mut [u64]) -> u32
    ensures { keeping result deadlines.new ≡ fresh_call deadlines.old }
{
    keeper::sscf_deadlines_fresh(deadlines)
}
