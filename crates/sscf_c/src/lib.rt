// The calls of `sscf` for C hosts, each with its clauses: a fresh table, one event for one link of a table, a burst of events, and which version this is.
// Twins of those of `sscf`, since C needs an object in which each stands under its own name.
#![tactic(auto)]

ghost use Rattle.std.specs.Prelude.{◌≡◌};
ghost use Rattle.step.specs.Step.{answering, step_call};
ghost use Rattle.sscf.specs.Burst.{bursting, burst_call};
ghost use Rattle.sscf.specs.Fresh.{making, fresh_call};
ghost use Rattle.sscf.specs.Version.{version};

use sscf::{BurstAnswer, FreshAnswer};
use step::Answer;

// One event for one link.
#[unsafe(no_mangle)]
pub extern "C" fn sscf_step(table: &mut [u8], event: &[u8], out: &mut [u8]) -> Answer
    ensures { answering result table.new out.new ≡ step_call table.old event.now out.old }
{
    sscf::sscf_step(table, event, out)
}

// Events end to end, as their single calls one after the other.
#[unsafe(no_mangle)]
pub extern "C" fn sscf_burst(
    table: &mut [u8],
    events: &[u8],
    out: &mut [u8],
    refusals: &mut [u32],
) -> BurstAnswer
    ensures { bursting result table.new out.new refusals.new ≡ burst_call table.old events.now out.old refusals.old }
{
    sscf::sscf_burst(table, events, out, refusals)
}

// A table of fresh links, with n1 proving units each.
#[unsafe(no_mangle)]
pub extern "C" fn sscf_fresh(table: &mut [u8], n1: u16) -> FreshAnswer
    ensures { making result table.new ≡ fresh_call table.old n1 }
{
    sscf::sscf_fresh(table, n1)
}

// The version, 0.7.0.
#[unsafe(no_mangle)]
pub extern "C" fn sscf_version() -> u32
    ensures { result ≡ version }
{
    sscf::sscf_version()
}
