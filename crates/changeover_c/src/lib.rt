// The calls of `changeover` for C hosts, each with its clauses: Q.2210's changeover messages written and read.
// Twins of those of `changeover`, since C needs an object in which each stands under its own name.
#![tactic(auto)]

ghost use Rattle.std.specs.Prelude.{◌≡◌};
ghost use Rattle.changeover.specs.Calls.{writing, write_call, read_call};

use changeover::{Answer, Changeover};

// Writes a message.
#[unsafe(no_mangle)]
pub extern "C" fn sscf_changeover_write(out: &mut [u8], message: Changeover) -> u32
    ensures { writing result out.new ≡ write_call out.old message }
{
    changeover::sscf_changeover_write(out, message)
}

// Reads nine octets.
#[unsafe(no_mangle)]
pub extern "C" fn sscf_changeover_read(octets: &[u8]) -> Answer
    ensures { result ≡ read_call octets.now }
{
    changeover::sscf_changeover_read(octets)
}
