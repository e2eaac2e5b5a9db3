// What a signal that carries something takes it from. It stands in a file of its own, since `brought_by`, which the writer's contracts cite, names it.
ghost use Rattle.std.specs.Prelude.{ℕ, ◌<◌};
ghost use Rattle.octet.specs.Octets.{at};
ghost use Rattle.signal.specs.Writing.{Whole};

use record::RECORD;

// The link's record as it is left, and the event's octets, which are as many as they say. That each is below 256 is said too: a proof has that of an argument that
// is a slice, and not of a slice in a struct.
#[derive(Clone, Copy)]
pub struct Source<'a> {
    pub left: &'a [u8; RECORD],
    pub event: &'a [u8],
    ghost whole: { Whole event.now },
    ghost octets: { (i : ℕ) → at event.now i < 256 },
}
