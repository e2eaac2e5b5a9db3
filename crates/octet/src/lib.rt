// Octets: two as a number, a mark before others, and octets written over others.
#![tactic(auto)]

ghost use Rattle.std.specs.Prelude.{◌≡◌, ◌&&◌, ◌+◌, ◌<◌, ◌≤◌, eqb, length};
ghost use Rattle.octet.specs.Octets.{at, two, over, put_at};

// Two octets as a number, the higher first.
pub fn wide(a: u8, b: u8) -> u16
    ensures { result ≡ two a b }
{
    u16::from_be_bytes([a, b])
}

// Whether octets begin with a mark. The two are compared as one number in which the first is the lower octet: so the compiler reads both at once.
pub fn marked(r: &[u8], mark: &[u8; 2]) -> bool
    requires { (2 ≤ length r.now) × (at mark.now 0 < 256) }
    ensures { result ≡ (eqb (at r.now 0) (at mark.now 0) && eqb (at r.now 1) (at mark.now 1)) }
{
    u16::from_le_bytes([r[0], r[1]]) == u16::from_le_bytes(*mark)
}

// Writes src over the front of dst. `copy_from_slice` was tried: 89 octets more of the step's flash (limit: 4,150 in all).
pub fn put(dst: &mut [u8], src: &[u8])
    requires { length src.now ≤ length dst.old }
    ensures { dst.new ≡ over src.now dst.old }
{
    for i in 0..src.len() {
        dst[i] = src[i];
    }
}

// Writes src into dst from place a.
#[tactic(auto, using(crate::proofs::Over::lent))]
pub fn put_at(dst: &mut [u8], a: usize, src: &[u8])
    requires { a + length src.now ≤ length dst.old }
    ensures { dst.new ≡ put_at dst.old a src.now }
{
    put(&mut dst[a..], src);
}
