// A line of text as it is written: octets, numbers in decimal, octets in hexadecimal, one behind the other.

ghost use Rattle.std.specs.Prelude.{◌≡◌, ◌∷◌, [], ◌++◌, ◌+◌, ◌*◌, ◌≤◌, ◌<◌, length};
ghost use Rattle.lines.specs.Text.{decimal, digit as Text·digit, hexadecimal, HasRoom, Adds};

use octet::put_at;

// A text, and the place of its next octet. Adding to it cannot fail and takes no memory, so it is no `fmt::Write`, and `write!` and `String` are not used: who adds
// has shown that there is room.
#[derive(Drop)]
pub struct Line<'a> {
    text: &'a mut [u8],
    pub at: usize,
}

impl<'a> Line<'a> {
    // A line from the front of a text on.
    pub fn new(text: &'a mut [u8]) -> Self
        ensures same { result.text.ghost_name ≡ text.entry.ghost_name }
        ensures front { (result.text.now ≡ text.old) × (result.at ≡ 0) }
    {
        Line { text, at: 0 }
    }

    pub fn add(&mut self, octets: &[u8])
        requires { HasRoom self.old (length octets.now) }
        ensures { Adds octets.now self.old self.new }
    {
        put_at(self.text, self.at, octets);
        self.at += octets.len();
    }

    // Adds a number and an octet behind it.
    pub fn number(&mut self, n: u64, behind: u8)
        requires { HasRoom self.old 21 }
        ensures { Adds (decimal n ++ behind ∷ []) self.old self.new × (self.new.at ≤ self.old.at + 21) }
    {
        let mut digits = [0u8; 20];
        self.add(spell(n, &mut digits));
        self.add(&[behind]);
    }

    // Adds octets in hexadecimal.
    #[tactic(auto, using(crate::proofs::Texts::hexadecimal_so_far))]
    pub fn hexadecimal(&mut self, octets: &[u8])
        requires { HasRoom self.old (2 * length octets.now) }
        ensures { Adds (hexadecimal octets.now) self.old self.new }
    {
        for &x in octets {
            self.add(&[digit(x / 16), digit(x % 16)]);
        }
    }
}

// The digits of n, put at the end of a buffer: the last one first, since 0 has it too.
#[tactic(auto, using(crate::proofs::Texts::last_digit))]
fn spell(n: u64, digits: &mut [u8; 20]) -> &[u8]
    ensures { (result.now ≡ decimal n) × (length result.now ≤ 20) }
{
    digits[19] = b'0' + (n % 10) as u8;
    let mut rest = n / 10;
    let mut i = 19;
    // A `for` over `(0..19).rev()` is no plainer: it would be left where the number ends, and it took 14 instructions more a number.
    while (0 < i) & (0 < rest) {
        i -= 1;
        digits[i] = b'0' + (rest % 10) as u8;
        rest /= 10;
    }
    &digits[i..]
}

fn digit(d: u8) -> u8
    requires { d < 16 }
    ensures { result ≡ Text·digit d }
{
    if d < 10 { b'0' + d } else { b'a' - 10 + d }
}
