// Answers as text, in a lent buffer.
#![tactic(auto, using(crate::proofs::Putting::puts_then, crate::proofs::Decimals::shorts))]

ghost use Rattle.std.specs.Prelude.{◌≡◌, [], ◌∷◌, ◌++◌, ◌+◌, ◌*◌, ◌%◌, ◌<◌, ◌≤◌, length, take};
ghost use Rattle.io.specs.Digits.{hex_digit_ascii, last_digits};
ghost use Rattle.text.specs.Text.{decimal, signed, detail, parcel_line, each, ok_text, refusal_text, answer_text, unread_text, Puts, Shows};

use refusals::Told;

// The last hex digit of a number.
fn digit(n: u16) -> u8
    ensures { result ≡ hex_digit_ascii (n % 16) }
{
    let d = (n % 16) as u8;
    if d < 10 { b'0' + d } else { b'a' - 10 + d }
}

// A text that grows in a lent buffer: it stands in front of its place.
#[derive(Drop)]
pub struct Text<'a> {
    pub out: &'a mut [u8],
    pub at: usize,
}

impl<'a> Text<'a> {
    // A text of nothing, at the front of a buffer.
    pub fn front(out: &'a mut [u8]) -> Text<'a>
        ensures { (result.out ≡ out.entry) × (result.at ≡ 0) }
    {
        Text { out, at: 0 }
    }

    // One byte more.
    pub fn put(&mut self, b: u8)
        requires { self.old.at < length self.old.out.now }
        ensures { Puts self.old (b ∷ []) self.new }
    {
        self.out[self.at] = b;
        self.at += 1;
    }

    // These bytes more.
    pub fn put_bytes(&mut self, bytes: &[u8])
        requires { self.old.at + length bytes.now ≤ length self.old.out.now }
        ensures { Puts self.old bytes.now self.new }
    {
        let end = self.at + bytes.len();
        self.out[self.at..end].copy_from_slice(bytes);
        self.at = end;
    }

    // A number more, in decimal.
    pub fn put_decimal(&mut self, n: u64)
        requires { self.old.at + 20 ≤ length self.old.out.now }
        ensures { Puts self.old (decimal n) self.new }
    {
        let mut digits = [0u8; 20];
        let k = io::decimal(n, &mut digits);
        self.put_bytes(&digits[..k]);
    }

    // A signed number more, in decimal.
    fn put_signed(&mut self, z: i64)
        requires { self.old.at + 21 ≤ length self.old.out.now }
        ensures { Puts self.old (signed z) self.new }
    {
        if z < 0 {
            self.put(b'-');
        }
        self.put_decimal(z.unsigned_abs());
    }

    // A parcel more, in four hex digits.
    pub fn put_hex(&mut self, p: u16)
        requires { self.old.at + 4 ≤ length self.old.out.now }
        ensures { Puts self.old (last_digits 16 4 p) self.new }
    {
        self.put(digit(p / 16 / 16 / 16));
        self.put(digit(p / 16 / 16));
        self.put(digit(p / 16));
        self.put(digit(p));
    }

    // A parcel's line more.
    #[tactic(auto, using(crate::proofs::Putting::puts_then), unfolding(crate::specs::Text::parcel_line))]
    fn put_parcel(&mut self, p: u16)
        requires { self.old.at + 5 ≤ length self.old.out.now }
        ensures { Puts self.old (parcel_line p) self.new }
    {
        self.put_hex(p);
        self.put(b'\n');
    }

    // The parcels' lines more.
    fn put_parcels(&mut self, parcels: &[u16])
        requires { self.old.at + 5 * length parcels.now ≤ length self.old.out.now }
        ensures { Puts self.old (each parcel_line parcels.now) self.new }
    {
        for p in parcels {
            self.put_parcel(*p);
        }
    }

    // A word and a number more.
    pub fn put_head(&mut self, word: &[u8], n: u64)
        requires { self.old.at + length word.now + 20 ≤ length self.old.out.now }
        ensures { Puts self.old (word.now ++ decimal n) self.new }
    {
        self.put_bytes(word);
        self.put_decimal(n);
    }

    // A tab and a detail more.
    fn put_detail(&mut self, z: i64)
        requires { self.old.at + 22 ≤ length self.old.out.now }
        ensures { Puts self.old (detail z) self.new }
    {
        self.put(b'\t');
        self.put_signed(z);
    }

    // The text of a refusal more: its number and three details.
    pub fn put_refused(&mut self, number: u32, first: i64, second: i64, third: i64)
        requires { self.old.at + 95 ≤ length self.old.out.now }
        ensures { Puts self.old (refusal_text number first second third) self.new }
    {
        self.put_head(b"refused\t", u64::from(number));
        self.put_detail(first);
        self.put_detail(second);
        self.put_detail(third);
        self.put(b'\n');
    }

    // The text of a count and parcels more.
    fn put_ok(&mut self, count: u32, parcels: &[u16])
        requires { self.old.at + 24 + 5 * length parcels.now ≤ length self.old.out.now }
        ensures { Puts self.old (ok_text count parcels.now) self.new }
    {
        self.put_head(b"ok\t", u64::from(count));
        self.put(b'\n');
        self.put_parcels(parcels);
    }
}

// The text of a refusal at the front, and its length.
#[tactic(auto, using(crate::proofs::Putting::shows, crate::proofs::Lengths::refused_fits))]
pub fn refused(number: u32, first: i64, second: i64, third: i64, out: &mut [u8]) -> usize
    requires { 15384 ≤ length out.old }
    ensures { Shows (refusal_text number first second third) out.new result }
{
    let mut text = Text::front(out);
    text.put_refused(number, first, second, third);
    text.at
}

// The text of a count and so many of the parcels at the front, and its length.
#[tactic(auto, using(crate::proofs::Putting::shows, crate::proofs::Lengths::accepted_fits, std::proofs::lemmas::List::take_min))]
fn accepted(count: u32, parcels: &[u16], out: &mut [u8]) -> usize
    requires { (length parcels.now ≤ 3072) × (15384 ≤ length out.old) }
    ensures { Shows (ok_text count (take count parcels.now)) out.new result }
{
    let n = (count as usize).min(parcels.len());
    let mut text = Text::front(out);
    text.put_ok(count, &parcels[..n]);
    text.at
}

// The text of a build's answer and the parcels' room at the front, and its length.
pub fn answered(told: Told, parcels: &[u16], out: &mut [u8]) -> usize
    requires { (length parcels.now ≤ 3072) × (15384 ≤ length out.old) }
    ensures { Shows (answer_text told parcels.now) out.new result }
{
    if told.number == 0 {
        return accepted(told.count, parcels, out);
    }
    refused(told.number, told.first, told.second, told.third, out)
}

// An unread line's text at the front, and its length.
pub fn unread(line: u64, out: &mut [u8]) -> usize
    requires { 15384 ≤ length out.old }
    ensures { Shows (unread_text line) out.new result }
{
    let mut text = Text::front(out);
    text.put_head(b"unread\t", line);
    text.put(b'\n');
    text.at
}
