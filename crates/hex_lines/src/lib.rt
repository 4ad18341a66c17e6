// The read back program's reader: lines of four hex digits to parcels, a byte at a time.
#![tactic(auto)]

pub mod input;

ghost use Rattle.std.specs.Prelude.{◌≡◌, Ok, List, [], ◌++◌, ℕ, ◌<◌, ◌≤◌, ◌^◌, IfSome};
ghost use Rattle.hex_lines.specs.Parcels.{said};
ghost use Rattle.hex_lines.specs.Steps.{hex_digit, Fine, FineIn, line_start, unread_line, is_begun, digit_of, begin_of, word_of, count_of, byte_of, mem, end_of, turn_at, run, ended, Reads, Has, HasSome, Tells, Within};

use reader::Unread;

// What the line at hand has so far.
#[derive(Clone, Copy)]
pub enum Part {
    // So many digits of a parcel, and their value.
    Digits(usize, u32),
    // `o`.
    LetterO,
    // `ok`.
    Word,
    // `ok`, a tab, and the value of the digits of a count, if it has one.
    Count(Option<u32>),
}

// A place in an input. What holds of it, `Fine`, stands in the contracts: a type with an invariant has no `..self`.
#[derive(Clone, Copy)]
pub struct Place {
    // The lines passed over, and the parcels read.
    pub passed: usize,
    pub parcels: usize,
    // What this line has so far.
    pub part: Part,
}

// A reader: its place in the line at hand, or past one that is unread; and the parcels of the lines before, with zeros after them.
#[derive(Clone, Copy)]
pub struct Reader {
    pub place: Result<Place, Unread>,
    pub parcels: [u16; 3072],
}

// The value of a hex digit.
#[tactic(auto, unfolding(crate::specs::Parcels::hex_value))]
fn hex_digit(b: u8) -> Option<u32>
    ensures value { result ≡ hex_digit b }
    ensures below { IfSome result (λ d. d < 16) }
{
    char::from(b).to_digit(16)
}

impl Place {
    // The start of a line, after so many lines passed over and parcels.
    fn line_start(passed: usize, parcels: usize) -> Place
        ensures { result ≡ line_start passed parcels }
    {
        Place {
            passed,
            parcels,
            part: Part::Digits(0, 0),
        }
    }

    // The line at hand, as one that is unread.
    fn unread(self) -> Unread
        requires { Fine self }
        ensures { result ≡ unread_line self }
    {
        Unread {
            line: self.passed + self.parcels + 1,
        }
    }

    // Whether the line at hand has a byte.
    fn is_begun(self) -> bool
        ensures { result ≡ is_begun self.part }
    {
        match self.part {
            Part::Digits(count, _) => 0 < count,
            _ => true,
        }
    }

    // A byte of a parcel, after digits with this count and value.
    #[tactic(auto, unfolding(crate::specs::Steps::digit_of))]
    fn digit(self, count: usize, value: u32, b: u8) -> Result<Place, Unread>
        requires { (Fine self) × (value < 16 ^ count) }
        ensures { result ≡ digit_of self count value b }
    {
        let Some(digit) = hex_digit(b) else {
            return Err(self.unread());
        };
        if 4 <= count {
            return Err(self.unread());
        }
        Ok(Place {
            part: Part::Digits(count + 1, value * 16 + digit),
            ..self
        })
    }

    // `o`, which begins the line of a count if it is the first byte of all.
    #[tactic(auto, unfolding(crate::specs::Steps::begin_of))]
    fn begin(self, count: usize) -> Result<Place, Unread>
        requires { (Fine self) × (count ≤ 4) }
        ensures { result ≡ begin_of self count }
    {
        if self.passed + self.parcels + count != 0 {
            return Err(self.unread());
        }
        Ok(Place {
            part: Part::LetterO,
            ..self
        })
    }

    // The byte that is wanted, and what the line has with it.
    #[tactic(auto, unfolding(crate::specs::Steps::word_of))]
    fn word(self, b: u8, wanted: u8, part: Part) -> Result<Place, Unread>
        requires { Fine self }
        ensures { result ≡ word_of self b wanted part }
    {
        if b != wanted {
            return Err(self.unread());
        }
        Ok(Place { part, ..self })
    }

    // A byte of a count, after digits with this value.
    fn count(self, value: Option<u32>, b: u8) -> Result<Place, Unread>
        requires { Fine self }
        ensures { result ≡ count_of self value b }
    {
        let Some(value) = reader::with_digit(value, b) else {
            return Err(self.unread());
        };
        Ok(Place {
            part: Part::Count(Some(value)),
            ..self
        })
    }

    // A byte of a line.
    #[tactic(auto, unfolding(crate::specs::Steps::byte_in))]
    fn byte(self, b: u8) -> Result<Place, Unread>
        requires { Fine self }
        ensures { result ≡ byte_of self b }
    {
        match self.part {
            Part::Digits(count, _) if b == b'o' => self.begin(count),
            Part::Digits(count, value) => self.digit(count, value, b),
            Part::LetterO => self.word(b, b'k', Part::Word),
            Part::Word => self.word(b, b'\t', Part::Count(None)),
            Part::Count(value) => self.count(value, b),
        }
    }

    // Byte 10: the line is over.
    #[tactic(auto, unfolding(crate::specs::Steps::end_in))]
    fn end(self, parcels: &mut [u16; 3072]) -> Result<Place, Unread>
        requires { Fine self }
        ensures { mem result parcels.new ≡ end_of self parcels.old }
    {
        match self.part {
            Part::Count(Some(_)) => Ok(Place::line_start(1, self.parcels)),
            Part::Digits(4, value) if self.parcels < 3072 => {
                parcels[self.parcels] = value as u16;
                Ok(Place::line_start(self.passed, self.parcels + 1))
            }
            _ => Err(self.unread()),
        }
    }

    // Any byte.
    #[tactic(auto, unfolding(crate::specs::Steps::turn_at))]
    fn turn(self, b: u8, parcels: &mut [u16; 3072]) -> Result<Place, Unread>
        requires { Fine self }
        ensures { mem result parcels.new ≡ turn_at self parcels.old b }
    {
        if b == b'\n' {
            return self.end(parcels);
        }
        self.byte(b)
    }

    // Bytes in turn, up to an unread line: what follows it is passed over.
    fn turns(self, chunk: &[u8], parcels: &mut [u16; 3072]) -> Result<Place, Unread>
        requires { Fine self }
        ensures { mem result parcels.new ≡ run (mem (Ok self) parcels.old) chunk.now }
    {
        let mut place = self;
        for b in chunk {
            place = place.turn(*b, parcels)?;
        }
        Ok(place)
    }
}

// These are the bench program's reader's methods at another line and another result. One generic reader is no plainer: what it has read
// borrows from it, so a trait would have to name a type with a lifetime, which the language lacks.
impl Reader {
    // A reader that has read nothing.
    pub fn new() -> Reader
        ensures { Has [] result }
    {
        Reader {
            place: Ok(Place::line_start(0, 0)),
            parcels: [0; 3072],
        }
    }

    // A chunk of the input is read.
    pub fn feed(&mut self, chunk: &[u8])
        requires { HasSome self.old }
        ensures { (past : List ℕ) → Has past self.old → Has (past ++ chunk.now) self.new }
    {
        if let Ok(place) = self.place {
            self.place = place.turns(chunk, &mut self.parcels);
        }
    }

    // The input ends, and with it a line at hand.
    #[tactic(auto, unfolding(crate::specs::Steps::ended))]
    fn end(&mut self)
        requires { FineIn self.old.place }
        ensures { self.new ≡ ended self.old }
    {
        if let Ok(place) = self.place {
            if place.is_begun() {
                self.place = place.turn(b'\n', &mut self.parcels);
            }
        }
    }

    // The parcels of the lines before.
    fn reading(&self) -> Result<&[u16], Unread>
        requires { FineIn self.now.place }
        ensures { Reads self.now result }
    {
        let place = self.place?;
        Ok(&self.parcels[..place.parcels])
    }

    // The parcels that the whole input says.
    pub fn finish(&mut self) -> Result<&[u16], Unread>
        requires { HasSome self.old }
        ensures by_index { (input : List ℕ) → Has input self.old → Tells (said input) result }
        ensures within { Within result }
    {
        self.end();
        self.reading()
    }
}
