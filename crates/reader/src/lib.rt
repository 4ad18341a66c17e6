// The bench program's reader: lines of decimal fields to rows and names, a byte at a time.
#![tactic(auto)]

pub mod input;

ghost use Rattle.std.specs.Prelude.{◌≡◌, Ok, List, [], ◌++◌, ℕ, ◌<◌};
ghost use Rattle.reader.specs.Lines.{said};
ghost use Rattle.reader.specs.Steps.{Fine, FineIn, line_start, unread_line, is_begun, in_name, with_digit, digit_of, with, letter_of, name_of_kind, name_after, tab_of, end_of, mem, turn_at, run, ended, Reads, Has, HasSome, Tells, Within};

// A place in the line at hand, which is number `items` + 1. What holds of it, `Fine`, stands in the contracts: a type with an invariant
// has no `..self`.
#[derive(Clone, Copy)]
pub struct Place {
    // The lines before.
    pub items: usize,
    // The fields of this line that are over.
    pub field: usize,
    // Which field of this line is its name, if its kind is over and has one.
    pub name: Option<usize>,
    // The value so far of the number at hand, if it has a digit.
    pub value: Option<u32>,
    // The name bytes of the lines before, and of this line.
    pub start: usize,
    pub bytes: usize,
}

// The first line that is unread, numbered from 1.
#[derive(Clone, Copy)]
pub struct Unread {
    pub line: usize,
}

// A reader: its place in the line at hand, or past one that is unread; and what the lines before say, with zeros after it.
#[derive(Clone, Copy)]
pub struct Reader {
    pub place: Result<Place, Unread>,
    pub rows: [u32; 8704],
    pub names: [u8; 2048],
}

// The rows and names that an input says.
#[derive(Clone, Copy)]
pub struct Read<'a> {
    pub rows: &'a [u32],
    pub names: &'a [u8],
}

// Which field is the name in a line of the kind.
#[tactic(auto, unfolding(crate::specs::Steps::name_of_kind))]
fn name_of_kind(kind: u32) -> Option<usize>
    ensures { result ≡ name_of_kind kind }
{
    match kind {
        48 => Some(1),
        49 => Some(2),
        _ => None,
    }
}

// The value of decimal digits, if there are any, with a byte more: none where that is no digit, or the value has over 32 bits.
#[tactic(auto, unfolding(crate::specs::Steps::with_digit))]
pub fn with_digit(value: Option<u32>, b: u8) -> Option<u32>
    ensures { result ≡ with_digit value b }
{
    let digit = char::from(b).to_digit(10)?;
    u32::try_from(u64::from(value.unwrap_or(0)) * 10 + u64::from(digit)).ok()
}

impl Place {
    // The start of a line, after so many items and name bytes.
    fn line_start(items: usize, start: usize) -> Place
        ensures { result ≡ line_start items start }
    {
        Place {
            items,
            field: 0,
            name: None,
            value: None,
            start,
            bytes: 0,
        }
    }

    // The line at hand, as one that is unread.
    fn unread(self) -> Unread
        requires { Fine self }
        ensures { result ≡ unread_line self }
    {
        Unread {
            line: self.items + 1,
        }
    }

    // Whether the line at hand has a digit, or a field that is over.
    fn is_begun(self) -> bool
        ensures { result ≡ is_begun self }
    {
        self.value.is_some() || 0 < self.field
    }

    // Whether the field at hand is the name.
    fn is_in_name(self) -> bool
        ensures { result ≡ in_name self }
    {
        self.name == Some(self.field)
    }

    // A byte of a number.
    fn digit(self, b: u8) -> Result<Place, Unread>
        requires { Fine self }
        ensures { result ≡ digit_of self b }
    {
        let Some(value) = with_digit(self.value, b) else {
            return Err(self.unread());
        };
        Ok(Place {
            value: Some(value),
            ..self
        })
    }

    // A byte of a name.
    #[tactic(auto, unfolding(crate::specs::Steps::letter_of))]
    fn letter(self, b: u8, names: &mut [u8; 2048]) -> Result<Place, Unread>
        requires { Fine self }
        ensures { with result names.new ≡ letter_of self b names.old }
    {
        let at = self.start + self.bytes;
        if 2048 <= at {
            return Err(self.unread());
        }
        names[at] = b;
        Ok(Place {
            bytes: self.bytes + 1,
            ..self
        })
    }

    // Which field is the name, once the number at hand is over.
    fn name_after(self, value: u32) -> Option<usize>
        ensures { result ≡ name_after self value }
    {
        if self.field == 0 {
            return name_of_kind(value);
        }
        self.name
    }

    // A tab: the number at hand is over, and another field begins.
    #[tactic(auto, unfolding(crate::specs::Steps::tab_in))]
    fn tab(self, rows: &mut [u32; 8704]) -> Result<Place, Unread>
        requires { (Fine self) × (self.items < 512) }
        ensures { with result rows.new ≡ tab_of self rows.old }
    {
        let Some(value) = self.value else {
            return Err(self.unread());
        };
        if 16 <= self.field {
            return Err(self.unread());
        }
        rows[self.items * 17 + self.field] = value;
        Ok(Place {
            field: self.field + 1,
            name: self.name_after(value),
            value: None,
            ..self
        })
    }

    // Byte 10: the field at hand is over, and so is the line.
    #[tactic(auto, unfolding(crate::specs::Steps::end_of))]
    fn end(self, rows: &mut [u32; 8704]) -> Result<Place, Unread>
        requires { (Fine self) × (self.items < 512) }
        ensures { with result rows.new ≡ end_of self rows.old }
    {
        let at = self.items * 17 + self.field;
        let next = Place::line_start(self.items + 1, self.start + self.bytes);
        if self.is_in_name() {
            rows[at] = self.start as u32;
            rows[at + 1] = self.bytes as u32;
            return Ok(next);
        }
        let Some(value) = self.value else {
            return Err(self.unread());
        };
        if self.name_after(value).is_some() {
            return Err(self.unread());
        }
        rows[at] = value;
        Ok(next)
    }

    // One byte.
    #[tactic(auto, unfolding(crate::specs::Steps::turn_at))]
    fn turn(self, b: u8, rows: &mut [u32; 8704], names: &mut [u8; 2048]) -> Result<Place, Unread>
        requires { Fine self }
        ensures { mem result rows.new names.new ≡ turn_at self rows.old names.old b }
    {
        if 512 <= self.items {
            return Err(self.unread());
        }
        match b {
            b'\n' => self.end(rows),
            b'\t' => self.tab(rows),
            _ if self.is_in_name() => self.letter(b, names),
            _ => self.digit(b),
        }
    }

    // Bytes in turn, up to an unread line: what follows it is passed over.
    fn turns(
        self,
        chunk: &[u8],
        rows: &mut [u32; 8704],
        names: &mut [u8; 2048],
    ) -> Result<Place, Unread>
        requires { Fine self }
        ensures { mem result rows.new names.new ≡ run (mem (Ok self) rows.old names.old) chunk.now }
    {
        let mut place = self;
        for b in chunk {
            place = place.turn(*b, rows, names)?;
        }
        Ok(place)
    }
}

impl Reader {
    // A reader that has read nothing.
    pub fn new() -> Reader
        ensures { Has [] result }
    {
        Reader {
            place: Ok(Place::line_start(0, 0)),
            rows: [0; 8704],
            names: [0; 2048],
        }
    }

    // A chunk of the input is read.
    pub fn feed(&mut self, chunk: &[u8])
        requires { HasSome self.old }
        ensures { (past : List ℕ) → Has past self.old → Has (past ++ chunk.now) self.new }
    {
        if let Ok(place) = self.place {
            self.place = place.turns(chunk, &mut self.rows, &mut self.names);
        }
    }

    // The input ends, and with it a line at hand.
    #[tactic(auto, unfolding(crate::specs::Steps::ended))]
    fn end(&mut self)
        requires { FineIn self.old.place }
        ensures { self.new ≡ ended self.old }
    {
        if let Ok(place) = self.place {
            if place.is_begun() {
                self.place = place.turn(b'\n', &mut self.rows, &mut self.names);
            }
        }
    }

    // What the lines before say.
    fn reading(&self) -> Result<Read<'_>, Unread>
        requires { FineIn self.now.place }
        ensures { Reads self.now result }
    {
        let place = self.place?;
        Ok(Read {
            rows: &self.rows[..place.items * 17],
            names: &self.names[..place.start],
        })
    }

    // What the whole input says.
    pub fn finish(&mut self) -> Result<Read<'_>, Unread>
        requires { HasSome self.old }
        ensures by_index { (input : List ℕ) → Has input self.old → Tells (said input) result }
        ensures within { Within result }
    {
        self.end();
        self.reading()
    }
}
