// Reads rows as lines of numbers, and prints what one instruction comes to: the replay of stored answers.
#![tactic(auto, using(text::proofs::Decimals::shorts))]

ghost use Rattle.std.specs.Prelude.{◌≡◌, true, ◌+◌, ◌≤◌, length};

use link::One;
use reader::Unread;
use reader::input::read_some;
use std::io;
use text::Text;

// Where reading stops: at a line that is no row, or at output that cannot be written.
#[derive(Drop)]
enum Stop {
    NoRow(Unread),
    Unwritten(io::Error),
}

impl From<Unread> for Stop {
    fn from(unread: Unread) -> Stop {
        Stop::NoRow(unread)
    }
}

impl From<io::Error> for Stop {
    fn from(error: io::Error) -> Stop {
        Stop::Unwritten(error)
    }
}

// The place in the line at hand: its number, the fields before, and the value of the digits so far, if there are any.
#[derive(Clone, Copy)]
struct Place {
    line: usize,
    fields: usize,
    value: Option<u32>,
}

impl Place {
    // The line before its first byte.
    fn line_start(line: usize) -> Place {
        Place {
            line,
            fields: 0,
            value: None,
        }
    }

    // The line as one that is no row.
    fn unread(self) -> Unread {
        Unread { line: self.line }
    }

    // A digit more.
    fn digit(self, b: u8) -> Result<Place, Unread> {
        let value = reader::with_digit(self.value, b).ok_or(self.unread())?;
        Ok(Place {
            value: Some(value),
            ..self
        })
    }

    // The end of a field, whose number goes to its place of the row.
    fn field(self, row: &mut [u32; 17]) -> Result<Place, Unread> {
        let value = self.value.ok_or(self.unread())?;
        if 16 < self.fields {
            return Err(self.unread());
        }
        row[self.fields] = value;
        Ok(Place {
            fields: self.fields + 1,
            value: None,
            ..self
        })
    }
}

// The output that is not yet written: the bytes before a place.
#[derive(Drop)]
struct Output {
    bytes: [u8; 65536],
    at: usize,
}

// The first parcels of an instruction more, so many of the six: each a tab and four hex digits.
fn put_parcels(text: &mut Text<'_>, parcels: [u16; 6], count: u32)
    requires { text.old.at + 30 ≤ length text.old.out.now }
    ensures within { text.new.at ≤ text.old.at + 30 }
    ensures long { length text.new.out.now ≡ length text.old.out.now }
    ensures same { text.new.out.ghost_name ≡ text.old.out.ghost_name }
{
    for parcel in &parcels[..(count as usize).min(6)] {
        text.put(b'\t');
        text.put_hex(*parcel);
    }
}

impl Output {
    // Whether a line more, of at most 95 bytes, has room.
    fn has_room(&self) -> bool
        ensures { result ≡ true → self.now.at + 95 ≤ 65536 }
    {
        self.at <= 65536 - 95
    }

    // The line of an accepted instruction.
    fn put_accepted(&mut self, one: One)
        requires { self.old.at + 95 ≤ 65536 }
    {
        let mut text = Text {
            out: &mut self.bytes,
            at: self.at,
        };
        text.put_head(b"ok\t", u64::from(one.count));
        put_parcels(&mut text, one.places, one.count);
        text.put(b'\n');
        self.at = text.at;
    }

    // The line of an answer, where it has room.
    fn put_answer(&mut self, one: One) {
        if !self.has_room() {
            return;
        }
        if one.number == 0 {
            self.put_accepted(one);
            return;
        }
        let mut text = Text {
            out: &mut self.bytes,
            at: self.at,
        };
        text.put_refused(one.number, one.first, one.second, one.third);
        self.at = text.at;
    }

    // The line that tells of one that is no row, where it has room.
    fn put_unread(&mut self, unread: Unread) {
        if !self.has_room() {
            return;
        }
        let mut text = Text {
            out: &mut self.bytes,
            at: self.at,
        };
        text.put_head(b"unread\t", unread.line as u64);
        text.put(b'\n');
        self.at = text.at;
    }

    // Writes all of it.
    fn flush(&mut self, rt: &HostRuntime) -> io::Result<()> {
        if let Some(bytes) = self.bytes.get(..self.at) {
            rt.write_all(bytes)?;
        }
        self.at = 0;
        Ok(())
    }
}

// The replay so far: the place in the line at hand, its numbers with zeros after them, and the output.
#[derive(Drop)]
struct Replay {
    place: Place,
    row: [u32; 17],
    out: Output,
}

impl Replay {
    // The end of a line: its answer in the output, which is written when it is nearly full, and the row zero again.
    fn end_line(&mut self, rt: &HostRuntime) -> Result<(), Stop> {
        let whole = self.place.field(&mut self.row)?;
        if 0xffff_ffff_ffff < whole.line {
            return Err(Stop::NoRow(whole.unread()));
        }
        self.out.put_answer(link::lhodrupesh_instruction(&self.row));
        if 60000 < self.out.at {
            self.out.flush(rt)?;
        }
        self.row = [0; 17];
        self.place = Place::line_start(whole.line + 1);
        Ok(())
    }

    // A byte more.
    fn take(&mut self, rt: &HostRuntime, b: u8) -> Result<(), Stop> {
        match b {
            b'\n' => self.end_line(rt)?,
            b'\t' => self.place = self.place.field(&mut self.row)?,
            _ => self.place = self.place.digit(b)?,
        }
        Ok(())
    }

    // The bytes of a read.
    fn feed(&mut self, rt: &HostRuntime, bytes: &[u8]) -> Result<(), Stop> {
        for b in bytes {
            self.take(rt, *b)?;
        }
        Ok(())
    }

    // The last line, which may lack its end.
    fn finish(&mut self, rt: &HostRuntime) -> Result<(), Stop> {
        if self.place.value.is_some() {
            return self.end_line(rt);
        }
        if self.place.fields == 0 {
            return Ok(());
        }
        Err(Stop::NoRow(self.place.unread()))
    }

    // All of standard input, up to its end or a line that is no row.
    fn read_all(&mut self, rt: &HostRuntime, buf: &mut [u8]) -> Result<(), Stop> {
        for _ in 0..u64::MAX {
            let n = read_some(rt, buf);
            if n == 0 {
                break;
            }
            self.feed(rt, &buf[..n])?;
        }
        self.finish(rt)
    }
}

fn main(rt: HostRuntime) -> io::Result<()> {
    let mut buf = [0u8; 65536];
    let mut replay = Replay {
        place: Place::line_start(1),
        row: [0; 17],
        out: Output {
            bytes: [0; 65536],
            at: 0,
        },
    };
    match replay.read_all(&rt, &mut buf) {
        Ok(()) => {}
        Err(Stop::NoRow(unread)) => replay.out.put_unread(unread),
        Err(Stop::Unwritten(error)) => return Err(error),
    }
    replay.out.flush(&rt)
}
