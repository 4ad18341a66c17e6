// Parcels as bytes, low byte first.
#![tactic(auto)]

ghost use Rattle.std.specs.Prelude.{◌≡◌};
ghost use Rattle.parcel_bytes.specs.Bytes.{told_bytes, Writes};

use refusals::Refusal;

// An answer in numbers: 0 and the bytes written; or a refusal's number with its detail and no bytes. The third detail, a row, is always 0.
#[repr(C)]
#[derive(Clone, Copy)]
pub struct ToldBytes {
    pub bytes: u64,
    pub first: i64,
    pub third: i64,
    pub number: u32,
    pub spare: u32,
}

impl From<Result<u64, Refusal>> for ToldBytes {
    ghost from_gives = { λ written told. told ≡ told_bytes written };

    // How many bytes were written, or why none, in numbers.
    fn from(written: Result<u64, Refusal>) -> ToldBytes {
        match written {
            Ok(bytes) => ToldBytes {
                bytes,
                first: 0,
                third: 0,
                number: 0,
                spare: 0,
            },
            Err(refusal) => {
                let told = refusal.told();
                ToldBytes {
                    bytes: 0,
                    first: told.first,
                    third: told.third,
                    number: told.number,
                    spare: 0,
                }
            }
        }
    }
}

// The parcels' bytes at the front of the lent ones, low byte first, and their number; the bytes after them stay as they were.
// With fewer bytes than twice the parcels nothing is written.
pub fn parcels_to_bytes(parcels: &[u16], bytes: &mut [u8]) -> Result<u64, Refusal>
    ensures { Writes parcels.now bytes.old (told_bytes result) bytes.new }
{
    if bytes.len() / 2 < parcels.len() {
        return Err(Refusal::NoRoomForBytes(bytes.len() as u64));
    }
    for (i, parcel) in parcels.iter().enumerate() {
        bytes[2 * i..2 * i + 2].copy_from_slice(&parcel.to_le_bytes());
    }
    Ok(2 * parcels.len() as u64)
}
