// Words of 48 bits as fields, and as parcels.
#![tactic(auto)]

ghost use Rattle.std.specs.Prelude.{◌≡◌};
ghost use Rattle.fields.specs.Parcels.{cut};

// The three parcels of a 48-bit word, high first.
pub fn full_word_parcels(word: u64) -> [u16; 3]
    ensures { result ≡ cut 3 word }
{
    [
        (word / 0x1_0000_0000 % 0x1_0000) as u16,
        (word / 0x1_0000 % 0x1_0000) as u16,
        (word % 0x1_0000) as u16,
    ]
}
