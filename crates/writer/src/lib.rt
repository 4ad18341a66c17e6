// A writer of parcels: it holds the lent parcels and the next free place, appends, and patches earlier places. Its methods
// are thin, over the slice function at the top; `emit` and `mend` keep it to themselves.
#![tactic(auto)]

ghost use Rattle.std.specs.Prelude.{◌≡◌, ◌+◌, ◌≤◌, length, take};
ghost use Rattle.std.proofs.lemmas.List.Edits.{sets};
ghost use Rattle.writer.specs.Writing.{appended};

#[derive(Drop)]
pub struct Writer<'a> {
    pub parcels: &'a mut [u16],
    pub at: usize,
}

// Words stand in the parcels from a place on.
#[tactic(auto, using(crate::proofs::Stores::copied))]
fn put(parcels: &mut [u16], place: usize, words: &[u16])
    requires { place + length words.now ≤ length parcels.old }
    ensures { parcels.new ≡ sets parcels.old place words.now }
{
    parcels[place..place + words.len()].copy_from_slice(words);
}

impl<'a> Writer<'a> {
    // The first n of six words stand at the next free place, which moves on by n.
    fn append(self, words: [u16; 6], n: usize) -> Writer<'a>
        requires { (n ≤ 6) × (self.at + n ≤ length self.parcels.now) }
        ensures { result ≡ appended self.entry words n }
    {
        let at = self.at;
        put(self.parcels, at, &words[..n]);
        Writer {
            parcels: self.parcels,
            at: at + n,
        }
    }

    // Three earlier parcels are written anew. The next free place stays, and is handed back.
    fn patch(self, place: usize, words: [u16; 3]) -> usize
        requires { place + 3 ≤ length self.parcels.now }
        ensures { (result ≡ self.entry.at) × (self.exit.0.now ≡ sets self.entry.parcels.now place words) }
    {
        put(self.parcels, place, &words);
        self.at
    }
}

// A writer that has gone on at `at` by the first n of six words.
fn ahead<'a>(parcels: &'a mut [u16], at: usize, words: [u16; 6], n: usize) -> Writer<'a>
    requires { (n ≤ 6) × (at + n ≤ length parcels.old) }
    ensures { result ≡ appended (record { parcels = parcels.entry; at = at }) words n }
{
    Writer { parcels, at }.append(words, n)
}

// A writer that goes on at `at` appends the first n of six words, as an instruction's parcels come. The answer is its next free place.
pub fn emit(parcels: &mut [u16], at: usize, words: [u16; 6], n: usize) -> usize
    requires { (n ≤ 6) × (at + n ≤ length parcels.old) }
    ensures { (result ≡ at + n) × (parcels.new ≡ sets parcels.old at (take n words)) }
{
    ahead(parcels, at, words, n).at
}

// A writer whose next free place is `at` patches three earlier parcels. The answer is its next free place, which stays.
pub fn mend(parcels: &mut [u16], at: usize, place: usize, words: [u16; 3]) -> usize
    requires { place + 3 ≤ length parcels.old }
    ensures { (result ≡ at) × (parcels.new ≡ sets parcels.old place words) }
{
    Writer { parcels, at }.patch(place, words)
}
