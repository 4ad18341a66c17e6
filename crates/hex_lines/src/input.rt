// Standard input to its end, by the bench program's loop over it.
ghost use Rattle.hex_lines.specs.Steps.{Has};

use crate::Reader;
use reader::input::Feed;

impl Feed for Reader {
    ghost has = { Has };

    fn start() -> Reader {
        Reader::new()
    }

    fn take(&mut self, chunk: &[u8]) {
        self.feed(chunk);
    }

    #[tactic(auto, using(crate::proofs::Feeding::over))]
    fn is_over(&self) -> bool {
        self.place.is_err()
    }
}
