// Forms with a compute: its 23 bits stand in the word's lowest.
ghost use Rattle.std.specs.Prelude.{◌≡◌, ◌∷◌, ◌++◌};
ghost use Rattle.fields.specs.Pack.{field};
ghost use Rattle.known.specs.Table as table;

use crate::compute::beside_at;
use crate::lines::{code_fine, in_dag};
use crate::{Held, Known, bits, forms};

impl Known {
    // Three parcels and the row of a kind, a compute and eight places.
    pub fn row(kind: u32, k: [u32; 8], rest: [u32; 8]) -> Known
        ensures { result ≡ table.known 3 (kind ∷ (k ++ rest)) }
    {
        Known {
            parcels: 3,
            row: [
                kind, k[0], k[1], k[2], k[3], k[4], k[5], k[6], k[7], rest[0], rest[1], rest[2],
                rest[3], rest[4], rest[5], rest[6], rest[7],
            ],
        }
    }
}

impl Held {
    // Whether it writes the register of a number.
    fn writes(self, number: u32) -> bool
        ensures { result ≡ table.writes_to self number }
    {
        (self.first == Some(number)) | (self.second == Some(number))
    }

    // Whether it and the accesses of a dual move are fine together.
    fn dual_fine(self, dmd: u32, dmdreg: u32, pmd: u32, pmdreg: u32) -> bool
        ensures { result ≡ table.dual_fine (Some self) dmd dmdreg pmd pmdreg }
    {
        let same = (dmd == 0) & (dmdreg == pmdreg);
        !((dmd == 0) & self.writes(dmdreg)) & !((pmd == 0) & (self.writes(pmdreg) | same))
    }

    // Whether it and the access of a memory move are fine together.
    fn memory_fine(self, u: u32, g: u32, d: u32, code: u32) -> bool
        ensures { result ≡ table.memory_fine (Some self) u g d code }
    {
        let dag = ((u == 1) | (d == 1)) & in_dag(code, g == 1);
        let loaded = (d == 0) & ((code < 16) & self.writes(code));
        (code < 0x60) & (!dag & !loaded)
    }
}

// 001: the dual move, 1a.
pub fn dual(w: u64) -> Option<Known>
    requires { field 47 45 w ≡ 1 }
    ensures { result ≡ table.known_in w }
{
    if forms::is_1a(w) {
        let dmd = bits(w, 44, 44);
        let dmi = bits(w, 43, 41);
        let dmm = bits(w, 40, 38);
        let pmd = bits(w, 37, 37);
        let dmdreg = bits(w, 36, 33);
        let pmi = bits(w, 32, 30);
        let pmm = bits(w, 29, 27);
        let pmdreg = bits(w, 26, 23);
        let k = beside_at(bits(w, 22, 0).into())?;
        let accesses = [dmd, dmdreg, dmi, dmm, pmd, pmdreg, pmi + 8, pmm + 8];
        return k
            .dual_fine(dmd, dmdreg, pmd, pmdreg)
            .then_some(Known::row(33, k.places, accesses));
    }
    None
}

// 010: the pre-modify access, 3b, and the memory move, 3a. 3b first: its words look like 3a's.
pub fn memory(w: u64) -> Option<Known>
    requires { field 47 45 w ≡ 2 }
    ensures { result ≡ table.known_in w }
{
    let d = bits(w, 31, 31);
    let code = bits(w, 29, 23);
    let index = bits(w, 43, 41);
    let modifier = bits(w, 40, 38);
    if forms::is_3b(w) {
        return code_fine(code, d).then_some(Known::line(2, 21 + d, code, index, modifier));
    }
    if forms::is_3a(w) {
        let u = bits(w, 44, 44);
        let g = bits(w, 32, 32);
        let k = beside_at(bits(w, 22, 0).into())?;
        let access = [d, code, index + 8 * g, modifier + 8 * g, 1 - u, 0, 0, 0];
        return k
            .memory_fine(u, g, d, code)
            .then_some(Known::row(34, k.places, access));
    }
    None
}
