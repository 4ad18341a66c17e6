// The end of a build: each waiting jump gets the word to its label, in item order; a refusal leaves zeros.
#![tactic(auto)]

pub mod wipes;

ghost use Rattle.std.specs.Prelude.{◌≡◌, ◌+◌, ◌≤◌, length};
ghost use Rattle.std.proofs.lemmas.List.Edits.{sets};
ghost use Rattle.encode.specs.Encoding.{form_verdict};
ghost use Rattle.places.specs.Items.{kernel_of, most_parcels};
ghost use Rattle.refusals.specs.Order.{if_good};
ghost use Rattle.encode.specs.Encoding.{settled};
ghost use Rattle.coded.specs.Fine.{CodedFine};
ghost use Rattle.settling.specs.Settling.{aim_form, Settles, AimFine, AimsFine, Aims};

use coded::Coded;
use items::{Condition, Item};
use places::JUMP_WIDTH;
use refusals::{Refusal, Refused, Verdict};

// The word of a jump at place p to address q stands there, if it encodes.
#[tactic(auto, unfolding(crate::specs::Settling::aim_form))]
fn settle(condition: Condition, p: usize, q: u32, parcels: &mut [u16]) -> Verdict
    requires { (p + 3 ≤ length parcels.old) × (p ≤ most_parcels) }
    ensures { (result ≡ form_verdict (aim_form condition p q)) × (parcels.new ≡ if_good result (sets parcels.old p (settled (aim_form condition p q))) parcels.old) }
{
    let form = encode::jump_form(condition, signs::apart(q as usize, p), false);
    encode::form_verdict(form)?;
    writer::mend(parcels, p, p, encode::settled(form));
    Ok(())
}

// The waiting jump at place p, as its row says: 12 before 9, or the word to its label stands there.
fn aim_coded(
    coded: Coded,
    names: &[u8],
    parcels: &mut [u16],
    labels: &[u32],
    n: usize,
    p: usize,
) -> Verdict
    requires { (AimFine names.now labels.now n p (length parcels.old)) × CodedFine (length names.now) coded }
    ensures { Settles names.now labels.now n p coded parcels.old result parcels.new }
{
    match coded {
        Ok(
            Item::Jump {
                condition,
                start,
                length,
            },
        ) => match tables::names::find(names, labels, n, start as usize, length as usize) {
            Some(q) => settle(condition, p, q, parcels),
            None => Err(Refusal::UndefinedLabel(start, length)),
        },
        _ => Ok(()),
    }
}

// The waiting jumps in turn, up to the first that is refused; the refusal names its row. The tables are flat, with the entries in use
// counted beside them, as `lhodrupesh_build` is lent them.
pub fn aim_all(
    rows: &[u32],
    names: &[u8],
    parcels: &mut [u16],
    labels: &[u32],
    n: usize,
    jumps: &[u32],
    count: usize,
) -> Result<(), Refused>
    requires { AimsFine (kernel_of rows.now names.now) labels.now n jumps.now count (length parcels.old) }
    ensures { Aims (kernel_of rows.now names.now) labels.now n jumps.now count parcels.old result parcels.new }
{
    for k in 0..count {
        let p = jumps[JUMP_WIDTH * k] as usize;
        let row = jumps[JUMP_WIDTH * k + 1];
        let coded = coded::coded_at(rows, row as usize, names.len());
        if let Err(why) = aim_coded(coded, names, parcels, labels, n, p) {
            return Err(why.at(row));
        }
    }
    Ok(())
}
