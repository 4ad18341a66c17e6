// The lent tables: label entries found by name, runs of numbers and a form's parcels stored, loop records read, put and wiped.
#![tactic(auto)]

pub mod loops;
pub mod names;

ghost use Rattle.std.specs.Prelude.{◌≡◌, ◌+◌, ◌≤◌, length};
ghost use Rattle.std.proofs.lemmas.List.Edits.{sets};
ghost use Rattle.encode.specs.Encoding.{form_parcels};

use encode::Form;
use refusals::Refusal;

// Numbers stand in a table from `at` on.
#[tactic(auto, using(writer::proofs::Stores::copied))]
pub fn store(table: &mut [u32], at: usize, values: &[u32])
    requires { at + length values.now ≤ length table.old }
    ensures { table.new ≡ sets table.old at values.now }
{
    table[at..at + values.len()].copy_from_slice(values);
}

// The parcels of a form stand at `at`. The answer is the place past them.
pub fn put_form(parcels: &mut [u16], at: usize, form: Result<Form, Refusal>) -> usize
    requires { at + length (form_parcels form) ≤ length parcels.old }
    ensures { (result ≡ at + length (form_parcels form)) × (parcels.new ≡ sets parcels.old at (form_parcels form)) }
{
    match encode::cut_form(form) {
        Ok(cut) => writer::emit(parcels, at, cut.places, cut.count),
        Err(_) => at,
    }
}
