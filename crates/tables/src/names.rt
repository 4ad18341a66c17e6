// Names: ranges of the lent names, equal when their bytes are, and the search of the label entries.
ghost use Rattle.std.specs.Prelude.{◌≡◌, ◌+◌, ◌*◌, ◌≤◌, length, get_or};
ghost use Rattle.places.specs.Items.{label_width};
ghost use Rattle.places.specs.Looking.{same_from};
ghost use Rattle.tables.specs.Tables.{entry_is, lookup, Entries};

use places::LABEL_WIDTH;

// Whether the `len` bytes of the names at `a` and at `b` are the same, from the last one back: names of one program often share
// their front. (`==` of the two slices goes from the front: it took 2.5 times the instructions over 4,096 labels of one front.)
fn same(names: &[u8], a: usize, b: usize, len: usize) -> bool
    requires { (a + len ≤ length names.now) × (b + len ≤ length names.now) }
    ensures { result ≡ same_from names.now len a b }
{
    for k in (0..len).rev() {
        if names[a + k] != names[b + k] {
            return false;
        }
    }
    true
}

// Whether label entry k has the name at `start` of length `len`.
fn entry_is(names: &[u8], labels: &[u32], k: usize, start: usize, len: usize) -> bool
    requires { (label_width * k + label_width ≤ length labels.now) × (start + len ≤ length names.now) × (get_or labels.now (label_width * k) 0 + get_or labels.now (label_width * k + 1) 0 ≤ length names.now) }
    ensures { result ≡ entry_is names.now labels.now start len k }
{
    let other = labels[LABEL_WIDTH * k] as usize;
    let long = labels[LABEL_WIDTH * k + 1] as usize;
    long == len && same(names, other, start, len)
}

// The address of the newest of `count` label entries that has the name at `start` of length `len`: most jumps go to the label bound
// most recently.
pub fn find(names: &[u8], labels: &[u32], count: usize, start: usize, len: usize) -> Option<u32>
    requires { (label_width * count ≤ length labels.now) × (start + len ≤ length names.now) × Entries names.now labels.now count }
    ensures { result ≡ lookup names.now labels.now start len count }
{
    for k in (0..count).rev() {
        if entry_is(names, labels, k, start, len) {
            return Some(labels[LABEL_WIDTH * k + 2]);
        }
    }
    None
}
