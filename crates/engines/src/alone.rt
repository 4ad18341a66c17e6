// The engines with 64 loop records of their own, as `build::build_alone` has them.
ghost use Rattle.std.specs.Prelude.{[]};
ghost use Rattle.refusals.specs.Numbers.{answered};
ghost use Rattle.places.specs.Left.{lent_of, BuildsAlone};
ghost use Rattle.engines.specs.Alone.{TakesAlone};

use places::{Rooms, ZERO_LOOP};
use refusals::Answer;
use taking::Taking;

// The quick build's rows in turn.
pub fn taken(
    rows: &[u32],
    names: &[u8],
    parcels: &mut [u16],
    labels: &mut [u32],
    jumps: &mut [u32],
) -> Taking
    ensures { TakesAlone rows.now names.now (lent_of parcels.old labels.old jumps.old []) result (lent_of parcels.new labels.new jumps.new []) }
{
    let zero = ZERO_LOOP;
    let mut loops = [zero; 64];
    let rooms = Rooms::of(parcels.len(), labels.len(), jumps.len(), 64);
    taking::take_rows(
        rows,
        names,
        rooms,
        &mut *parcels,
        &mut *labels,
        &mut *jumps,
        &mut loops,
    )
}

// The plain build.
pub fn built_plain(
    rows: &[u32],
    names: &[u8],
    parcels: &mut [u16],
    labels: &mut [u32],
    jumps: &mut [u32],
) -> Answer
    ensures { BuildsAlone rows.now names.now (lent_of parcels.old labels.old jumps.old []) (answered result) (lent_of parcels.new labels.new jumps.new []) }
{
    let zero = ZERO_LOOP;
    let mut loops = [zero; 64];
    plain::build_plain(
        rows,
        names,
        &mut *parcels,
        &mut *labels,
        &mut *jumps,
        &mut loops,
    )
}
