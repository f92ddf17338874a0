//! A new exchange: its table, its two seats, and the parcel that dynamics holds at first.

ghost use Rattle.std.specs.Prelude.{◌≡◌, false, [], length, replicate, IfOk};
ghost use Rattle.atomic_table.specs.Table.{Me};
ghost use Rattle.dem_model.specs.Centers.{still_body};
ghost use Rattle.dem_swap.specs.declared.known.View.TheVariants.{OfDynamics};
ghost use Rattle.dem_model.specs.Exchange.{terms_of};
ghost use Rattle.dem_model.specs.ExchangeKinds.{newcomer, first_dynamics, first_kinematics};

use crate::known::View;
use crate::parcel::Parcel;
use crate::plays::{Begin, Company, Cycle, Meant};
use crate::seats::{DynSeat, KinSeat};
use crate::swap::{Swap, TURN};
use atomic_table::{Seat, Table};
use dem_list::PairList;
use dem_model::OutOfMemory;
use dem_shape::{Shapes, Snapshot};
use std::alloc::Global;
use std::marker::Brand;

impl Swap {
    /// An exchange for these shapes and this drift limit, its seats, and a parcel with room for a body per clump. All memory
    /// of the exchange is taken here.
    pub fn new(
        alloc: Global,
        shapes: &Shapes,
        drift: u32,
    ) -> Result<(Swap, DynSeat, KinSeat, Parcel), OutOfMemory>
        ensures dynamics { IfOk result (λ r. r.1 ≡ record { table = r.0; view = first_dynamics (terms_of shapes.now drift) }) }
        ensures kinematics { IfOk result (λ r. r.2 ≡ record { table = r.0; view = first_kinematics (terms_of shapes.now drift) }) }
        ensures parcel { IfOk result (λ r. r.3 ≡ record { snap = record { step = 0; bodies = replicate (length shapes.now.clumps) still_body }; list = record { from = 0; pairs = [] }; refused = false }) }
    {
        let parcel = Parcel::new(alloc, shapes)?;
        match Table::vacant(alloc, &[0, 0], 1, &()) {
            Ok((table, seat)) => {
                let (swap, dynamics, kinematics) = begin::<Brand>(table, seat, shapes, drift);
                Ok((swap, dynamics, kinematics, parcel))
            }
            Err(_) => Err(OutOfMemory),
        }
    }
}

impl Parcel {
    /// A parcel with room for a body per clump, an empty list, and nothing refused.
    fn new(alloc: Global, shapes: &Shapes) -> Result<Parcel, OutOfMemory>
        ensures { IfOk result (λ p. p ≡ record { snap = record { step = 0; bodies = replicate (length shapes.now.clumps) still_body }; list = record { from = 0; pairs = [] }; refused = false }) }
    {
        let scene = shapes.scene();
        Ok(Parcel {
            snap: Snapshot::new(alloc, scene.clumps.len() as u32)?,
            list: PairList::empty(alloc),
            refused: false,
        })
    }
}

/// Tells the first seat what the exchange is made for, gives it the slot, and makes the second seat.
fn begin<J: Meant>(
    table: Table<Option<Parcel>, View, (), Cycle, Global>,
    seat: Seat<Option<Parcel>, View>,
    shapes: &Shapes,
    drift: u32,
) -> (Swap, DynSeat, KinSeat)
    requires terms { J.terms ≡ terms_of shapes.now drift }
    requires table { (table.shared.table_id.words ≡ 2) × (table.shared.table_id.slots ≡ 1) }
    requires seat { (seat.table_id ≡ table.shared.table_id) × (seat.id ≡ 0) }
    requires fresh { seat.me ≡ (OfDynamics newcomer, []) }
    ensures dynamics { result.1 ≡ record { table = result.0; view = first_dynamics (terms_of shapes.now drift) } }
    ensures kinematics { result.2 ≡ record { table = result.0; view = first_kinematics (terms_of shapes.now drift) } }
{
    let mut first = seat;
    table.shared.load::<Begin<J>>(&mut first, TURN);
    let second = table.shared.split_seat::<Company>(&mut first);
    (
        Swap { table },
        DynSeat { seat: first },
        KinSeat { seat: second },
    )
}
