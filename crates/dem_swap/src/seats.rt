//! The seats of the two sides: each is its side's right to step at the exchange, and knows what it has done there.

use crate::known::View;
use crate::parcel::Parcel;
use atomic_table::Seat;
use std::marker::Model;

/// The seat of dynamics. It has no bytes, and may be dropped at any time.
#[derive(Drop)]
pub struct DynSeat {
    pub(crate) seat: Seat<Option<Parcel>, View>,
}

impl Model for DynSeat {
    ghost use Rattle.dem_swap.specs.Cycle.{dynamics_in};
    ghost use Rattle.dem_swap.specs.Seats.{DynSeatValue, IsDynSeat};

    ghost Value = { DynSeatValue };

    ghost view = { λ a. record { table = a.seat.table_id; view = dynamics_in a.seat.me.0 } };

    ghost invariant = { λ a. IsDynSeat a.seat.id a.seat.me };
}

/// The seat of kinematics. It has no bytes, and may be dropped at any time.
#[derive(Drop)]
pub struct KinSeat {
    pub(crate) seat: Seat<Option<Parcel>, View>,
}

impl Model for KinSeat {
    ghost use Rattle.dem_swap.specs.Cycle.{kinematics_in};
    ghost use Rattle.dem_swap.specs.Seats.{KinSeatValue, IsKinSeat};

    ghost Value = { KinSeatValue };

    ghost view = { λ a. record { table = a.seat.table_id; view = kinematics_in a.seat.me.0 } };

    ghost invariant = { λ a. IsKinSeat a.seat.me };
}
