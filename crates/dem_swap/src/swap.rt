//! The exchange: a turn word, a stop word, and one slot for the parcel.

ghost use Rattle.std.specs.Prelude.{◌≡◌, ◌≢◌, ◌↔◌, ℕ, true, IfSome, IfNone};
ghost use Rattle.dem_swap.specs.Cycle.{snap_of, cargo_of};
ghost use Rattle.dem_model.specs.Exchange.{IsSoundFor, IsPostedLast, IsAnswer};
ghost use Rattle.dem_model.specs.ExchangeKinds.{
  HoldsHome,
  HasPosted,
  HoldsTaken,
  posting,
  taking,
  delivering,
  collecting,
  dynamics_looking,
  kinematics_looking,
  kinematics_checking,
  raising,
};

use crate::known::View;
use crate::parcel::Parcel;
use crate::plays::{Check, Collect, Cycle, Deliver, Post, Raise, Take};
use crate::seats::{DynSeat, KinSeat};
use atomic_table::Table;
use std::alloc::Global;
use std::marker::Model;

/// The place of the turn word.
pub(crate) const TURN: usize = 0;

/// The place of the stop word.
const STOP: usize = 1;

/// The place of the slot.
const SLOT: usize = 0;

/// Turn word: dynamics holds the parcel.
const HOME: u64 = 0;

/// Turn word: the parcel was posted.
const POSTED: u64 = 1;

/// Turn word: kinematics holds the parcel.
const HELD: u64 = 2;

/// Turn word: the parcel was delivered.
const DELIVERED: u64 = 3;

/// Stop word: the stop was raised.
const RAISED: u64 = 1;

/// The exchange of one parcel between two threads, seen as the table that it is.
#[derive(Drop)]
pub struct Swap {
    pub(crate) table: Table<Option<Parcel>, View, (), Cycle, Global>,
}

impl Model for Swap {
    ghost use Rattle.std.specs.Prelude.{◌≡◌};
    ghost use Rattle.atomic_table.specs.Seated.{TableId};

    ghost Value = { TableId };

    ghost view = { λ a. a.table.shared.table_id };

    ghost invariant = { λ a. (a.table.shared.table_id.words ≡ 2) × (a.table.shared.table_id.slots ≡ 1) };
}

impl Swap {
    /// Hands the parcel over.
    pub fn post(&self, seat: &mut DynSeat, parcel: Parcel)
        requires seat { seat.old.table ≡ self.now }
        requires home { HoldsHome seat.old.view }
        requires sound { IsSoundFor seat.old.view.terms (snap_of parcel.snap) }
        ensures { seat.new ≡ record seat.old { view = posting seat.old.view (snap_of parcel.snap) } }
    {
        let shared = &self.table.shared;
        drop(shared.exchange(&mut seat.seat, SLOT, Some(parcel)));
        shared.store::<Post>(&mut seat.seat, TURN, POSTED);
    }

    /// Tries once to collect the parcel; it comes with the snapshot that this seat posted last, and the list of its near pairs,
    /// or with that list refused. None exactly where the turn word that was read wasn't 3; the seat keeps that number.
    pub fn collect(&self, seat: &mut DynSeat) -> Option<Parcel>
        requires seat { seat.old.table ≡ self.now }
        requires posted { HasPosted seat.old.view }
        ensures none { IfNone result ((n : ℕ) × (n ≢ 3) × (seat.new ≡ record seat.old { view = dynamics_looking seat.old.view n })) }
        ensures collected { IfSome result (λ p. seat.new ≡ record seat.old { view = collecting seat.old.view }) }
        ensures snapshot { IfSome result (λ p. IsPostedLast seat.old.view (snap_of p.snap)) }
        ensures list { IfSome result (λ p. IsAnswer seat.old.view.terms (cargo_of p)) }
    {
        let shared = &self.table.shared;
        match shared.compare_exchange::<Collect>(&mut seat.seat, TURN, DELIVERED, HOME) {
            DELIVERED => shared.exchange(&mut seat.seat, SLOT, None),
            _ => None,
        }
    }

    /// Raises the stop.
    pub fn raise(&self, seat: &mut DynSeat)
        requires seat { seat.old.table ≡ self.now }
        ensures { seat.new ≡ record seat.old { view = raising seat.old.view } }
    {
        self.table
            .shared
            .store::<Raise>(&mut seat.seat, STOP, RAISED);
    }

    /// Tries once to take the parcel; its snapshot is sound. None exactly where the turn word that was read wasn't 1; the seat
    /// keeps that number.
    pub fn take(&self, seat: &mut KinSeat) -> Option<Parcel>
        requires seat { seat.old.table ≡ self.now }
        ensures none { IfNone result ((n : ℕ) × (n ≢ 1) × (seat.new ≡ record seat.old { view = kinematics_looking seat.old.view n })) }
        ensures taken { IfSome result (λ p. seat.new ≡ record seat.old { view = taking seat.old.view (snap_of p.snap) }) }
        ensures sound { IfSome result (λ p. IsSoundFor seat.old.view.terms (snap_of p.snap)) }
    {
        let shared = &self.table.shared;
        match shared.compare_exchange::<Take>(&mut seat.seat, TURN, POSTED, HELD) {
            POSTED => shared.exchange(&mut seat.seat, SLOT, None),
            _ => None,
        }
    }

    /// Puts the parcel back, with the taken snapshot unchanged, and the list of its near pairs, or with that list refused.
    pub fn deliver(&self, seat: &mut KinSeat, parcel: Parcel)
        requires seat { seat.old.table ≡ self.now }
        requires taken { HoldsTaken seat.old.view (snap_of parcel.snap) }
        requires answer { IsAnswer seat.old.view.terms (cargo_of parcel) }
        ensures { seat.new ≡ record seat.old { view = delivering seat.old.view } }
    {
        let shared = &self.table.shared;
        drop(shared.exchange(&mut seat.seat, SLOT, Some(parcel)));
        shared.store::<Deliver>(&mut seat.seat, TURN, DELIVERED);
    }

    /// Looks once at the stop word. True exactly where the number that was read was 1; the seat keeps that number.
    pub fn stopped(&self, seat: &mut KinSeat) -> bool
        requires seat { seat.old.table ≡ self.now }
        ensures seat { seat.new ≡ record seat.old { view = kinematics_checking seat.old.view seat.new.view.looks.saw_stop } }
        ensures read { (result ≡ true) ↔ (seat.new.view.looks.saw_stop ≡ 1) }
    {
        self.table.shared.load::<Check>(&mut seat.seat, STOP) == RAISED
    }
}
