//! The rule of the table, and what each of its steps tells.

ghost use Rattle.dem_swap.specs.Cycle.{
  KeepsCycle,
  Posts,
  Takes,
  Delivers,
  Collects,
  Checks,
  Raises,
  Begins,
  left_of,
  right_of,
};

use crate::known::View;
use crate::parcel::Parcel;
use atomic_table::{Play, Split, TableRule};
use std::marker::{Brand, PhantomData};

/// The rule of the exchange, over its table.
pub struct Cycle;

impl TableRule<Option<Parcel>, View, ()> for Cycle {
    ghost use Rattle.dem_swap.specs.declared.known.View.TheVariants.{OfDynamics};
    ghost use Rattle.dem_model.specs.ExchangeKinds.{newcomer};

    ghost holds = { λ _. KeepsCycle };

    ghost first = { λ _. OfDynamics newcomer };
}

pub(crate) struct Post;

impl Play<Option<Parcel>, View> for Post {
    ghost then = { Posts };
}

pub(crate) struct Take;

impl Play<Option<Parcel>, View> for Take {
    ghost then = { Takes };
}

pub(crate) struct Deliver;

impl Play<Option<Parcel>, View> for Deliver {
    ghost then = { Delivers };
}

pub(crate) struct Collect;

impl Play<Option<Parcel>, View> for Collect {
    ghost then = { Collects };
}

pub(crate) struct Check;

impl Play<Option<Parcel>, View> for Check {
    ghost then = { Checks };
}

pub(crate) struct Raise;

impl Play<Option<Parcel>, View> for Raise {
    ghost then = { Raises };
}

/// What an exchange is made for. The call that begins it picks this.
pub(crate) trait Meant {
    ghost use Rattle.dem_model.specs.Exchange.{Terms};

    ghost terms: { Terms };
}

impl Meant for Brand {
    ghost use Rattle.std.specs.Prelude.{[], pos};

    ghost terms = { record {
      scene = record {
        nx = 0;
        ny = 0;
        nz = 0;
        steps = 0;
        every = 0;
        speed = 0;
        spin = 0;
        gravity = record { x = pos 0; y = pos 0; z = pos 0 };
        materials = [];
        templates = [];
        walls = [];
        clumps = [];
        motions = [];
        off = [];
      };
      drift = 0;
    } };
}

pub(crate) struct Begin<J: Meant> {
    marker: PhantomData<J>,
}

impl<J: Meant> Play<Option<Parcel>, View> for Begin<J> {
    ghost then = { Begins J.terms };
}

pub(crate) struct Company;

impl Split<View> for Company {
    ghost left = { left_of };

    ghost right = { right_of };
}
