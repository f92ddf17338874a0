//! A parcel goes round a fresh exchange, and each look tells what it read.

ghost use Rattle.std.specs.Prelude.{IfOk};
ghost use Rattle.dem_model.specs.Motion.{AreSound};

use dem_gen::made_scene;
use dem_model::{OutOfMemory, Scene};
use dem_shape::{Shapes, Snapshot, first_bodies};
use dem_swap::{DynSeat, KinSeat, Parcel, Swap};
use std::alloc::Global;
use std::test::Fail;

/// A scene of one clump.
fn scene(alloc: Global) -> Result<Scene, OutOfMemory> {
    made_scene(alloc, 0, 1)
}

/// The parcel, with this step and the bodies at the start.
#[tactic(auto, using(dem_plain::proofs::RunFacts::first_sound))]
fn filled(alloc: Global, shapes: &Shapes, step: u32, parcel: Parcel) -> Result<Parcel, OutOfMemory>
    ensures { IfOk result (λ p. AreSound shapes.now p.snap.bodies) }
{
    let scene = shapes.scene();
    Ok(Parcel {
        snap: Snapshot {
            step,
            bodies: first_bodies(alloc, scene)?,
        },
        list: parcel.list,
        refused: parcel.refused,
    })
}

/// Whether values of a type may go to another thread.
fn may_move<T: Send>(_value: &T) -> bool {
    true
}

/// Whether values of a type may be shared by threads.
fn may_share<T: Sync>(_value: &T) -> bool {
    true
}

#[test]
fn goes_round_once(rt: HostRuntime) -> Result<(), Fail> {
    let scene = scene(rt.alloc())?;
    let shapes = Shapes::new(rt.alloc(), &scene)?;
    let (swap, mut dynamics, mut kinematics, parcel) = Swap::new(rt.alloc(), &shapes, 20)?;
    let parcel = filled(rt.alloc(), &shapes, 7, parcel)?;
    assert!(rt; swap.take(&mut kinematics).is_none());
    swap.post(&mut dynamics, parcel);
    assert!(rt; swap.collect(&mut dynamics).is_none());
    let Some(taken) = swap.take(&mut kinematics) else {
        panic!(rt; "the parcel was posted")
    };
    assert!(rt; swap.collect(&mut dynamics).is_none());
    let answer = Parcel {
        snap: taken.snap,
        list: taken.list,
        refused: true,
    };
    swap.deliver(&mut kinematics, answer);
    let Some(back) = swap.collect(&mut dynamics) else {
        panic!(rt; "the parcel was delivered")
    };
    assert!(rt; back.refused);
    assert_eq!(rt; back.snap.step, 7);
    assert_eq!(rt; back.snap.bodies.len(), 1);
    assert!(rt; swap.take(&mut kinematics).is_none());
    Ok(())
}

#[test]
fn shows_the_stop_once_it_was_raised(rt: HostRuntime) -> Result<(), Fail> {
    let scene = scene(rt.alloc())?;
    let shapes = Shapes::new(rt.alloc(), &scene)?;
    let (swap, mut dynamics, mut kinematics, _parcel) = Swap::new(rt.alloc(), &shapes, 0)?;
    assert!(rt; !swap.stopped(&mut kinematics));
    swap.raise(&mut dynamics);
    assert!(rt; swap.stopped(&mut kinematics));
    Ok(())
}

#[test]
fn may_be_used_by_two_threads(rt: HostRuntime) -> Result<(), Fail> {
    let scene = scene(rt.alloc())?;
    let shapes = Shapes::new(rt.alloc(), &scene)?;
    let (swap, dynamics, kinematics, parcel) = Swap::new(rt.alloc(), &shapes, 0)?;
    assert!(rt; may_share::<Swap>(&swap));
    assert!(rt; may_move::<DynSeat>(&dynamics) && may_move::<KinSeat>(&kinematics));
    assert!(rt; may_move::<Parcel>(&parcel));
    Ok(())
}
