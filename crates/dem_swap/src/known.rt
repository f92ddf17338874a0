//! What each side of an exchange knows. No value of these types is made.

use dem_model::{Body, List, Scene};
use std::marker::Model;

/// The bodies of a step.
pub struct Snap {
    step: u32,
    bodies: List<Body>,
}

impl Model for Snap {
    ghost use Rattle.dem_model.specs.World.{Snap as SnapValue};

    ghost Value = { SnapValue };

    ghost view = { λ a. record { step = a.step; bodies = a.bodies } };
}

/// A scene, and the drift limit of its lists.
pub struct Terms {
    scene: Scene,
    drift: u32,
}

impl Model for Terms {
    ghost use Rattle.dem_model.specs.Exchange.{Terms as TermsValue};

    ghost Value = { TermsValue };

    ghost view = { λ a. record { scene = a.scene; drift = a.drift } };
}

/// How often a side looked at each word, and what it saw there last.
pub struct Looks {
    turn_looks: u64,
    stop_looks: u64,
    saw_turn: u64,
    saw_stop: u64,
}

impl Model for Looks {
    ghost use Rattle.dem_model.specs.Exchange.{Looks as LooksValue};

    ghost Value = { LooksValue };

    ghost view = { λ a. record { turn_looks = a.turn_looks; stop_looks = a.stop_looks; saw_turn = a.saw_turn; saw_stop = a.saw_stop } };
}

/// What dynamics knows.
pub struct Dynamics {
    terms: Option<Terms>,
    posted: List<Snap>,
    collected: u64,
    alone: bool,
    raised: bool,
    looks: Looks,
}

impl Model for Dynamics {
    ghost use Rattle.dem_model.specs.Exchange.{DynamicsView};

    ghost Value = { DynamicsView };

    ghost view = { λ a. record { terms = a.terms; posted = a.posted; collected = a.collected; alone = a.alone; raised = a.raised; looks = a.looks } };
}

/// What kinematics knows.
pub struct Kinematics {
    terms: Option<Terms>,
    taken: u64,
    delivered: u64,
    copy: Option<Snap>,
    looks: Looks,
}

impl Model for Kinematics {
    ghost use Rattle.dem_model.specs.Exchange.{KinematicsView};

    ghost Value = { KinematicsView };

    ghost view = { λ a. record { terms = a.terms; taken = a.taken; delivered = a.delivered; copy = a.copy; looks = a.looks } };
}

/// What one of the sides knows.
pub enum View {
    OfDynamics(Dynamics),
    OfKinematics(Kinematics),
}
