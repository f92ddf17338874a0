//! Objects of a scene text: only the names that their tables have in the scene's version.

ghost use Rattle.std.specs.Prelude.{◌≡◌, string_bytes};
ghost use Rattle.std.specs.List.{list_all};
ghost use Rattle.std.specs.BTreeMap.{keys};
ghost use Rattle.serde_json.specs.View.{view};
ghost use Rattle.dem_model.specs.Reading.{is_among, check_object, is_known_in, check_object_in};
ghost use Rattle.dem_model.specs.ReadingNames.{names_of, later_names_of};

use dem_model::{Name, SceneFault, Spot};
use serde_json::{Map, Value};

/// Whether the object at a place may have a name in both versions.
#[tactic(auto, unfolding(dem_model::specs::Reading::is_among, dem_model::specs::ReadingNames::names_of))]
fn is_known(object: Name, name: &str) -> bool
    ensures { result ≡ is_among (names_of object) name.now }
{
    match object {
        Name::Scene => is_scene_name(name),
        Name::Materials => matches!(name, "kn" | "kt" | "bn" | "bt" | "mu" | "mr"),
        Name::Templates => matches!(name, "mass" | "moments" | "spheres"),
        Name::TemplatesSpheres => matches!(name, "at" | "r" | "mat"),
        Name::Walls => matches!(name, "plane" | "cylinder" | "mat"),
        Name::WallsPlane => matches!(name, "at" | "dir"),
        Name::WallsCylinder => matches!(name, "axis" | "at" | "r"),
        Name::Families => matches!(name, "id" | "v" | "w"),
        Name::Clumps => matches!(name, "t" | "p" | "v" | "q" | "w"),
        // No object stands there.
        Name::Version
        | Name::Box
        | Name::Steps
        | Name::Every
        | Name::Speed
        | Name::Spin
        | Name::Gravity
        | Name::MaterialsKn
        | Name::MaterialsKt
        | Name::MaterialsBn
        | Name::MaterialsBt
        | Name::MaterialsMu
        | Name::MaterialsMr
        | Name::TemplatesMass
        | Name::TemplatesMoments
        | Name::TemplatesSpheresAt
        | Name::TemplatesSpheresR
        | Name::TemplatesSpheresMat
        | Name::WallsForm
        | Name::WallsPlaneAt
        | Name::WallsPlaneDir
        | Name::WallsCylinderAxis
        | Name::WallsCylinderAt
        | Name::WallsCylinderR
        | Name::WallsMat
        | Name::FamiliesId
        | Name::FamiliesV
        | Name::FamiliesW
        | Name::Off
        | Name::ClumpsT
        | Name::ClumpsFamily
        | Name::ClumpsP
        | Name::ClumpsV
        | Name::ClumpsQ
        | Name::ClumpsW
        | Name::ClumpsTotal => false,
    }
}

/// Whether the scene object may have a name in both versions.
#[tactic(auto, unfolding(dem_model::specs::Reading::is_among, dem_model::specs::ReadingNames::names_of))]
fn is_scene_name(name: &str) -> bool
    ensures { result ≡ is_among (names_of Name.Scene) name.now }
{
    matches!(
        name,
        "version"
            | "box"
            | "steps"
            | "every"
            | "speed"
            | "spin"
            | "gravity"
            | "materials"
            | "templates"
            | "walls"
            | "clumps"
    )
}

/// Whether the object at a place may have a name in version 2 alone.
#[tactic(auto, unfolding(dem_model::specs::Reading::is_among, dem_model::specs::ReadingNames::later_names_of))]
fn is_later_name(object: Name, name: &str) -> bool
    ensures { result ≡ is_among (later_names_of object) name.now }
{
    match object {
        Name::Scene => matches!(name, "families" | "off"),
        Name::Clumps => matches!(name, "family"),
        _ => false,
    }
}

/// Whether the object at a place may have a name in its version.
#[tactic(auto, unfolding(dem_model::specs::Reading::is_known_in))]
fn is_known_in(later: bool, object: Name, name: &str) -> bool
    ensures { result ≡ is_known_in later object name.now }
{
    is_known(object, name) || later && is_later_name(object, name)
}

/// Whether the object at a place may have each name of a map, in both versions.
fn all_known(object: Name, members: &Map<String, Value>) -> bool
    ensures { result ≡ list_all (λ k. is_among (names_of object) (string_bytes k)) (keys members.now) }
{
    members.keys().all(|name| is_known(object, name.as_str()))
}

/// An object, with no name that its table doesn't have.
#[tactic(auto, using(crate::proofs::Trees::all_names), unfolding(dem_model::specs::Reading::check_object))]
pub(crate) fn check(value: &Value, at: Spot) -> Result<(), SceneFault>
    ensures { result ≡ check_object at (view value.now) }
{
    let Some(members) = value.as_object() else {
        return Err(SceneFault::Field { which: at });
    };
    if all_known(at.name, members) {
        Ok(())
    } else {
        Err(SceneFault::Unknown { which: at })
    }
}

/// Whether the object at a place may have each name of a map, in its version.
fn all_known_in(later: bool, object: Name, members: &Map<String, Value>) -> bool
    ensures { result ≡ list_all (λ k. is_known_in later object (string_bytes k)) (keys members.now) }
{
    members
        .keys()
        .all(|name| is_known_in(later, object, name.as_str()))
}

/// An object, with no name that its table doesn't have in its version.
#[tactic(auto, using(crate::proofs::Trees::all_names), unfolding(dem_model::specs::Reading::check_object_in))]
pub(crate) fn check_in(later: bool, value: &Value, at: Spot) -> Result<(), SceneFault>
    ensures { result ≡ check_object_in later at (view value.now) }
{
    let Some(members) = value.as_object() else {
        return Err(SceneFault::Field { which: at });
    };
    if all_known_in(later, at.name, members) {
        Ok(())
    } else {
        Err(SceneFault::Unknown { which: at })
    }
}
