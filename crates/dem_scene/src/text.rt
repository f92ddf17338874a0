//! The line of a refused scene text, made in a fixed buffer.

ghost use Rattle.std.specs.Prelude.{◌≡◌, ◌≤◌, ◌+◌, ◌++◌, length, codes, decimal};
ghost use Rattle.dem_model.specs.ReadingNames.{name_text};
ghost use Rattle.dem_model.specs.ReadingFaults.{spot_text, clump_text, fault_text};
ghost use Rattle.dem_scene.specs.WallNames.{IsWallName};

use arrayvec::ArrayVec;
use dem_model::{Name, SceneFault, Spot};
use itoa::Buffer;

/// The longest line has 59 bytes: `scene: `, `unknown`, a name of 21 bytes, two numbers of 10, three spaces, a newline.
pub const LINE_ROOM: usize = 64;

/// The longest name: `templates.spheres.mat`, or `walls.cylinder.axis`.
const MAX_NAME: usize = 21;

/// The longest word for a fault: `outside box`.
const MAX_KIND: usize = 11;

/// A line of text with its newline.
pub type Line = ArrayVec<u8, LINE_ROOM>;

/// Appends some bytes.
fn add(line: &mut Line, bytes: &[u8])
    requires { length line.old.items + length bytes.now ≤ LINE_ROOM }
    ensures { line.new.items ≡ line.old.items ++ bytes.now }
{
    line.try_extend_from_slice(bytes).unwrap();
}

/// Appends a space and a number.
fn add_number(line: &mut Line, number: u32)
    requires { length line.old.items + 11 ≤ LINE_ROOM }
    ensures text { line.new.items ≡ line.old.items ++ codes " " ++ decimal number }
    ensures size { length line.new.items ≤ length line.old.items + 11 }
{
    let mut digits = Buffer::new();
    add(line, b" ");
    add(line, digits.format(number).as_bytes());
}

/// The line of a fault at a place.
#[tactic(auto, unfolding(dem_model::specs::ReadingFaults::spot_text))]
fn spot_line(kind: &[u8], at: Spot) -> Line
    requires { length kind.now ≤ MAX_KIND }
    ensures { result.items ≡ spot_text kind.now at }
{
    let mut line = Line::new();
    add(&mut line, b"scene: ");
    add(&mut line, kind);
    add(&mut line, b" ");
    add(&mut line, name_bytes(at.name));
    add_number(&mut line, at.i);
    add_number(&mut line, at.j);
    add(&mut line, b"\n");
    line
}

/// The line of a fault of a clump.
#[tactic(auto, unfolding(dem_model::specs::ReadingFaults::clump_text))]
fn clump_line(kind: &[u8], clump: u32) -> Line
    requires { length kind.now ≤ MAX_KIND }
    ensures { result.items ≡ clump_text kind.now clump }
{
    let mut line = Line::new();
    add(&mut line, b"scene: ");
    add(&mut line, kind);
    add_number(&mut line, clump);
    add(&mut line, b"\n");
    line
}

/// A line that is known.
fn fixed_line(text: &[u8]) -> Line
    requires { length text.now ≤ LINE_ROOM }
    ensures { result.items ≡ text.now }
{
    let mut line = Line::new();
    add(&mut line, text);
    line
}

/// The line of a fault, with its newline; OutOfMemory has none.
#[tactic(auto, unfolding(dem_model::specs::ReadingFaults::fault_text))]
pub fn fault_line(fault: SceneFault) -> Line
    ensures { result.items ≡ fault_text fault }
{
    match fault {
        SceneFault::TooLong => fixed_line(b"scene: longer than 16777216 bytes\n"),
        SceneFault::NotJson => fixed_line(b"scene: not JSON\n"),
        SceneFault::Field { which } => spot_line(b"field", which),
        SceneFault::Unknown { which } => spot_line(b"unknown", which),
        SceneFault::Range { which } => spot_line(b"range", which),
        SceneFault::Index { which } => spot_line(b"index", which),
        SceneFault::Count { which } => spot_line(b"count", which),
        SceneFault::Version => fixed_line(b"scene: version\n"),
        SceneFault::OverLimit { clump } => clump_line(b"over limit", clump),
        SceneFault::OutsideBox { clump } => clump_line(b"outside box", clump),
        SceneFault::OutOfMemory => fixed_line(b""),
    }
}

/// A name as the messages write it.
#[tactic(auto, unfolding(dem_model::specs::ReadingNames::name_text))]
fn name_bytes(name: Name) -> &'static [u8]
    ensures text { result.now ≡ name_text name }
    ensures short { length result.now ≤ MAX_NAME }
{
    match name {
        Name::Scene => b"scene",
        Name::Version => b"version",
        Name::Box => b"box",
        Name::Steps => b"steps",
        Name::Every => b"every",
        Name::Speed => b"speed",
        Name::Spin => b"spin",
        Name::Gravity => b"gravity",
        Name::Materials => b"materials",
        Name::MaterialsKn => b"materials.kn",
        Name::MaterialsKt => b"materials.kt",
        Name::MaterialsBn => b"materials.bn",
        Name::MaterialsBt => b"materials.bt",
        Name::MaterialsMu => b"materials.mu",
        Name::MaterialsMr => b"materials.mr",
        Name::Templates => b"templates",
        Name::TemplatesMass => b"templates.mass",
        Name::TemplatesMoments => b"templates.moments",
        Name::TemplatesSpheres => b"templates.spheres",
        Name::TemplatesSpheresAt => b"templates.spheres.at",
        Name::TemplatesSpheresR => b"templates.spheres.r",
        Name::TemplatesSpheresMat => b"templates.spheres.mat",
        Name::Families => b"families",
        Name::FamiliesId => b"families.id",
        Name::FamiliesV => b"families.v",
        Name::FamiliesW => b"families.w",
        Name::Off => b"off",
        Name::Clumps => b"clumps",
        Name::ClumpsT => b"clumps.t",
        Name::ClumpsFamily => b"clumps.family",
        Name::ClumpsP => b"clumps.p",
        Name::ClumpsV => b"clumps.v",
        Name::ClumpsQ => b"clumps.q",
        Name::ClumpsW => b"clumps.w",
        Name::ClumpsTotal => b"clumps.total",
        _ => wall_name_bytes(name),
    }
}

/// The name of a wall's place, as the messages write it.
#[tactic(auto, unfolding(dem_model::specs::ReadingNames::name_text))]
fn wall_name_bytes(name: Name) -> &'static [u8]
    requires { IsWallName name }
    ensures text { result.now ≡ name_text name }
    ensures short { length result.now ≤ MAX_NAME }
{
    match name {
        Name::Walls => b"walls",
        Name::WallsForm => b"walls.form",
        Name::WallsPlane => b"walls.plane",
        Name::WallsPlaneAt => b"walls.plane.at",
        Name::WallsPlaneDir => b"walls.plane.dir",
        Name::WallsCylinder => b"walls.cylinder",
        Name::WallsCylinderAxis => b"walls.cylinder.axis",
        Name::WallsCylinderAt => b"walls.cylinder.at",
        Name::WallsCylinderR => b"walls.cylinder.r",
        Name::WallsMat => b"walls.mat",
        _ => b"",
    }
}
