//! Laws of worlds: what all turns come to, and that legal rows tell turns of which a world may take each.

ghost use Rattle.std.specs.Prelude.{List as Seq};
ghost use Rattle.dem_model.specs.Plain.{last_of};
ghost use Rattle.dem_model.specs.TakenRows.{IsLegal};
ghost use Rattle.dem_model.specs.declared.state.TakenRow.{TakenRow};
ghost use Rattle.dem_model.specs.declared.state.Turn.{Turn};
ghost use Rattle.dem_core.specs.Playing.{ComesBy, Plays};

use dem_shape::Shapes;

/// Along the turns of legal rows a world may take each turn, and it ends as the plain run does: with the whole output written,
/// with these rows, and with the tests that they stand for. A law: it does nothing.
pub fn plays(shapes: &Shapes, drift: u32)
    ensures { (rows : Seq TakenRow) → IsLegal shapes.now drift (last_of shapes.now) rows → Plays shapes.now drift rows (last_of shapes.now) }
{}

/// Whatever turns a world is given from its start, what it has written is all that is due up to its state, and its rows are those
/// of the lists that it has taken into use; once it has ended the text is the whole output, it ends as the plain run does, and
/// the rows are legal. A law: it does nothing.
pub fn comes_by(shapes: &Shapes, drift: u32)
    ensures { (turns : Seq Turn) → ComesBy shapes.now drift turns }
{}
