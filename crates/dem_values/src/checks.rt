//! Texts beside the output of a made scene, whose one sphere falls freely and meets nothing: its rows are worked out by hand.

use dem_check::{Line, Verdict, check};
use dem_gen::made_scene;
use dem_model::OutOfMemory;
use std::alloc::Global;
use std::test::Fail;

const OUTPUT: &[u8] =
    b"frame,0\nclump,0,3154666,3158753,3156796,4819651,831654,3226889,1073741824,0,0,0,0,0,0\nframe,100\nclump,0,3161966,3159953,3161620,4819651,831654,3162689,1073741824,0,0,0,0,0,0\nend,done,100\n";

// The last frame has another z.
const OTHER: &[u8] =
    b"frame,0\nclump,0,3154666,3158753,3156796,4819651,831654,3226889,1073741824,0,0,0,0,0,0\nframe,100\nclump,0,3161966,3159953,3161619,4819651,831654,3162689,1073741824,0,0,0,0,0,0\nend,done,100\n";

const OTHER_ROW: &[u8] =
    b"clump,0,3161966,3159953,3161619,4819651,831654,3162689,1073741824,0,0,0,0,0,0";

const ROW: &[u8] = b"clump,0,3161966,3159953,3161620,4819651,831654,3162689,1073741824,0,0,0,0,0,0";

const END: &[u8] = b"end,done,100";

// The verdict on a text.
fn verdict(alloc: Global, text: &[u8]) -> Result<Verdict, OutOfMemory> {
    let scene = made_scene(alloc, 0, 1)?;
    check(alloc, &scene, text)
}

// Whether a line has this text, or there is none where none is wanted.
fn has(line: &Option<Line>, text: Option<&[u8]>) -> bool {
    match (line, text) {
        (Some(line), Some(text)) => line.text.as_slice() == text,
        (None, None) => true,
        _ => false,
    }
}

// Whether the verdict is that this row differs, with these rows.
fn differs(verdict: &Verdict, at: u64, text: Option<&[u8]>, output: Option<&[u8]>) -> bool {
    match verdict {
        Verdict::Differs { row, kept, found } => *row == at
            && has(kept, text)
            && has(found, output),
        Verdict::Same => false,
    }
}

#[test]
fn takes_the_output(rt: HostRuntime) -> Result<(), Fail> {
    let told = verdict(rt.alloc(), OUTPUT)?;
    assert!(rt; matches!(told, Verdict::Same));
    Ok(())
}

#[test]
fn tells_the_first_row_that_differs(rt: HostRuntime) -> Result<(), Fail> {
    let told = verdict(rt.alloc(), OTHER)?;
    assert!(rt; differs(&told, 4, Some(OTHER_ROW), Some(ROW)));
    let told = verdict(rt.alloc(), b"")?;
    assert!(rt; differs(&told, 1, None, Some(b"frame,0")));
    Ok(())
}

#[test]
fn tells_an_end_that_is_missing(rt: HostRuntime) -> Result<(), Fail> {
    let told = verdict(rt.alloc(), &OUTPUT[..OUTPUT.len() - 13])?;
    assert!(rt; differs(&told, 5, None, Some(END)));
    let told = verdict(rt.alloc(), &OUTPUT[..OUTPUT.len() - 1])?;
    assert!(rt; differs(&told, 5, Some(END), Some(END)));
    Ok(())
}

#[test]
fn tells_a_row_too_many(rt: HostRuntime) -> Result<(), Fail> {
    let mut text = Vec::from_slice(rt.alloc(), OUTPUT)?;
    text.push(b'\n')?;
    let told = verdict(rt.alloc(), text.as_slice())?;
    assert!(rt; differs(&told, 6, Some(b""), None));
    Ok(())
}
