//! The rows as they are printed, and a sink that fails in a frame.
ghost use Rattle.std.specs.Prelude.{◌≡◌, length, IfOk};

use dem_frame::{
    FrameFault, WriteFault, read_frame, write_clump, write_end, write_head, write_pair,
    write_state, write_taken, write_tests,
};
use dem_model::{Body, End, EndKind, Held, Last, List, Pair, State, TakenRow};
use dem_num::{Quat, Vec3};
use dem_outside::{Fail, MemSink};
use std::alloc::Global;
use std::test::Fail as TestFail;

// A sphere that slides, after its first step.
const BODY: Body = Body {
    p: Vec3 {
        x: 19999,
        y: 20000,
        z: 999,
    },
    q: Quat {
        a: 1073741824,
        b: 0,
        c: 0,
        d: 0,
    },
    v: Vec3 {
        x: -100,
        y: 0,
        z: 0,
    },
    w: Vec3 { x: 0, y: 0, z: 0 },
};

// The pair of that sphere and the floor.
const HELD: Held = Held {
    pair: Pair { a: 0, b: 1 },
    h: Vec3 {
        x: 32768,
        y: 0,
        z: 0,
    },
};

const FRAME: &[u8] =
    b"frame,1\nclump,0,19999,20000,999,-100,0,0,1073741824,0,0,0,0,0,0\npair,0,1,32768,0,0\n";

// A sink that fails at no put, or at this one after these bytes.
fn sink(alloc: Global, fail: Option<Fail>) -> Result<MemSink, TestFail> {
    let mut fails = List::new(alloc);
    if let Some(fail) = fail {
        fails.push(fail)?;
    }
    Ok(MemSink::new(alloc, 1000, fails)?)
}

fn state(alloc: Global) -> Result<State, TestFail>
    ensures { IfOk result (λ s. length s.bodies ≡ 1) }
{
    let mut bodies = List::new(alloc);
    bodies.push(BODY)?;
    let mut held = List::new(alloc);
    held.push(HELD)?;
    Ok(State {
        step: 1,
        bodies,
        held,
    })
}

#[test]
fn a_frame(rt: HostRuntime) -> Result<(), TestFail> {
    let mut out = sink(rt.alloc(), None)?;
    assert_eq!(rt; write_state(&mut out, &state(rt.alloc())?), Ok(()));
    assert_eq!(rt; out.held(), FRAME);
    Ok(())
}

#[test]
fn a_frame_ends_in_its_third_put(rt: HostRuntime) -> Result<(), TestFail> {
    let mut out = sink(rt.alloc(), Some(Fail { call: 3, take: 4 }))?;
    assert_eq!(rt; write_state(&mut out, &state(rt.alloc())?), Err(WriteFault));
    assert_eq!(rt; out.held().len(), FRAME.len() - b",0,1,32768,0,0\n".len());
    Ok(())
}

#[test]
fn each_row(rt: HostRuntime) -> Result<(), TestFail> {
    let mut out = sink(rt.alloc(), None)?;
    assert_eq!(rt; write_head(&mut out, 1), Ok(()));
    assert_eq!(rt; write_clump(&mut out, 0, &BODY), Ok(()));
    assert_eq!(rt; write_pair(&mut out, HELD.pair, HELD.h), Ok(()));
    assert_eq!(rt; out.held(), FRAME);
    Ok(())
}

#[test]
fn ends_and_reports(rt: HostRuntime) -> Result<(), TestFail> {
    let mut out = sink(rt.alloc(), None)?;
    assert_eq!(rt; write_end(&mut out, &Last::Done { step: 500 }), Ok(()));
    for kind in [
        EndKind::Speed,
        EndKind::Spin,
        EndKind::Domain,
        EndKind::Swing,
    ] {
        let end = End {
            step: 2,
            kind,
            clump: 7,
        };
        assert_eq!(rt; write_end(&mut out, &Last::Passed(end)), Ok(()));
    }
    let row = TakenRow {
        from: 0,
        at: 21,
        pairs: 15872,
    };
    assert_eq!(rt; write_taken(&mut out, &row), Ok(()));
    assert_eq!(rt; write_tests(&mut out, u64::MAX), Ok(()));
    let want =
        b"end,done,500\nend,speed,2,7\nend,spin,2,7\nend,domain,2,7\nend,swing,2,7\ntaken,0,21,15872\ntests,18446744073709551615\n";
    assert_eq!(rt; out.held(), want.as_slice());
    Ok(())
}

#[test]
fn the_least_number(rt: HostRuntime) -> Result<(), TestFail> {
    let mut out = sink(rt.alloc(), None)?;
    let least = Vec3 {
        x: i64::MIN,
        y: -1,
        z: 0,
    };
    assert_eq!(rt; write_pair(&mut out, HELD.pair, least), Ok(()));
    assert_eq!(rt;
        out.held(),
        b"pair,0,1,-9223372036854775808,-1,0\n".as_slice()
    );
    Ok(())
}

#[test]
fn a_frame_is_read_back(rt: HostRuntime) -> Result<(), TestFail> {
    let Ok(state) = read_frame(rt.alloc(), FRAME, 1) else {
        assert!(rt; false);
        return Ok(());
    };
    assert_eq!(rt; state.step, 1);
    assert_eq!(rt; state.bodies.as_slice(), [BODY].as_slice());
    assert_eq!(rt; state.held.as_slice(), [HELD].as_slice());
    Ok(())
}

#[test]
fn no_good_frames(rt: HostRuntime) {
    let bad = |row: u32| FrameFault::Bad { row };
    let cases = [
        (b"frame,1\npair,0,1,32768,0,0\n".as_slice(), bad(2)),
        (b"frame,1\n".as_slice(), FrameFault::Short { rows: 1 }),
        (b"".as_slice(), FrameFault::Short { rows: 0 }),
        (b"frame,01\n".as_slice(), bad(1)),
        (b"frame,-0\n".as_slice(), bad(1)),
        (b"frame,+1\n".as_slice(), bad(1)),
        (b"frame,1000000001\n".as_slice(), bad(1)),
        (b"frame,1,\n".as_slice(), bad(1)),
        (
            b"frame,1\nclump,1,0,0,0,0,0,0,0,0,0,0,0,0,0\n".as_slice(),
            bad(2),
        ),
        (
            b"frame,1\nclump,0,9223372036854775808,0,0,0,0,0,0,0,0,0,0,0,0\n".as_slice(),
            bad(2),
        ),
        (
            b"frame,1\n\n\"clump\",0,0,0,0,0,0,0,0,0,0,0,0,0,0\npair,1,1,0,0,0\n".as_slice(),
            bad(3),
        ),
        (
            b"frame,1\nclump,0,0,0,0,0,0,0,0,0,0,0,0,0,0\npair,0,2,0,0,0\npair,0,2,0,0,0\n".as_slice(),
            bad(4),
        ),
        (
            b"frame,1\nclump,0,0,0,0,0,0,0,0,0,0,0,0,0,0\npair,0,2,0,0,1099511627777\n".as_slice(),
            bad(3),
        ),
    ];
    for (text, fault) in cases {
        match read_frame(rt.alloc(), text, 1) {
            Ok(_) => assert!(rt; false),
            Err(e) => assert_eq!(rt; e, fault),
        }
    }
}
