//! Packings whose places another program computed, and rows that ask for none.
ghost use Rattle.std.specs.Prelude.{◌≤◌};

use dem_gen::made_scene;
use dem_model::{List, Stand};
use dem_num::Vec3;
use dem_pack::{Ask, Kind, PackFault, pack, read_ask};
use std::alloc::Global;
use std::test::Fail;

// The stands that a row comes to, in a box of 18,874,368 u whose template 1 is a sphere of 1,026,140 u.
fn packed(alloc: Global, row: &[u8], count: u32) -> Result<List<Stand>, PackFault>
    requires some { 1 ≤ count }
    requires many { count ≤ 16384 }
{
    let scene = made_scene(alloc, 7, 300)?;
    match read_ask(row, count) {
        Some(ask) => pack(alloc, &scene, &ask),
        None => Err(PackFault::OutOfMemory),
    }
}

// The fault of a row, where it has one.
fn fault(alloc: Global, row: &[u8], count: u32) -> Option<PackFault>
    requires some { 1 ≤ count }
    requires many { count ≤ 16384 }
{
    match packed(alloc, row, count) {
        Ok(_) => None,
        Err(fault) => Some(fault),
    }
}

// The place of a stand.
fn at(x: i64, y: i64, z: i64) -> Vec3 {
    Vec3 { x, y, z }
}

#[test]
fn fills_a_grid(rt: HostRuntime) -> Result<(), Fail> {
    let row = b"grid,1,0,0,0,0,18874368,18874368,18874368\n";
    let stands = packed(rt.alloc(), row, 729).expect(&rt, "stands");
    assert_eq!(rt; stands.len(), 729);
    assert_eq!(rt; stands.get(0).t, 1);
    assert_eq!(rt; stands.get(0).p, at(1_026_140, 1_026_140, 1_026_140));
    assert_eq!(rt; stands.get(1).p, at(3_078_420, 1_026_140, 1_026_140));
    assert_eq!(rt; stands.get(9).p, at(1_026_140, 3_078_420, 1_026_140));
    assert_eq!(rt; stands.get(81).p, at(1_026_140, 1_026_140, 3_078_420));
    assert_eq!(rt; stands.get(728).p, at(17_444_380, 17_444_380, 17_444_380));
    Ok(())
}

#[test]
fn shifts_odd_layers(rt: HostRuntime) -> Result<(), Fail> {
    let row = b"staggered,1,1000,0,0,0,18874368,18874368,18874368";
    let stands = packed(rt.alloc(), row, 870).expect(&rt, "stands");
    assert_eq!(rt; stands.len(), 870);
    assert_eq!(rt; stands.get(81).p, at(2_052_780, 2_052_780, 2_478_029));
    assert_eq!(rt; stands.get(82).p, at(4_106_060, 2_052_780, 2_478_029));
    assert_eq!(rt; stands.get(89).p, at(2_052_780, 4_106_060, 2_478_029));
    assert_eq!(rt; stands.get(869).p, at(16_425_740, 16_425_740, 16_996_919));
    Ok(())
}

#[test]
fn refuses_in_order(rt: HostRuntime) -> Result<(), Fail> {
    let index = b"grid,4,0,1,0,0,0,0,0";
    assert_eq!(rt; fault(rt.alloc(), index, 1), Some(PackFault::Index));
    let turned = b"grid,1,0,1,0,0,0,18874368,18874368";
    assert_eq!(rt; fault(rt.alloc(), turned, 1), Some(PackFault::Region));
    let outside = b"grid,1,0,0,0,0,18874368,18874368,18874369";
    assert_eq!(rt; fault(rt.alloc(), outside, 1), Some(PackFault::Region));
    let grid = b"grid,1,0,0,0,0,18874368,18874368,18874368";
    assert_eq!(rt;
        fault(rt.alloc(), grid, 730),
        Some(PackFault::Room { cells: 729 })
    );
    let staggered = b"staggered,1,0,0,0,0,18874368,18874368,18874368";
    assert_eq!(rt;
        fault(rt.alloc(), staggered, 16_384),
        Some(PackFault::Room { cells: 870 })
    );
    let flat = b"staggered,1,0,0,0,0,18874368,18874368,0";
    assert_eq!(rt;
        fault(rt.alloc(), flat, 1),
        Some(PackFault::Room { cells: 0 })
    );
    Ok(())
}

#[test]
fn reads_rows(rt: HostRuntime) -> Result<(), Fail> {
    let ask = Ask {
        kind: Kind::Staggered,
        t: 255,
        gap: 67_108_864,
        lo: at(0, 1, 2),
        hi: at(3, 4, 68_719_476_736),
        count: 5,
    };
    assert_eq!(rt;
        read_ask(b"staggered,255,67108864,0,1,2,3,4,68719476736", 5),
        Some(ask)
    );
    assert_eq!(rt;
        read_ask(b"staggered,255,67108864,0,1,2,3,4,68719476736\n", 5),
        Some(ask)
    );
    assert_eq!(rt;
        read_ask(b"staggered,255,67108864,0,1,2,3,4,68719476736\n\n", 5),
        None
    );
    assert_eq!(rt;
        read_ask(b"staggered,256,67108864,0,1,2,3,4,68719476736", 5),
        None
    );
    assert_eq!(rt;
        read_ask(b"staggered,255,67108865,0,1,2,3,4,68719476736", 5),
        None
    );
    assert_eq!(rt;
        read_ask(b"staggered,255,67108864,0,1,2,3,4,68719476737", 5),
        None
    );
    assert_eq!(rt; read_ask(b"staggered,255,67108864,-0,1,2,3,4,5", 5), None);
    assert_eq!(rt; read_ask(b"staggered,255,67108864,00,1,2,3,4,5", 5), None);
    assert_eq!(rt; read_ask(b"staggered,255,67108864,-1,1,2,3,4,5", 5), None);
    assert_eq!(rt; read_ask(b"staggered,255,67108864,0,1,2,3,4", 5), None);
    assert_eq!(rt; read_ask(b"staggered,255,67108864,0,1,2,3,4,5,6", 5), None);
    assert_eq!(rt; read_ask(b"Grid,0,0,0,1,2,3,4,5", 5), None);
    assert_eq!(rt; read_ask(b"", 5), None);
    Ok(())
}
