//! Worked values of each call.

use crate::guess::{long_guess, short_guess};
use crate::*;

#[test]
fn rounds(rt: HostRuntime) {
    assert_eq!(rt; tdiv(-7, 2), -3);
    assert_eq!(rt; sh(-7, 1), -4);
    assert_eq!(rt; cl(-9, 5), -5);
    assert_eq!(rt; narrow(sub(add(mul(-3, 4), 20), negated(-1))), 7);
}

#[test]
fn takes_roots(rt: HostRuntime) {
    assert_eq!(rt; root(0), 0);
    assert_eq!(rt; root(15), 3);
    assert_eq!(rt; root(16), 4);
    assert_eq!(rt; root(u128::MAX), u64::MAX);
}

#[test]
#[tactic(auto, unfolding(crate::specs::Rotations::quat_norm2_of))]
fn multiplies_vectors(rt: HostRuntime) {
    let a = Vec3 { x: 1, y: -2, z: 3 };
    let b = Wide3 { x: 4, y: 5, z: -6 };
    assert_eq!(rt; dot(a, b), -24);
    assert_eq!(rt;
        cross(a, b),
        Wide3 {
            x: -3,
            y: 18,
            z: 13
        }
    );
    assert_eq!(rt; norm2(b), 77);
    assert_eq!(rt;
        quat_norm2(Quat {
            a: -1,
            b: 2,
            c: 3,
            d: -4
        }),
        30
    );
}

#[test]
fn works_on_each_axis(rt: HostRuntime) {
    let a = widen(Vec3 { x: 9, y: -9, z: 4 });
    let b = Wide3 { x: 1, y: 2, z: 3 };
    assert_eq!(rt; add3(a, b), Wide3 { x: 10, y: -7, z: 7 });
    assert_eq!(rt; sub3(a, b), Wide3 { x: 8, y: -11, z: 1 });
    assert_eq!(rt;
        scale3(-2, b),
        Wide3 {
            x: -2,
            y: -4,
            z: -6
        }
    );
    assert_eq!(rt; negated3(a), Wide3 { x: -9, y: 9, z: -4 });
    assert_eq!(rt; tdiv3(a, 2), Wide3 { x: 4, y: -4, z: 2 });
    assert_eq!(rt; sh3(a, 1), Wide3 { x: 4, y: -5, z: 2 });
    assert_eq!(rt; cl3(a, 5), Wide3 { x: 5, y: -5, z: 4 });
    assert_eq!(rt; narrow3(b), Vec3 { x: 1, y: 2, z: 3 });
}

/// The guess is the root or one less, so that the slow way is not taken.
#[test]
fn guesses_well(rt: HostRuntime) {
    for x in [1u64, 3, 99, 1 << 20, 12345678901234567, (1 << 62) - 1] {
        let missing = root(x as u128).wrapping_sub(short_guess(x));
        assert!(rt; missing <= 1);
    }
    for x in [
        1u128 << 62,
        (1 << 80) + 7,
        (1 << 126) - 1,
        1 << 126,
        u128::MAX,
    ] {
        let missing = root(x).wrapping_sub(long_guess(x));
        assert!(rt; missing <= 1);
    }
}
