use super::*;

// Angles, their bits, and the whole degrees that they are.
const ANGLES: [(f32, u32, Option<i32>); 8] = [
    (0.0, 0, Some(0)),
    (-0.0, 0x8000_0000, Some(0)),
    (1.0, 0x3f80_0000, Some(1)),
    (360.0, 0x43b4_0000, Some(360)),
    (-360.0, 0xc3b4_0000, Some(-360)),
    (361.0, 0x43b4_8000, None),
    (0.5, 0x3f00_0000, None),
    (16777216.0, 0x4b80_0000, None),
];

// Bits that are no number, and those of the infinities, which are numbers.
const NO_NUMBERS: [(u32, bool); 5] = [
    (0x7fc0_0000, true),
    (0x7f80_0001, true),
    (0xffff_ffff, true),
    (0x7f80_0000, false),
    (0xff80_0000, false),
];

#[test]
fn angles_have_their_bits_and_degrees(rt: HostRuntime) {
    for (angle, bits, degrees) in ANGLES {
        let pose = Pose {
            joint0: angle,
            joint1: angle,
            joint2: angle,
            joint3: angle,
        };
        assert!(rt;
            PoseBits::from(pose)
                == PoseBits {
                    joint0: bits,
                    joint1: bits,
                    joint2: bits,
                    joint3: bits,
                }
        );
        assert_eq!(rt; whole_degrees(angle), degrees);
        assert_eq!(rt; bits_to_degrees(bits), degrees);
    }
}

#[test]
fn bits_of_no_number_make_no_pose(rt: HostRuntime) {
    for (bits, none) in NO_NUMBERS {
        let angles = [
            PoseBits {
                joint0: bits,
                joint1: 0,
                joint2: 0,
                joint3: 0,
            },
            PoseBits {
                joint0: 0,
                joint1: bits,
                joint2: 0,
                joint3: 0,
            },
            PoseBits {
                joint0: 0,
                joint1: 0,
                joint2: bits,
                joint3: 0,
            },
            PoseBits {
                joint0: 0,
                joint1: 0,
                joint2: 0,
                joint3: bits,
            },
        ];
        for pose in angles {
            assert_eq!(rt; Pose::try_from(pose).is_err(), none);
        }
    }
}

#[test]
fn an_angle_that_is_no_number_has_the_quiet_bits(rt: HostRuntime) {
    let missing = 0.0f32 / 0.0;
    let bits = PoseBits::from(Pose {
        joint0: 1.0,
        joint1: missing,
        joint2: 0.0,
        joint3: -1.0,
    });
    assert!(rt;
        bits == PoseBits {
            joint0: 0x3f80_0000,
            joint1: 0x7fc0_0000,
            joint2: 0,
            joint3: 0xbf80_0000,
        }
    );
}

#[test]
fn whole_degrees_come_back(rt: HostRuntime) {
    // The numbers themselves are tried.
    for degrees in -362..=362 {
        match from_degrees(degrees) {
            Some(angle) => assert_eq!(rt; whole_degrees(angle), Some(degrees)),
            None => assert!(rt; degrees < -360 || degrees > 360),
        }
    }
}
