use super::*;
use pose::PoseBits;
use protocol::Call;
use std::test::Fail;

// A call as its letter and its numbers, with 0 for those that it lacks: expected values are read off the line, not made by the code.
fn parts<P>(call: Call<P>) -> (char, u64, u64, u64)
where
    P: Drop,
{
    match call {
        Call::Open => ('O', 0, 0, 0),
        Call::Join(tx, cell) => ('J', tx, cell as u64, 0),
        Call::Read(tx, cell, item) => ('R', tx, cell as u64, item as u64),
        Call::Write(tx, cell, item, _) => ('W', tx, cell as u64, item as u64),
        Call::Leave(tx, cell) => ('L', tx, cell as u64, 0),
        Call::Submit(tx) => ('S', tx, 0, 0),
        Call::GiveUp(tx) => ('G', tx, 0, 0),
        Call::Resend(tx) => ('A', tx, 0, 0),
        Call::Deliver(place) => ('D', place as u64, 0, 0),
        Call::Lose(place) => ('X', place as u64, 0, 0),
        Call::Clock(cell, time) => ('C', cell as u64, time, 0),
        Call::Fate(tx) => ('F', tx, 0, 0),
    }
}

const CALLS: [(&str, (char, u64, u64, u64)); 14] = [
    ("O", ('O', 0, 0, 0)),
    ("J 1 0", ('J', 1, 0, 0)),
    ("R 1 2 3", ('R', 1, 2, 3)),
    ("W 1 2 3 42", ('W', 1, 2, 3)),
    ("L 10 3", ('L', 10, 3, 0)),
    ("S 1000000", ('S', 1_000_000, 0, 0)),
    ("G 7", ('G', 7, 0, 0)),
    ("A 8", ('A', 8, 0, 0)),
    ("D 63", ('D', 63, 0, 0)),
    ("X 0", ('X', 0, 0, 0)),
    ("C 3 1000000000000", ('C', 3, 1_000_000_000_000, 0)),
    (
        "F 18446744073709551615",
        ('F', 18_446_744_073_709_551_615, 0, 0),
    ),
    (
        "R 18446744073709551615 18446744073709551615 18446744073709551615",
        (
            'R',
            18_446_744_073_709_551_615,
            18_446_744_073_709_551_615,
            18_446_744_073_709_551_615,
        ),
    ),
    (
        "W 18446744073709551615 18446744073709551615 18446744073709551615 999999999999999",
        (
            'W',
            18_446_744_073_709_551_615,
            18_446_744_073_709_551_615,
            18_446_744_073_709_551_615,
        ),
    ),
];

const MALFORMED: [&str; 24] = [
    "",
    " ",
    "o",
    "O ",
    "OO",
    "J",
    "J 1",
    "J  1 0",
    "J 1 0 ",
    "J 1 0 2",
    "J 01 0",
    "J +1 0",
    "J -1 0",
    "J 1\t0",
    "F 18446744073709551616",
    "S 1x",
    "S",
    "B 1",
    "K count",
    "W 1 2 3",
    "W 1 2 3 -1",
    "W 1 2 3 4 5 6 7",
    "W 18446744073709551615 18446744073709551615 18446744073709551615 9999999999999999",
    "J1 0",
];

#[test]
fn lines_give_their_calls(rt: HostRuntime) -> Result<(), Fail> {
    for (line, expected) in CALLS {
        let call = parse_call::<u64>(line.as_bytes()).ok_or_else(|| Fail::new("malformed"))?;
        assert_eq!(rt; parts(call), expected);
    }
    Ok(())
}

#[test]
fn other_lines_give_none(rt: HostRuntime) {
    for line in MALFORMED {
        assert!(rt; parse_call::<u64>(line.as_bytes()).is_none());
    }
}

#[test]
fn poses_are_four_whole_degrees(rt: HostRuntime) {
    let lines = [
        (
            "W 1 0 3 0 -1 360 -360",
            Some([0, 0xbf80_0000, 0x43b4_0000, 0xc3b4_0000]),
        ),
        ("W 1 0 3 0 -0 0 0", None),
        ("W 1 0 3 0 361 0 0", None),
        ("W 1 0 3 0 -361 0 0", None),
        ("W 1 0 3 0 00 0 0", None),
        ("W 1 0 3 0 1.0 0 0", None),
        ("W 1 0 3 0 0 0", None),
        ("W 1 0 3 0 0 0 0 0", None),
        ("W 1 0 3 42", None),
    ];
    for (line, expected) in lines {
        let found = match parse_call::<PoseBits>(line.as_bytes()) {
            Some(Call::Write(1, 0, 3, pose)) => Some([
                pose.joint0,
                pose.joint1,
                pose.joint2,
                pose.joint3,
            ]),
            _ => None,
        };
        assert!(rt; found == expected);
    }
}

#[test]
fn kind_lines_name_a_kind(rt: HostRuntime) {
    assert!(rt; matches!(parse_kind(b"K count"), Some(Kind::Count)));
    assert!(rt; matches!(parse_kind(b"K pose"), Some(Kind::Pose)));
    for line in [
        "", "K", "K ", "Kcount", "K  count", "K counts", "K count ", "k count", "K poses", "C pose",
    ] {
        assert!(rt; parse_kind(line.as_bytes()).is_none());
    }
}
