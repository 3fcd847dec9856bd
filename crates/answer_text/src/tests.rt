use super::*;
use pose::PoseBits;
use protocol::{Answer, CellFault, Decision, Delivery, Fault, Range, Site, Stage};

const ANSWERS: [(Result<Answer<u64>, Fault>, &str); 20] = [
    (Ok(Answer::Accepted), "ok\n"),
    (Ok(Answer::Number(0)), "ok 0\n"),
    (Ok(Answer::Number(1_000_000)), "ok 1000000\n"),
    (Ok(Answer::Payload(None)), "ok absent\n"),
    (
        Ok(Answer::Payload(Some(18_446_744_073_709_551_615))),
        "ok 18446744073709551615\n",
    ),
    (
        Ok(Answer::Delivered(Delivery::Ranged(Range {
            earliest: 1000,
            latest: 1500,
        }))),
        "ok range 1000 1500\n",
    ),
    (Ok(Answer::Delivered(Delivery::Declined)), "ok out\n"),
    (Ok(Answer::Delivered(Delivery::Noted)), "ok noted\n"),
    (
        Ok(Answer::Delivered(Delivery::Committed(1700))),
        "ok commit 1700\n",
    ),
    (Ok(Answer::Delivered(Delivery::Aborted)), "ok abort\n"),
    (Ok(Answer::Delivered(Delivery::Settled)), "ok done\n"),
    (Ok(Answer::Delivered(Delivery::Stale)), "ok stale\n"),
    (Ok(Answer::Delivered(Delivery::Closed)), "ok closed\n"),
    (Ok(Answer::Stands(Stage::Open)), "ok open\n"),
    (Ok(Answer::Stands(Stage::Polling)), "ok polling\n"),
    (
        Ok(Answer::Stands(Stage::Decided(Decision::Commit(9)))),
        "ok commit 9\n",
    ),
    (
        Ok(Answer::Stands(Stage::Decided(Decision::Abort))),
        "ok abort\n",
    ),
    (Err(Fault::NotLive(1)), "no line 1 1\n"),
    (
        Err(Fault::AtCell(Site::Cell2, CellFault::NotActive)),
        "no cell 5 2\n",
    ),
    (
        Err(Fault::AtCell(Site::Cell3, CellFault::NoRow(7))),
        "no store 8 7\n",
    ),
];

#[test]
fn answers_have_their_lines(rt: HostRuntime) {
    for (answer, line) in ANSWERS {
        assert_eq!(rt; answer_bytes(&answer).as_slice(), line.as_bytes());
        assert_eq!(rt; answer_line(&answer).as_str(), line);
    }
}

#[test]
fn poses_are_printed_in_degrees(rt: HostRuntime) {
    let pose = PoseBits {
        joint0: 0x43b4_0000,
        joint1: 0xc3b4_0000,
        joint2: 0x8000_0000,
        joint3: 0x3f00_0000,
    };
    let lost = PoseBits {
        joint0: 0x7fc0_0000,
        joint1: 0x3f80_0000,
        joint2: 0x43b4_8000,
        joint3: 0x7f80_0000,
    };
    for (payload, text) in [(pose, "360 -360 0 ?"), (lost, "? 1 ? ?")] {
        assert_eq!(rt; payload.bytes().as_slice(), text.as_bytes());
        assert_eq!(rt; payload.text().as_str(), text);
    }
    let first = Ok(Answer::Payload(Some(pose)));
    let second = Ok(Answer::Payload(Some(lost)));
    assert_eq!(rt;
        answer_bytes(&first).as_slice(),
        b"ok 360 -360 0 ?\n".as_slice()
    );
    assert_eq!(rt;
        answer_bytes(&second).as_slice(),
        b"ok ? 1 ? ?\n".as_slice()
    );
    assert_eq!(rt; answer_line(&first).as_str(), "ok 360 -360 0 ?\n");
    assert_eq!(rt; answer_line(&second).as_str(), "ok ? 1 ? ?\n");
}

#[test]
fn script_faults_have_their_lines(rt: HostRuntime) {
    for (fault, line) in [
        (ScriptFault::Malformed(12), "no script 14 12\n"),
        (ScriptFault::TooLong, "no script 15 65536\n"),
    ] {
        assert_eq!(rt; script_fault_bytes(fault).as_slice(), line.as_bytes());
        assert_eq!(rt; script_fault_line(fault).as_str(), line);
    }
}

// The lines of the largest numbers.
#[test]
fn the_longest_lines_have_room(rt: HostRuntime) {
    let range = Range {
        earliest: u64::MAX,
        latest: u64::MAX,
    };
    let answer: Result<Answer<u64>, Fault> = Ok(Answer::Delivered(Delivery::Ranged(range)));
    let longest = "ok range 18446744073709551615 18446744073709551615\n";
    assert_eq!(rt; answer_bytes(&answer).as_slice(), longest.as_bytes());
    assert_eq!(rt; answer_line(&answer).as_str(), longest);
    let fault = ScriptFault::Malformed(u64::MAX);
    let refusal = "no script 14 18446744073709551615\n";
    assert_eq!(rt; script_fault_bytes(fault).as_slice(), refusal.as_bytes());
    assert_eq!(rt; script_fault_line(fault).as_str(), refusal);
}
