use super::*;
use std::test::Fail;

// A script and what is printed for it.
const SCRIPTS: [(&str, &str); 4] = [
    ("", ""),
    (
        "K count\nO\nJ 1 0\nW 1 0 7 12\nR 1 0 7",
        "ok\nok 1\nok\nok\nok 12\n",
    ),
    (
        "O\nK pose\nO\nJ 1 3\nW 1 3 0 90 -90 0 1\nR 1 3 0\nQ\n",
        "no script 14 1\nok\nok 1\nok\nok\nok 90 -90 0 1\nno script 14 7\n",
    ),
    ("\u{e9}\n", "no script 14 1\n"),
];

#[test]
fn scripts_are_printed_as_bytes_and_as_text(rt: HostRuntime) -> Result<(), Fail> {
    let heap = rt.alloc();
    for (script, printed) in SCRIPTS {
        let bytes = run_bytes(heap, script.as_bytes())?;
        let text = run(heap, script.as_bytes())?;
        assert_eq!(rt; bytes.as_slice(), printed.as_bytes());
        assert_eq!(rt; text.as_str(), printed);
    }
    Ok(())
}

#[test]
fn a_session_answers_as_bytes_and_as_text(rt: HostRuntime) -> Result<(), Fail> {
    let heap = rt.alloc();
    let mut first = Session::new();
    let mut second = Session::new();
    for (number, text, line) in [
        (1, "K pose", "ok\n"),
        (2, "O", "ok 1\n"),
        (3, "S 1", "no line 4 1\n"),
        (4, "K pose", "no script 14 4\n"),
    ] {
        let bytes = first.answer_bytes(heap, number, text.as_bytes())?;
        let answer = second.answer_line(heap, number, text.as_bytes())?;
        assert_eq!(rt; bytes.as_slice(), line.as_bytes());
        assert_eq!(rt; answer.as_str(), line);
    }
    Ok(())
}

#[test]
fn a_script_that_is_too_long_is_not_run(rt: HostRuntime) -> Result<(), Fail> {
    let heap = rt.alloc();
    let refusal = "no script 15 65536\n";
    assert_eq!(rt; too_long_bytes().as_slice(), refusal.as_bytes());
    assert_eq!(rt; too_long().as_str(), refusal);
    let longest = [b'\n'; 65_537];
    let refused = run(heap, &longest)?;
    assert_eq!(rt; refused.as_str(), refusal);
    let run_whole = run(heap, &longest[1..])?;
    assert!(rt; run_whole.as_str().ends_with("no script 14 65536\n"));
    Ok(())
}
