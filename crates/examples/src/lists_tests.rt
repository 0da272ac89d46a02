//! Lists of names: line ends, the first line of a name, the limit.
use name_list::{Answer, MOST_LINES, Tally, answer_lines};
use names::{Fault, Reason};
use std::test::Fail;

#[test]
fn lines_end_at_0a_or_0d_0a(rt: HostRuntime) -> Result<(), Fail> {
    let report = answer_lines(rt.alloc(), b"Arles\r\nArles\nLyon\r\n\nLyon")?;
    let answers = [
        Answer::New,
        Answer::Same(1),
        Answer::New,
        Answer::Refused(Fault {
            reason: Reason::Length,
            place: 0,
        }),
        Answer::Same(3),
    ];
    assert_eq!(rt; report.answers.as_slice(), answers.as_slice());
    assert_eq!(rt;
        Tally::of(report.answers.as_slice()),
        Tally {
            lines: 5,
            names: 2,
            refusals: 1
        }
    );
    assert!(rt; report.unread.is_empty());
    Ok(())
}

#[test]
fn no_bytes_are_no_line(rt: HostRuntime) -> Result<(), Fail> {
    let report = answer_lines(rt.alloc(), b"")?;
    assert!(rt; report.answers.is_empty() && report.unread.is_empty());
    Ok(())
}

// A lone 0D is part of the name, which is then refused.
#[test]
fn a_lone_0d_ends_no_line(rt: HostRuntime) -> Result<(), Fail> {
    let report = answer_lines(rt.alloc(), b"Arles\rLyon\nArles\r")?;
    assert_eq!(rt;
        Tally::of(report.answers.as_slice()),
        Tally {
            lines: 2,
            names: 0,
            refusals: 2
        }
    );
    Ok(())
}

#[test]
fn at_most_65536_lines_are_read(rt: HostRuntime) -> Result<(), Fail> {
    let bytes = vec![in rt.alloc(); 0x0a; 65_539]?;
    let report = answer_lines(rt.alloc(), bytes.as_slice())?;
    assert_eq!(rt; report.answers.len(), MOST_LINES);
    assert_eq!(rt; report.unread.len(), 3);
    Ok(())
}
