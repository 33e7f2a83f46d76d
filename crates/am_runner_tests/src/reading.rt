//! That a script's text is read in threads: as many lines as it has, or the first fault in any part of it. The texts are
//! longer than those that one thread reads.

use am_script::{Fault, Line, ScriptFault, read_script, read_script_in_threads};
use std::alloc::{AllocError, Global};
use std::test::Fail;
use std::thread::Threads;

// How many lines a script has here. The first is the configuration.
const LINES: u32 = 1_600;

// Lines at the ends of parts, if there are two, three or four threads to read.
const PLACES: [u32; 5] = [2, 800, 801, 1_201, LINES];

const GET: &str =
    r#"{"do":"get","thread":0,"labels":{"alertname":"HighLatency","instance":"10.0.0.1:9090","job":"api","namespace":"team-1","pod":"server-1","service":"frontend","severity":"page"}}"#;

const SUBSCRIBE: &str = r#"{"do":"subscribe","thread":0,"sub":"a"}"#;

const LEAVE: &str = r#"{"do":"leave","thread":0,"sub":"a"}"#;

const NOT_JSON: &str = r#"{"do":"leave""#;

// A script in which lines of these numbers are these.
fn script(alloc: Global, others: &[(u32, &str)]) -> Result<String, AllocError> {
    let mut text = String::new(alloc);
    text.push_str(r#"{"route":{"receiver":"ops"}}"#)?;
    for number in 2..LINES + 1 {
        let mut line = GET;
        for other in others {
            if other.0 == number {
                line = other.1;
            }
        }
        text.push('\n')?;
        text.push_str(line)?;
    }
    Ok(text)
}

fn is_refused<R: Threads + Sync>(
    rt: &R,
    alloc: Global,
    others: &[(u32, &str)],
    number: u32,
    fault: Fault,
) -> Result<bool, AllocError> {
    let text = script(alloc, others)?;
    match read_script_in_threads(rt, alloc, text.as_bytes()) {
        Err(ScriptFault::Refused(refusal)) => Ok(
            refusal.number == number && refusal.fault == fault,
        ),
        Ok(_) | Err(_) => Ok(false),
    }
}

fn printed(alloc: Global, lines: &[Line]) -> Result<String, AllocError> {
    format!(in alloc; "{lines:?}")
}

#[test]
fn each_line_is_read_once(rt: HostRuntime) -> Result<(), Fail> {
    let alloc = rt.alloc();
    let text = script(alloc, &[])?;
    let lines = read_script_in_threads(&rt, alloc, text.as_bytes())?;
    assert_eq!(rt; lines.len(), 1_599);
    for (line, number) in lines.iter().zip(2..LINES + 1) {
        assert_eq!(rt; line.number, number);
    }
    let alone = read_script(alloc, text.as_bytes())?;
    assert!(rt; printed(alloc, &lines)? == printed(alloc, &alone)?);
    Ok(())
}

#[test]
fn empty_lines_are_counted_and_the_last_may_end(rt: HostRuntime) -> Result<(), Fail> {
    let alloc = rt.alloc();
    let mut text = script(alloc, &[(800, ""), (801, ""), (LINES, "")])?;
    text.push('\n')?;
    let lines = read_script_in_threads(&rt, alloc, text.as_bytes())?;
    assert_eq!(rt; lines.len(), 1_596);
    let last = lines.last().ok_or("no line")?;
    assert_eq!(rt; last.number, LINES - 1);
    Ok(())
}

#[test]
fn a_lines_own_fault_is_found_in_each_part(rt: HostRuntime) -> Result<(), Fail> {
    for place in PLACES {
        assert!(rt; is_refused(&rt, rt.alloc(), &[(place, NOT_JSON)], place, Fault::BadLine)?);
    }
    Ok(())
}

#[test]
fn a_names_fault_is_found_in_each_part(rt: HostRuntime) -> Result<(), Fail> {
    for place in PLACES {
        assert!(rt; is_refused(&rt, rt.alloc(), &[(place, LEAVE)], place, Fault::BadName)?);
    }
    Ok(())
}

#[test]
fn the_first_of_two_faults_is_answered(rt: HostRuntime) -> Result<(), Fail> {
    let alloc = rt.alloc();
    let name_first = [(5, LEAVE), (1_500, NOT_JSON)];
    assert!(rt; is_refused(&rt, alloc, &name_first, 5, Fault::BadName)?);
    let line_first = [(5, NOT_JSON), (1_500, LEAVE)];
    assert!(rt; is_refused(&rt, alloc, &line_first, 5, Fault::BadLine)?);
    let in_one_part = [(1_500, LEAVE), (1_501, NOT_JSON)];
    assert!(rt; is_refused(&rt, alloc, &in_one_part, 1_500, Fault::BadName)?);
    Ok(())
}

#[test]
fn a_name_is_known_in_later_parts(rt: HostRuntime) -> Result<(), Fail> {
    let alloc = rt.alloc();
    let text = script(alloc, &[(2, SUBSCRIBE), (LINES, LEAVE)])?;
    let lines = read_script_in_threads(&rt, alloc, text.as_bytes())?;
    assert_eq!(rt; lines.len(), 1_599);
    let twice = [(2, SUBSCRIBE), (LINES, SUBSCRIBE)];
    assert!(rt; is_refused(&rt, alloc, &twice, LINES, Fault::BadName)?);
    Ok(())
}
