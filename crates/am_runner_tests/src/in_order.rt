//! Scripts that are run one line after another, each of them in eight threads.

use crate::runs::{Run, Stopped, run_in_order};
use am_provider::Policy;
use am_threads::LogLimits;
use std::alloc::Global;
use std::sync::Wait;
use std::test::Fail;
use std::thread::Threads;

// Every command, in all threads: a report that is merged with an earlier one, a dispatcher and an
// inhibitor that took it, a collection, a trim and a close, with what it refuses.
const DAY: &str =
    r#"{"route":{"receiver":"ops","group_by":["alertname"],"routes":[{"receiver":"db","matchers":["team=db"],"group_by":["cluster"]}]},"inhibit_rules":[{"source_matchers":["alertname=Down"],"target_matchers":["severity=warning"],"equal":["instance"]}]}
{"do":"post","thread":0,"at":"2024-01-01T10:00:00Z","body":[{"labels":{"alertname":"Disk","team":"db","cluster":"a"},"startsAt":"2024-01-01T09:50:00Z","endsAt":"2024-01-01T10:10:00Z"},{"labels":{}}]}
{"do":"subscribe","thread":1,"sub":"d","kind":"dispatch"}
{"do":"subscribe","thread":2,"sub":"i","kind":"inhibit"}
{"do":"post","thread":3,"at":"2024-01-01T10:01:00Z","body":[{"labels":{"alertname":"Disk","team":"db","cluster":"a"},"startsAt":"2024-01-01T10:00:00Z","endsAt":"2024-01-01T10:20:00Z"},{"labels":{"alertname":"Down","instance":"x"}}]}
{"do":"read","thread":1,"sub":"d","max":2}
{"do":"groups","thread":1,"sub":"d"}
{"do":"read","thread":2,"sub":"i","max":9}
{"do":"mutes","thread":2,"sub":"i","at":"2024-01-01T10:05:00Z","labels":{"alertname":"Slow","instance":"x","severity":"warning"}}
{"do":"mutes","thread":2,"sub":"i","at":"2024-01-01T10:06:00Z","labels":{"alertname":"Slow","instance":"x","severity":"warning"}}
{"do":"collect","thread":4,"at":"2024-01-01T10:06:00Z"}
{"do":"subscribe","thread":5,"sub":"p"}
{"do":"read","thread":5,"sub":"p","max":5}
{"do":"trim","thread":6}
{"do":"sweep","thread":1,"sub":"d","at":"2024-01-01T10:20:00Z"}
{"do":"groups","thread":1,"sub":"d"}
{"do":"leave","thread":1,"sub":"d"}
{"do":"subscribe","thread":7,"sub":"q"}
{"do":"close","thread":6}
{"do":"post","thread":7,"at":"2024-01-01T10:07:00Z","body":[]}
{"do":"subscribe","thread":4,"sub":"r"}
{"do":"read","thread":4,"sub":"r"}
{"do":"read","thread":2,"sub":"i","max":3}
{"do":"leave","thread":2,"sub":"i"}
{"do":"collect","thread":0,"at":"2024-01-01T10:30:00Z"}
{"do":"close","thread":3}
"#;

// The trim dropped the first post. At the end thread 5 leaves before thread 7.
const DAY_ANSWERS: &str = r#"2 post valid 1 place 0
2 invalid 1 E10 NoLabels
3 subscribe lane 0 opening 1
4 subscribe lane 1 opening 1
5 post valid 2 place 1
6 item {alertname="Disk",cluster="a",team="db"} 2024-01-01T09:50:00Z 2024-01-01T10:10:00Z given {}
6 item {alertname="Disk",cluster="a",team="db"} 2024-01-01T09:50:00Z 2024-01-01T10:20:00Z given {}
7 group route 1 receiver "db" labels {cluster="a"} alerts 1
7 member {alertname="Disk",cluster="a",team="db"} 2024-01-01T09:50:00Z 2024-01-01T10:20:00Z given {}
8 item {alertname="Disk",cluster="a",team="db"} 2024-01-01T09:50:00Z 2024-01-01T10:10:00Z given {}
8 item {alertname="Disk",cluster="a",team="db"} 2024-01-01T09:50:00Z 2024-01-01T10:20:00Z given {}
8 item {alertname="Down",instance="x"} 2024-01-01T10:01:00Z 2024-01-01T10:06:00Z timeout {}
8 pending
9 muted rule 0 by {alertname="Down",instance="x"}
10 not muted
11 collect removed 1
12 subscribe lane 2 opening 1
13 item {alertname="Disk",cluster="a",team="db"} 2024-01-01T09:50:00Z 2024-01-01T10:20:00Z given {}
13 pending
14 trim dropped 1
15 sweep alerts 1 groups 1
17 leave taken 2
18 subscribe lane 0 opening 1
19 close
20 post refused E14 Closed
21 subscribe refused E14 Closed
22 read none
23 closed
24 leave taken 3 closed
25 collect removed 1
26 close refused E14 Closed
before 1
subscribed 0
subscribed 1
posted 2024-01-01T10:01:00Z 2
collected 2024-01-01T10:06:00Z
subscribed 2
left 0
subscribed 0
closed
left 1
collected 2024-01-01T10:30:00Z
left 2
left 0
ended at 1 taken 2
ended at 2 taken 3 closed
ended at 5 taken 1
ended at 7 taken 0
early 0 places 2 posts 2 stored 0 complete true
"#;

#[test]
fn day_of_eight_threads(rt: HostRuntime) -> Result<(), Fail> {
    let alloc = rt.alloc();
    let run = run_in_order(&rt, alloc, LogLimits::of(256, Policy::Refuse), DAY)?;
    assert_eq!(rt; run.printed(alloc)?.as_str(), DAY_ANSWERS);
    Ok(())
}

// A subscriber that reads nothing, and a log with one place.
const FULL: &str = r#"{"route":{"receiver":"ops"}}
{"do":"subscribe","thread":7,"sub":"a"}
{"do":"subscribe","thread":6,"sub":"b"}
{"do":"post","thread":5,"at":"2024-01-01T10:00:00Z","body":[{"labels":{"n":"1"}}]}
{"do":"read","thread":7,"sub":"a","max":2}
{"do":"post","thread":4,"at":"2024-01-01T10:01:00Z","body":[{"labels":{"n":"2"}}]}
{"do":"read","thread":6,"sub":"b","max":3}
{"do":"leave","thread":6,"sub":"b"}
{"do":"read","thread":7,"sub":"a","max":2}
{"do":"leave","thread":7,"sub":"a"}
"#;

const FULL_REFUSED: &str = r#"2 subscribe lane 0 opening 0
3 subscribe lane 1 opening 0
4 post valid 1 place 0
5 item {n="1"} 2024-01-01T10:00:00Z 2024-01-01T10:05:00Z timeout {}
5 pending
6 post refused E13 Full lane 1 passed 0
7 item {n="1"} 2024-01-01T10:00:00Z 2024-01-01T10:05:00Z timeout {}
7 pending
8 leave taken 1
9 pending
10 leave taken 1
before 0
subscribed 0
subscribed 1
posted 2024-01-01T10:00:00Z 1
left 1
left 0
ended at 1 taken 1
ended at 0 taken 1
early 0 places 1 posts 1 stored 1 complete true
"#;

const FULL_CUT: &str = r#"2 subscribe lane 0 opening 0
3 subscribe lane 1 opening 0
4 post valid 1 place 0
5 item {n="1"} 2024-01-01T10:00:00Z 2024-01-01T10:05:00Z timeout {}
5 pending
6 post valid 1 place 1
6 cut lane 1
7 cut
8 leave taken 0 cut
9 item {n="2"} 2024-01-01T10:01:00Z 2024-01-01T10:06:00Z timeout {}
9 pending
10 leave taken 2
before 0
subscribed 0
subscribed 1
posted 2024-01-01T10:00:00Z 1
posted 2024-01-01T10:01:00Z 1
left 1
left 0
ended at 1 taken 0 cut
ended at 0 taken 2
early 0 places 2 posts 2 stored 2 complete true
"#;

#[test]
fn full_log_refuses(rt: HostRuntime) -> Result<(), Fail> {
    let alloc = rt.alloc();
    let run = run_in_order(&rt, alloc, LogLimits::of(1, Policy::Refuse), FULL)?;
    assert_eq!(rt; run.printed(alloc)?.as_str(), FULL_REFUSED);
    Ok(())
}

#[test]
fn full_log_cuts(rt: HostRuntime) -> Result<(), Fail> {
    let alloc = rt.alloc();
    let run = run_in_order(&rt, alloc, LogLimits::of(1, Policy::Cut), FULL)?;
    assert_eq!(rt; run.printed(alloc)?.as_str(), FULL_CUT);
    Ok(())
}

// A compaction while a subscription is open, a collection that answers what it removed, and a page.
const COMPACTED: &str = r#"{"route":{"receiver":"ops"}}
{"do":"subscribe","thread":0,"sub":"a"}
{"do":"post","thread":1,"at":"2024-01-01T10:00:00Z","body":[{"labels":{"n":"1"}},{"labels":{"n":"2"},"startsAt":"2024-01-01T10:00:00Z","endsAt":"2024-01-01T11:00:00Z"}]}
{"do":"compact","thread":2}
{"do":"take","thread":3,"at":"2024-01-01T10:05:00Z"}
{"do":"stored","thread":4,"max":2}
{"do":"subscribe","thread":5,"sub":"b"}
{"do":"read","thread":0,"sub":"a","max":9}
"#;

// The first two calls aren't in memory any more, nor is the first subscription's ending.
const COMPACTED_ANSWERS: &str = r#"2 subscribe lane 0 opening 0
3 post valid 2 place 0
4 compact dropped 2
5 take removed 1
5 alert {n="1"} 2024-01-01T10:00:00Z 2024-01-01T10:05:00Z timeout {}
6 page 1 from 0 of 1 after 3
6 alert {n="2"} 2024-01-01T10:00:00Z 2024-01-01T11:00:00Z given {}
7 subscribe lane 1 opening 1
8 item {n="1"} 2024-01-01T10:00:00Z 2024-01-01T10:05:00Z timeout {}
8 item {n="2"} 2024-01-01T10:00:00Z 2024-01-01T11:00:00Z given {}
8 pending
before 2
collected 2024-01-01T10:05:00Z
subscribed 1
left 0
left 1
ended at 3 taken 0
early 1 places 1 posts 1 stored 1 complete true
"#;

#[test]
fn compacted_while_a_subscription_is_open(rt: HostRuntime) -> Result<(), Fail> {
    let alloc = rt.alloc();
    let run = run_in_order(&rt, alloc, LogLimits::of(256, Policy::Refuse), COMPACTED)?;
    assert_eq!(rt; run.printed(alloc)?.as_str(), COMPACTED_ANSWERS);
    Ok(())
}

// A line for each thread, of which the two reads hang on the order, and a merge.
const SHORT: &str = r#"{"route":{"receiver":"ops"}}
{"do":"subscribe","thread":0,"sub":"a"}
{"do":"post","thread":1,"at":"2024-01-01T10:00:00Z","body":[{"labels":{"n":"1"}}]}
{"do":"subscribe","thread":2,"sub":"b"}
{"do":"post","thread":3,"at":"2024-01-01T10:01:00Z","body":[{"labels":{"n":"1"}}]}
{"do":"read","thread":2,"sub":"b","max":9}
{"do":"subscribe","thread":4,"sub":"c"}
{"do":"collect","thread":5,"at":"2024-01-01T10:06:00Z"}
{"do":"post","thread":6,"at":"2024-01-01T10:07:00Z","body":[{"labels":{"n":"2"}}]}
{"do":"close","thread":7}
{"do":"read","thread":0,"sub":"a","max":9}
"#;

const SHORT_ANSWERS: &str = r#"2 subscribe lane 0 opening 0
3 post valid 1 place 0
4 subscribe lane 1 opening 1
5 post valid 1 place 1
6 item {n="1"} 2024-01-01T10:00:00Z 2024-01-01T10:05:00Z timeout {}
6 item {n="1"} 2024-01-01T10:00:00Z 2024-01-01T10:06:00Z timeout {}
6 pending
7 subscribe lane 2 opening 1
8 collect removed 1
9 post valid 1 place 2
10 close
11 item {n="1"} 2024-01-01T10:00:00Z 2024-01-01T10:05:00Z timeout {}
11 item {n="1"} 2024-01-01T10:00:00Z 2024-01-01T10:06:00Z timeout {}
11 item {n="2"} 2024-01-01T10:07:00Z 2024-01-01T10:12:00Z timeout {}
11 closed
before 0
subscribed 0
posted 2024-01-01T10:00:00Z 1
subscribed 1
posted 2024-01-01T10:01:00Z 1
subscribed 2
collected 2024-01-01T10:06:00Z
posted 2024-01-01T10:07:00Z 1
closed
left 0
left 1
left 2
ended at 0 taken 3 closed
ended at 2 taken 2
ended at 4 taken 0
early 0 places 3 posts 3 stored 1 complete true
"#;

const RUNS: u32 = 1_000;

// How many of the runs answer and end as they have to.
fn count_alike<R: Threads + Wait + Sync>(rt: &R, alloc: Global) -> Result<u32, Stopped> {
    let mut alike: u32 = 0;
    for _run in 0..RUNS {
        let run = run_in_order(rt, alloc, LogLimits::of(16, Policy::Refuse), SHORT)?;
        if run.printed(alloc)?.as_str() == SHORT_ANSWERS {
            alike = alike.wrapping_add(1);
        }
    }
    Ok(alike)
}

#[test]
fn thousand_runs_answer_the_same(rt: HostRuntime) -> Result<(), Fail> {
    assert_eq!(rt; count_alike(&rt, rt.alloc())?, RUNS);
    Ok(())
}
