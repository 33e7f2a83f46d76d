//! A configuration is asked who is notified of an alert, and by what it is muted.

ghost use Rattle.std.specs.Prelude.{◌≡◌, IfOk};
ghost use Rattle.std.specs.Option.{option_map};
ghost use Rattle.am_config.specs.RouteLists.{root_of};
ghost use Rattle.am_routes.specs.Listings.{AreMatchedBy};
ghost use Rattle.am_inhibit.specs.Muting.{muted};

use am_alert::Moment;
use am_config::Config;
use am_inhibit::Inhibitor;
use am_labels::LabelSet;
use am_posts::read_post;
use am_routes::{MatchedRoute, matched_routes};
use anyhow::Result;
use std::alloc::{AllocError, Global};

const CONFIG: &[u8] = b"{\"route\":{\"receiver\":\"ops\",\"group_by\":[\"cluster\"],\"routes\":[\
{\"receiver\":\"db\",\"matchers\":[\"team=\\\"db\\\"\"]}]},\"inhibit_rules\":[{\"source_matchers\":\
[\"severity=\\\"page\\\"\"],\"target_matchers\":[\"severity=\\\"warn\\\"\"],\"equal\":[\"cluster\"]}]}";

const BODY: &[u8] =
    b"[{\"labels\":{\"alertname\":\"Down\",\"cluster\":\"a\",\"severity\":\"page\"}},\
{\"labels\":{\"alertname\":\"Slow\",\"cluster\":\"a\",\"severity\":\"warn\",\"team\":\"db\"}}]";

const NEW_YEAR: &str = "2024-01-01T00:00:00Z";

// The rule that mutes a label set, and the label set of the alert that fires.
#[derive(Drop)]
struct Mute {
    rule: u64,
    source: LabelSet,
}

// What a configuration says of a label set.
#[derive(Drop)]
struct Verdict {
    routes: Vec<MatchedRoute>,
    muted_by: Option<Mute>,
}

// What a configuration says of a label set while the inhibitor's alerts fire.
fn judge(
    alloc: Global,
    config: &Config,
    inhibitor: &mut Inhibitor<'_>,
    labels: &LabelSet,
    now: Moment,
) -> Result<Verdict, AllocError>
    ensures routes { IfOk result (λ verdict.
        AreMatchedBy labels.now (root_of config.now.tree) verdict.routes.items) }
    ensures muted { IfOk result (λ verdict. option_map (λ by. (by.rule, by.source)) verdict.muted_by
        ≡ muted inhibitor.old.alerts inhibitor.old.rules labels.now now) }
{
    let routes = matched_routes(alloc, &config.tree, labels)?;
    let muted_by = match inhibitor.mutes(labels, now)? {
        Some((rule, source)) => Some(Mute {
            rule,
            source: source.clone()?,
        }),
        None => None,
    };
    Ok(Verdict { routes, muted_by })
}

fn print_verdict<R: Print>(rt: &R, labels: &LabelSet, verdict: &Verdict) -> Result<()> {
    println!(rt; "{labels}")?;
    for route in &verdict.routes {
        println!(rt; "  {} {}", route.receiver.as_str(), route.labels)?;
    }
    if let Some(by) = &verdict.muted_by {
        println!(rt; "  muted by rule {}, {}", by.rule, by.source)?;
    }
    Ok(())
}

pub fn start<R: Print>(rt: &R, alloc: Global) -> Result<()> {
    let config = Config::read(alloc, CONFIG)?;
    let now: Moment = NEW_YEAR.parse()?;
    let post = read_post(alloc, BODY, now, config.resolve_timeout)?;
    let mut inhibitor = Inhibitor::new(alloc, &config.rules)?;
    for alert in &post.valid {
        inhibitor.take(alert)?;
    }
    for alert in &post.valid {
        let verdict = judge(alloc, &config, &mut inhibitor, &alert.labels, now)?;
        print_verdict(rt, &alert.labels, &verdict)?;
    }
    Ok(())
}
