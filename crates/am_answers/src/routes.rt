//! What the routes of the configuration are asked.

ghost use Rattle.std.specs.Prelude.{◌≡◌, IfOk, map};
ghost use Rattle.am_config.specs.RouteLists.{root_of};
ghost use Rattle.am_answers.specs.Asking.{AsksTree, ShowsTree};

use crate::answer::{Answer, one};
use crate::prepared_config::PreparedConfig;
use am_config::RouteTree;
use am_labels::LabelSet;
use am_routes::{ListedRoute, MatchedRoute, list_routes};
use am_script::Verb;
use std::alloc::{AllocError, Global};

/// The routes of a tree, in pre-order.
pub fn show_tree(alloc: Global, tree: &RouteTree) -> Result<Vec<Answer>, AllocError>
    ensures { IfOk result (λ answers. ShowsTree (root_of tree.now) answers.items) }
{
    match list_routes(alloc, tree) {
        Ok(routes) => listed_answers(alloc, routes),
        Err(_) => one(alloc, Answer::OutOfMemory(Verb::Routes)),
    }
}

fn listed_answers(alloc: Global, routes: Vec<ListedRoute>) -> Result<Vec<Answer>, AllocError>
    ensures { IfOk result (λ answers. answers.items ≡ map Answer.Route routes.items) }
{
    let mut answers = Vec::with_capacity(alloc, routes.len())?;
    for route in routes {
        answers.push(Answer::Route(route))?;
    }
    Ok(answers)
}

/// The routes that a label set matches, in pre-order.
pub fn ask_tree(
    alloc: Global,
    config: &mut PreparedConfig<'_>,
    labels: &LabelSet,
) -> Result<Vec<Answer>, AllocError>
    ensures asks { IfOk result (λ answers. AsksTree labels.now (root_of config.old.tree) answers.items) }
    ensures same { config.new ≡ config.old }
{
    match config.matched(alloc, labels) {
        Ok(routes) => matched_answers(alloc, routes),
        Err(_) => one(alloc, Answer::OutOfMemory(Verb::Route)),
    }
}

fn matched_answers(alloc: Global, routes: Vec<MatchedRoute>) -> Result<Vec<Answer>, AllocError>
    ensures { IfOk result (λ answers. answers.items ≡ map Answer.Matched routes.items) }
{
    let mut answers = Vec::with_capacity(alloc, routes.len())?;
    for route in routes {
        answers.push(Answer::Matched(route))?;
    }
    Ok(answers)
}
