//! A routing tree as the list of its routes.

ghost use Rattle.std.specs.Prelude.{◌≡◌, ◌≤◌, ◌++◌, IfOk, OnOk, Some, length};
ghost use Rattle.std.specs.Fmt.{DisplaysOnOk};
ghost use Rattle.am_labels.specs.Printing.{name_text};
ghost use Rattle.am_config.specs.RouteLists.{forest_of, root_of, route_view};
ghost use Rattle.am_routes.specs.Listings.{listed, listed_from, listing};
ghost use Rattle.am_routes.specs.Printing.{continue_text, grouping_text, heading_text, indent};
ghost use Rattle.am_routes.specs.Printing.{listed_text, names_text};

use crate::matcher_texts::MatcherTexts;
use crate::route_id::RouteId;
use am_config::{GroupBy, Route, RouteTree};
use am_labels::{LabelName, Quoted, Text};
use std::alloc::{AllocError, Global};
use std::{fmt, slice};

/// What is listed of a route. It borrows nothing of its tree.
#[derive(Debug, Drop)]
pub struct ListedRoute {
    pub id: RouteId,
    /// How many routes are above it.
    pub depth: u64,
    pub receiver: Text,
    /// The route's own matchers alone.
    pub matchers: MatcherTexts,
    pub group_by: GroupBy,
    /// Whether the routes after it are asked too if it matches.
    pub continues: bool,
}

/// The routes of a tree in pre-order: each before those below it.
pub fn list_routes(alloc: Global, tree: &RouteTree) -> Result<Vec<ListedRoute>, AllocError>
    ensures { IfOk result (λ routes. routes.items ≡ listing (root_of tree.now)) }
{
    let mut listed = Vec::new(alloc);
    list_each(alloc, slice::from_ref(&tree.root), 0, &mut listed)?;
    Ok(listed)
}

// Adds routes with `depth` routes above each, each before those below it.
fn list_each(
    alloc: Global,
    routes: &[Route],
    depth: u64,
    listed: &mut Vec<ListedRoute>,
) -> Result<(), AllocError>
    requires { depth ≤ length listed.old.items }
    ensures { OnOk result (listed.new.items ≡ listed.old.items
        ++ listed_from depth (length listed.old.items) (forest_of routes.now)) }
{
    for route in routes {
        let id = RouteId(listed.len() as u64);
        listed.push(list_one(alloc, id, depth, route)?)?;
        list_each(alloc, route.children.as_slice(), depth + 1, listed)?;
    }
    Ok(())
}

fn list_one(
    alloc: Global,
    id: RouteId,
    depth: u64,
    route: &Route,
) -> Result<ListedRoute, AllocError>
    ensures { IfOk result (λ one.
        one ≡ listed depth (record { number = id.0; route = route_view route.now })) }
{
    Ok(ListedRoute {
        id,
        depth,
        receiver: route.receiver.copy()?,
        matchers: MatcherTexts::of(alloc, &route.matchers)?,
        group_by: route.group_by.copy()?,
        continues: route.continues,
    })
}

// Printed as `1 receiver "NAME" matchers {..} group_by [..] continue`, after two spaces for each route
// above it.
impl fmt::Display for ListedRoute {
    ghost output = { λ route. Some (listed_text route) };

    fn fmt<W: fmt::Write>(&self, f: &mut fmt::Formatter<W>) -> fmt::Result {
        write_indent(self.depth, f)?;
        write_heading(self, f)?;
        write_grouping(&self.group_by, f)?;
        write_continue(self.continues, f)
    }
}

fn write_heading<W: fmt::Write>(route: &ListedRoute, f: &mut fmt::Formatter<W>) -> fmt::Result
    ensures { DisplaysOnOk W.write_str_gives f.old result (Some (heading_text route.now)) f.new }
{
    let number = route.id.0;
    let receiver = Quoted(route.receiver.as_str());
    let matchers = &route.matchers;
    write!(
        f,
        "{number} receiver {receiver} matchers {matchers} group_by "
    )
}

fn write_indent<W: fmt::Write>(depth: u64, f: &mut fmt::Formatter<W>) -> fmt::Result
    ensures { DisplaysOnOk W.write_str_gives f.old result (Some (indent depth)) f.new }
{
    for _level in 0..depth {
        f.write_str("  ")?;
    }
    Ok(())
}

fn write_grouping<W: fmt::Write>(group_by: &GroupBy, f: &mut fmt::Formatter<W>) -> fmt::Result
    ensures { DisplaysOnOk W.write_str_gives f.old result (Some (grouping_text group_by.now)) f.new }
{
    match group_by {
        GroupBy::All => f.write_str("[...]"),
        GroupBy::Names(names) => {
            f.write_str("[")?;
            write_names(names.as_slice(), f)?;
            f.write_str("]")
        }
    }
}

fn write_continue<W: fmt::Write>(continues: bool, f: &mut fmt::Formatter<W>) -> fmt::Result
    ensures { DisplaysOnOk W.write_str_gives f.old result (Some (continue_text continues)) f.new }
{
    if continues {
        f.write_str(" continue")?;
    }
    Ok(())
}

// The names with commas between.
fn write_names<W: fmt::Write>(names: &[Text], f: &mut fmt::Formatter<W>) -> fmt::Result
    ensures { DisplaysOnOk W.write_str_gives f.old result (Some (names_text names.now)) f.new }
{
    let Some((first, others)) = names.split_first() else {
        return Ok(());
    };
    write_name(first, f)?;
    for name in others {
        f.write_str(",")?;
        write_name(name, f)?;
    }
    Ok(())
}

fn write_name<W: fmt::Write>(name: &Text, f: &mut fmt::Formatter<W>) -> fmt::Result
    ensures { DisplaysOnOk W.write_str_gives f.old result (Some (name_text name.now)) f.new }
{
    write!(f, "{}", LabelName(name.as_str()))
}
