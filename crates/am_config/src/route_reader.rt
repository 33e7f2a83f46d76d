//! Reading the routes of a configuration, each before those below it.

ghost use Rattle.std.specs.Prelude.{◌≡◌, option_copied};
ghost use Rattle.serde_json.specs.View.{view, items_view};
ghost use Rattle.am_config.specs.Readings.{AllowsResult};
ghost use Rattle.am_config.specs.RouteReadings.{root_reading, route_of, routes_of};

use crate::fault::ConfigFault;
use crate::matcher_reader::read_matchers;
use crate::members::given;
use crate::path::Path;
use crate::route::{Route, Routes};
use crate::route_head::{RouteHead, read_head, read_tail};
use serde_json::Value;
use std::alloc::Global;

/// How deep routes may be, the root's depth being 1.
pub const MAX_DEPTH: u32 = 32;

/// The root of the whole.
pub(crate) fn read_root(alloc: Global, whole: &Value) -> Result<Route, ConfigFault>
    ensures { AllowsResult (root_reading (view whole.now)) result }
{
    let at = Path::whole(alloc).member(alloc, "route")?;
    match given(whole, "route") {
        Some(value) => read_route(alloc, MAX_DEPTH, None, &at, value),
        None => Err(ConfigFault::Missing(at)),
    }
}

// The route at a path, with a number of levels left, its own included. The root has none above it.
#[cycle(routes)]
fn read_route(
    alloc: Global,
    levels: u32,
    above: Option<&RouteHead>,
    at: &Path,
    value: &Value,
) -> Result<Route, ConfigFault>
    ensures { AllowsResult
        (route_of levels (option_copied above.entry) at.now (view value.now)) result }
{
    if levels == 0 {
        return Err(ConfigFault::TooDeep);
    }
    let head = read_head(alloc, above, at, value)?;
    let matchers = read_matchers(alloc, &at.member(alloc, "matchers")?, &head.matcher_texts)?;
    let (continues, below) = read_tail(alloc, at, value)?;
    let children = read_routes(
        alloc,
        levels - 1,
        &head,
        &at.member(alloc, "routes")?,
        below,
    )?;
    Ok(Route {
        receiver: head.receiver,
        group_by: head.group_by,
        matchers,
        continues,
        children,
    })
}

// The routes of the array at a path, with a number of levels left.
#[cycle(routes)]
fn read_routes(
    alloc: Global,
    levels: u32,
    above: &RouteHead,
    path: &Path,
    items: &[Value],
) -> Result<Routes, ConfigFault>
    ensures { AllowsResult
        (routes_of (route_of levels (Some above.now)) path.now (items_view items.now)) result }
{
    let mut routes = Vec::with_capacity(alloc, items.len())?;
    for (i, item) in items.iter().enumerate() {
        let at = path.item(alloc, i)?;
        routes.push(read_route(alloc, levels, Some(above), &at, item)?)?;
    }
    Ok(Routes { routes })
}
