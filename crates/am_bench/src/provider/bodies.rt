//! The bodies that are posted.

use crate::provider::load::{Kind, Load};
use std::alloc::{AllocError, Global};

// The body of one post, with label sets from a first one on.
fn body_of(alloc: Global, first: u64, load: Load) -> Result<String, AllocError> {
    let mut body = String::new(alloc);
    for at in 0..load.alerts {
        let begin = if at == 0 { '[' } else { ',' };
        let host = first.wrapping_add(at) % load.labels;
        match load.kind {
            Kind::Full => write_full(&mut body, begin, host)?,
            Kind::Ready | Kind::Bytes => write_four(&mut body, begin, host)?,
        }
    }
    body.push(']')?;
    Ok(body)
}

/// Writes an alert of four labels, after a character.
pub(crate) fn write_four(body: &mut String, begin: char, host: u64) -> Result<(), AllocError> {
    write!(
        body,
        "{begin}{{\"labels\":{{\"alertname\":\"DiskFull\",\"instance\":\"host-{host}\",\"job\":\"node\",\"severity\":\"page\"}}}}"
    )
}

// An alert as Prometheus posts it, after a character.
fn write_full(body: &mut String, begin: char, host: u64) -> Result<(), AllocError> {
    write!(
        body,
        "{begin}{{\"labels\":{{\"alertname\":\"DiskFull\",\"cluster\":\"eu-1\",\"container\":\"node-exporter\",\"endpoint\":\"metrics\",\"instance\":\"host-{host}\","
    )?;
    write!(
        body,
        "\"job\":\"node\",\"namespace\":\"monitoring\",\"pod\":\"node-exporter-{host}\",\"service\":\"node-exporter\",\"severity\":\"page\"}},"
    )?;
    write!(
        body,
        "\"annotations\":{{\"summary\":\"the disk of host-{host} is full\"}},\"startsAt\":\"2024-01-01T00:00:00Z\",\"generatorURL\":\"http://prometheus.example.org:9090/graph\"}}"
    )
}

// As many bodies as there are label sets. Each continues with the label set after the last one of
// the body before it.
pub(crate) fn bodies_of(alloc: Global, load: Load) -> Result<Vec<String>, AllocError> {
    let mut bodies = Vec::new(alloc);
    for number in 0..load.labels {
        bodies.push(body_of(alloc, number.wrapping_mul(load.alerts), load)?)?;
    }
    Ok(bodies)
}
