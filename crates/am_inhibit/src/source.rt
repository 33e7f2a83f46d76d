//! The sources of a rule that have the same values.

ghost use Rattle.std.specs.Prelude.{◌≡◌, [], ◌∷◌, ◌++◌, ◌-◌, ◌≤◌, IfOk, OnOk, OnErr, length, take};
ghost use Rattle.am_inhibit.specs.inside.Places.{moved, moved_sources};
ghost use Rattle.am_inhibit.specs.inside.LeadingTargets.{leading_targets};

use std::alloc::{AllocError, Global};
use std::marker::Model;

/// A label set that matches a rule's source side.
#[derive(Clone, Copy, Debug)]
pub(crate) struct Source {
    /// The index of its alert among the last alerts.
    pub(crate) at: usize,
    /// Whether it matches the rule's target side too.
    pub(crate) is_target: bool,
}

/// Sources in the order in which their label sets were first taken, seen by contracts as their list.
#[derive(Debug, Drop)]
pub(crate) struct Sources {
    sources: Vec<Source>,
    // How many there are before the first one that doesn't match the target side.
    leading: usize,
}

impl Model for Sources {
    ghost use Rattle.std.specs.Prelude.{List};
    ghost use Rattle.am_inhibit.specs.declared.source.Source.{Source};

    ghost Value = { List Source };

    ghost use Rattle.std.specs.Prelude.{◌≡◌};
    ghost use Rattle.am_inhibit.specs.inside.LeadingTargets.{leading_targets};

    ghost view = { λ a. a.sources.items };

    ghost invariant = { λ a. a.leading ≡ leading_targets a.sources.items };
}

impl Sources {
    /// One source.
    pub(crate) fn of(alloc: Global, source: Source) -> Result<Sources, AllocError>
        ensures { IfOk result (λ sources. sources ≡ source ∷ []) }
    {
        let mut sources = Vec::with_capacity(alloc, 1)?;
        sources.push(source)?;
        Ok(Sources {
            sources,
            leading: usize::from(source.is_target),
        })
    }

    pub(crate) fn as_slice(&self) -> &[Source]
        ensures { result.now ≡ self.now }
    {
        &self.sources
    }

    /// How many there are before the first one that doesn't match the target side.
    pub(crate) fn leading(&self) -> usize
        ensures leading { result ≡ leading_targets self.now }
        ensures within { result ≤ length self.now }
    {
        self.leading
    }

    pub(crate) fn push(&mut self, source: Source) -> Result<(), AllocError>
        ensures pushed { OnOk result (self.new ≡ self.old ++ source ∷ []) }
        ensures err { OnErr result (self.new ≡ self.old) }
    {
        let all_lead = self.leading == self.sources.len();
        self.sources.push(source)?;
        if all_lead && source.is_target {
            self.leading += 1;
        }
        Ok(())
    }

    /// Drops the last one.
    pub(crate) fn pop(&mut self)
        ensures { self.new ≡ take (length self.old - 1) self.old }
    {
        let _last = self.sources.pop();
        self.leading = self.leading.min(self.sources.len());
    }

    /// Moves each source to the new index of its alert, and drops those whose alert is dropped.
    pub(crate) fn sweep(&mut self, places: &[Option<usize>])
        ensures { self.new ≡ moved_sources places.now self.old }
    {
        self.sources.retain_mut(|source: &mut Source| match moved(*source, places) {
            Some(at_place) => {
                *source = at_place;
                true
            }
            None => false,
        });
        self.leading = count_leading(&self.sources);
    }
}

// How many sources there are before the first one that doesn't match the target side.
fn count_leading(sources: &[Source]) -> usize
    ensures { result ≡ leading_targets sources.now }
{
    sources.iter().take_while(|source| source.is_target).count()
}

// A source at the new index of its alert, unless that is dropped.
fn moved(source: Source, places: &[Option<usize>]) -> Option<Source>
    ensures { result ≡ moved places.now source }
{
    let place = places.get(source.at).copied().unwrap_or(None)?;
    Some(Source {
        at: place,
        is_target: source.is_target,
    })
}
