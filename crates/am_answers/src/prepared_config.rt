//! A configuration whose routing tree is made ready for the first question about it, and kept so for the others.

ghost use Rattle.std.specs.Prelude.{◌≡◌, IfOk};

use am_config::Config;
use am_labels::LabelSet;
use am_routes::{MatchedRoute, PreparedTree};
use std::alloc::{AllocError, Global};
use std::marker::Model;

/// A configuration, with its routing tree made ready once it was asked of. Contracts see it as the configuration.
#[derive(Drop)]
pub struct PreparedConfig<'c> {
    config: &'c Config,
    tree: Option<PreparedTree<'c>>,
}

impl<'c> Model for PreparedConfig<'c> {
    ghost use Rattle.std.specs.Prelude.{◌≡◌, IfSome};
    ghost use Rattle.am_config.specs.RouteLists.{root_of};
    ghost use Rattle.am_config.specs.contracts.config.Config as configured;
    ghost use Rattle.am_config.specs.declared.config.Config.{Config};

    ghost Value = { Config };

    ghost coded = { configured.the_row.coded };

    ghost view = { λ p. p.config.now };

    ghost invariant = { λ p. IfSome p.tree (λ tree. tree ≡ root_of p.config.now.tree) };
}

impl<'c> PreparedConfig<'c> {
    ghost use Rattle.am_config.specs.RouteLists.{root_of};
    ghost use Rattle.am_routes.specs.Listings.{AreMatchedBy};

    /// Nothing is made ready yet, which takes no memory.
    pub fn new(config: &'c Config) -> PreparedConfig<'c>
        ensures { result ≡ config.now }
    {
        PreparedConfig { config, tree: None }
    }

    /// The configuration itself.
    pub fn config(&self) -> &'c Config
        ensures { result.now ≡ self.now }
    {
        self.config
    }

    /// The routes that a label set matches, in pre-order. The first question makes the tree ready.
    pub(crate) fn matched(
        &mut self,
        alloc: Global,
        labels: &LabelSet,
    ) -> Result<Vec<MatchedRoute>, AllocError>
        ensures matched { IfOk result (λ routes.
            AreMatchedBy labels.now (root_of self.old.tree) routes.items) }
        ensures same { self.new ≡ self.old }
    {
        match &mut self.tree {
            Some(tree) => tree.matched(labels),
            None => {
                let mut tree = PreparedTree::new(alloc, &self.config.tree)?;
                let routes = tree.matched(labels);
                self.tree = Some(tree);
                routes
            }
        }
    }
}
