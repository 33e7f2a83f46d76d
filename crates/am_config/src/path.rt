//! The path of a value in a configuration.

ghost use Rattle.std.specs.Prelude.{◌≡◌, [], IfOk, Some};
ghost use Rattle.am_config.specs.Paths.{item_path, member_path, path_text};

use std::alloc::{AllocError, Global};
use std::fmt;
use std::marker::Model;

/// Names of members joined by points, with `[i]` for an element, as `route.routes[0].matchers[1]`.
/// The whole has the empty path, which is printed `config`.
#[derive(Debug, Drop)]
pub struct Path {
    pub(crate) path: String,
}

impl Model for Path {
    ghost use Rattle.std.specs.Prelude.{List, ℕ, string_bytes};

    ghost Value = { List ℕ };

    ghost view = { λ a. string_bytes a.path };
}

impl Path {
    /// The path of the whole. It takes no memory.
    pub(crate) fn whole(alloc: Global) -> Path
        ensures { result ≡ [] }
    {
        Path {
            path: String::new(alloc),
        }
    }

    pub fn as_str(&self) -> &str
        ensures { result.now ≡ self.now }
    {
        self.path.as_str()
    }

    pub(crate) fn copy(&self) -> Result<Path, AllocError>
        ensures { IfOk result (λ copy. copy ≡ self.now) }
    {
        Ok(Path {
            path: self.path.clone()?,
        })
    }

    /// The path of a member of the value at this path.
    pub(crate) fn member(&self, alloc: Global, name: &str) -> Result<Path, AllocError>
        ensures { IfOk result (λ member. member ≡ member_path self.now name.now) }
    {
        let path = self.as_str();
        Ok(Path {
            path: if path.is_empty() {
                String::from_str(alloc, name)?
            } else {
                format!(in alloc; "{path}.{name}")?
            },
        })
    }

    /// The path of an element of the value at this path.
    pub(crate) fn item(&self, alloc: Global, index: usize) -> Result<Path, AllocError>
        ensures { IfOk result (λ item. item ≡ item_path self.now index) }
    {
        let path = self.as_str();
        Ok(Path {
            path: format!(in alloc; "{path}[{index}]")?,
        })
    }
}

impl fmt::Display for Path {
    ghost output = { λ path. Some (path_text path) };

    fn fmt<W: fmt::Write>(&self, f: &mut fmt::Formatter<W>) -> fmt::Result {
        let path = self.as_str();
        f.write_str(if path.is_empty() { "config" } else { path })
    }
}
