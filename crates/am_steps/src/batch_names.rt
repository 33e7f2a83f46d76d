//! Lists of batches: those that a cursor has got, by name, and a poster's own with their places.
use std::marker::Model;

/// The names of batches, in order.
#[derive(Debug, Drop)]
pub struct BatchNames<N> {
    pub names: Vec<N>,
}

impl<N> Model for BatchNames<N> {
    ghost use Rattle.std.specs.Prelude.{List};
    ghost use Rattle.std.specs.Coded.{coded_list};

    ghost Value = { List N };

    ghost coded = { coded_list N.code };

    ghost view = { λ n. n.names.items };
}

/// A poster's own posts in order: each one's place and its batch's name.
#[derive(Debug, Drop)]
pub struct OwnPosts<N> {
    pub posts: Vec<(u64, N)>,
}

impl<N> Model for OwnPosts<N> {
    ghost use Rattle.std.specs.Prelude.{ℕ, List};
    ghost use Rattle.std.specs.Coded.{coded_list, coded×, coded_ℕ};

    ghost Value = { List (ℕ × N) };

    ghost coded = { coded_list (coded× coded_ℕ N.code) };

    ghost view = { λ p. p.posts.items };
}
