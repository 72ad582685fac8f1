//! What lines stand on.

ghost use Rattle.std.specs.Prelude.{◌≡◌, ℕ};
ghost use Rattle.hint_log.specs.declared.origins.Origin.{Origin};

use hint_log::Origin;

/// The clauses that the lines of a certificate are derived from, by the origins of the log's given
/// clauses.
pub trait Ground {
    /// The id of the clause of an origin.
    ghost ids: { Self → Origin → ℕ };

    /// The origins that have an id.
    ghost Knows: { Self → Origin → Type 0 };

    /// The id of the clause of an origin.
    fn id(&self, origin: Origin) -> u64
        requires { Knows self.now origin }
        ensures { result ≡ ids self.now origin };
}
