ghost use Rattle.std.specs.Prelude.{◌≡◌, false};

/// One request or one background job: who makes events. It is known by the number of the pass through
/// which it acts, and by its number among the actors of that pass.
#[derive(Clone, Copy, Debug, PartialEq, Eq)]
pub struct Actor {
    pub pass: u64,
    pub count: u64,
    /// Whether it made an event.
    pub used: bool,
}

impl Actor {
    /// The first actor of a pass.
    pub fn new(pass: u64) -> Actor
        ensures { result ≡ record { pass = pass; count = 0; used = false } }
    {
        Actor {
            pass,
            count: 0,
            used: false,
        }
    }
}
