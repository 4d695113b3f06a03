//! A law of the definitions: the function does nothing.
ghost use Rattle.std.specs.Prelude.{◌≡◌, ℕ, Bool, List};
ghost use Rattle.swift_auth.specs.Users.{UserView};
ghost use Rattle.call_words.specs.Streams.{CallsEnd, Taken, IsStreamFrom, AreLeft};

/// The bytes of a connection are one list of requests, whose bodies each have one fate, with one end, once the
/// users are known, and for which of the clients that wait no 100 is written.
pub fn a_connection_has_one_reading()
    ensures { (left : ℕ → Bool) (largest : ℕ) (users : List UserView) (k : ℕ) (bytes : List ℕ) (requests others : List Taken) (end other : CallsEnd)
        → IsStreamFrom largest users k bytes requests end → AreLeft left largest users k requests end
        → IsStreamFrom largest users k bytes others other → AreLeft left largest users k others other
        → (requests ≡ others) × (end ≡ other) }
{}
