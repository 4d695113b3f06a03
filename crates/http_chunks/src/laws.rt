// What the definitions promise by themselves. Each law is the contract of a function that does nothing.
ghost use Rattle.std.specs.Prelude.{◌≡◌, ◌++◌, ℕ, List, Bool};
ghost use Rattle.http_chunks.specs.declared.body.BodyEnd.{BodyEnd as EndOf};
ghost use Rattle.http_chunks.specs.declared.body.BodyEnd.TheVariants as End;
ghost use Rattle.http_chunks.specs.Chunks.{AreChunks};

/// Bytes are one body in chunks: they have one list of chunks, one end, and one rest.
pub fn a_body_has_one_reading()
    ensures { (behind : Bool) (room : ℕ) (bytes : List ℕ) (contents others : List (List ℕ)) (end other : EndOf) (rest left : List ℕ)
        → AreChunks behind room bytes contents end rest → AreChunks behind room bytes others other left
        → (contents ≡ others) × (end ≡ other) × (rest ≡ left) }
{}

/// A body that was read whole stays as it is, whatever bytes follow.
pub fn a_later_byte_changes_no_body()
    ensures { (behind : Bool) (room : ℕ) (bytes more : List ℕ) (contents : List (List ℕ)) (rest : List ℕ)
        → AreChunks behind room bytes contents End.Whole rest
        → AreChunks behind room (bytes ++ more) contents End.Whole (rest ++ more) }
{}
