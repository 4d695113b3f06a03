// What the definitions promise by themselves. Each law is the contract of a function that does nothing.
ghost use Rattle.std.specs.Prelude.{◌≡◌, ◌↔◌, ◌++◌, ℕ, List, Option};
ghost use Rattle.http_chunks.specs.declared.body.BodyEnd.{BodyEnd as EndOf};
ghost use Rattle.http_model.specs.declared.head.Framing.{Framing as FramingOf};
ghost use Rattle.http_model.specs.declared.head.Head.{Head as HeadOf};
ghost use Rattle.http_model.specs.declared.head.Request.{Request as RequestOf};
ghost use Rattle.http_intake.specs.declared.fault.IntakeFault.{IntakeFault as Fault};
ghost use Rattle.http_intake.specs.Intake.{IntakeState, GivesHead};
ghost use Rattle.http_intake.specs.Grammar.{AreRequests, HasWrongBody, GoesWrong};

/// The bytes of a connection are one list of requests, whatever the framings of their bodies, and
/// there is one cause why no further one follows.
pub fn requests_have_one_reading()
    ensures { (largest : ℕ) (bytes : List ℕ) (requests others : List RequestOf) (why other : Option Fault)
        → AreRequests largest bytes requests why → AreRequests largest bytes others other → (requests ≡ others) × (why ≡ other) }
{}

/// A request that was read whole stays as it is, whatever bytes follow: the requests that the first
/// bytes of a connection are, are the first of its requests.
pub fn a_later_byte_changes_no_whole_request()
    ensures { (largest : ℕ) (bytes more : List ℕ) (requests others : List RequestOf) (why other : Option Fault)
        → AreRequests largest bytes requests why → AreRequests largest (bytes ++ more) others other
        → (later : List RequestOf) × (others ≡ requests ++ later) }
{}

/// A body in chunks that goes wrong does so in one way: for one cause, behind the same bytes of it.
pub fn a_wrong_body_has_one_reading()
    ensures { (largest : ℕ) (framing : FramingOf) (after came others : List ℕ) (why other : EndOf)
        → HasWrongBody largest framing after why came → HasWrongBody largest framing after other others → (why ≡ other) × (came ≡ others) }
{}

/// Behind a head, what an intake has left of the body goes wrong just as the bytes do: for the same
/// cause, behind the same bytes of the body.
pub fn a_body_goes_wrong_where_its_bytes_do()
    ensures { (all bytes came : List ℕ) (before intake : IntakeState) (head : HeadOf) (why : EndOf)
        → GivesHead all before intake head → GoesWrong intake bytes why came ↔ HasWrongBody before.largest head.framing bytes why came }
{}
