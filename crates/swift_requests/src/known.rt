//! What fields and heads are read as, by the examples of the standard and by hand: each function here does
//! nothing and is such answers.
ghost use Rattle.std.specs.Prelude.{◌≡◌, ◌∷◌, ◌^◌, ◌-◌, [], Some, None, codes, replicate, true, false};
ghost use Rattle.object_words.specs.declared.head.EtagRule.TheVariants.{Any, OneOf};
ghost use Rattle.task_words.specs.declared.span.Span.TheVariants.{Between, From, Last};
ghost use Rattle.swift_reply.specs.declared.reply.SwiftRefusal.TheVariants.{NotBuilt, Unauthorized, Invalid, NoPath, NoMethod, NoLength, TooLarge};
ghost use Rattle.swift_reply.specs.declared.reply.TargetKind.TheVariants.{Object};
ghost use Rattle.swift_reply.specs.declared.reply.Invalid.TheVariants.{Target, Escape, Utf8, Name, Limit, Format, Value, Meta};
ghost use Rattle.http_model.specs.declared.head.Framing.TheVariants.{Empty, Length, Chunked};
ghost use Rattle.swift_requests.specs.declared.asked.Asked.TheVariants.{BadHost, Refused, Put, Unfed};
ghost use Rattle.swift_requests.specs.declared.asked.UnfedCommand.TheVariants.{Get, Listing};
ghost use Rattle.swift_reply.specs.declared.reply.ListingForm.TheVariants.{Plain, Json};
ghost use Rattle.swift_requests.specs.declared.body.BodyUse.TheVariants.{Fed, Awaited, Dropped, Unread};
ghost use Rattle.swift_requests.specs.Etags.{rule_in, sent_etag};
ghost use Rattle.swift_requests.specs.Ranges.{span_in};
ghost use Rattle.swift_requests.specs.Commands.{second_of};
ghost use Rattle.swift_requests.specs.Bodies.{body_use, closes};
ghost use Rattle.swift_requests.specs.KnownHeads as known;
ghost use Rattle.swift_requests.specs.KnownUsers.{largest, asks, by_ann, by_bob, by_nobody};

/// Conditions on ETags: the examples of RFC 9110, sections 13.1.1 and 13.1.2, and the edges.
pub fn etags_are_read_so()
    ensures one { rule_in (codes "\"xyzzy\"") ≡ OneOf (codes "xyzzy" ∷ []) }
    ensures three { rule_in (codes "\"xyzzy\", \"r2d2xxxx\", \"c3piozzzz\"")
        ≡ OneOf (codes "xyzzy" ∷ codes "r2d2xxxx" ∷ codes "c3piozzzz" ∷ []) }
    ensures star { rule_in (codes "*") ≡ Any }
    ensures weak { rule_in (codes "W/\"xyzzy\", W/\"r2d2xxxx\"") ≡ OneOf (codes "W/\"xyzzy\"" ∷ codes "W/\"r2d2xxxx\"" ∷ []) }
    ensures quoted_star { rule_in (codes "\"*\"") ≡ OneOf (codes "*" ∷ []) }
    ensures listed_star { rule_in (codes "*, a") ≡ OneOf (codes "*" ∷ codes "a" ∷ []) }
    ensures empty { rule_in [] ≡ OneOf ([] ∷ []) }
    ensures no_text { rule_in (codes "\"\",") ≡ OneOf ([] ∷ [] ∷ []) }
    ensures blanks { rule_in (codes "a ,\t\" b \"  , c d") ≡ OneOf (codes "a" ∷ codes " b " ∷ codes "c d" ∷ []) }
    ensures one_pair { rule_in (codes "\"\"a\"\", \", \"b, c\"") ≡ OneOf (codes "\"a\"" ∷ codes "\"" ∷ codes "\"b" ∷ codes "c\"" ∷ []) }
    ensures upper { rule_in (codes "5D41") ≡ OneOf (codes "5D41" ∷ []) }
{}

/// Ranges: the examples of RFC 9110, section 14.1.2, and the edges.
pub fn ranges_are_read_so()
    ensures first_500 { span_in (codes "bytes=0-499") ≡ Some (Between 0 499) }
    ensures second_500 { span_in (codes "bytes=500-999") ≡ Some (Between 500 999) }
    ensures last_500 { span_in (codes "bytes=-500") ≡ Some (Last 500) }
    ensures from_9500 { span_in (codes "bytes=9500-") ≡ Some (From 9500) }
    ensures two { span_in (codes "bytes=0-0,-1") ≡ None }
    ensures two_more { span_in (codes "bytes=500-600,601-999") ≡ None }
    ensures blanks { span_in (codes "bytes= 0-999") ≡ None }
    ensures crossed { span_in (codes "bytes=3-2") ≡ Some (Between 3 2) }
    ensures zeros { span_in (codes "bytes=007-010") ≡ Some (Between 7 10) }
    ensures greatest { span_in (codes "bytes=0-18446744073709551615") ≡ Some (Between 0 (2 ^ 64 - 1)) }
    ensures above { span_in (codes "bytes=18446744073709551616-99999999999999999999999") ≡ Some (Between (2 ^ 64 - 1) (2 ^ 64 - 1)) }
    ensures many_last { span_in (codes "bytes=-99999999999999999999") ≡ Some (Last (2 ^ 64 - 1)) }
    ensures none_last { span_in (codes "bytes=-0") ≡ Some (Last 0) }
    ensures dash { span_in (codes "bytes=-") ≡ None }
    ensures nothing { span_in (codes "bytes=") ≡ None }
    ensures no_dash { span_in (codes "bytes=5") ≡ None }
    ensures two_dashes { span_in (codes "bytes=1-2-3") ≡ None }
    ensures sign { span_in (codes "bytes=+1-") ≡ None }
    ensures letter { span_in (codes "bytes=0-4x") ≡ None }
    ensures upper { span_in (codes "Bytes=0-1") ≡ None }
    ensures other_unit { span_in (codes "lines=0-1") ≡ None }
    ensures short { span_in (codes "byte") ≡ None }
{}

/// Dates: the examples of RFC 9110, section 5.6.7, each in one of its three forms.
pub fn dates_are_read_so()
    ensures fixed { second_of (codes "if-modified-since") (known.get_with
        (record { name = codes "If-Modified-Since"; value = codes "Sun, 06 Nov 1994 08:49:37 GMT" } ∷ [])) ≡ Some 784111777 }
    ensures rfc_850 { second_of (codes "if-modified-since") (known.get_with
        (record { name = codes "IF-MODIFIED-SINCE"; value = codes "Sunday, 06-Nov-94 08:49:37 GMT" } ∷ [])) ≡ Some 784111777 }
    ensures asctime { second_of (codes "if-unmodified-since") (known.get_with
        (record { name = codes "if-unmodified-since"; value = codes "Sun Nov  6 08:49:37 1994" } ∷ [])) ≡ Some 784111777 }
    ensures other_day { second_of (codes "if-modified-since") (known.get_with
        (record { name = codes "If-Modified-Since"; value = codes "Mon, 06 Nov 1994 08:49:37 GMT" } ∷ [])) ≡ None }
    ensures no_date { second_of (codes "if-modified-since") (known.get_with
        (record { name = codes "If-Modified-Since"; value = codes "yesterday" } ∷ [])) ≡ None }
    ensures last { second_of (codes "if-modified-since") (known.get_with
        (record { name = codes "If-Modified-Since"; value = codes "Sun, 06 Nov 1994 08:49:37 GMT" }
        ∷ record { name = codes "If-Modified-Since"; value = codes "yesterday" } ∷ [])) ≡ None }
{}

/// What PUTs ask.
pub fn puts_ask_so()
    ensures plain { asks (known.put_of 5 []) ≡ Put by_ann known.plain_put }
    ensures waiting { asks (known.put_of 5 (record { name = codes "Expect"; value = codes "100-continue" } ∷ [])) ≡ Put by_ann known.plain_put }
    ensures fields { asks (known.put_of 5
        (record { name = codes "content-TYPE"; value = codes "text/plain" }
        ∷ record { name = codes "etag"; value = codes "\"5d41402abc4b2a76b9719d911017c592\"" }
        ∷ record { name = codes "If-Match"; value = codes "*" }
        ∷ record { name = codes "If-None-Match"; value = codes "x" }
        ∷ record { name = codes "If-None-Match"; value = codes "\"y\"" }
        ∷ record { name = codes "If-Unmodified-Since"; value = codes "Sun, 06 Nov 1994 08:49:37 GMT" }
        ∷ record { name = codes "Range"; value = codes "bytes=0-1" } ∷ []))
        ≡ Put by_ann (record known.plain_put {
          kind = Some (codes "text/plain");
          etag = Some (codes "5d41402abc4b2a76b9719d911017c592");
          when = record known.always { matches = Some Any; none = known.one_of (codes "y") };
        }) }
    ensures no_kind { asks (known.put_of 0 (record { name = codes "Content-Type"; value = [] } ∷ [])) ≡ Put by_ann known.plain_put }
    ensures odd_etag { sent_etag (known.put_of 0 (record { name = codes "ETag"; value = codes "\"A\"\"" } ∷ [])) ≡ Some (codes "A\"") }
    ensures largest { asks (known.put_of largest []) ≡ Put by_ann known.plain_put }
    ensures too_large { asks (known.put_of 5368709121 []) ≡ Refused TooLarge }
    ensures no_length { asks (known.request (codes "PUT") [] Empty) ≡ Refused NoLength }
    ensures chunks { asks (known.request (codes "PUT") [] Chunked) ≡ Put by_ann known.plain_put }
{}

/// What GETs and HEADs ask.
pub fn gets_ask_so()
    ensures plain { asks (known.get_with []) ≡ Unfed by_ann (Get known.plain_get) }
    ensures with_body { asks (known.request (codes "GET") [] (Length 5)) ≡ Unfed by_ann (Get known.plain_get) }
    ensures fields { asks (known.get_with
        (record { name = codes "RANGE"; value = codes "bytes=0-0" }
        ∷ record { name = codes "Range"; value = codes "bytes=2-3" }
        ∷ record { name = codes "If-Match"; value = [] }
        ∷ record { name = codes "If-Modified-Since"; value = codes "Sun, 06 Nov 1994 08:49:37 GMT" }
        ∷ record { name = codes "If-Unmodified-Since"; value = codes "yesterday" }
        ∷ record { name = codes "ETag"; value = 255 ∷ [] } ∷ []))
        ≡ Unfed by_ann (Get (record known.plain_get {
          when = record known.always { matches = known.one_of []; modified = Some 784111777 };
          span = Some (Between 2 3);
        })) }
    ensures range_condition { asks (known.get_with
        (record { name = codes "Range"; value = codes "bytes=2-3" }
        ∷ record { name = codes "If-Range"; value = [] } ∷ [])) ≡ Unfed by_ann (Get known.plain_get) }
    ensures head { asks (known.head_with (record { name = codes "Range"; value = codes "bytes=2-3" } ∷ []))
        ≡ Unfed by_ann (Get (record known.plain_get { body = false })) }
    ensures too_large { asks (known.request (codes "GET") [] (Length 5368709121)) ≡ Refused TooLarge }
{}

/// Which heads are refused, and by which refusal first.
pub fn heads_are_refused_so()
    ensures host { asks (known.bare (codes "PATCH") [] Empty) ≡ BadHost }
    ensures two_hosts { asks (known.get_with (known.host ∷ [])) ≡ BadHost }
    ensures star { asks (known.to (codes "*")) ≡ Refused (Invalid Target) }
    ensures escape { asks (known.to (codes "/swift/v1/AUTH_acme/box/%4")) ≡ Refused (Invalid Escape) }
    ensures utf8 { asks (known.to (codes "/swift/v1/AUTH_acme/box/%ff")) ≡ Refused (Invalid Utf8) }
    ensures name { asks (known.to (codes "/swift/v1/AUTH_acme/box/%00")) ≡ Refused (Invalid Name) }
    ensures limit { asks (record (known.request (codes "PATCH") [] Empty) { target = codes "/swift/v1/AUTH_acme/box/k?limit=x" }) ≡ Refused (Invalid Limit) }
    ensures format { asks (known.to (codes "/auth?format=xml")) ≡ Refused (Invalid Format) }
    ensures path { asks (known.bare_to (codes "/swift/v2/AUTH_acme/box/k")) ≡ Refused NoPath }
    ensures method { asks (known.bare (codes "PATCH") (known.host ∷ known.lost_token ∷ record { name = codes "X-Copy-From"; value = codes "box/k" } ∷ []) Empty) ≡ Refused (NoMethod Object) }
    ensures lower { asks (known.request (codes "get") [] Empty) ≡ Refused (NoMethod Object) }
    ensures deleted { asks (known.request (codes "DELETE") [] Empty) ≡ Refused NotBuilt }
    ensures posted { asks (known.bare (codes "POST") (known.host ∷ []) Empty) ≡ Refused NotBuilt }
    ensures copied { asks (known.bare (codes "COPY") (known.host ∷ known.lost_token ∷ []) Empty) ≡ Refused NotBuilt }
    ensures copy { asks (known.put_of 5368709121 (record { name = codes "x-copy-from"; value = codes "box/k" } ∷ known.lost_token ∷ [])) ≡ Refused NotBuilt }
    ensures lost { asks (known.bare (codes "PUT") (known.host ∷ known.lost_token ∷ record { name = codes "If-Match"; value = 255 ∷ [] } ∷ []) Empty) ≡ Refused Unauthorized }
    ensures other_token { asks (known.get_with (record { name = codes "X-Auth-Token"; value = codes "AUTH_tk" } ∷ [])) ≡ Refused Unauthorized }
    ensures text { asks (known.request (codes "PUT") (record { name = codes "If-None-Match"; value = 255 ∷ [] } ∷ []) Empty) ≡ Refused (Invalid Value) }
    ensures text_of_nobody { asks (known.bare (codes "PUT") (known.host ∷ record { name = codes "If-Match"; value = 255 ∷ [] } ∷ []) Empty) ≡ Refused Unauthorized }
    ensures etag { asks (known.put_of 5368709121 (record { name = codes "ETag"; value = 128 ∷ [] } ∷ [])) ≡ Refused (Invalid Value) }
    ensures kind_text { asks (known.put_of 0 (record { name = codes "Content-Type"; value = 255 ∷ [] } ∷ [])) ≡ Refused (Invalid Value) }
    ensures last_text { asks (known.get_with
        (record { name = codes "If-Match"; value = 255 ∷ [] } ∷ record { name = codes "If-Match"; value = codes "*" } ∷ []))
        ≡ Unfed by_ann (Get (record known.plain_get { when = record known.always { matches = Some Any } })) }
{}

/// Who asks for objects, of which account: their containers' rows say whether the asker may.
pub fn objects_are_asked_for_so()
    ensures bob { asks (known.get_with (known.bob_token ∷ [])) ≡ Unfed by_bob (Get known.plain_get) }
    ensures bob_puts { asks (known.put_of 5 (known.bob_token ∷ [])) ≡ Put by_bob known.plain_put }
    ensures nobody { asks (known.bare_to known.target) ≡ Unfed by_nobody (Get known.plain_get) }
    ensures nobody_puts { asks (known.bare (codes "PUT") (known.host ∷ []) (Length 5)) ≡ Refused Unauthorized }
    ensures last { asks (known.get_with (known.lost_token ∷ known.bob_token ∷ known.token ∷ [])) ≡ Unfed by_ann (Get known.plain_get) }
    ensures other_account { asks (known.to (codes "/swift/v1/AUTH_other/box/k")) ≡ Unfed (record by_ann { account = codes "other" }) (Get known.plain_get) }
    ensures put_in_another { asks (record (known.put_of 5 (known.bob_token ∷ [])) { target = codes "/swift/v1/AUTH_corp/box/k" })
        ≡ Put (record by_bob { account = codes "corp" }) known.plain_put }
    ensures empty_account { asks (known.bare_to (codes "/swift/v1/AUTH_/box/%2F?limit=1")) ≡ Unfed (record by_nobody { account = [] }) (Get (known.get_of (codes "box") (codes "/"))) }
{}

/// Targets of objects, and the version of the protocol.
pub fn objects_are_named_so()
    ensures slashes { asks (known.to (codes "/swift/v1/AUTH_acme/box/a//b/")) ≡ Unfed by_ann (Get (known.get_of (codes "box") (codes "a//b/"))) }
    ensures escaped { asks (known.to (codes "/swift/v1/AUTH_acme/c%20d/a%2Fb%25")) ≡ Unfed by_ann (Get (known.get_of (codes "c d") (codes "a/b%"))) }
    ensures plus { asks (known.to (codes "/swift/v1/AUTH_acme/box/a+b?limit=1&x=%20")) ≡ Unfed by_ann (Get (known.get_of (codes "box") (codes "a+b"))) }
    ensures older { asks (record (known.bare (codes "GET") (known.token ∷ []) Empty) { minor = 0 }) ≡ Unfed by_ann (Get known.plain_get) }
    ensures copies_nothing { asks (known.get_with (record { name = codes "X-Copy-From"; value = codes "box/k" } ∷ [])) ≡ Unfed by_ann (Get known.plain_get) }
{}

/// Listings of containers.
pub fn listings_ask_so()
    ensures all { asks (known.to (codes "/swift/v1/AUTH_acme/box")) ≡ Unfed by_ann (Listing (known.all_of (codes "box")) Plain) }
    ensures slash { asks (known.to (codes "/swift/v1/AUTH_acme/box/")) ≡ Unfed by_ann (Listing (known.all_of (codes "box")) Plain) }
    ensures some { asks (known.to (codes "/swift/v1/AUTH_acme/c%20d?limit=2&marker=a%2F1&end_marker=z&prefix=a&delimiter=%2F&format=json&x=1"))
        ≡ Unfed by_ann (Listing (record (known.all_of (codes "c d")) { limit = 2; marker = codes "a/1"; end_marker = codes "z"; prefix = codes "a"; delimiter = codes "/" }) Json) }
    ensures other { asks (known.to (codes "/swift/v1/AUTH_other/box")) ≡ Unfed (record by_ann { account = codes "other" }) (Listing (known.all_of (codes "box")) Plain) }
{}

/// The metadata of PUTs.
pub fn metadata_is_read_so()
    ensures pairs { asks (known.put_of 5
        (record { name = codes "X-Object-Meta-Color"; value = codes "red" }
        ∷ record { name = codes "x-object-meta-A"; value = codes "1" }
        ∷ record { name = codes "X-OBJECT-META-COLOR"; value = [] }
        ∷ record { name = codes "X-Object-Met"; value = codes "x" } ∷ []))
        ≡ Put by_ann (record known.plain_put { meta = (codes "a", codes "1") ∷ (codes "color", []) ∷ [] }) }
    ensures of_get { asks (known.get_with (record { name = codes "X-Object-Meta-"; value = 255 ∷ [] } ∷ [])) ≡ Unfed by_ann (Get known.plain_get) }
    ensures text { asks (known.put_of 5 (record { name = codes "X-Object-Meta-"; value = 255 ∷ [] } ∷ [])) ≡ Refused (Invalid Value) }
    ensures last_text { asks (known.put_of 5
        (record { name = codes "X-Object-Meta-A"; value = 255 ∷ [] } ∷ record { name = codes "X-Object-Meta-a"; value = codes "1" } ∷ []))
        ≡ Put by_ann (record known.plain_put { meta = (codes "a", codes "1") ∷ [] }) }
    ensures long_name { asks (known.put_of 5 (known.meta_named (replicate 129 97) [] ∷ [])) ≡ Refused (Invalid Meta) }
    ensures long_value { asks (known.put_of 5 (known.meta_named (codes "a") (replicate 257 97) ∷ [])) ≡ Refused (Invalid Meta) }
    ensures longest { asks (known.put_of 5 (known.meta_named (replicate 128 97) (replicate 256 98) ∷ []))
        ≡ Put by_ann (record known.plain_put { meta = (replicate 128 97, replicate 256 98) ∷ [] }) }
    ensures long_kind { asks (known.put_of 5 (record { name = codes "Content-Type"; value = replicate 257 97 } ∷ [])) ≡ Refused (Invalid Meta) }
    ensures no_name { asks (known.request (codes "PUT") (record { name = codes "X-Object-Meta-"; value = codes "red" } ∷ []) Empty) ≡ Refused (Invalid Meta) }
{}

/// What becomes of bodies, and which replies close the connection.
pub fn bodies_are_used_so()
    ensures fed { body_use largest (known.put_of 5 []) (Put by_ann known.plain_put) ≡ Fed }
    ensures awaited { body_use largest (known.put_of 5 (record { name = codes "Expect"; value = codes "100-Continue" } ∷ [])) (Put by_ann known.plain_put) ≡ Awaited }
    ensures other { body_use largest (known.put_of 5 (record { name = codes "Expect"; value = codes "200-ok" } ∷ [])) (Put by_ann known.plain_put) ≡ Fed }
    ensures of_get_waiting { body_use largest (known.get_with (record { name = codes "Expect"; value = codes "100-continue" } ∷ [])) (Unfed by_ann (Get known.plain_get)) ≡ Unread }
    ensures dropped { body_use largest (known.put_of 5 []) (Refused Unauthorized) ≡ Dropped }
    ensures none { body_use largest (known.get_with []) (Unfed by_ann (Get known.plain_get)) ≡ Dropped }
    ensures of_get { body_use largest (known.request (codes "GET") [] (Length 5)) (Unfed by_ann (Get known.plain_get)) ≡ Dropped }
    ensures no_length { body_use largest (known.request (codes "PUT") [] Empty) (Refused NoLength) ≡ Dropped }
    ensures not_built { body_use largest (known.put_of 5 []) (Refused NotBuilt) ≡ Unread }
    ensures too_large { body_use largest (known.put_of 5368709121 []) (Refused TooLarge) ≡ Unread }
    ensures nobody { body_use largest (known.put_of 5368709121 []) (Refused Unauthorized) ≡ Unread }
    ensures largest { body_use largest (known.put_of largest []) BadHost ≡ Dropped }
    ensures waits { body_use largest (known.put_of 5 (record { name = codes "Expect"; value = codes "100-Continue" } ∷ [])) BadHost ≡ Unread }
    ensures chunks { body_use largest (known.request (codes "PUT") [] Chunked) BadHost ≡ Dropped }
    ensures stays { closes 99999 (known.put_of 5 (record { name = codes "Connection"; value = codes "keep-alive, closed" } ∷ [])) false ≡ false }
    ensures wants { closes 1 (known.get_with (record { name = codes "Connection"; value = codes "keep-alive,\tClose" } ∷ [])) false ≡ true }
    ensures unread { closes 1 (known.put_of 5 []) true ≡ true }
    ensures older { closes 1 (record (known.get_with []) { minor = 0 }) false ≡ true }
    ensures many { closes 100000 (known.get_with []) false ≡ true }
{}
