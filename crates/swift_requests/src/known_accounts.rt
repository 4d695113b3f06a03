//! What whole heads on auth paths, accounts and containers ask, worked out by hand: each function here does nothing and
//! is such answers.
ghost use Rattle.std.specs.Prelude.{◌≡◌, ◌∷◌, ◌++◌, [], Some, None, codes, replicate};
ghost use Rattle.http_model.specs.declared.head.Framing.TheVariants.{Chunked};
ghost use Rattle.swift_reply.specs.declared.reply.Denial.TheVariants as denial;
ghost use Rattle.swift_reply.specs.declared.reply.Invalid.TheVariants as word;
ghost use Rattle.swift_reply.specs.declared.reply.ListingForm.TheVariants.{Plain, Json};
ghost use Rattle.swift_reply.specs.declared.reply.SwiftRefusal.TheVariants.{Unauthorized, Invalid, Denied, NoPath, NoMethod, TooLarge};
ghost use Rattle.swift_reply.specs.declared.reply.TargetKind.TheVariants as kind;
ghost use Rattle.swift_requests.specs.declared.asked.Asked.TheVariants.{BadHost, Refused, Login, Unfed};
ghost use Rattle.swift_requests.specs.declared.asked.UnfedCommand.TheVariants.{Listing, Container, Account};
ghost use Rattle.swift_requests.specs.declared.body.BodyUse.TheVariants.{Dropped, Unread};
ghost use Rattle.task_account.specs.declared.request.AccountCommand.TheVariants as account;
ghost use Rattle.task_container.specs.declared.request.ContainerCommand.TheVariants as container;
ghost use Rattle.swift_requests.specs.Askers.{asker_of};
ghost use Rattle.swift_requests.specs.KnownAccounts as known;
ghost use Rattle.swift_requests.specs.KnownUsers.{users, largest, asks, uses, by_ann, by_bob, by_nobody};
ghost use Rattle.swift_requests.specs.Refusals.{change_refusal};

/// How users are let in.
pub fn logins_are_read_so()
    ensures first { asks (known.login known.ann_login) ≡ Login (codes "h") (codes "acme") (codes "AUTH_tk1") }
    ensures second { asks (known.login (known.auth_key (codes "hunter2") ∷ known.auth_user (codes "corp:bob") ∷ []))
        ≡ Login (codes "h") (codes "corp") (codes "AUTH_tk2") }
    ensures key_of_another { asks (known.login (known.auth_user (codes "acme:ann") ∷ known.auth_key (codes "hunter2") ∷ [])) ≡ Refused Unauthorized }
    ensures name_alone { asks (known.login (known.auth_user (codes "acme:ann") ∷ [])) ≡ Refused Unauthorized }
    ensures key_alone { asks (known.login (known.auth_key (codes "secret") ∷ [])) ≡ Refused Unauthorized }
    ensures account_alone { asks (known.login (known.auth_user (codes "acme") ∷ known.auth_key (codes "secret") ∷ [])) ≡ Refused Unauthorized }
    ensures last { asks (known.login (known.auth_user (codes "corp:bob") ∷ known.ann_login)) ≡ Login (codes "h") (codes "acme") (codes "AUTH_tk1") }
    ensures no_host { asks (record (known.login []) { minor = 0; fields = known.ann_login }) ≡ Login (codes "localhost") (codes "acme") (codes "AUTH_tk1") }
    ensures last_host { asks (record (known.login []) { minor = 0; fields = known.host ∷ known.field (codes "host") (codes "example.com:80") ∷ known.ann_login })
        ≡ Login (codes "example.com:80") (codes "acme") (codes "AUTH_tk1") }
    ensures other_paths { asks (known.request (codes "GET") (codes "/auth/") known.ann_login) ≡ Login (codes "h") (codes "acme") (codes "AUTH_tk1") }
    ensures token { asks (known.login (known.lost_token ∷ known.ann_login)) ≡ Login (codes "h") (codes "acme") (codes "AUTH_tk1") }
    ensures head { asks (known.request (codes "HEAD") (codes "/auth/1.0") known.ann_login) ≡ Refused (NoMethod kind.Auth) }
    ensures post { asks (known.request (codes "POST") (codes "/auth") []) ≡ Refused (NoMethod kind.Auth) }
    ensures too_large { asks (known.too_large (known.login known.ann_login)) ≡ Refused TooLarge }
    ensures unauthorized_first { asks (known.too_large (known.login [])) ≡ Refused Unauthorized }
{}

/// Who asks.
pub fn askers_are_known_so()
    ensures ann { asker_of users (known.on_box (codes "GET") (known.ann_token ∷ [])) (codes "acme") ≡ Some by_ann }
    ensures bob { asker_of users (known.on_box (codes "GET") (known.bob_token ∷ [])) (codes "acme") ≡ Some by_bob }
    ensures nobody { asker_of users (known.on_box (codes "GET") []) (codes "acme") ≡ Some by_nobody }
    ensures lost { asker_of users (known.on_box (codes "GET") (known.lost_token ∷ [])) (codes "acme") ≡ None }
    ensures empty { asker_of users (known.on_box (codes "GET") (known.field (codes "X-Auth-Token") [] ∷ [])) (codes "acme") ≡ None }
    ensures last { asker_of users (known.on_box (codes "GET") (known.lost_token ∷ known.bob_token ∷ known.ann_token ∷ [])) (codes "acme") ≡ Some by_ann }
    ensures last_lost { asker_of users (known.on_box (codes "GET") (known.ann_token ∷ known.lost_token ∷ [])) (codes "acme") ≡ None }
{}

/// What is asked of accounts, and by whom.
pub fn accounts_are_asked_so()
    ensures all { asks (known.on_account (codes "GET") (known.ann_token ∷ [])) ≡ Unfed by_ann (Account (account.List known.all_containers) Plain) }
    ensures some { asks (known.request (codes "GET") (codes "/swift/v1/AUTH_acme/?limit=2&marker=a%2F1&end_marker=z&prefix=a&delimiter=%2F&format=json&x=1") (known.ann_token ∷ []))
        ≡ Unfed by_ann (Account (account.List (record { limit = 2; marker = codes "a/1"; end_marker = codes "z"; prefix = codes "a"; delimiter = codes "/" })) Json) }
    ensures head { asks (known.request (codes "HEAD") (codes "/swift/v1/AUTH_acme?limit=2&marker=b") (known.ann_token ∷ [])) ≡ Unfed by_ann (Account account.Head Plain) }
    ensures own { asks (known.request (codes "HEAD") (codes "/swift/v1/AUTH_corp") (known.bob_token ∷ []))
        ≡ Unfed (record by_bob { account = codes "corp" }) (Account account.Head Plain) }
    ensures post { asks (known.on_account (codes "POST") (known.ann_token ∷ [])) ≡ Refused (NoMethod kind.Account) }
    ensures put_by_nobody { asks (known.too_large (known.on_account (codes "PUT") [])) ≡ Refused (NoMethod kind.Account) }
    ensures delete_by_lost { asks (known.on_account (codes "DELETE") (known.lost_token ∷ [])) ≡ Refused (NoMethod kind.Account) }
    ensures query_first { asks (known.request (codes "POST") (codes "/swift/v1/AUTH_acme?limit=x") []) ≡ Refused (Invalid word.Limit) }
    ensures nobody { asks (known.too_large (known.on_account (codes "GET") [])) ≡ Refused Unauthorized }
    ensures lost { asks (known.too_large (known.on_account (codes "HEAD") (known.lost_token ∷ []))) ≡ Refused Unauthorized }
    ensures bob { asks (known.on_account (codes "GET") (known.bob_token ∷ [])) ≡ Refused (Denied denial.Account) }
    ensures no_user_has_it { asks (known.request (codes "GET") (codes "/swift/v1/AUTH_") (known.ann_token ∷ [])) ≡ Refused (Denied denial.Account) }
    ensures too_large { asks (known.too_large (known.on_account (codes "GET") (known.ann_token ∷ []))) ≡ Refused TooLarge }
    ensures too_large_first { asks (known.too_large (known.on_account (codes "GET") (known.bob_token ∷ []))) ≡ Refused TooLarge }
{}

/// Looks at containers, which their rows judge.
pub fn containers_are_looked_at_so()
    ensures ann { asks (known.on_box (codes "GET") (known.ann_token ∷ [])) ≡ Unfed by_ann (Listing known.all_of_box Plain) }
    ensures bob { asks (known.on_box (codes "GET") (known.bob_token ∷ [])) ≡ Unfed by_bob (Listing known.all_of_box Plain) }
    ensures nobody { asks (known.on_box (codes "GET") []) ≡ Unfed by_nobody (Listing known.all_of_box Plain) }
    ensures some { asks (known.request (codes "GET") (codes "/swift/v1/AUTH_acme/box?limit=2&marker=a%2F1&end_marker=z&prefix=a&delimiter=%2F&format=json") (known.ann_token ∷ []))
        ≡ Unfed by_ann (Listing (record known.all_of_box { limit = 2; marker = codes "a/1"; end_marker = codes "z"; prefix = codes "a"; delimiter = codes "/" }) Json) }
    ensures head { asks (known.on_box (codes "HEAD") (known.ann_token ∷ [])) ≡ Unfed by_ann (Container (container.Head (codes "box"))) }
    ensures head_by_nobody { asks (known.request (codes "HEAD") (codes "/swift/v1/AUTH_acme/box/") []) ≡ Unfed by_nobody (Container (container.Head (codes "box"))) }
    ensures lost { asks (known.on_box (codes "GET") (known.lost_token ∷ [])) ≡ Refused Unauthorized }
    ensures head_by_lost { asks (known.too_large (known.on_box (codes "HEAD") (known.lost_token ∷ []))) ≡ Refused Unauthorized }
    ensures too_large { asks (known.too_large (known.on_box (codes "GET") [])) ≡ Refused TooLarge }
    ensures head_too_large { asks (known.too_large (known.on_box (codes "HEAD") (known.bob_token ∷ []))) ≡ Refused TooLarge }
    ensures with_body { asks (known.with_body 5 (known.on_box (codes "GET") [])) ≡ Unfed by_nobody (Listing known.all_of_box Plain) }
    ensures fields_are_not_looked_at { asks (known.on_box (codes "GET") (known.sets [] (255 ∷ []) ∷ [])) ≡ Unfed by_nobody (Listing known.all_of_box Plain) }
    ensures copy { asks (known.on_box (codes "COPY") (known.lost_token ∷ [])) ≡ Refused (NoMethod kind.Container) }
    ensures lower { asks (known.on_box (codes "get") (known.ann_token ∷ [])) ≡ Refused (NoMethod kind.Container) }
{}

/// Changes of containers, and their end.
pub fn containers_are_changed_so()
    ensures plain { asks (known.put_box []) ≡ Unfed by_ann (Container (container.Put (codes "box") known.no_changes)) }
    ensures with_body { asks (known.with_body 5368709120 (known.put_box [])) ≡ Unfed by_ann (Container (container.Put (codes "box") known.no_changes)) }
    ensures chunks { asks (record (known.put_box []) { framing = Chunked }) ≡ Unfed by_ann (Container (container.Put (codes "box") known.no_changes)) }
    ensures opened { asks (known.on_box (codes "POST") (known.ann_token ∷ known.field (codes "X-Container-Read") (codes ".r:*,.rlistings") ∷ []))
        ≡ Unfed by_ann (Container (container.Post (codes "box") (record known.no_changes { readers = Some (codes ".r:*,.rlistings") }))) }
    ensures lists { asks (known.put_box (known.field (codes "x-container-WRITE") (codes "corp") ∷ known.field (codes "X-Container-Read") (codes "corp")
        ∷ known.field (codes "X-Container-Write") [] ∷ []))
        ≡ Unfed by_ann (Container (container.Put (codes "box") (record { meta = []; readers = Some (codes "corp"); writers = Some [] }))) }
    ensures pairs { asks (known.put_box (known.sets (codes "Color") (codes "red") ∷ known.field (codes "x-container-meta-A") (codes "1") ∷ known.sets (codes "COLOR") (codes "blue") ∷ []))
        ≡ Unfed by_ann (Container (container.Put (codes "box") (known.meta_changes ((codes "a", codes "1") ∷ (codes "color", codes "blue") ∷ [])))) }
    ensures removed { asks (known.on_box (codes "POST") (known.ann_token ∷ known.removes (codes "Color") (codes "x") ∷ []))
        ≡ Unfed by_ann (Container (container.Post (codes "box") (known.meta_changes ((codes "color", []) ∷ [])))) }
    ensures emptied { asks (known.put_box (known.sets (codes "color") [] ∷ [])) ≡ Unfed by_ann (Container (container.Put (codes "box") (known.meta_changes ((codes "color", []) ∷ [])))) }
    ensures removed_later { asks (known.put_box (known.sets (codes "color") (codes "red") ∷ known.removes (codes "COLOR") (255 ∷ []) ∷ []))
        ≡ Unfed by_ann (Container (container.Put (codes "box") (known.meta_changes ((codes "color", []) ∷ [])))) }
    ensures set_later { asks (known.put_box (known.removes (codes "color") [] ∷ known.sets (codes "color") (codes "red") ∷ []))
        ≡ Unfed by_ann (Container (container.Put (codes "box") (known.meta_changes ((codes "color", codes "red") ∷ [])))) }
    ensures last_text { asks (known.put_box (known.sets (codes "a") (255 ∷ []) ∷ known.sets (codes "A") (codes "1") ∷ []))
        ≡ Unfed by_ann (Container (container.Put (codes "box") (known.meta_changes ((codes "a", codes "1") ∷ [])))) }
    ensures other_fields { asks (known.put_box (known.field (codes "X-Container-Meta") (codes "x") ∷ known.field (codes "X-Object-Meta-A") (255 ∷ []) ∷ known.field (codes "If-Match") (255 ∷ []) ∷ []))
        ≡ Unfed by_ann (Container (container.Put (codes "box") known.no_changes)) }
    ensures deleted { asks (known.on_box (codes "DELETE") (known.ann_token ∷ [])) ≡ Unfed by_ann (Container (container.Delete (codes "box"))) }
    ensures deleted_with_fields { asks (known.on_box (codes "DELETE") (known.ann_token ∷ known.sets [] (255 ∷ []) ∷ [])) ≡ Unfed by_ann (Container (container.Delete (codes "box"))) }
    ensures longest { asks (known.put_box (known.sets (replicate 128 97) (replicate 256 98) ∷ []))
        ≡ Unfed by_ann (Container (container.Put (codes "box") (known.meta_changes ((replicate 128 97, replicate 256 98) ∷ [])))) }
{}

/// Which changes of containers are refused, and by which refusal first.
pub fn changes_are_refused_so()
    ensures nobody { asks (known.on_box (codes "PUT") (known.sets (codes "a") (255 ∷ []) ∷ [])) ≡ Refused Unauthorized }
    ensures lost { asks (known.on_box (codes "POST") (known.lost_token ∷ known.sets [] [] ∷ [])) ≡ Refused Unauthorized }
    ensures delete_by_nobody { asks (known.too_large (known.on_box (codes "DELETE") [])) ≡ Refused Unauthorized }
    ensures value { asks (known.put_box (known.sets [] (255 ∷ []) ∷ [])) ≡ Refused (Invalid word.Value) }
    ensures readers { asks (known.put_box (known.field (codes "X-Container-Read") (255 ∷ []) ∷ known.sets [] [] ∷ [])) ≡ Refused (Invalid word.Value) }
    ensures writers { asks (known.put_box (known.field (codes "X-Container-Write") (128 ∷ []) ∷ [])) ≡ Refused (Invalid word.Value) }
    ensures value_before_denial { asks (known.on_box (codes "PUT") (known.bob_token ∷ known.sets (codes "a") (255 ∷ []) ∷ [])) ≡ Refused (Invalid word.Value) }
    ensures no_name { asks (known.put_box (known.sets [] (codes "x") ∷ [])) ≡ Refused (Invalid word.Meta) }
    ensures no_name_removed { asks (known.put_box (known.removes [] (codes "x") ∷ [])) ≡ Refused (Invalid word.Meta) }
    ensures long_name { asks (known.put_box (known.sets (replicate 129 97) (codes "x") ∷ [])) ≡ Refused (Invalid word.Meta) }
    ensures long_name_removed { asks (known.put_box (known.removes (replicate 129 97) [] ∷ [])) ≡ Refused (Invalid word.Meta) }
    ensures long_value { asks (known.too_large (known.put_box (known.sets (codes "a") (replicate 257 97) ∷ []))) ≡ Refused (Invalid word.Meta) }
    ensures meta_before_denial { asks (known.on_box (codes "POST") (known.bob_token ∷ known.sets [] [] ∷ [])) ≡ Refused (Invalid word.Meta) }
    ensures too_large { asks (known.too_large (known.put_box [])) ≡ Refused TooLarge }
    ensures too_large_before_denial { asks (known.too_large (known.on_box (codes "PUT") (known.bob_token ∷ []))) ≡ Refused TooLarge }
    ensures bob { asks (known.on_box (codes "PUT") (known.bob_token ∷ [])) ≡ Refused (Denied denial.Account) }
    ensures bob_posts { asks (known.on_box (codes "POST") (known.bob_token ∷ [])) ≡ Refused (Denied denial.Account) }
    ensures bob_deletes { asks (known.on_box (codes "DELETE") (known.bob_token ∷ known.sets [] (255 ∷ []) ∷ [])) ≡ Refused (Denied denial.Account) }
    ensures delete_too_large { asks (known.too_large (known.on_box (codes "DELETE") (known.bob_token ∷ []))) ≡ Refused TooLarge }
{}

/// Ninety names may be set, and more removed.
pub fn names_are_counted_so()
    ensures most { change_refusal largest (known.put_box (known.removes (codes "a") (codes "x") ∷ known.sets (codes "b") [] ∷ known.set_names 90)) by_ann ≡ None }
    ensures removed_again { change_refusal largest (known.put_box (known.set_names 91 ++ known.removes (codes "00") [] ∷ [])) by_ann ≡ None }
    ensures many { asks (known.put_box (known.set_names 91)) ≡ Refused (Invalid word.Meta) }
    ensures set_again { asks (known.put_box (known.removes (codes "00") [] ∷ known.set_names 91)) ≡ Refused (Invalid word.Meta) }
{}

/// Which targets are refused.
pub fn targets_are_told_so()
    ensures host { asks (known.on_account (codes "POST") (known.host ∷ [])) ≡ BadHost }
    ensures no_host { asks (record (known.login []) { fields = known.ann_login }) ≡ BadHost }
    ensures star { asks (known.request (codes "OPTIONS") (codes "*") []) ≡ Refused (Invalid word.Target) }
    ensures name { asks (known.request (codes "GET") (codes "/swift/v1/AUTH_acme/%00") []) ≡ Refused (Invalid word.Name) }
    ensures format { asks (known.request (codes "COPY") (codes "/auth?format=xml") []) ≡ Refused (Invalid word.Format) }
    ensures path { asks (known.request (codes "COPY") (codes "/swift/v2/AUTH_acme") []) ≡ Refused NoPath }
{}

/// What becomes of the bodies of these requests, which nobody wants.
pub fn their_bodies_are_dropped_so()
    ensures login { uses (known.with_body 5 (known.login known.ann_login)) ≡ Dropped }
    ensures account { uses (known.with_body 5 (known.on_account (codes "GET") (known.ann_token ∷ []))) ≡ Dropped }
    ensures listing { uses (known.with_body 5 (known.on_box (codes "GET") [])) ≡ Dropped }
    ensures change { uses (known.with_body 5368709120 (known.put_box [])) ≡ Dropped }
    ensures chunks { uses (record (known.put_box []) { framing = Chunked }) ≡ Dropped }
    ensures no_method { uses (known.with_body 5 (known.on_box (codes "COPY") [])) ≡ Dropped }
    ensures too_large { uses (known.too_large (known.put_box [])) ≡ Unread }
    ensures nobody { uses (known.too_large (known.login [])) ≡ Unread }
    ensures login_waits { uses (known.with_body 5 (known.login (known.field (codes "Expect") (codes "100-Continue") ∷ known.ann_login))) ≡ Unread }
    ensures waits { uses (known.with_body 5 (known.put_box (known.field (codes "Expect") (codes "100-Continue") ∷ []))) ≡ Unread }
{}
