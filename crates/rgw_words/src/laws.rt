//! Laws of words.
ghost use Rattle.std.specs.Prelude.{◌≡◌, ◌∷◌, [], ℕ, List, None, Some, true, is_some, codes};
ghost use Rattle.std.specs.Option.{option_map};
ghost use Rattle.rgw_words.specs.declared.run_words.RunWords.{RunWords};
ghost use Rattle.rgw_words.specs.declared.serve_words.ServeWords.{ServeWords};
ghost use Rattle.swift_auth.specs.Users.{standard_user};
ghost use Rattle.rgw_words.specs.Words.{users_text, once_of, may_ask_once, script_of, may_ask_script, serve_of, may_ask_serve};

/// Words that ask for one command ask for no other.
pub fn words_ask_for_one_command()
    ensures once { (words : List (List ℕ)) → may_ask_once words ≡ true
        → (script_of words ≡ None) × (serve_of words ≡ None) }
    ensures script { (words : List (List ℕ)) → may_ask_script words ≡ true
        → (once_of words ≡ None) × (serve_of words ≡ None) }
    ensures serve { (words : List (List ℕ)) → may_ask_serve words ≡ true
        → (once_of words ≡ None) × (script_of words ≡ None) }
{}

/// What words without a users text ask is known whatever memory there is.
pub fn words_without_users_are_judged_exactly()
    ensures once { (words : List (List ℕ)) → users_text words ≡ None
        → may_ask_once words ≡ is_some (once_of words) }
    ensures script { (words : List (List ℕ)) → users_text words ≡ None
        → may_ask_script words ≡ is_some (script_of words) }
    ensures serve { (words : List (List ℕ)) → users_text words ≡ None
        → may_ask_serve words ≡ is_some (serve_of words) }
{}

const BOB: &[u8] = b"[{\"user\":\"beta:bob\",\"key\":\"k\",\"token\":\"t\"}]";

const BOB_IN_ONE_WORD: &[u8] = b"--users=[{\"user\":\"beta:bob\",\"key\":\"k\",\"token\":\"t\"}]";

/// Users are an option of each command; the one standard user is there without it.
pub fn users_stand_behind_each_command()
    ensures once { option_map (λ (asked : RunWords). asked.users) (once_of (codes "once" ∷ codes "--users" ∷ BOB.now ∷ []))
        ≡ Some (record { full_name = codes "beta:bob"; key = codes "k"; token = codes "t" } ∷ []) }
    ensures joined { option_map (λ (asked : RunWords). asked.users) (script_of (codes "script" ∷ BOB_IN_ONE_WORD.now ∷ []))
        ≡ Some (record { full_name = codes "beta:bob"; key = codes "k"; token = codes "t" } ∷ []) }
    ensures serve { option_map (λ (asked : ServeWords). asked.run.users) (serve_of (codes "serve" ∷ codes "--port" ∷ codes "80" ∷ codes "--users" ∷ BOB.now ∷ []))
        ≡ Some (record { full_name = codes "beta:bob"; key = codes "k"; token = codes "t" } ∷ []) }
    ensures standard { option_map (λ (asked : RunWords). asked.users) (once_of (codes "once" ∷ [])) ≡ Some (standard_user ∷ []) }
    ensures nobody { once_of (codes "once" ∷ codes "--users" ∷ codes "[]" ∷ []) ≡ None }
    ensures repeated { once_of (codes "once" ∷ codes "--users" ∷ BOB.now ∷ codes "--users" ∷ BOB.now ∷ []) ≡ None }
{}
