// What the policy comes to.
ghost use Rattle.std.specs.Prelude.{◌≡◌, ◌↔◌, ◌⊎◌, ℕ, List, Option, Some, None};
ghost use Rattle.object_words.specs.declared.bucket.Bucket.{Bucket as BucketOf};
ghost use Rattle.swift_auth.specs.declared.policy.Deed.{Deed as DeedOf};
ghost use Rattle.swift_auth.specs.declared.policy.Deed.TheVariants.{OwnAccount, ChangeThing};
ghost use Rattle.swift_auth.specs.declared.policy.Verdict.TheVariants.{Granted, Unknown, Denied};
ghost use Rattle.swift_auth.specs.Users.{UserView};
ghost use Rattle.swift_auth.specs.Grants.{Grants};
ghost use Rattle.swift_auth.specs.Policies.{rule_of, verdict_of};

/// A deed is granted exactly where a sentence of the policy grants it. Else who is known is denied by the
/// rule of the deed, and who is not known is told so.
pub fn granted_by_the_sentences()
    ensures granted { (asker : Option UserView) (account : List ℕ) (bucket : Option BucketOf) (deed : DeedOf)
        → (verdict_of asker account bucket deed ≡ Granted) ↔ Grants account bucket asker deed }
    ensures denied { (user : UserView) (account : List ℕ) (bucket : Option BucketOf) (deed : DeedOf)
        → ¬ (Grants account bucket (Some user) deed) → verdict_of (Some user) account bucket deed ≡ Denied (rule_of deed) }
    ensures unknown { (account : List ℕ) (bucket : Option BucketOf) (deed : DeedOf)
        → ¬ (Grants account bucket None deed) → verdict_of None account bucket deed ≡ Unknown }
{}

/// What is judged without a look at the container: whether somebody may act on an account, and that
/// nobody unknown changes an object.
pub fn judged_without_a_container()
    ensures accounts { (asker : Option UserView) (account : List ℕ) (bucket : Option BucketOf)
        → verdict_of asker account bucket OwnAccount ≡ verdict_of asker account None OwnAccount }
    ensures changes { (account : List ℕ) (bucket : Option BucketOf)
        → verdict_of None account bucket ChangeThing ≡ Unknown }
{}

/// Who sends no token is not told which containers exist: where the verdict is not that it is granted, it
/// is the verdict of no container.
pub fn absent_and_private_look_alike()
    ensures { (account : List ℕ) (bucket : Option BucketOf) (deed : DeedOf)
        → (verdict_of None account bucket deed ≡ Granted) ⊎ (verdict_of None account bucket deed ≡ verdict_of None account None deed) }
{}
