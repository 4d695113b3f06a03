//! Laws of the definitions, and of what heads ask: each function here does nothing.
ghost use Rattle.std.specs.Prelude.{◌≡◌, ℕ, List, map, true, false};
ghost use Rattle.std.specs.List.{list_all};
ghost use Rattle.http1.specs.Fields.{elements};
ghost use Rattle.http_model.specs.declared.head.Head.{Head as HeadOf};
ghost use Rattle.swift_auth.specs.Lists.{parts_of, member_in};
ghost use Rattle.swift_auth.specs.Policies.{is_of};
ghost use Rattle.swift_auth.specs.Users.{UserView};
ghost use Rattle.swift_reply.specs.declared.reply.ListingForm.{ListingForm as FormOf};
ghost use Rattle.task_account.specs.declared.request.AccountCommand.{AccountCommand as AccountCommandOf};
ghost use Rattle.task_container.specs.declared.request.ContainerCommand.{ContainerCommand as ContainerCommandOf};
ghost use Rattle.task_words.specs.declared.asker.Asker.{Asker as AskerOf};
ghost use Rattle.swift_requests.specs.declared.asked.Asked.TheVariants.{Unfed};
ghost use Rattle.swift_requests.specs.declared.asked.UnfedCommand.TheVariants.{Account, Container};
ghost use Rattle.swift_requests.specs.Asks.{asked_of};
ghost use Rattle.swift_requests.specs.Etags.{is_field_byte};
ghost use Rattle.swift_requests.specs.Methods.{is_look};

/// The members of a list of ETags, before the quotes are dropped, are the elements of the standard
/// (RFC 9110, section 5.6.1), where the value has the bytes of a field value alone.
pub fn lists_are_those_of_the_standard()
    ensures { (value : List ℕ) → list_all is_field_byte value ≡ true → map member_in (parts_of value) ≡ elements value }
{}

/// Whose request on an account is not refused is a user of it, and so is whose change of a container is not.
pub fn only_users_of_the_account_may()
    ensures accounts { (largest : ℕ) (users : List UserView) (head : HeadOf) (asker : AskerOf) (command : AccountCommandOf) (form : FormOf)
        → asked_of largest users head ≡ Unfed asker (Account command form) → is_of asker.account asker.user ≡ true }
    ensures changes { (largest : ℕ) (users : List UserView) (head : HeadOf) (asker : AskerOf) (command : ContainerCommandOf)
        → asked_of largest users head ≡ Unfed asker (Container command) → is_look head ≡ false → is_of asker.account asker.user ≡ true }
{}
