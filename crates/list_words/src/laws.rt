//! Laws of listings: the functions here do nothing.
ghost use Rattle.std.specs.Prelude.{◌≡◌, ◌≢◌, ◌++◌, ◌∷◌, ℕ, true, false, List, None, Some, length, map};
ghost use Rattle.std.specs.FinMap.Entries.{is_sorted};
ghost use Rattle.object_words.specs.Names.{name_cmp};
ghost use Rattle.object_words.specs.Rows.{RowView};
ghost use Rattle.list_words.specs.declared.command.ListCommand.{ListCommand as CommandOf};
ghost use Rattle.list_words.specs.Listings.{begins_with, is_before, in_scope, is_past, subdir_of, key_of, most_rows, rows_of};

/// Keys rise with names. So nothing is in scope above a name past the scope, and the names under one
/// subdir follow one another; and no name is listed as itself that is a subdir of others.
pub fn keys_rise_with_names()
    ensures rise { (c : CommandOf) (m n : List ℕ)
        → begins_with m c.prefix ≡ true → begins_with n c.prefix ≡ true
        → is_before n m ≡ false → is_before (key_of c n) (key_of c m) ≡ false }
    ensures past { (c : CommandOf) (m n : List ℕ)
        → is_past c m ≡ true → is_before n m ≡ false → in_scope c n ≡ false }
    ensures together { (c : CommandOf) (m p n subdir : List ℕ)
        → begins_with m c.prefix ≡ true → begins_with n c.prefix ≡ true
        → subdir_of c m ≡ Some subdir → subdir_of c n ≡ Some subdir
        → is_before p m ≡ false → is_before n p ≡ false → subdir_of c p ≡ Some subdir }
    ensures apart { (c : CommandOf) (m n subdir : List ℕ)
        → begins_with m c.prefix ≡ true
        → subdir_of c m ≡ Some subdir → subdir_of c n ≡ None → subdir ≢ n }
{}

/// Names out of scope, further names of a subdir, and names behind the last row of a full listing change
/// no listing.
pub fn other_names_change_nothing()
    ensures outside { (c : CommandOf) (xs ys : List (List ℕ × RowView)) (e : List ℕ × RowView)
        → in_scope c e.0 ≡ false → rows_of c (xs ++ e ∷ ys) ≡ rows_of c (xs ++ ys) }
    ensures folded { (c : CommandOf) (xs ys : List (List ℕ × RowView)) (x e : List ℕ × RowView) (subdir : List ℕ)
        → in_scope c x.0 ≡ true
        → subdir_of c x.0 ≡ Some subdir → subdir_of c e.0 ≡ Some subdir
        → rows_of c (xs ++ x ∷ e ∷ ys) ≡ rows_of c (xs ++ x ∷ ys) }
    ensures behind { (c : CommandOf) (xs ys : List (List ℕ × RowView))
        → length (rows_of c xs) ≡ most_rows c → rows_of c (xs ++ ys) ≡ rows_of c xs }
{}
