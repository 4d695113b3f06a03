//! Laws of the definitions: the functions here do nothing.
ghost use Rattle.std.specs.Prelude.{◌≡◌, ◌∷◌, [], ℕ, List, None, Some, false, true};
ghost use Rattle.omap_pages.specs.Rows.{value_at};
ghost use Rattle.object_pool.specs.Objects.{Object as ObjectOf, nothing};
ghost use Rattle.object_words.specs.declared.why.Why.TheVariants.{Trimmed};
ghost use Rattle.object_words.specs.Logs.{Log as LogOf, log_page, no_log, trimmed_refusal};
ghost use Rattle.class_words.specs.LogRows.{logged_at};
ghost use Rattle.cls_log.specs.Examples.{all_gone, row_at, two_rows};
ghost use Rattle.cls_log.specs.LogObjects.{IsLogObject};

/// An object that does not exist is a log that has no row yet.
pub fn no_object_is_the_empty_log()
    ensures { IsLogObject nothing no_log }
{}

/// A log's object has under each key what the log has there.
pub fn a_log_object_has_the_rows_of_its_log()
    ensures { (o : ObjectOf) (log : LogOf) (key : List ℕ) → IsLogObject o log → value_at o.rows.rows key ≡ logged_at log key }
{}

/// Pages of a log that keeps the rows 4 and 6 and gave 7, and of one that keeps none.
pub fn pages_of_logs_are_these()
    ensures first { log_page two_rows 0 3 1 ≡ record { rows = row_at 4 ∷ []; last = 7; first = 4; tags = 0; end = false } }
    ensures behind { log_page two_rows 0 4 1 ≡ record { rows = row_at 6 ∷ []; last = 7; first = 4; tags = 0; end = true } }
    ensures trimmed { trimmed_refusal two_rows 2 ≡ Some (Trimmed 4) }
    ensures kept { trimmed_refusal two_rows 3 ≡ None }
    ensures none { log_page all_gone 0 7 1 ≡ record { rows = []; last = 7; first = 8; tags = 0; end = true } }
    ensures all_trimmed { trimmed_refusal all_gone 6 ≡ Some (Trimmed 8) }
{}
