//! Histories that are legal but for their last event.
#![tactic(auto, unfolding(object_words::specs::Names::at, object_words::specs::Names::none, object_words::specs::Names::with_name, object_words::specs::Names::where_name, object_words::specs::Names::without_name, object_words::specs::Names::entries))]

ghost use Rattle.realm_model.specs.Histories.{IsRefusedAt};
ghost use Rattle.realm_model.specs.KnownWords as words;
ghost use Rattle.realm_model.specs.RefusedChanges as changes;
ghost use Rattle.realm_model.specs.RefusedSteps as steps;
ghost use Rattle.realm_model.specs.RefusedTails as tails;
ghost use Rattle.realm_model.specs.RefusedRows as rows;
ghost use Rattle.realm_model.specs.RefusedClosings as closings;
ghost use Rattle.realm_model.specs.RefusedAmidst as amidst;

/// Each of these changes of a name is refused, and no event before it.
pub fn these_changes_are_refused()
    ensures unannounced { IsRefusedAt (words.set_to 16 16 16384 1000000) changes.unannounced 15 }
    ensures changed_twice { IsRefusedAt (words.set_to 16 16 16384 1000000) changes.changed_twice 17 }
    ensures later_deadline { IsRefusedAt (words.set_to 16 16 16384 1000000) changes.later_deadline 19 }
    ensures other_guard { IsRefusedAt (words.set_to 4194304 16 16384 1000000) changes.other_guard 11 }
    ensures other_name { IsRefusedAt (words.set_to 16 16 16384 120000000) changes.other_name 9 }
    ensures completed_unchanged { IsRefusedAt (words.set_to 4194304 16 16384 1000000) changes.completed_unchanged 7 }
    ensures other_version { IsRefusedAt words.usual changes.other_version 18 }
    ensures other_row { IsRefusedAt (words.set_to 16 16 16384 1000000) changes.other_row 11 }
    ensures completed_twice { IsRefusedAt words.usual changes.completed_twice 9 }
    ensures other_tag { IsRefusedAt (words.set_to 16 16 16384 5000000) changes.other_tag 16 }
    ensures other_shard { IsRefusedAt (words.set_to 16 16 16384 5000000) changes.other_shard 9 }
    ensures cancelled_changed { IsRefusedAt (words.set_to 16 16 16384 1000000) changes.cancelled_changed 8 }
    ensures cancelled_elsewhere { IsRefusedAt (words.set_to 16 16 16384 5000000) changes.cancelled_elsewhere 14 }
    ensures announced_when_closed { IsRefusedAt (words.two_zones 16 16 16384 1000000) changes.announced_when_closed 28 }
    ensures completed_elsewhere { IsRefusedAt (words.two_zones 16 16 16384 1000000) changes.completed_elsewhere 33 }
{}

/// Each of these steps is refused, and no event before it.
pub fn these_steps_are_refused()
    ensures shard_of_another { IsRefusedAt words.usual steps.shard_of_another 2 }
    ensures swapped_unread { IsRefusedAt words.usual steps.swapped_unread 3 }
    ensures unseen_instance { IsRefusedAt words.usual steps.unseen_instance 5 }
    ensures unnamed_shard { IsRefusedAt (words.set_to 4194304 16 16384 1000000) steps.unnamed_shard 10 }
    ensures prepared_unread { IsRefusedAt words.usual steps.prepared_unread 7 }
    ensures prepared_without_name { IsRefusedAt words.usual steps.prepared_without_name 5 }
    ensures prepared_with_long_name { IsRefusedAt words.usual steps.prepared_with_long_name 5 }
    ensures prepared_with_zero { IsRefusedAt words.usual steps.prepared_with_zero 5 }
    ensures prepared_twice { IsRefusedAt words.usual steps.prepared_twice 14 }
    ensures announced_elsewhere { IsRefusedAt (words.set_to 4194304 16 16384 1000000) steps.announced_elsewhere 6 }
    ensures announced_late { IsRefusedAt (words.set_to 16 16 3 5000000) steps.announced_late 15 }
    ensures other_revision { IsRefusedAt words.usual steps.other_revision 15 }
    ensures long_page { IsRefusedAt words.usual steps.long_page 6 }
    ensures empty_page { IsRefusedAt words.usual steps.empty_page 7 }
    ensures no_zone { IsRefusedAt words.usual steps.no_zone 1 }
    ensures other_id { IsRefusedAt words.usual steps.other_id 3 }
    ensures more_shards { IsRefusedAt words.usual steps.more_shards 3 }
    ensures made_over { IsRefusedAt words.usual steps.made_over 6 }
    ensures other_owner { IsRefusedAt words.usual steps.other_owner 5 }
    ensures other_instance { IsRefusedAt words.usual steps.other_instance 5 }
    ensures other_shards { IsRefusedAt words.usual steps.other_shards 5 }
    ensures other_number { IsRefusedAt words.usual steps.other_number 5 }
    ensures number_in_progress { IsRefusedAt words.usual steps.number_in_progress 5 }
    ensures taken_away { IsRefusedAt words.usual steps.taken_away 5 }
    ensures many_names { IsRefusedAt words.usual steps.many_names 1 }
    ensures no_names { IsRefusedAt words.usual steps.no_names 1 }
    ensures made_again { IsRefusedAt words.usual steps.made_again 5 }
    ensures head_first { IsRefusedAt words.usual steps.head_first 16 }
    ensures page_first { IsRefusedAt words.usual steps.page_first 16 }
    ensures suggested_early { IsRefusedAt words.usual steps.suggested_early 11 }
    ensures suggested_unread { IsRefusedAt words.usual steps.suggested_unread 15 }
    ensures suggested_newer { IsRefusedAt words.usual steps.suggested_newer 16 }
    ensures suggested_otherwise { IsRefusedAt words.usual steps.suggested_otherwise 16 }
{}

/// Each of these events on tails is refused, and no event before it.
pub fn these_tails_are_refused()
    ensures other_write { IsRefusedAt (words.set_to 16 16 16384 120000000) tails.other_write 5 }
    ensures part_skipped { IsRefusedAt (words.set_to 16 16 16384 120000000) tails.part_skipped 6 }
    ensures made_twice { IsRefusedAt (words.set_to 16 16 16384 120000000) tails.made_twice 7 }
    ensures too_long { IsRefusedAt (words.set_to 16 16 16384 120000000) tails.too_long 11 }
    ensures without_bytes { IsRefusedAt (words.set_to 16 16 16384 5000000) tails.without_bytes 13 }
    ensures part_left_out { IsRefusedAt (words.set_to 16 16 16384 1000000) tails.part_left_out 15 }
    ensures part_not_made { IsRefusedAt (words.set_to 16 16 16384 120000000) tails.part_not_made 11 }
    ensures tail_left_open { IsRefusedAt (words.set_to 16 16 16384 120000000) tails.tail_left_open 8 }
    ensures tails_of_another { IsRefusedAt (words.set_to 16 16 16384 120000000) tails.tails_of_another 9 }
    ensures made_anew { IsRefusedAt (words.set_to 16 16 16384 120000000) tails.made_anew 16 }
    ensures read_unseen { IsRefusedAt (words.small 16) tails.read_unseen 12 }
    ensures read_beyond { IsRefusedAt (words.small 16) tails.read_beyond 12 }
    ensures read_further { IsRefusedAt (words.small 16) tails.read_further 12 }
{}

/// Each of these makes and changes of rows is refused, and no event before it.
pub fn these_rows_are_refused()
    ensures number_left_out { IsRefusedAt (words.set_to 16 16 16384 120000000) rows.number_left_out 2 }
    ensures shard_in_another_instance { IsRefusedAt (words.set_to 16 16 16384 120000000) rows.shard_in_another_instance 2 }
    ensures made_too_early { IsRefusedAt (words.set_to 16 16 16384 120000000) rows.made_too_early 2 }
    ensures made_with_more { IsRefusedAt (words.set_to 16 16 16384 120000000) rows.made_with_more 3 }
    ensures made_of_none { IsRefusedAt (words.set_to 16 16 16384 120000000) rows.made_of_none 2 }
    ensures made_busy { IsRefusedAt (words.set_to 16 16 16384 120000000) rows.made_busy 3 }
    ensures shard_made_twice { IsRefusedAt (words.set_to 16 16 16384 120000000) rows.shard_made_twice 3 }
    ensures made_with_number { IsRefusedAt (words.set_to 16 16 16384 120000000) rows.made_with_number 3 }
    ensures other_version { IsRefusedAt (words.set_to 16 16 16384 120000000) rows.other_version 3 }
    ensures made_with_other_id { IsRefusedAt (words.set_to 16 16 16384 120000000) rows.made_with_other_id 4 }
    ensures other_instance_read { IsRefusedAt (words.set_to 16 16 16384 120000000) rows.other_instance_read 6 }
    ensures owner_changed { IsRefusedAt (words.set_to 16 16 16384 120000000) rows.owner_changed 7 }
    ensures count_changed { IsRefusedAt (words.set_to 16 16 16384 120000000) rows.count_changed 7 }
    ensures made_without_name { IsRefusedAt words.usual rows.made_without_name 3 }
    ensures made_with_long_name { IsRefusedAt words.usual rows.made_with_long_name 3 }
    ensures made_with_zero { IsRefusedAt words.usual rows.made_with_zero 3 }
    ensures number_changed { IsRefusedAt (words.set_to 16 16 16384 120000000) rows.number_changed 11 }
{}

/// Each of these begins, clears, closings, releases and removals is refused, and no event before it.
pub fn these_closings_are_refused()
    ensures begun_beyond { IsRefusedAt (words.set_to 16 16 16384 120000000) closings.begun_beyond 5 }
    ensures closed_unbegun { IsRefusedAt (words.set_to 16 16 16384 120000000) closings.closed_unbegun 8 }
    ensures begun_while_busy { IsRefusedAt (words.set_to 16 16 16384 120000000) closings.begun_while_busy 10 }
    ensures removed_by_reader { IsRefusedAt (words.set_to 16 16 16384 120000000) closings.removed_by_reader 10 }
    ensures shut_by_another { IsRefusedAt (words.set_to 16 16 16384 120000000) closings.shut_by_another 11 }
    ensures forced { IsRefusedAt (words.set_to 16 16 16384 1000000) closings.forced 12 }
    ensures removed_too_early { IsRefusedAt (words.set_to 16 16 16384 120000000) closings.removed_too_early 12 }
    ensures closed_by_another { IsRefusedAt (words.set_to 16 16 16384 120000000) closings.closed_by_another 12 }
    ensures begun_with_metadata { IsRefusedAt (words.set_to 16 16 16384 120000000) closings.begun_with_metadata 13 }
    ensures shut_beyond { IsRefusedAt (words.set_to 16 16 16384 120000000) closings.shut_beyond 13 }
    ensures removed_when_cleared { IsRefusedAt (words.set_to 16 16 16384 120000000) closings.removed_when_cleared 14 }
    ensures cleared_higher { IsRefusedAt (words.set_to 16 16 16384 5000000) closings.cleared_higher 15 }
    ensures released_live { IsRefusedAt (words.set_to 16 16 16384 120000000) closings.released_live 19 }
    ensures released_by_another { IsRefusedAt (words.set_to 16 16 16384 5000000) closings.released_by_another 26 }
    ensures released_above { IsRefusedAt (words.set_to 16 16 16384 120000000) closings.released_above 46 }
{}

/// Each of these events amidst those of containers is refused, and no event before it.
pub fn these_others_are_refused()
    ensures announced_otherwise { IsRefusedAt (words.set_to 16 16 16384 5000000) amidst.announced_otherwise 8 }
    ensures suggested_at_other_moment { IsRefusedAt (words.set_to 16 16 16384 1000000) amidst.suggested_at_other_moment 13 }
    ensures first_bytes_read { IsRefusedAt (words.set_to 16 16 16384 1000000) amidst.first_bytes_read 14 }
    ensures completed_when_cancelled { IsRefusedAt (words.set_to 16 16 16384 1000000) amidst.completed_when_cancelled 17 }
    ensures suggested_other_row { IsRefusedAt (words.set_to 16 16 16384 1000000) amidst.suggested_other_row 19 }
    ensures named_twice { IsRefusedAt (words.set_to 16 16 16384 120000000) amidst.named_twice 21 }
    ensures read_by_another { IsRefusedAt (words.set_to 16 16 2 5000000) amidst.read_by_another 22 }
    ensures changed_when_cancelled { IsRefusedAt (words.set_to 16 16 1 1000000) amidst.changed_when_cancelled 29 }
    ensures suggested_untagged { IsRefusedAt (words.set_to 16 16 16384 120000000) amidst.suggested_untagged 29 }
    ensures suggested_head_first { IsRefusedAt (words.set_to 4194304 16 16384 120000000) amidst.suggested_head_first 35 }
    ensures suggested_without_head { IsRefusedAt (words.set_to 4194304 16 16384 120000000) amidst.suggested_without_head 40 }
    ensures suggested_by_another { IsRefusedAt (words.set_to 4194304 16 16384 120000000) amidst.suggested_by_another 48 }
    ensures cancelled_twice { IsRefusedAt (words.set_to 16 16 3 120000000) amidst.cancelled_twice 54 }
    ensures other_size { IsRefusedAt (words.set_to 16 16 16384 1000000) amidst.other_size 11 }
    ensures read_past_the_part { IsRefusedAt (words.set_to 16 16 16384 120000000) amidst.read_past_the_part 49 }
{}
