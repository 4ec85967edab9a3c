//! Laws that can be called.
use command_lists::{any_cut, lines_are_parts, parts_are_taken, words_are_alone};
use idle_notes::{channel_names_are_each_once, clients_stay_apart, hears_where_one_listens};

#[test]
fn laws_can_be_called() {
    channel_names_are_each_once();
    clients_stay_apart();
    hears_where_one_listens();
    words_are_alone();
    any_cut();
    parts_are_taken();
    lines_are_parts();
}
