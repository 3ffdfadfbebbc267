//! Each law can be called.

use ags_deda::{
    clr_begins_anew, entries_send_their_digits, groups_are_displayed, hold_keeps_the_display,
    readouts_send_their_address, wrong_keys_light_the_light,
};
use ags_ports::run_laws::{
    StepFact, run_is_a_step_at_each_event, steps_of_a_run_are_those_of_its_parts,
};

/// That a step reports the location before it.
struct ReportsLocation;

impl StepFact for ReportsLocation {
    ghost use Rattle.std.specs.Prelude.{◌≡◌};

    ghost holds = { λ before event moment. moment.report.location ≡ before.location };
}

#[test]
fn laws_of_the_machine_can_be_called() {
    run_is_a_step_at_each_event::<ReportsLocation>();
    steps_of_a_run_are_those_of_its_parts::<ReportsLocation>();
    ags_machfile::laws::table_gives_each_order_its_number();
    ags_machfile::laws::shared_code_is_told_by_the_first_pair();
    ags_machfile::laws::wrong_value_is_told_before_a_missing_address();
    ags_machfile::laws::array_gives_each_entry_its_register();
    ags_machfile::laws::document_gives_the_machine_of_its_parts();
    ags_machfile::laws::file_says_what_its_document_says();
    ags_machfile::laws::file_gives_a_machine_or_a_fault();
    ags_machfile::laws::empty_file_gives_the_standard_machine();
    ags_timed::laws::each_state_has_one_timed_run();
    ags_device::laws::addresses_never_change();
    ags_device::laws::sensor_ramps();
    ags_device::laws::all_hear_in_order();
    clr_begins_anew();
    wrong_keys_light_the_light();
    entries_send_their_digits();
    readouts_send_their_address();
    groups_are_displayed();
    hold_keeps_the_display();
}

#[test]
fn laws_of_scripts_can_be_called() {
    ags_script::laws::lines_spell_what_is_read();
    ags_script::laws::script_means_one_thing();
    ags_script::laws::scripts_suit_their_machine();
    ags_play::laws::events_of_a_play_are_one_run();
    ags_play::laws::guarded_play_is_a_run_of_its_certificate();
    ags_play::laws::guarded_play_is_safe();
    ags_play::laws::acts_have_one_play();
    ags_play::laws::each_script_has_one_play();
    ags_play::laws::what_is_shown_lies_on_one_run();
    ags_play::laws::plays_follow_one_another();
    ags_play::laws::events_are_counted_for();
    ags_play::laws::unguarded_play_meets_nothing();
}
