//! The laws at once. Those of a domain stand at both domains: a law of a type parameter is proved from its bound alone.

use ags_check::answer_laws::{
    each_case_has_an_answer, each_certificate_has_a_verdict, each_certificate_is_answered,
    each_row_has_a_code, refusal_tells_the_first_fault,
};
use ags_domain::{Domain, Range, Value};
use ags_safe::laws::{
    accepted_certificates_are_safe, accepted_is_that_no_item_fails, each_certificate_has_a_start,
    first_fault_is_one,
};
use ags_safe::post_laws::{
    case_has_one_answer, code_has_the_word_of_each_state, covering_row_holds_what_agrees,
    one_step_follows_the_posts, posts_go_to_locations, step_that_follows_keeps_cells_in_limits,
};
use ags_verdict::laws::{
    accepted_certificates_are_certified, cases_are_each_word_with_each_index_and_indicator,
    certificate_has_one_verdict, refusal_tells_what_fails_first,
    row_is_judged_by_the_rows_that_its_posts_go_to,
};

/// The laws of a domain.
fn laws_at<D: Domain>() {
    one_step_follows_the_posts::<D>();
    covering_row_holds_what_agrees::<D>();
    step_that_follows_keeps_cells_in_limits::<D>();
    case_has_one_answer::<D>();
    code_has_the_word_of_each_state::<D>();
    posts_go_to_locations::<D>();
    accepted_certificates_are_safe::<D>();
    each_certificate_has_a_start::<D>();
    accepted_is_that_no_item_fails::<D>();
    first_fault_is_one::<D>();
    accepted_certificates_are_certified::<D>();
    cases_are_each_word_with_each_index_and_indicator::<D>();
    certificate_has_one_verdict::<D>();
    refusal_tells_what_fails_first::<D>();
    row_is_judged_by_the_rows_that_its_posts_go_to::<D>();
}

#[test]
fn laws(_rt: HostRuntime) {
    laws_at::<Range>();
    laws_at::<Value>();
    each_case_has_an_answer();
    each_row_has_a_code();
    each_certificate_has_a_verdict();
    each_certificate_is_answered();
    refusal_tells_the_first_fault();
}
