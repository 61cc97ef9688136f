//! The laws of the layers below, brought together.
ghost use Rattle.express_cli.specs.Laws.{Laws};

use audit_once::servers_audit_once;
use batch_audit::{few_values_pass, sorts_are_one};
use file_carry::{answers_join, unwritten_is_missing};
use log_laws::logs_are_a_run;
use replay_world::{
    accepted_writes_pass, clients_get_answers, frames_are_heeded, histories_hold, mills_count,
    replies_are_one, requests_are_told, rows_are_awaited, runs_follow_protocol, schedules_fit,
    schedules_hold, strangers_were_brought,
};
use run_hiding::{
    flow_stays, runs_are_ideal, runs_fit_other_aims, sights_stay, strangers_tell_no_more,
    writes_add_up,
};
use run_laws::{draws_are_apart, frames_are_shown, owners_keep_theirs};
use run_sights::{clients_are_honest, helper_runs_stay, honest_writes_move, leader_runs_stay};
use settings_text::{carry_is_read_exactly, client_is_read_exactly, serve_is_read_exactly};
use step_hiding::worlds_have_the_tables;
use step_laws::{
    answers_are_own, draws_are_fresh, lanes_go_on, points_are_untold, refusals_have_causes,
};
use write_hiding::{
    adversaries_see_the_same, malicious_views_stay, malicious_writes_are_seen, views_stay,
    writes_are_choices,
};

/// What holds of every schedule, batch, game and file: the laws that stand on the top call. It does nothing.
pub fn laws()
    ensures { Laws }
{
    serve_is_read_exactly();
    client_is_read_exactly();
    carry_is_read_exactly();
    mills_count();
    schedules_fit();
    histories_hold();
    runs_follow_protocol();
    schedules_hold();
    requests_are_told();
    frames_are_heeded();
    replies_are_one();
    rows_are_awaited();
    strangers_were_brought();
    clients_get_answers();
    points_are_untold();
    refusals_have_causes();
    lanes_go_on();
    answers_are_own();
    logs_are_a_run();
    owners_keep_theirs();
    frames_are_shown();
    accepted_writes_pass();
    answers_join();
    unwritten_is_missing();
    sorts_are_one();
    few_values_pass();
    views_stay();
    writes_are_choices();
    malicious_views_stay();
    malicious_writes_are_seen();
    adversaries_see_the_same();
    servers_audit_once();
    helper_runs_stay();
    leader_runs_stay();
    honest_writes_move();
    clients_are_honest();
    worlds_have_the_tables();
    draws_are_apart();
    draws_are_fresh();
    runs_are_ideal();
    strangers_tell_no_more();
    sights_stay();
    runs_fit_other_aims();
    flow_stays();
    writes_add_up();
}
