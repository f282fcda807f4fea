//! What the reports of the program mean: laws that tie texts, histories, books and the check to each other.
//!
//! The report of a finished book is right, and `yes` means that a text is the report of a legal book: [`check_report`]
//! answers it exactly then, and else names the first rule that is broken, with its line. Reports are unambiguous: no
//! text is a report of two histories, and none has two verdicts.
//!
//! Below these stand laws of what a report can tell: where the parts of an input stand in its text makes no difference
//! to what its book means; scripts without faults answer, and leave, what can stand in a report; and what is read from
//! a text that is UTF-8 has texts that are UTF-8, which a run keeps.
//!
//! Texts tell who may meet: in each legal book, what a statement demands by its text may be met, by the text alone, by
//! a statement of its joint answer. So a script that stands in no closed set of scripts isn't answered whole, whatever
//! the tables say.
//!
//! Each limit of the product is stated as the number that a user reads, twice: of its constant, and of what it limits.
//! So neither can change unnoticed. The functions here have no body but calls of laws.
#![tactic(auto)]

mod answer_law;
mod character_law;
mod characters;
mod check;
mod finished_law;
mod keeping;
mod limit_law;
mod meeting_law;
mod report_law;
mod right_law;
mod running_law;
mod unambiguous_law;
mod unplaced_law;
mod verdict_law;
mod within;

pub use answer_law::{
    groundings_can_be_told, read_views_can_be_told, runs_answer_what_can_be_told,
    scripts_answer_what_can_be_told, statements_answer_what_can_be_told, tables_can_be_told,
    told_openings_hold_rows,
};
pub use character_law::{
    books_of_characters_have_reports_of_characters,
    histories_of_characters_have_texts_of_characters, quotes_are_doubled_among_characters,
    texts_of_characters_say_characters,
};
pub use characters::reports_over_texts_are_of_characters;
pub use check::{check_report, check_text};
pub use finished_law::{
    books_over_texts_can_be_reported, fates_count_runs, finished_books_can_be_reported,
    joint_answers_come_by_number, read_openings_can_be_shown, reports_of_finished_books_are_right,
};
pub use keeping::{
    groundings_keep_texts, runs_keep_texts, statements_keep_texts, tables_keep_texts,
};
pub use limit_law::{
    inputs_are_16_777_216_bytes_at_most, limits_are_numbers, members_are_64_at_most,
    scripts_are_10_000_at_most,
};
pub use meeting_law::{
    answered_demands_may_be_met, committed_scripts_are_closed, parties_are_of_statements,
    patterns_of_one_row_may_meet, texts_cover_what_is_given, texts_know_what_is_seen,
};
pub use report_law::reports_of_the_program_are_right;
pub use right_law::{
    books_are_told_by_their_reports, legal_books_keep_to_declared_tables,
    reports_of_legal_books_are_right, reports_of_legal_books_are_told,
};
pub use running_law::{
    joint_demands_may_be_met, passed_demands_may_be_met, whole_groups_are_closed,
};
pub use unambiguous_law::{
    texts_have_one_verdict, texts_stop_at_one_line, texts_tell_of_one_history,
    things_stand_at_one_line, told_texts_have_no_form_fault, told_texts_of_characters_are_reports,
};
pub use unplaced_law::{
    faults_are_the_same_without_places, legal_books_are_legal_without_places,
    openings_are_the_same_without_places, reports_are_the_same_without_places,
    runs_are_the_same_without_places, statements_mean_the_same_without_places,
};
pub use verdict_law::{
    books_of_told_histories_are_told, reports_tell_books_apart,
    yes_is_said_of_reports_of_legal_books,
};
pub use within::{
    create_is_within, delete_is_within, entangled_is_within, input_is_within, insert_is_within,
    items_are_within, members_are_within, name_is_within, opening_row_is_within, report_is_within,
    script_is_within, select_is_within, table_is_within, text_is_within, tuple_is_within,
    update_is_within,
};
