//! Events, each as a line has it.
use crate::text::WrittenText;
use ent_sched::MadeEvent;

/// The line of an event, where the mark of a result is the number of its job, counted from 1 as jobs are lent.
pub(crate) fn put_event(text: &mut WrittenText, told: &MadeEvent<u64>) {
    match told {
        MadeEvent::StartRun => text.put("start_run"),
        MadeEvent::Begin(tx) => text.put_number("begin", *tx),
        MadeEvent::Finish(job) => text.put_number("finish", *job),
        MadeEvent::Pick => text.put("pick"),
        MadeEvent::JoinAnswer(job) => text.put_number("join_answer", *job),
        MadeEvent::BreakCycle => text.put("break_cycle"),
        MadeEvent::EndRun => text.put("end_run"),
        MadeEvent::Recall => text.put("recall"),
    }
    text.put("\n");
}
