//! Events, each as a line has it.
ghost use Rattle.std.specs.Prelude.{◌≡◌, ◌++◌, codes, IfOk};
ghost use Rattle.ent_picture.specs.Trace.{event_line};

use crate::exchange::Event;
use crate::words::{Read, divided, misfit, whole_number};

/// The event of a line.
pub(crate) fn event(line: &str) -> Read<Event>
    ensures ok { IfOk result (λ event. line.now ≡ event_line event) }
{
    match line {
        "start_run" => Ok(Event::StartRun),
        "pick" => Ok(Event::Pick),
        "break_cycle" => Ok(Event::BreakCycle),
        "end_run" => Ok(Event::EndRun),
        "recall" => Ok(Event::Recall),
        _ => match divided(line) {
            Some((word, about)) => event_about(word, about),
            None => misfit(),
        },
    }
}

fn event_about(word: &str, about: &str) -> Read<Event>
    ensures ok { IfOk result (λ event. word.now ++ (codes " " ++ about.now) ≡ event_line event) }
{
    let number = whole_number(about)?;
    match word {
        "begin" => Ok(Event::Begin(number)),
        "finish" => Ok(Event::Finish(number)),
        "join_answer" => Ok(Event::JoinAnswer(number)),
        _ => misfit(),
    }
}
