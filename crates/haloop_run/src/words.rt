ghost use Rattle.std.specs.Prelude.{◌≡◌, ◌≢◌, IfSome, IfNone, IsTrue, ◌↔◌, [], None};
ghost use Rattle.std.specs.Option.{option_copied};
ghost use Rattle.haloop_run.specs.Words.{AskFor, AskForNone, AskNoCheck, AskToCheck, texts, words_of};
ghost use Rattle.haloop_run.specs.steps.Words.{IsNamed, asked_by};

/// What `run` or `plain` names: the program's file, the schedule's file for `run` and none for `plain`, and the
/// folder for the part files.
#[derive(Drop)]
pub(crate) struct Command<'a> {
    pub(crate) program: &'a str,
    pub(crate) schedule: Option<&'a str>,
    pub(crate) out: &'a str,
}

/// What `run` or `plain` names, where the words ask for one of them. docs/FORMATS.md, "Words".
pub(crate) fn asked_command(words: &[String]) -> Option<Command<'_>>
    ensures found { IfSome result (λ command. AskFor (texts words.now) (asked_by command)) }
    ensures only { IfNone result (AskForNone (texts words.now)) }
{
    match words {
        [word, program, out] if word.as_str() == "plain" => {
            named(program.as_str(), None, out.as_str())
        }
        [word, program, schedule, out] if word.as_str() == "run" => {
            named(program.as_str(), Some(schedule.as_str()), out.as_str())
        }
        _ => None,
    }
}

/// The name of the program's file, where the words ask for the verdicts on it. docs/FORMATS.md, "Words".
pub(crate) fn asked_check(words: &[String]) -> Option<&str>
    ensures found { IfSome result (λ name. AskToCheck (texts words.now) name.now) }
    ensures only { IfNone result (AskNoCheck (texts words.now)) }
{
    match words {
        [word, program] if word.as_str() == "check" && !program.is_empty() => {
            Some(program.as_str())
        }
        _ => None,
    }
}

/// The command of these names, unless one of them is empty.
fn named<'a>(program: &'a str, schedule: Option<&'a str>, out: &'a str) -> Option<Command<'a>>
    ensures { IsNamed program.now (option_copied schedule.entry) out.now result }
{
    if program.is_empty() || out.is_empty() || schedule.is_some_and(|name| name.is_empty()) {
        return None;
    }
    Some(Command {
        program,
        schedule,
        out,
    })
}
