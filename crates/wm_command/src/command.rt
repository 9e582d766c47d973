//! The command line.
ghost use Rattle.std.specs.Prelude.{◌≡◌, ◌∷◌, [], false, Err, IfOk, IfSome, None, Some, codes, fold, map};
ghost use Rattle.clap.specs.Words.{app_of, first_of, kind_of, rule_of, subcommand_rows_of};
ghost use Rattle.wm_command.specs.Commands.{AddsAs, HasFields, IsCommand, IsNamed, IsNoCommand, LacksField, Means, NamesNoCommand, absent_of_task, any_words_rule, checked_form, document_task_name, fault_of_kind, file_form, form_app, form_in, form_of, forms, log_form, optional_rule, plain_form, required_of, rows_in, run_task_name, search_form, started_form, with_form, wmlab_app, word_rule};
ghost use Rattle.wm_command.specs.declared.command.Command.{Command};
ghost use Rattle.wm_command.specs.declared.command.CommandFault.TheVariants.{OutOfMemory, Words};

use clap::error::ErrorKind;
use clap::{Arg, ArgAction, ArgMatches, Command as Parser, Error};
use std::alloc::{AllocError, Global};

/// What is asked about the run of a document over a module.
#[derive(Clone, Copy)]
pub enum RunTask {
    /// Checks the run.
    Check,
    /// Prints the document with the steps and the ends that its module gives it.
    Complete,
    /// Completes the document against its module, and checks it.
    Verify,
    /// Checks the run, and lists its data races by instructions.
    Races,
    /// Checks the run, and explains the answer.
    Explain,
    /// Checks the run, and draws it.
    Graph,
}

/// What is asked about a document alone.
#[derive(Clone, Copy)]
pub enum DocumentTask {
    /// Judges its run by the memory rules.
    Rules,
    /// Prints it in version 2.
    Migrate,
    /// Judges its run by the memory rules, and lists its data races by events.
    Races,
    /// Judges its run by the memory rules, and explains the answer.
    Explain,
    /// Judges its run by the memory rules, and draws it.
    Graph,
}

/// What is asked about each line of the input, a document over a module.
#[derive(Clone, Copy)]
pub enum LineTask {
    /// Completes the document against its module, and checks it.
    Verify,
    /// Completes the document against its module, and searches for a witness.
    Witness,
}

/// The words of `witness` after its name. Its reader tells which of them is a module, a document or a number of nodes.
#[derive(Clone, Copy)]
pub enum WitnessWords<'a> {
    One(&'a str),
    Two(&'a str, &'a str),
    Three(&'a str, &'a str, &'a str),
}

/// A command of the program.
#[derive(Clone, Copy)]
pub enum Command<'a> {
    /// Answers what is asked about the run of a document over a module.
    OfRun {
        task: RunTask,
        module: &'a str,
        document: &'a str,
    },
    /// Answers what is asked about a document alone.
    OfDocument {
        task: DocumentTask,
        document: &'a str,
    },
    /// Searches for a witness of a document, over a module or alone.
    Witness {
        words: WitnessWords<'a>,
    },
    /// Answers what is asked about each line of the input as a document over a module.
    Stream {
        task: LineTask,
        module: &'a str,
    },
    /// Plays a script over a module; the remaining words are the starts of its threads.
    Drive {
        module: &'a str,
        turns: &'a str,
    },
    /// Plays a script over a module, and shows each of its turns.
    Trace {
        module: &'a str,
        turns: &'a str,
    },
    /// Makes this number of rounds of a module's threads; the remaining words are the starts of the threads.
    Run {
        module: &'a str,
        rounds: &'a str,
    },
    /// Lists the outcomes that the memory rules permit of a module; the remaining words are the starts of its threads.
    Explore {
        module: &'a str,
        events: &'a str,
    },
    /// Prints a document for each of these outcomes.
    Witnesses {
        module: &'a str,
        events: &'a str,
    },
    /// Prints how the program is used.
    Help,
    /// Prints the version.
    Version,
}

/// Why the words are not a command.
#[derive(Clone, Copy)]
pub enum CommandFault {
    /// The words are those of no command.
    Words,
    /// An allocation failed.
    OutOfMemory,
}

impl From<AllocError> for CommandFault {
    ghost from_gives = { λ _ fault. fault ≡ OutOfMemory };

    fn from(_refused: AllocError) -> CommandFault {
        CommandFault::OutOfMemory
    }
}

impl From<Error> for CommandFault {
    ghost from_gives = { λ error fault. fault ≡ fault_of_kind (kind_of error) };

    fn from(error: Error) -> CommandFault {
        match error.kind() {
            ErrorKind::OutOfMemory => CommandFault::OutOfMemory,
            _ => CommandFault::Words,
        }
    }
}

/// A required word.
fn word<'a>(alloc: Global, name: &'a str) -> Arg<'a>
    ensures rule { rule_of result ≡ word_rule name.now }
    ensures own { result.global ≡ false }
{
    Arg::new(alloc, name).required(true).action(ArgAction::Set)
}

/// An optional word.
fn optional_word<'a>(alloc: Global, name: &'a str) -> Arg<'a>
    ensures rule { rule_of result ≡ optional_rule name.now }
    ensures own { result.global ≡ false }
{
    Arg::new(alloc, name).action(ArgAction::Set)
}

/// Any number of words.
fn any_words<'a>(alloc: Global, name: &'a str) -> Arg<'a>
    ensures rule { rule_of result ≡ any_words_rule name.now }
    ensures own { result.global ≡ false }
{
    Arg::new(alloc, name)
        .num_args(0..)
        .action(ArgAction::Append)
}

/// A command without further words.
fn plain_parser<'a>(alloc: Global, name: &'a str) -> Parser<'a>
    ensures { AddsAs (form_app (plain_form name.now)) result }
{
    Parser::new(alloc, name)
}

/// A command with one file.
fn file_parser<'a>(alloc: Global, name: &'a str) -> Result<Parser<'a>, AllocError>
    ensures { IfOk result (AddsAs (form_app (file_form name.now))) }
{
    Parser::new(alloc, name).arg(word(alloc, "file"))
}

/// A command with a module and a document.
fn checked_parser<'a>(alloc: Global, name: &'a str) -> Result<Parser<'a>, AllocError>
    ensures { IfOk result (AddsAs (form_app (checked_form name.now))) }
{
    Parser::new(alloc, name)
        .arg(word(alloc, "file"))?
        .arg(word(alloc, "document"))
}

/// A command with a document, or with a module and a document.
fn log_parser<'a>(alloc: Global, name: &'a str) -> Result<Parser<'a>, AllocError>
    ensures { IfOk result (AddsAs (form_app (log_form name.now))) }
{
    Parser::new(alloc, name)
        .arg(word(alloc, "file"))?
        .arg(optional_word(alloc, "document"))
}

/// A command with a document, or with a module and a document, and with a number of nodes after them.
fn search_parser<'a>(alloc: Global, name: &'a str) -> Result<Parser<'a>, AllocError>
    ensures { IfOk result (AddsAs (form_app (search_form name.now))) }
{
    Parser::new(alloc, name)
        .arg(word(alloc, "file"))?
        .arg(optional_word(alloc, "document"))?
        .arg(optional_word(alloc, "nodes"))
}

/// A command with a module, a word `how`, and starts of threads.
fn started_parser<'a>(alloc: Global, name: &'a str, how: &'a str) -> Result<Parser<'a>, AllocError>
    ensures { IfOk result (AddsAs (form_app (started_form name.now how.now))) }
{
    Parser::new(alloc, name)
        .arg(word(alloc, "file"))?
        .arg(word(alloc, how))?
        .arg(any_words(alloc, "start"))
}

/// The words of a command after its name.
#[derive(Clone, Copy)]
enum Shape {
    Plain,
    File,
    /// A module and a document.
    Checked,
    /// A document, or a module and a document.
    Log,
    /// A document, or a module and a document, and a number of nodes.
    Search,
    /// A module, a script and starts of threads.
    Turns,
    /// A module, a number of rounds and starts of threads.
    Rounds,
    /// A module, a number of events and starts of threads.
    Events,
}

/// A command whose words have this shape.
fn shaped_parser<'a>(alloc: Global, name: &'a str, shape: Shape) -> Result<Parser<'a>, AllocError>
    ensures { IfOk result (AddsAs (form_app (form_of name.now shape))) }
{
    match shape {
        Shape::Plain => Ok(plain_parser(alloc, name)),
        Shape::File => file_parser(alloc, name),
        Shape::Checked => checked_parser(alloc, name),
        Shape::Log => log_parser(alloc, name),
        Shape::Search => search_parser(alloc, name),
        Shape::Turns => started_parser(alloc, name, "turns"),
        Shape::Rounds => started_parser(alloc, name, "rounds"),
        Shape::Events => started_parser(alloc, name, "events"),
    }
}

/// Adds a command whose words have this shape.
fn with_command<'a>(
    alloc: Global,
    parser: Parser<'a>,
    name: &'a str,
    shape: Shape,
) -> Result<Parser<'a>, AllocError>
    ensures { IfOk result (λ more. app_of more ≡ with_form (app_of parser.entry) (form_of name.now shape)) }
{
    parser.subcommand(shaped_parser(alloc, name, shape)?)
}

/// Adds each command of a table, in its order.
fn with_table<'a>(
    alloc: Global,
    mut parser: Parser<'a>,
    table: &[(&'a str, Shape)],
) -> Result<Parser<'a>, AllocError>
    ensures { IfOk result (λ more. app_of more ≡ fold with_form (app_of parser.entry) (map form_in table.now)) }
{
    for (name, shape) in table {
        parser = with_command(alloc, parser, *name, *shape)?;
    }
    Ok(parser)
}

/// Adds each command, in the order of the table.
fn with_commands<'a>(alloc: Global, parser: Parser<'a>) -> Result<Parser<'a>, AllocError>
    ensures { IfOk result (λ more. app_of more ≡ fold with_form (app_of parser.entry) forms) }
{
    let table = [
        ("rules", Shape::File),
        ("check", Shape::Checked),
        ("migrate", Shape::File),
        ("complete", Shape::Checked),
        ("verify", Shape::Checked),
        ("stream", Shape::File),
        ("decide", Shape::File),
        ("drive", Shape::Turns),
        ("trace", Shape::Turns),
        ("run", Shape::Rounds),
        ("races", Shape::Log),
        ("explain", Shape::Log),
        ("graph", Shape::Log),
        ("witness", Shape::Search),
        ("explore", Shape::Events),
        ("witnesses", Shape::Events),
        ("help", Shape::Plain),
        ("version", Shape::Plain),
    ];
    with_table(alloc, parser, &table)
}

/// The commands and their words.
fn parser<'a>(alloc: Global) -> Result<Parser<'a>, AllocError>
    ensures { IfOk result (λ parser. app_of parser ≡ wmlab_app) }
{
    let parser = Parser::new(alloc, "wmlab")
        .disable_help_flag(true)
        .disable_version_flag(true)
        .no_binary_name(true)
        .disable_help_subcommand(true)
        .subcommand_required(true);
    with_commands(alloc, parser)
}

/// The value of a required word.
fn one_word<'a>(words: &ArgMatches<'a>, name: &str) -> Option<&'a str>
    ensures some { IfSome result (λ value. first_of name.now (rows_in words.now) ≡ Some value.now) }
    ensures none { result ≡ None → LacksField (rows_in words.now) (name.now ∷ []) }
{
    words.get_str(name)
}

/// The values of two required words.
fn two_words<'a>(words: &ArgMatches<'a>, first: &str, second: &str) -> Option<(&'a str, &'a str)>
    ensures some { IfSome result (λ both. HasFields (rows_in words.now) ((first.now, both.0.now) ∷ (second.now, both.1.now) ∷ [])) }
    ensures none { result ≡ None → LacksField (rows_in words.now) (first.now ∷ second.now ∷ []) }
{
    let one = words.get_str(first)?;
    let two = words.get_str(second)?;
    Some((one, two))
}

/// A task over a document.
fn document_command<'a>(
    name: &str,
    task: DocumentTask,
    words: &ArgMatches<'a>,
) -> Option<Command<'a>>
    requires named { name.now ≡ document_task_name task }
    requires file { required_of name.now ≡ codes "file" ∷ [] }
    requires none_optional { absent_of_task task ≡ [] }
    ensures some { IfSome result (IsNamed name.now (rows_in words.now)) }
    ensures none { result ≡ None → NamesNoCommand name.now (rows_in words.now) }
{
    let document = one_word(words, "file")?;
    Some(Command::OfDocument { task, document })
}

/// A task over a module and a document.
fn run_command<'a>(name: &str, task: RunTask, words: &ArgMatches<'a>) -> Option<Command<'a>>
    requires named { name.now ≡ run_task_name task }
    requires both { required_of name.now ≡ codes "file" ∷ codes "document" ∷ [] }
    ensures some { IfSome result (IsNamed name.now (rows_in words.now)) }
    ensures none { result ≡ None → NamesNoCommand name.now (rows_in words.now) }
{
    let (module, document) = two_words(words, "file", "document")?;
    Some(Command::OfRun {
        task,
        module,
        document,
    })
}

/// A task over a module and a document if both are there, and else one over a document.
fn log_command<'a>(
    name: &str,
    of_run: RunTask,
    of_document: DocumentTask,
    words: &ArgMatches<'a>,
) -> Option<Command<'a>>
    requires run_named { name.now ≡ run_task_name of_run }
    requires document_named { name.now ≡ document_task_name of_document }
    requires file { required_of name.now ≡ codes "file" ∷ [] }
    ensures some { IfSome result (IsNamed name.now (rows_in words.now)) }
    ensures none { result ≡ None → NamesNoCommand name.now (rows_in words.now) }
{
    let file = one_word(words, "file")?;
    match one_word(words, "document") {
        Some(document) => Some(Command::OfRun {
            task: of_run,
            module: file,
            document,
        }),
        None => Some(Command::OfDocument {
            task: of_document,
            document: file,
        }),
    }
}

/// The search for a witness with its words.
fn witness_command<'a>(name: &str, words: &ArgMatches<'a>) -> Option<Command<'a>>
    requires named { name.now ≡ codes "witness" }
    requires file { required_of name.now ≡ codes "file" ∷ [] }
    ensures some { IfSome result (IsNamed name.now (rows_in words.now)) }
    ensures none { result ≡ None → NamesNoCommand name.now (rows_in words.now) }
{
    let first = one_word(words, "file")?;
    let words = match one_word(words, "document") {
        None => WitnessWords::One(first),
        Some(second) => match one_word(words, "nodes") {
            None => WitnessWords::Two(first, second),
            Some(third) => WitnessWords::Three(first, second, third),
        },
    };
    Some(Command::Witness { words })
}

/// The command of this name, with its words.
fn command_of<'a>(name: &str, words: &ArgMatches<'a>) -> Option<Command<'a>>
    ensures some { IfSome result (IsNamed name.now (rows_in words.now)) }
    ensures none { result ≡ None → NamesNoCommand name.now (rows_in words.now) }
{
    match name {
        "rules" => document_command(name, DocumentTask::Rules, words),
        "check" => run_command(name, RunTask::Check, words),
        "migrate" => document_command(name, DocumentTask::Migrate, words),
        "complete" => run_command(name, RunTask::Complete, words),
        "verify" => run_command(name, RunTask::Verify, words),
        "stream" => {
            let module = one_word(words, "file")?;
            let task = LineTask::Verify;
            Some(Command::Stream { task, module })
        }
        "decide" => {
            let module = one_word(words, "file")?;
            let task = LineTask::Witness;
            Some(Command::Stream { task, module })
        }
        "drive" => {
            let (module, turns) = two_words(words, "file", "turns")?;
            Some(Command::Drive { module, turns })
        }
        "trace" => {
            let (module, turns) = two_words(words, "file", "turns")?;
            Some(Command::Trace { module, turns })
        }
        "run" => {
            let (module, rounds) = two_words(words, "file", "rounds")?;
            Some(Command::Run { module, rounds })
        }
        "races" => log_command(name, RunTask::Races, DocumentTask::Races, words),
        "explain" => log_command(name, RunTask::Explain, DocumentTask::Explain, words),
        "graph" => log_command(name, RunTask::Graph, DocumentTask::Graph, words),
        "witness" => witness_command(name, words),
        "explore" => {
            let (module, events) = two_words(words, "file", "events")?;
            Some(Command::Explore { module, events })
        }
        "witnesses" => {
            let (module, events) = two_words(words, "file", "events")?;
            Some(Command::Witnesses { module, events })
        }
        "help" => Some(Command::Help),
        "version" => Some(Command::Version),
        _ => None,
    }
}

/// The command that was named, with its words.
fn named<'a>(matches: &ArgMatches<'a>) -> Option<Command<'a>>
    ensures some { IfSome result (Means (subcommand_rows_of matches.now)) }
    ensures none { result ≡ None → (command : Command) → Means (subcommand_rows_of matches.now) command → ⊥ }
{
    let (name, words) = matches.subcommand()?;
    command_of(name, words)
}

/// The command that `words`, those after the program's name, are by clap's model of the parse. No command has a word
/// other than `-` that begins with `-`.
///
/// # Errors
///
/// `Words` if they are those of no command, `OutOfMemory` if an allocation fails.
pub fn read_command<'a>(alloc: Global, words: &'a [&'a str]) -> Result<Command<'a>, CommandFault>
    ensures read { IfOk result (IsCommand (map (λ word. word.now) words.now)) }
    ensures refused { result ≡ Err Words → IsNoCommand (map (λ word. word.now) words.now) }
{
    // clap takes `--` as the end of the options.
    if words.contains(&"--") {
        return Err(CommandFault::Words);
    }
    let matches = parser(alloc)?.try_get_matches_from(words)?;
    match named(&matches) {
        Some(command) => Ok(command),
        None => Err(CommandFault::Words),
    }
}
