//! The words of each command, as people read them.

/// The words that the command of this name takes after its name, as `help` has them; None if there is no such command.
pub(crate) fn usage_of(name: &str) -> Option<&'static str> {
    match name {
        "rules" | "migrate" => Some(" DOC"),
        "check" | "complete" | "verify" => Some(" MODULE DOC"),
        "stream" | "decide" => Some(" MODULE"),
        "drive" | "trace" => Some(" MODULE TURNS START.."),
        "run" => Some(" MODULE ROUNDS START.."),
        "races" | "explain" | "graph" => Some(" [MODULE] DOC"),
        "witness" => Some(" [MODULE] DOC [NODES]"),
        "explore" | "witnesses" => Some(" MODULE EVENTS START.."),
        "help" | "version" => Some(""),
        _ => None,
    }
}
