//! What holds of the instructions that make events, in a module that bytes spell.
ghost use Rattle.std.specs.Prelude.{ℕ, List};
ghost use Rattle.wm_ast.specs.declared.module.Module.{Module};
ghost use Rattle.wm_decode.specs.Module.{SpellsWithin};
ghost use Rattle.wm_event.specs.declared.log.ThreadLog.{ThreadLog};
ghost use Rattle.wm_machine.specs.declared.thread.CodePosition.{CodePosition};
ghost use Rattle.wm_replay.specs.Positions.{IsMadeAt};
ghost use Rattle.wm_races.specs.declared.site.Site.{Site};
ghost use Rattle.wm_sites.specs.Opcodes.{HasOpcode, HaveOpcodes};
ghost use Rattle.wm_sites.specs.Sites.{AreEventSites, Code};

/// In a module that bytes spell, each event of a thread is made at an opcode, which has a number below 1,048,576 in its
/// function and begins at a byte offset (Core 1.0, sections 5.4 and 5.5.13).
pub fn made_at_opcodes()
    ensures { (bytes : List ℕ) (m : Module) (k : ℕ) (t : ThreadLog) (n : ℕ) (p : CodePosition)
        → SpellsWithin bytes m → IsMadeAt m k t n p → HasOpcode bytes m p }
{}

/// In a module that bytes spell, the site that [`event_sites`](crate::event_sites) gives for an event that its thread makes
/// is that of the opcode at which it is made, and never the first instruction of function 0 in its place.
pub fn made_events_have_sites()
    ensures { (code : Code) (log : List ThreadLog) (sites : List (List Site))
        → SpellsWithin code.bytes code.module → AreEventSites code log sites → HaveOpcodes code log sites }
{}
