//! What all threads of a crew know.
ghost use Rattle.std.specs.Prelude.{Bool, true};
ghost use Rattle.wm_ast.specs.declared.module.Module.{Module};
ghost use Rattle.wm_run.specs.declared.plan.Plan.{Plan};
ghost use Rattle.wm_run.specs.Crew.{no_module, no_plan};

use std::marker::Brand;

/// What all threads of a crew know: the module and the plan of their rounds, and whether their gate is open. The call
/// that makes the crew chooses them.
pub trait Assigned {
    /// The module whose threads run.
    ghost program: { Module };

    /// The plan of each round.
    ghost plan: { Plan };

    /// Whether the gate is open.
    ghost is_open: { Bool };
}

impl Assigned for Brand {
    ghost program = { no_module };

    ghost plan = { no_plan };

    ghost is_open = { true };
}
