//! What a fault of a memory rule needs of the witness.
ghost use Rattle.std.specs.Prelude.{◌≡◌, ◌++◌, IfOk, OnOk};
ghost use Rattle.wm_writers.specs.Needs.{needs, own_needs, step_needs};

use std::alloc::{AllocError, Global};
use wm_event::{EventId, EventKey, Rule, RuleFault};
use wm_hb::{FaultChain, LinkKind};
use wm_list::List;

/// That a read takes a byte from a writer.
#[derive(Clone, Copy)]
pub struct Need {
    pub reader: EventKey,
    pub writer: EventId,
    /// The byte of the read, counted from 0 at the lowest address; None if any byte will do.
    pub byte: Option<u8>,
}

/// What a fault needs for the read where it is.
fn add_own(needs: &mut List<Need>, fault: &RuleFault) -> Result<(), AllocError>
    ensures { OnOk result (needs.new ≡ needs.old ++ own_needs fault.now) }
{
    let need = Need {
        reader: fault.event,
        writer: fault.writer,
        byte: None,
    };
    match fault.rule {
        Rule::WrittenValues | Rule::Coherence => {
            needs.push(Need {
                byte: Some(fault.byte),
                ..need
            })?;
        }
        Rule::NoTearing => {
            needs.push(need)?;
            if let Some(writer) = fault.other {
                needs.push(Need { writer, ..need })?;
            }
        }
        Rule::Order | Rule::SequentialConsistency => (),
    }
    Ok(())
}

/// What a chain needs: for each write on it that synchronizes with a read, that the read reads from the write.
fn add_steps(needs: &mut List<Need>, chain: &FaultChain) -> Result<(), AllocError>
    ensures { OnOk result (needs.new ≡ needs.old ++ step_needs chain.now.from chain.now.links) }
{
    let mut writer = chain.from;
    for link in chain.links.as_slice() {
        if link.kind == LinkKind::Synchronizes {
            needs.push(Need {
                reader: link.event,
                writer,
                byte: None,
            })?;
        }
        writer = EventId::At(link.event);
    }
    Ok(())
}

/// What a fault needs, given these chains.
pub(crate) fn needs_of(
    alloc: Global,
    fault: &RuleFault,
    chains: &[FaultChain],
) -> Result<List<Need>, AllocError>
    ensures { IfOk result (λ list. list ≡ needs fault.now chains.now) }
{
    let mut needs = List::new(alloc);
    add_own(&mut needs, fault)?;
    for chain in chains {
        add_steps(&mut needs, chain)?;
    }
    Ok(needs)
}
