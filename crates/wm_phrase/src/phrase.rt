//! Events, writers and ends in words.

use crate::writing::{write_id, write_number};
use std::fmt;
use wm_access::{AccessWidth, RmwOperator};
use wm_event::{End, Event, OpFields, OpKind};
use wm_hb::WriterRun;

/// A number of things, as `1 step` or `2 steps`.
#[derive(Clone, Copy)]
pub struct Count<'a>(pub u64, pub &'a str);

impl fmt::Display for Count<'_> {
    fn fmt<W: fmt::Write>(&self, f: &mut fmt::Formatter<W>) -> fmt::Result {
        let Count(number, thing) = *self;
        let ending = if number == 1 { "" } else { "s" };
        write!(f, "{number} {thing}{ending}")
    }
}

/// How an access is ordered.
fn order_word(atomic: bool) -> &'static str {
    if atomic { "atomic" } else { "plain" }
}

/// How values are written.
#[derive(Clone, Copy)]
pub enum ValueForm {
    Decimal,
    /// Also with each of its bytes in hex, the highest first.
    WithHex,
}

/// The bytes of an access of this width, before its address.
fn bytes_at(width: AccessWidth) -> &'static str {
    match width {
        AccessWidth::One => " of 1 byte at address ",
        AccessWidth::Two => " of 2 bytes at address ",
        AccessWidth::Four => " of 4 bytes at address ",
        AccessWidth::Eight => " of 8 bytes at address ",
    }
}

/// Whether an access is atomic, what it does, its range and its values.
#[derive(Clone, Copy)]
pub struct EventPhrase<'a> {
    pub event: &'a Event,
    pub form: ValueForm,
}

impl<'a> EventPhrase<'a> {
    /// An event with its values in decimal.
    pub fn decimal(event: &'a Event) -> Self {
        EventPhrase {
            event,
            form: ValueForm::Decimal,
        }
    }

    /// Whether the event is atomic, and what it does.
    fn deed(&self) -> &'static str {
        let event = self.event;
        match (event.is_atomic(), event.reads(), event.writes()) {
            (false, true, true) => "plain update",
            (false, true, false) => "plain read",
            (false, false, _) => "plain write",
            (true, true, true) => "atomic update",
            (true, true, false) => "atomic read",
            (true, false, _) => "atomic write",
        }
    }

    /// Writes a value of the event after these words.
    fn write_value<W: fmt::Write>(&self, out: &mut W, words: &str, value: u64) -> fmt::Result {
        out.write_str(words)?;
        match self.form {
            ValueForm::Decimal => write_number(out, value),
            ValueForm::WithHex => {
                let digits = usize::from(self.event.width.bytes()).saturating_mul(2);
                write!(out, "{value} (0x{value:0digits$x})")
            }
        }
    }

    /// Writes the phrase, as its `Display` does.
    ///
    /// # Errors
    ///
    /// Only if the writer fails.
    pub fn write_to<W: fmt::Write>(&self, out: &mut W) -> fmt::Result {
        let event = self.event;
        out.write_str(self.deed())?;
        out.write_str(bytes_at(event.width))?;
        write_number(out, u64::from(event.address))?;
        if !event.reads() {
            return self.write_value(out, ", which writes ", event.written);
        }
        self.write_value(out, ", which reads ", event.read)?;
        if event.writes() {
            self.write_value(out, " and writes ", event.written)
        } else {
            Ok(())
        }
    }
}

impl fmt::Display for EventPhrase<'_> {
    fn fmt<W: fmt::Write>(&self, f: &mut fmt::Formatter<W>) -> fmt::Result {
        self.write_to(f)
    }
}

/// The operator of an update, in words.
fn operator_word(operator: RmwOperator) -> &'static str {
    match operator {
        RmwOperator::Add => "adds",
        RmwOperator::Sub => "subtracts",
        RmwOperator::And => "ands",
        RmwOperator::Or => "ors",
        RmwOperator::Xor => "xors",
        RmwOperator::Xchg => "writes",
    }
}

/// What an access that hasn't been made does.
fn op_word(kind: OpKind) -> &'static str {
    match kind {
        OpKind::Read => "read",
        OpKind::Write(_) => "write",
        OpKind::Rmw(_, _) => "update",
        OpKind::CmpXchg(_, _) => "compare-exchange",
    }
}

/// An access that hasn't been made.
#[derive(Clone, Copy)]
pub struct OpPhrase(pub OpFields);

impl fmt::Display for OpPhrase {
    fn fmt<W: fmt::Write>(&self, f: &mut fmt::Formatter<W>) -> fmt::Result {
        let fields = self.0;
        let order = order_word(fields.order.is_atomic());
        let deed = op_word(fields.kind);
        let place = bytes_at(fields.width);
        let address = fields.address;
        write!(f, "{order} {deed}{place}{address}")?;
        match fields.kind {
            OpKind::Read => Ok(()),
            OpKind::Write(value) => write!(f, ", which writes {value}"),
            OpKind::Rmw(operator, operand) => {
                write!(f, ", which {} {operand}", operator_word(operator))
            }
            OpKind::CmpXchg(expected, new) => {
                write!(f, ", which writes {new} if it reads {expected}")
            }
        }
    }
}

/// The bytes of a read that each of several events wrote, as `byte 0 from 0.0, bytes 1 to 3 from init`.
#[derive(Clone, Copy)]
pub struct WritersPhrase<'a>(pub &'a [WriterRun]);

impl WritersPhrase<'_> {
    /// Writes the phrase.
    ///
    /// # Errors
    ///
    /// Only if the writer fails.
    pub fn write_to<W: fmt::Write>(&self, out: &mut W) -> fmt::Result {
        for (position, run) in self.0.iter().enumerate() {
            if position > 0 {
                out.write_str(", ")?;
            }
            write!(out, "{} from ", BytesPhrase(*run))?;
            write_id(out, run.writer)?;
        }
        Ok(())
    }
}

/// The bytes of a run, from the first to the last one.
#[derive(Clone, Copy)]
struct BytesPhrase(WriterRun);

impl fmt::Display for BytesPhrase {
    fn fmt<W: fmt::Write>(&self, f: &mut fmt::Formatter<W>) -> fmt::Result {
        let WriterRun { first, last, .. } = self.0;
        if first == last {
            write!(f, "byte {first}")
        } else {
            write!(f, "bytes {first} to {last}")
        }
    }
}

/// How a thread ends.
#[derive(Clone, Copy)]
pub struct EndPhrase(pub End);

impl fmt::Display for EndPhrase {
    fn fmt<W: fmt::Write>(&self, f: &mut fmt::Formatter<W>) -> fmt::Result {
        match self.0 {
            End::Done(Some(value)) => write!(f, "returns {value}"),
            End::Done(None) => f.write_str("returns nothing"),
            End::Trap(kind) => write!(f, "traps ({kind})"),
            End::Cut => f.write_str("has not ended"),
        }
    }
}

/// How a thread ends after its steps, as `and then it returns 1`, or `and has not ended`.
#[derive(Clone, Copy)]
pub struct AndEndPhrase(pub End);

impl fmt::Display for AndEndPhrase {
    fn fmt<W: fmt::Write>(&self, f: &mut fmt::Formatter<W>) -> fmt::Result {
        let phrase = EndPhrase(self.0);
        match self.0 {
            End::Done(_) | End::Trap(_) => write!(f, "and then it {phrase}"),
            End::Cut => write!(f, "and {phrase}"),
        }
    }
}
